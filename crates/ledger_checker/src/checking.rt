//! The checker.

ghost use Rattle.std.specs.Prelude.{◌≡◌, ◌↔◌, ◌≤◌, ℕ, IfOk, IfSome, None, Some, Ok, length};
ghost use Rattle.std.specs.Option.{option_map};
ghost use Rattle.bag_ledger.specs.Bag.{start};
ghost use Rattle.bag_ledger.specs.Step.{step};
ghost use Rattle.bag_ledger.specs.Runs.{IsFirstIllegal, IsLegal, first_illegal};
ghost use Rattle.ledger_checker.specs.Room.{HasRoom};
ghost use Rattle.ledger_checker.specs.Stops.{first_stop};

use crate::machines::Machine;
use adlb_unit::{Config, NoMemory};
use bag_ledger::Entry;
use packed_ledger::Ledger;
use std::alloc::Global;

/// The place of the first entry of the ledger that is no step of the bag from the state which the entries before it leave,
/// counted from 0. `None` exactly if the ledger is a legal run. So it is the least such place. It fails for want of memory
/// alone.
///
/// A ledger of n entries takes time within n log n and room within n. Each entry looks a few things up by their ids, and
/// `Looked` and `Counted` look counts up. Those are two for each type that the rank wants, of which there are 16 at most, or two
/// in all. `Exhausted` alone, which is legal once, looks at all units for each rank, of which there are 32 at most, and at all
/// promises.
pub fn first_illegal(
    alloc: Global,
    ledger: &Ledger,
    config: &Config,
) -> Result<Option<u64>, NoMemory>
    ensures same { IfOk result (λ found. found ≡ first_illegal (start config.now) 0 ledger.now) }
    ensures legal { IfOk result (λ found. (found ≡ None) ↔ IsLegal config.now ledger.now) }
    ensures least { (place : ℕ) → IfOk result (λ found. (found ≡ Some place) ↔ IsFirstIllegal (start config.now) ledger.now place) }
{
    let mut machine = Machine::new(alloc, config)?;
    let stop = first_stop(alloc, &mut machine, ledger, &mut Unwatched {})?;
    Ok(place_of(stop))
}

/// Whoever looks on while a ledger is followed.
pub trait Watch {
    /// The entry at this place, from 0, was a step, and the machine is as it leaves it. Its only error is `NoMemory`.
    fn took(&mut self, machine: &Machine, place: u64, entry: &Entry) -> Result<(), NoMemory>;
}

/// Nobody looks on.
#[derive(Drop)]
pub struct Unwatched {}

impl Watch for Unwatched {
    fn took(&mut self, _machine: &Machine, _place: u64, _entry: &Entry) -> Result<(), NoMemory> {
        Ok(())
    }
}

/// An entry that is no step, and its place, from 0.
#[derive(Drop)]
pub struct Stop {
    pub place: u64,
    pub entry: Entry,
}

// The place of the stop, if there is one.
fn place_of(stop: Option<Stop>) -> Option<u64>
    ensures { result ≡ option_map (λ s. s.place) stop }
{
    match stop {
        Some(stop) => Some(stop.place),
        None => None,
    }
}

/// Follows the ledger from the machine's state on, up to the first entry that is no step (`first_stop`), which is given back. The machine
/// is then as the entries before leave it. `watch` is told each entry that was a step. Its only error is `NoMemory`, and then the machine
/// is of no use.
pub fn first_stop<W: Watch>(
    alloc: Global,
    machine: &mut Machine,
    ledger: &Ledger,
    watch: &mut W,
) -> Result<Option<Stop>, NoMemory>
    requires { HasRoom 0 machine.old }
    ensures stop { IfOk result (λ found.
        option_map (λ s. (s.place, s.entry, machine.new)) found ≡ first_stop machine.old 0 ledger.now) }
    ensures no_step { IfOk result (λ found. IfSome found (λ s. step machine.new s.entry ≡ None)) }
    ensures ranks { IfOk result (λ found. length machine.new.ranks ≤ 32) }
{
    let mut entries = ledger.entries();
    for place in 0..ledger.len() {
        let Some(entry) = entries.next(alloc)? else {
            unreachable!()
        };
        if !machine.apply(&entry)? {
            return Ok(Some(Stop { place, entry }));
        }
        watch.took(machine, place, &entry)?;
    }
    Ok(None)
}
