//! What is wrong with a ledger.

ghost use Rattle.std.specs.Prelude.{◌≡◌, ◌↔◌, ◌≤◌, IfOk, IfSome, None, length};
ghost use Rattle.bag_ledger.specs.Bag.{start};
ghost use Rattle.bag_ledger.specs.Runs.{IsFirstIllegal, IsLegal};
ghost use Rattle.bag_ledger.specs.Step.{step};
ghost use Rattle.ledger_rules.specs.Complaints.{IsComplaint};
ghost use Rattle.ledger_rules.specs.Table.{broken, rules_of};

use crate::rules::Rule;
use crate::table::first_broken;
use crate::words::append_rule;
use adlb_unit::{Config, NoMemory, or_no_memory};
use bag_ledger::Entry;
use ledger_checker::{Machine, Stop, Unwatched, first_stop};
use ledger_file::write_ledger;
use packed_ledger::Ledger;
use std::alloc::Global;

/// The first entry of a ledger that is no step, its place, from 0, and the first of its rules that is not met there.
#[derive(Drop)]
pub struct Complaint {
    pub place: u64,
    pub entry: Entry,
    pub rule: Rule,
}

impl Complaint {
    /// The entry's text and the rule that it breaks, in words. Its only error is `NoMemory`.
    pub fn text(self, alloc: Global) -> Result<Vec<u8>, NoMemory> {
        let mut text = line_of(alloc, self.entry)?;
        or_no_memory(text.extend_from_slice(b": "))?;
        append_rule(&mut text, self.rule)?;
        Ok(text)
    }
}

// The entry's line, without its line feed: the second line of the text of a ledger with this entry alone.
fn line_of(alloc: Global, entry: Entry) -> Result<Vec<u8>, NoMemory> {
    let Ok(config) = Config::new(1, 1, 64) else {
        return Err(NoMemory);
    };
    let mut ledger = Ledger::new(alloc);
    ledger.push(entry)?;
    let text = write_ledger(alloc, &config, &ledger)?;
    let mut line = Vec::new(alloc);
    if let Some(second) = text.split(|byte| *byte == b'\n').nth(1) {
        or_no_memory(line.extend_from_slice(second))?;
    }
    Ok(line)
}

/// What is wrong with the ledger (`IsComplaint`): nothing exactly if it is a legal run. Its only error is `NoMemory`.
pub fn first_complaint(
    alloc: Global,
    config: &Config,
    ledger: &Ledger,
) -> Result<Option<Complaint>, NoMemory>
    ensures none { IfOk result (λ found. (found ≡ None) ↔ IsLegal config.now ledger.now) }
    ensures some { IfOk result (λ found. IfSome found (IsComplaint config.now ledger.now)) }
    ensures least { IfOk result (λ found. IfSome found (λ c. IsFirstIllegal (start config.now) ledger.now c.place)) }
{
    let mut machine = Machine::new(alloc, config)?;
    match first_stop(alloc, &mut machine, ledger, &mut Unwatched {})? {
        Some(stop) => Ok(Some(complain(&machine, stop))),
        None => Ok(None),
    }
}

/// What is wrong where a ledger that is followed stops, and the machine is as the entries before leave it.
pub fn complain(machine: &Machine, stop: Stop) -> Complaint
    requires ranks { length machine.now.ranks ≤ 32 }
    requires stops { step machine.now stop.entry ≡ None }
    ensures place { result.place ≡ stop.place }
    ensures entry { result.entry ≡ stop.entry }
    ensures breaks { broken machine.now (rules_of stop.entry) ≡ Some result.rule }
{
    let Stop { place, entry } = stop;
    match first_broken(machine, &entry) {
        Some(rule) => Complaint { place, entry, rule },
        None => unreachable!(),
    }
}
