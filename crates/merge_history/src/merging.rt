//! One ledger of what all actors kept.

ghost use Rattle.std.specs.Prelude.{◌≡◌, List, IfOk, map};
ghost use Rattle.flat_merge.specs.Taking.{IsLeast, better};
ghost use Rattle.adlb_unit.specs.declared.configs.Config.{Config};
ghost use Rattle.merge_history.specs.Events.{OfActor};
ghost use Rattle.merge_history.specs.Kept.{kept_of};
ghost use Rattle.merge_history.specs.Merging.{AllClimb, CanMerge, IsLedgerOf, stamp_at};
ghost use Rattle.merge_history.specs.Own.{Compose, Finals, IsOneHistory};

use crate::fronts::{Front, fronts_of};
use adlb_unit::NoMemory;
use packed_ledger::{Kept, Ledger};
use std::alloc::Global;

/// The entries that all actors of a run kept, in one ledger. They are ordered by stamp, then by actor, the ranks
/// before the servers, and of one actor in its own order (`IsLedgerOf`). It is asked that stamps do not fall in what
/// each actor kept.
///
/// If it is what is kept of journals that compose, there is one history of all their events: a run of all actors,
/// with the entries of the ledger (`IsOneHistory`). No event is held. Its only error is `NoMemory`.
pub fn merge(alloc: Global, kept: Vec<Kept>) -> Result<Ledger, NoMemory>
    ensures merged { IfOk result (λ ledger. AllClimb (map (λ k. k.entries) kept.items) → IsLedgerOf (map (λ k. k.entries) kept.items) ledger) }
    ensures run { IfOk result (λ ledger. (config : Config) (journals : List OfActor) (finals : Finals)
        → CanMerge config journals → map (λ k. k.entries) kept.items ≡ map (λ j. kept_of j.events) journals
        → Compose config finals journals → IsOneHistory config finals journals ledger) }
{
    merged_entries(alloc, kept)
}

// The entries of all, in order.
fn merged_entries(alloc: Global, kept: Vec<Kept>) -> Result<Ledger, NoMemory>
    ensures { IfOk result (λ ledger. AllClimb (map (λ k. k.entries) kept.items) → IsLedgerOf (map (λ k. k.entries) kept.items) ledger) }
{
    let mut ledger = Ledger::new(alloc);
    let mut fronts = fronts_of(alloc, kept)?;
    while let Some(at) = least(&fronts) {
        let front = &mut fronts[at];
        match front.take_first(alloc)? {
            Some(first) => ledger.push(first.entry)?,
            None => return Ok(ledger),
        }
    }
    Ok(ledger)
}

// The first of those that begin with the lowest stamp.
fn least(fronts: &[Front]) -> Option<usize>
    ensures { IsLeast stamp_at fronts.now result }
{
    let mut best: Option<(usize, u64)> = None;
    for at in 0..fronts.len() {
        best = better(best, at, fronts[at].first_stamp());
    }
    match best {
        Some((at, _)) => Some(at),
        None => None,
    }
}

// The better of the best and the next, if that one has an entry: the one with the lower stamp.
fn better(best: Option<(usize, u64)>, at: usize, stamp: Option<u64>) -> Option<(usize, u64)>
    ensures { result ≡ better best at stamp }
{
    let Some(stamp) = stamp else {
        return best;
    };
    match best {
        Some((_, least)) if least <= stamp => best,
        _ => Some((at, stamp)),
    }
}
