//! A merge of what many actors kept against a sort.

use crate::keeping::keep;
use adlb_unit::{NoMemory, Rank};
use bag_ledger::Entry;
use merge_history::merge;
use packed_ledger::{Kept, Ledger};
use std::alloc::{AllocError, Global};
use std::test::Fail;

/// How many actors.
const ACTORS: u32 = 33;

// The next pseudo-random word.
fn next(word: u64) -> u64 {
    word.wrapping_mul(6364136223846793005)
        .wrapping_add(1442695040888963407)
}

/// What an entry tells: the stamp of its event, its actor, and its number among those of this event.
type Told = (u64, u32, u64);

// An entry that tells this.
fn entry((stamp, actor, number): Told) -> Entry {
    Entry::Finished {
        rank: Rank(actor),
        call: stamp.wrapping_mul(4).wrapping_add(number),
    }
}

// Adds what the entries of up to 63 events of an actor tell. Their stamps rise by up to 4, and each event has up to 3 entries.
fn make(all: &mut Vec<Told>, actor: u32) -> Result<(), AllocError> {
    let mut word = next(u64::from(actor));
    let mut stamp = 0u64;
    for _ in 0..word >> 33 & 63 {
        word = next(word);
        stamp = stamp.wrapping_add(1 + (word >> 33 & 3));
        for number in 0..word >> 40 & 3 {
            all.push((stamp, actor, number))?;
        }
    }
    Ok(())
}

// That of all actors.
fn all_made(alloc: Global) -> Result<Vec<Told>, AllocError> {
    let mut all = Vec::new(alloc);
    for actor in 0..ACTORS {
        make(&mut all, actor)?;
    }
    Ok(all)
}

// The actor of this number kept entries that tell what is its own of this.
fn kept(alloc: Global, made: &[Told], actor: u32) -> Result<Kept, NoMemory> {
    let mut kept = Kept::new(alloc);
    for told in made {
        if told.1 == actor {
            keep(&mut kept, told.0, entry(*told))?;
        }
    }
    Ok(kept)
}

// So did all actors.
fn all_kept(alloc: Global, made: &[Told]) -> Result<Vec<Kept>, Fail> {
    let mut all = Vec::new(alloc);
    for actor in 0..ACTORS {
        all.push(kept(alloc, made, actor)?)?;
    }
    Ok(all)
}

fn told(entry: &Entry) -> Told {
    match entry {
        Entry::Finished { rank, call } => (call / 4, rank.0, call % 4),
        _ => (0, 0, 0),
    }
}

// These entries tell this, in this order.
fn are_told(entries: &[Entry], wanted: &[Told]) -> bool {
    for (entry, wanted) in entries.iter().zip(wanted) {
        if told(entry) != *wanted {
            return false;
        }
    }
    entries.len() == wanted.len()
}

// The ledger has these entries, in the order of a sort.
fn is_in_order(alloc: Global, ledger: &Ledger, made: &mut Vec<Told>) -> Result<bool, Fail> {
    made.sort()?;
    let entries = ledger.list(alloc)?;
    let fits = are_told(entries.as_slice(), made.as_slice());
    drop(entries);
    Ok(fits)
}

// What these actors kept is merged as their entries are sorted.
fn is_sort(alloc: Global, made: &mut Vec<Told>) -> Result<bool, Fail> {
    let ledger = merge(alloc, all_kept(alloc, made.as_slice())?)?;
    let fits = is_in_order(alloc, &ledger, made);
    drop(ledger);
    Ok(fits? && made.len() > 500)
}

#[test]
fn a_merge_is_a_sort(rt: HostRuntime) -> Result<(), Fail> {
    let mut made = all_made(rt.alloc())?;
    assert!(rt; is_sort(rt.alloc(), &mut made)?);
    Ok(())
}
