//! Entries with one change.

use adlb_unit::{End, Rank};
use bag_ledger::Entry;

/// The entry with one change, by which it is no step where it was one. A call has another number, or a unit was not
/// put, or a batch not begun. A charge, a number of free units or an end is another. An end stands in place of
/// exhaustion, or a Finish in place of a put or of the beginning of a batch.
pub(crate) fn changed(entry: Entry) -> Entry {
    match entry {
        Entry::Putting { rank, call, .. } | Entry::Keeping { rank, call, .. } => Entry::Finished {
            rank,
            call: call.wrapping_add(1),
        },
        Entry::Exhausted => Entry::Over {
            rank: Rank(0),
            call: 0,
            end: End::NoMoreWork,
        },
        mut other => {
            change(&mut other);
            other
        }
    }
}

// One number of the entry, or its end, becomes another.
fn change(entry: &mut Entry) {
    match entry {
        Entry::Refused { used, .. } => *used = used.wrapping_add(1),
        Entry::Counted { info, .. } => info.free = info.free.wrapping_add(1),
        Entry::Over { end, .. } => *end = other_end(*end),
        Entry::Asked { call, .. }
        | Entry::Tried { call, .. }
        | Entry::Rejected { call, .. }
        | Entry::Looked { call, .. }
        | Entry::NoCurrent { call, .. }
        | Entry::Counting { call, .. }
        | Entry::Closing { call, .. }
        | Entry::Done { call, .. }
        | Entry::Finished { call, .. } => *call = call.wrapping_add(1),
        other => change_unit(other),
    }
}

// Of an entry about a unit the unit.
fn change_unit(entry: &mut Entry) {
    match entry {
        Entry::Accepted { id, .. }
        | Entry::Granted { id, .. }
        | Entry::Fetching { id, .. }
        | Entry::Fetched { id, .. }
        | Entry::Promised { id, .. }
        | Entry::Left { id, .. }
        | Entry::Arrived { id, .. }
        | Entry::Withdrawn { id, .. } => id.number = id.number.wrapping_add(1000),
        other => change_batch(other),
    }
}

// Of an entry about a batch the batch.
fn change_batch(entry: &mut Entry) {
    match entry {
        Entry::Kept { batch, .. }
        | Entry::Closed { batch, .. }
        | Entry::Freed { batch, .. }
        | Entry::CommonFetched { batch, .. } => batch.number = batch.number.wrapping_add(1000),
        _ => {}
    }
}

fn other_end(end: End) -> End {
    match end {
        End::NoMoreWork => End::Exhausted,
        End::Exhausted => End::NoMoreWork,
    }
}
