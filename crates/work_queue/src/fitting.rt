//! Which entry of the index is the first that is permitted to one of several requests. Of the entries of one type and target,
//! which are side by side, either each is permitted or no entry is. So a run that is not is passed over at once.

ghost use Rattle.std.specs.Prelude.{◌≡◌, ◌<◌, ◌≤◌, ℕ, length, slice_index_or, true};
ghost use Rattle.std.specs.List.{list_any};
ghost use Rattle.adlb_unit.specs.Permit.{permitted};
ghost use Rattle.work_queue.specs.inside.Index.{IsInOrder, IsLeading, came_first, leading, may_serve};
ghost use Rattle.work_queue.specs.declared.entries.Entry.{Entry};

use crate::entries::Entry;
use crate::indexing::run_at;
use crate::parted::Parted;
use adlb_unit::{Rank, Types, permits};

// The unit is permitted to one of the requests.
fn is_permitted(entry: &Entry, asked: &[(Rank, Types)]) -> bool
    ensures { result ≡ list_any (λ a. permitted a.0 a.1 entry.now.kind entry.now.target) asked.now }
{
    for (rank, types) in asked {
        if permits(*rank, types, entry.kind, entry.target) {
            return true;
        }
    }
    false
}

// Of what was found before and this entry, the one that came first.
fn earlier_of(found: Option<Entry>, entry: Entry) -> Entry
    ensures { result ≡ leading came_first found entry }
{
    match found {
        None => entry,
        Some(found) => {
            if entry.stamp < found.stamp {
                entry
            } else {
                found
            }
        }
    }
}

// Of what was found before and the entries from `start` to `end`, which are all permitted, the one that came first.
fn earliest_of(
    entries: &Parted<Entry>,
    asked: &[(Rank, Types)],
    start: usize,
    end: usize,
    found: Option<Entry>,
) -> Option<Entry>
    requires leads { IsLeading (may_serve asked.now) came_first entries.now.items start found }
    requires below { start ≤ end }
    requires within { end ≤ length entries.now.items }
    requires serve { (k : ℕ) (d : Entry) → start ≤ k → k < end → may_serve asked.now (slice_index_or entries.now.items k d) ≡ true }
    ensures { IsLeading (may_serve asked.now) came_first entries.now.items end result }
{
    let mut first = found;
    for place in start..end {
        first = Some(earlier_of(first, entries.at(place)));
    }
    first
}

// The first entry to have come that is permitted to one of the requests.
pub(crate) fn first_asked(entries: &Parted<Entry>, asked: &[(Rank, Types)]) -> Option<Entry>
    requires { IsInOrder entries.now.items }
    ensures { IsLeading (may_serve asked.now) came_first entries.now.items (length entries.now.items) result }
{
    let mut first: Option<Entry> = None;
    let mut place = 0;
    while place < entries.len() {
        let run = run_at(entries, place);
        if is_permitted(&run.first, asked) {
            first = earliest_of(entries, asked, place, run.end, first);
        }
        place = run.end;
    }
    first
}
