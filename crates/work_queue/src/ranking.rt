//! Which entry of the index comes first for a rank, and which is pushed first. The entries of one type and target stand
//! side by side, so that each such run is looked at once, and the next is found by binary search.

ghost use Rattle.std.specs.Prelude.{◌≡◌, length, Some, Option};
ghost use Rattle.work_queue.specs.inside.Index.{IsInOrder, IsLeading, leading, may_have, may_move, moves_first, suits_better};

use crate::entries::{Entry, turn_comes_first};
use crate::indexing::run_at;
use crate::parted::Parted;
use adlb_unit::{Rank, Target, Types, class_for, permits};

// For the rank, `entry` comes before `other`.
fn is_better(rank: Rank, entry: &Entry, other: &Entry) -> bool
    ensures { result ≡ suits_better rank entry.now other.now }
{
    let class = class_for(rank, entry.target);
    let other_class = class_for(rank, other.target);
    class < other_class || (class == other_class && turn_comes_first(entry, other))
}

// The better for the rank of what was found before and this entry.
fn better_of(rank: Rank, found: Option<Entry>, entry: Entry) -> Entry
    ensures { result ≡ leading (suits_better rank) found entry }
{
    match found {
        None => entry,
        Some(found) => {
            if is_better(rank, &entry, &found) {
                entry
            } else {
                found
            }
        }
    }
}

// The best entry for the rank: of each run that it may have, the first is looked at.
pub(crate) fn best_entry(entries: &Parted<Entry>, rank: Rank, types: &Types) -> Option<Entry>
    requires { IsInOrder entries.now.items }
    ensures { IsLeading (may_have rank types.now) (suits_better rank) entries.now.items (length entries.now.items) result }
{
    let mut best: Option<Entry> = None;
    let mut place = 0;
    while place < entries.len() {
        let run = run_at(entries, place);
        if permits(rank, types, run.first.kind, run.first.target) {
            best = Some(better_of(rank, best, run.first));
        }
        place = run.end;
    }
    best
}

// The unit may be pushed.
fn is_for_any(entry: &Entry) -> bool
    ensures { result ≡ may_move entry.now }
{
    match entry.target {
        Target::Any => true,
        Target::Only(_) | Target::Soft(_) => false,
    }
}

// Of what was found before and this entry, the one that is pushed first.
fn first_of(found: Option<Entry>, entry: Entry) -> Entry
    ensures { result ≡ leading moves_first found entry }
{
    match found {
        None => entry,
        Some(found) => {
            if turn_comes_first(&found, &entry) {
                entry
            } else {
                found
            }
        }
    }
}

// The entry that is pushed first: of each run of target any, the last is looked at.
pub(crate) fn first_to_move(entries: &Parted<Entry>) -> Option<Entry>
    requires { IsInOrder entries.now.items }
    ensures { IsLeading may_move moves_first entries.now.items (length entries.now.items) result }
{
    let mut first: Option<Entry> = None;
    let mut place = 0;
    while place < entries.len() {
        let run = run_at(entries, place);
        if is_for_any(&run.last) {
            first = Some(first_of(first, run.last));
        }
        place = run.end;
    }
    first
}
