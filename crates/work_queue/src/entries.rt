//! What the index has of a free unit, and how it stands to others.

ghost use Rattle.std.specs.Prelude.{◌≡◌, IsSome, None, Some};
ghost use Rattle.slab.specs.Slab.{get};
ghost use Rattle.work_queue.specs.inside.Index.{entry_of, goes_before, lower_first, named_by, runs_before, sort_of, by_run, by_turn};
ghost use Rattle.work_queue.specs.declared.placing.Placed.{Placed};
ghost use Rattle.adlb_unit.specs.declared.names.Rank.{Rank};

use crate::placing::Placed;
use adlb_unit::{Rank, Target, WorkType};
use slab::Slab;

// What the index has of a free unit: what orders it, and the stamp, which leads to it. It is small, since entries move.
#[derive(Clone, Copy)]
pub struct Entry {
    pub kind: WorkType,
    pub target: Target,
    pub prio: i32,
    // How many units had come before it.
    pub stamp: u64,
}

// The entry of the unit that came at this count of arrivals.
pub(crate) fn entry_for(placed: &Placed, stamp: u64) -> Entry
    ensures { result ≡ entry_of placed.now stamp }
{
    Entry {
        kind: placed.unit.kind,
        target: placed.unit.target,
        prio: placed.unit.prio,
        stamp,
    }
}

// The entry of the unit under the key.
pub(crate) fn entry_under(slots: &Slab<Placed>, key: usize, stamp: u64) -> Entry
    requires { IsSome (get slots.now key) }
    ensures { (p : Placed) → get slots.now key ≡ Some p → result ≡ entry_of p stamp }
{
    let Some(placed) = slots.get(key) else {
        unreachable!()
    };
    entry_for(placed, stamp)
}

// The entry of the unit under the key, if it is free.
pub(crate) fn free_entry(slots: &Slab<Placed>, key: usize, stamp: u64) -> Option<Entry>
    ensures free { (p : Placed) → get slots.now key ≡ Some p → p.pin ≡ None → result ≡ Some (entry_of p stamp) }
    ensures pinned { (p : Placed) (rank : Rank) → get slots.now key ≡ Some p → p.pin ≡ Some rank → result ≡ None }
{
    let placed = slots.get(key)?;
    match placed.pin {
        None => Some(entry_for(placed, stamp)),
        Some(_) => None,
    }
}

// What kind of target it is, and the rank that it names.
fn target_order(target: Target) -> (u8, u32)
    ensures sort { result.0 ≡ sort_of target }
    ensures named { result.1 ≡ named_by target }
{
    match target {
        Target::Only(Rank(rank)) => (0, rank),
        Target::Soft(Rank(rank)) => (1, rank),
        Target::Any => (2, 0),
    }
}

// The type and target of `a` come before those of `b`, otherwise `rest` decides.
pub(crate) fn run_comes_first(a: &Entry, b: &Entry, rest: bool) -> bool
    ensures { result ≡ by_run a.now b.now rest }
{
    let (sort, named) = target_order(a.target);
    let (other_sort, other_named) = target_order(b.target);
    a.kind.0 < b.kind.0
        || (a.kind.0 == b.kind.0
            && (sort < other_sort
                || (sort == other_sort && (named < other_named || (named == other_named && rest)))))
}

// The priority of `a` is higher, or even and `a` came earlier.
pub(crate) fn turn_comes_first(a: &Entry, b: &Entry) -> bool
    ensures { result ≡ by_turn a.now b.now }
{
    b.prio < a.prio || (!(a.prio < b.prio) && a.stamp < b.stamp)
}

// `a` comes before `b` in the index.
pub(crate) fn comes_before(a: &Entry, b: &Entry) -> bool
    ensures { result ≡ goes_before a.now b.now }
{
    run_comes_first(a, b, turn_comes_first(a, b))
}

// The type and target of `a` come before those of `b`.
pub(crate) fn is_of_earlier_run(a: &Entry, b: &Entry) -> bool
    ensures { result ≡ runs_before a.now b.now }
{
    run_comes_first(a, b, false)
}
