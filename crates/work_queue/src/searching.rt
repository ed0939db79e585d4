//! Units in their slots, by their keys and by their stamps.

ghost use Rattle.std.specs.Prelude.{◌≡◌, ◌<◌, ◌^◌, ℕ, All, Contains, IfSome, IsSome, None, Some, ◌+◌, length, slice_index};
ghost use Rattle.std.specs.List.{AllPairs, slice_get};
ghost use Rattle.std.specs.Option.{option_map};
ghost use Rattle.slab.specs.Slab.{get, slab_len, with_value, Updates};
ghost use Rattle.work_queue.specs.Facts.{facts_of};
ghost use Rattle.work_queue.specs.inside.Units.{units_at};
ghost use Rattle.work_queue.specs.Queue.{IsSmall, seen};
ghost use Rattle.work_queue.specs.declared.placing.Placed.{Placed};

use crate::parted::Parted;
use crate::placing::{Placed, UnitFacts};
use adlb_unit::{Rank, Unit, UnitId};
use slab::Slab;

// The unit under the key, with its pin.
pub(crate) fn seen_at(slots: &Slab<Placed>, key: usize) -> Option<(UnitId, Option<Rank>)>
    ensures { result ≡ option_map seen (get slots.now key) }
{
    match slots.get(key) {
        Some(placed) => Some((placed.unit.id, placed.pin)),
        None => None,
    }
}

// Pins the unit under the key, and gives its note.
pub(crate) fn pin_at(slots: &mut Slab<Placed>, key: usize, rank: Rank) -> UnitFacts
    requires there { IsSome (get slots.old key) }
    requires small { IfSome (get slots.old key) IsSmall }
    ensures pinned { (p : Placed) → get slots.old key ≡ Some p → slots.new ≡ with_value slots.old key (record p { pin = Some rank }) }
    ensures facts { (p : Placed) → get slots.old key ≡ Some p → result ≡ facts_of p }
{
    let Some(placed) = slots.get_mut(key) else {
        unreachable!()
    };
    placed.pin = Some(rank);
    placed.facts()
}

// Takes the unit under the key away. The room that it had is free again.
pub(crate) fn take_at(slots: &mut Slab<Placed>, key: usize) -> Unit
    requires { IsSome (get slots.old key) }
    ensures unit { (p : Placed) → get slots.old key ≡ Some p → result ≡ p.unit }
    ensures taken { Updates slots.old slots.new key None }
    ensures len { slab_len slots.new + 1 ≡ slab_len slots.old }
    ensures capacity { slots.new.capacity ≡ slots.old.capacity }
{
    let Some(placed) = slots.try_remove(key) else {
        unreachable!()
    };
    placed.unit
}

// The unit of this stamp, which is found by binary search.
pub(crate) fn stamped<'a>(
    slots: &'a Slab<Placed>,
    order: &Parted<usize>,
    stamps: &Parted<u64>,
    stamp: u64,
) -> &'a Placed
    requires there { All (λ key. IsSome (get slots.now key)) order.now.items }
    requires rising { AllPairs (λ a b. a < b) stamps.now.items }
    requires long { length stamps.now.items ≡ length order.now.items }
    requires known { Contains stamps.now.items stamp }
    ensures { (place : ℕ) (p : Placed) → slice_get (units_at slots.now order.now.items) place ≡ Some p → slice_index stamps.now.items place ≡ stamp → result.now ≡ p }
{
    let place = stamps.place_of(stamp);
    let Some(placed) = slots.get(order.at(place)) else {
        unreachable!()
    };
    placed
}
