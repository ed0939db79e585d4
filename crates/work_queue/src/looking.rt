//! What a queue says of its units.

ghost use Rattle.std.specs.Prelude.{◌≡◌, ◌↔◌, All, Any, IfSome, IsSome, IsTrue, Some, find, option_copied};
ghost use Rattle.work_queue.specs.Counts.{counts_of};
ghost use Rattle.work_queue.specs.Facts.{facts_of};
ghost use Rattle.work_queue.specs.Fits.{IsAsked, IsFirstFit, first_fit};
ghost use Rattle.work_queue.specs.Push.{IsFirstToPush, IsMovable, first_to_push_of};
ghost use Rattle.work_queue.specs.Queue.{HasDistinctIds, HasFree, HasPinned, HasUnit, IsSmall, id_of, is_unit};

use crate::counting::count_kind;
use crate::fitting::first_asked;
use crate::placing::{Placed, UnitFacts};
use crate::queues::WorkQueue;
use crate::ranking::first_to_move;
use crate::searching::stamped;
use adlb_unit::{Info, Rank, Target, Types, UnitId, WorkType};

impl WorkQueue {
    /// A unit of this id is here, free or pinned (`HasUnit`).
    pub fn has_unit(&self, id: UnitId) -> bool
        ensures { IsTrue result ↔ HasUnit id self.now.units }
    {
        self.unit(id).is_some()
    }

    /// A free unit of this id is here (`HasFree`).
    pub fn is_free(&self, id: UnitId) -> bool
        ensures { IsTrue result ↔ HasFree id self.now.units }
    {
        match self.unit(id) {
            Some(placed) => placed.pin.is_none(),
            None => false,
        }
    }

    /// The rank to which the unit of this id is pinned (`HasPinned`). `None` exactly when no pinned unit has
    /// this id.
    pub fn pinned_to(&self, id: UnitId) -> Option<Rank>
        ensures { (rank : Rank) → (result ≡ Some rank) ↔ HasPinned id rank self.now.units }
    {
        match self.unit(id) {
            Some(placed) => placed.pin,
            None => None,
        }
    }

    /// The note of the unit of this id (`facts_of`), and its target.
    pub fn facts(&self, id: UnitId) -> (UnitFacts, Target)
        requires { HasUnit id self.now.units }
        ensures facts { All (λ p. id_of p ≡ id → result.0 ≡ facts_of p) self.now.units }
        ensures target { All (λ p. id_of p ≡ id → result.1 ≡ p.unit.target) self.now.units }
    {
        let Some(placed) = self.unit(id) else {
            unreachable!()
        };
        (placed.facts(), placed.unit.target)
    }

    /// The free unit of target any that is pushed first (`IsFirstToPush`), the one of lowest priority and of
    /// these the latest arrival, with its length in bytes. `None` exactly when no free unit has target any
    /// (`IsMovable`).
    pub fn first_to_push(&self) -> Option<(UnitId, u32)>
        ensures first { IfSome result (IsFirstToPush self.now.units) }
        ensures some { IsSome result ↔ Any IsMovable self.now.units }
        ensures free { IfSome result (λ is. HasFree is.0 self.now.units) }
        ensures fold { result ≡ first_to_push_of self.now.units }
    {
        match first_to_move(&self.index.entries) {
            None => None,
            Some(entry) => {
                let stamps = &self.index.stamps;
                let placed = stamped(&self.slots, &self.order, stamps, entry.stamp);
                Some((placed.unit.id, placed.unit.body.len() as u32))
            }
        }
    }

    /// The first free unit in arrival order that is permitted to one of the requests, each a rank with the
    /// types that it wants (`IsFirstFit`). `None` exactly when no free unit is permitted to any of them
    /// (`IsAsked`).
    pub fn fits(&self, asked: &[(Rank, Types)]) -> Option<UnitId>
        ensures first { IfSome result (IsFirstFit asked.now self.now.units) }
        ensures some { IsSome result ↔ Any (IsAsked asked.now) self.now.units }
        ensures free { IfSome result (λ id. HasFree id self.now.units) }
        ensures found { result ≡ first_fit asked.now self.now.units }
    {
        match first_asked(&self.index.entries, asked) {
            None => None,
            Some(entry) => {
                let stamps = &self.index.stamps;
                let placed = stamped(&self.slots, &self.order, stamps, entry.stamp);
                Some(placed.unit.id)
            }
        }
    }

    /// Of the free units of this type: how many there are, their highest priority, and how many have it
    /// (`counts_of`).
    pub fn counts(&self, kind: WorkType) -> Info
        ensures { result ≡ counts_of kind self.now.units }
    {
        count_kind(&self.index.entries, kind)
    }

    // The unit of this id.
    fn unit(&self, id: UnitId) -> Option<&Placed>
        ensures found { option_copied result ≡ find (is_unit id) self.now.units }
        ensures distinct { HasDistinctIds self.now.units }
        ensures small { All IsSmall self.now.units }
    {
        let place = self.names.place_of(&self.index.stamps, id);
        match self.order.get(place) {
            Some(key) => self.slots.get(*key),
            None => None,
        }
    }
}
