//! The queue of one server's units.

ghost use Rattle.std.specs.Prelude.{◌≡◌, ◌≢◌, ◌<◌, ◌≤◌, ◌+◌, ◌↔◌, ◌++◌, ◌∷◌, [], ℕ, All, Any, List, length, IsTrue, IfOk, IfErr, OnOk, OnErr, IfSome, IfNone, IsSome, IsNone, Some, None, Ok, Err, Option};
ghost use Rattle.std.specs.List.{slice_get};
ghost use Rattle.std.specs.Option.{option_map};
ghost use Rattle.adlb_unit.specs.Limits.{body_limit, stamp_limit};
ghost use Rattle.work_queue.specs.Best.{IsBest, IsOffered, best_of};
ghost use Rattle.work_queue.specs.Facts.{facts_of};
ghost use Rattle.work_queue.specs.Queue.{Queue, Promise, HasApartPromises, HasDistinctIds, HasDistinctPromises, HasFree, HasPinned, HasUnit, IsSmall, Overfills, charge_of, id_of, seen, with_pin, with_unit, without};

use crate::entries::{entry_for, entry_under, free_entry};
use crate::growth::make_room;
use crate::indexing::Index;
use crate::naming::Names;
use crate::parted::Parted;
use crate::placing::{Placed, UnitFacts};
use crate::ranking::best_entry;
use crate::rooms::Rooms;
use crate::searching::{pin_at, seen_at, stamped, take_at};
use adlb_unit::{Payload, Rank, Types, Unit, UnitId};
use slab::Slab;
use std::alloc::Global;
use std::marker::Model;
use thiserror::Error;

/// Why a unit is refused.
#[derive(Clone, Copy, Debug, Error)]
pub enum AddFault {
    /// The queue's charge is `charge` bytes, and the unit's body would go beyond its limit (`Overfills`).
    #[error("the queue is full at {charge} bytes")]
    Full { charge: u64 },
    /// Allocation failed. Contracts never say when.
    #[error("out of memory")]
    Memory,
}

/// The units of one server in arrival order, each with its pin. Beside them are the room that is promised to
/// units on their way and the bytes of common parts, all within a limit of bytes. Contracts see it as a `Queue`
/// of `specs/Queue.antt`. Only `add` and `promise` take memory.
pub struct WorkQueue {
    // The units, each under a key that it keeps as long as it stays.
    pub(crate) slots: Slab<Placed>,
    // The keys in arrival order. All four have room for each unit that is promised room.
    pub(crate) order: Parted<usize>,
    // The free units in order.
    pub(crate) index: Index,
    // The units by their ids.
    pub(crate) names: Names,
    pub(crate) rooms: Rooms,
    // The bytes of common parts.
    pub(crate) common: u64,
    // The bytes of units, promises and common parts together.
    pub(crate) charge: u64,
    pub(crate) arrivals: u64,
    pub(crate) limit: u64,
}

// By hand, so that whoever holds a queue lets it go by one call, and does not look at how it holds its units.
impl Drop for WorkQueue {
    fn drop(self) {
        let WorkQueue {
            slots,
            order,
            index,
            names,
            rooms,
            common,
            charge,
            arrivals,
            limit,
        } = self;
    }
}

impl Model for WorkQueue {
    ghost use Rattle.work_queue.specs.Queue.{Queue};

    ghost Value = { Queue };

    ghost use Rattle.work_queue.specs.inside.{queue_of, IsSound};

    ghost view = { queue_of };

    ghost invariant = { IsSound };
}

impl WorkQueue {
    /// An empty queue that takes at most `limit` bytes. It takes no memory yet.
    pub fn new(alloc: Global, limit: u64) -> WorkQueue
        ensures { result ≡ record { units = []; promises = []; common = 0; arrivals = 0; limit = limit } }
    {
        WorkQueue {
            slots: Slab::new(alloc),
            order: Parted::new(alloc),
            index: Index::new(alloc),
            names: Names::new(alloc),
            rooms: Rooms::new(alloc),
            common: 0,
            charge: 0,
            arrivals: 0,
            limit,
        }
    }

    /// The bytes that the bodies of the queue's units, its promises and its common parts take together
    /// (`charge_of`). They are never more than the limit. Besides, it says what is so of each queue. No two
    /// units have the same id, nor do two promises, and no unit has the id of a promise. Each body has fewer
    /// than 2^32 bytes.
    pub fn charge(&self) -> u64
        ensures exact { result ≡ charge_of self.now }
        ensures within { result ≤ self.now.limit }
        ensures distinct { HasDistinctIds self.now.units }
        ensures small { All IsSmall self.now.units }
        ensures once { HasDistinctPromises self.now.promises }
        ensures apart { HasApartPromises self.now.units self.now.promises }
    {
        self.charge
    }

    /// How many units have ever come: pinned and taken ones count, refused ones do not.
    pub fn arrivals(&self) -> u64
        ensures { result ≡ self.now.arrivals }
    {
        self.arrivals
    }

    /// Puts a free unit last (`with_unit`). Its id is new to the queue's units and promises, and its body has at most
    /// 2^20 bytes. At a refusal the queue is as it was, and the unit comes back. The fault is `AddFault::Full`
    /// exactly if the body would go beyond the limit (`Overfills`), whether there is memory or not, otherwise
    /// `AddFault::Memory`.
    pub fn add(&mut self, unit: Unit) -> Result<(), (Unit, AddFault)>
        requires new { All (λ p. id_of p ≢ unit.id) self.old.units }
        requires unpromised { All (λ (p : Promise). p.id ≢ unit.id) self.old.promises }
        requires size { length unit.body ≤ body_limit }
        requires room { self.old.arrivals < stamp_limit }

        ensures added { OnOk result (self.new ≡ with_unit self.old unit) }
        ensures full { (n : ℕ) → (result ≡ Err (unit, AddFault.Full n)) ↔ (Overfills self.old unit × (n ≡ charge_of self.old)) }
        ensures back { IfErr result (λ e. e.0 ≡ unit) }
        ensures err { OnErr result (self.new ≡ self.old) }
    {
        let length = unit.body.len() as u64;
        if length > self.limit - self.charge {
            let charge = self.charge;
            return Err((unit, AddFault::Full { charge }));
        }
        let more = self.rooms.len() + 1;
        let grown = make_room(
            &mut self.slots,
            &mut self.order,
            &mut self.index,
            &mut self.names,
            more,
        );
        if grown.is_err() {
            return Err((unit, AddFault::Memory));
        }
        self.names.add(unit.id, self.arrivals);
        let placed = Placed { unit, pin: None };
        self.index.add(entry_for(&placed, self.arrivals));
        let key = self.slots.insert_reserved(placed);
        self.order.push(key);
        self.charge += length;
        self.arrivals += 1;
        Ok(())
    }

    /// The best free unit that is permitted to the rank (`IsBest`). First comes one for this rank alone, then
    /// for this rank before others, then for any, then for another rank before this one. Of these it is the one
    /// of higher priority, then of earlier arrival. `None` exactly when no free unit is permitted
    /// (`IsOffered`).
    pub fn best(&self, rank: Rank, types: &Types) -> Option<UnitId>
        ensures best { IfSome result (IsBest rank types.now self.now.units) }
        ensures some { IsSome result ↔ Any (IsOffered rank types.now) self.now.units }
        ensures free { IfSome result (λ id. HasFree id self.now.units) }
        ensures fold { result ≡ best_of rank types.now self.now.units }
    {
        match best_entry(&self.index.entries, rank, types) {
            None => None,
            Some(entry) => {
                let stamps = &self.index.stamps;
                Some(
                    stamped(&self.slots, &self.order, stamps, entry.stamp)
                        .unit
                        .id,
                )
            }
        }
    }

    /// Pins the free unit of this id to a rank, and changes nothing else (`with_pin`). It gives the note of the unit
    /// for that rank.
    pub fn pin(&mut self, id: UnitId, rank: Rank) -> UnitFacts
        requires { HasFree id self.old.units }
        ensures pinned { self.new ≡ with_pin self.old id rank }
        ensures held { HasPinned id rank self.new.units }
        ensures facts { All (λ p. id_of p ≡ id → result ≡ facts_of p) self.old.units }
    {
        let place = self.names.place_of(&self.index.stamps, id);
        let key = self.order.at(place);
        let entry = entry_under(&self.slots, key, self.index.stamps.at(place));
        self.index.leave(&entry);
        pin_at(&mut self.slots, key, rank)
    }

    /// Takes the unit of this id, which is pinned to this rank, away and gives its body. The charge falls by
    /// the body's length, and nothing else changes (`without`).
    pub fn take_pinned(&mut self, id: UnitId, rank: Rank) -> Payload
        requires { HasPinned id rank self.old.units }
        ensures taken { self.new ≡ without self.old id }
        ensures body { All (λ p. id_of p ≡ id → result ≡ p.unit.body) self.old.units }
    {
        self.take_out(id).body
    }

    /// Takes the free unit of this id away and gives it. The charge falls by its body's length, and nothing
    /// else changes (`without`).
    pub fn remove_free(&mut self, id: UnitId) -> Unit
        requires { HasFree id self.old.units }
        ensures taken { self.new ≡ without self.old id }
        ensures unit { All (λ p. id_of p ≡ id → result ≡ p.unit) self.old.units }
    {
        self.take_out(id)
    }

    // Takes the unit of this id away.
    fn take_out(&mut self, id: UnitId) -> Unit
        requires { HasUnit id self.old.units }
        ensures taken { self.new ≡ without self.old id }
        ensures unit { All (λ p. id_of p ≡ id → result ≡ p.unit) self.old.units }
    {
        let place = self.names.place_of(&self.index.stamps, id);
        let Some(key) = self.order.remove(place) else {
            unreachable!()
        };
        let stamp = self.index.stamps.at(place);
        let entry = free_entry(&self.slots, key, stamp);
        self.names.remove(id);
        self.index.forget(place, entry);
        let unit = take_at(&mut self.slots, key);
        self.charge -= unit.body.len() as u64;
        unit
    }

    /// The unit at this place of the arrival order, counted from 0, with its pin. `None` exactly when there is
    /// no such place.
    pub fn unit_at(&self, place: u64) -> Option<(UnitId, Option<Rank>)>
        ensures at { result ≡ option_map seen (slice_get self.now.units place) }
        ensures none { IsNone result ↔ (length self.now.units ≤ place) }
    {
        match self.order.get(place as usize) {
            Some(key) => seen_at(&self.slots, *key),
            None => None,
        }
    }
}
