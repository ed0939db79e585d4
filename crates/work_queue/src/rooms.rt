//! Room that is promised to units on their way.

ghost use Rattle.std.specs.Prelude.{◌≡◌, ◌+◌, ◌↔◌, ◌++◌, ◌∷◌, [], ℕ, All, OnOk, OnErr, Some, ◌<◌, ◌^◌, filter, length, slice_index_or, sum_by};
ghost use Rattle.work_queue.specs.Queue.{HasDistinctPromises, HasPromise, HasRoom, Promise, is_for_other, promised};

use adlb_unit::UnitId;
use std::alloc::{AllocError, Global};
use std::marker::Model;

// Room of `length` bytes for the unit of this id.
#[derive(Drop)]
struct Room {
    id: UnitId,
    length: u32,
}

impl Model for Room {
    ghost use Rattle.work_queue.specs.Queue.{Promise};

    ghost Value = { Promise };

    ghost use Rattle.work_queue.specs.inside.Rooms.{promise_of};

    ghost view = { promise_of };
}

// The promises, in the order in which they were made.
#[derive(Drop)]
pub struct Rooms {
    kept: Vec<Room>,
}

impl Model for Rooms {
    ghost use Rattle.std.specs.Prelude.{List};
    ghost use Rattle.work_queue.specs.Queue.{Promise};

    ghost Value = { List Promise };

    ghost view = { λ w. w.kept.items };
}

impl Rooms {
    pub(crate) fn new(alloc: Global) -> Rooms
        ensures { result ≡ [] }
    {
        Rooms {
            kept: Vec::new(alloc),
        }
    }

    pub(crate) fn len(&self) -> usize
        ensures len { result ≡ length self.now }
        ensures few { result < 2 ^ 63 }
    {
        self.kept.len()
    }

    // Adds a promise last. Its only error is that allocation failed.
    pub(crate) fn add(&mut self, id: UnitId, n: u32) -> Result<(), AllocError>
        ensures added { OnOk result (self.new ≡ self.old ++ record { id = id; length = n } ∷ []) }
        ensures err { OnErr result (self.new ≡ self.old) }
    {
        self.kept.push(Room { id, length: n })?;
        Ok(())
    }

    // The bytes that are promised to the unit of this id, if any are.
    pub(crate) fn length_of(&self, id: UnitId) -> Option<u32>
        requires once { HasDistinctPromises self.now }
        ensures { (n : ℕ) → (result ≡ Some n) ↔ HasRoom id n self.now }
    {
        for room in &self.kept {
            if room.id == id {
                return Some(room.length);
            }
        }
        None
    }

    // Takes the promise of this id away, and gives its bytes.
    pub(crate) fn remove(&mut self, id: UnitId) -> u32
        requires once { HasDistinctPromises self.old }
        requires there { HasPromise id self.old }
        ensures removed { self.new ≡ filter (is_for_other id) self.old }
        ensures length { All (λ (p : Promise). p.id ≡ id → result ≡ p.length) self.old }
        ensures fewer { length self.new + 1 ≡ length self.old }
        ensures less { sum_by promised self.old ≡ result + sum_by promised self.new }
    {
        let place = self.place_of(id);
        self.kept.remove(place).length
    }

    // The place of the promise of this id.
    fn place_of(&self, id: UnitId) -> usize
        requires { HasPromise id self.now }
        ensures within { result < length self.now }
        ensures found { (d : Promise) → (slice_index_or self.now result d).id ≡ id }
    {
        for place in 0..self.kept.len() {
            if self.kept[place].id == id {
                return place;
            }
        }
        unreachable!()
    }
}
