//! The promises that stand.

ghost use Rattle.std.specs.Prelude.{◌≡◌, ◌==◌, ◌+◌, ◌<◌, ◌++◌, ◌∷◌, [], OnOk, MatchOption, None, Some, filter, not, is_none, length, find, sum_by};
ghost use Rattle.std.specs.List.{list_all};
ghost use Rattle.adlb_unit.specs.Ids.{same_unit};
ghost use Rattle.bag_ledger.specs.Bag.{promise_charge};

use crate::charges::{Charges, left_of};
use crate::places::Places;
use adlb_unit::{NoMemory, Server, UnitId};
use bag_ledger::Promise;
use std::alloc::Global;
use std::marker::Model;

/// The promises that stand, in order, seen as their list. Each has a slot, which stays when the promise is gone; a promise is
/// found by its unit, and a server's charge is a sum that is kept. No two promises are of one unit.
pub struct Promises {
    slots: Vec<Option<Promise>>,
    places: Places,
    charges: Charges,
}

// By hand, so that whoever holds the promises lets them go by one call.
impl Drop for Promises {
    fn drop(self) {
        let Promises {
            slots,
            places,
            charges,
        } = self;
    }
}

impl Model for Promises {
    ghost use Rattle.std.specs.Prelude.{List};
    ghost use Rattle.bag_ledger.specs.declared.states.Promise.{Promise};

    ghost Value = { List Promise };

    ghost use Rattle.bag_tables.specs.Standing.{standing, PromisesAreKept};

    ghost view = { λ p. standing p.slots.items };

    ghost invariant = { λ p. PromisesAreKept p.places p.charges p.slots.items };
}

impl Promises {
    /// No promise.
    pub fn new(alloc: Global) -> Promises
        ensures { result ≡ [] }
    {
        Promises {
            slots: Vec::new(alloc),
            places: Places::new(alloc),
            charges: Charges::new(),
        }
    }

    /// The promise of the unit, if there is one.
    pub fn get(&self, id: UnitId) -> Option<Promise>
        ensures { result ≡ find (λ p. same_unit p.id id) self.now }
    {
        match self.places.get(id.rank.0, id.number) {
            Some(at) => self.slots[at],
            None => None,
        }
    }

    /// One promise more, of a unit that has none. Its only error is `NoMemory`.
    pub fn add(&mut self, promise: Promise) -> Result<(), NoMemory>
        requires { find (λ p. same_unit p.id promise.id) self.old ≡ None }
        ensures { OnOk result (self.new ≡ self.old ++ promise ∷ []) }
    {
        let at = self.slots.len();
        if self.slots.reserve(1).is_err() {
            return Err(NoMemory);
        }
        self.places.note(promise.id.rank.0, promise.id.number, at)?;
        self.charges
            .shift(None, Some(promise.server), promise.length as u64);
        self.slots.push_reserved(Some(promise));
        Ok(())
    }

    /// The promise of the unit, if there is one, is gone.
    pub fn remove(&mut self, id: UnitId)
        ensures { self.new ≡ filter (λ p. not (same_unit p.id id)) self.old }
    {
        let Some(at) = self.places.get(id.rank.0, id.number) else {
            return;
        };
        if let Some(promise) = self.slots[at] {
            self.places.forget(id.rank.0, id.number);
            self.charges
                .shift(Some(promise.server), None, promise.length as u64);
            self.slots[at] = None;
        }
    }

    /// What is left of the room below what is promised at the server, which is one of the 8 that a run has at most.
    pub fn left_of(&self, server: Server, room: u64) -> Option<u64>
        requires { server.0 < 8 }
        ensures { MatchOption result (room < sum_by (promise_charge server) self.now) (λ left. left + sum_by (promise_charge server) self.now ≡ room) }
    {
        left_of(&self.charges, server, room)
    }

    /// No promise stands. It looks at each slot.
    pub fn is_empty(&self) -> bool
        ensures { result ≡ (length self.now == 0) }
    {
        are_empty(self.slots.as_slice())
    }
}

fn are_empty(slots: &[Option<Promise>]) -> bool
    ensures { result ≡ list_all (λ slot. is_none slot) slots.now }
{
    slots.iter().all(|slot| slot.is_none())
}
