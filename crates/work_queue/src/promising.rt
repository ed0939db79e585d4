//! Room that is promised to a unit on its way, so that it comes without fail.

ghost use Rattle.std.specs.Prelude.{◌≡◌, ◌<◌, ◌↔◌, ℕ, Some, Err, OnOk, OnErr, length};
ghost use Rattle.adlb_unit.specs.Limits.{stamp_limit};
ghost use Rattle.work_queue.specs.Queue.{Exceeds, HasNoPromise, HasNoUnit, HasPromise, HasRoom, charge_of, with_arrival, with_promise, without_promise};

use crate::entries::entry_for;
use crate::growth::make_room;
use crate::placing::Placed;
use crate::queues::{AddFault, WorkQueue};
use adlb_unit::{Unit, UnitId};

impl WorkQueue {
    /// Promises room of `n` bytes to the unit of this id, which is neither here nor promised room (`with_promise`),
    /// and makes all growth that its arrival needs. At a refusal the queue is as it was. The fault is
    /// `AddFault::Full` exactly if `n` bytes more would go beyond the limit (`Exceeds`), whether there is memory or
    /// not, otherwise `AddFault::Memory`.
    pub fn promise(&mut self, id: UnitId, n: u32) -> Result<(), AddFault>
        requires new { HasNoUnit id self.old.units }
        requires unpromised { HasNoPromise id self.old.promises }

        ensures promised { OnOk result (self.new ≡ with_promise self.old id n) }
        ensures full { (charge : ℕ) → (result ≡ Err (AddFault.Full charge)) ↔ (Exceeds self.old n × (charge ≡ charge_of self.old)) }
        ensures err { OnErr result (self.new ≡ self.old) }
    {
        if u64::from(n) > self.limit - self.charge {
            let charge = self.charge;
            return Err(AddFault::Full { charge });
        }
        let more = self.rooms.len() + 1;
        let grown = make_room(
            &mut self.slots,
            &mut self.order,
            &mut self.index,
            &mut self.names,
            more,
        );
        if grown.is_err() {
            return Err(AddFault::Memory);
        }
        if self.rooms.add(id, n).is_err() {
            return Err(AddFault::Memory);
        }
        self.charge += u64::from(n);
        Ok(())
    }

    /// The promised unit comes: it comes last, free, and its promise is gone (`with_arrival`). As much room
    /// as its body has bytes was promised to it.
    pub fn arrive(&mut self, unit: Unit)
        requires promised { HasRoom unit.id (length unit.body) self.old.promises }
        requires room { self.old.arrivals < stamp_limit }

        ensures { self.new ≡ with_arrival self.old unit }
    {
        self.rooms.remove(unit.id);
        self.names.add(unit.id, self.arrivals);
        let placed = Placed { unit, pin: None };
        self.index.add(entry_for(&placed, self.arrivals));
        let key = self.slots.insert_reserved(placed);
        self.order.push(key);
        self.arrivals += 1;
    }

    /// Takes the promise of this id back (`without_promise`). The charge falls by its length.
    pub fn withdraw(&mut self, id: UnitId)
        requires { HasPromise id self.old.promises }
        ensures { self.new ≡ without_promise self.old id }
    {
        let length = self.rooms.remove(id);
        self.charge -= u64::from(length);
    }

    /// The bytes that are promised to the unit of this id (`HasRoom`). `None` exactly when there is no promise
    /// of this id.
    pub fn promised(&self, id: UnitId) -> Option<u32>
        ensures { (n : ℕ) → (result ≡ Some n) ↔ HasRoom id n self.now.promises }
    {
        self.rooms.length_of(id)
    }
}
