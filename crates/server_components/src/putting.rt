//! A put of one unit.

ghost use Rattle.std.specs.Prelude.{◌≡◌, ◌<◌, ◌≤◌, ◌↔◌, ℕ, Ok, IfOk, OnErr, length};
ghost use Rattle.adlb_unit.specs.Limits.{body_limit, stamp_limit};
ghost use Rattle.work_queue.specs.Queue.{HasNoPromise, HasNoUnit, Overfills, charge_of};
ghost use Rattle.server_components.specs.Put.{IsPut};

use adlb_unit::{NoMemory, Unit};
use work_queue::{AddFault, WorkQueue};

/// What a put came to.
#[derive(Clone, Copy, Debug)]
pub enum PutStep {
    /// The unit is in the queue, free.
    Accepted,
    /// The queue has no room for the unit: its charge is `charge` bytes.
    Full { charge: u64 },
}

/// Puts the unit into the queue (`IsPut`). Its id is new to the queue's units and promises, and its body has at
/// most 2^20 bytes. `Full` comes exactly when the body would go beyond the limit (`Overfills`), whether there is
/// memory or not. Its only error is `NoMemory`; the queue is then as it was.
pub fn put(queue: &mut WorkQueue, unit: Unit) -> Result<PutStep, NoMemory>
    requires new { HasNoUnit unit.id queue.old.units }
    requires unpromised { HasNoPromise unit.id queue.old.promises }
    requires size { length unit.body ≤ body_limit }
    requires room { queue.old.arrivals < stamp_limit }

    ensures put { IfOk result (λ step. IsPut queue.old unit step queue.new) }
    ensures full { (n : ℕ) → (result ≡ Ok (PutStep.Full n)) ↔ (Overfills queue.old unit × (n ≡ charge_of queue.old)) }
    ensures memory { OnErr result (queue.new ≡ queue.old) }
{
    match queue.add(unit) {
        Ok(()) => Ok(PutStep::Accepted),
        Err((_, AddFault::Full { charge })) => Ok(PutStep::Full { charge }),
        Err((_, AddFault::Memory)) => Err(NoMemory),
    }
}
