//! Room for a unit that another server would push here.

ghost use Rattle.std.specs.Prelude.{◌≡◌, ◌↔◌, Ok, IfOk, OnErr, false};
ghost use Rattle.work_queue.specs.Queue.{Exceeds, HasNoPromise, HasNoUnit};
ghost use Rattle.server_components.specs.Pushes.{IsPromise};

use adlb_unit::{NoMemory, UnitId};
use work_queue::{AddFault, WorkQueue};

/// Another server asks for room of `length` bytes for its unit of this id (`IsPromise`), which is neither here nor
/// promised room. The answer is true, and the room is promised, if it is within the limit. It is false, and nothing
/// changes, exactly when `length` bytes more would go beyond the limit (`Exceeds`), whether there is memory or not. Its
/// only error is `NoMemory`; the queue is then as it was.
pub fn push_query(queue: &mut WorkQueue, id: UnitId, length: u32) -> Result<bool, NoMemory>
    requires new { HasNoUnit id queue.old.units }
    requires unpromised { HasNoPromise id queue.old.promises }

    ensures promise { IfOk result (λ yes. IsPromise queue.old id length yes queue.new) }
    ensures full { (result ≡ Ok false) ↔ Exceeds queue.old length }
    ensures memory { OnErr result (queue.new ≡ queue.old) }
{
    match queue.promise(id, length) {
        Ok(()) => Ok(true),
        Err(AddFault::Full { .. }) => Ok(false),
        Err(AddFault::Memory) => Err(NoMemory),
    }
}
