//! Room that common parts take.

ghost use Rattle.std.specs.Prelude.{◌≡◌, ◌≤◌, ◌↔◌, ℕ, Err, OnOk, OnErr};
ghost use Rattle.work_queue.specs.Queue.{Exceeds, charge_of, with_common, without_common};

use crate::queues::WorkQueue;
use thiserror::Error;

/// There is no room: the queue's charge is `charge` bytes, and those that were asked for would go beyond its
/// limit (`Exceeds`).
#[derive(Clone, Copy, Debug, Error)]
#[error("the queue is full at {charge} bytes")]
pub struct Full {
    pub charge: u64,
}

impl WorkQueue {
    /// Takes `n` bytes for a common part (`with_common`). `Full` exactly when `n` bytes more would go beyond the
    /// limit (`Exceeds`); the queue is then as it was.
    pub fn hold(&mut self, n: u32) -> Result<(), Full>
        ensures held { OnOk result (self.new ≡ with_common self.old n) }
        ensures full { (charge : ℕ) → (result ≡ Err (record { charge = charge })) ↔ (Exceeds self.old n × (charge ≡ charge_of self.old)) }
        ensures err { OnErr result (self.new ≡ self.old) }
    {
        if u64::from(n) > self.limit - self.charge {
            return Err(Full {
                charge: self.charge,
            });
        }
        self.common += u64::from(n);
        self.charge += u64::from(n);
        Ok(())
    }

    /// Gives back `n` of the bytes that are held for common parts (`without_common`).
    pub fn release(&mut self, n: u32)
        requires { n ≤ self.old.common }
        ensures { self.new ≡ without_common self.old n }
    {
        self.common -= u64::from(n);
        self.charge -= u64::from(n);
    }
}
