//! The store of one server's common parts.

ghost use Rattle.std.specs.Prelude.{◌≡◌, ◌↔◌, ◌≤◌, ℕ, [], length, IfOk, OnOk, OnErr, None, Some, Ok, Err, Option};
ghost use Rattle.std.specs.Option.{option_map};
ghost use Rattle.adlb_unit.specs.Limits.{body_limit};
ghost use Rattle.work_queue.specs.Queue.{Exceeds, Queue, charge_of, with_common, without_common};
ghost use Rattle.server_components.specs.Store.{CanClose, CanFetch, Keeps, Store, bytes_of, changed, closed, counts, fetched, frees, part_in, released, size_of, with_fresh, without};

use crate::parts::Part;
use crate::tables::Table;
use adlb_unit::{BatchId, NoMemory, Payload};
use std::alloc::Global;
use std::marker::Model;
use work_queue::{AddFault, WorkQueue};

/// The common parts that one server keeps. Contracts see it as a `Store` of `specs/Store.antt`: its batches, each with
/// its part. The bytes of its parts are charged to the server's queue as common bytes. A part is kept once, fetched,
/// and closed when its batch is. The call by which it is closed and was fetched as often as units of the batch were
/// accepted frees it.
pub struct BatchStore {
    parts: Table,
    alloc: Global,
}

// By hand, so that whoever holds a store lets it go by one call, and does not look at its parts.
impl Drop for BatchStore {
    fn drop(self) {
        let BatchStore { parts, alloc } = self;
    }
}

impl Model for BatchStore {
    ghost use Rattle.server_components.specs.Store.{Store};

    ghost Value = { Store };

    ghost use Rattle.server_components.specs.inside.Storing.{IsSmall};

    ghost view = { λ s. s.parts };

    ghost invariant = { λ s. IsSmall s.parts };
}

impl BatchStore {
    /// A store of no parts. It takes no memory yet.
    pub fn new(alloc: Global) -> BatchStore
        ensures { result ≡ [] }
    {
        BatchStore {
            parts: Table::new(alloc),
            alloc,
        }
    }

    /// Keeps the part of a batch that has none here (`with_fresh`), and charges its bytes to the queue. It
    /// has at most 2^20 bytes. At a refusal nothing has changed: `AddFault::Full` comes exactly when the
    /// bytes would go beyond the queue's limit (`Exceeds`), whether there is memory or not, otherwise
    /// `AddFault::Memory`.
    pub fn keep(
        &mut self,
        queue: &mut WorkQueue,
        batch: BatchId,
        bytes: Payload,
    ) -> Result<(), AddFault>
        requires new { part_in self.old batch ≡ None }
        requires size { length bytes ≤ body_limit }

        ensures kept { OnOk result (self.new ≡ with_fresh self.old batch bytes) }
        ensures charged { OnOk result (queue.new ≡ with_common queue.old (length bytes)) }
        ensures full { (charge : ℕ) → (result ≡ Err (AddFault.Full charge)) ↔ (Exceeds queue.old (length bytes) × (charge ≡ charge_of queue.old)) }
        ensures err { OnErr result (self.new ≡ self.old) }
        ensures uncharged { OnErr result (queue.new ≡ queue.old) }
    {
        let length = bytes.len() as u32;
        if let Err(full) = queue.hold(length) {
            let charge = full.charge;
            return Err(AddFault::Full { charge });
        }
        if self.put(batch, bytes).is_err() {
            queue.release(length);
            return Err(AddFault::Memory);
        }
        Ok(())
    }

    // The batch has a part of these bytes from now on. Its only error is `NoMemory`.
    fn put(&mut self, batch: BatchId, bytes: Payload) -> Result<(), NoMemory>
        requires size { length bytes ≤ body_limit }
        ensures put { OnOk result (self.new ≡ with_fresh self.old batch bytes) }
        ensures err { OnErr result (self.new ≡ self.old) }
    {
        let bytes = bytes.share(self.alloc)?;
        let part = Part {
            bytes,
            fetches: 0,
            accepted: None,
        };
        self.parts.put(batch, part)
    }

    /// Closes the batch of a part that is kept, after `accepted` units of the batch were accepted (`closed`).
    /// The batch is open, its part was fetched at most `accepted` times, and its bytes are among the queue's
    /// common bytes. True exactly when the part was fetched `accepted` times before: this call has then freed
    /// it, and the charge falls by its bytes. It takes no memory.
    pub fn close(&mut self, queue: &mut WorkQueue, batch: BatchId, accepted: u64) -> bool
        requires { Keeps self.old batch queue.old.common (CanClose accepted) }

        ensures freed { result ≡ frees (closed accepted) self.old batch }
        ensures parts { self.new ≡ changed (closed accepted) self.old batch }
        ensures queue { queue.new ≡ released (closed accepted) self.old batch queue.old }
    {
        let Some(part) = self.parts.get(batch) else {
            unreachable!()
        };
        if part.fetches == accepted {
            self.free(queue, batch);
            return true;
        }
        self.parts.close(batch, accepted);
        false
    }

    /// Gives the bytes of a part that is kept, shared and not copied, and counts the fetch (`fetched`). If
    /// its batch is closed, it was fetched fewer times than units of it were accepted. Its bytes are among
    /// the queue's common bytes. The flag is true exactly when the part is then due (`is_due`): this call has
    /// freed it, and the charge falls by its bytes. Its only error is `NoMemory`, by which nothing changes;
    /// it is the answer too if a part was fetched 2^64 - 1 times, which are all that are counted.
    pub fn fetch(
        &mut self,
        queue: &mut WorkQueue,
        batch: BatchId,
    ) -> Result<(Payload, bool), NoMemory>
        requires { Keeps self.old batch queue.old.common CanFetch }

        ensures bytes { IfOk result (λ got. Some got.0 ≡ option_map bytes_of (part_in self.old batch)) }
        ensures freed { IfOk result (λ got. got.1 ≡ frees fetched self.old batch) }
        ensures parts { OnOk result (self.new ≡ changed fetched self.old batch) }
        ensures queue { OnOk result (queue.new ≡ released fetched self.old batch queue.old) }
        ensures err { OnErr result (self.new ≡ self.old) }
        ensures uncharged { OnErr result (queue.new ≡ queue.old) }
    {
        let Some(part) = self.parts.get(batch) else {
            unreachable!()
        };
        let Some(fetches) = part.fetches.checked_add(1) else {
            return Err(NoMemory);
        };
        let is_last = part.accepted == Some(fetches);
        let bytes = part.bytes.twin(self.alloc)?;
        if is_last {
            self.free(queue, batch);
        } else {
            self.parts.fetch(batch);
        }
        Ok((bytes, is_last))
    }

    // Takes the part of the batch away, and gives its bytes back.
    fn free(&mut self, queue: &mut WorkQueue, batch: BatchId)
        requires { size_of (part_in self.old batch) ≤ queue.old.common }
        ensures parts { self.new ≡ without self.old batch }
        ensures queue { queue.new ≡ without_common queue.old (size_of (part_in self.old batch)) }
    {
        if let Some(part) = self.parts.remove(batch) {
            queue.release(part.bytes.len() as u32);
        }
    }

    /// How often the part of the batch was fetched, and how many units of the batch were accepted if it is
    /// closed (`counts`). `None` exactly when no part of the batch is kept.
    pub fn part(&self, batch: BatchId) -> Option<(u64, Option<u64>)>
        ensures { result ≡ option_map counts (part_in self.now batch) }
    {
        match self.parts.get(batch) {
            Some(part) => Some((part.fetches, part.accepted)),
            None => None,
        }
    }
}
