//! The common bytes of a batch.

ghost use Rattle.std.specs.Prelude.{◌≡◌, IfOk};

use adlb_unit::{NoMemory, Payload, or_no_memory};
use std::alloc::Global;
use std::marker::Model;

/// The common bytes of a batch, seen as their list. Their payload stands on the heap, so that a job that is a puzzle takes no room for
/// one.
#[derive(Drop)]
pub struct CommonBytes {
    payload: Box<Payload>,
}

impl Model for CommonBytes {
    ghost use Rattle.std.specs.Prelude.{List, ℕ};

    ghost Value = { List ℕ };

    ghost view = { λ common. common.payload.value };
}

impl CommonBytes {
    /// The bytes as a payload.
    pub fn payload(&self) -> &Payload
        ensures { result.now ≡ self.now }
    {
        &self.payload
    }

    // A copy of these bytes. Its only error is `NoMemory`.
    pub(crate) fn copy(alloc: Global, bytes: &[u8]) -> Result<CommonBytes, NoMemory>
        ensures { IfOk result (λ common. common ≡ bytes.now) }
    {
        let payload = Payload::copy(alloc, bytes)?;
        let payload = or_no_memory(Box::new(alloc, payload))?;
        Ok(CommonBytes { payload })
    }
}
