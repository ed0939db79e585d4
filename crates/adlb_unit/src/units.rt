//! A unit of work.

ghost use Rattle.std.specs.Prelude.{◌≡◌, IfOk};

use crate::names::{CommonRef, NoMemory, Rank, Target, UnitId, WorkType};
use crate::payloads::Payload;
use std::alloc::Global;

/// A unit of work, as it was put: higher priorities are given out first; `answer` is the rank that wants the answer.
/// `common` names the common part of its batch.
#[derive(Debug, Drop)]
pub struct Unit {
    pub id: UnitId,
    pub kind: WorkType,
    pub prio: i32,
    pub target: Target,
    pub answer: Option<Rank>,
    pub common: Option<CommonRef>,
    pub body: Payload,
}

impl Unit {
    /// An equal unit. Its only error is `NoMemory`.
    pub fn twin(&self, alloc: Global) -> Result<Unit, NoMemory>
        ensures { IfOk result (λ u. u ≡ self.now) }
    {
        Ok(Unit {
            id: self.id,
            kind: self.kind,
            prio: self.prio,
            target: self.target,
            answer: self.answer,
            common: self.common,
            body: self.body.twin(alloc)?,
        })
    }
}
