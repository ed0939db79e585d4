//! A unit in its place, and its note.

ghost use Rattle.std.specs.Prelude.{◌≡◌};
ghost use Rattle.work_queue.specs.Facts.{facts_of};
ghost use Rattle.work_queue.specs.Queue.{IsSmall};

use adlb_unit::{CommonRef, Rank, Unit, UnitId, WorkType};

/// A unit with the rank to which it is pinned, if any.
#[derive(Drop)]
pub struct Placed {
    /// The unit as it was put.
    pub unit: Unit,
    /// The rank that will fetch it; none while it is free.
    pub pin: Option<Rank>,
}

/// What a rank is told before it fetches a unit's body: all but the target, and of the body the length in bytes.
#[derive(Clone, Copy)]
pub struct UnitFacts {
    pub id: UnitId,
    pub kind: WorkType,
    pub prio: i32,
    pub answer: Option<Rank>,
    pub common: Option<CommonRef>,
    pub length: u32,
}

impl Placed {
    // The note of the unit.
    pub(crate) fn facts(&self) -> UnitFacts
        requires { IsSmall self.now }
        ensures { result ≡ facts_of self.now }
    {
        UnitFacts {
            id: self.unit.id,
            kind: self.unit.kind,
            prio: self.unit.prio,
            answer: self.unit.answer,
            common: self.unit.common,
            length: self.unit.body.len() as u32,
        }
    }
}
