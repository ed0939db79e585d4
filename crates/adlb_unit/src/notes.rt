//! What a rank is told: of a unit, of the units that are free, of the end, and of trouble.

use crate::names::{CommonRef, Rank, Server, UnitId, WorkType};

/// What a rank learns of a unit that was granted to it: all but the target and the bytes. The unit is at `server`, and
/// `length` counts its own bytes, without those of the common part.
#[derive(Clone, Copy, Debug, PartialEq, Eq)]
pub struct UnitNote {
    pub id: UnitId,
    pub kind: WorkType,
    pub prio: i32,
    pub answer: Option<Rank>,
    pub server: Server,
    pub common: Option<CommonRef>,
    pub length: u32,
}

/// Of the free units of one type at one server: how many there are, the highest priority if there is one, and how many
/// have it.
#[derive(Clone, Copy, Debug, PartialEq, Eq)]
pub struct Info {
    pub free: u64,
    pub top: Option<i32>,
    pub at_top: u64,
}

/// Why there is no more work: the problem was called done, or all that was put was used up.
#[derive(Clone, Copy, Debug, PartialEq, Eq)]
pub enum End {
    /// A rank called the problem done.
    NoMoreWork,
    /// All work was used up.
    Exhausted,
}

/// Why a run stops without an answer: memory ran out, or a stamp past the last one that is given.
#[derive(Clone, Copy, Debug, PartialEq, Eq)]
pub enum Trouble {
    /// Allocation failed.
    Memory,
    /// The next event would have this stamp, which is not given.
    TooLong { stamp: u64 },
}
