//! Why a call of a rank is not carried out.

use thiserror::Error;

/// Why a unit was not put.
#[derive(Clone, Copy, Debug, PartialEq, Eq, Error)]
pub enum PutFault {
    /// Each server refused it in this call, for want of room.
    #[error("each server is full")]
    Rejected,
    /// A rank called the problem done.
    #[error("there is no more work")]
    NoMoreWork,
    /// All work was found used up.
    #[error("all work is used up")]
    Exhausted,
    /// There is no memory.
    #[error("out of memory")]
    Memory,
    /// An event would have this stamp, which is past the last one that is given.
    #[error("the run is too long: an event would have stamp {stamp}")]
    TooLong { stamp: u64 },
}

/// Why a reserve was granted no unit.
#[derive(Clone, Copy, Debug, PartialEq, Eq, Error)]
pub enum EndFault {
    /// A rank called the problem done.
    #[error("there is no more work")]
    NoMoreWork,
    /// All work was found used up.
    #[error("all work is used up")]
    Exhausted,
    /// There is no memory.
    #[error("out of memory")]
    Memory,
    /// An event would have this stamp, which is past the last one that is given.
    #[error("the run is too long: an event would have stamp {stamp}")]
    TooLong { stamp: u64 },
}

/// Why a try was granted no unit.
#[derive(Clone, Copy, Debug, PartialEq, Eq, Error)]
pub enum TryFault {
    /// Each server looked in this call and found no unit that it could grant.
    #[error("there is no work now")]
    NoCurrentWork,
    /// A rank called the problem done.
    #[error("there is no more work")]
    NoMoreWork,
    /// All work was found used up.
    #[error("all work is used up")]
    Exhausted,
    /// There is no memory.
    #[error("out of memory")]
    Memory,
    /// An event would have this stamp, which is past the last one that is given.
    #[error("the run is too long: an event would have stamp {stamp}")]
    TooLong { stamp: u64 },
}
