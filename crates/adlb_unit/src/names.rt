//! The names of ranks, servers, work types, units and batches.

use std::error::Error;
use std::fmt;

/// Allocation failed. Contracts never say when: any call that allocates may answer it.
#[derive(Clone, Copy, Debug, PartialEq, Eq)]
pub struct NoMemory;

impl fmt::Display for NoMemory {
    fn fmt<W: fmt::Write>(&self, f: &mut fmt::Formatter<W>) -> fmt::Result {
        write!(f, "out of memory")
    }
}

impl Error for NoMemory {}

/// An application rank, numbered from 0.
#[derive(Clone, Copy, Debug, PartialEq, Eq, PartialOrd, Ord)]
pub struct Rank(pub u32);

/// A server, numbered from 0.
#[derive(Clone, Copy, Debug, PartialEq, Eq)]
pub struct Server(pub u32);

/// A work type: what kind of work a unit is, in the program's own numbering.
#[derive(Clone, Copy, Debug, PartialEq, Eq)]
pub struct WorkType(pub u32);

/// Whom a unit is for.
#[derive(Clone, Copy, Debug, PartialEq, Eq)]
pub enum Target {
    /// Any rank alike.
    Any,
    /// This rank alone.
    Only(Rank),
    /// This rank before others: each rank may have the unit.
    Soft(Rank),
}

/// A unit, by the rank that put it and the number of that rank's call.
#[derive(Clone, Copy, Debug, PartialEq, Eq)]
pub struct UnitId {
    pub rank: Rank,
    pub number: u64,
}

/// A batch, by the rank that began it and the number of that rank's call.
#[derive(Clone, Copy, Debug, PartialEq, Eq, PartialOrd, Ord)]
pub struct BatchId {
    pub rank: Rank,
    pub number: u64,
}

/// Where the common part of a batch is kept, and how many bytes it has.
#[derive(Clone, Copy, Debug, PartialEq, Eq)]
pub struct CommonRef {
    pub batch: BatchId,
    pub server: Server,
    pub length: u32,
}
