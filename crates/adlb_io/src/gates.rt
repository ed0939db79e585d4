//! Gates, which a rank passes before each call that waits for a unit, and after each grant, each fetch and each put that was taken.

use adlb_unit::{NoMemory, Rank};

/// What a rank is about to wait for, or has just got or put, with the number of its call.
#[derive(Clone, Copy, PartialEq, Eq)]
pub enum GatePoint {
    /// The rank reserves, and is about to wait for a unit.
    Waiting { call: u64 },
    /// A unit was granted.
    Granted { call: u64 },
    /// A unit was fetched.
    Fetched { call: u64 },
    /// A unit was put, and a server took it.
    Put { call: u64 },
}

/// Where a rank may be held up, so that a test decides who goes on. What a rank is told can't depend on it: a pass gets the
/// rank's number and the point, and gives nothing back. A gate is trusted to return, which no clause says; a rank that it
/// holds for ever waits for ever, and those that wait for that rank with it.
pub trait Gate {
    /// Returns when the rank may go on.
    fn pass(&self, rank: Rank, point: GatePoint);

    /// A gate like this one, for another rank. Its only error is `NoMemory`.
    fn twin(&self) -> Result<Self, NoMemory>;
}

/// A gate that is always open.
#[derive(Clone, Copy)]
pub struct FreeGate {}

impl Gate for FreeGate {
    fn pass(&self, _rank: Rank, _point: GatePoint) {}

    fn twin(&self) -> Result<FreeGate, NoMemory> {
        Ok(FreeGate {})
    }
}
