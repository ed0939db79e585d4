//! What the calls of a rank come to.

use adlb_unit::{End, UnitNote};
use bag_ledger::Body;

/// What a put or the beginning of a batch comes to.
#[derive(Clone, Copy)]
pub enum Reply {
    /// A server took it.
    Accepted,
    /// Each server refused it in this call.
    Rejected,
    /// There is no more work.
    Ended(End),
}

/// What taking a unit comes to.
#[derive(Drop)]
pub enum Taken {
    /// A unit, and its bytes after those of its common part.
    Unit(UnitNote, Body),
    /// No server has a unit for this rank now. It comes of `try_take` alone.
    NoneNow,
    /// There is no more work.
    Ended(End),
}

/// What a batch comes to.
#[derive(Drop)]
pub enum Batched<T> {
    /// The batch was begun and ended, and this came of what was done in it.
    Done(T),
    /// Each server refused the common part in this call, so nothing was done.
    Rejected,
    /// There is no more work, so nothing was done.
    Ended(End),
}
