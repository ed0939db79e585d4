//! The changes of one rank and of one common part.

use adlb_unit::{CommonRef, End, Server, Unit};
use bag_ledger::Status;

/// A change of one rank.
#[derive(Drop)]
pub enum RankChange {
    /// Its next call begins, which takes its number.
    Begins(Status),
    /// It begins to put the unit, which shares the batch that is going on.
    Puts(Unit),
    /// One server more has declined its pending call.
    Declined(Server),
    /// Its pending call has ended.
    Ended,
    /// Its pending call has ended, and this is its batch.
    GoesOn(Option<CommonRef>),
    /// Its pending call has ended by this end.
    Told(End),
    /// The own bytes of what it fetches came; the unit has this common part.
    OwnCame(Option<CommonRef>),
}

/// A change of one common part.
#[derive(Clone, Copy)]
pub enum PartChange {
    /// It is closed.
    Closed,
    /// It is freed.
    Freed,
    /// One unit more of its batch was accepted.
    Accepted,
    /// It was fetched once more.
    Fetched,
}
