//! The rules.

use adlb_unit::{BatchId, End, Info, Rank, Server, UnitId};

/// A condition that an entry is under. `specs/Table.antt` says when a bag meets it.
#[derive(Clone, Copy)]
pub enum Rule {
    /// No common part is due to be freed first.
    InTurn,
    /// The rank is in the run.
    InRun(Rank),
    /// The rank runs: it has no call pending, and has not finished.
    Runs(Rank),
    /// The rank's next call has this number.
    Next(Rank, u64),
    /// The rank has no batch going on.
    Outside(Rank),
    /// The rank has a batch going on.
    Within(Rank),
    /// In the call of this number, which is pending, the rank puts a unit or begins a batch.
    Brings(Rank, u64),
    /// The server is in the run.
    IsServer(Server),
    /// The server has not declined the rank's pending call.
    Undeclined(Rank, Server),
    /// The server is charged with this many bytes.
    Charged(Server, u64),
    /// What the rank brings and this many bytes are more than the limit.
    TooMuch(Rank, u64),
    /// The unit is being put.
    Puts(UnitId),
    /// The server has room for the unit that is being put.
    TakesUnit(Server, UnitId),
    /// Each server has declined the rank's pending call.
    AllDeclined(Rank),
    /// The batch is being begun.
    Begins(BatchId),
    /// The server has room for the common part of the batch that is being begun.
    TakesCommon(Server, BatchId),
    /// The batch is being ended.
    Ends(BatchId),
    /// The server keeps the common part of the batch.
    Keeps(Server, BatchId),
    /// The common part of the batch is due to be freed.
    Due(BatchId),
    /// In the call of this number, which is pending, the rank reserves or tries to.
    Wants(Rank, u64),
    /// The unit is free at the server.
    FreeAt(UnitId, Server),
    /// The unit is of a type that the rank asks for, and one that it may have.
    Permits(Rank, UnitId),
    /// In the call of this number, which is pending, the rank tries to reserve.
    Tries(Rank, u64),
    /// No unit that the rank, which tries, may have is free at the server.
    NoneFits(Server, Rank),
    /// The unit is pinned to the rank.
    PinnedTo(UnitId, Rank),
    /// The rank fetches the unit, and its own bytes have not come.
    AwaitsOwn(Rank, UnitId),
    /// The unit is pinned at the server to the rank.
    PinnedAt(UnitId, Server, Rank),
    /// The rank fetches a unit of the batch, and its own bytes have come.
    AwaitsCommon(Rank, BatchId),
    /// The unit was accepted, and has this many bytes.
    HasLength(UnitId, u32),
    /// The unit was accepted, and does not travel.
    Stays(UnitId),
    /// The unit was accepted, and is neither free nor pinned at the server.
    Elsewhere(UnitId, Server),
    /// No room is promised for the unit.
    Unpromised(UnitId),
    /// The server has room for this many bytes.
    Fits(Server, u32),
    /// The server has promised room for the unit.
    PromisedAt(UnitId, Server),
    /// The unit travels to the server.
    TravelsTo(UnitId, Server),
    /// In the call of this number, which is pending, the rank counts.
    Counts(Rank, u64),
    /// The server is the rank's home.
    IsHome(Server, Rank),
    /// This is what is free at the server of the type that the rank counts.
    Tells(Server, Rank, Info),
    /// All work is used up.
    Settled,
    /// That all work is used up was not found before.
    NotExhausted,
    /// The call of this number is pending, and one that an end can answer.
    IsOpen(Rank, u64),
    /// The end was brought about.
    HasCause(End),
}
