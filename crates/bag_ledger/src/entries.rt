//! The entries of a ledger, and the calls of a rank with their answers.

use crate::bodies::Body;
use adlb_unit::{
    BatchId, End, Info, Payload, Rank, Server, Target, Types, UnitId, UnitNote, WorkType,
};

/// One step of a run, as a rank or a server enters it in the ledger. `call` is the number of the rank's call, from 0. A
/// unit and a batch are named by the rank and the number of the call that put or began them.
#[derive(Debug, Drop)]
pub enum Entry {
    /// The rank puts a unit.
    Putting {
        rank: Rank,
        call: u64,
        kind: WorkType,
        prio: i32,
        target: Target,
        answer: Option<Rank>,
        body: Payload,
    },
    /// The server, charged with `used` bytes, has no room for the unit, or for the common part that the rank of this id
    /// brings in the call of this number.
    Refused {
        server: Server,
        id: UnitId,
        used: u64,
    },
    /// The server takes the unit.
    Accepted {
        server: Server,
        id: UnitId,
    },
    /// Each server has refused what the rank brings.
    Rejected {
        rank: Rank,
        call: u64,
    },
    /// The rank begins a batch with this common part.
    Keeping {
        rank: Rank,
        call: u64,
        common: Payload,
    },
    /// The server keeps the common part.
    Kept {
        server: Server,
        batch: BatchId,
    },
    /// The rank ends its batch.
    Closing {
        rank: Rank,
        call: u64,
    },
    /// The server closes the common part.
    Closed {
        server: Server,
        batch: BatchId,
    },
    /// The server frees the common part.
    Freed {
        server: Server,
        batch: BatchId,
    },
    /// The rank reserves, and waits for a unit of these types.
    Asked {
        rank: Rank,
        call: u64,
        types: Types,
    },
    /// The rank tries to reserve a unit of these types, without waiting.
    Tried {
        rank: Rank,
        call: u64,
        types: Types,
    },
    /// The server gives the rank the unit.
    Granted {
        server: Server,
        rank: Rank,
        call: u64,
        id: UnitId,
    },
    /// The server has nothing for the rank that tries.
    Looked {
        server: Server,
        rank: Rank,
        call: u64,
    },
    /// Each server has looked for the rank that tries.
    NoCurrent {
        rank: Rank,
        call: u64,
    },
    /// The rank fetches a unit that was granted to it.
    Fetching {
        rank: Rank,
        call: u64,
        id: UnitId,
    },
    /// The server gives the rank the unit's own bytes.
    Fetched {
        server: Server,
        rank: Rank,
        id: UnitId,
    },
    /// The server gives the rank the common bytes of the unit.
    CommonFetched {
        server: Server,
        rank: Rank,
        batch: BatchId,
    },
    /// The server promises room for a unit of another server.
    Promised {
        server: Server,
        id: UnitId,
        length: u32,
    },
    /// The unit leaves the server for another.
    Left {
        server: Server,
        to: Server,
        id: UnitId,
    },
    /// The unit arrives at the server.
    Arrived {
        server: Server,
        id: UnitId,
    },
    /// The server takes its promise back.
    Withdrawn {
        server: Server,
        id: UnitId,
    },
    /// The rank asks how many units of a type are free at its home.
    Counting {
        rank: Rank,
        call: u64,
        kind: WorkType,
    },
    /// The server, the rank's home, tells it.
    Counted {
        server: Server,
        rank: Rank,
        call: u64,
        info: Info,
    },
    /// The rank calls the problem done.
    Done {
        rank: Rank,
        call: u64,
    },
    /// It is found that nothing is left to do.
    Exhausted,
    /// The rank's call is answered by an end.
    Over {
        rank: Rank,
        call: u64,
        end: End,
    },
    /// The rank leaves.
    Finished {
        rank: Rank,
        call: u64,
    },
}

/// A call of a rank.
#[derive(Debug, Drop)]
pub enum Call {
    Put {
        kind: WorkType,
        prio: i32,
        target: Target,
        answer: Option<Rank>,
        body: Payload,
    },
    Reserve {
        types: Types,
    },
    Try {
        types: Types,
    },
    Fetch {
        id: UnitId,
    },
    BeginBatch {
        common: Payload,
    },
    EndBatch,
    SetDone,
    Count {
        kind: WorkType,
    },
    Finish,
}

/// The answer of a call.
#[derive(Debug, Drop)]
pub enum Answer {
    Fine,
    Rejected,
    Ended(End),
    Granted(UnitNote),
    NoCurrent,
    /// What a fetch gives.
    Body(Body),
    Info(Info),
}

/// A call with its answer.
#[derive(Drop)]
pub struct Said {
    pub call: Call,
    pub answer: Answer,
}
