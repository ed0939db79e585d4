//! What the others say to the actor that is tried.

use adlb_unit::{
    AskedList, BatchId, CommonRef, End, Message, NoMemory, Payload, Rank, STAMP_LIMIT, Server,
    Target, Token, Trouble, Types, Unit, UnitId, UnitNote, Why, WorkType,
};
use std::alloc::Global;

/// A letter to the actor that is tried: its sender, its stamp, and what it says.
pub type Line = (u32, u64, Says);

/// A stamp after which the next event's is not given any more.
pub const LATE: u64 = STAMP_LIMIT - 1;

/// The trouble of that event.
pub const TOO_LONG: Trouble = Trouble::TooLong { stamp: STAMP_LIMIT };

/// What a letter says. The work of rank 2 is of type 1 and for itself alone, and others wait for type 9.
pub enum Says {
    // Rank 2 puts a unit of three bytes.
    Put,
    // Rank 2 puts a unit for any rank, after which a server is pressed.
    PutLong,
    // A rank waits for a unit of type 9.
    Wait,
    // A rank waits for any unit.
    Reserve,
    Try,
    Fetch,
    Keep,
    FetchCommon,
    Close,
    Count,
    Done,
    Finish,
    Gone(Trouble),

    // A server answers the call of this number.
    Accepted(u64),
    Closed(u64),
    // It grants a unit of rank 1, of one byte.
    Granted(u64),
    // It grants that unit, with a common part of two bytes.
    GrantedInBatch(u64),
    // It gives bytes, which no rank does.
    Bytes(u64, &'static [u8]),
    Exhausted(u64),
    Broken(Trouble),

    // A server is asked for rank 1, whose home is server 1.
    Ask,
    AskGrant,
    // There is nothing for this rank.
    AskNone(u32),
    Hint,
    // Of a unit of rank 1.
    PushQuery,
    PushUnit,
    PushCancel,
    // Of the unit of rank 2.
    PushYes,
    PushNo,
    PushAck,
    Notice,
    // The first check, in its first wave.
    Token,
    Failed,
    Exhaust,
    Shutdown,
    Abort(Trouble, u32),
}

/// The letter that says it.
pub fn message(alloc: Global, says: &Says) -> Result<Message, NoMemory> {
    match says {
        Says::Put => put(alloc, Target::Only(Rank(2)), b"abc"),
        Says::PutLong => put(alloc, Target::Any, LONG),
        Says::Keep => keep(alloc),
        Says::Bytes(request, body) => bytes(alloc, *request, body),
        Says::PushUnit => push(alloc),
        Says::Token => check(alloc, true),
        Says::Failed => check(alloc, false),
        _ => Ok(plain(says)),
    }
}

// The letter that says it, if it has neither bytes nor a token.
fn plain(says: &Says) -> Message {
    match says {
        Says::Wait => wait(),
        Says::Reserve => Message::Reserve {
            request: 1,
            types: Types::any(),
        },
        Says::Try => Message::Try {
            request: 1,
            types: Types::any(),
        },
        Says::Fetch => Message::Fetch {
            request: 2,
            id: UNIT,
        },
        Says::FetchCommon => Message::FetchCommon {
            request: 1,
            batch: BATCH,
        },
        Says::Close => Message::CloseBatch {
            request: 1,
            batch: BATCH,
            accepted: 0,
        },
        Says::Count => Message::Count {
            request: 0,
            kind: WorkType(1),
        },
        Says::Done => Message::Done { request: 0 },
        Says::Finish => Message::Finish,
        Says::Gone(trouble) => Message::Gone { trouble: *trouble },
        Says::Accepted(request) => Message::Accepted { request: *request },
        Says::Closed(request) => Message::Closed { request: *request },
        Says::Granted(request) => grant(*request, None),
        Says::GrantedInBatch(request) => grant(*request, Some(COMMON)),
        Says::Exhausted(request) => Message::Ended {
            request: *request,
            end: End::Exhausted,
        },
        Says::Broken(trouble) => Message::Broken { trouble: *trouble },
        _ => between(says),
    }
}

// The letter of a server or the caller to a server that says it.
fn between(says: &Says) -> Message {
    match says {
        Says::Ask => Message::Ask {
            rank: Rank(1),
            request: 0,
            types: Types::any(),
        },
        Says::AskGrant => Message::AskGrant {
            rank: Rank(0),
            request: 0,
            note: NOTE,
        },
        Says::AskNone(rank) => Message::AskNone {
            rank: Rank(*rank),
            request: 0,
        },
        Says::Hint => Message::Hint {
            rank: Rank(0),
            request: 0,
        },
        Says::PushQuery => Message::PushQuery {
            id: OTHER,
            length: 3,
        },
        Says::PushCancel => Message::PushCancel { id: OTHER },
        Says::PushYes => Message::PushYes { id: UNIT },
        Says::PushNo => Message::PushNo { id: UNIT },
        Says::PushAck => Message::PushAck { id: UNIT },
        Says::Exhaust => Message::Exhaust,
        Says::Shutdown => Message::Shutdown,
        Says::Abort(trouble, absent) => Message::Abort {
            trouble: *trouble,
            absent: *absent,
        },
        _ => Message::Notice,
    }
}

// The unit and the batch of rank 2, and a unit of rank 1.
const UNIT: UnitId = UnitId {
    rank: Rank(2),
    number: 0,
};

const BATCH: BatchId = BatchId {
    rank: Rank(2),
    number: 0,
};

const OTHER: UnitId = UnitId {
    rank: Rank(1),
    number: 7,
};

// What is granted to a rank that waits for type 9.
const NOTE: UnitNote = UnitNote {
    id: OTHER,
    kind: WorkType(9),
    prio: 0,
    answer: None,
    server: Server(1),
    common: None,
    length: 3,
};

const COMMON: CommonRef = CommonRef {
    batch: BatchId {
        rank: Rank(1),
        number: 2,
    },
    server: Server(0),
    length: 2,
};

// Sixty bytes, more than the limit of 64 less an eighth.
const LONG: &[u8] = b"abcdefghijklmnopqrstuvwxyzabcdefghijklmnopqrstuvwxyzabcdefgh";

fn grant(request: u64, common: Option<CommonRef>) -> Message {
    let note = UnitNote {
        id: OTHER,
        kind: WorkType(1),
        prio: 0,
        answer: None,
        server: Server(0),
        common,
        length: 1,
    };
    Message::Grant { request, note }
}

fn unit(alloc: Global, id: UnitId, target: Target, body: &[u8]) -> Result<Unit, NoMemory> {
    Ok(Unit {
        id,
        kind: WorkType(1),
        prio: 0,
        target,
        answer: None,
        common: None,
        body: Payload::copy(alloc, body)?,
    })
}

fn put(alloc: Global, target: Target, body: &[u8]) -> Result<Message, NoMemory> {
    Ok(Message::Put {
        unit: unit(alloc, UNIT, target, body)?,
    })
}

fn push(alloc: Global) -> Result<Message, NoMemory> {
    Ok(Message::PushUnit {
        unit: unit(alloc, OTHER, Target::Any, b"abc")?,
    })
}

fn keep(alloc: Global) -> Result<Message, NoMemory> {
    Ok(Message::KeepCommon {
        request: 0,
        common: Payload::copy(alloc, b"xy")?,
    })
}

fn bytes(alloc: Global, request: u64, body: &[u8]) -> Result<Message, NoMemory> {
    Ok(Message::Bytes {
        request,
        body: Payload::copy(alloc, body)?,
    })
}

fn wait() -> Message {
    let types = match Types::list(&[WorkType(9)]) {
        Ok(types) => types,
        Err(_) => Types::any(),
    };
    Message::Reserve { request: 0, types }
}

// The first check goes on, in its first wave, or it has failed.
fn check(alloc: Global, goes_on: bool) -> Result<Message, NoMemory> {
    let token = Token {
        check: 1,
        wave: 1,
        asked: AskedList::new(alloc)?,
    };
    if goes_on {
        return Ok(Message::Token { token });
    }
    Ok(Message::Failed {
        token,
        why: Why::Busy,
    })
}
