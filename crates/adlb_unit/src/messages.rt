//! What ranks and servers say to each other.

ghost use Rattle.std.specs.Prelude.{◌≡◌, false, IfOk};
ghost use Rattle.adlb_unit.specs.Kinds.{is_asking, is_heavy, is_of_rank, is_to_rank};

use crate::names::{BatchId, NoMemory, Rank, UnitId, WorkType};
use crate::notes::{End, Info, Trouble, UnitNote};
use crate::payloads::Payload;
use crate::tokens::Token;
use crate::units::Unit;
use crate::wanted::Types;
use std::alloc::Global;

/// Why a server ends a check of the ring: it is busy, its activity changed since the first wave, or a free unit there
/// fits a waiting rank.
#[derive(Clone, Copy, Debug, PartialEq, Eq)]
pub enum Why {
    Busy,
    Changed { was: u64, now: u64 },
    Fits { id: UnitId },
}

/// What a letter says. The first eleven go from a rank to a server, the next ten from a server to a rank, the others
/// from a server to a server. A request is the number of the rank's call, from 0.
#[derive(Debug, Drop)]
pub enum Message {
    /// Take this unit; its number is the request.
    Put {
        unit: Unit,
    },
    /// Wait for a unit of these types.
    Reserve {
        request: u64,
        types: Types,
    },
    /// Look for a unit of these types, and do not wait.
    Try {
        request: u64,
        types: Types,
    },
    /// Give the own bytes of the unit that was granted.
    Fetch {
        request: u64,
        id: UnitId,
    },
    /// Give the bytes of the common part.
    FetchCommon {
        request: u64,
        batch: BatchId,
    },
    /// Keep the common part of the batch that begins.
    KeepCommon {
        request: u64,
        common: Payload,
    },
    /// The batch is over, and `accepted` of its units were accepted.
    CloseBatch {
        request: u64,
        batch: BatchId,
        accepted: u64,
    },
    /// Tell of the free units of this type.
    Count {
        request: u64,
        kind: WorkType,
    },
    /// The problem is done: there is no more work.
    Done {
        request: u64,
    },
    /// The rank has finished.
    Finish,
    /// The rank has failed.
    Gone {
        trouble: Trouble,
    },
    /// The unit or the common part is kept.
    Accepted {
        request: u64,
    },
    /// There is no room: `charge` bytes are taken.
    Full {
        request: u64,
        charge: u64,
    },
    /// There is no more work, for this reason.
    Ended {
        request: u64,
        end: End,
    },
    /// This unit is the rank's.
    Grant {
        request: u64,
        note: UnitNote,
    },
    /// No unit fits now.
    Nothing {
        request: u64,
    },
    /// The bytes that were asked for.
    Bytes {
        request: u64,
        body: Payload,
    },
    /// The batch is closed.
    Closed {
        request: u64,
    },
    /// What is said of the free units.
    Counted {
        request: u64,
        info: Info,
    },
    /// The end of the problem was heard.
    DoneHeard {
        request: u64,
    },
    /// The server has failed.
    Broken {
        trouble: Trouble,
    },
    /// Has the server a unit for this waiting rank?
    Ask {
        rank: Rank,
        request: u64,
        types: Types,
    },
    /// It has this one, which is the rank's.
    AskGrant {
        rank: Rank,
        request: u64,
        note: UnitNote,
    },
    /// It has none.
    AskNone {
        rank: Rank,
        request: u64,
    },
    /// A unit has come for a rank that asked in vain.
    Hint {
        rank: Rank,
        request: u64,
    },
    /// Is there room for a unit of this length?
    PushQuery {
        id: UnitId,
        length: u32,
    },
    /// There is room.
    PushYes {
        id: UnitId,
    },
    /// There is no such unit.
    PushNo {
        id: UnitId,
    },
    /// The unit that room is promised for.
    PushUnit {
        unit: Unit,
    },
    /// That unit does not come.
    PushCancel {
        id: UnitId,
    },
    /// The unit has come, or the promise is taken back.
    PushAck {
        id: UnitId,
    },
    /// A check of the ring is wanted.
    Notice,
    /// The check goes on.
    Token {
        token: Token,
    },
    /// The check has failed.
    Failed {
        token: Token,
        why: Why,
    },
    /// All work is used up.
    Exhaust,
    /// No rank waits any more, and none runs.
    Shutdown,
    /// The run stops, and `absent` ranks never started.
    Abort {
        trouble: Trouble,
        absent: u32,
    },
}

impl Message {
    /// An equal message, which shares its bytes. Its only error is `NoMemory`.
    pub fn twin(&self, alloc: Global) -> Result<Message, NoMemory>
        ensures { IfOk result (λ m. m ≡ self.now) }
    {
        Ok(match self {
            Message::Put { unit } => Message::Put {
                unit: unit.twin(alloc)?,
            },
            Message::KeepCommon { request, common } => Message::KeepCommon {
                request: *request,
                common: common.twin(alloc)?,
            },
            Message::Bytes { request, body } => Message::Bytes {
                request: *request,
                body: body.twin(alloc)?,
            },
            Message::PushUnit { unit } => Message::PushUnit {
                unit: unit.twin(alloc)?,
            },
            Message::Token { token } => Message::Token {
                token: token.twin(alloc)?,
            },
            Message::Failed { token, why } => Message::Failed {
                token: token.twin(alloc)?,
                why: *why,
            },
            _ => self.plain_twin(),
        })
    }

    // An equal message, if it carries neither bytes nor a token.
    fn plain_twin(&self) -> Message
        requires { is_heavy self.now ≡ false }
        ensures { result ≡ self.now }
    {
        match self {
            Message::Reserve { request, types } => Message::Reserve {
                request: *request,
                types: types.twin(),
            },
            Message::Try { request, types } => Message::Try {
                request: *request,
                types: types.twin(),
            },
            Message::Fetch { request, id } => Message::Fetch {
                request: *request,
                id: *id,
            },
            Message::FetchCommon { request, batch } => Message::FetchCommon {
                request: *request,
                batch: *batch,
            },
            Message::CloseBatch {
                request,
                batch,
                accepted,
            } => Message::CloseBatch {
                request: *request,
                batch: *batch,
                accepted: *accepted,
            },
            Message::Count { request, kind } => Message::Count {
                request: *request,
                kind: *kind,
            },
            Message::Done { request } => Message::Done { request: *request },
            Message::Finish => Message::Finish,
            Message::Gone { trouble } => Message::Gone { trouble: *trouble },
            _ => self.plain_answer(),
        }
    }

    // An equal message, if besides no rank says it.
    fn plain_answer(&self) -> Message
        requires light { is_heavy self.now ≡ false }
        requires server { is_of_rank self.now ≡ false }
        ensures { result ≡ self.now }
    {
        match self {
            Message::Accepted { request } => Message::Accepted { request: *request },
            Message::Full { request, charge } => Message::Full {
                request: *request,
                charge: *charge,
            },
            Message::Ended { request, end } => Message::Ended {
                request: *request,
                end: *end,
            },
            Message::Grant { request, note } => Message::Grant {
                request: *request,
                note: *note,
            },
            Message::Nothing { request } => Message::Nothing { request: *request },
            Message::Closed { request } => Message::Closed { request: *request },
            Message::Counted { request, info } => Message::Counted {
                request: *request,
                info: *info,
            },
            Message::DoneHeard { request } => Message::DoneHeard { request: *request },
            Message::Broken { trouble } => Message::Broken { trouble: *trouble },
            _ => self.plain_between(),
        }
    }

    // An equal message, if besides a server says it to a server.
    fn plain_between(&self) -> Message
        requires light { is_heavy self.now ≡ false }
        requires server { is_of_rank self.now ≡ false }
        requires to_server { is_to_rank self.now ≡ false }
        ensures { result ≡ self.now }
    {
        match self {
            Message::Ask {
                rank,
                request,
                types,
            } => Message::Ask {
                rank: *rank,
                request: *request,
                types: types.twin(),
            },
            Message::AskGrant {
                rank,
                request,
                note,
            } => Message::AskGrant {
                rank: *rank,
                request: *request,
                note: *note,
            },
            Message::AskNone { rank, request } => Message::AskNone {
                rank: *rank,
                request: *request,
            },
            Message::Hint { rank, request } => Message::Hint {
                rank: *rank,
                request: *request,
            },
            _ => self.plain_push(),
        }
    }

    // An equal message, if servers say it of a push, of the ring or of the end.
    fn plain_push(&self) -> Message
        requires light { is_heavy self.now ≡ false }
        requires server { is_of_rank self.now ≡ false }
        requires to_server { is_to_rank self.now ≡ false }
        requires push { is_asking self.now ≡ false }
        ensures { result ≡ self.now }
    {
        match self {
            Message::PushQuery { id, length } => Message::PushQuery {
                id: *id,
                length: *length,
            },
            Message::PushYes { id } => Message::PushYes { id: *id },
            Message::PushNo { id } => Message::PushNo { id: *id },
            Message::PushCancel { id } => Message::PushCancel { id: *id },
            Message::PushAck { id } => Message::PushAck { id: *id },
            Message::Notice => Message::Notice,
            Message::Exhaust => Message::Exhaust,
            Message::Shutdown => Message::Shutdown,
            Message::Abort { trouble, absent } => Message::Abort {
                trouble: *trouble,
                absent: *absent,
            },
            _ => unreachable!(),
        }
    }
}
