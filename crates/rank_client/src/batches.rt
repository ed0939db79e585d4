//! What a client does to begin a batch and to end it.

ghost use Rattle.std.specs.Prelude.{◌≡◌, ◌<◌, ◌≤◌, ◌+◌, ◌^◌, [], length, Some, IfOk};
ghost use Rattle.adlb_unit.specs.Limits.{body_limit, stamp_limit};
ghost use Rattle.bag_ledger.specs.declared.entries.Answer.{Answer};
ghost use Rattle.bag_ledger.specs.declared.entries.Call.{Call};
ghost use Rattle.rank_client.specs.inside.{Fits, HasRoom, Hears, Opens, opened, response_of};
ghost use Rattle.rank_client.specs.Rules.{asked, begun_batch, closing, ends, keep};
ghost use Rattle.rank_client.specs.State.{ClientModel};
ghost use Rattle.rank_client.specs.declared.pendings.Pending.{Pending};
ghost use Rattle.rank_client.specs.declared.rooms.Room.{Room};

use crate::clients::ClientCore;
use crate::openings::{First, Opening};
use crate::outcomes::{Change, Outcome, Place, ended, ends};
use crate::pendings::Pending;
use crate::rooms::Room;
use crate::rounds::{Errand, Round};
use adlb_unit::{BatchId, CommonRef, Message, NoMemory, Payload, Target};
use bag_ledger::{Answer, Call, Entry};

impl ClientCore {
    // Begins a batch: its common part is offered to the first server.
    pub(crate) fn keep(&self, common: Payload) -> Result<Opening, NoMemory>
        requires few { self.now.puts < stamp_limit }
        requires common { length common ≤ 2 ^ 20 }
        ensures ok { IfOk result (λ o. opened self.now o ≡ keep self.now common self.now.end) }
        ensures opens { IfOk result (λ o. Opens self.now o) }
    {
        let common = common.share(self.alloc)?;
        let entry = Entry::Keeping {
            rank: self.me,
            call: self.next,
            common: common.twin(self.alloc)?,
        };
        let first = match self.end {
            Some(end) => First::Over {
                call: Call::BeginBatch { common },
                end,
            },
            None => {
                let request = self.next;
                let server = self.first_server(Target::Any);
                let body = common.twin(self.alloc)?;
                self.go_round(Errand::Keep { request, common }, body, server, server)?
            }
        };
        Ok(Opening {
            puts: self.puts + 1,
            spent: None,
            entry,
            first,
        })
    }

    // Ends the batch: the server of its common part is told how many of its units were accepted.
    pub(crate) fn close(&self, batch: CommonRef) -> Opening
        requires batch { self.now.batch ≡ Some batch }
        ensures ok { opened self.now result ≡ closing self.now batch }
        ensures opens { Opens self.now result }
    {
        let request = self.next;
        Opening {
            puts: self.puts,
            spent: None,
            entry: Entry::Closing {
                rank: self.me,
                call: request,
            },
            first: First::Asks {
                to: batch.server,
                message: Message::CloseBatch {
                    request,
                    batch: batch.batch,
                    accepted: self.accepted,
                },
                pending: Pending::Close { request, batch },
                room: Room::none(self.alloc),
            },
        }
    }
}

// What a letter makes of the beginning of a batch.
pub(crate) fn hear_keep(
    place: &Place,
    request: u64,
    common: Payload,
    round: Round,
    room: &mut Room,
    message: &Message,
) -> Outcome
    requires room { HasRoom place.now.config room.old (Pending.Keep request common round.first round.tried) }
    ensures { Hears place.now (Pending.Keep request common round.first round.tried) message.now room.new result }
{
    match message {
        Message::Accepted { .. } => begun(place, request, common, round),
        Message::Ended { end, .. } => ended(*end, Call::BeginBatch { common }),
        Message::Full { .. } => Errand::Keep { request, common }.offer_next(place, round, room),
        _ => Outcome::Strange,
    }
}

// A server keeps the common part, and the batch goes on.
fn begun(place: &Place, request: u64, common: Payload, round: Round) -> Outcome
    requires common { length common ≤ body_limit }
    requires first { round.first.0 < place.now.config.servers }
    ensures response { (s : ClientModel) → s.config ≡ place.now.config → s.me ≡ place.now.me → response_of s result
        ≡ Some (ends (record s { batch = Some (begun_batch s request common (asked s round.first round.tried)); accepted = 0 }) [] (Call.BeginBatch common) Answer.Fine) }
    ensures fits { (room : Room) → Fits place.now.config room result }
{
    let part = CommonRef {
        batch: BatchId {
            rank: place.me,
            number: request,
        },
        server: round.server(&place.config),
        length: common.len() as u32,
    };
    ends(
        Change::Begun(part),
        None,
        Call::BeginBatch { common },
        Answer::Fine,
    )
}

// What a letter makes of the end of a batch: the server has closed it.
pub(crate) fn hear_close(
    place: &Place,
    request: u64,
    batch: CommonRef,
    room: &Room,
    message: &Message,
) -> Outcome
    ensures { Hears place.now (Pending.Close request batch) message.now room.now result }
{
    match message {
        Message::Closed { .. } => { ends(Change::Closed, None, Call::EndBatch, Answer::Fine) }
        _ => Outcome::Strange,
    }
}
