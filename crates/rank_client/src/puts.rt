//! What a client does to put a unit.

ghost use Rattle.std.specs.Prelude.{◌≡◌, ◌<◌, ◌+◌, [], All, IfOk};
ghost use Rattle.std.specs.Vec.{vec_len};
ghost use Rattle.adlb_unit.specs.Limits.{stamp_limit};
ghost use Rattle.rank_client.specs.inside.{HasRoom, Hears, Opens, opened};
ghost use Rattle.rank_client.specs.Rules.{call_of, entry_of, first_server, put, unit_put};
ghost use Rattle.rank_client.specs.declared.pendings.Pending.{Pending};

use crate::clients::{ClientCore, behind};
use crate::openings::{First, Opening};
use crate::outcomes::{Change, Outcome, Place, ended, ends};
use crate::pendings::Pending;
use crate::rooms::Room;
use crate::rounds::{Errand, Round};
use adlb_unit::{
    Message, NoMemory, Payload, Rank, Server, Target, Unit, UnitId, WorkType, or_no_memory,
};
use bag_ledger::{Answer, Call, Entry};
use std::alloc::Global;

// The entry that begins the put of this unit.
fn putting(alloc: Global, unit: &Unit) -> Result<Entry, NoMemory>
    ensures { IfOk result (λ e. e ≡ entry_of unit.now) }
{
    Ok(Entry::Putting {
        rank: unit.id.rank,
        call: unit.id.number,
        kind: unit.kind,
        prio: unit.prio,
        target: unit.target,
        answer: unit.answer,
        body: unit.body.twin(alloc)?,
    })
}

// The call that puts this unit.
pub(crate) fn put_call(unit: Unit) -> Call
    ensures { result ≡ call_of unit }
{
    Call::Put {
        kind: unit.kind,
        prio: unit.prio,
        target: unit.target,
        answer: unit.answer,
        body: unit.body,
    }
}

// What it takes to offer these bytes to this number of servers.
fn offers(alloc: Global, body: &Payload, servers: usize) -> Result<Vec<Payload>, NoMemory>
    ensures all { IfOk result (λ v. All (λ b. b ≡ body.now) v.items) }
    ensures len { IfOk result (λ v. vec_len v ≡ servers) }
{
    let mut tries = or_no_memory(Vec::with_capacity(alloc, servers))?;
    for _ in 0..servers {
        tries.push_reserved(body.twin(alloc)?);
    }
    Ok(tries)
}

// What a letter makes of the put.
pub(crate) fn hear_put(
    place: &Place,
    unit: Unit,
    round: Round,
    room: &mut Room,
    message: &Message,
) -> Outcome
    requires room { HasRoom place.now.config room.old (Pending.Put unit round.first round.tried) }
    ensures { Hears place.now (Pending.Put unit round.first round.tried) message.now room.new result }
{
    match message {
        Message::Accepted { .. } => { ends(Change::Accepted, None, put_call(unit), Answer::Fine) }
        Message::Ended { end, .. } => ended(*end, put_call(unit)),
        Message::Full { .. } => Errand::Put(unit).offer_next(place, round, room),
        _ => Outcome::Strange,
    }
}

impl ClientCore {
    // The unit that is put, whose twins will share its bytes.
    pub(crate) fn unit(
        &self,
        kind: WorkType,
        prio: i32,
        target: Target,
        answer: Option<Rank>,
        body: Payload,
    ) -> Result<Unit, NoMemory>
        ensures { IfOk result (λ unit. unit ≡ unit_put self.now kind prio target answer body) }
    {
        let id = UnitId {
            rank: self.me,
            number: self.next,
        };
        Ok(Unit {
            id,
            kind,
            prio,
            target,
            answer,
            common: self.batch,
            body: body.share(self.alloc)?,
        })
    }

    // Room to offer these bytes to the servers after the first one.
    pub(crate) fn offer_room(&self, body: &Payload) -> Result<Room, NoMemory>
        ensures tries { IfOk result (λ r. vec_len r.tries + 1 ≡ self.now.config.servers) }
        ensures bodies { IfOk result (λ r. All (λ b. b ≡ body.now) r.tries.items) }
    {
        Ok(Room {
            tries: offers(self.alloc, body, self.config.servers as usize - 1)?,
        })
    }

    // Puts the unit: it is offered to the first server.
    pub(crate) fn put(&self, unit: Unit) -> Result<Opening, NoMemory>
        requires few { self.now.puts < stamp_limit }
        ensures ok { IfOk result (λ o. opened self.now o ≡ put self.now unit self.now.end) }
        ensures opens { IfOk result (λ o. Opens self.now o) }
    {
        let entry = putting(self.alloc, &unit)?;
        let first = match self.end {
            Some(end) => First::Over {
                call: put_call(unit),
                end,
            },
            None => {
                let server = self.first_server(unit.target);
                let body = unit.body.twin(self.alloc)?;
                self.go_round(Errand::Put(unit), body, server, server)?
            }
        };
        Ok(Opening {
            puts: self.puts + 1,
            spent: None,
            entry,
            first,
        })
    }

    // The server to which a put or, as a put for any, a common part goes first.
    pub(crate) fn first_server(&self, target: Target) -> Server
        ensures first { result ≡ first_server self.now target }
        ensures there { result.0 < self.now.config.servers }
    {
        match target {
            Target::Any => behind(&self.config, self.config.home(self.me), self.puts),
            Target::Only(rank) | Target::Soft(rank) => self.config.home(rank),
        }
    }
}
