//! Which letters a client expects.

ghost use Rattle.std.specs.Prelude.{◌≡◌, ◌<◌, ◌↔◌, ◌&&◌, IsTrue, IsSome};
ghost use Rattle.adlb_unit.specs.declared.messages.Message.{Message};
ghost use Rattle.rank_client.specs.Expected.{AnswersClose, AnswersCommon, AnswersCount, AnswersDone, AnswersFetch, AnswersPut, AnswersReserve, AnswersTry, IsAwaited, IsExpected};
ghost use Rattle.rank_client.specs.Rules.{expects_note, is_at_server, is_for};
ghost use Rattle.rank_client.specs.Step.{hear};

use crate::clients::ClientCore;
use crate::pendings::Pending;
use crate::rounds::Round;
use adlb_unit::{CommonRef, Letter, Message, STAMP_LIMIT, Server, UnitNote};

impl ClientCore {
    /// The letter is expected (`IsExpected`): the pending call awaits such an answer, with this request, from this server.
    /// Exactly such a letter has a step (`hear`). It takes no memory.
    pub fn expects(&self, from: Server, letter: &Letter) -> bool
        ensures expected { IsTrue result ↔ IsExpected self.now from letter.now }
        ensures heard { IsTrue result ↔ IsSome (hear self.now from letter.now) }
    {
        !self.finished && letter.stamp < STAMP_LIMIT && self.awaits(from, &letter.message)
    }

    // The pending call awaits this answer from this server.
    fn awaits(&self, from: Server, message: &Message) -> bool
        ensures { IsTrue result ↔ IsAwaited self.now self.now.pending from message.now }
    {
        match &self.pending {
            Pending::Nothing => false,
            Pending::Put { unit, first, tried } => {
                let round = Round {
                    first: *first,
                    tried: *tried,
                };
                let at = round.server(&self.config);
                answers_put(unit.id.number, at, from, message)
            }
            Pending::Reserve { request, .. } => self.answers_reserve(*request, from, message),
            Pending::Try { request, tried, .. } => {
                self.answers_try(*request, *tried, from, message)
            }
            Pending::Fetch { request, note } => answers_fetch(*request, note, from, message),
            Pending::Common {
                request,
                common,
                ..
            } => answers_common(*request, common, from, message),
            Pending::Keep {
                request,
                first,
                tried,
                ..
            } => {
                let round = Round {
                    first: *first,
                    tried: *tried,
                };
                let at = round.server(&self.config);
                answers_put(*request, at, from, message)
            }
            Pending::Close { request, batch } => answers_close(*request, batch, from, message),
            Pending::Count { request, .. } => {
                let home = self.config.home(self.me);
                answers_count(*request, home, from, message)
            }
            Pending::SetDone { request, tried } => {
                let at = Round::from_home(&self.config, self.me, *tried).server(&self.config);
                answers_done(*request, at, from, message)
            }
        }
    }

    fn answers_reserve(&self, request: u64, from: Server, message: &Message) -> bool
        ensures { IsTrue result ↔ AnswersReserve self.now request from message.now }
    {
        let home = self.config.home(self.me);
        match message {
            Message::Grant { request: to, note } => {
                is_for(request, home, from, *to) && self.expects_note(note)
            }
            Message::Ended { request: to, .. } => is_for(request, home, from, *to),
            _ => false,
        }
    }

    fn answers_try(&self, request: u64, tried: u32, from: Server, message: &Message) -> bool
        ensures { IsTrue result ↔ AnswersTry self.now request tried from message.now }
    {
        let at = Round::from_home(&self.config, self.me, tried).server(&self.config);
        match message {
            Message::Grant { request: to, note } => {
                is_for(request, at, from, *to) && self.expects_note(note)
            }
            Message::Nothing { request: to } => is_for(request, at, from, *to),
            Message::Ended { request: to, .. } => is_for(request, at, from, *to),
            _ => false,
        }
    }

    // The note names a server, and so does its common part, if it has one; its unit was not granted or fetched before.
    fn expects_note(&self, note: &UnitNote) -> bool
        ensures { result ≡ expects_note self.now note.now }
    {
        note.server.0 < self.config.servers
            && self.is_at_server(note.common)
            && !self.said.names(note.id)
    }

    // The common part, if there is one, is at a server of the run.
    fn is_at_server(&self, common: Option<CommonRef>) -> bool
        ensures { result ≡ is_at_server self.now common }
    {
        match common {
            None => true,
            Some(part) => part.server.0 < self.config.servers,
        }
    }
}

// The answer to this request comes from the server that was asked.
fn is_for(request: u64, at: Server, from: Server, to: u64) -> bool
    ensures { result ≡ is_for request at from to }
{
    to == request && from.0 == at.0
}

fn answers_put(request: u64, at: Server, from: Server, message: &Message) -> bool
    ensures { IsTrue result ↔ AnswersPut request at from message.now }
{
    match message {
        Message::Accepted { request: to } => is_for(request, at, from, *to),
        Message::Full { request: to, .. } => is_for(request, at, from, *to),
        Message::Ended { request: to, .. } => is_for(request, at, from, *to),
        _ => false,
    }
}

fn answers_fetch(request: u64, note: &UnitNote, from: Server, message: &Message) -> bool
    ensures { IsTrue result ↔ AnswersFetch request note.now from message.now }
{
    match message {
        Message::Bytes { request: to, body } => {
            is_for(request, note.server, from, *to) && body.len() == note.length as usize
        }
        _ => false,
    }
}

fn answers_common(request: u64, common: &CommonRef, from: Server, message: &Message) -> bool
    ensures { IsTrue result ↔ AnswersCommon request common.now from message.now }
{
    match message {
        Message::Bytes { request: to, body } => {
            is_for(request, common.server, from, *to) && body.len() == common.length as usize
        }
        _ => false,
    }
}

fn answers_close(request: u64, batch: &CommonRef, from: Server, message: &Message) -> bool
    ensures { IsTrue result ↔ AnswersClose request batch.now from message.now }
{
    match message {
        Message::Closed { request: to } => is_for(request, batch.server, from, *to),
        _ => false,
    }
}

fn answers_count(request: u64, home: Server, from: Server, message: &Message) -> bool
    ensures { IsTrue result ↔ AnswersCount request home from message.now }
{
    match message {
        Message::Counted { request: to, .. } => is_for(request, home, from, *to),
        _ => false,
    }
}

fn answers_done(request: u64, at: Server, from: Server, message: &Message) -> bool
    ensures { IsTrue result ↔ AnswersDone request at from message.now }
{
    match message {
        Message::DoneHeard { request: to } => is_for(request, at, from, *to),
        _ => false,
    }
}
