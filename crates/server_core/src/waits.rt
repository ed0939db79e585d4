//! Ranks that wait, and the servers that are asked for them.

ghost use Rattle.std.specs.Prelude.{◌≡◌, ◌≤◌, ◌<◌, ◌+◌, ◌↔◌, ◌&&◌, ℕ, IsTrue, Some, take};
ghost use Rattle.std.specs.List.{list_any};
ghost use Rattle.adlb_unit.specs.Limits.{rank_limit};
ghost use Rattle.server_components.specs.Parked.{entry_of, is_idle, is_of};
ghost use Rattle.server_components.specs.declared.waits.Waiting.{Waiting};
ghost use Rattle.server_core.specs.inside.{parked_of};
ghost use Rattle.server_core.specs.Out.{HasPlaces, HasRoom, Out, with_letter};
ghost use Rattle.server_law.specs.Acts.{askers, to_server};
ghost use Rattle.server_law.specs.Carried.{counted, posted};
ghost use Rattle.server_law.specs.Expected.{IsUnanswered};
ghost use Rattle.server_law.specs.State.{Kept, ServerModel, is_waiting, runs};

use crate::outgoing::Outgoing;
use crate::states::ServerState;
use adlb_unit::{Actor, Message, RANK_LIMIT, Rank, Server, Types};

impl ServerState {
    /// The rank waits here: its home is this server, and it asked for a unit and got no answer.
    pub fn is_waiting(&self, rank: Rank) -> bool
        ensures { result ≡ is_waiting self.now.kept rank }
    {
        self.parked.awaits(rank).is_some()
    }

    // The rank waits here and is idle.
    pub(crate) fn is_idle(&self, rank: Rank) -> bool
        ensures { result ≡ list_any (λ e. is_of rank e && is_idle e) self.now.kept.parked.waiting }
    {
        match self.parked.awaits(rank) {
            Some((_, asked)) => asked.is_none(),
            None => false,
        }
    }

    // The rank waits here since this request, and this server was asked for it and has not answered.
    pub(crate) fn is_unanswered(&self, from: Server, rank: Rank, request: u64) -> bool
        ensures { IsTrue result ↔ IsUnanswered self.now from rank request }
    {
        match self.parked.awaits(rank) {
            Some((since, asked)) => since == request && asked == Some(from),
            None => false,
        }
    }

    // Copies the ranks that wait, as a check names them, to the front of the room: how many they are.
    pub(crate) fn put_askers(&self, room: &mut [(Rank, Types); RANK_LIMIT as usize]) -> usize
        ensures front { take result room.new ≡ askers self.now.kept }
        ensures within { result ≤ rank_limit }
    {
        self.parked.asked(room) as usize
    }

    // The rank runs, as far as the server knows.
    pub(crate) fn runs(&self, rank: Rank) -> bool
        requires { rank.0 < self.now.config.ranks }
        ensures { result ≡ runs self.now.kept rank }
    {
        !self.is_waiting(rank) && !self.finished[rank.0 as usize]
    }

    // The server is asked for the rank, which waits here since this request.
    pub(crate) fn ask(&mut self, to: Server, rank: Rank, request: u64, out: &mut Outgoing)
        requires server { to.0 < self.old.config.servers }
        requires waits { IsTrue (is_waiting self.old.kept rank) }
        requires room { 0 < out.old.room }
        requires places { HasPlaces self.old out.old }

        ensures counted { self.new ≡ counted self.old (Actor.Server to) }
        ensures told { (e : Waiting) → entry_of (parked_of self.old) rank ≡ Some e →
            out.new ≡ with_letter out.old (posted self.old (to_server to (Message.Ask rank request e.wish.types))) }
        ensures room { (more : ℕ) → HasRoom self.old out.old (more + 1) → HasRoom self.new out.new more }
    {
        let Some(types) = self.parked.types_of(rank) else {
            unreachable!()
        };
        let asks = Message::Ask {
            rank,
            request,
            types,
        };
        self.say(Actor::Server(to), asks, out);
    }
}
