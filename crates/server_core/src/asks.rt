//! The letters Ask, AskGrant and AskNone: the home of a rank that waits asks another server for it, and is answered.

ghost use Rattle.std.specs.Prelude.{◌≡◌, Some};
ghost use Rattle.server_components.specs.Parked.{IsOther};
ghost use Rattle.server_core.specs.Out.{HasRoom, Out, made, planned};
ghost use Rattle.server_law.specs.Asks.{ask_rule, grant_rule, none_rule};
ghost use Rattle.server_law.specs.Expected.{IsAwaitedFrom, IsUnanswered};
ghost use Rattle.server_law.specs.Plan.{Plan};
ghost use Rattle.server_law.specs.State.{ServerModel};

use crate::outgoing::Outgoing;
use crate::states::ServerState;
use adlb_unit::{Actor, Message, Rank, Server, Types, UnitNote};
use bag_ledger::Entry;

impl ServerState {
    // The home of the rank asks for it: the best free unit is pinned to the rank, or its wish is kept.
    pub(crate) fn ask_here(
        &mut self,
        from: Server,
        rank: Rank,
        request: u64,
        types: &Types,
        out: &mut Outgoing,
    )
        requires other { IsOther self.old.config self.old.me from }
        requires awaited { IsAwaitedFrom self.old from (Message.Ask rank request types.now) }
        requires room { HasRoom self.old out.old 3 }

        ensures made { (p : Plan) →
            ask_rule self.old from (record { rank = rank; request = request; types = types.now }) ≡ Some p →
            made self.new out.new ≡ planned out.old p self.old }
        ensures room { HasRoom self.new out.new 1 }
    {
        let home = Actor::Server(from);
        match self.pin_for(rank, request, types) {
            Some(note) => {
                let granted = Entry::Granted {
                    server: self.me,
                    rank,
                    call: request,
                    id: note.id,
                };
                let grants = Message::AskGrant {
                    rank,
                    request,
                    note,
                };
                self.answer(home, grants, granted, out);
            }
            None => self.say(home, Message::AskNone { rank, request }, out),
        }
    }

    // The server that was asked for the rank has pinned a unit to it, of which the rank is told.
    pub(crate) fn pass_on(
        &mut self,
        from: Server,
        rank: Rank,
        request: u64,
        note: UnitNote,
        out: &mut Outgoing,
    )
        requires awaited { IsUnanswered self.old from rank request }
        requires room { HasRoom self.old out.old 3 }

        ensures made { (p : Plan) → grant_rule self.old from rank request note ≡ Some p →
            made self.new out.new ≡ planned out.old p self.old }
        ensures room { HasRoom self.new out.new 1 }
    {
        self.release_granted(rank);
        self.say(Actor::Rank(rank), Message::Grant { request, note }, out);
    }

    // The server that was asked for the rank had no unit: what is here is looked at again, and then the next is asked.
    pub(crate) fn ask_again(&mut self, from: Server, rank: Rank, request: u64, out: &mut Outgoing)
        requires awaited { IsUnanswered self.old from rank request }
        requires room { HasRoom self.old out.old 3 }

        ensures made { (p : Plan) → none_rule self.old from rank request ≡ Some p →
            made self.new out.new ≡ planned out.old p self.old }
        ensures room { HasRoom self.new out.new 1 }
    {
        match self.over() {
            Some(end) => {
                self.release(rank);
                self.end_call(rank, request, end, out);
            }
            None => {
                let step = self.look_again(rank);
                self.tell_sought(rank, request, step, out);
            }
        }
    }
}
