//! The letter Try.

ghost use Rattle.std.specs.Prelude.{◌≡◌, ◌<◌, ◌∷◌, []};
ghost use Rattle.server_core.specs.Out.{HasRoom, Out, going_on, made};
ghost use Rattle.server_law.specs.Looks.{look_now};
ghost use Rattle.server_law.specs.State.{Kept, ServerModel};

use crate::outgoing::Outgoing;
use crate::states::ServerState;
use adlb_unit::{Actor, End, Message, Rank, Types};
use bag_ledger::Entry;

impl ServerState {
    // The rank gets the best free unit, or is told that nothing is there.
    pub(crate) fn look(&mut self, from: Rank, request: u64, types: &Types, out: &mut Outgoing)
        requires rank { from.0 < self.old.config.ranks }
        requires room { HasRoom self.old out.old 2 }

        ensures made { made self.new out.new ≡
            going_on out.old (look_now self.old.kept (record { rank = from; request = request; types = types.now }) ∷ []) self.old }
        ensures room { HasRoom self.new out.new 1 }
    {
        if self.done {
            return self.end_call(from, request, End::NoMoreWork, out);
        }
        match self.parked.try_reserve(&mut self.queue, from, types) {
            Some(note) => self.grant(from, request, note, out),
            None => {
                let looked = Entry::Looked {
                    server: self.me,
                    rank: from,
                    call: request,
                };
                self.answer(Actor::Rank(from), Message::Nothing { request }, looked, out);
            }
        }
    }
}
