//! The letter Hint, and the hints that a free unit makes.

ghost use Rattle.std.specs.Prelude.{◌≡◌, ◌<◌, ◌+◌, ℕ, [], true, false, Some, length};
ghost use Rattle.adlb_unit.specs.Targets.{home};
ghost use Rattle.adlb_unit.specs.declared.units.Unit.{Unit};
ghost use Rattle.server_components.specs.Parked.{IsHere, IsOther};
ghost use Rattle.server_core.specs.Out.{HasPlaces, HasRoom, Out, going_on, made, planned, with_letter};
ghost use Rattle.server_law.specs.Acts.{to_server};
ghost use Rattle.server_law.specs.Carried.{counted, posted};
ghost use Rattle.server_law.specs.Hints.{hint_all, hint_rule};
ghost use Rattle.server_law.specs.Plan.{Plan};
ghost use Rattle.server_law.specs.State.{Kept, ServerModel};

use crate::outgoing::Outgoing;
use crate::states::ServerState;
use adlb_unit::{Actor, Message, Rank, Server, Target, WorkType};

impl ServerState {
    // Another server has a unit for the rank by now: if the rank still waits, that server is asked, at once or in its turn.
    pub(crate) fn hear_hint(&mut self, from: Server, rank: Rank, request: u64, out: &mut Outgoing)
        requires other { IsOther self.old.config self.old.me from }
        requires here { IsHere self.old.config self.old.me rank }
        requires room { HasRoom self.old out.old 3 }

        ensures made { (p : Plan) → hint_rule self.old from rank request ≡ Some p →
            made self.new out.new ≡ planned out.old p self.old }
        ensures room { HasRoom self.new out.new 1 }
    {
        if self.hear_of(rank, request, from) {
            self.ask(from, rank, request, out);
        }
    }

    // A free unit of this type and target, which no rank that waits here takes, takes off the wishes of ranks to
    // which it is permitted. The home of each is told.
    pub(crate) fn hint_homes(&mut self, kind: WorkType, target: Target, out: &mut Outgoing)
        requires { HasRoom self.old out.old 2 }
        ensures made { (unit : Unit) → unit.kind ≡ kind → unit.target ≡ target →
            made self.new out.new ≡ going_on out.old (hint_all unit self.old.kept.parked.wishes) self.old }
        ensures room { HasRoom self.new out.new 2 }
    {
        while self.hint_next(kind, target, out) {}
    }

    // The next wish that such a unit takes off, if there is one: the home of its rank is told.
    fn hint_next(&mut self, kind: WorkType, target: Target, out: &mut Outgoing) -> bool
        requires { HasRoom self.old out.old 2 }
        ensures told { (unit : Unit) → unit.kind ≡ kind → unit.target ≡ target →
            going_on out.new (hint_all unit self.new.kept.parked.wishes) self.new ≡
            going_on out.old (hint_all unit self.old.kept.parked.wishes) self.old }
        ensures fewer { result ≡ true → length self.new.kept.parked.wishes < length self.old.kept.parked.wishes }
        ensures last { (unit : Unit) → unit.kind ≡ kind → unit.target ≡ target → result ≡ false →
            hint_all unit self.new.kept.parked.wishes ≡ [] }
        ensures room { HasRoom self.new out.new 2 }
    {
        match self.forget(kind, target) {
            Some((rank, request)) => {
                self.tell_home(rank, request, out);
                true
            }
            None => false,
        }
    }

    // The home of the rank is told that a unit for it is here by now.
    fn tell_home(&mut self, rank: Rank, request: u64, out: &mut Outgoing)
        requires room { 0 < out.old.room }
        requires places { HasPlaces self.old out.old }

        ensures counted { self.new ≡ counted self.old (Actor.Server (home self.old.config rank)) }
        ensures told { out.new ≡ with_letter out.old
            (posted self.old (to_server (home self.old.config rank) (Message.Hint rank request))) }
        ensures room { (more : ℕ) → HasRoom self.old out.old (more + 1) → HasRoom self.new out.new more }
    {
        let home = self.config.home(rank);
        self.say(Actor::Server(home), Message::Hint { rank, request }, out);
    }
}
