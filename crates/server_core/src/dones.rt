//! The letter Done: a rank says that the problem is done.

ghost use Rattle.std.specs.Prelude.{◌≡◌, ◌<◌, Some};
ghost use Rattle.server_core.specs.Out.{HasRoom, Out, made, planned};
ghost use Rattle.server_law.specs.Dones.{done_rule};
ghost use Rattle.server_law.specs.Plan.{Plan};
ghost use Rattle.server_law.specs.State.{ServerModel};

use crate::outgoing::Outgoing;
use crate::states::ServerState;
use adlb_unit::{Actor, End, Message, Rank};

impl ServerState {
    // From now on there is no more work here: the rank is answered, and all who are idle are told.
    pub(crate) fn hear_done(&mut self, from: Rank, request: u64, out: &mut Outgoing)
        requires rank { from.0 < self.old.config.ranks }
        requires room { HasRoom self.old out.old 3 }

        ensures made { (p : Plan) → done_rule self.old from request ≡ Some p →
            made self.new out.new ≡ planned out.old p self.old }
        ensures room { HasRoom self.new out.new 1 }
    {
        self.done = true;
        self.say(Actor::Rank(from), Message::DoneHeard { request }, out);
        self.tell_all(End::NoMoreWork, out);
    }
}
