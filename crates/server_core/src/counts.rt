//! The letter Count.

ghost use Rattle.std.specs.Prelude.{◌≡◌, ◌<◌, ◌∷◌, []};
ghost use Rattle.server_core.specs.Out.{HasRoom, Out, going_on, made};
ghost use Rattle.server_law.specs.Acts.{Act, Counts};
ghost use Rattle.server_law.specs.State.{ServerModel};

use crate::outgoing::Outgoing;
use crate::states::ServerState;
use adlb_unit::{Actor, Message, Rank, WorkType};
use bag_ledger::Entry;

impl ServerState {
    // The rank is told how many free units of the type there are.
    pub(crate) fn count(&mut self, from: Rank, request: u64, kind: WorkType, out: &mut Outgoing)
        requires rank { from.0 < self.old.config.ranks }
        requires room { HasRoom self.old out.old 2 }

        ensures made { made self.new out.new ≡ going_on out.old (Counts from request kind ∷ []) self.old }
        ensures room { HasRoom self.new out.new 1 }
    {
        let info = self.queue.counts(kind);
        let counted = Entry::Counted {
            server: self.me,
            rank: from,
            call: request,
            info,
        };
        self.answer(
            Actor::Rank(from),
            Message::Counted { request, info },
            counted,
            out,
        );
    }
}
