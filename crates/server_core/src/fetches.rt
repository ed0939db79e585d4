//! The letter Fetch.

ghost use Rattle.std.specs.Prelude.{◌≡◌, ◌<◌, ◌∷◌, [], All};
ghost use Rattle.server_core.specs.Out.{HasRoom, Out, going_on, made};
ghost use Rattle.server_law.specs.Acts.{Act, Fetches};
ghost use Rattle.server_law.specs.State.{Kept, ServerModel};
ghost use Rattle.work_queue.specs.Queue.{HasPinned, id_of};

use crate::outgoing::Outgoing;
use crate::states::ServerState;
use adlb_unit::{Actor, Message, Rank, UnitId};
use bag_ledger::Entry;

impl ServerState {
    // The unit that is pinned to the rank is gone, and its bytes are sent.
    pub(crate) fn fetch(&mut self, from: Rank, request: u64, id: UnitId, out: &mut Outgoing)
        requires rank { from.0 < self.old.config.ranks }
        requires pinned { HasPinned id from self.old.kept.queue.units }
        requires room { HasRoom self.old out.old 2 }

        ensures made { All (λ p. id_of p ≡ id →
            made self.new out.new ≡
            going_on out.old (Fetches from request id p.unit ∷ []) self.old) self.old.kept.queue.units }
        ensures room { HasRoom self.new out.new 1 }
    {
        let body = self.queue.take_pinned(id, from);
        let fetched = Entry::Fetched {
            server: self.me,
            rank: from,
            id,
        };
        self.answer(
            Actor::Rank(from),
            Message::Bytes { request, body },
            fetched,
            out,
        );
    }
}
