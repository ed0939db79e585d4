//! What idle ranks get: a unit that became free, or an end.

ghost use Rattle.std.specs.Prelude.{◌≡◌, All};
ghost use Rattle.std.specs.Option.{option_map};
ghost use Rattle.work_queue.specs.Queue.{HasFree, id_of};
ghost use Rattle.server_components.specs.Calls.{call_of, first_idle, given, gone_if, granted, taker_of};

use crate::granting::note;
use crate::parking::Parked;
use crate::waits::{first_idle, taker};
use adlb_unit::{Rank, UnitId, UnitNote};
use work_queue::WorkQueue;

impl Parked {
    /// Gives the free unit of this id to an idle rank (`taker_of`). It is the one that its target names before
    /// others, otherwise the first that came of those to which it is permitted. That rank waits no longer, and the
    /// unit is pinned to it. The answer is the rank, its request, and the note of the unit; `None` exactly if there
    /// is no such rank.
    pub fn offer(&mut self, queue: &mut WorkQueue, id: UnitId) -> Option<(Rank, u64, UnitNote)>
        requires { HasFree id queue.old.units }

        ensures given { All (λ p. id_of p ≡ id →
            result ≡ option_map (granted self.old.me p.unit) (taker_of p.unit self.old)) queue.old.units }
        ensures parked { All (λ p. id_of p ≡ id →
            self.new ≡ gone_if self.old (taker_of p.unit self.old)) queue.old.units }
        ensures queue { All (λ p. id_of p ≡ id →
            queue.new ≡ given (taker_of p.unit self.old) p queue.old) queue.old.units }
    {
        let (facts, target) = queue.facts(id);
        match taker(self.waiting.as_slice(), facts.kind, target) {
            None => None,
            Some(waits) => {
                let (rank, request) = (waits.wish.rank, waits.wish.request);
                queue.pin(id, rank);
                self.leave(rank);
                Some((rank, request, note(self.me, facts)))
            }
        }
    }

    /// The first idle rank waits no longer, since there is no more work. The answer is the rank and its request; `None`
    /// exactly if no rank is idle.
    pub fn end_idle(&mut self) -> Option<(Rank, u64)>
        ensures idle { result ≡ option_map (λ e. call_of e.wish) (first_idle self.old) }
        ensures parked { self.new ≡ gone_if self.old (first_idle self.old) }
    {
        match first_idle(self.waiting.as_slice()) {
            None => None,
            Some(waits) => {
                let (rank, request) = (waits.wish.rank, waits.wish.request);
                self.leave(rank);
                Some((rank, request))
            }
        }
    }
}
