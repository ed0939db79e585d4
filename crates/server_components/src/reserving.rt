//! Reserves at the rank's home.

ghost use Rattle.std.specs.Prelude.{◌≡◌, ◌<◌, ◌↔◌, Any, IfSome, IsSome, Some, None, false, true};
ghost use Rattle.std.specs.Option.{option_map};
ghost use Rattle.adlb_unit.specs.Ring.{others};
ghost use Rattle.adlb_unit.specs.declared.names.Server.{Server};
ghost use Rattle.adlb_unit.specs.declared.notes.UnitNote.{UnitNote};
ghost use Rattle.work_queue.specs.Best.{IsBest, IsOffered};
ghost use Rattle.server_components.specs.Calls.{after_none, gone, reserved, step_for};
ghost use Rattle.server_components.specs.Grants.{best_for, note_of, with_grant};
ghost use Rattle.server_components.specs.Parked.{IsHere, IsOther, entry_of, is_parked, is_pending};
ghost use Rattle.server_components.specs.declared.waits.Waiting.{Waiting as Entry};

use crate::granting::grant;
use crate::parking::Parked;
use crate::ring::ToAsk;
use crate::steps::ReserveStep;
use crate::waits::Waiting;
use crate::wishes::Wish;
use adlb_unit::{Rank, Types, UnitNote};
use work_queue::WorkQueue;

impl Parked {
    /// A rank that is at home here, and does not wait, wants a unit of these types in its call of this number. The best
    /// free unit that is permitted to it (`best_for`) is pinned to it, and told. If no unit is, the rank waits, after
    /// the others (`reserved`), and the first of the other servers is to be asked; `Idle` exactly if there is no other.
    pub fn reserve(
        &mut self,
        queue: &mut WorkQueue,
        rank: Rank,
        request: u64,
        types: &Types,
    ) -> ReserveStep
        requires here { IsHere self.old.config self.old.me rank }
        requires new { is_parked self.old rank ≡ false }

        ensures step { result ≡
            step_for self.old.me (best_for queue.old rank types.now) (others self.old.config self.old.me) }
        ensures parked { self.new ≡
            reserved self.old (record { rank = rank; request = request; types = types.now })
            (best_for queue.old rank types.now) }
        ensures queue { queue.new ≡ with_grant queue.old rank types.now }
        ensures best { (note : UnitNote) → result ≡ ReserveStep.Granted note →
            IsBest rank types.now queue.old.units note.id }
        ensures ask { (s : Server) → result ≡ ReserveStep.Ask s → IsOther self.old.config self.old.me s }
        ensures idle { (result ≡ ReserveStep.Idle) ↔
            ((¬ Any (IsOffered rank types.now) queue.old.units) × (self.old.config.servers ≡ 1)) }
    {
        match grant(queue, self.me, rank, types) {
            Some(note) => ReserveStep::Granted(note),
            None => {
                let wish = Wish {
                    rank,
                    request,
                    types: types.twin(),
                };
                let waits = Waiting::asking(wish, ToAsk::others(&self.config, self.me));
                let step = ReserveStep::of(waits.asked);
                self.park(waits);
                step
            }
        }
    }

    /// The best free unit that is permitted to the rank (`IsBest`) is pinned to it, and told. `None` exactly if no free
    /// unit is permitted to it (`IsOffered`); it does not wait then.
    pub fn try_reserve(&self, queue: &mut WorkQueue, rank: Rank, types: &Types) -> Option<UnitNote>
        requires { rank.0 < self.now.config.ranks }

        ensures note { result ≡ option_map (λ p. note_of self.now.me p.unit) (best_for queue.old rank types.now) }
        ensures best { IfSome result (λ note. IsBest rank types.now queue.old.units note.id) }
        ensures some { IsSome result ↔ Any (IsOffered rank types.now) queue.old.units }
        ensures queue { queue.new ≡ with_grant queue.old rank types.now }
    {
        grant(queue, self.me, rank, types)
    }

    /// The server that was asked for the rank had no unit. The best free unit here that is permitted to the rank is
    /// pinned to it, and told; the rank then waits no longer. If none is, the next server is to be asked, and after the
    /// last the rank is idle (`after_none`).
    pub fn remote_none(&mut self, queue: &mut WorkQueue, rank: Rank) -> ReserveStep
        requires { is_pending self.old rank ≡ true }

        ensures step { (e : Entry) → entry_of self.old rank ≡ Some e →
            result ≡ step_for self.old.me (best_for queue.old rank e.wish.types) e.to_ask }
        ensures parked { (e : Entry) → entry_of self.old rank ≡ Some e →
            self.new ≡ after_none self.old rank (best_for queue.old rank e.wish.types) }
        ensures queue { (e : Entry) → entry_of self.old rank ≡ Some e →
            queue.new ≡ with_grant queue.old rank e.wish.types }
        ensures ask { (s : Server) → result ≡ ReserveStep.Ask s → IsOther self.old.config self.old.me s }
    {
        let Some(place) = self.place_of(rank) else {
            unreachable!()
        };
        match grant(queue, self.me, rank, &self.at(place).wish.types) {
            Some(note) => {
                self.leave(rank);
                ReserveStep::Granted(note)
            }
            None => self.ask_next(place),
        }
    }

    /// The server that was asked for the rank has granted it a unit. The rank waits no longer.
    pub fn remote_grant(&mut self, rank: Rank)
        requires { is_pending self.old rank ≡ true }
        ensures { self.new ≡ gone self.old rank }
    {
        self.leave(rank);
    }

    /// The server that was asked for the rank has told that there is no more work. The rank waits no longer.
    pub fn remote_end(&mut self, rank: Rank)
        requires { is_pending self.old rank ≡ true }
        ensures { self.new ≡ gone self.old rank }
    {
        self.leave(rank);
    }
}
