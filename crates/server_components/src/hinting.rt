//! Wishes of ranks that wait elsewhere, and hints.

ghost use Rattle.std.specs.Prelude.{◌≡◌, ◌↔◌, Any, IfSome, IsSome, Some, None, if◌then◌else◌};
ghost use Rattle.std.specs.Option.{option_map};
ghost use Rattle.work_queue.specs.Best.{IsBest, IsOffered};
ghost use Rattle.server_components.specs.Calls.{after_ask, call_of, forgotten_if, hinted, hints_next, is_idle_since, wished};
ghost use Rattle.server_components.specs.Grants.{best_for, note_of, with_grant};
ghost use Rattle.server_components.specs.Parked.{IsAway, IsHere, IsOther};

use crate::granting::grant;
use crate::parking::Parked;
use crate::wishes::{Wish, hints_next};
use adlb_unit::{Rank, Server, Target, Types, UnitNote, WorkType};
use work_queue::WorkQueue;

impl Parked {
    /// The home of the rank, another server, asks for a unit of these types. The best free unit that is permitted to
    /// the rank (`IsBest`) is pinned to it, and told; the rank's wish, if it had one, is gone. `None` exactly if no
    /// free unit is permitted to it (`IsOffered`): its wish is then this one, the last of all (`after_ask`).
    pub fn remote_ask(
        &mut self,
        queue: &mut WorkQueue,
        rank: Rank,
        request: u64,
        types: &Types,
    ) -> Option<UnitNote>
        requires { IsAway self.old.config self.old.me rank }

        ensures note { result ≡ option_map (λ p. note_of self.old.me p.unit) (best_for queue.old rank types.now) }
        ensures best { IfSome result (λ note. IsBest rank types.now queue.old.units note.id) }
        ensures some { IsSome result ↔ Any (IsOffered rank types.now) queue.old.units }
        ensures parked { self.new ≡
            after_ask self.old (record { rank = rank; request = request; types = types.now })
            (best_for queue.old rank types.now) }
        ensures queue { queue.new ≡ with_grant queue.old rank types.now }
    {
        match grant(queue, self.me, rank, types) {
            Some(note) => {
                self.forget(rank);
                Some(note)
            }
            None => {
                self.refuse_ask(rank, request, types);
                None
            }
        }
    }

    /// The home of the rank, another server, asks for a unit of these types, and gets none, whatever is free here. The
    /// rank's wish is this one, the last of all (`wished`).
    pub fn refuse_ask(&mut self, rank: Rank, request: u64, types: &Types)
        requires { IsAway self.old.config self.old.me rank }
        ensures { self.new ≡ wished self.old (record { rank = rank; request = request; types = types.now }) }
    {
        self.keep(Wish {
            rank,
            request,
            types: types.twin(),
        });
    }

    /// Another server had no unit for the rank, which is at home here, in its call of this number, and has one now
    /// (`hinted`). If the rank waits since that call, the server is among those that are still to be asked. If the
    /// rank is idle too, the server is the answer: it is asked at once. If it does not wait since that call, nothing
    /// changes.
    pub fn hint(&mut self, rank: Rank, request: u64, from: Server) -> Option<Server>
        requires here { IsHere self.old.config self.old.me rank }
        requires other { IsOther self.old.config self.old.me from }

        ensures ask { result ≡ (if is_idle_since self.old rank request then Some from else None) }
        ensures parked { self.new ≡ hinted self.old rank request from }
    {
        match self.place_since(rank, request) {
            Some(place) => self.hear_of(place, from),
            None => None,
        }
    }

    /// A free unit of this type and target is here, which no rank that waits here takes. The next wish to which it is
    /// permitted is taken off (`hints_next`), first that of the rank which the target names before others. The answer
    /// is the rank and its request, of which its home is to be told; `None` exactly if there is no such wish.
    pub fn next_hint(&mut self, kind: WorkType, target: Target) -> Option<(Rank, u64)>
        ensures wish { result ≡ option_map call_of (hints_next kind target self.old.parked.wishes) }
        ensures parked { self.new ≡ forgotten_if self.old (hints_next kind target self.old.parked.wishes) }
    {
        match hints_next(&self.wishes, kind, target) {
            None => None,
            Some(wish) => {
                let (rank, request) = (wish.rank, wish.request);
                self.forget(rank);
                Some((rank, request))
            }
        }
    }
}
