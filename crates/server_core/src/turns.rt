//! What becomes of the ranks that wait here, and of wishes. A rank waits, waits no longer or is looked at again; if
//! it gets a unit, the unit is pinned to it. Nothing of this is said here.

ghost use Rattle.std.specs.Prelude.{◌≡◌, Some, find, true, false};
ghost use Rattle.std.specs.Option.{option_map};
ghost use Rattle.adlb_unit.specs.Ring.{others};
ghost use Rattle.work_queue.specs.Queue.{HasFree};
ghost use Rattle.work_queue.specs.declared.placing.Placed.{Placed};
ghost use Rattle.server_components.specs.Calls.{call_of, first_idle, granted, hints_next, is_idle_since, step_for, taker_of};
ghost use Rattle.server_components.specs.Grants.{best_for, note_of};
ghost use Rattle.server_components.specs.Parked.{IsAway, IsHere, IsOther, IsParked, entry_of, is_pending};
ghost use Rattle.server_components.specs.declared.waits.Waiting.{Waiting};
ghost use Rattle.server_core.specs.inside.{parked_of};
ghost use Rattle.server_core.specs.Waits.{asked, heard, looked, offered, over, released, sought, taken, unidle_first, unwished_next};
ghost use Rattle.server_law.specs.Finding.{is_free_as};
ghost use Rattle.server_law.specs.State.{Kept, ServerModel, is_waiting};

use crate::states::ServerState;
use adlb_unit::{End, Rank, Server, Target, Types, UnitId, UnitNote, WorkType};
use server_components::ReserveStep;

impl ServerState {
    // The end by which calls of ranks are answered by now, if there is one.
    pub(crate) fn over(&self) -> Option<End>
        ensures { result ≡ over self.now.kept }
    {
        if self.done {
            Some(End::NoMoreWork)
        } else if self.ring.is_exhausted() {
            Some(End::Exhausted)
        } else {
            None
        }
    }

    // The rank, which is at home here and does not wait, gets the best free unit, or waits.
    pub(crate) fn seek(&mut self, rank: Rank, request: u64, types: &Types) -> ReserveStep
        requires here { IsHere self.old.config self.old.me rank }
        requires new { is_waiting self.old.kept rank ≡ false }

        ensures step { result ≡
            step_for self.old.me (best_for self.old.kept.queue rank types.now) (others self.old.config self.old.me) }
        ensures made { self.new ≡ sought self.old (record { rank = rank; request = request; types = types.now }) }
        ensures ask { (to : Server) → result ≡ ReserveStep.Ask to → IsOther self.old.config self.old.me to }
    {
        self.parked.reserve(&mut self.queue, rank, request, types)
    }

    // The server that was asked for the rank has granted it a unit: the rank waits no longer.
    pub(crate) fn release_granted(&mut self, rank: Rank)
        requires { is_pending (parked_of self.old) rank ≡ true }
        ensures made { self.new ≡ released self.old rank }
        ensures sound { IsParked (parked_of self.old) }
    {
        self.parked.remote_grant(rank);
    }

    // The server that was asked for the rank had none, and the work is done: the rank waits no longer.
    pub(crate) fn release(&mut self, rank: Rank)
        requires { is_pending (parked_of self.old) rank ≡ true }
        ensures made { self.new ≡ released self.old rank }
        ensures sound { IsParked (parked_of self.old) }
    {
        self.parked.remote_end(rank);
    }

    // The server that was asked for the rank had no unit: the rank gets the best free unit here, or goes on waiting.
    pub(crate) fn look_again(&mut self, rank: Rank) -> ReserveStep
        requires { is_pending (parked_of self.old) rank ≡ true }

        ensures step { (e : Waiting) → entry_of (parked_of self.old) rank ≡ Some e →
            result ≡ step_for self.old.me (best_for self.old.kept.queue rank e.wish.types) e.to_ask }
        ensures made { (e : Waiting) → entry_of (parked_of self.old) rank ≡ Some e →
            self.new ≡ looked self.old rank e.wish.types }
        ensures ask { (to : Server) → result ≡ ReserveStep.Ask to → IsOther self.old.config self.old.me to }
        ensures sound { IsParked (parked_of self.old) }
    {
        self.parked.remote_none(&mut self.queue, rank)
    }

    // Another server has a unit for the rank by now: whether the rank is idle since this request, so that it is asked at once.
    pub(crate) fn hear_of(&mut self, rank: Rank, request: u64, from: Server) -> bool
        requires here { IsHere self.old.config self.old.me rank }
        requires other { IsOther self.old.config self.old.me from }

        ensures idle { result ≡ is_idle_since (parked_of self.old) rank request }
        ensures made { self.new ≡ heard self.old rank request from }
        ensures sound { IsParked (parked_of self.old) }
    {
        self.parked.hint(rank, request, from).is_some()
    }

    // The home of the rank asks for it: the rank gets the best free unit. Without one, or if the problem is done, its
    // wish is kept.
    pub(crate) fn pin_for(&mut self, rank: Rank, request: u64, types: &Types) -> Option<UnitNote>
        requires { IsAway self.old.config self.old.me rank }

        ensures note { result ≡ option_map (λ p. note_of self.old.me p.unit)
            (offered self.old.kept (record { rank = rank; request = request; types = types.now })) }
        ensures made { self.new ≡ asked self.old (record { rank = rank; request = request; types = types.now }) }
    {
        if self.done {
            self.parked.refuse_ask(rank, request, types);
            return None;
        }
        self.parked
            .remote_ask(&mut self.queue, rank, request, types)
    }

    // The next wish that a unit of this type and target takes off, if there is one, is kept no longer.
    pub(crate) fn forget(&mut self, kind: WorkType, target: Target) -> Option<(Rank, u64)>
        ensures wish { result ≡ option_map call_of (hints_next kind target self.old.kept.parked.wishes) }
        ensures made { self.new ≡ unwished_next kind target self.old }
        ensures sound { IsParked (parked_of self.old) }
    {
        self.parked.next_hint(kind, target)
    }

    // The first idle rank, if there is one, waits no longer.
    pub(crate) fn release_idle(&mut self) -> Option<(Rank, u64)>
        ensures idle { result ≡ option_map (λ e. call_of e.wish) (first_idle (parked_of self.old)) }
        ensures made { self.new ≡ unidle_first self.old }
        ensures sound { IsParked (parked_of self.old) }
    {
        self.parked.end_idle()
    }

    // The free unit of this id goes to the idle rank that takes it, if one does.
    pub(crate) fn offer(&mut self, id: UnitId) -> Option<(Rank, u64, UnitNote)>
        requires { HasFree id self.old.kept.queue.units }

        ensures given { (p : Placed) → find (is_free_as id) self.old.kept.queue.units ≡ Some p →
            result ≡ option_map (granted self.old.me p.unit) (taker_of p.unit (parked_of self.old)) }
        ensures made { (p : Placed) → find (is_free_as id) self.old.kept.queue.units ≡ Some p →
            self.new ≡ taken self.old p }
        ensures sound { IsParked (parked_of self.old) }
    {
        self.parked.offer(&mut self.queue, id)
    }
}
