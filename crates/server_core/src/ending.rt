//! What follows each event: a quiet server that has changed gives notice, and a check is started where one is wanted. And how
//! an end is told to the ranks that wait.

ghost use Rattle.std.specs.Prelude.{◌≡◌, ◌<◌, [], ◌↔◌, ℕ, IsTrue, is_some, length, true, false};
ghost use Rattle.exhaust_ring.specs.Ring.{MayStart};
ghost use Rattle.server_core.specs.Checks.{with_check};
ghost use Rattle.server_core.specs.Out.{HasRoom, Out, going_on, made};
ghost use Rattle.server_core.specs.Quiet.{all_rest};
ghost use Rattle.server_law.specs.Acts.{check_alone, fit_among};
ghost use Rattle.server_law.specs.Endings.{checks, ends_event, is_noted, is_quiet, notices, rests, tells_all};
ghost use Rattle.server_law.specs.Expected.{IsQuiet};
ghost use Rattle.server_law.specs.Plan.{decided};
ghost use Rattle.server_law.specs.State.{Kept, ServerModel, ring_at};

use crate::outgoing::Outgoing;
use crate::states::ServerState;
use adlb_unit::{Actor, End, Message, Rank, Server, Types, UnitId};
use exhaust_ring::RingStep;

impl ServerState {
    /// No push of this server stands, and each rank whose home this is has finished, or waits here and is idle (`IsQuiet`,
    /// and as a test `is_quiet`).
    pub fn is_quiet(&self) -> bool
        ensures quiet { IsTrue result ↔ IsQuiet self.now }
        ensures test { result ≡ is_quiet self.now }
    {
        self.is_calm()
    }

    // No push of this server stands, and each rank of the run rests.
    fn is_calm(&self) -> bool
        ensures { result ≡ is_quiet self.now }
    {
        !self.is_pushing() && self.all_rest()
    }

    // A push of this server stands.
    fn is_pushing(&self) -> bool
        ensures { result ≡ is_some self.now.kept.pushing.push }
    {
        self.pushes.going()
    }

    // Each rank of the run rests, as far as the server knows.
    fn all_rest(&self) -> bool
        ensures { result ≡ all_rest self.now }
    {
        for number in 0..self.config.ranks {
            if !self.rests(Rank(number)) {
                return false;
            }
        }
        true
    }

    // The rank's home is elsewhere, or it has finished, or it waits and is idle.
    fn rests(&self, rank: Rank) -> bool
        requires { rank.0 < self.now.config.ranks }
        ensures { result ≡ rests self.now rank }
    {
        !self.is_home(rank) || self.finished[rank.0 as usize] || self.is_idle(rank)
    }

    // What follows each event.
    pub(crate) fn end_event(&mut self, out: &mut Outgoing)
        requires young { self.old.kept.ring.check < self.old.clock }
        requires room { HasRoom self.old out.old 1 }
        ensures { made self.new out.new ≡ going_on out.old (decided ends_event self.old) self.old }
    {
        let quiet = self.is_quiet();
        self.give_notice(quiet, out);
        self.check_if_wanted(quiet, out);
    }

    // A quiet server that has changed since its last notice gives notice that a check is wanted: it tells server 0, or is
    // server 0.
    fn give_notice(&mut self, quiet: bool, out: &mut Outgoing)
        requires quiet { quiet ≡ is_quiet self.old }
        requires room { HasRoom self.old out.old 1 }

        ensures made { made self.new out.new ≡ going_on out.old (notices self.old) self.old }
        ensures room { self.new.me.0 ≡ 0 → HasRoom self.new out.new 1 }
    {
        if !quiet || self.is_noted() {
            return;
        }
        self.noted = Some(self.activity);
        if self.me.0 == 0 {
            self.ring.notice();
        } else {
            self.say(Actor::Server(Server(0)), Message::Notice, out);
        }
    }

    // The last notice was of the activity of now.
    fn is_noted(&self) -> bool
        ensures { result ≡ is_noted self.now.kept.noted self.now.activity }
    {
        match self.noted {
            Some(noted) => noted == self.activity,
            None => false,
        }
    }

    // If a check is wanted and may start, it does, and if this server is alone its verdict follows at once.
    fn check_if_wanted(&mut self, quiet: bool, out: &mut Outgoing)
        requires quiet { quiet ≡ is_quiet self.old }
        requires young { self.old.kept.ring.check < self.old.clock }
        requires room { self.old.me.0 ≡ 0 → HasRoom self.old out.old 1 }

        ensures { made self.new out.new ≡ going_on out.old (checks self.old) self.old }
    {
        if self.ring.may_start(quiet) {
            let step = self.start_check();
            self.tell_step(step, out);
        }
    }

    // A check starts, with the ranks that wait here.
    fn start_check(&mut self) -> RingStep
        requires may { MayStart (ring_at self.old) true }
        requires young { self.old.kept.ring.check < self.old.clock }

        ensures step { result ≡ (check_alone self.old).step }
        ensures ring { self.new ≡ with_check self.old (check_alone self.old).ring }
    {
        let mut room = std::array::from_fn(|_| (Rank(0), Types::any()));
        let count = self.put_askers(&mut room);
        let asked = &room[..count];
        let fits = self.fits_alone(asked);
        self.ring.start(self.activity, asked, fits)
    }

    // The first free unit that fits a rank of the list, where this server is alone.
    fn fits_alone(&self, asked: &[(Rank, Types)]) -> Option<UnitId>
        ensures { self.now.config.servers ≡ 1 → result ≡ fit_among self.now.kept asked.now }
    {
        if self.config.servers == 1 {
            self.queue.fits(asked)
        } else {
            None
        }
    }

    // All idle ranks are told the end, in the order in which they came.
    pub(crate) fn tell_all(&mut self, end: End, out: &mut Outgoing)
        requires { HasRoom self.old out.old 0 }
        ensures made { made self.new out.new ≡ going_on out.old (tells_all end [] self.old.kept.parked.waiting) self.old }
        ensures room { (more : ℕ) → HasRoom self.old out.old more → HasRoom self.new out.new more }
    {
        while self.tell_next(end, out) {}
    }

    // The first idle rank, if there is one, is told the end; the others are still to be told.
    fn tell_next(&mut self, end: End, out: &mut Outgoing) -> bool
        requires { HasRoom self.old out.old 0 }
        ensures told { going_on out.new (tells_all end [] self.new.kept.parked.waiting) self.new ≡
            going_on out.old (tells_all end [] self.old.kept.parked.waiting) self.old }
        ensures fewer { result ≡ true → length self.new.kept.parked.waiting < length self.old.kept.parked.waiting }
        ensures last { result ≡ false → tells_all end [] self.new.kept.parked.waiting ≡ [] }
        ensures room { (more : ℕ) → HasRoom self.old out.old more → HasRoom self.new out.new more }
    {
        match self.release_idle() {
            Some((rank, request)) => {
                self.end_call(rank, request, end, out);
                true
            }
            None => false,
        }
    }
}
