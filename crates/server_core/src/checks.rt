//! The letters Notice, Token, Failed, Exhaust and Shutdown. By checks that go round their ring, several servers find
//! that all work is used up, or that no rank waits or runs any more.

ghost use Rattle.std.specs.Prelude.{◌≡◌, ◌<◌, ◌+◌, ◌-◌, ◌∷◌, ◌⊎◌, [], ℕ, Some};
ghost use Rattle.adlb_unit.specs.Ring.{behind};
ghost use Rattle.adlb_unit.specs.declared.actors.Actor.TheVariants as by;
ghost use Rattle.adlb_unit.specs.declared.messages.Why.{Why};
ghost use Rattle.exhaust_ring.specs.Expected.{Expects, HasComeBack, IsRunning, IsToJudge, IsToMark, IsToTest};
ghost use Rattle.exhaust_ring.specs.declared.steps.RingStep.{RingStep};
ghost use Rattle.server_core.specs.Checks.{said, step_letters, stepped, verdict};
ghost use Rattle.server_core.specs.Out.{HasRoom, Out, going_on, made, planned, with_letter};
ghost use Rattle.server_law.specs.Acts.{Act, Hears_failed, Hears_shutdown, Wants, to_others, to_server};
ghost use Rattle.server_law.specs.Carried.{counted, done, posted};
ghost use Rattle.server_law.specs.Checks.{exhaust_rule, marks, tests_now, token_rule, verdict as verdict_plan};
ghost use Rattle.server_law.specs.Endings.{is_quiet};
ghost use Rattle.server_law.specs.Plan.{Plan};
ghost use Rattle.server_law.specs.State.{Kept, ServerModel, ring_at};

use crate::outgoing::Outgoing;
use crate::states::ServerState;
use adlb_unit::{Actor, End, Message, Rank, Server, Token, Types};
use bag_ledger::Entry;
use exhaust_ring::RingStep;

impl ServerState {
    // A check is wanted.
    pub(crate) fn hear_notice(&mut self)
        ensures { (from : Server) → self.new ≡ done (Wants from) self.old }
    {
        self.ring.notice();
    }

    // The token comes from the server before: after the first wave and in it, and in the second and after it.
    pub(crate) fn hear_token(&mut self, token: Token, out: &mut Outgoing)
        requires awaited { (from : Server) × Expects (ring_at self.old) from token }
        requires room { HasRoom self.old out.old 9 }

        ensures made { (from : Server) (p : Plan) → token_rule self.old from token ≡ Some p →
            made self.new out.new ≡ planned out.old p self.old }
        ensures room { HasRoom self.new out.new 1 }
    {
        if self.me.0 == 0 {
            if token.wave == 1 {
                self.test(token, out)
            } else {
                self.judge(token, out)
            }
        } else if token.wave == 1 {
            self.mark(token, out)
        } else {
            self.test(token, out)
        }
    }

    // In the first wave, at another server than server 0: if it is quiet it takes its mark, and the token goes on with the
    // ranks that wait here.
    fn mark(&mut self, token: Token, out: &mut Outgoing)
        requires first { IsToMark (ring_at self.old) token }
        requires room { HasRoom self.old out.old 9 }

        ensures made { (from : Server) →
            made self.new out.new ≡ going_on out.old (marks (is_quiet self.old) from token ∷ []) self.old }
        ensures room { HasRoom self.new out.new 1 }
    {
        let quiet = self.is_quiet();
        let mut room = std::array::from_fn(|_| (Rank(0), Types::any()));
        let count = self.put_askers(&mut room);
        let step = self
            .ring
            .visit1(token, quiet, self.activity, &room[..count]);
        self.tell_step(step, out);
    }

    // The tests, at server 0 after the first wave, and at the others in the second.
    fn test(&mut self, token: Token, out: &mut Outgoing)
        requires again { HasComeBack (ring_at self.old) token ⊎ IsToTest (ring_at self.old) token }
        requires room { HasRoom self.old out.old 9 }

        ensures made { (from : Server) →
            made self.new out.new ≡ going_on out.old (tests_now self.old from token ∷ []) self.old }
        ensures room { HasRoom self.new out.new 1 }
    {
        let quiet = self.is_quiet();
        let fits = self.queue.fits(token.asked.pairs());
        let step = self.ring.visit2(token, quiet, self.activity, fits);
        self.tell_step(step, out);
    }

    // The verdict, at server 0 after the second wave.
    fn judge(&mut self, token: Token, out: &mut Outgoing)
        requires last { IsToJudge (ring_at self.old) token }
        requires room { HasRoom self.old out.old 9 }

        ensures made { (from : Server) (p : Plan) → verdict_plan self.old.kept.exhausted token.asked from token ≡ Some p →
            made self.new out.new ≡ planned out.old p self.old }
        ensures room { HasRoom self.new out.new 1 }
    {
        let step = self.ring.verdict(token);
        self.tell_step(step, out);
    }

    // What becomes of a check is said. The token goes on, or to server 0 with the test that failed, or a verdict goes
    // to each other server. If all work is used up, that is entered, and all idle ranks are told.
    pub(crate) fn tell_step(&mut self, step: RingStep, out: &mut Outgoing)
        requires { HasRoom self.old out.old (step_letters step self.old) }
        ensures made { made self.new out.new ≡ stepped step out.old self.old }
        ensures room { (more : ℕ) → HasRoom self.old out.old (step_letters step self.old + more) → HasRoom self.new out.new more }
    {
        match step {
            RingStep::Pass(token) => {
                let next = self.config.next(self.me);
                self.say(Actor::Server(next), Message::Token { token }, out)
            }
            RingStep::Fail(token, why) => {
                let failed = Message::Failed { token, why };
                self.say(Actor::Server(Server(0)), failed, out)
            }
            RingStep::Exhausted => {
                out.enter(Entry::Exhausted);
                self.tell_others(false, out);
                self.tell_all(End::Exhausted, out)
            }
            RingStep::Shutdown => self.tell_others(true, out),
            RingStep::Ended => {}
        }
    }

    // Each other server is told the verdict, from the one after this one on.
    fn tell_others(&mut self, shut: bool, out: &mut Outgoing)
        requires { HasRoom self.old out.old (self.old.config.servers - 1) }
        ensures told { made self.new out.new ≡ said out.old (to_others self.old (verdict shut)) self.old }
        ensures room { (more : ℕ) → HasRoom self.old out.old (self.old.config.servers - 1 + more) → HasRoom self.new out.new more }
    {
        for places in 1..self.config.servers {
            self.tell_behind(places, shut, out);
        }
    }

    // The server `places` after this one in the ring is told the verdict.
    fn tell_behind(&mut self, places: u32, shut: bool, out: &mut Outgoing)
        requires places { places < self.old.config.servers }
        requires room { HasRoom self.old out.old 1 }

        ensures counted { self.new ≡ counted self.old (by.Server (behind self.old.config self.old.me places)) }
        ensures told { out.new ≡ with_letter out.old
            (posted self.old (to_server (behind self.old.config self.old.me places) (verdict shut))) }
        ensures room { (more : ℕ) → HasRoom self.old out.old (more + 1) → HasRoom self.new out.new more }
    {
        let to = Server((self.me.0 + places) % self.config.servers);
        let verdict = if shut {
            Message::Shutdown
        } else {
            Message::Exhaust
        };
        self.say(Actor::Server(to), verdict, out);
    }

    // A test failed elsewhere in the check that runs, which ends.
    pub(crate) fn hear_failed(&mut self, token: Token)
        requires { IsRunning (ring_at self.old) token }
        ensures { (from : Server) (why : Why) → self.new ≡ done (Hears_failed from token why) self.old }
    {
        self.ring.failed(token);
    }

    // Server 0 has found that all work is used up: all who are idle are told.
    pub(crate) fn hear_exhaust(&mut self, out: &mut Outgoing)
        requires { HasRoom self.old out.old 3 }
        ensures made { (from : Server) (p : Plan) → exhaust_rule self.old from ≡ Some p →
            made self.new out.new ≡ planned out.old p self.old }
        ensures room { HasRoom self.new out.new 1 }
    {
        self.ring.hear_exhaust();
        self.tell_all(End::Exhausted, out);
    }

    // Server 0 has found that no rank waits or runs any more.
    pub(crate) fn hear_shutdown(&mut self)
        ensures { (from : Server) → self.new ≡ done (Hears_shutdown from) self.old }
    {
        self.ring.hear_shutdown();
    }
}
