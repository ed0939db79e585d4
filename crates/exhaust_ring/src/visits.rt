//! The token comes to a server.

ghost use Rattle.std.specs.Prelude.{◌≡◌, ◌≤◌, ◌⊎◌, ◌++◌, ◌+◌, Some, length};
ghost use Rattle.adlb_unit.specs.Limits.{rank_limit};
ghost use Rattle.exhaust_ring.specs.Expected.{AreParked, HasComeBack, IsToJudge, IsToMark, IsToTest};
ghost use Rattle.exhaust_ring.specs.Ring.{AreOfOne};
ghost use Rattle.exhaust_ring.specs.Tests.{first_failing};
ghost use Rattle.exhaust_ring.specs.Visits.{judged, verdict_of, visited1, visited2};

use crate::keeping::Ring;
use crate::steps::RingStep;
use adlb_unit::{AskedList, Rank, Token, Types, UnitId, Why};

impl Ring {
    /// In wave 1 the token comes to a server other than 0 (`IsToMark`), which is quiet or not, has this activity, and at
    /// which these ranks wait (`AreParked`). The answer is `Fail` with `Busy` exactly if the server is not quiet.
    /// Otherwise the server takes its mark, and the token goes on with its ranks last on the list (`visited1`).
    pub fn visit1(
        &mut self,
        token: Token,
        quiet: bool,
        activity: u64,
        parked: &[(Rank, Types)],
    ) -> RingStep
        requires first { IsToMark self.old token }
        requires parked { AreParked self.old.config self.old.me parked.now }

        ensures step { result ≡ (visited1 self.old token quiet activity parked.now).step }
        ensures ring { self.new ≡ (visited1 self.old token quiet activity parked.now).ring }
        ensures own { AreOfOne self.old self.new }
    {
        if !quiet {
            return RingStep::Fail(token, Why::Busy);
        }
        self.number = token.check;
        self.mark = activity;
        self.tested = false;
        let mut token = token;
        put_last(&mut token.asked, parked);
        RingStep::Pass(token)
    }

    /// The token comes a second time: after wave 1 to server 0 (`HasComeBack`), or in wave 2 to another server
    /// (`IsToTest`). The server makes three tests, in this order: it is quiet, its activity is that of its mark, and
    /// no free unit there fits a rank of the list. `fits` is a unit that does, if any. If all pass, the token goes on
    /// in wave 2. Otherwise server 0 ends the check, and another server fails with the first test that does
    /// (`visited2`).
    pub fn visit2(
        &mut self,
        token: Token,
        quiet: bool,
        activity: u64,
        fits: Option<UnitId>,
    ) -> RingStep
        requires { HasComeBack self.old token ⊎ IsToTest self.old token }

        ensures step { result ≡ (visited2 self.old token quiet activity fits).step }
        ensures ring { self.new ≡ (visited2 self.old token quiet activity fits).ring }
        ensures own { AreOfOne self.old self.new }
    {
        match first_failing(quiet, self.mark, activity, fits) {
            None => {
                self.tested = true;
                RingStep::Pass(Token {
                    check: token.check,
                    wave: 2,
                    asked: token.asked,
                })
            }
            Some(why) => self.test_fails(token, why),
        }
    }

    // A test has failed here.
    fn test_fails(&mut self, token: Token, why: Why) -> RingStep
        ensures step { result ≡ (judged self.old token (Some why)).step }
        ensures ring { self.new ≡ (judged self.old token (Some why)).ring }
    {
        if self.me.0 == 0 {
            self.end(token);
            return RingStep::Ended;
        }
        self.tested = true;
        RingStep::Fail(token, why)
    }

    /// After wave 2 the token comes to server 0, whose own tests were passed (`IsToJudge`). The check ends with a
    /// verdict: `Shutdown` exactly if nobody is on the list, `Exhausted` exactly if somebody is and it was not found
    /// before, and otherwise `Ended` (`verdict_of`).
    pub fn verdict(&mut self, token: Token) -> RingStep
        requires { IsToJudge self.old token }

        ensures step { result ≡ (verdict_of self.old token).step }
        ensures ring { self.new ≡ (verdict_of self.old token).ring }
        ensures own { AreOfOne self.old self.new }
    {
        let nobody = token.asked.pairs().is_empty();
        self.end(token);
        if nobody {
            self.shut = true;
            return RingStep::Shutdown;
        }
        if self.exhausted {
            return RingStep::Ended;
        }
        self.exhausted = true;
        RingStep::Exhausted
    }
}

// The first test that fails.
pub(crate) fn first_failing(
    quiet: bool,
    mark: u64,
    activity: u64,
    fits: Option<UnitId>,
) -> Option<Why>
    ensures { result ≡ first_failing quiet mark activity fits }
{
    if !quiet {
        return Some(Why::Busy);
    }
    if activity != mark {
        return Some(Why::Changed {
            was: mark,
            now: activity,
        });
    }
    match fits {
        None => None,
        Some(id) => Some(Why::Fits { id }),
    }
}

// These ranks come last on the list.
pub(crate) fn put_last(list: &mut AskedList, parked: &[(Rank, Types)])
    requires { length list.old + length parked.now ≤ rank_limit }
    ensures { list.new ≡ list.old ++ parked.now }
{
    for (rank, types) in parked {
        list.push(*rank, types.twin());
    }
}
