//! A check begins.

ghost use Rattle.std.specs.Prelude.{◌≡◌, ◌<◌, true};
ghost use Rattle.adlb_unit.specs.Limits.{stamp_limit};
ghost use Rattle.exhaust_ring.specs.Expected.{AreParked};
ghost use Rattle.exhaust_ring.specs.Ring.{AreOfOne, MayStart, begun, with_ring};
ghost use Rattle.exhaust_ring.specs.Visits.{first_token, started};

use crate::keeping::Ring;
use crate::steps::RingStep;
use crate::visits::put_last;
use adlb_unit::{Rank, Token, Types, UnitId};

impl Ring {
    /// Server 0, which is quiet, starts the check that is wanted (`MayStart`): it takes its mark, and the ranks that
    /// wait there (`AreParked`) are the list. The token goes to the next server. If there is one server alone, the
    /// tests and the verdict follow at once, where `fits` is a free unit that fits one of these ranks, if any
    /// (`started`). Fewer than 2^48 checks were started.
    pub fn start(
        &mut self,
        activity: u64,
        parked: &[(Rank, Types)],
        fits: Option<UnitId>,
    ) -> RingStep
        requires may { MayStart self.old true }
        requires few { self.old.ring.check < stamp_limit }
        requires parked { AreParked self.old.config self.old.me parked.now }

        ensures step { result ≡ (started self.old activity parked.now fits).step }
        ensures ring { self.new ≡ (started self.old activity parked.now fits).ring }
        ensures own { AreOfOne self.old self.new }
    {
        let token = self.begin(activity, parked);
        if self.config.servers > 1 {
            return RingStep::Pass(token);
        }
        match self.visit2(token, true, activity, fits) {
            RingStep::Pass(token) => self.verdict(token),
            step => step,
        }
    }

    // One more check begins, with this token.
    fn begin(&mut self, activity: u64, parked: &[(Rank, Types)]) -> Token
        requires may { MayStart self.old true }
        requires few { self.old.ring.check < stamp_limit }
        requires parked { AreParked self.old.config self.old.me parked.now }

        ensures token { result ≡ first_token self.new parked.now }
        ensures ring { self.new ≡ with_ring self.old (begun self.old.ring activity) }
    {
        let Some(mut asked) = self.list.take() else {
            unreachable!()
        };
        put_last(&mut asked, parked);
        self.check += 1;
        self.runs = true;
        self.wanted = false;
        self.number = self.check;
        self.mark = activity;
        self.tested = false;
        Token {
            check: self.check,
            wave: 1,
            asked,
        }
    }
}
