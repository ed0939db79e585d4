//! What the definitions of the ring come to.

ghost use Rattle.std.specs.Prelude.{◌≡◌, ◌≢◌, ◌↔◌, ℕ, Bool, false, true, IsTrue, List, Option, None, Some};
ghost use Rattle.adlb_unit.specs.declared.messages.Why.{Why};
ghost use Rattle.adlb_unit.specs.declared.names.Server.{Server};
ghost use Rattle.adlb_unit.specs.declared.names.UnitId.{UnitId};
ghost use Rattle.adlb_unit.specs.declared.tokens.Token.{Token};
ghost use Rattle.exhaust_ring.specs.Expected.{Expects, expects};
ghost use Rattle.exhaust_ring.specs.Ring.{Asker, RingModel, may_start, token};
ghost use Rattle.exhaust_ring.specs.Tests.{IsReason, first_failing, passes};
ghost use Rattle.exhaust_ring.specs.Visits.{is_verdict, visited1, visited2};
ghost use Rattle.exhaust_ring.specs.declared.steps.RingStep.TheVariants.{Pass, Fail, Ended};

/// A token is expected exactly if one of the rows holds (`Expects`). What fails is the first test that does
/// (`IsReason`), and none does exactly if all pass. A token that goes on after the tests has passed all of them, and
/// goes on with its list in wave 2. A test that fails ends the check at server 0, and is told to server 0 elsewhere. No
/// visit but that of the verdict gives one. While a check runs, none starts.
pub fn ring_laws()
    ensures row { (m : RingModel) (from : Server) (t : Token) → IsTrue (expects m from t) ↔ Expects m from t }
    ensures reason { (quiet : Bool) (mark activity : ℕ) (fits : Option UnitId) (why : Why) →
        (first_failing quiet mark activity fits ≡ Some why) ↔ IsReason quiet mark activity fits why }
    ensures none { (quiet : Bool) (mark activity : ℕ) (fits : Option UnitId) →
        (first_failing quiet mark activity fits ≡ None) ↔ IsTrue (passes quiet mark activity fits) }
    ensures goes_on { (m : RingModel) (t u : Token) (quiet : Bool) (activity : ℕ) (fits : Option UnitId) →
        ((visited2 m t quiet activity fits).step ≡ Pass u) ↔
        (IsTrue (passes quiet m.ring.mark activity fits) × (u ≡ token t.check 2 t.asked)) }
    ensures ends { (m : RingModel) (t : Token) (quiet : Bool) (activity : ℕ) (fits : Option UnitId) (why : Why) →
        m.me.0 ≡ 0 → first_failing quiet m.ring.mark activity fits ≡ Some why →
        ((visited2 m t quiet activity fits).step ≡ Ended) × ((visited2 m t quiet activity fits).ring.ring.runs ≡ false) }
    ensures fails { (m : RingModel) (t : Token) (quiet : Bool) (activity : ℕ) (fits : Option UnitId) (why : Why) →
        m.me.0 ≢ 0 → first_failing quiet m.ring.mark activity fits ≡ Some why →
        (visited2 m t quiet activity fits).step ≡ Fail t why }
    ensures first_wave { (m : RingModel) (t : Token) (quiet : Bool) (activity : ℕ) (parked : List Asker) →
        is_verdict (visited1 m t quiet activity parked).step ≡ false }
    ensures second_wave { (m : RingModel) (t : Token) (quiet : Bool) (activity : ℕ) (fits : Option UnitId) →
        is_verdict (visited2 m t quiet activity fits).step ≡ false }
    ensures one { (m : RingModel) (quiet : Bool) → m.ring.runs ≡ true → may_start m quiet ≡ false }
{}
