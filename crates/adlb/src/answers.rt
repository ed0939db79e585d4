//! What a user says of work whose result is a list of answers.

ghost use Rattle.std.specs.Prelude.{◌≡◌, ◌≤◌, ◌<◌, ◌+◌, ℕ, Bool, List, OnOk, count_by, length, sum_by};
ghost use Rattle.adlb_unit.specs.Limits.{body_limit};
ghost use Rattle.adlb_unit.specs.Targets.{Aims};

use crate::pushed::Units;
use adlb_unit::{NoMemory, Target, WorkType};

/// A kind of work whose units give answers. A unit is bytes, in the user's own form. Working a unit gives answers at once, and may make
/// further units.
pub trait Answers {
    type Answer: Drop;

    // How many answers that pass a test a unit gives, with all that comes of it: for each test, so the answers are
    // known but for their order.
    ghost worth: { Self → (Self.Answer → Bool) → List ℕ → ℕ };

    // How many such answers the first units give together.
    ghost whole: { Self → (Self.Answer → Bool) → ℕ };

    /// Adds the first units to `out`.
    fn first(&self, out: &mut Units) -> Result<(), NoMemory>
        ensures first { OnOk result ((test : Self.Answer → Bool) →
            sum_by (worth self.now test) out.new ≡ whole self.now test + sum_by (worth self.now test) out.old) };

    /// Works a unit, of at most `2^20` bytes: adds to `answers` those that it gives at once, and to `out` the units that come of it. The
    /// two are together worth what the unit is, for each test.
    fn work(
        &self,
        unit: &[u8],
        out: &mut Units,
        answers: &mut Vec<Self::Answer>,
    ) -> Result<(), NoMemory>
        requires few { length unit.now ≤ body_limit }
        ensures work { OnOk result ((test : Self.Answer → Bool) →
            count_by test answers.new.items + sum_by (worth self.now test) out.new ≡
            count_by test answers.old.items + worth self.now test unit.now + sum_by (worth self.now test) out.old) };

    /// Of which type a unit is put.
    fn kind(&self, unit: &[u8]) -> WorkType {
        WorkType(0)
    }

    /// How urgent a unit is: of the units that wait at a server, the one with the highest number is granted first.
    fn priority(&self, unit: &[u8]) -> i32 {
        0
    }

    /// For which rank a unit is, of this number of ranks.
    fn target(&self, unit: &[u8], ranks: u32) -> Target
        requires some { 0 < ranks }
        ensures aims { Aims result ranks }
    {
        Target::Any
    }
}
