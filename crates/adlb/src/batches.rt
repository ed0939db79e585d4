//! What a user says of work whose first units share bytes.

ghost use Rattle.std.specs.Prelude.{◌≡◌, ◌≤◌, ◌<◌, ◌+◌, ℕ, Bool, List, [], IfOk, OnOk, count_by, length, sum_by};
ghost use Rattle.adlb_unit.specs.Limits.{body_limit};
ghost use Rattle.adlb_unit.specs.Targets.{Aims};

use crate::pushed::Units;
use adlb_unit::{NoMemory, Payload, Target, WorkType};

/// A kind of work whose first units share bytes, their common part, which is kept once for all of them. Working a unit gives answers at
/// once, and may make further units, which have no common part: they are worked with no common bytes.
pub trait Batch {
    type Answer: Drop;

    // How many answers that pass a test a unit of these common and own bytes gives, with all that comes of it. It is
    // said for each test, so the answers are known but for their order.
    ghost worth: { Self → (Self.Answer → Bool) → List ℕ → List ℕ → ℕ };

    // How many such answers the first units give together.
    ghost whole: { Self → (Self.Answer → Bool) → ℕ };

    /// Adds the first units to `out`, which is empty, and gives their common bytes, at most `2^20`.
    fn first(&self, out: &mut Units) -> Result<Payload, NoMemory>
        requires none { out.old ≡ [] }
        ensures first { IfOk result (λ common. (test : Self.Answer → Bool) →
            sum_by (worth self.now test common) out.new ≡ whole self.now test) }
        ensures few { IfOk result (λ common. length common ≤ body_limit) };

    /// Works a unit, of at most `2^20` bytes: adds to `answers` those that it gives at once, and to `out` the units that come of it. The
    /// two are together worth what the unit is, for each test.
    fn work(
        &self,
        common: &[u8],
        unit: &[u8],
        out: &mut Units,
        answers: &mut Vec<Self::Answer>,
    ) -> Result<(), NoMemory>
        requires few { length unit.now ≤ body_limit }
        ensures work { OnOk result ((test : Self.Answer → Bool) →
            count_by test answers.new.items + sum_by (worth self.now test []) out.new ≡
            count_by test answers.old.items + worth self.now test common.now unit.now + sum_by (worth self.now test []) out.old) };

    /// Of which type a unit is put.
    fn kind(&self, unit: &[u8]) -> WorkType {
        WorkType(0)
    }

    /// How urgent a unit is: of the units that wait at a server, the one with the highest number is granted first.
    fn priority(&self, unit: &[u8]) -> i32 {
        0
    }

    /// For which rank a unit is, of this number of ranks.
    fn target(&self, unit: &[u8], ranks: u32) -> Target
        requires some { 0 < ranks }
        ensures aims { Aims result ranks }
    {
        Target::Any
    }
}
