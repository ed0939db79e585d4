//! What a user says of work whose result is a number.

ghost use Rattle.std.specs.Prelude.{◌≡◌, ◌≤◌, ◌<◌, ◌+◌, ℕ, List, IfOk, OnOk, length, sum_by};
ghost use Rattle.adlb_unit.specs.Limits.{body_limit};
ghost use Rattle.adlb_unit.specs.Targets.{Aims};

use crate::pushed::Units;
use adlb_unit::{NoMemory, Target, WorkType};

/// A kind of work. A unit is bytes, in the user's own form. Working a unit counts something at once, and may make further units.
pub trait Work {
    // What a unit is worth: what it counts for, with all that comes of it.
    ghost worth: { Self → List ℕ → ℕ };

    // What the first units are worth together.
    ghost whole: { Self → ℕ };

    /// Adds the first units to `out`.
    fn first(&self, out: &mut Units) -> Result<(), NoMemory>
        ensures first { OnOk result (sum_by (worth self.now) out.new ≡ whole self.now + sum_by (worth self.now) out.old) };

    /// Works a unit, of at most `2^20` bytes: gives what it counts at once, and adds to `out` the units that come of it. The two
    /// are together worth what the unit is.
    fn work(&self, unit: &[u8], out: &mut Units) -> Result<u64, NoMemory>
        requires few { length unit.now ≤ body_limit }
        ensures work { IfOk result (λ n. n + sum_by (worth self.now) out.new ≡
            worth self.now unit.now + sum_by (worth self.now) out.old) };

    /// Of which type a unit is put.
    fn kind(&self, unit: &[u8]) -> WorkType {
        WorkType(0)
    }

    /// How urgent a unit is: of the units that wait at a server, the one with the highest number is granted first.
    fn priority(&self, unit: &[u8]) -> i32 {
        0
    }

    /// For which rank a unit is, of this number of ranks.
    fn target(&self, unit: &[u8], ranks: u32) -> Target
        requires some { 0 < ranks }
        ensures aims { Aims result ranks }
    {
        Target::Any
    }
}
