//! The programs of ranks.

ghost use Rattle.std.specs.Prelude.{◌≡◌, ◌<◌, ℕ, List, [], Option, Some, None, Err, false, IfOk};
ghost use Rattle.adlb_unit.specs.declared.names.Rank.{Rank};
ghost use Rattle.bag_ledger.specs.declared.entries.Call.{Call};
ghost use Rattle.bag_ledger.specs.declared.entries.Said.{Said};
ghost use Rattle.rank_client.specs.Calls.{has_finished, unanswered};

use crate::links::Adlb;
use adlb_unit::{Rank, Trouble};

/// What a rank does in a run: it makes calls, and has an outcome at the end. What a program claims of them is in three members. Each has
/// a default that always holds, so a program that claims nothing leaves them out.
pub trait RankProgram {
    type Outcome;

    // The program fits this number of ranks.
    ghost fits: { Self → ℕ → Type 0 } = { λ p ranks. Unit {0} };

    // What the transcript of this rank can be while the program runs, and which call it can have begun after it that is not
    // answered, if there is one.
    ghost so_far: { Self → Rank → List Said → Option Call → Type 0 } = { λ p rank said begun. Unit {0} };

    // What the transcript of this rank can be at this outcome.
    ghost follows: { Self → Rank → List Said → Self.Outcome → Type 0 } = { λ p rank said outcome. Unit {0} };

    /// Makes the calls of this rank, which has made none before. At `Ok` the transcript follows the program at its outcome, and at
    /// `Ok` and at `Err` it is as it can be while the program runs. Whoever runs it ends the batch that is going on at an `Err`, if
    /// one is, and finishes the link.
    fn run<A: Adlb>(&self, rank: Rank, link: &mut A) -> Result<Self::Outcome, Trouble>
        requires rank { rank.0 < (A.link link.old).seat.ranks }
        requires fits { fits self.now (A.link link.old).seat.ranks }
        requires empty { (A.link link.old).said ≡ [] }
        requires running { has_finished (A.link link.old).said ≡ false }
        requires batch { (A.link link.old).batch ≡ false }
        requires whole { (A.link link.old).failed ≡ None }
        ensures follows { IfOk result (λ outcome. follows self.now rank (A.link link.new).said outcome) }
        ensures so_far { so_far self.now rank (A.link link.new).said (unanswered (A.link link.new).failed (A.link link.new).begun) }
        ensures closed { IfOk result (λ outcome. (A.link link.new).batch ≡ false) }
        ensures seat { (A.link link.new).seat ≡ (A.link link.old).seat }
        ensures open { has_finished (A.link link.new).said ≡ false }
        ensures too_long { (stamp : ℕ) → result ≡ Err (Trouble.TooLong stamp) → (A.link link.new).failed ≡ Some (Trouble.TooLong stamp) };
}
