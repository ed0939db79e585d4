//! What a run of ranks that work units conserves: what comes to all of them is what they were to put first and what their work makes.
//!
//! It speaks of definitions alone and has no code. `specs/Work.antt` says what a program of work is, `specs/Books.antt` which call a rank
//! makes next, and `specs/Together.antt` what holds of all ranks at the end.
#![tactic(auto)]

ghost use Rattle.std.specs.Prelude.{◌≡◌, ◌<◌, ◌++◌, Bool, List, count_by};
ghost use Rattle.adlb_unit.specs.declared.configs.Config.{Config};
ghost use Rattle.adlb_unit.specs.declared.names.Rank.{Rank};
ghost use Rattle.bag_ledger.specs.declared.entries.Entry.{Entry};
ghost use Rattle.bag_ledger.specs.Bag.{Bag, start};
ghost use Rattle.bag_ledger.specs.Runs.{IsRun};
ghost use Rattle.balance_law.specs.Balanced.{AreOrderly};
ghost use Rattle.work_law.specs.Books.{Task};
ghost use Rattle.work_law.specs.Together.{IsWorker, all_by, all_came, all_first};
ghost use Rattle.work_law.specs.Work.{Arrival, IsWork, Work};

use balance_law::balance_laws;

/// Of a legal run of ranks that work their tasks and then finish, for every kind of work. The ranks are orderly
/// (`orderly`). What came to all of them is, however it is counted, what they were to put first and what the work on
/// it makes (`together`).
pub fn work_laws<Made>()
    ensures orderly { (W : Work Made) → IsWork W → (config : Config) (ledger : List Entry) → 0 < config.ranks →
        (first : Rank → List (Task Made)) (came : Rank → List (Arrival Made)) →
        ((rank : Rank) → rank.0 < config.ranks → IsWorker W config ledger (first rank) rank (came rank)) → AreOrderly config ledger }
    ensures together { (W : Work Made) → IsWork W → (config : Config) (ledger : List Entry) (last : Bag) → 0 < config.ranks →
        IsRun (start config) ledger last → (first : Rank → List (Task Made)) (came : Rank → List (Arrival Made)) →
        ((rank : Rank) → rank.0 < config.ranks → IsWorker W config ledger (first rank) rank (came rank)) →
        (test : Arrival Made → Bool) → count_by test (all_came came config.ranks) ≡
        count_by test (all_first W first config.ranks ++ all_by W (all_came came config.ranks)) }
{
    balance_laws();
}
