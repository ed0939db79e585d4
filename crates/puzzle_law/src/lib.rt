//! How the report follows from the ledger of a run of puzzle programs.
//!
//! It speaks of definitions alone and has no code. `specs/Joined.antt` says what a run of puzzle programs is.
#![tactic(auto)]

ghost use Rattle.std.specs.Prelude.{◌≡◌, ◌<◌, true, List, All};
ghost use Rattle.adlb_unit.specs.declared.configs.Config.{Config};
ghost use Rattle.bag_ledger.specs.declared.entries.Entry.{Entry};
ghost use Rattle.bag_ledger.specs.declared.states.UnitPlace.TheVariants.{Spent};
ghost use Rattle.bag_ledger.specs.Bag.{Bag, start};
ghost use Rattle.bag_ledger.specs.Runs.{IsRun};
ghost use Rattle.job_text.specs.declared.jobs.Job.{Job};
ghost use Rattle.job_report.specs.declared.outcomes.Outcome.{Outcome};
ghost use Rattle.puzzle_app.specs.declared.outcomes.Settings.{Settings};
ghost use Rattle.job_report.specs.Jobs.{puzzles};
ghost use Rattle.job_report.specs.Whole.{AreWhole};
ghost use Rattle.puzzle_law.specs.Joined.{IsPuzzleRun};
ghost use Rattle.sudoku_rules.specs.Sides.{IsSudoku};

use balance_law::balance_laws;

/// The joining of ledger, programs and report, for every configuration. In a legal run in which each rank ran its puzzle
/// program and then finished, the outcomes together hold exactly what the jobs are to give (`whole`). Each accepted unit
/// was fetched, so no unit is left (`spent`). The common part of each batch was freed (`freed`).
pub fn joining_laws()
    ensures whole { (config : Config) (ledger : List Entry) (last : Bag) (settings : Settings) (jobs : List Job)
        (outcomes : List Outcome) →
        0 < config.ranks → IsRun (start config) ledger last → All IsSudoku (puzzles jobs) →
        IsPuzzleRun config ledger settings jobs outcomes → AreWhole settings.budget settings.grain jobs outcomes }
    ensures spent { (config : Config) (ledger : List Entry) (last : Bag) (settings : Settings) (jobs : List Job)
        (outcomes : List Outcome) →
        0 < config.ranks → IsRun (start config) ledger last → IsPuzzleRun config ledger settings jobs outcomes →
        All (λ u. u.place ≡ Spent) last.units }
    ensures freed { (config : Config) (ledger : List Entry) (last : Bag) (settings : Settings) (jobs : List Job)
        (outcomes : List Outcome) →
        0 < config.ranks → IsRun (start config) ledger last → IsPuzzleRun config ledger settings jobs outcomes →
        All (λ p. (p.closed ≡ true) × (p.freed ≡ true)) last.parts }
{
    balance_laws();
}
