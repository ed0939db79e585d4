//! How many calls the ranks of a run of puzzle programs begin.

ghost use Rattle.std.specs.Prelude.{◌≡◌, ◌≤◌, ◌++◌, List, Some, length};
ghost use Rattle.adlb_unit.specs.declared.configs.Config.{Config};
ghost use Rattle.bag_ledger.specs.declared.entries.Entry.{Entry};
ghost use Rattle.bag_ledger.specs.declared.entries.Said.{Said};
ghost use Rattle.bag_ledger.specs.Bag.{Bag, start};
ghost use Rattle.bag_ledger.specs.Runs.{IsRun, calls};
ghost use Rattle.cover_law.specs.Begun.{all_begun};
ghost use Rattle.job_text.specs.declared.jobs.Job.{Job};
ghost use Rattle.puzzle_app.specs.Follows.{IsSoFar};
ghost use Rattle.puzzle_app.specs.declared.outcomes.Settings.{Settings};
ghost use Rattle.puzzle_app.specs.declared.program.PuzzleProgram.{PuzzleProgram};
ghost use Rattle.spending_law.specs.Most.{most_calls};
ghost use Rattle.spending_law.specs.UnderWay.{AreUnderWay};

/// In a legal run of every configuration, finished or not, in which each rank runs its puzzle program. All ranks together have
/// begun at most `3 * U + 2 * B + 2 * R` calls, Finish among them: `U` units and `B` batches are made of the jobs, and there are
/// `R` ranks (`begun`, `most_calls`). Of a run of one rank the calls of its program that it has heard are no more either, whatever
/// the ledger tells beyond them (`heard`).
pub fn spending_laws()
    ensures begun { (config : Config) (ledger : List Entry) (last : Bag) (settings : Settings) (jobs : List Job) →
        IsRun (start config) ledger last → AreUnderWay config ledger last settings jobs →
        all_begun config ledger last ≤ most_calls settings.budget settings.grain config.ranks jobs }
    ensures heard { (config : Config) (ledger : List Entry) (last : Bag) (program : PuzzleProgram) (jobs : List Job) (said more : List Said) →
        IsRun (start config) ledger last → config.ranks ≡ 1 → program.jobs ≡ Some jobs → IsSoFar program said →
        calls config ledger (record { 0 = 0 }) ≡ said ++ more →
        length said ≤ most_calls program.settings.budget program.settings.grain 1 jobs }
{}
