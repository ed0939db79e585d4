//! What makes a report the report.

ghost use Rattle.std.specs.Prelude.{◌≡◌, ℕ, List};
ghost use Rattle.job_report.specs.Report.{IsReport};
ghost use Rattle.job_text.specs.declared.jobs.Job.{Job};

/// Jobs have one report: two texts that are a report of them (`IsReport`) are one. So a run that ends with status 0
/// tells what its input and its words determine, but for the counts and the ledger after the report.
pub fn one_report()
    ensures { (budget grain : ℕ) (jobs : List Job) (one other : List ℕ) →
        IsReport budget grain jobs one → IsReport budget grain jobs other → one ≡ other }
{}
