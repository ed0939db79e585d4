//! What is kept of a run.

ghost use Rattle.std.specs.Prelude.{◌≡◌, true, false};
ghost use Rattle.adlb_threads.specs.Runs.{IsOneRun};

use adlb_threads::Report;
use std::marker::Model;

/// What is kept of a run: its report, and whether it ran in threads. One that did is one run of all actors (`one_run`).
#[derive(Drop)]
pub struct Kept<O> {
    report: Report<O>,
    threaded: bool,
}

impl<O> Model for Kept<O> {
    ghost use Rattle.std.specs.Prelude.{◌≡◌, true};
    ghost use Rattle.adlb_threads.specs.Runs.{IsOneRun};
    ghost use Rattle.run_command.specs.Kept.{Kept};

    ghost Value = { Kept O };

    ghost view = { λ k. record { report = k.report; threaded = k.threaded } };

    ghost invariant = { λ k. k.threaded ≡ true → IsOneRun k.report.config k.report };
}

impl<O> Kept<O> {
    /// What is kept of a run in line.
    pub(crate) fn inline(report: Report<O>) -> Kept<O>
        ensures report { result.report ≡ report }
        ensures threaded { result.threaded ≡ false }
    {
        Kept {
            report,
            threaded: false,
        }
    }

    /// What is kept of a run in threads. No other crate makes it.
    pub(crate) fn threaded(report: Report<O>) -> Kept<O>
        requires one { IsOneRun report.config report }
        ensures report { result.report ≡ report }
        ensures threaded { result.threaded ≡ true }
    {
        Kept {
            report,
            threaded: true,
        }
    }

    /// The report of the run.
    pub fn report(&self) -> &Report<O>
        ensures { result.now ≡ self.now.report }
    {
        &self.report
    }

    /// Whether it ran in threads.
    pub fn is_threaded(&self) -> bool
        ensures { result ≡ self.now.threaded }
    {
        self.threaded
    }

    /// What is kept of a run in threads is one run of all actors (`IsOneRun`).
    pub fn one_run(&self)
        ensures { self.now.threaded ≡ true → IsOneRun self.now.report.config self.now.report }
    {
        let _threaded = self.threaded;
    }
}
