//! What follows the report.

ghost use Rattle.std.specs.Prelude.{◌≡◌, ◌++◌, ℕ, List, OnOk};
ghost use Rattle.run_command.specs.Reports.{Reported};
ghost use Rattle.job_report.specs.declared.outcomes.Outcome.{Outcome};
ghost use Rattle.solve_report.specs.Told.{behind, ledger_behind, stats_behind};

use adlb_unit::{NoMemory, or_no_memory};
use job_report::Outcome;
use ledger_file::write_ledger;
use ledger_stats::append_stats;
use run_command::Report;
use std::alloc::Global;

/// What is written after the report of a run: bytes that follow from what is kept of it.
pub trait Tail {
    // These bytes, where this is kept.
    ghost tail: { Self → Reported Outcome → List ℕ };

    /// Appends them. Its only error is `NoMemory`.
    fn append(
        &self,
        alloc: Global,
        text: &mut Vec<u8>,
        report: &Report<Outcome>,
    ) -> Result<(), NoMemory>
        ensures { OnOk result (text.new.items ≡ text.old.items ++ tail self.now report.now) };
}

/// What is written of the kept ledger after the report.
#[derive(Clone, Copy)]
pub struct Extras {
    /// Its counts.
    pub stats: bool,
    /// Its text, after them.
    pub ledger: bool,
}

impl Tail for Extras {
    ghost tail = { λ extras r. behind extras r };

    fn append(
        &self,
        alloc: Global,
        text: &mut Vec<u8>,
        report: &Report<Outcome>,
    ) -> Result<(), NoMemory> {
        append_counts(alloc, text, self.stats, report)?;
        append_ledger(alloc, text, self.ledger, report)
    }
}

// Appends the counts of the ledger, if they are asked for.
fn append_counts(
    alloc: Global,
    text: &mut Vec<u8>,
    asked: bool,
    report: &Report<Outcome>,
) -> Result<(), NoMemory>
    ensures { OnOk result (text.new.items ≡ text.old.items ++ stats_behind asked report.now) }
{
    if !asked {
        return Ok(());
    }
    append_stats(alloc, text, &report.ledger, report.left.len() as u64)
}

// Appends the text of the ledger, if it is asked for.
fn append_ledger(
    alloc: Global,
    text: &mut Vec<u8>,
    asked: bool,
    report: &Report<Outcome>,
) -> Result<(), NoMemory>
    ensures { OnOk result (text.new.items ≡ text.old.items ++ ledger_behind asked report.now) }
{
    if !asked {
        return Ok(());
    }
    let ledger = write_ledger(alloc, &report.config, &report.ledger)?;
    or_no_memory(text.extend_from_slice(&ledger))
}
