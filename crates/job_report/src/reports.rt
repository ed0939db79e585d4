//! The report of the jobs of an input.

ghost use Rattle.std.specs.Prelude.{◌<◌, ◌^◌, ℕ, IfOk};
ghost use Rattle.job_report.specs.Report.{IsReport};
ghost use Rattle.job_report.specs.Whole.{AreWhole, made_in};

use crate::answers::Answers;
use crate::batches::append_batch;
use crate::found::Found;
use crate::outcomes::Outcome;
use crate::puzzles::append_puzzle;
use crate::totals::append_totals;
use adlb_unit::NoMemory;
use job_text::{Job, Jobs};
use std::alloc::Global;

/// The report of the jobs, from the outcomes of all ranks. If these together hold what the jobs are to give (`AreWhole`),
/// it is their report (`IsReport`). Its condition, which `AreWhole` does not have, is that all together made fewer than
/// `2^128` units of each type, since the report has these sums. Its only error is `NoMemory`.
pub fn render(alloc: Global, jobs: &Jobs, outcomes: &[Outcome]) -> Result<Vec<u8>, NoMemory>
    requires room { (k : ℕ) → made_in k outcomes.now < 2 ^ 128 }
    ensures { (budget grain : ℕ) → AreWhole budget grain jobs.now outcomes.now →
        IfOk result (λ text. IsReport budget grain jobs.now text.items) }
{
    let found = Found::of(alloc, outcomes)?;
    let answers = Answers::of(alloc, outcomes)?;
    let mut text = Vec::new(alloc);
    let mut puzzle: u32 = 1;
    let mut batch: u32 = 1;
    let jobs = jobs.as_slice();
    for job in jobs {
        match job {
            Job::Puzzle(_) => {
                append_puzzle(alloc, &mut text, puzzle, &found)?;
                puzzle += 1;
            }
            Job::Batch { common, items } => {
                let bytes = common.payload().len();
                append_batch(&mut text, batch, bytes, items.as_slice(), &answers)?;
                batch += 1;
            }
        }
    }
    append_totals(&mut text, outcomes)?;
    Ok(text)
}
