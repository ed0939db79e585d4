//! The summary of the jobs of an input.

ghost use Rattle.std.specs.Prelude.{◌≡◌, ◌++◌, ◌+◌, ◌<◌, ◌≤◌, ◌^◌, ℕ, length, IfOk, OnOk, count_by};
ghost use Rattle.job_report.specs.inside.{HasRoom, over_count_at, overs_from, solution_count_at, solutions_from};
ghost use Rattle.job_report.specs.Jobs.{all_items, puzzles};
ghost use Rattle.job_report.specs.Summary.{batches_line, is_batch, puzzles_line, summary};
ghost use Rattle.job_report.specs.Whole.{AreWhole, made_in};

use crate::found::Found;
use crate::outcomes::Outcome;
use crate::texts::{append, append_count, append_number};
use crate::totals::append_totals;
use adlb_unit::NoMemory;
use job_text::{Job, Jobs};
use std::alloc::Global;

/// The summary of the jobs, in place of their report, from the outcomes of all ranks. If these together hold what the
/// jobs are to give (`AreWhole`), it is their `summary`. Its condition is that of `render`, and its only error is
/// `NoMemory`.
pub fn summarize(alloc: Global, jobs: &Jobs, outcomes: &[Outcome]) -> Result<Vec<u8>, NoMemory>
    requires room { (k : ℕ) → made_in k outcomes.now < 2 ^ 128 }
    ensures { (budget grain : ℕ) → AreWhole budget grain jobs.now outcomes.now →
        IfOk result (λ text. text.items ≡ summary budget grain jobs.now) }
{
    let found = Found::of(alloc, outcomes)?;
    let counts = Counts::of(jobs.as_slice(), &found);
    let mut text = Vec::new(alloc);
    append_puzzles(&mut text, &counts)?;
    append_batches(&mut text, &counts)?;
    append_totals(&mut text, outcomes)?;
    Ok(text)
}

// Appends how many puzzles there are, how many of them are over, and how many solutions the others have.
fn append_puzzles(text: &mut Vec<u8>, counts: &Counts) -> Result<(), NoMemory>
    ensures { OnOk result (text.new.items ≡ text.old.items
        ++ puzzles_line counts.now.puzzles counts.now.overs counts.now.solutions) }
{
    append(text, b"puzzles ")?;
    append_number(text, counts.puzzles as u128)?;
    append(text, b" over ")?;
    append_number(text, counts.overs as u128)?;
    append_count(text, b" solutions", counts.solutions)
}

// Appends how many batches there are, and how many items they have together.
fn append_batches(text: &mut Vec<u8>, counts: &Counts) -> Result<(), NoMemory>
    ensures { OnOk result (text.new.items ≡ text.old.items ++ batches_line counts.now.batches counts.now.items) }
{
    append(text, b"batches ")?;
    append_number(text, counts.batches as u128)?;
    append_count(text, b" items", counts.items as u128)
}

/// What is counted of jobs.
#[derive(Drop)]
struct Counts {
    puzzles: u32,
    /// Of the puzzles, those that are over.
    overs: u32,
    /// The solutions of the puzzles that are not over.
    solutions: u128,
    batches: u32,
    items: u64,
}

impl Counts {
    // The counts of jobs, with what was found of the puzzles.
    fn of(jobs: &[Job], found: &Found) -> Counts
        requires few { length jobs.now ≤ 2 ^ 24 }
        ensures puzzles { result.puzzles ≡ length (puzzles jobs.now) }
        ensures overs { result.overs ≡ overs_from found.now 1 (puzzles jobs.now) }
        ensures solutions { result.solutions ≡ solutions_from found.now 1 (puzzles jobs.now) }
        ensures batches { result.batches ≡ count_by is_batch jobs.now }
        ensures items { result.items ≡ all_items jobs.now }
    {
        let mut counts = Counts {
            puzzles: 0,
            overs: 0,
            solutions: 0,
            batches: 0,
            items: 0,
        };
        for job in jobs {
            match job {
                Job::Puzzle(_) => counts.add_puzzle(found),
                Job::Batch { items, .. } => counts.add_batch(items.as_slice().len()),
            }
        }
        counts
    }

    // Counts the next puzzle, whose number is how many there are with it.
    fn add_puzzle(&mut self, found: &Found)
        requires room { HasRoom self.now }
        ensures puzzles { self.new.puzzles ≡ self.old.puzzles + 1 }
        ensures overs { self.new.overs ≡ self.old.overs + over_count_at found.now (self.old.puzzles + 1) }
        ensures solutions { self.new.solutions
            ≡ self.old.solutions + solution_count_at found.now (self.old.puzzles + 1) }
        ensures small { solution_count_at found.now (self.old.puzzles + 1) < 2 ^ 64 }
        ensures others { (self.new.batches ≡ self.old.batches) × (self.new.items ≡ self.old.items) }
    {
        self.puzzles += 1;
        if found.is_over(self.puzzles) {
            self.overs += 1;
        } else {
            self.solutions += found.solution_count(self.puzzles) as u128;
        }
    }

    // Counts a batch with this many items.
    fn add_batch(&mut self, items: usize)
        requires room { HasRoom self.now }
        requires few { items ≤ 2 ^ 24 }
        ensures batches { self.new.batches ≡ self.old.batches + 1 }
        ensures items { self.new.items ≡ self.old.items + items }
        ensures others { (self.new.puzzles ≡ self.old.puzzles) × (self.new.overs ≡ self.old.overs)
            × (self.new.solutions ≡ self.old.solutions) }
    {
        self.batches += 1;
        self.items += items as u64;
    }
}
