//! What all outcomes have of puzzles, looked up by the number of the puzzle.

ghost use Rattle.std.specs.Prelude.{◌≡◌, ◌==◌, ◌||◌, ℕ, length, IfOk, OnOk};
ghost use Rattle.std.specs.BTreeSet.{contains};
ghost use Rattle.std.specs.Ordering.{nat_cmp};
ghost use Rattle.std.specs.List.{list_any};
ghost use Rattle.job_report.specs.Whole.{found, told_over};
ghost use Rattle.job_report.specs.inside.{grids_at, is_over_at};

use crate::outcomes::Outcome;
use crate::told_grids::Told;
use adlb_unit::{NoMemory, or_no_memory};
use std::alloc::Global;
use std::collections::BTreeSet;
use sudoku_rules::Grid;

/// The solutions of each puzzle, and the puzzles that are over.
#[derive(Drop)]
pub(crate) struct Found<'a> {
    told: Told<'a>,
    overs: BTreeSet<u32>,
}

impl<'a> Found<'a> {
    /// What all outcomes tell. Its only error is `NoMemory`.
    pub(crate) fn of(alloc: Global, outcomes: &'a [Outcome]) -> Result<Found<'a>, NoMemory>
        ensures grids { IfOk result (λ f. (n : ℕ) → grids_at f n ≡ found n outcomes.now) }
        ensures overs { IfOk result (λ f. (n : ℕ) → is_over_at f n ≡ told_over n outcomes.now) }
    {
        let told = Told::of(alloc, outcomes)?;
        let overs = overs_of(alloc, outcomes)?;
        Ok(Found { told, overs })
    }

    /// A copy of the solutions of the puzzle. Its only error is `NoMemory`.
    pub(crate) fn solutions(&self, alloc: Global, number: u32) -> Result<Vec<Grid>, NoMemory>
        ensures { IfOk result (λ grids. grids.items ≡ grids_at self.now number) }
    {
        self.told.grids(alloc, number)
    }

    /// How many solutions of the puzzle are told.
    pub(crate) fn solution_count(&self, number: u32) -> usize
        ensures { result ≡ length (grids_at self.now number) }
    {
        self.told.count(number)
    }

    /// Some outcome tells that the puzzle is over.
    pub(crate) fn is_over(&self, number: u32) -> bool
        ensures { result ≡ is_over_at self.now number }
    {
        self.overs.contains(&number)
    }
}

// The puzzles that some outcome tells to be over. Its only error is `NoMemory`.
fn overs_of(alloc: Global, outcomes: &[Outcome]) -> Result<BTreeSet<u32>, NoMemory>
    ensures { IfOk result (λ overs. (n : ℕ) → contains nat_cmp overs n ≡ told_over n outcomes.now) }
{
    let mut overs = BTreeSet::new(alloc);
    for outcome in outcomes {
        add_overs(&mut overs, &outcome.overs)?;
    }
    Ok(overs)
}

// Adds the puzzles that one outcome tells to be over. Its only error is `NoMemory`.
fn add_overs(overs: &mut BTreeSet<u32>, numbers: &[u32]) -> Result<(), NoMemory>
    ensures { OnOk result ((n : ℕ) →
        contains nat_cmp overs.new n ≡ (contains nat_cmp overs.old n || list_any (λ x. x == n) numbers.now)) }
{
    for number in numbers {
        or_no_memory(overs.insert(*number))?;
    }
    Ok(())
}
