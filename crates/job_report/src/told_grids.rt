//! The solutions that all outcomes tell, looked up by the number of the puzzle.

ghost use Rattle.std.specs.Prelude.{◌≡◌, ◌++◌, ℕ, length, map, IfOk, OnOk};
ghost use Rattle.job_report.specs.Whole.{found, found_in};
ghost use Rattle.job_report.specs.Pairs.{pairs};

use crate::outcomes::Outcome;
use adlb_unit::{NoMemory, or_no_memory};
use std::alloc::Global;
use std::marker::Model;
use sudoku_rules::{Grid, KeptGrid};

/// The solutions in the order of their puzzles. They stay in the outcomes, and are seen as the list of their numbers and grids.
#[derive(Drop)]
pub(crate) struct Told<'a> {
    list: Vec<(u32, &'a KeptGrid)>,
}

impl<'a> Model for Told<'a> {
    ghost use Rattle.std.specs.Prelude.{List, ℕ};
    ghost use Rattle.std.specs.List.Sorted.{IsNonDecreasingBy};
    ghost use Rattle.job_report.specs.Pairs.{pairs};

    ghost Value = { List (ℕ × List ℕ) };

    ghost view = { λ told. pairs told.list.items };

    ghost invariant = { λ told. IsNonDecreasingBy (λ s. s.0) told.list.items };
}

impl<'a> Told<'a> {
    /// What all outcomes tell. Its only error is `NoMemory`.
    pub(crate) fn of(alloc: Global, outcomes: &'a [Outcome]) -> Result<Told<'a>, NoMemory>
        ensures { IfOk result (λ told. (n : ℕ) → found_in n told ≡ found n outcomes.now) }
    {
        let mut list = Vec::new(alloc);
        for outcome in outcomes {
            add(&mut list, &outcome.solutions)?;
        }
        or_no_memory(list.sort_by_key(|told| told.0))?;
        Ok(Told { list })
    }

    /// The grids of the puzzle. Its only error is `NoMemory`.
    pub(crate) fn grids(&self, alloc: Global, number: u32) -> Result<Vec<Grid>, NoMemory>
        ensures { IfOk result (λ grids. grids.items ≡ found_in number self.now) }
    {
        let told = self.of_puzzle(number);
        let mut grids = or_no_memory(Vec::with_capacity(alloc, told.len()))?;
        for solution in told {
            or_no_memory(grids.push(solution.1.grid()))?;
        }
        Ok(grids)
    }

    /// How many grids of the puzzle there are.
    pub(crate) fn count(&self, number: u32) -> usize
        ensures { result ≡ length (found_in number self.now) }
    {
        self.of_puzzle(number).len()
    }

    // The solutions of the puzzle, which are together.
    fn of_puzzle(&self, number: u32) -> &[(u32, &'a KeptGrid)]
        ensures { map (λ s. s.1) (pairs result.now) ≡ found_in number self.now }
    {
        let from = self.list.partition_point(|told| told.0 < number);
        let rest = &self.list[from..];
        let count = rest.partition_point(|told| told.0 <= number);
        &rest[..count]
    }
}

// Adds these solutions. Its only error is `NoMemory`.
fn add<'a>(
    list: &mut Vec<(u32, &'a KeptGrid)>,
    solutions: &'a [(u32, KeptGrid)],
) -> Result<(), NoMemory>
    ensures { OnOk result (pairs list.new.items ≡ pairs list.old.items ++ solutions.now) }
{
    or_no_memory(list.reserve_exact(solutions.len()))?;
    for solution in solutions {
        or_no_memory(list.push((solution.0, &solution.1)))?;
    }
    Ok(())
}
