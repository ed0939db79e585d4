//! Solutions.

ghost use Rattle.std.specs.Prelude.{◌≡◌, ◌↔◌, ◌≤◌, ◌+◌, length, Some, IfOk};
ghost use Rattle.job_units.specs.Bodies.{solution_body};
ghost use Rattle.job_units.specs.Forms.{IsSolution};
ghost use Rattle.job_units.specs.Reading.{solution_of_body};
ghost use Rattle.job_units.specs.declared.solutions.Solution.{Solution};

use crate::grids::grid_of;
use crate::pieces::{array_of, joined, word};
use adlb_unit::{NoMemory, Payload};
use std::alloc::Global;
use sudoku_rules::Grid;

/// The bytes of a solution before the text of its grid.
const HEAD: usize = 4;

/// A solution node of a puzzle's tree. Puzzles are numbered from 1.
#[derive(Clone, Copy, PartialEq, Eq)]
pub struct Solution {
    pub puzzle: u32,
    pub grid: Grid,
}

impl Solution {
    /// The body of the solution (`solution_body`): 20, 85 or 260 bytes. Its only error is `NoMemory`.
    #[tactic(auto, unfolding(crate::specs::Bodies::solution_body))]
    pub fn body(&self, alloc: Global) -> Result<Payload, NoMemory>
        ensures body { IfOk result (λ p. p ≡ solution_body self.now) }
        ensures form { IsSolution self.now }
        ensures long { IfOk result (λ p. length p ≡ 4 + length self.now.grid) }
        ensures few { IfOk result (λ p. length p ≤ 260) }
    {
        joined(
            alloc,
            b"".as_slice(),
            &word(self.puzzle),
            self.grid.text().as_slice(),
        )
    }

    /// The solution that has this body (`solution_of_body`), if any: exactly the one of which it is the body (`exact`).
    pub fn read(body: &[u8]) -> Option<Solution>
        ensures read { result ≡ solution_of_body body.now }
        ensures exact { (s : Solution) → IsSolution s → (result ≡ Some s) ↔ (body.now ≡ solution_body s) }
    {
        if body.len() < HEAD {
            return None;
        }
        let (puzzle, text) = body.split_at(4);
        let grid = grid_of(text)?;
        Some(Solution {
            puzzle: u32::from_be_bytes(array_of(puzzle)),
            grid,
        })
    }
}
