//! Boards.

ghost use Rattle.std.specs.Prelude.{◌≡◌, ◌↔◌, ◌≤◌, ◌+◌, length, Some, IfOk};
ghost use Rattle.job_units.specs.Bodies.{board_body};
ghost use Rattle.job_units.specs.Forms.{IsBoard};
ghost use Rattle.job_units.specs.Reading.{board_of_body};
ghost use Rattle.job_units.specs.declared.boards.Board.{Board};

use crate::grids::grid_of;
use crate::pieces::{array_of, joined, long_word, word};
use adlb_unit::{NoMemory, Payload};
use std::alloc::Global;
use sudoku_rules::Grid;

/// The bytes of a board before the text of its grid.
const HEAD: usize = 12;

/// A board: a grid of a puzzle with the budget for its tree. Puzzles are numbered from 1.
#[derive(Clone, Copy, PartialEq, Eq)]
pub struct Board {
    pub puzzle: u32,
    pub budget: u64,
    pub grid: Grid,
}

impl Board {
    /// The body of the board (`board_body`): 28, 93 or 268 bytes. Its only error is `NoMemory`.
    #[tactic(auto, unfolding(crate::specs::Bodies::board_body))]
    pub fn body(&self, alloc: Global) -> Result<Payload, NoMemory>
        ensures body { IfOk result (λ p. p ≡ board_body self.now) }
        ensures form { IsBoard self.now }
        ensures long { IfOk result (λ p. length p ≡ 12 + length self.now.grid) }
        ensures few { IfOk result (λ p. length p ≤ 268) }
    {
        joined(
            alloc,
            &word(self.puzzle),
            &long_word(self.budget),
            self.grid.text().as_slice(),
        )
    }

    /// The board that has this body (`board_of_body`), if any: exactly the one of which it is the body (`exact`).
    pub fn read(body: &[u8]) -> Option<Board>
        ensures read { result ≡ board_of_body body.now }
        ensures exact { (b : Board) → IsBoard b → (result ≡ Some b) ↔ (body.now ≡ board_body b) }
    {
        if body.len() < HEAD {
            return None;
        }
        let (puzzle, rest) = body.split_at(4);
        let (budget, text) = rest.split_at(8);
        let grid = grid_of(text)?;
        Some(Board {
            puzzle: u32::from_be_bytes(array_of(puzzle)),
            budget: u64::from_be_bytes(array_of(budget)),
            grid,
        })
    }
}
