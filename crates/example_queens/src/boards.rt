//! Boards of queens: the column of the queen in each row so far.

ghost use Rattle.std.specs.Prelude.{◌≡◌, ◌≤◌, ◌∷◌, ◌++◌, [], IfOk, length};
ghost use Rattle.example_queens.specs.Boards.{is_safe, placements};

use adlb::{NoMemory, or_no_memory};
use std::alloc::Global;

/// No queen of the board attacks this column of the next row (`is_safe`).
pub fn is_safe(board: &[u8], column: u8) -> bool
    ensures { result ≡ is_safe board.now column }
{
    let Some((queen, rest)) = board.split_first() else {
        return true;
    };
    let apart = queen.abs_diff(column) as usize;
    apart != 0 && apart != board.len() && is_safe(rest, column)
}

/// The board with one row more.
pub fn child(alloc: Global, board: &[u8], column: u8) -> Result<Vec<u8>, NoMemory>
    ensures { IfOk result (λ child. child.items ≡ board.now ++ column ∷ []) }
{
    let mut child = or_no_memory(Vec::from_slice(alloc, board))?;
    or_no_memory(child.push(column))?;
    Ok(child)
}

/// How many full boards extend the board.
#[tactic(auto, using(crate::proofs::Counting::full, crate::proofs::Counting::split, crate::proofs::Counting::next_safe, crate::proofs::Counting::next_unsafe, crate::proofs::Counting::fits))]
pub fn count(alloc: Global, side: u8, board: &[u8]) -> Result<u64, NoMemory>
    requires small { side ≤ 15 }
    ensures { IfOk result (λ n. n ≡ placements side board.now) }
{
    if board.len() >= side as usize {
        return Ok(1);
    }
    let mut found = 0;
    for column in 0..side {
        if is_safe(board, column) {
            found += count(alloc, side, child(alloc, board, column)?.as_slice())?;
        }
    }
    Ok(found)
}
