//! The walk of one unit over a grid of side 4 or 9, by planes.

ghost use Rattle.std.specs.Prelude.{◌≡◌, ◌≤◌, OnOk};
ghost use Rattle.sudoku_law.specs.Grid.{IsGrid};
ghost use Rattle.sudoku_law.specs.Tree.{both, tree, walk};
ghost use Rattle.sudoku_rules.specs.Expansion.{met_of};
ghost use Rattle.sudoku_rules.specs.Sides.{tree_of};
ghost use Rattle.sudoku_rules.specs.inside.Boards.{IsBoard};
ghost use Rattle.sudoku_rules.specs.inside.Masks.{IsSized};

use crate::boards::Board;
use crate::expansion::{Expansion, is_handing_out, keep_child, keep_solution};
use crate::marked::take_lowest;
use adlb_unit::NoMemory;

/// Works the tree of these cells.
pub fn search_cells<const M: usize, const SIDE: usize, const CELLS: usize>(
    budget: u64,
    cells: &[u8; CELLS],
    grain: u64,
    found: &mut Expansion,
) -> Result<(), NoMemory>
    requires sized { IsSized M SIDE CELLS }
    requires narrow { M ≤ 3 }
    requires grid { IsGrid M cells.now }
    ensures { OnOk result
        (met_of found.new ≡ both (met_of found.old) (walk grain (tree_of budget cells.now))) }
{
    let Some(mut board) = Board::<SIDE, CELLS>::of::<M>(cells) else {
        return Ok(());
    };
    let left = board.settle::<M>(budget);
    search::<M, SIDE, CELLS>(left, &board, grain, found)
}

// Works one node, and what is below it.
fn search<const M: usize, const SIDE: usize, const CELLS: usize>(
    budget: u64,
    board: &Board<SIDE, CELLS>,
    grain: u64,
    found: &mut Expansion,
) -> Result<(), NoMemory>
    requires sized { IsSized M SIDE CELLS }
    requires narrow { M ≤ 3 }
    requires board { IsBoard M board.now }
    ensures { OnOk result
        (met_of found.new ≡ both (met_of found.old) (walk grain (tree M budget board.now.cells))) }
{
    let Some(choice) = board.fewest::<M>() else {
        return keep_solution(&board.cells, found);
    };
    if budget == 0 {
        found.over = true;
        return Ok(());
    }
    if choice.count == 0 {
        return Ok(());
    }
    let share = (budget - 1) / choice.count as u64;
    let hands = is_handing_out(budget, grain, choice.count);
    let mut left = choice.options;
    while left != 0 {
        let x = take_lowest(&mut left);
        if hands {
            keep_child(share, &board.with_digit(choice.cell, x as u8 + 1), found)?;
        } else {
            let mut child = board.child::<M>(choice.cell, x);
            let rest = child.settle::<M>(share);
            search::<M, SIDE, CELLS>(rest, &child, grain, found)?;
        }
    }
    Ok(())
}
