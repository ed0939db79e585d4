//! The expansion of a board: the walk of one unit.

ghost use Rattle.std.specs.Prelude.{◌≡◌, ◌<◌, ◌≤◌, ◌-◌, ◌==◌, ℕ, List, length, false};
ghost use Rattle.std.specs.Prelude.{OnOk, OnErr, IfOk, IsPermutation, IsSorted};
ghost use Rattle.std.specs.Cmp.Lexicographic.{slice_cmp};
ghost use Rattle.std.specs.Ordering.{nat_cmp};
ghost use Rattle.sudoku_law.specs.Grid.{IsGrid};
ghost use Rattle.sudoku_law.specs.Solutions.{IsSolutionList};
ghost use Rattle.sudoku_law.specs.Tree.{both, hands_out, is_over, solutions as solutions_of, tree, walk};
ghost use Rattle.sudoku_rules.specs.Sides.{IsSudoku, tree_of};
ghost use Rattle.sudoku_rules.specs.inside.Masks.{IsSized};
ghost use Rattle.sudoku_rules.specs.inside.Marked.{IsCarried};
ghost use Rattle.sudoku_rules.specs.inside.Pieces.{handed_out, solved};
ghost use Rattle.sudoku_rules.specs.Expansion.{met_of};

use crate::grid::{Form, Grid};
use crate::marked::{Marked, take_lowest};
use crate::search::search_cells;
use adlb_unit::{NoMemory, or_no_memory};
use std::alloc::Global;

/// What the expansion of a board met.
#[derive(Drop)]
pub struct Expansion {
    /// The solution nodes, in the order of the tree.
    pub solutions: Vec<Grid>,
    /// The boards that are handed out, each with its budget, in the order of the tree.
    pub children: Vec<(u64, Grid)>,
    /// Some node has a blank cell and no budget.
    pub over: bool,
}

/// Works the tree of a grid with this budget. A node with two or more candidates and a budget above the grain
/// hands its children out, each with its share of the budget. All other nodes are worked here. Its only error
/// is `NoMemory`.
pub fn expand(alloc: Global, budget: u64, grid: &Grid, grain: u64) -> Result<Expansion, NoMemory>
    ensures { IfOk result (λ e. met_of e ≡ walk grain (tree_of budget grid.now)) }
{
    let mut found = Expansion {
        solutions: Vec::new(alloc),
        children: Vec::new(alloc),
        over: false,
    };
    match grid.form() {
        Form::Four(cells) => search_cells::<2, 4, 16>(budget, cells, grain, &mut found)?,
        Form::Nine(cells) => search_cells::<3, 9, 81>(budget, cells, grain, &mut found)?,
        Form::Sixteen(cells) => work_cells::<4, 16, 256>(budget, cells, grain, &mut found)?,
    }
    Ok(found)
}

/// Puts solutions in the order of their texts (`sorted`). If they are those of a grid's whole tree, and no node
/// of it is over, they are then the list of all solutions of the grid (`law`). Its only error is `NoMemory`,
/// and it then leaves them as they were (`err`).
pub fn in_text_order(solutions: &mut Vec<Grid>) -> Result<(), NoMemory>
    ensures permutation { IsPermutation solutions.old.items solutions.new.items }
    ensures sorted { OnOk result (IsSorted (slice_cmp nat_cmp) solutions.new.items) }
    ensures law { (m b : ℕ) (g : List ℕ) → IsGrid m g → is_over (tree m b g) ≡ false →
        IsPermutation (solutions_of (tree m b g)) solutions.old.items →
        OnOk result (IsSolutionList m g solutions.new.items) }
    ensures err { OnErr result (solutions.new.items ≡ solutions.old.items) }
{
    match solutions.sort() {
        Ok(()) => Ok(()),
        Err(_) => Err(NoMemory),
    }
}

// Works the tree of these cells, of side 16, by the masks of rows, columns and boxes.
fn work_cells<const M: usize, const SIDE: usize, const CELLS: usize>(
    budget: u64,
    cells: &[u8; CELLS],
    grain: u64,
    found: &mut Expansion,
) -> Result<(), NoMemory>
    requires sized { IsSized M SIDE CELLS }
    requires grid { IsGrid M cells.now }
    ensures { OnOk result
        (met_of found.new ≡ both (met_of found.old) (walk grain (tree_of budget cells.now))) }
{
    match Marked::<SIDE, CELLS>::of::<M>(cells) {
        Some(mut marked) => work::<M, SIDE, CELLS>(budget, &mut marked, grain, found),
        None => Ok(()),
    }
}

// Works one node, and what is below it, and leaves the grid as it was.
fn work<const M: usize, const SIDE: usize, const CELLS: usize>(
    budget: u64,
    marked: &mut Marked<SIDE, CELLS>,
    grain: u64,
    found: &mut Expansion,
) -> Result<(), NoMemory>
    requires sized { IsSized M SIDE CELLS }
    requires carried { IsCarried M marked.old }
    ensures met { OnOk result
        (met_of found.new ≡ both (met_of found.old) (walk grain (tree M budget marked.old.cells))) }
    ensures kept { OnOk result (marked.new ≡ marked.old) }
{
    let Some(choice) = marked.fewest::<M>() else {
        return keep_solution(&marked.cells, found);
    };
    if budget == 0 {
        found.over = true;
        return Ok(());
    }
    if choice.count == 0 {
        return Ok(());
    }
    let share = (budget - 1) / choice.count as u64;
    let hands = is_handing_out(budget, grain, choice.count);
    let mut left = choice.options;
    while left != 0 {
        let digit = take_lowest(&mut left) as u8 + 1;
        let marks = marked.marks::<M>(choice.cell);
        marked.put::<M>(choice.cell, digit);
        if hands {
            keep_child(share, &marked.cells, found)?;
        } else {
            work::<M, SIDE, CELLS>(share, marked, grain, found)?;
        }
        marked.put_back::<M>(choice.cell, marks);
    }
    Ok(())
}

/// Keeps a solution node.
pub fn keep_solution(cells: &[u8], found: &mut Expansion) -> Result<(), NoMemory>
    requires { IsSudoku cells.now }
    ensures { OnOk result (met_of found.new ≡ both (met_of found.old) (solved cells.now)) }
{
    or_no_memory(found.solutions.push(Grid::of(cells)))
}

/// Keeps a board that is handed out with its share of the budget.
pub fn keep_child(share: u64, cells: &[u8], found: &mut Expansion) -> Result<(), NoMemory>
    requires { IsSudoku cells.now }
    ensures { OnOk result (met_of found.new ≡ both (met_of found.old) (handed_out share cells.now)) }
{
    or_no_memory(found.children.push((share, Grid::of(cells))))
}

/// A node with this budget and `count` candidates hands its children out.
pub fn is_handing_out(budget: u64, grain: u64, count: u32) -> bool
    ensures { result ≡ hands_out grain budget count }
{
    budget > grain && count > 1
}
