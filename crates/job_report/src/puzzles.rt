//! The part of a puzzle.

ghost use Rattle.std.specs.Prelude.{◌≡◌, ◌++◌, ℕ, List, length, OnOk};
ghost use Rattle.sudoku_law.specs.Grid.{Cells};
ghost use Rattle.job_report.specs.inside.{grids_at, is_over_at, over_part};
ghost use Rattle.job_report.specs.Report.{IsPuzzlePart, grid_lines, solutions_part};
ghost use Rattle.job_report.specs.Whole.{IsHeld, found as found_of, told_over};
ghost use Rattle.job_report.specs.declared.outcomes.Outcome.{Outcome};

use crate::found::Found;
use crate::texts::{append, append_count, append_number};
use adlb_unit::NoMemory;
use std::alloc::Global;
use sudoku_rules::{Grid, in_text_order};

/// Appends the part of the puzzle of this number. Its only error is `NoMemory`.
pub(crate) fn append_puzzle(
    alloc: Global,
    text: &mut Vec<u8>,
    number: u32,
    found: &Found,
) -> Result<(), NoMemory>
    ensures { OnOk result ((part : List ℕ) × (text.new.items ≡ text.old.items ++ part) ×
        ((outcomes : List Outcome) (budget : ℕ) (g : Cells) → grids_at found.now number ≡ found_of number outcomes →
        is_over_at found.now number ≡ told_over number outcomes → IsHeld budget number g outcomes → IsPuzzlePart budget number g part)) }
{
    if found.is_over(number) {
        append_over(text, number)?;
        return Ok(());
    }
    let mut grids = found.solutions(alloc, number)?;
    in_text_order(&mut grids)?;
    append_solutions(text, number, &grids)?;
    Ok(())
}

// Appends that the puzzle is over.
fn append_over(text: &mut Vec<u8>, number: u32) -> Result<(), NoMemory>
    ensures { OnOk result (text.new.items ≡ text.old.items ++ over_part number) }
{
    append(text, b"puzzle ")?;
    append_number(text, number as u128)?;
    append(text, b" over\n")
}

// Appends how many solutions there are, and a line for each.
fn append_solutions(text: &mut Vec<u8>, number: u32, solutions: &[Grid]) -> Result<(), NoMemory>
    ensures { OnOk result (text.new.items ≡ text.old.items ++ solutions_part number solutions.now) }
{
    append(text, b"puzzle ")?;
    append_number(text, number as u128)?;
    append_count(text, b" solutions", solutions.len() as u128)?;
    append_grids(text, solutions)?;
    Ok(())
}

// Appends a line for each grid.
fn append_grids(text: &mut Vec<u8>, grids: &[Grid]) -> Result<(), NoMemory>
    ensures { OnOk result (text.new.items ≡ text.old.items ++ grid_lines grids.now) }
{
    for grid in grids {
        append(text, grid.text().as_slice())?;
        append(text, b"\n")?;
    }
    Ok(())
}
