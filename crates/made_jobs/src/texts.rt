//! The text of a count of puzzles.

ghost use Rattle.std.specs.Prelude.{◌≡◌, ◌++◌, IfOk, OnOk};
ghost use Rattle.made_jobs.specs.Made.{lines_of, made_text};

use crate::makers::Maker;
use adlb_unit::{NoMemory, or_no_memory};
use std::alloc::Global;

/// How many puzzles come to one batch.
const PUZZLES_A_BATCH: u32 = 8;

/// What follows the bytes of a batch.
const ITEMS: &[u8] = b"\ncount 49 53\nsum\nmax\n";

/// The text of `count` puzzles drawn from a seed, a line each, with a batch of four lines after every eighth
/// (`made_text`). Its only error is `NoMemory`.
pub fn made(alloc: Global, count: u32, seed: u64) -> Result<Vec<u8>, NoMemory>
    ensures { IfOk result (λ text. text.items ≡ made_text count seed) }
{
    let mut maker = Maker::new(seed);
    let mut text = Vec::new(alloc);
    for before in 0..count {
        let puzzle = maker.puzzle();
        append_lines(&mut text, before + 1, &puzzle)?;
    }
    Ok(text)
}

// Appends the lines of the puzzle of this number. Its only error is `NoMemory`.
fn append_lines(text: &mut Vec<u8>, number: u32, puzzle: &[u8]) -> Result<(), NoMemory>
    ensures { OnOk result (text.new.items ≡ text.old.items ++ lines_of number puzzle.now) }
{
    append(text, puzzle)?;
    append(text, b"\n")?;
    if number % PUZZLES_A_BATCH == 0 {
        append(text, b"batch ")?;
        append(text, puzzle)?;
        append(text, ITEMS)?;
    }
    Ok(())
}

// Appends the piece. Its only error is `NoMemory`.
fn append(text: &mut Vec<u8>, piece: &[u8]) -> Result<(), NoMemory>
    ensures { OnOk result (text.new.items ≡ text.old.items ++ piece.now) }
{
    or_no_memory(text.extend_from_slice(piece))
}
