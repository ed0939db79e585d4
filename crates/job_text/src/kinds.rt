//! What a line is.

ghost use Rattle.std.specs.Prelude.{◌≡◌};
ghost use Rattle.job_text.specs.Kinds.{begins_puzzle as begins, is_item_name as is_named};
ghost use Rattle.job_text.specs.Kinds.{kind_of, named_kind, puzzle_kind, short_kind};
ghost use Rattle.job_text.specs.inside.Left.{kind};

use crate::faults::LineWhy;
use crate::items::{Item, item_of};
use crate::words::{before_blank, cut_word};
use sudoku_rules::{Grid, GridFault, parse_grid};

/// The most bytes of a line.
const LINE_LIMIT: usize = 1 << 20;

/// A line by what it is.
#[derive(Drop)]
pub(crate) enum Line<'a> {
    /// It is empty or a comment.
    Skipped,
    Puzzle(Grid),
    /// A batch of these bytes begins.
    Batch(&'a [u8]),
    /// An item, or none if it is not of its form.
    Item(Option<Item>),
    /// It is refused wherever it is.
    Bad(LineWhy),
}

/// What a line is (`kind_of`).
#[tactic(auto, unfolding(crate::specs::Kinds::kind_of))]
pub(crate) fn line_of(line: &[u8]) -> Line<'_>
    ensures { kind result ≡ kind_of line.now }
{
    if line.len() > LINE_LIMIT {
        return Line::Bad(LineWhy::Long);
    }
    short_line(line)
}

// What a line is that is not too long.
#[tactic(auto, unfolding(crate::specs::Kinds::short_kind))]
fn short_line(line: &[u8]) -> Line<'_>
    ensures { kind result ≡ short_kind line.now }
{
    if line.is_empty() || line[0] == b'#' {
        Line::Skipped
    } else if begins_puzzle(line[0]) {
        puzzle(before_blank(line))
    } else {
        named_line(line)
    }
}

// A digit, a dot, or a letter from A to G.
fn begins_puzzle(byte: u8) -> bool
    ensures { result ≡ begins byte }
{
    byte == b'.' || (b'0' <= byte && byte <= b'9') || (b'A' <= byte && byte <= b'G')
}

// A puzzle line of this text.
fn puzzle(text: &[u8]) -> Line<'_>
    ensures { kind result ≡ puzzle_kind text.now }
{
    match parse_grid(text) {
        Ok(grid) => Line::Puzzle(grid),
        Err(GridFault::Length { got }) => Line::Bad(LineWhy::Length { got }),
        Err(GridFault::Character { .. }) => Line::Bad(LineWhy::Character),
    }
}

// A line that begins with a word.
#[tactic(auto, unfolding(crate::specs::Kinds::named_kind))]
fn named_line(line: &[u8]) -> Line<'_>
    ensures { kind result ≡ named_kind line.now }
{
    let (name, behind) = cut_word(line);
    if name == b"batch".as_slice() {
        Line::Batch(behind)
    } else if is_item_name(name) {
        Line::Item(item_of(line))
    } else {
        Line::Bad(LineWhy::Word)
    }
}

// The word begins an item.
fn is_item_name(word: &[u8]) -> bool
    ensures { result ≡ is_named word.now }
{
    word == b"count".as_slice() || word == b"sum".as_slice() || word == b"max".as_slice()
}
