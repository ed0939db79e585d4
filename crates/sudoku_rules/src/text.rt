//! The text of a grid: how it is read and written.

ghost use Rattle.std.specs.Prelude.{◌≡◌, ◌↔◌, ◌≤◌, ◌-◌, ℕ, List, length, Ok, Err, MatchOption};
ghost use Rattle.sudoku_law.specs.Text.{sign, text_of};
ghost use Rattle.sudoku_rules.specs.Sides.{IsSize, IsSudoku, side_for};
ghost use Rattle.sudoku_rules.specs.Reading.{IsCellSign, IsFirstBad, Reads, digit_of};

use crate::grid::Grid;
use std::marker::Model;
use thiserror::Error;

/// Why a text is not that of a grid.
#[derive(Clone, Copy, Debug, PartialEq, Eq, Error)]
pub enum GridFault {
    #[error("{got} bytes in place of 16, 81 or 256")]
    Length { got: u64 },
    #[error("byte {place} is neither a dot nor the sign of a digit up to the side")]
    Character { place: u64 },
}

/// The text of a grid, held in place. It is seen as its bytes.
#[derive(Drop)]
pub struct GridText {
    bytes: [u8; 256],
    count: usize,
}

impl Model for GridText {
    ghost use Rattle.std.specs.Prelude.{◌≤◌, ℕ, List, take};

    ghost Value = { List ℕ };

    ghost view = { λ text. take text.count text.bytes };

    ghost invariant = { λ text. text.count ≤ 256 };
}

impl GridText {
    /// The bytes of the text.
    pub fn as_slice(&self) -> &[u8]
        ensures { result.now ≡ self.now }
    {
        &self.bytes[..self.count]
    }

    // The text of these cells.
    pub(crate) fn of(cells: &[u8]) -> GridText
        requires { IsSudoku cells.now }
        ensures { result ≡ text_of cells.now }
    {
        let mut bytes = [b'0'; 256];
        for (place, &digit) in cells.iter().enumerate() {
            bytes[place] = sign_of(digit);
        }
        GridText {
            bytes,
            count: cells.len(),
        }
    }
}

/// Reads a grid of side 4, 9 or 16 from its text: 16, 81 or 256 bytes by rows. The digits 1 to 9 are written as
/// such and 10 to 16 as `A` to `G`; `0` and a dot are blank cells. A text of another length is refused by its
/// length. Otherwise it is refused by its first byte, counted from 0, that is neither a dot nor the sign of a
/// digit up to the side.
pub fn parse_grid(text: &[u8]) -> Result<Grid, GridFault>
    ensures read { (g : List ℕ) → (result ≡ Ok g) ↔ Reads text.now g }
    ensures length { (n : ℕ) →
        (result ≡ Err (GridFault.Length n)) ↔ (¬ IsSize (length text.now) × (n ≡ length text.now)) }
    ensures character { (k : ℕ) → (result ≡ Err (GridFault.Character k)) ↔ IsFirstBad text.now k }
{
    let Some(side) = side_of(text.len()) else {
        return Err(GridFault::Length {
            got: text.len() as u64,
        });
    };
    let mut cells = [0; 256];
    for (place, &byte) in text.iter().enumerate() {
        let Some(digit) = digit_at(byte, side) else {
            return Err(GridFault::Character {
                place: place as u64,
            });
        };
        cells[place] = digit;
    }
    Ok(Grid::of(&cells[..text.len()]))
}

// The side of a grid with this number of cells.
fn side_of(count: usize) -> Option<u8>
    ensures { MatchOption result (¬ IsSize count) (λ side. IsSize count × (side ≡ side_for count)) }
{
    match count {
        16 => Some(4),
        81 => Some(9),
        256 => Some(16),
        _ => None,
    }
}

// What a cell of this sign has, if it is the sign of a cell in a grid of this side.
fn digit_at(byte: u8, side: u8) -> Option<u8>
    requires { side ≤ 16 }
    ensures { MatchOption result (¬ IsCellSign side byte) (λ digit. IsCellSign side byte × (digit ≡ digit_of byte)) }
{
    let digit = match byte {
        b'.' => 0,
        b'0'..=b'9' => byte - b'0',
        b'A'..=b'G' => byte - b'A' + 10,
        _ => return None,
    };
    if digit <= side { Some(digit) } else { None }
}

// The sign of a digit.
fn sign_of(digit: u8) -> u8
    requires { digit ≤ 16 }
    ensures { result ≡ sign digit }
{
    if digit < 10 {
        b'0' + digit
    } else {
        b'A' + (digit - 10)
    }
}
