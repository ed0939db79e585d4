//! Grids as they are kept.

ghost use Rattle.std.specs.Prelude.{◌≡◌, ◌≤◌, ◌<◌, ◌+◌, ◌++◌, ◌∷◌, [], All, IfOk, length, take};
ghost use Rattle.sudoku_rules.specs.inside.Forms.{IsForm, cells_of};
ghost use Rattle.sudoku_rules.specs.inside.Packed.{IsHeld, halves, kept_cells, pairs};

use crate::grid::{Form, Grid};
use adlb_unit::{NoMemory, or_no_memory};
use std::alloc::Global;
use std::marker::Model;

/// The cells on the heap, two in a byte for sides 4 and 9. The last cell of side 9 is apart, since 41 bytes would take a
/// larger block of the allocator than 40.
#[derive(Drop)]
enum Held {
    Four(Box<[u8; 8]>),
    Nine(u8, Box<[u8; 40]>),
    Sixteen(Box<[u8; 256]>),
}

/// A grid that is kept on the heap. It is seen as the list of its cells, as the grid is.
#[derive(Drop)]
pub struct KeptGrid {
    held: Held,
}

impl Model for KeptGrid {
    ghost use Rattle.std.specs.Prelude.{List, ℕ};
    ghost use Rattle.sudoku_rules.specs.inside.Packed.{IsHeld, kept_cells};

    ghost Value = { List ℕ };

    ghost view = { λ kept. kept_cells kept.held };

    ghost invariant = { λ kept. IsHeld kept.held };
}

impl KeptGrid {
    /// The grid.
    pub fn grid(&self) -> Grid
        ensures { result ≡ self.now }
    {
        match &self.held {
            Held::Four(bytes) => Grid::of(&apart(bytes.as_ref(), 0)[..16]),
            Held::Nine(last, bytes) => Grid::of(&apart(bytes.as_ref(), *last)[..81]),
            Held::Sixteen(cells) => Grid::of(cells.as_ref()),
        }
    }
}

impl Grid {
    /// Keeps the grid. Its only error is `NoMemory`.
    pub fn keep(&self, alloc: Global) -> Result<KeptGrid, NoMemory>
        ensures { IfOk result (λ kept. kept ≡ self.now) }
    {
        let held = hold(alloc, self.form())?;
        Ok(KeptGrid { held })
    }
}

// The cells of a grid on the heap.
fn hold(alloc: Global, form: &Form) -> Result<Held, NoMemory>
    requires { IsForm form.now }
    ensures held { IfOk result IsHeld }
    ensures cells { IfOk result (λ held. kept_cells held ≡ cells_of form.now) }
{
    match form {
        Form::Four(cells) => Ok(Held::Four(or_no_memory(Box::new(alloc, in_pairs(cells)))?)),
        Form::Nine(cells) => Ok(Held::Nine(
            cells[80],
            or_no_memory(Box::new(alloc, in_pairs(cells)))?,
        )),
        Form::Sixteen(cells) => Ok(Held::Sixteen(or_no_memory(Box::new(alloc, *cells))?)),
    }
}

// These cells, two in a byte. An odd one is left out.
fn in_pairs<const N: usize>(cells: &[u8]) -> [u8; N]
    requires enough { N + N ≤ length cells.now }
    requires few { length cells.now ≤ N + N + 1 }
    requires small { All (λ cell. cell < 16) cells.now }
    ensures { result ≡ pairs cells.now }
{
    let mut bytes = [0; N];
    for at in 0..N {
        bytes[at] = cells[at + at] + 16 * cells[at + at + 1];
    }
    bytes
}

// The halves of these bytes, with a last cell after them.
fn apart(bytes: &[u8], last: u8) -> [u8; 256]
    requires { length bytes.now ≤ 127 }
    ensures halves { take (length bytes.now + length bytes.now) result ≡ halves bytes.now }
    ensures last { take (length bytes.now + length bytes.now + 1) result ≡ halves bytes.now ++ last ∷ [] }
    ensures long { length result ≡ 256 }
{
    let mut cells = [0; 256];
    let mut at = 0;
    for &byte in bytes {
        cells[at] = byte % 16;
        cells[at + 1] = byte / 16;
        at += 2;
    }
    cells[at] = last;
    cells
}
