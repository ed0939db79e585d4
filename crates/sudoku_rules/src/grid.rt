//! Grids of side 4, 9 and 16.

ghost use Rattle.std.specs.Prelude.{◌≡◌, ◌↔◌, ◌<◌, ◌≤◌, ◌-◌, ◌^◌, ◌==◌, ℕ, List, length, false, not, nat_eq, refl};
ghost use Rattle.std.specs.Prelude.{IsTrue, Some, count_by};
ghost use Rattle.std.specs.Cmp.{on_equiv, partial_equiv_from_equiv};
ghost use Rattle.std.specs.Cmp.Lexicographic.{nat_list_cmp_total, nat_list_eq_equiv, pointwise, slice_cmp, texts_po, texts_ties};
ghost use Rattle.std.specs.Ordering.{nat_cmp};
ghost use Rattle.std.specs.Int.{IsBitSet};
ghost use Rattle.sudoku_law.specs.Grid.{HasConflict, IsBlank, IsGrid, conflict, side, used};
ghost use Rattle.sudoku_law.specs.Text.{text_of};
ghost use Rattle.sudoku_rules.specs.Sides.{IsSudoku, box_side};
ghost use Rattle.sudoku_rules.specs.inside.Masks.{IsSized};
ghost use Rattle.sudoku_rules.specs.inside.Forms.{IsForm, cells_of};

use crate::look::Masks;
use crate::text::GridText;
use std::cmp::Ordering;
use std::marker::Model;

/// The cells of a grid by rows, in an array for each side.
#[derive(Clone, Copy, Debug)]
pub enum Form {
    Four([u8; 16]),
    Nine([u8; 81]),
    Sixteen([u8; 256]),
}

/// A grid of side 4, 9 or 16: its cells by rows, each a digit from 1 to the side or 0 for blank. It is seen as
/// the list of its cells, which are 16, 81 or 256. Grids are in the order of these lists.
#[derive(Clone, Copy, Debug)]
pub struct Grid {
    form: Form,
}

impl Model for Grid {
    ghost use Rattle.std.specs.Prelude.{List, ℕ};

    ghost Value = { List ℕ };

    ghost use Rattle.std.proofs.Common.{ap};
    ghost use Rattle.sudoku_rules.specs.inside.Forms.{IsForm, cells_of, form_of, form_back};

    ghost view = { λ g. cells_of g.form };

    ghost invariant = { λ g. IsForm g.form };

    ghost inverse = { λ g. record { form = form_of g } };

    ghost inverse_ok = { λ g is. ap (λ f. record { form = f }) (form_back g.form is) };
}

impl PartialEq for Grid {
    ghost eq = { λ a b. pointwise nat_eq a b };

    ghost laws = { partial_equiv_from_equiv nat_list_eq_equiv };

    fn eq(&self, other: &Grid) -> bool {
        self.cells() == other.cells()
    }
}

impl Eq for Grid {
    ghost laws = { nat_list_eq_equiv };
}

impl PartialOrd for Grid {
    ghost partial_cmp = { λ a b. Some (slice_cmp nat_cmp a b) };

    ghost laws = { texts_po };

    fn partial_cmp(&self, other: &Grid) -> Option<Ordering> {
        Some(self.cmp(other))
    }
}

impl Ord for Grid {
    ghost cmp = { λ a b. slice_cmp nat_cmp a b };

    ghost total = { nat_list_cmp_total };

    ghost matches_partial_cmp = { λ a b. refl };

    ghost matches_eq = { λ a b. texts_ties a b };

    fn cmp(&self, other: &Grid) -> Ordering {
        self.cells().cmp(other.cells())
    }
}

impl Grid {
    /// Some row, column or box has a digit twice.
    pub fn conflict(&self) -> bool
        ensures meaning { IsTrue result ↔ HasConflict (box_side self.now) self.now }
        ensures test { result ≡ conflict (box_side self.now) self.now }
    {
        match &self.form {
            Form::Four(cells) => has_conflict::<2, 4, 16>(cells),
            Form::Nine(cells) => has_conflict::<3, 9, 81>(cells),
            Form::Sixteen(cells) => has_conflict::<4, 16, 256>(cells),
        }
    }

    /// The candidates of a blank cell, cells counted by rows from 0. Bit `d - 1` is set exactly if the digit
    /// `d`, from 1 to the side, is not in its row, column or box. No other bit is set.
    pub fn candidates(&self, cell: u32) -> u16
        requires blank { IsBlank self.now cell }
        ensures bits { (d : ℕ) → 1 ≤ d → d ≤ side (box_side self.now) →
            IsBitSet result (d - 1) ↔ (used (box_side self.now) self.now cell d ≡ false) }
        ensures few { result < 2 ^ side (box_side self.now) }
    {
        let cell = cell as usize;
        match &self.form {
            Form::Four(cells) => candidates_of::<2, 4, 16>(cells, cell),
            Form::Nine(cells) => candidates_of::<3, 9, 81>(cells, cell),
            Form::Sixteen(cells) => candidates_of::<4, 16, 256>(cells, cell),
        }
    }

    /// The text of the grid: its cells by rows, each as its digit's sign, where a blank cell is `0`.
    pub fn text(&self) -> GridText
        ensures text { result ≡ text_of self.now }
        ensures grid { IsSudoku self.now }
    {
        GridText::of(self.cells())
    }

    /// How many cells are not blank, 256 at most.
    pub fn filled(&self) -> u32
        ensures exact { result ≡ count_by (λ digit. not (digit == 0)) self.now }
        ensures few { result ≤ 256 }
    {
        self.cells().iter().filter(|&&digit| digit != 0).count() as u32
    }

    // The cells in their array.
    pub(crate) fn form(&self) -> &Form
        ensures cells { cells_of result.now ≡ self.now }
        ensures grid { IsForm result.now }
    {
        &self.form
    }

    /// The cells by rows, each its digit, or 0 if it is blank: what tells whether `candidates` may be asked.
    pub fn cells(&self) -> &[u8]
        ensures same { result.now ≡ self.now }
        ensures grid { IsSudoku self.now }
        ensures few { length self.now ≤ 256 }
    {
        match &self.form {
            Form::Four(cells) => cells,
            Form::Nine(cells) => cells,
            Form::Sixteen(cells) => cells,
        }
    }

    // The grid of these cells.
    #[inline]
    pub(crate) fn of(cells: &[u8]) -> Grid
        requires { IsSudoku cells.now }
        ensures { result ≡ cells.now }
    {
        let form = if let Ok(cells) = cells.try_into() {
            Form::Four(cells)
        } else if let Ok(cells) = cells.try_into() {
            Form::Nine(cells)
        } else {
            let mut wide = [0; 256];
            wide.copy_from_slice(cells);
            Form::Sixteen(wide)
        };
        Grid { form }
    }
}

// Some row, column or box of these cells has a digit twice.
fn has_conflict<const M: usize, const SIDE: usize, const CELLS: usize>(cells: &[u8; CELLS]) -> bool
    requires sized { IsSized M SIDE CELLS }
    requires grid { IsGrid M cells.now }
    ensures meaning { IsTrue result ↔ HasConflict (box_side cells.now) cells.now }
    ensures test { result ≡ conflict (box_side cells.now) cells.now }
{
    Masks::<SIDE>::of::<M, CELLS>(cells).clash
}

// The candidates of one of these cells, which is blank, as a mask.
fn candidates_of<const M: usize, const SIDE: usize, const CELLS: usize>(
    cells: &[u8; CELLS],
    cell: usize,
) -> u16
    requires sized { IsSized M SIDE CELLS }
    requires grid { IsGrid M cells.now }
    requires cell { cell < length cells.now }
    ensures bits { (d : ℕ) → 1 ≤ d → d ≤ side (box_side cells.now) →
        IsBitSet result (d - 1) ↔ (used (box_side cells.now) cells.now cell d ≡ false) }
    ensures few { result < 2 ^ side (box_side cells.now) }
{
    Masks::<SIDE>::of::<M, CELLS>(cells).options_at::<M>(cell / SIDE, cell % SIDE)
}
