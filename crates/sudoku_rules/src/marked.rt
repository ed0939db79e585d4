//! A grid with its masks, carried along a walk. A digit that is put at a blank cell changes four masks, which
//! are put back when the walk leaves the cell.

ghost use Rattle.std.specs.Prelude.{◌≡◌, ◌<◌, ◌≤◌, ◌+◌, ◌-◌, ◌*◌, ℕ, Bool, true, false, length, MatchOption};
ghost use Rattle.sudoku_law.specs.Grid.{IsBlank, IsGrid, conflict, side, size, used};
ghost use Rattle.sudoku_rules.specs.inside.Masks.{IsBest, IsSized};
ghost use Rattle.sudoku_rules.specs.inside.Marked.{AreBlanks, IsBlankRow, IsCarried, IsNext, IsRest, marks_at, put_at, put_back};

use crate::look::{Choice, Masks, around, bit_of};

/// The cells of a grid, the masks of its rows, columns and boxes, and its blank cells. Bit `c` of `blanks[r]`
/// is set exactly if the cell in row `r` and column `c` is blank.
#[derive(Drop)]
pub struct Marked<const SIDE: usize, const CELLS: usize> {
    pub cells: [u8; CELLS],
    pub masks: Masks<SIDE>,
    pub blanks: [u16; SIDE],
}

/// The digits of a cell's row, column and box, and the blank cells of its row, each as a mask.
#[derive(Clone, Copy)]
pub struct Marks {
    pub in_row: u16,
    pub in_column: u16,
    pub in_box: u16,
    pub blanks_in_row: u16,
}

/// Takes the lowest bit out of a mask, and gives its place.
#[inline]
pub fn take_lowest(left: &mut u16) -> usize
    requires some { 0 < left.old }
    ensures few { result < 16 }
    ensures falls { left.new < left.old }
    ensures rest { (n : ℕ) (p : ℕ → Bool) (from : ℕ) → n ≤ 16 → IsRest n p from left.old →
        IsNext n p from result × IsRest n p (result + 1) left.new }
{
    let place = left.trailing_zeros();
    *left &= !(1 << place);
    place as usize
}

impl<const SIDE: usize, const CELLS: usize> Marked<SIDE, CELLS> {
    /// A grid with its masks, or `None` if it has a conflict.
    pub fn of<const M: usize>(cells: &[u8; CELLS]) -> Option<Marked<SIDE, CELLS>>
        requires sized { IsSized M SIDE CELLS }
        requires grid { IsGrid M cells.now }
        ensures { MatchOption result (conflict M cells.now ≡ true)
            (λ w. IsCarried M w × (w.cells ≡ cells.now)) }
    {
        let masks = Masks::<SIDE>::of::<M, CELLS>(cells);
        if masks.clash {
            return None;
        }
        Some(Marked {
            cells: *cells,
            masks,
            blanks: blanks_of::<M, SIDE, CELLS>(cells),
        })
    }

    /// The blank cell with the fewest candidates, the first in reading order on a tie.
    #[inline]
    pub fn fewest<const M: usize>(&self) -> Option<Choice>
        requires sized { IsSized M SIDE CELLS }
        requires carried { IsCarried M self.now }
        ensures { IsBest M self.now.cells (length self.now.cells) result }
    {
        let mut best = None;
        for row in 0..SIDE {
            best = self.fewest_in::<M>(row, best);
        }
        best
    }

    // The best choice of the rows up to this one; `best` is that of the rows before it.
    #[inline]
    fn fewest_in<const M: usize>(&self, row: usize, best: Option<Choice>) -> Option<Choice>
        requires sized { IsSized M SIDE CELLS }
        requires carried { IsCarried M self.now }
        requires row { row < side M }
        requires before { IsBest M self.now.cells (row * side M) best }
        ensures { IsBest M self.now.cells (row * side M + side M) result }
    {
        let mut best = best;
        let mut left = self.blanks[row];
        while left != 0 {
            let column = take_lowest(&mut left);
            best = self.masks.better::<M>(row, column, best);
        }
        best
    }

    /// The masks around a cell, to be put back later.
    #[inline]
    pub fn marks<const M: usize>(&self, cell: usize) -> Marks
        requires sized { IsSized M SIDE CELLS }
        requires cell { cell < size M }
        ensures { result ≡ marks_at M self.now cell }
    {
        let (row, column, place) = around::<M, SIDE>(cell);
        Marks {
            in_row: self.masks.rows[row],
            in_column: self.masks.columns[column],
            in_box: self.masks.boxes[place],
            blanks_in_row: self.blanks[row],
        }
    }

    /// Puts a candidate at a blank cell, and notes it in the masks.
    #[inline]
    pub fn put<const M: usize>(&mut self, cell: usize, digit: u8)
        requires sized { IsSized M SIDE CELLS }
        requires carried { IsCarried M self.old }
        requires blank { IsBlank self.old.cells cell }
        requires least { 1 ≤ digit }
        requires most { digit ≤ side M }
        requires unused { used M self.old.cells cell digit ≡ false }
        ensures after { self.new ≡ put_at M self.old cell (digit - 1) }
        ensures carried { IsCarried M self.new }
    {
        let (row, column, place) = around::<M, SIDE>(cell);
        let bit = bit_of(digit);
        self.cells[cell] = digit;
        self.masks.rows[row] |= bit;
        self.masks.columns[column] |= bit;
        self.masks.boxes[place] |= bit;
        self.blanks[row] &= !(1 << column);
    }

    /// Makes a cell blank again, with the masks that stood around it before.
    #[inline]
    pub fn put_back<const M: usize>(&mut self, cell: usize, marks: Marks)
        requires sized { IsSized M SIDE CELLS }
        requires cell { cell < size M }
        ensures { self.new ≡ put_back M self.old cell marks }
    {
        let (row, column, place) = around::<M, SIDE>(cell);
        self.cells[cell] = 0;
        self.masks.rows[row] = marks.in_row;
        self.masks.columns[column] = marks.in_column;
        self.masks.boxes[place] = marks.in_box;
        self.blanks[row] = marks.blanks_in_row;
    }
}

// The blank cells of each row, as masks.
fn blanks_of<const M: usize, const SIDE: usize, const CELLS: usize>(
    cells: &[u8; CELLS],
) -> [u16; SIDE]
    requires sized { IsSized M SIDE CELLS }
    requires long { length cells.now ≡ size M }
    ensures { AreBlanks M cells.now result }
{
    let mut blanks = [0; SIDE];
    for row in 0..SIDE {
        blanks[row] = blanks_in::<M, SIDE, CELLS>(cells, row);
    }
    blanks
}

// The blank cells of a row, as a mask.
fn blanks_in<const M: usize, const SIDE: usize, const CELLS: usize>(
    cells: &[u8; CELLS],
    row: usize,
) -> u16
    requires sized { IsSized M SIDE CELLS }
    requires long { length cells.now ≡ size M }
    requires row { row < side M }
    ensures { IsBlankRow M cells.now row (side M) result }
{
    let mut blanks = 0u16;
    for column in 0..SIDE {
        if cells[row * SIDE + column] == 0 {
            blanks |= 1 << column;
        }
    }
    blanks
}
