//! The digits of a grid's rows, columns and boxes as masks. From them follow whether two cells clash, the
//! candidates of a cell, and the better of two cells to try next.
//!
//! `M` is the side of a box, `SIDE` that of the grid and `CELLS` how many cells it has (`IsSized`).

ghost use Rattle.std.specs.Prelude.{◌≡◌, ◌<◌, ◌≤◌, ◌+◌, ◌-◌, ◌*◌, ◌/◌, ◌^◌, ℕ, List, length, slice_index};
ghost use Rattle.sudoku_law.specs.Grid.{IsGrid, box_of, column_of, row_of, side, size};
ghost use Rattle.sudoku_rules.specs.inside.Masks.{AreMasks, AreOptions, IsBest, IsSized};

/// The digits of each row, column and box: bit `d - 1` of a mask is set where the digit `d` stands there.
/// `clash` tells that a digit is twice in one of them.
#[derive(Clone, Copy)]
pub struct Masks<const SIDE: usize> {
    pub rows: [u16; SIDE],
    pub columns: [u16; SIDE],
    pub boxes: [u16; SIDE],
    pub clash: bool,
}

/// A blank cell, its candidates as a mask, and how many these are.
#[derive(Clone, Copy)]
pub struct Choice {
    pub cell: usize,
    pub options: u16,
    pub count: u32,
}

/// The bit that stands for a digit.
#[inline]
pub fn bit_of(digit: u8) -> u16
    requires least { 1 ≤ digit }
    requires most { digit ≤ 16 }
    ensures { result ≡ 2 ^ (digit - 1) }
{
    1 << (digit - 1)
}

/// The box of the cell in this row and column, by rows of boxes.
#[inline]
pub fn box_at<const M: usize>(row: usize, column: usize) -> usize
    requires low { 2 ≤ M }
    requires high { M ≤ 4 }
    requires row { row < side M }
    requires column { column < side M }
    ensures place { result ≡ row / M * M + column / M }
    ensures few { result < side M }
{
    row / M * M + column / M
}

/// The row, the column and the box of a cell.
#[inline]
pub fn around<const M: usize, const SIDE: usize>(cell: usize) -> (usize, usize, usize)
    requires low { 2 ≤ M }
    requires high { M ≤ 4 }
    requires side { SIDE ≡ side M }
    requires cell { cell < size M }
    ensures row { result.0 ≡ row_of M cell }
    ensures column { result.1 ≡ column_of M cell }
    ensures place { result.2 ≡ box_of M cell }
    ensures within { (result.0 < SIDE) × (result.1 < SIDE) × (result.2 < SIDE) }
{
    let row = cell / SIDE;
    let column = cell % SIDE;
    (row, column, box_at::<M>(row, column))
}

impl<const SIDE: usize> Masks<SIDE> {
    /// The masks of these cells.
    pub fn of<const M: usize, const CELLS: usize>(cells: &[u8; CELLS]) -> Masks<SIDE>
        requires sized { IsSized M SIDE CELLS }
        requires grid { IsGrid M cells.now }
        ensures { AreMasks M cells.now (length cells.now) result }
    {
        let mut masks = Masks {
            rows: [0; SIDE],
            columns: [0; SIDE],
            boxes: [0; SIDE],
            clash: false,
        };
        for (cell, &digit) in cells.iter().enumerate() {
            masks.add::<M>(cell, digit);
        }
        masks
    }

    // Notes the digit of one more cell, or nothing for a blank one.
    fn add<const M: usize>(&mut self, cell: usize, digit: u8)
        requires low { 2 ≤ M }
        requires high { M ≤ 4 }
        requires side { SIDE ≡ side M }
        requires cell { cell < size M }
        requires digit { digit ≤ side M }
        ensures { (g : List ℕ) → slice_index g cell ≡ digit →
            AreMasks M g cell self.old → AreMasks M g (cell + 1) self.new }
    {
        if digit == 0 {
            return;
        }
        let bit = bit_of(digit);
        let (row, column, place) = around::<M, SIDE>(cell);
        let clash = (self.rows[row] | self.columns[column] | self.boxes[place]) & bit != 0;
        self.clash |= clash;
        self.rows[row] |= bit;
        self.columns[column] |= bit;
        self.boxes[place] |= bit;
    }

    /// The digits that are neither in the row nor in the column nor in the box of the cell in this row and
    /// column.
    #[inline]
    pub fn options_at<const M: usize>(&self, row: usize, column: usize) -> u16
        requires low { 2 ≤ M }
        requires high { M ≤ 4 }
        requires side { SIDE ≡ side M }
        requires row { row < side M }
        requires column { column < side M }
        ensures { (g : List ℕ) → AreMasks M g (length g) self.now →
            AreOptions M g (row * side M + column) result }
    {
        let around = self.rows[row] | self.columns[column] | self.boxes[box_at::<M>(row, column)];
        !around & (u16::MAX >> (16 - SIDE))
    }

    /// The blank cell in this row and column if it has fewer candidates than the best of those before it,
    /// otherwise that one.
    #[inline]
    pub fn better<const M: usize>(
        &self,
        row: usize,
        column: usize,
        best: Option<Choice>,
    ) -> Option<Choice>
        requires low { 2 ≤ M }
        requires high { M ≤ 4 }
        requires side { SIDE ≡ side M }
        requires row { row < side M }
        requires column { column < side M }
        ensures { (g : List ℕ) → row * side M + column < length g →
            slice_index g (row * side M + column) ≡ 0 →
            AreMasks M g (length g) self.now → IsBest M g (row * side M + column) best →
            IsBest M g (row * side M + column + 1) result }
    {
        let options = self.options_at::<M>(row, column);
        let count = options.count_ones();
        let this = Some(Choice {
            cell: row * SIDE + column,
            options,
            count,
        });
        match best {
            None => this,
            Some(choice) => { if count < choice.count { this } else { best } }
        }
    }
}
