//! A grid of side 4 or 9 with planes: for each digit the blank cells where it can go. A digit that is put at
//! a cell takes the cells that share with it out of its plane.

ghost use Rattle.std.specs.Prelude.{◌≡◌, ◌<◌, ◌≤◌, ◌+◌, ◌-◌, ◌^◌, ◌&&◌, not, ℕ, List, true, false, length, slice_index, slice_set, MatchOption, if◌then◌else◌};
ghost use Rattle.std.specs.Int.{bit_at};
ghost use Rattle.sudoku_law.specs.Grid.{IsGrid, conflict, side, size};
ghost use Rattle.sudoku_law.specs.Tree.{tree, walk};
ghost use Rattle.sudoku_rules.specs.inside.Masks.{IsBest, IsSized};
ghost use Rattle.sudoku_rules.specs.inside.Planes.{AreFewest, has};
ghost use Rattle.sudoku_rules.specs.inside.Boards.{AreSeen, AreSingle, IsBoard, IsFilled, IsLeft, IsPlaced, blanks};

use crate::look::Choice;
use crate::planes::{Levels, all_levels, first_of, less, sharing};

/// The cells of a grid, its blank cells, and for each digit the blank cells where it can go.
#[derive(Clone, Copy)]
pub struct Board<const SIDE: usize, const CELLS: usize> {
    pub cells: [u8; CELLS],
    pub blank: u128,
    pub options: [u128; SIDE],
}

/// For each digit the cells that share with one that has it, the blank cells, and whether two cells clash.
#[derive(Drop)]
pub struct Seen<const SIDE: usize> {
    pub planes: [u128; SIDE],
    pub blank: u128,
    pub clash: bool,
}

impl<const SIDE: usize> Seen<SIDE> {
    // What these cells rule out.
    fn of<const M: usize, const CELLS: usize>(cells: &[u8; CELLS]) -> Seen<SIDE>
        requires sized { IsSized M SIDE CELLS }
        requires narrow { M ≤ 3 }
        requires grid { IsGrid M cells.now }
        ensures { AreSeen M cells.now (length cells.now) result }
    {
        let mut seen = Seen {
            planes: [0; SIDE],
            blank: 0,
            clash: false,
        };
        for (cell, &digit) in cells.iter().enumerate() {
            seen.add::<M>(cell, digit);
        }
        seen
    }

    // Notes one more cell.
    #[inline]
    fn add<const M: usize>(&mut self, cell: usize, digit: u8)
        requires low { 2 ≤ M }
        requires high { M ≤ 3 }
        requires side { SIDE ≡ side M }
        requires cell { cell < size M }
        requires digit { digit ≤ side M }
        ensures { (g : List ℕ) → slice_index g cell ≡ digit → AreSeen M g cell self.old → AreSeen M g (cell + 1) self.new }
    {
        let bit = 1 << cell;
        if digit == 0 {
            self.blank |= bit;
            return;
        }
        let x = (digit - 1) as usize;
        let plane = self.planes[x];
        let clash = plane & bit != 0;
        self.clash |= clash;
        self.planes[x] = plane | sharing::<M>(cell);
    }

    // For each digit the blank cells where it can go.
    fn options(&self) -> [u128; SIDE]
        ensures long { length result ≡ SIDE }
        ensures left { (x k : ℕ) → x < SIDE → has (slice_index result x) k ≡
            (has self.now.blank k && not (has (slice_index self.now.planes x) k)) }
    {
        let mut options = [0; SIDE];
        for x in 0..SIDE {
            options[x] = less(self.blank, self.planes[x]);
        }
        options
    }
}

impl<const SIDE: usize, const CELLS: usize> Board<SIDE, CELLS> {
    /// A grid with its planes, or `None` if it has a conflict.
    pub fn of<const M: usize>(cells: &[u8; CELLS]) -> Option<Board<SIDE, CELLS>>
        requires sized { IsSized M SIDE CELLS }
        requires narrow { M ≤ 3 }
        requires grid { IsGrid M cells.now }
        ensures { MatchOption result (conflict M cells.now ≡ true)
            (λ w. IsBoard M w × (w.cells ≡ cells.now)) }
    {
        let seen = Seen::<SIDE>::of::<M, CELLS>(cells);
        if seen.clash {
            return None;
        }
        Some(Board {
            cells: *cells,
            blank: seen.blank,
            options: seen.options(),
        })
    }

    /// The blank cell with the fewest candidates, the first in reading order on a tie.
    #[inline]
    pub fn fewest<const M: usize>(&self) -> Option<Choice>
        requires sized { IsSized M SIDE CELLS }
        requires narrow { M ≤ 3 }
        requires board { IsBoard M self.now }
        ensures { IsBest M self.now.cells (length self.now.cells) result }
    {
        if self.blank == 0 {
            return None;
        }
        let cell = first_of(self.with_fewest());
        let options = self.options_at(cell);
        Some(Choice {
            cell,
            options,
            count: options.count_ones(),
        })
    }

    // The blank cells with the fewest candidates.
    #[inline]
    fn with_fewest(&self) -> u128
        requires { 0 < self.now.blank }
        ensures { AreFewest self.now.options self.now.blank result }
    {
        let levels = Levels::of(&self.options);
        let none = less(self.blank, levels.one);
        if none != 0 {
            return none;
        }
        let one = less(self.blank, levels.two);
        if one != 0 {
            return one;
        }
        let two = less(self.blank, levels.three);
        if two != 0 {
            two
        } else {
            self.with_fewest_of_many()
        }
    }

    // The blank cells with the fewest candidates, by all levels.
    fn with_fewest_of_many(&self) -> u128
        requires { 0 < self.now.blank }
        ensures { AreFewest self.now.options self.now.blank result }
    {
        let levels = all_levels(&self.options);
        for n in 0..SIDE {
            let few = less(self.blank, levels[n]);
            if few != 0 {
                return few;
            }
        }
        self.blank
    }

    // The digits that can go to a cell, as a mask.
    #[inline]
    fn options_at(&self, cell: usize) -> u16
        requires cell { cell < 128 }
        requires few { SIDE ≤ 16 }
        ensures small { result < 2 ^ SIDE }
        ensures bits { (x : ℕ) → x < SIDE →
            bit_at result x ≡ (if has (slice_index self.now.options x) cell then 1 else 0) }
    {
        let bit = 1u128 << cell;
        let mut mask = 0u16;
        for x in 0..SIDE {
            if self.options[x] & bit != 0 {
                mask |= 1 << x;
            }
        }
        mask
    }

    /// The cells with a digit at one of them.
    pub fn with_digit(&self, cell: usize, digit: u8) -> [u8; CELLS]
        requires { cell < CELLS }
        ensures { result ≡ slice_set self.now.cells cell digit }
    {
        let mut cells = self.cells;
        cells[cell] = digit;
        cells
    }

    /// The board with a candidate at a blank cell.
    #[inline]
    pub fn child<const M: usize>(&self, cell: usize, x: usize) -> Board<SIDE, CELLS>
        requires sized { IsSized M SIDE CELLS }
        requires narrow { M ≤ 3 }
        requires board { IsBoard M self.now }
        requires digit { x < side M }
        requires option { has (slice_index self.now.options x) cell ≡ true }
        ensures cells { result.cells ≡ slice_set self.now.cells cell (x + 1) }
        ensures board { IsBoard M result }
    {
        let mut child = *self;
        child.leave(cell);
        child.place::<M>(cell, x);
        child
    }

    // Lets no digit go to a cell any more.
    #[inline]
    fn leave(&mut self, cell: usize)
        requires { cell < 128 }
        ensures { IsLeft self.old self.new cell }
    {
        let bit = 1u128 << cell;
        for x in 0..SIDE {
            self.options[x] = less(self.options[x], bit);
        }
    }

    // Puts a digit at a cell.
    #[inline]
    fn place<const M: usize>(&mut self, cell: usize, x: usize)
        requires sized { IsSized M SIDE CELLS }
        requires narrow { M ≤ 3 }
        requires cell { cell < size M }
        requires digit { x < side M }
        ensures { IsPlaced M self.old self.new cell x }
    {
        self.cells[cell] = x as u8 + 1;
        self.blank = less(self.blank, 1 << cell);
        self.options[x] = less(self.options[x], sharing::<M>(cell));
    }

    /// Fills cells with one candidate as long as there are such, if the budget lasts for all blank cells. Answers
    /// what is left of it.
    pub fn settle<const M: usize>(&mut self, budget: u64) -> u64
        requires sized { IsSized M SIDE CELLS }
        requires narrow { M ≤ 3 }
        requires board { IsBoard M self.old }
        ensures board { IsBoard M self.new }
        ensures less { result ≤ budget }
        ensures same { (grain : ℕ) → walk grain (tree M budget self.old.cells) ≡ walk grain (tree M result self.new.cells) }
    {
        if budget <= CELLS as u64 {
            return budget;
        }
        let mut left = budget;
        for round in 0..CELLS {
            let singles = self.singles();
            if singles == 0 {
                return left;
            }
            left = self.fill::<M>(singles, left);
        }
        left
    }

    // Blank cells with one candidate; none if a blank cell has no candidate.
    #[inline]
    fn singles(&self) -> u128
        ensures { AreSingle result self.now.options }
    {
        let levels = Levels::of(&self.options);
        if less(self.blank, levels.one) == 0 {
            less(levels.one, levels.two)
        } else {
            0
        }
    }

    // Fills these cells as long as each has a candidate.
    #[inline]
    fn fill<const M: usize>(&mut self, singles: u128, budget: u64) -> u64
        requires sized { IsSized M SIDE CELLS }
        requires narrow { M ≤ 3 }
        requires board { IsBoard M self.old }
        requires singles { AreSingle singles self.old.options }
        requires lasts { blanks self.old.cells < budget }
        ensures { IsFilled M self.old budget self.new result }
    {
        let mut left = budget;
        for x in 0..SIDE {
            left = self.fill_with::<M>(x, singles, left);
        }
        left
    }

    // Fills those of these cells that have this candidate.
    #[inline]
    fn fill_with<const M: usize>(&mut self, x: usize, singles: u128, budget: u64) -> u64
        requires sized { IsSized M SIDE CELLS }
        requires narrow { M ≤ 3 }
        requires board { IsBoard M self.old }
        requires digit { x < side M }
        requires singles { AreSingle singles self.old.options }
        requires lasts { blanks self.old.cells < budget }
        ensures filled { IsFilled M self.old budget self.new result }
        ensures singles { AreSingle singles self.new.options }
    {
        let mut left = budget;
        let mut cells = singles & self.options[x];
        while cells != 0 {
            self.place::<M>(first_of(cells), x);
            left -= 1;
            cells &= self.options[x];
        }
        left
    }
}
