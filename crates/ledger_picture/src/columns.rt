//! The columns in which entries are drawn.

use crate::numbers::Numbers;
use crate::places::LEFT;

/// The most columns of a picture.
const MOST: u64 = 4_000;

/// The most columns of all lanes together, by which a picture stays small.
const MOST_CELLS: u64 = 32_000;

/// The width of a picture's lanes, if its columns fill it.
const WIDTH: u64 = 1_600;

/// The widest column.
const WIDEST: u64 = 16;

/// How entries are drawn in columns: as many entries in each, and so wide.
#[derive(Clone, Copy)]
pub(crate) struct Columns {
    /// How many entries are drawn, one at least.
    pub entries: u64,
    /// How many entries a column has, one at least.
    pub each: u64,
    /// The width of a column.
    pub width: u64,
}

impl Columns {
    /// The columns of a picture with these numbers.
    pub fn new(numbers: Numbers) -> Columns {
        let entries = numbers.shown();
        let lanes = numbers.ranks as u64 + numbers.servers as u64;
        let most = MOST.min(MOST_CELLS / lanes.max(1)).max(1);
        let each = entries.div_ceil(most).max(1);
        let count = entries.div_ceil(each).max(1);
        Columns {
            entries,
            each,
            width: (WIDTH / count).clamp(1, WIDEST),
        }
    }

    /// Each entry has a column of its own.
    pub fn single(&self) -> bool {
        self.each == 1
    }

    /// The column of the entry at this place.
    pub fn of(&self, place: u64) -> u64 {
        place / self.each.max(1)
    }

    /// The left end of a column.
    pub fn x(&self, column: u64) -> u64 {
        column.saturating_mul(self.width).saturating_add(LEFT)
    }

    /// The left end of the column of the entry at this place.
    pub fn x_of(&self, place: u64) -> u64 {
        self.x(self.of(place))
    }

    /// The middle of that column.
    pub fn middle_of(&self, place: u64) -> u64 {
        self.x_of(place).saturating_add(self.width / 2)
    }

    /// The right end of the lanes.
    pub fn right(&self) -> u64 {
        self.x(self.entries.div_ceil(self.each.max(1)))
    }

    /// How many columns lie at least between two marks of one kind: none if each entry has a column, otherwise as many as a mark is wide.
    pub fn apart(&self) -> u64 {
        if self.single() {
            0
        } else {
            6 / self.width.max(1)
        }
    }

    /// How many entries lie between two numbers of the axis.
    pub fn tick(&self) -> u64 {
        let least = 90u64.saturating_mul(self.each) / self.width.max(1);
        let mut step = 1u64;
        for _ in 0..20 {
            if step < least {
                step = round_up(step);
            }
        }
        step
    }
}

// The next of 1, 2, 5, 10, 20, 50 and so on.
fn round_up(step: u64) -> u64 {
    let mut unit = 1u64;
    for _ in 0..19 {
        if unit.saturating_mul(10) <= step {
            unit = unit.saturating_mul(10);
        }
    }
    if step < unit.saturating_mul(2) {
        unit.saturating_mul(2)
    } else if step < unit.saturating_mul(5) {
        unit.saturating_mul(5)
    } else {
        unit.saturating_mul(10)
    }
}
