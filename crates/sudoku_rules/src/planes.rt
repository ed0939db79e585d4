//! Planes: a bit for each cell of a grid of side 4 or 9. Cells are counted by rows from 0.

ghost use Rattle.std.specs.Prelude.{◌≡◌, ◌<◌, ◌≤◌, ◌+◌, ℕ, List, false, true, ◌&&◌, not, length, nat_lt, slice_index, if◌then◌else◌};
ghost use Rattle.sudoku_law.specs.Grid.{shares, size};
ghost use Rattle.sudoku_rules.specs.inside.Planes.{AreLevels, has, many};

// The cells that share a row, a column or a box with each cell of a grid of side 4.
static SHARING_FOUR: [u128; 16] = [
    0x113f, 0x223f, 0x44cf, 0x88cf, 0x11f3, 0x22f3, 0x44fc, 0x88fc, 0x3f11, 0x3f22, 0xcf44, 0xcf88,
    0xf311, 0xf322, 0xfc44, 0xfc88,
];

// The cells that share a row, a column or a box with each cell of a grid of side 9.
static SHARING_NINE: [u128; 81] = [
    0x0010080402010081c0fff,
    0x0020100804020101c0fff,
    0x0040201008040201c0fff,
    0x008040201008040e071ff,
    0x010080402010080e071ff,
    0x020100804020100e071ff,
    0x0402010080402070381ff,
    0x0804020100804070381ff,
    0x1008040201008070381ff,
    0x0010080402010081ffe07,
    0x0020100804020101ffe07,
    0x0040201008040201ffe07,
    0x008040201008040e3fe38,
    0x010080402010080e3fe38,
    0x020100804020100e3fe38,
    0x04020100804020703ffc0,
    0x08040201008040703ffc0,
    0x10080402010080703ffc0,
    0x00100804020100ffc0e07,
    0x002010080402017fc0e07,
    0x004020100804027fc0e07,
    0x008040201008047fc7038,
    0x010080402010087fc7038,
    0x020100804020107fc7038,
    0x040201008040207ff81c0,
    0x080402010080407ff81c0,
    0x100804020100807ff81c0,
    0x001008040e07ff8040201,
    0x002010080e07ff8080402,
    0x004020100e07ff8100804,
    0x008040207038ff8201008,
    0x010080407038ff8402010,
    0x020100807038ff8804020,
    0x0402010381c0ff9008040,
    0x0804020381c0ffa010080,
    0x1008040381c0ffc020100,
    0x001008040fff038040201,
    0x002010080fff038080402,
    0x004020100fff038100804,
    0x0080402071ff1c0201008,
    0x0100804071ff1c0402010,
    0x0201008071ff1c0804020,
    0x0402010381ffe01008040,
    0x0804020381ffe02010080,
    0x1008040381ffe04020100,
    0x00100807fe07038040201,
    0x0020100bfe07038080402,
    0x00402013fe07038100804,
    0x00804023fe381c0201008,
    0x01008043fe381c0402010,
    0x02010083fe381c0804020,
    0x04020103ffc0e01008040,
    0x08040203ffc0e02010080,
    0x10080403ffc0e04020100,
    0x00703ffc0201008040201,
    0x00703ffc0402010080402,
    0x00703ffc0804020100804,
    0x0381c7fc1008040201008,
    0x0381c7fc2010080402010,
    0x0381c7fc4020100804020,
    0x1c0e07fc8040201008040,
    0x1c0e07fd0080402010080,
    0x1c0e07fe0100804020100,
    0x007ff81c0201008040201,
    0x007ff81c0402010080402,
    0x007ff81c0804020100804,
    0x038ff8e01008040201008,
    0x038ff8e02010080402010,
    0x038ff8e04020100804020,
    0x1c0fff008040201008040,
    0x1c0fff010080402010080,
    0x1c0fff020100804020100,
    0x1ff0381c0201008040201,
    0x1ff0381c0402010080402,
    0x1ff0381c0804020100804,
    0x1ff1c0e01008040201008,
    0x1ff1c0e02010080402010,
    0x1ff1c0e04020100804020,
    0x1ffe07008040201008040,
    0x1ffe07010080402010080,
    0x1ffe07020100804020100,
];

/// The cells that share a row, a column or a box with this one, which is one of them.
#[inline]
pub fn sharing<const M: usize>(cell: usize) -> u128
    requires low { 2 ≤ M }
    requires high { M ≤ 3 }
    requires cell { cell < size M }
    ensures { (k : ℕ) → has result k ≡ (nat_lt k (size M) && shares M k cell) }
{
    if M == 2 {
        SHARING_FOUR[cell]
    } else {
        SHARING_NINE[cell]
    }
}

/// The first cell of a plane.
#[inline]
pub fn first_of(plane: u128) -> usize
    requires { 0 < plane }
    ensures few { result < 128 }
    ensures there { has plane result ≡ true }
    ensures first { (k : ℕ) → k < result → has plane k ≡ false }
{
    plane.trailing_zeros() as usize
}

/// The cells of a plane that are not in another.
#[inline]
pub fn less(plane: u128, other: u128) -> u128
    ensures { (k : ℕ) → has result k ≡ (has plane k && not (has other k)) }
{
    plane & !other
}

/// The cells that more than 0, more than 1 and more than 2 of some planes have.
#[derive(Clone, Copy)]
pub struct Levels {
    pub one: u128,
    pub two: u128,
    pub three: u128,
}

impl Levels {
    /// The levels of these planes.
    #[inline]
    pub fn of(planes: &[u128]) -> Levels
        ensures { AreLevels planes.now (length planes.now) result }
    {
        let mut levels = Levels {
            one: 0,
            two: 0,
            three: 0,
        };
        for &plane in planes {
            levels = levels.with(plane);
        }
        levels
    }

    // The levels with one more plane.
    #[inline]
    fn with(self, plane: u128) -> Levels
        ensures { (planes : List ℕ) (n : ℕ) → slice_index planes n ≡ plane →
            AreLevels planes n self → AreLevels planes (n + 1) result }
    {
        Levels {
            one: self.one | plane,
            two: self.two | self.one & plane,
            three: self.three | self.two & plane,
        }
    }
}

/// For each number `n` below that of the planes, the cells that more than `n` of them have.
pub fn all_levels<const SIDE: usize>(planes: &[u128; SIDE]) -> [u128; SIDE]
    ensures { (n k : ℕ) → n < SIDE → has (slice_index result n) k ≡ nat_lt n (many planes.now SIDE k) }
{
    let mut levels = [0; SIDE];
    for &plane in planes {
        add_plane(&mut levels, plane);
    }
    levels
}

// Adds one more plane to levels.
fn add_plane(levels: &mut [u128], plane: u128)
    ensures { (count : ℕ → ℕ) →
        ((n k : ℕ) → n < length levels.old → has (slice_index levels.old n) k ≡ nat_lt n (count k)) →
        (n k : ℕ) → n < length levels.old →
        has (slice_index levels.new n) k ≡ nat_lt n (count k + (if has plane k then 1 else 0)) }
{
    let mut carry = plane;
    for n in 0..levels.len() {
        let level = levels[n];
        levels[n] = level | carry;
        carry &= level;
    }
}
