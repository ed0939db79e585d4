//! Puzzles of side 4 and 16, and texts that are of no side.

use crate::rows::{Row, Shows, show};
use crate::tables::WAYS;
use std::test::Fail;

/// The grid of side 16 whose number in row `r` and column `c`, from 0, is `(4 * (r mod 4) + r div 4 + c) mod 16 + 1`.
const WIDE: &str = "123456789ABCDEFG56789ABCDEFG12349ABCDEFG12345678DEFG123456789ABC\
    23456789ABCDEFG16789ABCDEFG12345ABCDEFG123456789EFG123456789ABCD\
    3456789ABCDEFG12789ABCDEFG123456BCDEFG123456789AFG123456789ABCDE\
    456789ABCDEFG12389ABCDEFG1234567CDEFG123456789ABG123456789ABCDEF";

/// Its first row blank, and the others.
const NO_ROW: &str = "................";

const OTHER_ROWS: &str = "56789ABCDEFG12349ABCDEFG12345678DEFG123456789ABC\
    23456789ABCDEFG16789ABCDEFG12345ABCDEFG123456789EFG123456789ABCD\
    3456789ABCDEFG12789ABCDEFG123456BCDEFG123456789AFG123456789ABCDE\
    456789ABCDEFG12389ABCDEFG1234567CDEFG123456789ABG123456789ABCDEF";

const ONE_SMALL: &str = "puzzle 1 solutions 1\n1234341221434321\n\
    totals\nboard 1\nsolution 1\njob 0\nanswer 0\n";

const TWO_SMALL: &str = "puzzle 1 solutions 2\n1234341221434321\n3214143221434321\n\
    totals\nboard 3\nsolution 2\njob 0\nanswer 0\n";

const ONE_WIDE: &str = "puzzle 1 solutions 1\n\
    123456789ABCDEFG56789ABCDEFG12349ABCDEFG12345678DEFG123456789ABC\
    23456789ABCDEFG16789ABCDEFG12345ABCDEFG123456789EFG123456789ABCD\
    3456789ABCDEFG12789ABCDEFG123456BCDEFG123456789AFG123456789ABCDE\
    456789ABCDEFG12389ABCDEFG1234567CDEFG123456789ABG123456789ABCDEF\n\
    totals\nboard 1\nsolution 1\njob 0\nanswer 0\n";

const TEN: &str = "1234567890";

const SIDES: &[Row] = &[
    (WAYS, &["1234341221434321"], Shows::Is(ONE_SMALL)),
    (WAYS, &[".2.4.4.221434321"], Shows::Is(TWO_SMALL)),
    (
        WAYS,
        &["5..............."],
        Shows::Refused(1, "line 1: character"),
    ),
    (WAYS, &["ABCD"], Shows::Refused(1, "line 1: length")),
    (
        WAYS,
        &[TEN, TEN, TEN, TEN, TEN, TEN, TEN, TEN, TEN, TEN],
        Shows::Refused(1, "line 1: length"),
    ),
    (WAYS, &[NO_ROW, OTHER_ROWS], Shows::Is(ONE_WIDE)),
    (WAYS, &[WIDE], Shows::Is(ONE_WIDE)),
];

#[test]
fn solves_puzzles_of_side_4_and_16(rt: HostRuntime) -> Result<(), Fail> {
    show(rt, rt.alloc(), SIDES)
}
