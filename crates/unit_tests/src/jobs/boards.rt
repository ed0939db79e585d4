//! Tests of values that were found by hand or are known.

use std::alloc::Global;
use std::process::Abort;
use std::test::Fail;
use sudoku_rules::{Grid, GridFault, expand, in_text_order, parse_grid};

// Of side 4: a full grid, and a puzzle with two solutions, which differ in four cells. That grid is one of them.
const SMALL: &str = "1234341221434321";

const SMALL_TWO: &str = ".2.4.4.221434321";

const SMALL_OTHER: &str = "3214143221434321";

// Of side 9: a puzzle with one solution, and one with two, which differ in four cells. That one is the first of them.
const ONE: &str =
    "530070000600195000098000060800060003400803001700020006060000280000419005000080079";

const TWO: &str =
    "534678912672195348198342567859760420426850790713924856961537284287419635345286179";

const FULL: &str =
    "534678912672195348198342567859761423426853791713924856961537284287419635345286179";

const OTHER: &str =
    "534678912672195348198342567859763421426851793713924856961537284287419635345286179";

const EMPTY: &str =
    ".................................................................................";

const BLANK: &str =
    "000000000000000000000000000000000000000000000000000000000000000000000000000000000";

// Of side 16: a full grid, and the same without its first row.
const WIDE: &str = "123456789ABCDEFG56789ABCDEFG12349ABCDEFG12345678DEFG123456789ABC\
                    23456789ABCDEFG16789ABCDEFG12345ABCDEFG123456789EFG123456789ABCD\
                    3456789ABCDEFG12789ABCDEFG123456BCDEFG123456789AFG123456789ABCDE\
                    456789ABCDEFG12389ABCDEFG1234567CDEFG123456789ABG123456789ABCDEF";

const WIDE_ONE: &str = "000000000000000056789ABCDEFG12349ABCDEFG12345678DEFG123456789ABC\
                        23456789ABCDEFG16789ABCDEFG12345ABCDEFG123456789EFG123456789ABCD\
                        3456789ABCDEFG12789ABCDEFG123456BCDEFG123456789AFG123456789ABCDE\
                        456789ABCDEFG12389ABCDEFG1234567CDEFG123456789ABG123456789ABCDEF";

const LETTER: &[u8] =
    b"0000000A0.......0................................................................";

const SLASH: &[u8] =
    b"................................................................................/";

// Blank cells of side 16 but for the last, and but for the tenth.
const LAST: &[u8] = b"0000000000000000000000000000000000000000000000000000000000000000\
    0000000000000000000000000000000000000000000000000000000000000000\
    0000000000000000000000000000000000000000000000000000000000000000\
    000000000000000000000000000000000000000000000000000000000000000H";

const TENTH: &[u8] = b"000000000a000000000000000000000000000000000000000000000000000000\
    0000000000000000000000000000000000000000000000000000000000000000\
    0000000000000000000000000000000000000000000000000000000000000000\
    0000000000000000000000000000000000000000000000000000000000000000";

const TEXTS: &[(&[u8], GridFault)] = &[
    (b"", GridFault::Length { got: 0 }),
    (b"ABCD", GridFault::Length { got: 4 }),
    (&[b'.'; 80], GridFault::Length { got: 80 }),
    (&[b'1'; 100], GridFault::Length { got: 100 }),
    (&[b'.'; 257], GridFault::Length { got: 257 }),
    (b"5...............", GridFault::Character { place: 0 }),
    (b"4.......-......5", GridFault::Character { place: 8 }),
    (LETTER, GridFault::Character { place: 7 }),
    (SLASH, GridFault::Character { place: 80 }),
    (LAST, GridFault::Character { place: 255 }),
    (TENTH, GridFault::Character { place: 9 }),
];

#[test]
fn refuses_texts(rt: HostRuntime) -> Result<(), Fail> {
    for (text, fault) in TEXTS {
        assert_eq!(rt; refusal(text), Some(*fault));
    }
    Ok(())
}

fn refusal(text: &[u8]) -> Option<GridFault> {
    parse_grid(text).err()
}

// The fault is said so.
fn is_said(alloc: Global, fault: GridFault, text: &str) -> Result<bool, Fail> {
    let said = format!(in alloc; "{fault}")?;
    Ok(said.as_str() == text)
}

const SAID: &[(GridFault, &str)] = &[
    (
        GridFault::Length { got: 80 },
        "80 bytes in place of 16, 81 or 256",
    ),
    (
        GridFault::Character { place: 7 },
        "byte 7 is neither a dot nor the sign of a digit up to the side",
    ),
];

#[test]
fn says_why(rt: HostRuntime) -> Result<(), Fail> {
    for (fault, text) in SAID {
        assert!(rt; is_said(rt.alloc(), *fault, text)?, "{text}");
    }
    Ok(())
}

/// A text, the grid that is read of it, how many of its cells are filled, and whether two of them conflict.
const READ: &[(&str, &str, u32, bool)] = &[
    (SMALL, SMALL, 16, false),
    (SMALL_TWO, "0204040221434321", 12, false),
    ("1....1..........", "1000010000000000", 2, true),
    (FULL, FULL, 81, false),
    (ONE, ONE, 30, false),
    (EMPTY, BLANK, 0, false),
    (WIDE, WIDE, 256, false),
    (WIDE_ONE, WIDE_ONE, 240, false),
];

// The text is read so.
fn is_read(text: &str, written: &str, filled: u32, conflict: bool) -> Result<bool, Fail> {
    let grid = parse_grid(text.as_bytes())?;
    Ok(
        grid.text().as_slice() == written.as_bytes()
            && grid.filled() == filled
            && grid.conflict() == conflict,
    )
}

#[test]
fn reads_cells(rt: HostRuntime) -> Result<(), Fail> {
    for (text, written, filled, conflict) in READ {
        assert!(rt; is_read(text, written, *filled, *conflict)?, "{text}");
    }
    Ok(())
}

const CANDIDATES: &[(&str, u32, u16)] = &[
    (SMALL_TWO, 6, 0b101),
    (ONE, 2, 0b1011),
    (EMPTY, 80, 0x1ff),
    (WIDE_ONE, 0, 1),
    (WIDE_ONE, 15, 1 << 15),
];

#[test]
fn finds_candidates(rt: HostRuntime) -> Result<(), Fail> {
    for (text, cell, candidates) in CANDIDATES {
        assert_eq!(rt; candidates_of(&rt, text, *cell)?, *candidates, "{text}");
    }
    Ok(())
}

fn candidates_of(rt: &impl Abort, text: &str, cell: u32) -> Result<u16, Fail> {
    let grid = parse_grid(text.as_bytes())?;
    let cells = grid.cells();
    assert!(rt; (cell as usize) < cells.len());
    assert_eq!(rt; cells[cell as usize], 0);
    Ok(grid.candidates(cell))
}

// A budget, a grid, and what the expansion with the grain 65536 meets: solutions, children with their budgets,
// and whether a node is over.
type Row = (
    u64,
    &'static str,
    &'static [&'static str],
    &'static [(u64, &'static str)],
    bool,
);

const SMALL_CHILDREN: &[(u64, &str)] = &[
    (8388607, "1204040221434321"),
    (8388607, "3204040221434321"),
];

const CHILDREN: &[(u64, &str)] = &[
    (
        8388607,
        "534678912672195348198342567859761420426850790713924856961537284287419635345286179",
    ),
    (
        8388607,
        "534678912672195348198342567859763420426850790713924856961537284287419635345286179",
    ),
];

const ROWS: &[Row] = &[
    (0, SMALL, &[SMALL], &[], false),
    (16777216, SMALL_TWO, &[], SMALL_CHILDREN, false),
    (65536, SMALL_TWO, &[SMALL, SMALL_OTHER], &[], false),
    (6, SMALL_TWO, &[], &[], true),
    (9, "1....1..........", &[], &[], false),
    (16777216, ONE, &[FULL], &[], false),
    (16777216, TWO, &[], CHILDREN, false),
    (65536, TWO, &[FULL, OTHER], &[], false),
    (1, TWO, &[], &[], true),
    (100, EMPTY, &[], &[], true),
    (0, WIDE, &[WIDE], &[], false),
    (16, WIDE_ONE, &[WIDE], &[], false),
    (15, WIDE_ONE, &[], &[], true),
];

#[test]
fn expands(rt: HostRuntime) -> Result<(), Fail> {
    for row in ROWS {
        assert!(rt; is_expanded(rt.alloc(), row)?, "{} by {}", row.1, row.0);
    }
    Ok(())
}

fn is_expanded(alloc: Global, row: &Row) -> Result<bool, Fail> {
    let (budget, text, solutions, children, over) = *row;
    let grid = parse_grid(text.as_bytes())?;
    let mut met = expand(alloc, budget, &grid, 65536)?;
    in_text_order(&mut met.solutions)?;
    Ok(
        met.over == over
            && has_solutions(&met.solutions, solutions)
            && has_children(&met.children, children),
    )
}

fn has_solutions(found: &[Grid], texts: &[&str]) -> bool {
    found.len() == texts.len()
        && found
            .iter()
            .zip(texts)
            .all(|(grid, text)| is_of(grid, text))
}

fn is_of(grid: &Grid, text: &str) -> bool {
    grid.text().as_slice() == text.as_bytes()
}

fn has_children(found: &[(u64, Grid)], children: &[(u64, &str)]) -> bool {
    found.len() == children.len()
        && found.iter().zip(children).all(|(child, wanted)| child.0 == wanted.0
            && is_of(&child.1, wanted.1))
}

// How many full grids of side 4 there are is known.
#[test]
fn finds_all_small_grids(rt: HostRuntime) -> Result<(), Fail> {
    let grid = parse_grid(&[b'.'; 16])?;
    let met = expand(rt.alloc(), 1 << 40, &grid, 1 << 40)?;
    assert_eq!(rt; met.solutions.len(), 288);
    Ok(())
}
