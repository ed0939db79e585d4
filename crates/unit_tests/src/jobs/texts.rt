//! Inputs, and what is read of them.

use adlb_unit::Payload;
use job_text::{Item, Job, read_jobs};
use std::alloc::Global;
use std::fmt::Write;
use std::process::Abort;
use std::test::Fail;

/// The jobs of an input in words, or why it is refused.
fn told(alloc: Global, input: &[u8]) -> Result<String, Fail> {
    let mut words = String::new(alloc);
    if input.len() > 1 << 24 {
        words.push_str("more than the limit")?;
        return Ok(words);
    }
    match read_jobs(alloc, input) {
        Ok(jobs) => add_jobs(&mut words, jobs.as_slice())?,
        Err(fault) => write!(words, "{fault}")?,
    }
    Ok(words)
}

/// Each puzzle by its text, and each batch by its bytes and its items.
fn add_jobs(words: &mut String, jobs: &[Job]) -> Result<(), Fail> {
    for job in jobs {
        match job {
            Job::Puzzle(grid) => add_bytes(words, "puzzle ", grid.grid().text().as_slice())?,
            Job::Batch { common, items } => add_batch(words, common.payload(), items.as_slice())?,
        }
    }
    Ok(())
}

fn add_batch(words: &mut String, common: &Payload, items: &[Item]) -> Result<(), Fail> {
    add_bytes(words, "batch ", common.bytes())?;
    for item in items {
        match item {
            Item::Count { lo, hi } => write!(words, "count {lo} {hi}; ")?,
            Item::Sum => words.push_str("sum; ")?,
            Item::Max => words.push_str("max; ")?,
        }
    }
    Ok(())
}

/// A name and the bytes, each as the character of its number.
fn add_bytes(words: &mut String, name: &str, bytes: &[u8]) -> Result<(), Fail> {
    words.push_str(name)?;
    for byte in bytes {
        words.push(char::from(*byte))?;
    }
    words.push_str("; ")?;
    Ok(())
}

/// The input is read as told.
fn is_told(alloc: Global, input: &[u8], expected: &str) -> Result<bool, Fail> {
    let words = told(alloc, input)?;
    Ok(words.as_str() == expected)
}

/// Each input is read as told.
fn check(rt: &impl Abort, alloc: Global, rows: &[(&[u8], &str)]) -> Result<(), Fail> {
    for (input, expected) in rows {
        assert!(rt; is_told(alloc, input, expected)?, "{expected}");
    }
    Ok(())
}

const SMALL: &str = "puzzle 1234341221434321; ";

const LINES: &[(&[u8], &str)] = &[
    (b"", ""),
    (b"\r", ""),
    (b"\n\r\n\r", ""),
    (b"\r\r", "line 1: word"),
    (b"1234341221434321", SMALL),
    (b"# x\r\n\r\n1234341221434321\r\n", SMALL),
    (b"1234341221434321\r", SMALL),
    (b"1234341221434321\n\0", "line 2: word"),
    (b"batch \0\r\r\nsum\r\n", "batch \0\r; sum; "),
];

const PUZZLES: &[(&[u8], &str)] = &[
    (b".2.4.4.221434321 remark", "puzzle 0204040221434321; "),
    (b"1234341221434321\tremark", SMALL),
    (NINE, NINE_READ),
    (SIXTEEN, SIXTEEN_READ),
    (b"ABCD", "line 1: length"),
    (b"5...............", "line 1: character"),
    (b"x234341221434321", "line 1: word"),
    (b"1x34341221434321", "line 1: character"),
    (b" 1234341221434321", "line 1: word"),
];

const BATCHES: &[(&[u8], &str)] = &[
    (
        b"batch abcabc\ncount 97 98\n\n# x\nsum\nmax\nbatch\nmax",
        "batch abcabc; count 97 98; sum; max; batch ; max; ",
    ),
    (b"batch  a b \nbatch xyz", "batch  a b ; batch xyz; "),
    (
        b"batch a\ncount 5 4\ncount 0 255",
        "batch a; count 5 4; count 0 255; ",
    ),
    (b"sum", "line 1: item"),
    (b"count", "line 1: item"),
    (b"batch a\n1234341221434321\nmax", "line 3: item"),
    (b"batchx", "line 1: word"),
    (b"sums", "line 1: word"),
];

const NUMBERS: &[(&[u8], &str)] = &[
    (b"batch a\ncount 256 1", "line 2: number"),
    (b"batch a\ncount 01 2", "line 2: number"),
    (b"batch a\ncount 1 +2", "line 2: number"),
    (b"batch a\ncount 1  2", "line 2: number"),
    (b"batch a\ncount 1 2 ", "line 2: number"),
    (b"batch a\ncount 1", "line 2: number"),
    (b"batch a\ncount", "line 2: number"),
    (b"batch a\nsum x", "line 2: number"),
    (b"batch a\nmax ", "line 2: number"),
];

#[test]
fn cuts_lines(rt: HostRuntime) -> Result<(), Fail> {
    check(&rt, rt.alloc(), LINES)
}

#[test]
fn reads_puzzles_of_three_sides(rt: HostRuntime) -> Result<(), Fail> {
    check(&rt, rt.alloc(), PUZZLES)
}

#[test]
fn reads_batches(rt: HostRuntime) -> Result<(), Fail> {
    check(&rt, rt.alloc(), BATCHES)
}

#[test]
fn refuses_numbers(rt: HostRuntime) -> Result<(), Fail> {
    check(&rt, rt.alloc(), NUMBERS)
}

/// A comment of this length is read as expected.
fn is_comment(alloc: Global, count: usize, expected: &str) -> Result<bool, Fail> {
    let line = vec![in alloc; b'#'; count]?;
    is_told(alloc, line.as_slice(), expected)
}

#[test]
fn refuses_lines_past_the_limit(rt: HostRuntime) -> Result<(), Fail> {
    assert!(rt; is_comment(rt.alloc(), 1 << 20, "")?);
    assert!(rt; is_comment(rt.alloc(), (1 << 20) + 1, "line 1: long")?);
    Ok(())
}

const NINE: &[u8] =
    b"530070000600195000098000060800060003400803001700020006060000280000419005000080079";

const NINE_READ: &str =
    "puzzle 530070000600195000098000060800060003400803001700020006060000280000419005000080079; ";

const SIXTEEN: &[u8] = b"................56789ABCDEFG12349ABCDEFG12345678DEFG123456789ABC\
23456789ABCDEFG16789ABCDEFG12345ABCDEFG123456789EFG123456789ABCD\
3456789ABCDEFG12789ABCDEFG123456BCDEFG123456789AFG123456789ABCDE\
456789ABCDEFG12389ABCDEFG1234567CDEFG123456789ABG123456789ABCDEF";

const SIXTEEN_READ: &str = "puzzle 000000000000000056789ABCDEFG12349ABCDEFG12345678DEFG123456789ABC\
23456789ABCDEFG16789ABCDEFG12345ABCDEFG123456789EFG123456789ABCD\
3456789ABCDEFG12789ABCDEFG123456BCDEFG123456789AFG123456789ABCDE\
456789ABCDEFG12389ABCDEFG1234567CDEFG123456789ABG123456789ABCDEF; ";
