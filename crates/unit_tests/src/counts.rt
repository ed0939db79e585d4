//! The counts of a ledger, as they follow a text.

use ledger_file::read_ledger;
use ledger_stats::append_stats;
use packed_ledger::Ledger;
use std::alloc::Global;
use std::fmt::Write;
use std::test::Fail;

/// The entries that are counted: accepted, refused, rejected, granted and arrived.
const COUNTED: &[&str] = &[
    "accepted 0 0.0\n",
    "refused 0 0.0 0\n",
    "rejected 0 0\n",
    "granted 0 0 0 0.0\n",
    "arrived 0 0.0\n",
];

/// Each other entry: those by which a rank begins a call, and the rest.
const OTHERS: &str = "\
    putting 0 0 0 0 any none 6162\n\
    keeping 0 0 63\n\
    closing 0 0\n\
    asked 0 0 any\n\
    tried 0 0 any\n\
    fetching 0 0 0.0\n\
    counting 0 0 0\n\
    done 0 0\n\
    finished 0 0\n\
    kept 0 0.1\n\
    closed 0 0.1\n\
    freed 0 0.1\n\
    looked 0 0 0\n\
    nocurrent 0 0\n\
    fetched 0 0 0.0\n\
    commonfetched 0 0 0.1\n\
    promised 0 0.0 2\n\
    left 0 1 0.0\n\
    withdrawn 0 0.0\n\
    counted 0 0 0 0 none 0\n\
    exhausted\n\
    over 0 0 exhausted\n";

fn add_times(text: &mut String, line: &str, times: u32) -> Result<(), Fail> {
    for _ in 0..times {
        text.push_str(line)?;
    }
    Ok(())
}

// Adds each entry that is counted, as often as `times` has it.
fn add_counted(text: &mut String, times: &[u32; 5]) -> Result<(), Fail> {
    for (line, count) in COUNTED.iter().zip(times) {
        add_times(text, line, *count)?;
    }
    Ok(())
}

// Adds each entry `each` times, and those that are counted as often as `more` has it besides.
fn add_all(text: &mut String, each: u32, more: &[u32; 5]) -> Result<(), Fail> {
    add_times(text, OTHERS, each)?;
    add_counted(text, &[each; 5])?;
    add_counted(text, more)
}

// The text of a ledger with those entries.
fn ledger_text(alloc: Global, each: u32, more: &[u32; 5]) -> Result<String, Fail> {
    let mut text = String::from_str(alloc, "ledger 1 2 64\n")?;
    add_all(&mut text, each, more)?;
    let entries = text.lines().count().saturating_sub(1);
    write!(text, "end {entries}\n")?;
    Ok(text)
}

/// `each`, `more` and `left` of a ledger, and the text.
type Row = (u32, [u32; 5], u64, &'static str);

// A line, and after it the counts of a ledger that has each entry `each` times, and those that are counted as often as
// `more` has it besides.
fn is_text(alloc: Global, (each, more, left, expected): &Row) -> Result<bool, Fail> {
    let text = ledger_text(alloc, *each, more)?;
    let (_, ledger) = read_ledger(alloc, text.as_bytes())?;
    is_counted(alloc, &ledger, *left, expected)
}

fn is_counted(alloc: Global, ledger: &Ledger, left: u64, expected: &str) -> Result<bool, Fail> {
    let mut text = b"answer 0\n".to_vec(alloc)?;
    append_stats(alloc, &mut text, ledger, left)?;
    Ok(text.as_slice() == expected.as_bytes())
}

const ROWS: &[Row] = &[
    (
        0,
        [0; 5],
        0,
        "answer 0\nstats\naccepted 0\nrefused 0\nrejected 0\ngranted 0\npushed 0\nleft 0\n",
    ),
    (
        1,
        [0; 5],
        7,
        "answer 0\nstats\naccepted 1\nrefused 1\nrejected 1\ngranted 1\npushed 1\nleft 7\n",
    ),
    (
        2,
        [0; 5],
        0,
        "answer 0\nstats\naccepted 2\nrefused 2\nrejected 2\ngranted 2\npushed 2\nleft 0\n",
    ),
    (
        1,
        [10, 4, 1, 9, 2],
        18446744073709551615,
        "answer 0\nstats\naccepted 11\nrefused 5\nrejected 2\ngranted 10\npushed 3\nleft 18446744073709551615\n",
    ),
];

#[test]
fn counts_stand_behind_the_text(rt: HostRuntime) -> Result<(), Fail> {
    for row in ROWS {
        assert!(rt; is_text(rt.alloc(), row)?, "{}", row.3);
    }
    Ok(())
}
