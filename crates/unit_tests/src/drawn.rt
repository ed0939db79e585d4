//! Ledgers that are drawn, texts that are refused, and faults outside.

use adlb_io::{MemorySink, MemorySource, SteadySink, SteadySource};
use draw_command::draw_ledger;
use ledger_command::CheckFault;
use std::alloc::Global;
use std::test::Fail;

// The text is the whole text of an element, and has each of these pieces.
fn has_all(text: &[u8], pieces: &[&str]) -> bool {
    match str::from_utf8(text) {
        Ok(text) => {
            text.ends_with("</svg>\n") && pieces.iter().all(|piece| text.contains(*piece))
        }
        Err(_) => false,
    }
}

// The picture of the ledger of this text begins so, and has these pieces.
fn is_drawn(alloc: Global, bytes: &[u8], front: &str, pieces: &[&str]) -> Result<bool, Fail> {
    let mut input = SteadySource::new(bytes.to_vec(alloc)?);
    let mut output = SteadySink::new(alloc);
    let drawn = draw_ledger(alloc, &mut input, &mut output);
    let text = output.taken();
    Ok(drawn.is_ok() && text.starts_with(front.as_bytes()) && has_all(text, pieces))
}

/// The text of a ledger, how its picture begins, and what it has.
struct Row {
    text: &'static [u8],
    front: &'static str,
    pieces: &'static [&'static str],
}

const ROWS: &[Row] = &[
    Row {
        text: b"ledger 2 1 64\nend 0\n",
        front: "<svg xmlns='http://www.w3.org/2000/svg' data-ranks='2' data-servers='1' data-entries='0' class",
        pieces: &[
            "<text x='8' y='104'>rank 0</text>\n<text x='8' y='128'>rank 1</text>\n<text x='8' y='180'>server 0</text>\n",
            "a legal run",
        ],
    },
    Row {
        text: b"ledger 2 1 64\nputting 0 0 1 0 any none 6162\naccepted 0 0.0\nasked 0 1 any\ngranted 0 0 1 0.0\nasked 1 0 any\nend 5\n",
        front: "<svg xmlns='http://www.w3.org/2000/svg' data-ranks='2' data-servers='1' data-entries='5' class",
        pieces: &[
            "<title>calls, entries 0 to 1</title>",
            "<title>waits, entry 2</title>",
            "<title>works unit 0.0 of type 1, entries 3 to 4</title>",
            "<title>waits, entry 4</title>",
            "<title>the limit, 64 bytes</title>",
        ],
    },
    Row {
        text: b"ledger 2 1 64\nputting 0 0 1 0 any none 6162\naccepted 0 0.0\nasked 0 1 any\ngranted 0 0 1 0.0\nasked 1 0 any\ngranted 0 1 0 0.0\nend 6\n",
        front: "<svg xmlns='http://www.w3.org/2000/svg' data-ranks='2' data-servers='1' data-entries='6' data-illegal='5' class",
        pieces: &[
            "drawn up to the first illegal one, 5",
            ">entry 5 is illegal: granted 0 1 0 0.0: unit 0.0 is not free at server 0</text>",
        ],
    },
    Row {
        text: b"ledger 1 2 64\nputting 0 0 2 0 any none 6162\naccepted 0 0.0\npromised 1 0.0 2\nleft 0 1 0.0\narrived 1 0.0\nend 5\n",
        front: "<svg xmlns='http://www.w3.org/2000/svg' data-ranks='1' data-servers='2' data-entries='5' class",
        pieces: &["<title>unit 0.0 from server 0 to server 1, entries 3 to 4</title>"],
    },
    Row {
        text: b"ledger 1 1 64\ndone 0 0\nasked 0 1 any\nover 0 1 nomore\nfinished 0 2\nend 4\n",
        front: "<svg xmlns='http://www.w3.org/2000/svg' data-ranks='1' data-servers='1' data-entries='4' class",
        pieces: &[
            "<title>the problem is done, entry 0</title>",
            "<title>told an end, entry 2</title>",
            "<title>finished, entry 3</title>",
        ],
    },
    Row {
        text: b"ledger 1 1 64\nasked 0 0 any\nexhausted\nover 0 0 exhausted\nend 3\n",
        front: "<svg xmlns='http://www.w3.org/2000/svg' data-ranks='1' data-servers='1' data-entries='3' class",
        pieces: &["<title>all work is used up, entry 1</title>"],
    },
];

#[test]
fn draws_each_ledger(rt: HostRuntime) -> Result<(), Fail> {
    for row in ROWS {
        assert!(rt;
            is_drawn(rt.alloc(), row.text, row.front, row.pieces)?,
            "{}",
            row.front
        );
    }
    Ok(())
}

// The text of a ledger of one rank that tries to reserve this number of times.
fn tries(alloc: Global, count: u64) -> Result<String, Fail> {
    let mut text = String::from_str(alloc, "ledger 1 1 64\n")?;
    for call in 0..count {
        let entry = format!(in alloc;
            "tried 0 {call} any\nlooked 0 0 {call}\nnocurrent 0 {call}\n"
        )?;
        text.push_str(entry.as_str())?;
    }
    let end = format!(in alloc; "end {}\n", count.saturating_mul(3))?;
    text.push_str(end.as_str())?;
    Ok(text)
}

// How many bars of waiting a picture has.
fn waits(text: &[u8]) -> usize {
    match str::from_utf8(text) {
        Ok(text) => text.matches("<path class=\"w\"").count(),
        Err(_) => 0,
    }
}

// A long ledger is drawn in at most 4,000 columns, with less than 2 MB.
fn stays_small(alloc: Global) -> Result<bool, Fail> {
    let text = tries(alloc, 10_000)?;
    let mut input = SteadySource::new(text.as_bytes().to_vec(alloc)?);
    let mut output = SteadySink::new(alloc);
    let drawn = draw_ledger(alloc, &mut input, &mut output);
    let text = output.taken();
    let bars = waits(text);
    Ok(drawn.is_ok() && text.len() < 2_000_000 && 1_000 < bars && bars <= 4_001)
}

#[test]
fn draws_a_long_ledger_in_columns(rt: HostRuntime) -> Result<(), Fail> {
    assert!(rt; stays_small(rt.alloc())?);
    Ok(())
}

/// An empty ledger.
const EMPTY: &[u8] = b"ledger 1 1 64\nend 0\n";

// The drawing of these bytes, with a source and a sink of which the calls of these numbers fail, ends so, and this much is written.
fn ends_so(
    alloc: Global,
    bytes: &[u8],
    (read, write): (u64, u64),
    wanted: Option<CheckFault>,
    front: &str,
) -> Result<bool, Fail> {
    let mut input = MemorySource::new(bytes.to_vec(alloc)?, 50, [read].to_vec(alloc)?);
    let mut output = MemorySink::new(alloc, 4, [write].to_vec(alloc)?);
    let drawn = draw_ledger(alloc, &mut input, &mut output);
    Ok(drawn.err() == wanted && output.taken() == front.as_bytes())
}

#[test]
fn tells_why_nothing_is_drawn(rt: HostRuntime) -> Result<(), Fail> {
    let rows = [
        (EMPTY, (1, 0), CheckFault::Read, ""),
        (EMPTY, (0, 2), CheckFault::Write, "<svg"),
        (
            b"ledger 1 1 64\n".as_slice(),
            (0, 0),
            CheckFault::Entry { line: 2 },
            "",
        ),
    ];
    for (bytes, fails, fault, front) in rows {
        assert!(rt;
            ends_so(rt.alloc(), bytes, fails, Some(fault), front)?,
            "{fault:?}"
        );
    }
    Ok(())
}
