//! Reads and writes that fail, and inputs that are too long.

use crate::rows::Shows;
use crate::runs::{run_between, run_gated};
use crate::tables::{FORCED, FORCED_SOLVED, NOTHING, TWO, TWO_SOLVED};
use adlb_io::{FreeGate, MemorySink, MemorySource, RealThreads, Spawner};
use std::alloc::Global;
use std::test::Fail;

/// The calls of a source or of a sink: how many bytes each takes at most, and the number of the one that fails.
type Calls = (usize, u64);

/// The number of a call that no run comes to.
const NEVER: u64 = 1000;

/// Which calls fail, and how many bytes each of them takes at most.
#[derive(Clone, Copy)]
enum Fails {
    Read(usize),
    Write(usize),
}

impl Fails {
    // The calls of the source and of the sink where the one of this number fails.
    fn calls(self, call: u64) -> (Calls, Calls) {
        match self {
            Fails::Read(most) => ((most, call), (1000, NEVER)),
            Fails::Write(most) => ((100, NEVER), (most, call)),
        }
    }

    // A read that fails writes nothing; a write leaves so many bytes of the report, which is kept. It is whole if none fails.
    fn shows<'a>(self, report: &'a str, taken: Option<usize>) -> Shows<'a> {
        match (self, taken) {
            (Fails::Read(_), Some(_)) => Shows::Refused(3, "read failed"),
            (Fails::Write(_), Some(taken)) => Shows::Cut(report, taken),
            (_, None) => Shows::Is(report),
        }
    }
}

// A run on this puzzle, whose source and sink have these calls, shows this.
fn is_met<T: Spawner>(
    alloc: Global,
    threads: &mut T,
    (line, puzzle): (&str, &str),
    ((per_read, read), (per_write, write)): (Calls, Calls),
    shows: &Shows<'_>,
) -> Result<bool, Fail> {
    let bytes = puzzle.as_bytes().to_vec(alloc)?;
    let mut input = MemorySource::new(bytes, per_read.max(1), [read].to_vec(alloc)?);
    let mut output = MemorySink::new(alloc, per_write.max(1), [write].to_vec(alloc)?);
    let ran = run_between(alloc, threads, FreeGate {}, line, &mut input, &mut output)?;
    Ok(shows.is_of(&ran))
}

/// What fails; words, and a puzzle with its report; which calls fail, and the number of the first that does; how many bytes are
/// written where it fails, where the one after it does in its place, and so on. None: no run comes to that call.
type Scene = (
    &'static str,
    (&'static str, &'static str, &'static str),
    (Fails, u64),
    &'static [Option<usize>],
);

/// The report on the forced puzzle has 144 bytes, so it goes in 15 writes of 10 bytes at most; the flush is the call after them.
const ONCE: &[Scene] = &[
    // The read of the whole fails, or the second of those of 40 bytes.
    (
        "no read",
        ("solve", FORCED, FORCED_SOLVED),
        (Fails::Read(100), 1),
        &[Some(0)],
    ),
    (
        "a read",
        ("solve", FORCED, FORCED_SOLVED),
        (Fails::Read(40), 2),
        &[Some(0)],
    ),
    (
        "no write",
        ("solve", FORCED, FORCED_SOLVED),
        (Fails::Write(10), 1),
        &[Some(0)],
    ),
    (
        "a write",
        ("solve", FORCED, FORCED_SOLVED),
        (Fails::Write(10), 2),
        &[Some(10)],
    ),
    (
        "a write",
        ("solve --inline", FORCED, FORCED_SOLVED),
        (Fails::Write(10), 2),
        &[Some(10)],
    ),
    (
        "all but one",
        ("solve --inline", FORCED, FORCED_SOLVED),
        (Fails::Write(10), 15),
        &[Some(140)],
    ),
    (
        "no flush",
        ("solve", FORCED, FORCED_SOLVED),
        (Fails::Write(10), 16),
        &[Some(144)],
    ),
];

/// In line, and with threads.
const INLINE: (&str, &str, &str) = ("solve --inline", TWO, TWO_SOLVED);

const THREADED: (&str, &str, &str) = ("solve --ranks 2 --servers 2", TWO, TWO_SOLVED);

/// The puzzle with two solutions has 81 bytes: nine reads of 10 bytes at most, and one that finds the end.
const READS: &[Option<usize>] = &[
    Some(0),
    Some(0),
    Some(0),
    Some(0),
    Some(0),
    Some(0),
    Some(0),
    Some(0),
    Some(0),
    Some(0),
    None,
];

/// The report on the puzzle with two solutions has 226 bytes: 23 writes of 10 bytes at most, and then the flush.
const TAKEN: &[Option<usize>] = &[
    Some(0),
    Some(10),
    Some(20),
    Some(30),
    Some(40),
    Some(50),
    Some(60),
    Some(70),
    Some(80),
    Some(90),
    Some(100),
    Some(110),
    Some(120),
    Some(130),
    Some(140),
    Some(150),
    Some(160),
    Some(170),
    Some(180),
    Some(190),
    Some(200),
    Some(210),
    Some(220),
    Some(226),
    None,
];

const IN_TURN: &[Scene] = &[
    ("each read", INLINE, (Fails::Read(10), 1), READS),
    ("each read", THREADED, (Fails::Read(10), 1), READS),
    (
        "each write and the flush",
        INLINE,
        (Fails::Write(10), 1),
        TAKEN,
    ),
    (
        "each write and the flush",
        THREADED,
        (Fails::Write(10), 1),
        TAKEN,
    ),
    ("a byte a write", INLINE, (Fails::Write(1), NEVER), &[None]),
    (
        "a byte a write",
        THREADED,
        (Fails::Write(1), NEVER),
        &[None],
    ),
];

// Each call of the scene, where it fails, shows what it is to. It fails with the first that does not.
fn must_meet<T: Spawner>(
    alloc: Global,
    threads: &mut T,
    (what, (line, puzzle, report), (fails, first), taken): &Scene,
) -> Result<(), Fail> {
    let mut call = *first;
    for taken in *taken {
        let shows = fails.shows(report, *taken);
        if !is_met(alloc, threads, (line, puzzle), fails.calls(call), &shows)? {
            return Err((*what, *line, call).into());
        }
        call = call.saturating_add(1);
    }
    Ok(())
}

#[test]
fn a_call_that_fails_writes_nothing_or_the_front_of_the_report(
    rt: HostRuntime,
) -> Result<(), Fail> {
    let mut threads = RealThreads::new(rt);
    for scene in ONCE {
        must_meet(rt.alloc(), &mut threads, scene)?;
    }
    Ok(())
}

#[test]
fn each_call_in_turn_fails(rt: HostRuntime) -> Result<(), Fail> {
    let mut threads = RealThreads::new(rt);
    for scene in IN_TURN {
        must_meet(rt.alloc(), &mut threads, scene)?;
    }
    Ok(())
}

/// A byte, how many of them are an input, and what is shown.
type Long = (u8, usize, Shows<'static>);

// A run on an input of one byte, so many times, shows what it is to.
fn ends<T: Spawner>(
    alloc: Global,
    threads: &mut T,
    (byte, count, shows): &Long,
) -> Result<bool, Fail> {
    let bytes = vec![in alloc; *byte; *count]?;
    let ran = run_gated(alloc, threads, FreeGate {}, "solve", &bytes)?;
    Ok(shows.is_of(&ran))
}

const LINES: &[Long] = &[
    (b'#', 0x10_0000, Shows::Is(NOTHING)),
    (b'#', 0x10_0001, Shows::Refused(1, "line 1: long")),
];

#[test]
fn a_line_has_at_most_two_to_the_20_bytes(rt: HostRuntime) -> Result<(), Fail> {
    let mut threads = RealThreads::new(rt);
    for row in LINES {
        assert!(rt; ends(rt.alloc(), &mut threads, row)?, "{} bytes", row.1);
    }
    Ok(())
}

const INPUTS: &[Long] = &[
    (b'\n', 0x100_0000, Shows::Is(NOTHING)),
    (b'\n', 0x100_0001, Shows::Refused(8, "input too large")),
];

#[test]
fn an_input_has_at_most_two_to_the_24_bytes(rt: HostRuntime) -> Result<(), Fail> {
    let mut threads = RealThreads::new(rt);
    for row in INPUTS {
        assert!(rt; ends(rt.alloc(), &mut threads, row)?, "{} bytes", row.1);
    }
    Ok(())
}
