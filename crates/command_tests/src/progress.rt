//! What a run says while it goes on.

use crate::runs::run_gated;
use crate::tables::{TWO, TWO_SOLVED};
use adlb_io::{Gate, GatePoint, RealThreads};
use adlb_program::{Progress, ProgressGate, Teller};
use adlb_unit::Rank;
use std::alloc::Global;
use std::fmt::Display;
use std::io;
use std::io::ErrorKind;
use std::sync::atomic::{AtomicU64, Ordering};
use std::sync::{Mutex, Wait};
use std::test::Fail;
use std::thread::Threads;
use std::time::{Clock, Duration};

/// What two ranks pass, one after the other, and what is said then. Rank 0 puts a unit, which rank 1 works.
const PASSED: &[(u32, GatePoint, &str)] = &[
    (
        0,
        GatePoint::Put { call: 0 },
        "put 1, worked 0, free 1, ranks waiting 0",
    ),
    (
        0,
        GatePoint::Waiting { call: 1 },
        "put 1, worked 0, free 1, ranks waiting 1",
    ),
    (
        1,
        GatePoint::Waiting { call: 0 },
        "put 1, worked 0, free 1, ranks waiting 2",
    ),
    (
        1,
        GatePoint::Granted { call: 0 },
        "put 1, worked 0, free 0, ranks waiting 1",
    ),
    (
        1,
        GatePoint::Fetched { call: 1 },
        "put 1, worked 0, free 0, ranks waiting 1",
    ),
    (
        1,
        GatePoint::Put { call: 2 },
        "put 2, worked 0, free 1, ranks waiting 1",
    ),
    (
        1,
        GatePoint::Waiting { call: 3 },
        "put 2, worked 1, free 1, ranks waiting 2",
    ),
    (
        0,
        GatePoint::Granted { call: 1 },
        "put 2, worked 1, free 0, ranks waiting 1",
    ),
];

// What is said of the run now is this text.
fn says(alloc: Global, progress: &Progress, text: &str) -> Result<bool, Fail> {
    Ok(progress.counts().to_string(alloc)?.as_str() == text)
}

/// What is said before any rank passes a point.
const BEGUN: &str = "put 0, worked 0, free 0, ranks waiting 0";

// After each point that two ranks pass what is said of the run is the text beside it. It fails with the first of which it is not.
fn pass_all(
    alloc: Global,
    progress: &Progress,
    first: &ProgressGate,
    second: &ProgressGate,
) -> Result<(), Fail> {
    if !says(alloc, progress, BEGUN)? {
        return Err(BEGUN.into());
    }
    for (rank, point, text) in PASSED {
        let gate = if *rank == 0 { first } else { second };
        gate.pass(Rank(*rank), *point);
        if !says(alloc, progress, text)? {
            return Err((*text).into());
        }
    }
    Ok(())
}

// When the gate is gone, what is said of the run is this text.
fn ends(alloc: Global, progress: &Progress, gate: ProgressGate, text: &str) -> Result<bool, Fail> {
    drop(gate);
    says(alloc, progress, text)
}

// Gates of two ranks; that of which they are twins is gone.
fn two_gates(progress: &Progress) -> Result<(ProgressGate, ProgressGate), Fail> {
    let gate = ProgressGate::new(Some(progress.twin()?));
    Ok((gate.twin()?, gate.twin()?))
}

// When the second gate is gone, and then the first, that is said.
fn both_end(
    alloc: Global,
    progress: &Progress,
    first: ProgressGate,
    second: ProgressGate,
) -> Result<bool, Fail> {
    let one = ends(
        alloc,
        progress,
        second,
        "put 2, worked 1, free 0, ranks waiting 0",
    )?;
    let both = ends(
        alloc,
        progress,
        first,
        "put 2, worked 2, free 0, ranks waiting 0",
    )?;
    Ok(one && both)
}

// That is said of the run before its two ranks pass a point, after each, and when they end.
fn is_counted(alloc: Global, progress: &Progress) -> Result<bool, Fail> {
    let (first, second) = two_gates(progress)?;
    pass_all(alloc, progress, &first, &second)?;
    both_end(alloc, progress, first, second)
}

#[test]
fn counts_what_ranks_pass(rt: HostRuntime) -> Result<(), Fail> {
    let progress = Progress::new(rt.alloc())?;
    assert!(rt; is_counted(rt.alloc(), &progress)?);
    Ok(())
}

// A run whose ranks pass this gate writes the report on the puzzle with two solutions.
fn solves_two<R: Threads + Wait + Send + Copy + 'static>(
    rt: R,
    alloc: Global,
    gate: ProgressGate,
) -> Result<bool, Fail> {
    let line = "solve --ranks 3 --grain 1 --progress";
    let ran = run_gated(alloc, &mut RealThreads::new(rt), gate, line, TWO.as_bytes())?;
    Ok(ran.writes(TWO_SOLVED))
}

#[test]
fn a_run_counts_its_units_and_writes_its_report(rt: HostRuntime) -> Result<(), Fail> {
    let progress = Progress::new(rt.alloc())?;
    let gate = ProgressGate::new(Some(progress.twin()?));
    let text = "put 5, worked 5, free 0, ranks waiting 0";
    assert!(rt; solves_two(rt, rt.alloc(), gate)? && says(rt.alloc(), &progress, text)?);
    Ok(())
}

/// A place where a quarter of a second passes from each look at the clock to the next. After `most` looks the clock fails. What is
/// said stays.
#[derive(Drop)]
struct Stage<R: Wait> {
    rt: R,
    looks: AtomicU64,
    most: u64,
    said: Mutex<String>,
}

impl<R: Wait> Wait for Stage<R> {}

impl<R: Wait> Clock for Stage<R> {
    fn monotonic(&self) -> io::Result<Duration> {
        let look = self.looks.fetch_add(1, Ordering::SeqCst);
        if look < self.most {
            Ok(Duration::from_millis(look.saturating_mul(250)))
        } else {
            Err(io::Error::from(ErrorKind::Other))
        }
    }

    fn since_1970(&self) -> io::Result<Duration> {
        self.monotonic()
    }
}

impl<R: Wait + AllocGlobal> Eprint for Stage<R> {
    fn eprint<D: Display + Drop>(&self, value: D) -> io::Result<()> {
        let text = value.to_string(self.rt.alloc())?;
        let mut said = self.said.lock(&self.rt);
        said.push_str(text.as_str())?;
        Ok(())
    }

    fn eprintln<D: Display + Drop>(&self, value: D) -> io::Result<()> {
        self.eprint(value)?;
        self.eprint("\n")
    }
}

/// How often the clock is looked at while a run goes on, and what is said meanwhile.
const TOLD: &[(u64, &str)] = &[
    (4, ""),
    (5, "adlbrun: put 1, worked 0, free 1, ranks waiting 0\n"),
    (
        9,
        "adlbrun: put 1, worked 0, free 1, ranks waiting 0\nadlbrun: put 1, worked 0, free 1, ranks waiting 0\n",
    ),
];

// What a teller says of the run while the clock is looked at `most` times is this text.
fn tells<R: Wait + AllocGlobal + Drop>(
    rt: R,
    progress: &Progress,
    most: u64,
    text: &str,
) -> Result<bool, Fail> {
    let alloc = rt.alloc();
    let teller = Teller::new(alloc, progress.twin()?)?;
    let stage = Stage {
        rt,
        looks: AtomicU64::new(0),
        most,
        said: Mutex::new(String::new(alloc)),
    };
    teller.tell(&stage);
    let Stage { said, .. } = stage;
    Ok(said.into_inner().as_str() == text)
}

// What a teller says of the run is each text, by how often the clock is looked at. It fails with the first of which it is not.
fn tells_all<R: Wait + AllocGlobal + Drop + Copy>(rt: R, progress: &Progress) -> Result<(), Fail> {
    for (most, text) in TOLD {
        if !tells(rt, progress, *most, text)? {
            return Err((*most).into());
        }
    }
    Ok(())
}

// Nothing is told of the run before a rank passes a point, and nothing when it has ended.
fn is_told<R: Wait + AllocGlobal + Drop + Copy>(rt: R, progress: &Progress) -> Result<bool, Fail> {
    let gate = ProgressGate::new(Some(progress.twin()?)).twin()?;
    let before = tells(rt, progress, 9, "")?;
    gate.pass(Rank(0), GatePoint::Put { call: 0 });
    tells_all(rt, progress)?;
    drop(gate);
    Ok(before && tells(rt, progress, 9, "")?)
}

#[test]
fn tells_each_second_of_a_run_and_nothing_before(rt: HostRuntime) -> Result<(), Fail> {
    let progress = Progress::new(rt.alloc())?;
    assert!(rt; is_told(rt, &progress)?);
    Ok(())
}
