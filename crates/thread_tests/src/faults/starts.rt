//! Each start of a thread is refused in turn.

ghost use Rattle.std.specs.Prelude.{◌≡◌};

use crate::gates::SeenGate;
use crate::programs::{Crew, Plan, workers};
use crate::runs::{RunEnd, Size, Why, run};
use adlb_io::{ListedThreads, Spawner};
use crossbeam_channel::{TryRecvError, bounded};
use std::alloc::Global;
use std::sync::Wait;
use std::test::Fail;
use std::thread::Threads;

// Starts threads of the system, but refuses the start of one number, from 1. It counts how many were asked for, how many it
// started, and how many it refused.
#[derive(Drop)]
struct CountedThreads<R: Threads> {
    listed: ListedThreads<R>,
    calls: u64,
    starts: u64,
    faults: u64,
}

impl<R: Threads> Threads for CountedThreads<R> {}

impl<R: Threads + Wait + Send + Copy + 'static> Spawner for CountedThreads<R> {
    type Rt = R;

    fn waits(&self) -> R {
        self.listed.waits()
    }

    ghost faults = { λ s. s.faults };

    ghost starts = { λ s. s.starts };

    fn may_start(&mut self) -> bool {
        self.calls = self.calls.saturating_add(1);
        self.listed.may_start()
    }

    fn note_start(&mut self) {
        self.starts = self.starts.saturating_add(1);
    }

    fn note_refusal(&mut self) {
        self.faults = self.faults.saturating_add(1);
    }
}

// The threads, of which the start of this number is refused.
fn counted<R: Threads + Copy>(rt: R, alloc: Global, start: u64) -> Result<CountedThreads<R>, Fail> {
    let fails = vec![in alloc; start; 1]?;
    Ok(CountedThreads {
        listed: ListedThreads::new(rt, fails),
        calls: 0,
        starts: 0,
        faults: 0,
    })
}

// How a run of this size ends over these threads. After it no gate is left, so no rank's work goes on.
fn runs<R: Threads + Wait + Send + Copy + 'static>(
    rt: R,
    alloc: Global,
    (ranks, servers): Size,
    crew: Crew,
    threads: &mut CountedThreads<R>,
) -> Result<RunEnd, Fail> {
    let programs = workers(alloc, ranks, crew)?;
    let (seen, points) = bounded(alloc, 1)?;
    let ran = run(alloc, threads, SeenGate { rt, seen }, servers, programs);
    let _ = points.try_recv(&rt);
    let over = matches!(points.try_recv(&rt), Err(TryRecvError::Disconnected));
    drop(points);
    let ran = ran?;
    if over {
        Ok(ran)
    } else {
        Err("a rank's work goes on".into())
    }
}

// If there is a start of this number, it is refused, no later one is tried, and all threads that were started have ended.
fn is_refused<R: Threads + Wait + Send + Copy + 'static>(
    rt: R,
    alloc: Global,
    size: Size,
    crew: Crew,
    start: u64,
) -> Result<bool, Fail> {
    let all = u64::from(size.0).saturating_add(u64::from(size.1));
    let mut threads = counted(rt, alloc, start)?;
    let ran = runs(rt, alloc, size, crew, &mut threads);
    let counts = (threads.calls, threads.starts, threads.faults);
    drop(threads);
    let ran = ran?;
    if start > all {
        return Ok(ran.is_ok() && counts == (all, all, 0));
    }
    Ok(ran == Err(Why::NoThread) && counts == (start, start.saturating_sub(1), 1))
}

// Each start is refused in turn, one for each rank and server, and at last none.
fn each_is_refused<R: Threads + Wait + Send + Copy + 'static>(
    rt: R,
    alloc: Global,
    size: Size,
    crew: Crew,
) -> Result<bool, Fail> {
    for number in 0..size.0.saturating_add(size.1).saturating_add(1) {
        if !is_refused(rt, alloc, size, crew, u64::from(number).saturating_add(1))? {
            return Ok(false);
        }
    }
    Ok(true)
}

// Each rank puts three units, and takes units until an end is told.
const WORKERS: Crew = (&[], Plan::Works(3));

// Some ranks wait for units that never come, one finishes at once, and one fails.
const WAITING: Crew = (&[Plan::Waits, Plan::Leaves, Plan::Batches], Plan::Waits);

// What a refused start ends, what the ranks do, and the size of the run.
const REFUSED: &[(&str, Crew, Size)] = &[
    ("the run", WORKERS, (2, 1)),
    ("the run", WORKERS, (32, 1)),
    ("the run", WORKERS, (1, 2)),
    ("the run", WORKERS, (3, 8)),
    ("the run", WORKERS, (32, 8)),
    ("all that were started", WAITING, (2, 2)),
    ("all that were started", WAITING, (1, 1)),
    ("all that were started", WAITING, (3, 1)),
    ("all that were started", WAITING, (1, 3)),
    ("all that were started", WAITING, (6, 4)),
];

#[test]
fn a_refused_start_ends_the_run(rt: HostRuntime) -> Result<(), Fail> {
    for (ends, crew, size) in REFUSED {
        assert!(rt;
            each_is_refused(rt, rt.alloc(), *size, *crew)?,
            "{ends}: {size:?}"
        );
    }
    Ok(())
}
