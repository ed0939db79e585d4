//! Drawn flows through whole runs, with threads: what is written of them, and their ledgers.

use crate::draws::Draws;
use crate::flows::random::drawn;
use crate::rows::{Shows, must_show};
use adlb_io::{RealThreads, Spawner};
use std::alloc::Global;
use std::sync::Wait;
use std::test::Fail;
use std::thread::Threads;

/// How many flows a test draws: in four tests 1,000.
const FLOWS: usize = 250;

/// The words of the runs, taken in turn. Servers with few bytes take three rules, or nine.
const WORDS: [&str; 6] = [
    "flow --ranks 1 --servers 1 --limit 64",
    "flow --ranks 1 --servers 1",
    "flow --ranks 4 --servers 2",
    "flow --ranks 4 --servers 2 --limit 64",
    "flow --ranks 2 --servers 3 --limit 64",
    "flow --ranks 6 --servers 3 --limit 200",
];

// A run with these words on a drawn flow writes the values of a plain evaluation, and keeps a ledger that is a legal run.
fn must_be_evaluated<T: Spawner>(
    alloc: Global,
    threads: &mut T,
    words: &str,
    draws: &mut Draws,
) -> Result<(), Fail> {
    let (given, worth) = drawn(alloc, draws)?;
    must_show(
        alloc,
        threads,
        words,
        given.as_str(),
        &Shows::Legal(worth.as_str()),
    )
}

// Of the flows that are drawn from this seed the values of a plain evaluation are written. It fails with the input of the first
// of whose run something else is written, or the ledger is not legal.
fn all_are_evaluated<R: Threads + Wait + Send + Copy + 'static>(
    rt: R,
    alloc: Global,
    seed: u64,
) -> Result<(), Fail> {
    let mut threads = RealThreads::new(rt);
    let mut draws = Draws::new(seed);
    for number in 0..FLOWS {
        must_be_evaluated(alloc, &mut threads, WORDS[number % 6], &mut draws)?;
    }
    Ok(())
}

#[test]
fn drawn_flows_are_evaluated_in_the_first_part(rt: HostRuntime) -> Result<(), Fail> {
    all_are_evaluated(rt, rt.alloc(), 21)
}

#[test]
fn drawn_flows_are_evaluated_in_the_second_part(rt: HostRuntime) -> Result<(), Fail> {
    all_are_evaluated(rt, rt.alloc(), 22)
}

#[test]
fn drawn_flows_are_evaluated_in_the_third_part(rt: HostRuntime) -> Result<(), Fail> {
    all_are_evaluated(rt, rt.alloc(), 23)
}

#[test]
fn drawn_flows_are_evaluated_in_the_fourth_part(rt: HostRuntime) -> Result<(), Fail> {
    all_are_evaluated(rt, rt.alloc(), 24)
}
