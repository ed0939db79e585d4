//! Whole runs in which ranks fail.

use crate::programs::{Plan, workers};
use crate::runs::{RunEnd, Why, run};
use adlb_io::{FreeGate, RealThreads, Spawner};
use std::alloc::Global;
use std::test::Fail;

// A run of one rank for each plan ends so over one server, over two and over three.
fn ends<T: Spawner>(
    alloc: Global,
    threads: &mut T,
    plans: &[Plan],
    wanted: &RunEnd,
) -> Result<bool, Fail> {
    let ranks = plans.len().min(32) as u32;
    for servers in 1..4 {
        let programs = workers(alloc, ranks, (plans, Plan::Waits))?;
        if run(alloc, threads, FreeGate {}, servers, programs)? != *wanted {
            return Ok(false);
        }
    }
    Ok(true)
}

/// What each rank does, and how the run ends.
const RUNS: &[(&str, &[Plan], RunEnd)] = &[
    (
        "ranks that leave a unit of their own",
        &[Plan::Leaves, Plan::Waits, Plan::Leaves],
        Ok((2, 2)),
    ),
    (
        "ranks that take what is put in batches",
        &[Plan::Batches, Plan::Waits, Plan::Waits, Plan::Batches],
        Ok((8, 4)),
    ),
    (
        "a rank that fails in its batch",
        &[Plan::FailsInBatch, Plan::Waits, Plan::Waits],
        Err(Why::Memory),
    ),
    (
        "a rank that fails with a unit that was granted",
        &[Plan::Waits, Plan::FailsHolding, Plan::Batches, Plan::Leaves],
        Err(Why::Memory),
    ),
    (
        "a rank that fails after it was told that all work is used up",
        &[Plan::FailsAtEnd, Plan::Waits, Plan::Leaves],
        Err(Why::Memory),
    ),
    (
        "ranks that all fail",
        &[Plan::FailsAtEnd, Plan::FailsHolding, Plan::FailsInBatch],
        Err(Why::Memory),
    ),
    (
        "two ranks that fail in their batches, among many",
        &[
            Plan::Waits,
            Plan::FailsInBatch,
            Plan::Leaves,
            Plan::Batches,
            Plan::FailsInBatch,
            Plan::Waits,
            Plan::Batches,
        ],
        Err(Why::Memory),
    ),
    ("a rank alone", &[Plan::FailsInBatch], Err(Why::Memory)),
];

#[test]
fn a_run_ends_with_the_trouble_of_its_ranks(rt: HostRuntime) -> Result<(), Fail> {
    let mut threads = RealThreads::new(rt);
    for (shows, plans, wanted) in RUNS {
        assert!(rt; ends(rt.alloc(), &mut threads, plans, wanted)?, "{shows}");
    }
    Ok(())
}
