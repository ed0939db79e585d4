//! Runs in threads, of a small program.

use crate::programs::{Plan, Worker, workers};
use adlb_io::{FreeGate, Gate, RealThreads, Spawner};
use adlb_threads::{RanFault, Report, run_ranks};
use adlb_unit::Config;
use ledger_checker::first_illegal;
use std::alloc::Global;
use std::test::Fail;

/// How a run ends: what the outcomes of its ranks come to, and how many units are left; or why there is no report.
pub type RunEnd = Result<(u64, usize), Why>;

/// Why a run gives no report, or one whose ledger has no entries or is not legal.
#[derive(Clone, Copy, PartialEq)]
pub enum Why {
    Unkept,
    NoThread,
    Memory,
    TooLong,
}

fn end_of(alloc: Global, ran: Result<Report<u32>, RanFault>) -> Result<RunEnd, Fail> {
    match ran {
        Ok(report) => end_of_report(alloc, &report),
        Err(RanFault::NoThread) => Ok(Err(Why::NoThread)),
        Err(RanFault::Memory) => Ok(Err(Why::Memory)),
        Err(RanFault::TooLong { .. }) => Ok(Err(Why::TooLong)),
    }
}

fn end_of_report(alloc: Global, report: &Report<u32>) -> Result<RunEnd, Fail> {
    let illegal = first_illegal(alloc, &report.ledger, &report.config)?;
    if illegal.is_some() || report.ledger.len() == 0 {
        return Ok(Err(Why::Unkept));
    }
    Ok(Ok((total(report.outcomes.as_slice()), report.left.len())))
}

fn total(outcomes: &[u32]) -> u64 {
    let mut all = 0u64;
    for outcome in outcomes {
        all = all.saturating_add(u64::from(*outcome));
    }
    all
}

/// How a run of these ranks over this many servers ends.
pub fn run<T: Spawner, G: Gate + Send + Drop + 'static>(
    alloc: Global,
    threads: &mut T,
    gate: G,
    servers: u32,
    programs: Vec<Worker>,
) -> Result<RunEnd, Fail> {
    let ranks = programs.len().min(32) as u32;
    match Config::new(ranks, servers, 1 << 20) {
        Ok(config) if programs.len() == config.ranks as usize => {
            end_of(alloc, run_ranks(alloc, config, programs, threads, gate))
        }
        _ => {
            drop(programs);
            drop(gate);
            Err("ranks or servers".into())
        }
    }
}

/// Ranks and servers.
pub type Size = (u32, u32);

// How a run ends whose ranks put this many units each, but for one that fails, if there is one of this number.
fn end_but<T: Spawner>(
    alloc: Global,
    threads: &mut T,
    (ranks, servers): Size,
    puts: u32,
    failing: u32,
) -> Result<RunEnd, Fail> {
    let mut programs = workers(alloc, ranks, (&[], Plan::Works(puts)))?;
    if let Some(worker) = programs.get_mut(failing as usize) {
        worker.plan = Plan::Fails;
    }
    run(alloc, threads, FreeGate {}, servers, programs)
}

const NONE: u32 = 99;

const SIZES: &[Size] = &[(1, 1), (2, 1), (5, 1), (32, 1), (1, 2), (5, 3), (32, 8)];

#[test]
fn all_that_is_put_is_taken(rt: HostRuntime) -> Result<(), Fail> {
    let mut threads = RealThreads::new(rt);
    for size in SIZES {
        let ran = end_but(rt.alloc(), &mut threads, *size, 3, NONE)?;
        assert!(rt; ran == Ok((3 * u64::from(size.0), 0)), "{size:?}");
    }
    Ok(())
}

/// Ranks and servers, and the rank that fails.
const FAILING: &[(Size, u32)] = &[
    ((1, 1), 0),
    ((2, 1), 1),
    ((5, 1), 4),
    ((32, 1), 31),
    ((1, 2), 0),
    ((5, 8), 4),
    ((32, 8), 31),
];

#[test]
fn a_rank_that_fails_ends_the_run(rt: HostRuntime) -> Result<(), Fail> {
    let mut threads = RealThreads::new(rt);
    for (size, failing) in FAILING {
        let idle = end_but(rt.alloc(), &mut threads, *size, 0, *failing)?;
        let busy = end_but(rt.alloc(), &mut threads, *size, 3, *failing)?;
        assert!(rt; idle == Err(Why::Memory) && busy == idle, "{size:?}");
    }
    Ok(())
}
