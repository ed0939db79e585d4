//! A run of one program on every rank.

ghost use Rattle.std.specs.Prelude.{◌≡◌, ◌≤◌, ◌↔◌, ℕ, All, Err, IfOk, vec_len};
ghost use Rattle.adlb_io.specs.Outside.{Rises};
ghost use Rattle.adlb_unit.specs.Limits.{Refuses, stamp_limit};
ghost use Rattle.adlb.specs.Runs.{IsRunOfEach};

use crate::faults::Fault;
use crate::settings::Settings;
use adlb_io::{FreeGate, RealThreads, Spawner};
use adlb_threads::{Report, run_ranks};
use adlb_unit::{Config, ConfigFault, NoMemory, or_no_memory};
use rank_client::RankProgram;
use std::alloc::Global;
use std::sync::Wait;
use std::thread::Threads;

/// Runs this program on every rank, each rank and each server in a thread of its own, and waits for all of them. What it gives are the
/// ranks' outcomes, by rank, and the ledger of the run. Its faults are those of `run`.
pub fn run_each<P, R: Threads + Wait + Send + Copy + 'static>(
    alloc: Global,
    rt: R,
    settings: Settings,
    program: P,
) -> Result<Report<P::Outcome>, Fault>
where
    P: RankProgram + Copy + Send + Drop + 'static,
    P::Outcome: Send + Drop + 'static,
    requires fits { P.fits program settings.ranks }
    ensures run { IfOk result (IsRunOfEach P.follows program settings.ranks) }
    ensures settings { (fault : ConfigFault) → (result ≡ Err (Fault.Settings fault)) ↔
        Refuses settings.ranks settings.servers settings.limit fault }
    ensures too_long { (stamp : ℕ) → result ≡ Err (Fault.TooLong stamp) → stamp_limit ≤ stamp }
{
    let mut threads = RealThreads::new(rt);
    run_each_on(alloc, &mut threads, settings, program)
}

/// As `run_each`, with threads that this spawner starts. `NoThread` comes only if a start was refused, which the count of faults shows.
pub fn run_each_on<P, T: Spawner>(
    alloc: Global,
    threads: &mut T,
    settings: Settings,
    program: P,
) -> Result<Report<P::Outcome>, Fault>
where
    P: RankProgram + Copy + Send + Drop + 'static,
    P::Outcome: Send + Drop + 'static,
    requires fits { P.fits program settings.ranks }
    ensures run { IfOk result (IsRunOfEach P.follows program settings.ranks) }
    ensures settings { (fault : ConfigFault) → (result ≡ Err (Fault.Settings fault)) ↔
        Refuses settings.ranks settings.servers settings.limit fault }
    ensures no_thread { result ≡ Err Fault.NoThread → Rises (T.faults threads.old) (T.faults threads.new) }
    ensures too_long { (stamp : ℕ) → result ≡ Err (Fault.TooLong stamp) → stamp_limit ≤ stamp }
{
    let config = match Config::new(settings.ranks, settings.servers, settings.limit) {
        Ok(config) => config,
        Err(fault) => return Err(Fault::Settings(fault)),
    };
    let Ok(programs) = copies(alloc, settings.ranks, program) else {
        return Err(Fault::Memory);
    };
    match run_ranks(alloc, config, programs, threads, FreeGate {}) {
        Ok(report) => Ok(report),
        Err(fault) => Err(Fault::of(fault)),
    }
}

// A copy of this program for each rank.
fn copies<P: Copy + Drop>(alloc: Global, ranks: u32, program: P) -> Result<Vec<P>, NoMemory>
    ensures len { IfOk result (λ programs. vec_len programs ≡ ranks) }
    ensures each { IfOk result (λ programs. All (λ p. p ≡ program) programs.items) }
{
    let mut programs = or_no_memory(Vec::with_capacity(alloc, ranks as usize))?;
    for _ in 0..ranks {
        programs.push_reserved(program);
    }
    Ok(programs)
}
