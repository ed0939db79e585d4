//! A run of work.

ghost use Rattle.std.specs.Prelude.{◌≡◌, ◌≤◌, ◌↔◌, ◌^◌, ℕ, Bool, Err, IfErr, IfOk, Some, count_by, slice_get, sum_by, length};
ghost use Rattle.adlb_io.specs.Outside.{Rises};
ghost use Rattle.adlb_unit.specs.Limits.{Refuses, stamp_limit};

use crate::answers::Answers;
use crate::batches::Batch;
use crate::duties::{Batching, Counting, Duty, Listing};
use crate::faults::Fault;
use crate::laws::worth_laws;
use crate::runs::run_each_on;
use crate::settings::Settings;
use crate::work::Work;
use crate::workers::Worker;
use adlb_io::{RealThreads, Spawner};
use adlb_unit::ConfigFault;
use std::alloc::Global;
use std::sync::Wait;
use std::thread::Threads;

/// Works this work by ranks over servers, each in a thread of its own, and waits for all of them. What it gives is what the first
/// units are worth. `Settings` comes exactly if a number is outside its limits, and `TooLong` with a stamp of at least `2^48`.
pub fn run<W: Work + Copy + Send + Drop + 'static, R: Threads + Wait + Send + Copy + 'static>(
    alloc: Global,
    rt: R,
    settings: Settings,
    work: W,
) -> Result<u128, Fault>
    ensures total { IfOk result (λ total. total ≡ W.whole work) }
    ensures settings { (fault : ConfigFault) → (result ≡ Err (Fault.Settings fault)) ↔
        Refuses settings.ranks settings.servers settings.limit fault }
    ensures too_long { (stamp : ℕ) → result ≡ Err (Fault.TooLong stamp) → stamp_limit ≤ stamp }
{
    let mut threads = RealThreads::new(rt);
    run_on(alloc, &mut threads, settings, work)
}

/// As `run`, with threads that this spawner starts. `NoThread` comes only if a start was refused, which the count of faults shows.
pub fn run_on<W: Work + Copy + Send + Drop + 'static, T: Spawner>(
    alloc: Global,
    threads: &mut T,
    settings: Settings,
    work: W,
) -> Result<u128, Fault>
    ensures total { IfOk result (λ total. total ≡ W.whole work) }
    ensures settings { (fault : ConfigFault) → (result ≡ Err (Fault.Settings fault)) ↔
        Refuses settings.ranks settings.servers settings.limit fault }
    ensures no_thread { result ≡ Err Fault.NoThread → Rises (T.faults threads.old) (T.faults threads.new) }
    ensures too_long { (stamp : ℕ) → result ≡ Err (Fault.TooLong stamp) → stamp_limit ≤ stamp }
{
    match outcomes(alloc, threads, settings, Counting { work }) {
        Ok(counts) => Ok(total(counts.as_slice())),
        Err(fault) => Err(fault),
    }
}

/// As `run`, of work that gives answers. What it gives are the answers of the first units with all that comes of them, each once, in
/// any order.
pub fn gather<W, R: Threads + Wait + Send + Copy + 'static>(
    alloc: Global,
    rt: R,
    settings: Settings,
    work: W,
) -> Result<Vec<W::Answer>, Fault>
where
    W: Answers + Copy + Send + Drop + 'static,
    W::Answer: Send + Drop + 'static,
    ensures answers { IfOk result (λ all. (test : W.Answer → Bool) → count_by test all.items ≡ W.whole work test) }
    ensures settings { (fault : ConfigFault) → (result ≡ Err (Fault.Settings fault)) ↔
        Refuses settings.ranks settings.servers settings.limit fault }
    ensures too_long { (stamp : ℕ) → result ≡ Err (Fault.TooLong stamp) → stamp_limit ≤ stamp }
{
    let mut threads = RealThreads::new(rt);
    gather_on(alloc, &mut threads, settings, work)
}

/// As `gather`, with threads that this spawner starts. `NoThread` comes only if a start was refused, which the count of faults shows.
pub fn gather_on<W, T: Spawner>(
    alloc: Global,
    threads: &mut T,
    settings: Settings,
    work: W,
) -> Result<Vec<W::Answer>, Fault>
where
    W: Answers + Copy + Send + Drop + 'static,
    W::Answer: Send + Drop + 'static,
    ensures answers { IfOk result (λ all. (test : W.Answer → Bool) → count_by test all.items ≡ W.whole work test) }
    ensures settings { (fault : ConfigFault) → (result ≡ Err (Fault.Settings fault)) ↔
        Refuses settings.ranks settings.servers settings.limit fault }
    ensures no_thread { result ≡ Err Fault.NoThread → Rises (T.faults threads.old) (T.faults threads.new) }
    ensures too_long { (stamp : ℕ) → result ≡ Err (Fault.TooLong stamp) → stamp_limit ≤ stamp }
{
    match outcomes(alloc, threads, settings, Listing { work }) {
        Ok(lists) => joined(alloc, lists),
        Err(fault) => Err(fault),
    }
}

/// As `gather`, of work whose first units share bytes.
pub fn gather_batch<W, R: Threads + Wait + Send + Copy + 'static>(
    alloc: Global,
    rt: R,
    settings: Settings,
    work: W,
) -> Result<Vec<W::Answer>, Fault>
where
    W: Batch + Copy + Send + Drop + 'static,
    W::Answer: Send + Drop + 'static,
    ensures answers { IfOk result (λ all. (test : W.Answer → Bool) → count_by test all.items ≡ W.whole work test) }
    ensures settings { (fault : ConfigFault) → (result ≡ Err (Fault.Settings fault)) ↔
        Refuses settings.ranks settings.servers settings.limit fault }
    ensures too_long { (stamp : ℕ) → result ≡ Err (Fault.TooLong stamp) → stamp_limit ≤ stamp }
{
    let mut threads = RealThreads::new(rt);
    gather_batch_on(alloc, &mut threads, settings, work)
}

/// As `gather_batch`, with threads that this spawner starts. `NoThread` comes only if a start was refused, which the count of faults
/// shows.
pub fn gather_batch_on<W, T: Spawner>(
    alloc: Global,
    threads: &mut T,
    settings: Settings,
    work: W,
) -> Result<Vec<W::Answer>, Fault>
where
    W: Batch + Copy + Send + Drop + 'static,
    W::Answer: Send + Drop + 'static,
    ensures answers { IfOk result (λ all. (test : W.Answer → Bool) → count_by test all.items ≡ W.whole work test) }
    ensures settings { (fault : ConfigFault) → (result ≡ Err (Fault.Settings fault)) ↔
        Refuses settings.ranks settings.servers settings.limit fault }
    ensures no_thread { result ≡ Err Fault.NoThread → Rises (T.faults threads.old) (T.faults threads.new) }
    ensures too_long { (stamp : ℕ) → result ≡ Err (Fault.TooLong stamp) → stamp_limit ≤ stamp }
{
    match outcomes(alloc, threads, settings, Batching { work }) {
        Ok(lists) => joined(alloc, lists),
        Err(fault) => Err(fault),
    }
}

// What each rank gathered of this duty.
fn outcomes<D, T: Spawner>(
    alloc: Global,
    threads: &mut T,
    settings: Settings,
    duty: D,
) -> Result<Vec<D::Got>, Fault>
where
    D: Duty + Copy + Send + Drop + 'static,
    D::Got: Send + Drop + 'static,
    ensures whole { IfOk result (λ all. (eye : D.Eye) → sum_by (λ got. D.sees got eye) all.items ≡ D.whole duty eye) }
    ensures many { IfOk result (λ all. length all.items ≤ 32) }
    ensures few { IfOk result (λ all. (eye : D.Eye) (k : ℕ) (got : D.Got) → slice_get all.items k ≡ Some got →
        D.sees got eye ≤ 2 ^ 112) }
    ensures settings { (fault : ConfigFault) → (result ≡ Err (Fault.Settings fault)) ↔
        Refuses settings.ranks settings.servers settings.limit fault }
    ensures no_thread { result ≡ Err Fault.NoThread → Rises (T.faults threads.old) (T.faults threads.new) }
    ensures too_long { (stamp : ℕ) → result ≡ Err (Fault.TooLong stamp) → stamp_limit ≤ stamp }
{
    let worker = Worker {
        alloc,
        ranks: settings.ranks,
        duty,
    };
    match run_each_on(alloc, threads, settings, worker) {
        Ok(report) => {
            worth_laws();
            Ok(report.outcomes)
        }
        Err(fault) => Err(fault),
    }
}

// The sum of what all ranks counted.
fn total(counts: &[u128]) -> u128
    requires many { length counts.now ≤ 32 }
    requires few { (k n : ℕ) → slice_get counts.now k ≡ Some n → n ≤ 2 ^ 112 }
    ensures { result ≡ sum_by (λ n. n) counts.now }
{
    let mut total = 0u128;
    for counted in counts {
        total += *counted;
    }
    total
}

// What is in all of these lists. Its only error is `Memory`.
fn joined<T: Drop>(alloc: Global, lists: Vec<Vec<T>>) -> Result<Vec<T>, Fault>
    ensures all { IfOk result (λ all. (test : T → Bool) → count_by test all.items ≡ sum_by (λ l. count_by test l.items) lists.items) }
    ensures memory { IfErr result (λ fault. fault ≡ Fault.Memory) }
{
    let mut all = Vec::new(alloc);
    for mut list in lists {
        if all.append(&mut list).is_err() {
            return Err(Fault::Memory);
        }
    }
    Ok(all)
}
