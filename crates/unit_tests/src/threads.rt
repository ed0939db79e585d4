//! Threads that are started or refused, and a gate that is always open.

ghost use Rattle.std.specs.Prelude.{◌≡◌};

use adlb_io::{FreeGate, Gate, GatePoint, ListedThreads, RealThreads, Spawner};
use adlb_unit::Rank;
use std::test::Fail;
use std::thread::Promise;

/// The result is this number.
#[derive(Drop)]
struct Is(u32);

impl Promise<u32> for Is {
    ghost kept_by = { λ p r. r ≡ p.0 };
}

// Whether the thread was started, and the number that it or the work that came back answers.
fn answer<T: Spawner>(threads: &mut T, number: u32) -> (bool, u32) {
    match threads.start(Is(number), move || number) {
        Ok(task) => (true, task.join(&*threads)),
        Err(work) => (false, work()),
    }
}

#[test]
fn real_threads_are_started(rt: HostRuntime) -> Result<(), Fail> {
    let mut threads = RealThreads::new(rt);
    for number in 1..4 {
        assert_eq!(rt; answer(&mut threads, number), (true, number));
    }
    Ok(())
}

#[test]
fn listed_starts_are_refused_and_give_the_work_back(rt: HostRuntime) -> Result<(), Fail> {
    let mut threads = ListedThreads::new(rt, [1, 3].to_vec(rt.alloc())?);
    for (number, started) in [(1, false), (2, true), (3, false), (4, true)] {
        assert_eq!(rt; answer(&mut threads, number), (started, number));
    }
    Ok(())
}

#[test]
fn a_free_gate_is_passed_at_once(rt: HostRuntime) -> Result<(), Fail> {
    let gate = FreeGate {};
    gate.pass(Rank(0), GatePoint::Granted { call: 1 });
    gate.twin()?.pass(Rank(1), GatePoint::Fetched { call: 2 });
    Ok(())
}
