//! Threads of the system, but for starts that are to be refused.

ghost use Rattle.std.specs.Prelude.{◌≡◌, ◌==◌, ◌+◌, ◌-◌, ◌^◌, min, not};
ghost use Rattle.std.specs.List.{list_any};

use crate::spawners::Spawner;
use std::sync::Wait;
use std::thread::Threads;

/// Starts threads of the system, but refuses the starts with the listed numbers, from 1.
#[derive(Drop)]
pub struct ListedThreads<R: Threads> {
    rt: R,
    fails: Vec<u64>,
    calls: u64,
    faults: u64,
    starts: u64,
}

impl<R: Threads> ListedThreads<R> {
    /// A spawner that has started and refused none yet, and will refuse the starts in `fails`.
    pub fn new(rt: R, fails: Vec<u64>) -> ListedThreads<R>
        ensures faults { result.faults ≡ 0 }
        ensures starts { result.starts ≡ 0 }
        ensures calls { result.calls ≡ 0 }
        ensures list { result.fails ≡ fails }
    {
        ListedThreads {
            rt,
            fails,
            calls: 0,
            faults: 0,
            starts: 0,
        }
    }
}

impl<R: Threads> Threads for ListedThreads<R> {}

impl<R: Threads + Wait + Send + Copy + 'static> Spawner for ListedThreads<R> {
    type Rt = R;

    fn waits(&self) -> R {
        self.rt
    }

    ghost faults = { λ s. s.faults };

    ghost starts = { λ s. s.starts };

    fn may_start(&mut self) -> bool
        ensures same { (self.new.faults ≡ self.old.faults) × (self.new.starts ≡ self.old.starts) }
        ensures list { self.new.fails ≡ self.old.fails }
        ensures next { self.new.calls ≡ min (self.old.calls + 1) (2 ^ 64 - 1) }
        ensures listed { result ≡ not (list_any (λ n. n == self.new.calls) self.old.fails.items) }
    {
        self.calls = self.calls.saturating_add(1);
        !self.fails.contains(&self.calls)
    }

    fn note_start(&mut self) {
        self.starts = self.starts.saturating_add(1);
    }

    fn note_refusal(&mut self) {
        self.faults = self.faults.saturating_add(1);
    }
}
