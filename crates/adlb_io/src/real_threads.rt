//! Threads of the system.

ghost use Rattle.std.specs.Prelude.{◌≡◌, true};

use crate::spawners::Spawner;
use std::sync::Wait;
use std::thread::Threads;

/// Starts threads of the system, each as it is asked for.
#[derive(Drop)]
pub struct RealThreads<R: Threads> {
    rt: R,
    faults: u64,
    starts: u64,
}

impl<R: Threads> RealThreads<R> {
    /// A spawner that has started and refused none yet.
    pub fn new(rt: R) -> RealThreads<R>
        ensures faults { result.faults ≡ 0 }
        ensures starts { result.starts ≡ 0 }
    {
        RealThreads {
            rt,
            faults: 0,
            starts: 0,
        }
    }
}

impl<R: Threads> Threads for RealThreads<R> {}

impl<R: Threads + Wait + Send + Copy + 'static> Spawner for RealThreads<R> {
    type Rt = R;

    fn waits(&self) -> R {
        self.rt
    }

    ghost faults = { λ s. s.faults };

    ghost starts = { λ s. s.starts };

    fn may_start(&mut self) -> bool
        ensures each { result ≡ true }
        ensures same { (self.new.faults ≡ self.old.faults) × (self.new.starts ≡ self.old.starts) }
    {
        true
    }

    fn note_start(&mut self) {
        self.starts = self.starts.saturating_add(1);
    }

    fn note_refusal(&mut self) {
        self.faults = self.faults.saturating_add(1);
    }
}
