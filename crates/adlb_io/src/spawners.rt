//! Starting of threads, each with a promise about its result.

ghost use Rattle.std.specs.Prelude.{◌≡◌, ◌≤◌, ◌-◌, ◌^◌, ℕ, IfOk, IfErr, OnOk, OnErr};
ghost use Rattle.adlb_io.specs.Outside.{one_more};

use std::sync::Wait;
use std::thread;
use std::thread::{Promise, PromisedHandle, SpawnError, Threads};

/// A thread that was started, and the promise that its result keeps.
#[derive(Drop)]
pub struct Task<O, P: Promise<O>> {
    pub handle: PromisedHandle<O, P>,
}

impl<O, P: Promise<O>> Task<O, P> {
    /// Waits for the thread's result, which keeps the promise.
    pub fn join<R: Threads>(self, rt: &R) -> O
        ensures { P.kept_by self.handle.promise result }
    {
        let Task { handle } = self;
        handle.join(rt)
    }
}

/// What starts threads, and counts what it started and what it refused, each start by one. Neither count ever falls, and
/// each stays at the last value of a `u64`.
pub trait Spawner: Threads {
    /// The handle that its threads wait by.
    type Rt: Wait + Send + Copy + 'static;

    fn waits(&self) -> Self::Rt;

    /// How many starts were refused.
    ghost faults: { Self → ℕ };

    /// How many threads were started.
    ghost starts: { Self → ℕ };

    /// Whether the next start is to be tried. No clause of the trait says when it is not, so a spawner is trusted to refuse no
    /// start without need: one that refuses each keeps every clause.
    fn may_start(&mut self) -> bool
        ensures { (faults self.new ≡ faults self.old) × (starts self.new ≡ starts self.old) };

    /// Counts a start.
    fn note_start(&mut self)
        ensures counted { starts self.new ≡ one_more (starts self.old) }
        ensures later { starts self.old ≤ starts self.new }
        ensures same { faults self.new ≡ faults self.old };

    /// Counts a refused start.
    fn note_refusal(&mut self)
        ensures counted { faults self.new ≡ one_more (faults self.old) }
        ensures later { faults self.old ≤ faults self.new }
        ensures same { starts self.new ≡ starts self.old };

    /// Starts a thread that does the work, whose results all keep the promise. A refused start gives the work back, unbegun.
    /// A start is counted by exactly one among the starts, and a refused one among the faults.
    final fn start<
        O: Send + Drop + 'static,
        P: Promise<O> + Drop,
        F: FnOnce() -> O + Send + 'static,
    >(&mut self, promise: P, work: F) -> Result<Task<O, P>, F>
        requires runs { F.pre work }
        requires keeps { (r : O) → F.post work r → P.kept_by promise r }
        ensures task { IfOk result (λ task. task.handle.promise ≡ promise) }
        ensures back { IfErr result (λ given. given ≡ work) }
        ensures started { OnOk result ((starts self.new ≡ one_more (starts self.old)) × (faults self.new ≡ faults self.old)) }
        ensures refused { OnErr result ((faults self.new ≡ one_more (faults self.old)) × (starts self.new ≡ starts self.old)) }
        ensures later { (faults self.old ≤ faults self.new) × (starts self.old ≤ starts self.new) }
    {
        if !self.may_start() {
            self.note_refusal();
            return Err(work);
        }
        match thread::spawn_with(&*self, promise, work) {
            Ok(handle) => {
                self.note_start();
                Ok(Task { handle })
            }
            Err(SpawnError { value }) => {
                self.note_refusal();
                Err(value)
            }
        }
    }
}
