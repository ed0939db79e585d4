//! What is said of a run each second, in a thread of its own.

use crate::progress::{Progress, ProgressGate};
use adlb_unit::{NoMemory, or_no_memory};
use command_words::read_words;
use std::alloc::Global;
use std::sync::atomic::{AtomicU64, Ordering};
use std::sync::{Arc, Wait};
use std::thread::{JoinHandle, Threads};
use std::time::{Clock, Duration, Instant};
use std::{io, thread};

/// The milliseconds from one look at the clock to the next.
const LOOK: u64 = 50;

/// Says on standard error how far a run is, each second while its ranks run. Twins of a teller stop together.
#[derive(Drop)]
pub struct Teller {
    progress: Progress,
    // 1 once the telling is to stop.
    stopped: Arc<AtomicU64, Global>,
}

impl Teller {
    /// A teller of this progress. Its only error is `NoMemory`.
    pub fn new(alloc: Global, progress: Progress) -> Result<Teller, NoMemory> {
        match Arc::new(alloc, AtomicU64::new(0)) {
            Ok(stopped) => Ok(Teller { progress, stopped }),
            Err(_) => Err(NoMemory),
        }
    }

    /// A teller of this one's progress, which stops with it. Its only error is `NoMemory`.
    pub fn twin(&self) -> Result<Teller, NoMemory> {
        Ok(Teller {
            progress: self.progress.twin()?,
            stopped: or_no_memory(Arc::try_clone(&self.stopped))?,
        })
    }

    /// Stops it and its twins.
    pub fn stop(&self) {
        self.stopped.store(1, Ordering::SeqCst);
        self.stopped.wake_all();
    }

    /// Tells until it is stopped, or until the clock or standard error fails.
    pub fn tell<R: Wait + Clock + Eprint>(&self, rt: &R) {
        let mut last = None;
        for _ in rt.forever() {
            self.stopped
                .park_timeout(rt, 0, Duration::from_millis(LOOK));
            if self.stopped.load(Ordering::SeqCst) != 0 {
                return;
            }
            match self.look(rt, last) {
                Ok(next) => last = next,
                Err(_) => return,
            }
        }
    }

    // Says a line if a second has passed since the last one, or since ranks were first seen to run. Answers from when the next second
    // counts, if ranks run.
    fn look<R: Clock + Eprint>(
        &self,
        rt: &R,
        last: Option<Instant>,
    ) -> io::Result<Option<Instant>> {
        let now = Instant::now(rt)?;
        let counts = self.progress.counts();
        if counts.running == 0 {
            return Ok(None);
        }
        let Some(last) = last else {
            return Ok(Some(now));
        };
        let seconds = now.duration_since(last).as_secs();
        if seconds == 0 {
            return Ok(Some(last));
        }
        eprintln!(rt; "adlbrun: {counts}")?;
        Ok(last.checked_add(Duration::from_secs(seconds)))
    }
}

/// The gate that the ranks of a run pass, and the thread that says how far it is, if there is one, with its teller.
#[derive(Drop)]
pub(crate) struct Telling {
    pub gate: ProgressGate,
    pub thread: Option<(Teller, JoinHandle<()>)>,
}

impl Telling {
    /// Begins to say how far the run of these words is, if they ask for that. Nothing is said if memory fails or no thread can be had.
    pub(crate) fn begin<R, T>(rt: &R, words: &[String], threads: &T) -> Telling
    where
        R: AllocGlobal + Eprint + Clock + Wait + Send + Copy + 'static,
        T: Threads,
    {
        if !asks(rt.alloc(), words) {
            return Telling::none();
        }
        match started(rt, threads) {
            Ok(telling) => telling,
            Err(_) => Telling::none(),
        }
    }

    // Nothing is said.
    fn none() -> Telling {
        Telling {
            gate: ProgressGate::new(None),
            thread: None,
        }
    }
}

/// Ends the telling, and its thread.
pub(crate) fn end<T: Threads>(thread: Option<(Teller, JoinHandle<()>)>, threads: &T) {
    if let Some((teller, handle)) = thread {
        teller.stop();
        handle.join(threads);
    }
}

// Whether the words ask for a run's progress.
fn asks(alloc: Global, words: &[String]) -> bool {
    match read_words(alloc, words) {
        Ok(command) => command.tells_progress(),
        Err(_) => false,
    }
}

// A thread that tells. Its only error is `NoMemory`.
fn started<R, T>(rt: &R, threads: &T) -> Result<Telling, NoMemory>
where
    R: AllocGlobal + Eprint + Clock + Wait + Send + Copy + 'static,
    T: Threads,
{
    let progress = Progress::new(rt.alloc())?;
    let gate = ProgressGate::new(Some(progress.twin()?));
    let teller = Teller::new(rt.alloc(), progress)?;
    let telling = teller.twin()?;
    let rt = *rt;
    match thread::spawn(threads, move || telling.tell(&rt)) {
        Ok(handle) => Ok(Telling {
            gate,
            thread: Some((teller, handle)),
        }),
        Err(_) => Err(NoMemory),
    }
}
