//! How far a run is: what its ranks count as they pass their gates.

use adlb_io::{Gate, GatePoint};
use adlb_unit::{NoMemory, Rank, or_no_memory};
use std::alloc::Global;
use std::fmt;
use std::sync::Arc;
use std::sync::atomic::{AtomicU64, Ordering};

/// The most ranks of a run, each of which has marks of its own.
const RANKS: usize = 32;

// What one rank counts, and no other. With the room it fills two lines of a processor's cache, so that no rank waits for another's
// count.
#[derive(Drop)]
struct Marks {
    // How many units it has put that a server took.
    put: AtomicU64,
    // Twice the number of units that it was granted, and one more while it waits for the next.
    turns: AtomicU64,
    // 1 once its gate is gone, since its program has ended.
    ended: AtomicU64,
    room: [u64; 13],
}

impl Marks {
    fn new() -> Marks {
        Marks {
            put: AtomicU64::new(0),
            turns: AtomicU64::new(0),
            ended: AtomicU64::new(0),
            room: [0; 13],
        }
    }

    fn note(&self, point: GatePoint) {
        match point {
            GatePoint::Waiting { .. } => {
                let turns = self.turns.load(Ordering::SeqCst);
                self.turns.store(turns | 1, Ordering::SeqCst);
            }
            GatePoint::Granted { .. } => {
                let turns = self.turns.load(Ordering::SeqCst);
                self.turns
                    .store((turns | 1).wrapping_add(1), Ordering::SeqCst);
            }
            GatePoint::Put { .. } => {
                self.put.fetch_add(1, Ordering::SeqCst);
            }
            GatePoint::Fetched { .. } => {}
        }
    }

    fn end(&self) {
        self.ended.store(1, Ordering::SeqCst);
    }

    fn seen(&self) -> Seen {
        Seen::of(
            self.turns.load(Ordering::SeqCst),
            self.put.load(Ordering::SeqCst),
            self.ended.load(Ordering::SeqCst) != 0,
        )
    }
}

// What the marks of some ranks say: units put and granted; ranks that hold a unit, that wait for one, and that run.
#[derive(Clone, Copy)]
struct Seen {
    put: u64,
    granted: u64,
    holding: u64,
    waiting: u64,
    running: u64,
}

impl Seen {
    fn none() -> Seen {
        Seen {
            put: 0,
            granted: 0,
            holding: 0,
            waiting: 0,
            running: 0,
        }
    }

    fn of(turns: u64, put: u64, ended: bool) -> Seen {
        let granted = turns / 2;
        let waits = turns % 2 == 1;
        Seen {
            put,
            granted,
            holding: u64::from(!ended && granted > 0 && !waits),
            waiting: u64::from(!ended && waits),
            running: u64::from(!ended && (put > 0 || turns > 0)),
        }
    }

    fn and(self, other: Seen) -> Seen {
        Seen {
            put: self.put.saturating_add(other.put),
            granted: self.granted.saturating_add(other.granted),
            holding: self.holding.saturating_add(other.holding),
            waiting: self.waiting.saturating_add(other.waiting),
            running: self.running.saturating_add(other.running),
        }
    }
}

/// How far a run is, by what its ranks have been told. Its text is what is said of it, but for the ranks that run.
#[derive(Clone, Copy)]
pub struct Counts {
    /// Units that ranks have put, and that a server took.
    pub put: u64,
    /// Units that were granted to a rank which has asked for the next one since, or has ended.
    pub worked: u64,
    /// Units that a server took, and that were granted to no rank. A unit that is granted before its put is answered counts as
    /// neither.
    pub free: u64,
    /// Ranks that have asked for a unit, were granted none since, and have not ended.
    pub waiting: u64,
    /// Ranks that have asked for a unit or put one, and have not ended.
    pub running: u64,
}

impl fmt::Display for Counts {
    fn fmt<W: fmt::Write>(&self, f: &mut fmt::Formatter<W>) -> fmt::Result {
        write!(
            f,
            "put {}, worked {}, free {}, ranks waiting {}",
            self.put, self.worked, self.free, self.waiting
        )
    }
}

#[derive(Drop)]
struct Table {
    marks: Vec<Marks>,
    // How many gates were made, one for each rank.
    gates: AtomicU64,
}

/// How far one run is. The gates of its ranks share it with who says it.
#[derive(Drop)]
pub struct Progress {
    table: Arc<Table, Global>,
}

impl Progress {
    /// The progress of a run that has not begun. Its only error is `NoMemory`.
    pub fn new(alloc: Global) -> Result<Progress, NoMemory> {
        let mut marks = Vec::new(alloc);
        for _ in 0..RANKS {
            if marks.push(Marks::new()).is_err() {
                return Err(NoMemory);
            }
        }
        let gates = AtomicU64::new(0);
        match Arc::new(alloc, Table { marks, gates }) {
            Ok(table) => Ok(Progress { table }),
            Err(_) => Err(NoMemory),
        }
    }

    /// The progress of the run that this is of. Its only error is `NoMemory`.
    pub fn twin(&self) -> Result<Progress, NoMemory> {
        let table = or_no_memory(Arc::try_clone(&self.table))?;
        Ok(Progress { table })
    }

    /// What the marks of all ranks say now. Each rank's are read at a moment of its own.
    pub fn counts(&self) -> Counts {
        let mut seen = Seen::none();
        for marks in self.table.marks.iter() {
            seen = seen.and(marks.seen());
        }
        Counts {
            put: seen.put,
            worked: seen.granted.saturating_sub(seen.holding),
            free: seen.put.saturating_sub(seen.granted),
            waiting: seen.waiting,
            running: seen.running,
        }
    }
}

/// A gate that is always open, at which a rank counts what it passes if somebody wants to know. A twin is for the next rank, the first
/// gate for no rank. It is let go when the rank's program has ended.
pub struct ProgressGate {
    progress: Option<Progress>,
    rank: Option<usize>,
}

impl ProgressGate {
    /// A gate whose twins count for this progress, one for each rank; without a progress nothing is counted.
    pub fn new(progress: Option<Progress>) -> ProgressGate {
        ProgressGate {
            progress,
            rank: None,
        }
    }

    // The marks of the rank whose gate this is.
    fn marks(&self) -> Option<&Marks> {
        match (&self.progress, self.rank) {
            (Some(progress), Some(rank)) => progress.table.marks.get(rank),
            _ => None,
        }
    }
}

impl Gate for ProgressGate {
    fn pass(&self, _rank: Rank, point: GatePoint) {
        if let Some(marks) = self.marks() {
            marks.note(point);
        }
    }

    fn twin(&self) -> Result<ProgressGate, NoMemory> {
        let Some(progress) = &self.progress else {
            return Ok(ProgressGate::new(None));
        };
        let progress = progress.twin()?;
        let rank = progress.table.gates.fetch_add(1, Ordering::SeqCst);
        Ok(ProgressGate {
            progress: Some(progress),
            rank: Some(rank as usize),
        })
    }
}

impl Drop for ProgressGate {
    fn drop(self) {
        if let Some(marks) = self.marks() {
            marks.end();
        }
        let ProgressGate {
            progress: _,
            rank: _,
        } = self;
    }
}
