//! Runs of the top call, and what is seen of them.

use adlb_command::{AnyKept, RunEnd, run_adlb};
use adlb_io::{FreeGate, Gate, MemorySink, Sink, Source, Spawner, SteadySink, SteadySource};
use bag_ledger::Entry;
use ledger_checker::first_illegal;
use std::alloc::Global;
use std::test::Fail;

/// What a test looks at of a run.
pub struct Ran {
    pub status: u8,
    /// The text of the fault; none at status 0.
    pub fault: String,
    pub written: String,
    /// The kept ledger, a letter an entry; none where no report is kept.
    pub ledger: String,
    /// The kept ledger is a legal run.
    pub legal: bool,
    /// How many units the kept report has left.
    pub left: usize,
}

// By hand, so that a test lets it go by one call.
impl Drop for Ran {
    fn drop(self) {
        let Ran {
            status,
            fault,
            written,
            ledger,
            legal,
            left,
        } = self;
    }
}

impl Ran {
    /// What it wrote.
    pub fn into_written(self) -> String {
        let Ran {
            status: _,
            fault: _,
            written,
            ledger: _,
            legal: _,
            left: _,
        } = self;
        written
    }

    /// It ended with status 0.
    pub fn is_well(&self) -> bool {
        self.status == 0 && self.fault.is_empty()
    }

    /// It ended with status 0, and wrote this.
    pub fn writes(&self, text: &str) -> bool {
        self.is_well() && self.written.as_str() == text
    }

    /// It ended with this status and fault, and kept a report or none.
    pub fn fails(&self, status: u8, fault: &str, kept: bool) -> bool {
        self.status == status && self.fault.as_str() == fault && self.ledger.is_empty() != kept
    }
}

/// What is to be seen of the end of a run that wrote these bytes.
pub fn seen(alloc: Global, end: &RunEnd, written: &[u8]) -> Result<Ran, Fail> {
    Ok(Ran {
        status: end.status,
        left: left(end),
        legal: is_legal(alloc, end)?,
        fault: fault(alloc, end)?,
        written: String::from_utf8(written.to_vec(alloc)?).unwrap_or(String::new(alloc)),
        ledger: ledger(alloc, end)?,
    })
}

// How many units are left.
fn left(end: &RunEnd) -> usize {
    match &end.kept {
        Some(AnyKept::Puzzles(kept)) => kept.report().left.len(),
        Some(AnyKept::Tours(kept)) => kept.report().left.len(),
        Some(AnyKept::Flows(kept)) => kept.report().left.len(),
        None => 0,
    }
}

// A ledger was kept, and is a legal run.
fn is_legal(alloc: Global, end: &RunEnd) -> Result<bool, Fail> {
    match &end.kept {
        Some(kept) => Ok(first_illegal(alloc, kept.ledger(), &kept.config())?.is_none()),
        None => Ok(false),
    }
}

fn ledger(alloc: Global, end: &RunEnd) -> Result<String, Fail> {
    match &end.kept {
        Some(kept) => names(alloc, &kept.ledger().list(alloc)?),
        None => Ok(String::new(alloc)),
    }
}

fn fault(alloc: Global, end: &RunEnd) -> Result<String, Fail> {
    match &end.fault {
        Some(fault) => Ok(fault.to_string(alloc)?),
        None => Ok(String::new(alloc)),
    }
}

// The first letter of each entry's name, in order; of one that begins with another's letter, another.
fn names(alloc: Global, entries: &[Entry]) -> Result<String, Fail> {
    let mut names = String::new(alloc);
    for entry in entries {
        names.push(name(entry))?;
    }
    Ok(names)
}

fn name(entry: &Entry) -> char {
    match entry {
        Entry::Putting { .. } => 'p',
        Entry::Refused { used: 0, .. } => 'r',
        Entry::Accepted { .. } => 'a',
        Entry::Rejected { .. } => 'R',
        Entry::Asked { .. } => 'q',
        Entry::Granted { .. } => 'g',
        Entry::Fetching { .. } => 'f',
        Entry::Fetched { .. } => 'F',
        Entry::Exhausted => 'x',
        Entry::Over { .. } => 'o',
        Entry::Finished { .. } => '.',
        _ => '?',
    }
}

/// The words of a command line.
pub fn words(alloc: Global, line: &str) -> Result<Vec<String>, Fail> {
    let mut words = Vec::new(alloc);
    for word in line.split_whitespace() {
        words.push(String::from_str(alloc, word)?)?;
    }
    Ok(words)
}

/// A sink that tells what it took.
pub trait Taker: Sink {
    fn bytes(&self) -> &[u8];
}

impl Taker for SteadySink {
    fn bytes(&self) -> &[u8] {
        self.taken()
    }
}

impl Taker for MemorySink {
    fn bytes(&self) -> &[u8] {
        self.taken()
    }
}

/// A run with these words from this source to this sink, whose ranks pass this gate.
pub fn run_between<S: Source, K: Taker, T: Spawner, G: Gate + Send + Drop + 'static>(
    alloc: Global,
    threads: &mut T,
    gate: G,
    line: &str,
    input: &mut S,
    output: &mut K,
) -> Result<Ran, Fail> {
    let words = words(alloc, line)?;
    let end = run_adlb(alloc, words.as_slice(), input, output, threads, gate);
    seen(alloc, &end, output.bytes())
}

/// A run with these words on these bytes, whose ranks pass this gate.
pub fn run_gated<T: Spawner, G: Gate + Send + Drop + 'static>(
    alloc: Global,
    threads: &mut T,
    gate: G,
    line: &str,
    bytes: &[u8],
) -> Result<Ran, Fail> {
    let mut input = SteadySource::new(bytes.to_vec(alloc)?);
    let mut output = SteadySink::new(alloc);
    run_between(alloc, threads, gate, line, &mut input, &mut output)
}

/// A run with these words on this input.
pub fn run_words<T: Spawner>(
    alloc: Global,
    threads: &mut T,
    line: &str,
    input: &str,
) -> Result<Ran, Fail> {
    run_gated(alloc, threads, FreeGate {}, line, input.as_bytes())
}
