//! Rows of a table: words and an input, and what a run with them shows.

use crate::runs::{Ran, run_words};
use adlb_io::{RealThreads, Spawner};
use std::alloc::Global;
use std::sync::Wait;
use std::test::Fail;
use std::thread::Threads;

/// What a run shows.
#[derive(Clone, Copy)]
pub enum Shows<'a> {
    /// It ends well and writes this.
    Is(&'a str),
    /// It ends well, and what it writes begins with the first and ends with the second.
    Frame(&'a str, &'a str),
    /// It ends well, writes this and keeps this ledger, a letter an entry, with nothing left.
    Kept(&'a str, &'a str),
    /// It ends well, writes this and keeps a ledger that is a legal run.
    Legal(&'a str),
    /// It has this status and fault, writes nothing and keeps no report.
    Refused(u8, &'a str),
    /// A write fails after this many bytes of this report, which is kept.
    Cut(&'a str, usize),
    /// It has this status.
    Status(u8),
}

impl Shows<'_> {
    /// The run shows this.
    pub fn is_of(&self, ran: &Ran) -> bool {
        let written = ran.written.as_str();
        match *self {
            Shows::Is(text) => ran.writes(text),
            Shows::Frame(begin, end) => ran.is_well() && is_framed(written, begin, end),
            Shows::Kept(text, ledger) => ran.writes(text)
                && ran.ledger.as_str() == ledger
                && ran.left == 0,
            Shows::Legal(text) => ran.writes(text) && ran.legal,
            Shows::Refused(status, fault) => ran.fails(status, fault, false) && written.is_empty(),
            Shows::Cut(report, taken) => ran.fails(4, "write failed", true)
                && is_front(written, report, taken),
            Shows::Status(status) => ran.status == status,
        }
    }
}

fn is_framed(written: &str, begin: &str, end: &str) -> bool {
    written.starts_with(begin) && written.ends_with(end)
}

// This is written of the report, so many bytes.
fn is_front(written: &str, report: &str, taken: usize) -> bool {
    written.len() == taken && report.starts_with(written)
}

/// The command lines of some runs, the pieces of the input that each of them has, and what each shows.
pub type Row = (
    &'static [&'static str],
    &'static [&'static str],
    Shows<'static>,
);

// The pieces, one after the other.
fn joined(alloc: Global, pieces: &[&str]) -> Result<String, Fail> {
    let mut all = String::new(alloc);
    for piece in pieces {
        all.push_str(piece)?;
    }
    Ok(all)
}

/// A run with these words on this input shows this.
pub fn is_shown<T: Spawner>(
    alloc: Global,
    threads: &mut T,
    line: &str,
    input: &str,
    shows: &Shows<'_>,
) -> Result<bool, Fail> {
    let ran = run_words(alloc, threads, line, input)?;
    Ok(shows.is_of(&ran))
}

/// A run with these words on this input shows this. It fails otherwise, with both.
pub fn must_show<T: Spawner>(
    alloc: Global,
    threads: &mut T,
    line: &str,
    input: &str,
    shows: &Shows<'_>,
) -> Result<(), Fail> {
    if is_shown(alloc, threads, line, input, shows)? {
        return Ok(());
    }
    Err(Fail::new(format_args!("{line}: {input}")))
}

// Each line of the row shows what it is to.
fn show_row<T: Spawner>(
    alloc: Global,
    threads: &mut T,
    (lines, pieces, shows): &Row,
) -> Result<(), Fail> {
    let input = joined(alloc, pieces)?;
    for line in *lines {
        must_show(alloc, threads, line, input.as_str(), shows)?;
    }
    Ok(())
}

/// Each row is shown, with real threads. It fails with the first words that show something else, and their input.
pub fn show<R: Threads + Wait + Send + Copy + 'static>(
    rt: R,
    alloc: Global,
    rows: &[Row],
) -> Result<(), Fail> {
    let mut threads = RealThreads::new(rt);
    for row in rows {
        show_row(alloc, &mut threads, row)?;
    }
    Ok(())
}
