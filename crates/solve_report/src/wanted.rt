//! What is wanted of a run: its report, or a summary.

ghost use Rattle.std.specs.Prelude.{◌≡◌, ◌++◌, ◌<◌, ◌^◌, ℕ, IfOk, OnOk};
ghost use Rattle.job_report.specs.Whole.{AreWhole, made_in};
ghost use Rattle.solve_report.specs.Told.{IsReported, IsSummed, IsTold, drill_line};

use crate::extras::Tail;
use adlb_unit::{NoMemory, or_no_memory};
use itoa::Buffer;
use job_report::{Outcome, render, summarize};
use job_text::Jobs;
use puzzle_app::Settings;
use run_command::Report;
use std::alloc::Global;

/// What is written of a run.
#[derive(Drop)]
pub enum Wanted<E> {
    /// The report of its jobs, and then this.
    Report(E),
    /// The summary of a drill of `count` puzzles from `seed`.
    Summary { count: u32, seed: u64 },
}

/// The text that is wanted of a run over these jobs (`IsTold`). Its only error is `NoMemory`.
pub fn text_of<E: Tail>(
    alloc: Global,
    wanted: &Wanted<E>,
    jobs: &Jobs,
    report: &Report<Outcome>,
) -> Result<Vec<u8>, NoMemory>
    requires room { (k : ℕ) → made_in k report.now.outcomes < 2 ^ 128 }
    ensures { (settings : Settings) → AreWhole settings.budget settings.grain jobs.now report.now.outcomes →
        IfOk result (λ text. IsTold E.tail settings wanted.now jobs.now report.now text.items) }
{
    match wanted {
        Wanted::Report(tail) => report_of(alloc, tail, jobs, report),
        Wanted::Summary { count, seed } => summary_of(alloc, *count, *seed, jobs, report),
    }
}

// The report, and then this. Its only error is `NoMemory`.
fn report_of<E: Tail>(
    alloc: Global,
    tail: &E,
    jobs: &Jobs,
    report: &Report<Outcome>,
) -> Result<Vec<u8>, NoMemory>
    requires room { (k : ℕ) → made_in k report.now.outcomes < 2 ^ 128 }
    ensures { (settings : Settings) → AreWhole settings.budget settings.grain jobs.now report.now.outcomes →
        IfOk result (λ text. IsReported settings (E.tail tail.now) jobs.now report.now text.items) }
{
    let mut text = render(alloc, jobs, &report.outcomes)?;
    tail.append(alloc, &mut text, report)?;
    Ok(text)
}

// The summary of a drill. Its only error is `NoMemory`.
fn summary_of(
    alloc: Global,
    count: u32,
    seed: u64,
    jobs: &Jobs,
    report: &Report<Outcome>,
) -> Result<Vec<u8>, NoMemory>
    requires room { (k : ℕ) → made_in k report.now.outcomes < 2 ^ 128 }
    ensures { (settings : Settings) → AreWhole settings.budget settings.grain jobs.now report.now.outcomes →
        IfOk result (λ text. IsSummed settings count seed jobs.now report.now text.items) }
{
    let summary = summarize(alloc, jobs, &report.outcomes)?;
    let mut text = Vec::new(alloc);
    append_summary(&mut text, count, seed, &summary)?;
    Ok(text)
}

// Appends the first line of the summary, and then the rest of it. Its only error is `NoMemory`.
fn append_summary(text: &mut Vec<u8>, count: u32, seed: u64, summary: &[u8]) -> Result<(), NoMemory>
    ensures { OnOk result (text.new.items ≡ text.old.items ++ drill_line count seed ++ summary.now) }
{
    let mut digits = Buffer::new();
    append(text, b"drill ")?;
    append(text, digits.format(count).as_bytes())?;
    append(text, b" ")?;
    append(text, digits.format(seed).as_bytes())?;
    append(text, b"\n")?;
    append(text, summary)
}

// Appends the piece. Its only error is `NoMemory`.
fn append(line: &mut Vec<u8>, piece: &[u8]) -> Result<(), NoMemory>
    ensures { OnOk result (line.new.items ≡ line.old.items ++ piece.now) }
{
    or_no_memory(line.extend_from_slice(piece))
}
