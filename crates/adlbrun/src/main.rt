//! The program `adlbrun`: reads puzzles and batches of items, works them, and writes their solutions and answers.
//!
//! It hands standard input and output and threads of the system to `run_program` of `adlb_program`, and ends with the status that this
//! answers.
#![tactic(auto)]

use adlb_io::{RealThreads, StdinSource, StdoutSink};
use adlb_program::run_program;
use std::process::ExitCode;

fn main(rt: HostRuntime) -> ExitCode {
    let mut input = StdinSource::new(rt);
    let mut output = StdoutSink::new(rt);
    let mut threads = RealThreads::new(rt);
    ExitCode::from(run_program(&rt, &mut input, &mut output, &mut threads))
}
