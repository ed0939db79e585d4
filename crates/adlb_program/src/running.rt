//! From the words of the command line to the exit status.

ghost use Rattle.std.specs.Prelude.{◌≡◌, Option};
ghost use Rattle.command_ends.specs.Ends.{status_of};
ghost use Rattle.command_ends.specs.declared.faults.RunFault.{RunFault};

use crate::complaints::Complaint;
use crate::telling::{Telling, end};
use crate::words::words_of;
use adlb_command::{RunEnd, RunFault, run_adlb};
use adlb_io::{Sink, Source, Spawner};
use ledger_rules::Complaint as Illegal;
use std::alloc::Global;
use std::env::Env;
use std::sync::Wait;
use std::time::Clock;

/// Carries out the command that the words of the command line say (`run_adlb`). If there is a fault it complains of it
/// on standard error. It answers the exit status, which is that of the fault or of none. If the words ask for that, it
/// says on standard error how far the run is, each second while it goes on.
pub fn run_program<R, S, K, T>(rt: &R, input: &mut S, output: &mut K, threads: &mut T) -> u8
where
    R: Env + AllocGlobal + Eprint + Clock + Wait + Send + Copy + 'static,
    S: Source,
    K: Sink,
    T: Spawner,
    ensures { (fault : Option RunFault) × (result ≡ status_of fault) }
{
    match words_of(rt) {
        Ok(words) => {
            let end = run_told(rt, words.as_slice(), input, output, threads);
            answer(rt, words.as_slice(), end)
        }
        Err(fault) => answer(rt, &[], RunEnd::new(Some(fault))),
    }
}

// Carries out the command that the words say, and says meanwhile how far its run is, if they ask for that.
fn run_told<R, S, K, T>(
    rt: &R,
    words: &[String],
    input: &mut S,
    output: &mut K,
    threads: &mut T,
) -> RunEnd
where
    R: AllocGlobal + Eprint + Clock + Wait + Send + Copy + 'static,
    S: Source,
    K: Sink,
    T: Spawner,
    ensures { result.status ≡ status_of result.fault }
{
    let Telling { gate, thread } = Telling::begin(rt, words, &*threads);
    let ended = run_adlb(rt.alloc(), words, input, output, threads, gate);
    end(thread, &*threads);
    ended
}

// The exit status of this end, after what is to be said of it.
fn answer<R: AllocGlobal + Eprint>(rt: &R, words: &[String], end: RunEnd) -> u8
    ensures { result ≡ end.status }
{
    tell(rt, rt.alloc(), end.complaint);
    if let Some(fault) = end.fault {
        complain(rt, rt.alloc(), words, fault);
    }
    end.status
}

// Tells on standard error what is wrong with a ledger that was checked, if anything is; nothing can be done if that fails.
fn tell<R: Eprint>(rt: &R, alloc: Global, illegal: Option<Illegal>) {
    let Some(illegal) = illegal else {
        return;
    };
    if let Ok(text) = illegal.text(alloc) {
        if let Ok(line) = str::from_utf8(&text) {
            let _ = eprintln!(rt; "{line}");
        }
    }
}

// Complains on standard error, where nothing can be done if that fails.
fn complain<R: Eprint>(rt: &R, alloc: Global, words: &[String], fault: RunFault) {
    let complaint = Complaint::new(alloc, words, fault);
    let _ = eprint!(rt; "{complaint}");
}
