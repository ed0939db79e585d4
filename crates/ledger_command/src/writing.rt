//! The writing of what is told.

ghost use Rattle.std.specs.Prelude.{◌≤◌};
ghost use Rattle.ledger_command.specs.inside.{Writes};

use crate::faults::CheckFault;
use crate::verdicts::Verdict;
use adlb_io::{Sink, write_all};
use std::alloc::Global;

/// Writes the verdict's line and flushes. `Write` comes only if the sink's count of faults rose (or is at its last
/// value). At `Write` and `Memory`, its only other error, a part of the line's front was taken, which may be nothing.
pub fn write_verdict<K: Sink>(
    alloc: Global,
    output: &mut K,
    verdict: Verdict,
) -> Result<Verdict, CheckFault>
    ensures written { Writes verdict (K.taken output.old) (K.taken output.new)
        (K.faults output.old) (K.faults output.new) (K.all_flushed output.new) result }
    ensures later { K.faults output.old ≤ K.faults output.new }
{
    let line = verdict.line(alloc)?;
    match write_all(output, &line) {
        Ok(()) => Ok(verdict),
        Err(unwritten) => Err(CheckFault::from(unwritten.fault)),
    }
}
