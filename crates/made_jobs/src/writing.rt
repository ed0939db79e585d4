//! The writing of a made text.

ghost use Rattle.std.specs.Prelude.{◌≤◌};
ghost use Rattle.made_jobs.specs.Ends.{MakesTo, sink_seen};
ghost use Rattle.made_jobs.specs.Made.{made_text};

use crate::faults::MadeFault;
use crate::texts::made;
use adlb_io::{Sink, write_all};
use std::alloc::Global;

/// Writes the text of `count` puzzles drawn from a seed (`made_text`), and flushes. `MakesTo` says how it ends: at `Ok`
/// the sink took exactly the text. `Write` comes only if the sink's count of faults rose (or is at its last
/// value). At `Write` and `Memory`, its only other error, a part of the text's front was taken, which may be nothing.
pub fn write_made<K: Sink>(
    alloc: Global,
    count: u32,
    seed: u64,
    output: &mut K,
) -> Result<(), MadeFault>
    ensures ends { MakesTo (made_text count seed)
        (sink_seen (K.taken output.old) (K.faults output.old) (K.all_flushed output.old))
        (sink_seen (K.taken output.new) (K.faults output.new) (K.all_flushed output.new))
        result }
    ensures later { K.faults output.old ≤ K.faults output.new }
{
    let text = made(alloc, count, seed)?;
    match write_all(output, &text) {
        Ok(()) => Ok(()),
        Err(unwritten) => Err(MadeFault::from(unwritten.fault)),
    }
}
