//! The writing of what is told.

ghost use Rattle.std.specs.Prelude.{◌≡◌, ◌≤◌, Some, None};
ghost use Rattle.run_command.specs.inside.{Writes, fault_of, kept_of};

use crate::answers::Answer;
use crate::faults::{Ended, Fault};
use crate::kept::Kept;
use adlb_io::{Sink, SinkFault, Unwritten, write_all};

/// Writes the text and flushes, and ends the run. What is kept of it is kept if the whole text was written, if a write failed, and if
/// an allocation failed after the sink took a byte.
pub(crate) fn write_answer<W, O, K>(output: &mut K, answer: Answer<O>) -> Ended<W, O>
where
    O: Drop,
    K: Sink,
    ensures written { Writes answer.kept answer.text.items (K.taken output.old) (K.taken output.new)
        (K.faults output.old) (K.faults output.new) (K.all_flushed output.new) result.fault result.kept }
    ensures later { K.faults output.old ≤ K.faults output.new }
{
    let Answer { kept, text } = answer;
    match write_all(output, &text) {
        Ok(()) => Ended::new(None, Some(kept)),
        Err(unwritten) => cut_off(unwritten, kept),
    }
}

// The end of a run whose text was not written whole.
fn cut_off<W, O: Drop>(unwritten: Unwritten, kept: Kept<O>) -> Ended<W, O>
    ensures fault { result.fault ≡ Some (fault_of unwritten.fault) }
    ensures kept { result.kept ≡ kept_of unwritten.fault unwritten.taken kept }
{
    let fault = Fault::of(unwritten.fault);
    match unwritten.fault {
        SinkFault::Failed => Ended::new(Some(fault), Some(kept)),
        SinkFault::Memory if unwritten.taken == 0 => Ended::new(Some(fault), None),
        SinkFault::Memory => Ended::new(Some(fault), Some(kept)),
    }
}
