//! The writing of a picture.

ghost use Rattle.std.specs.Prelude.{◌≤◌};
ghost use Rattle.draw_command.specs.inside.{Writes};

use adlb_io::{Sink, write_all};
use ledger_command::CheckFault;
use ledger_picture::{Numbers, Picture};

/// Writes the picture's text and flushes. `Write` comes only if the sink's count of faults rose (or is at its last value). At `Write`
/// and `Memory`, its only other error, a part of the text's front was taken, which may be nothing.
pub(crate) fn write_picture<K: Sink>(
    output: &mut K,
    picture: Picture,
) -> Result<Numbers, CheckFault>
    ensures written { Writes picture.numbers picture.text.items (K.taken output.old) (K.taken output.new)
        (K.faults output.old) (K.faults output.new) (K.all_flushed output.new) result }
    ensures later { K.faults output.old ≤ K.faults output.new }
{
    let Picture { numbers, text } = picture;
    match write_all(output, &text) {
        Ok(()) => Ok(numbers),
        Err(unwritten) => Err(CheckFault::from(unwritten.fault)),
    }
}
