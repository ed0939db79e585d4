//! Bytes that grow piece by piece.

ghost use Rattle.std.specs.Prelude.{◌≡◌, ◌++◌, OnOk};
ghost use Rattle.ledger_stats.specs.Stats.{counted};

use adlb_unit::{NoMemory, or_no_memory};
use itoa::Buffer;

/// Appends the piece. Its only error is `NoMemory`.
pub(crate) fn append(text: &mut Vec<u8>, piece: &[u8]) -> Result<(), NoMemory>
    ensures { OnOk result (text.new.items ≡ text.old.items ++ piece.now) }
{
    or_no_memory(text.extend_from_slice(piece))
}

/// Appends a line of a name and a number. Its only error is `NoMemory`.
pub(crate) fn append_count(text: &mut Vec<u8>, name: &[u8], n: u64) -> Result<(), NoMemory>
    ensures { OnOk result (text.new.items ≡ text.old.items ++ counted name.now n) }
{
    let mut digits = Buffer::new();
    append(text, name)?;
    append(text, b" ")?;
    append(text, digits.format(n).as_bytes())?;
    append(text, b"\n")
}
