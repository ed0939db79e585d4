//! Bytes that grow piece by piece.

ghost use Rattle.std.specs.Prelude.{◌≡◌, ◌++◌, OnOk, decimal};
ghost use Rattle.job_report.specs.Report.{counted};

use adlb_unit::{NoMemory, or_no_memory};
use itoa::Buffer;

/// Appends the piece. Its only error is `NoMemory`.
pub(crate) fn append(text: &mut Vec<u8>, piece: &[u8]) -> Result<(), NoMemory>
    ensures { OnOk result (text.new.items ≡ text.old.items ++ piece.now) }
{
    or_no_memory(text.extend_from_slice(piece))
}

/// Appends the number in decimal digits. Its only error is `NoMemory`.
pub(crate) fn append_number(text: &mut Vec<u8>, n: u128) -> Result<(), NoMemory>
    ensures { OnOk result (text.new.items ≡ text.old.items ++ decimal n) }
{
    let mut digits = Buffer::new();
    append(text, digits.format(n).as_bytes())
}

/// Appends a line of a name and a number. Its only error is `NoMemory`.
pub(crate) fn append_count(text: &mut Vec<u8>, name: &[u8], n: u128) -> Result<(), NoMemory>
    ensures { OnOk result (text.new.items ≡ text.old.items ++ counted name.now n) }
{
    append(text, name)?;
    append(text, b" ")?;
    append_number(text, n)?;
    append(text, b"\n")
}
