//! The bytes of a picture, piece by piece.

ghost use Rattle.std.specs.Prelude.{◌≡◌, ◌++◌, OnOk, decimal};

use adlb_unit::{NoMemory, or_no_memory};
use itoa::Buffer;

/// Appends the piece. Its only error is `NoMemory`.
pub(crate) fn put(text: &mut Vec<u8>, piece: &[u8]) -> Result<(), NoMemory>
    ensures { OnOk result (text.new.items ≡ text.old.items ++ piece.now) }
{
    or_no_memory(text.extend_from_slice(piece))
}

/// Appends the number in decimal digits. Its only error is `NoMemory`.
pub(crate) fn put_number(text: &mut Vec<u8>, n: u64) -> Result<(), NoMemory>
    ensures { OnOk result (text.new.items ≡ text.old.items ++ decimal n) }
{
    let mut digits = Buffer::new();
    put(text, digits.format(n).as_bytes())
}

/// Appends the form, with these numbers in place of each `~`, in order. Its only error is `NoMemory`.
pub(crate) fn fill(text: &mut Vec<u8>, form: &[u8], numbers: &[u64]) -> Result<(), NoMemory> {
    let mut next = 0;
    for byte in form {
        if *byte == b'~' {
            if let Some(n) = numbers.get(next) {
                put_number(text, *n)?;
            }
            next = next.saturating_add(1);
        } else {
            put(text, &[*byte])?;
        }
    }
    Ok(())
}

/// Appends the piece as the text of an element: `<` and `&` are written as their names. Its only error is `NoMemory`.
pub(crate) fn put_escaped(text: &mut Vec<u8>, piece: &[u8]) -> Result<(), NoMemory> {
    for byte in piece {
        match *byte {
            b'<' => put(text, b"&lt;")?,
            b'&' => put(text, b"&amp;")?,
            byte => put(text, &[byte])?,
        }
    }
    Ok(())
}
