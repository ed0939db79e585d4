//! Numbers and ids of 32 and 64 bits, as words.

ghost use Rattle.std.specs.Prelude.{◌≡◌, ◌↔◌, IsTrue};
ghost use Rattle.ledger_file.specs.Fields.{u32 as short_field, u64 as long_field, i32 as signed_field, id as id_field};
ghost use Rattle.ledger_file.specs.inside.Reading.{Finds};

use crate::cursor::cut;
use crate::faults::LineFault;
use itoa::{Buffer, Integer};
use std::str;

/// The word is how the number is written.
pub fn is_written<I: Integer>(n: I, word: &[u8]) -> bool
    ensures { IsTrue result ↔ (word.now ≡ I.text n) }
{
    let mut digits = Buffer::new();
    digits.format(n).as_bytes() == word
}

/// The number of 64 bits that is written so. `Bad` exactly if none is.
pub fn number(word: &[u8]) -> Result<u64, LineFault>
    ensures { Finds long_field word.now result }
{
    let Ok(text) = str::from_utf8(word) else {
        return Err(LineFault::Bad);
    };
    let Ok(n) = text.parse::<u64>() else {
        return Err(LineFault::Bad);
    };
    if !is_written(n, word) {
        return Err(LineFault::Bad);
    }
    Ok(n)
}

/// The number of 32 bits that is written so. `Bad` exactly if none is.
pub fn short(word: &[u8]) -> Result<u32, LineFault>
    ensures { Finds short_field word.now result }
{
    let n = number(word)?;
    if n > u32::MAX as u64 {
        return Err(LineFault::Bad);
    }
    Ok(n as u32)
}

/// The priority that is written so. `Bad` exactly if none is.
pub fn prio(word: &[u8]) -> Result<i32, LineFault>
    ensures { Finds signed_field word.now result }
{
    let Ok(text) = str::from_utf8(word) else {
        return Err(LineFault::Bad);
    };
    let Ok(prio) = text.parse::<i32>() else {
        return Err(LineFault::Bad);
    };
    if !is_written(prio, word) {
        return Err(LineFault::Bad);
    }
    Ok(prio)
}

/// The rank and the number of the id that is written so. `Bad` exactly if none is.
pub fn id(word: &[u8]) -> Result<(u32, u64), LineFault>
    ensures { Finds (λ x. id_field x.0 x.1) word.now result }
{
    let Some((rank, after)) = cut(word, b'.') else {
        return Err(LineFault::Bad);
    };
    Ok((short(rank)?, number(after)?))
}
