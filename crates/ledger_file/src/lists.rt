//! Lists of types, and bytes, as words.

ghost use Rattle.std.specs.Prelude.{◌≡◌, ◌<◌, ℕ, false, MatchResult};
ghost use Rattle.std.specs.Fmt.{digit_glyph};
ghost use Rattle.ledger_file.specs.Fields.{wanted, body};
ghost use Rattle.ledger_file.specs.inside.Reading.{Finds};

use crate::cursor::Parts;
use crate::faults::LineFault;
use crate::numbers::short;
use adlb_unit::{Payload, TYPE_LIMIT, Types, WorkType};
use std::alloc::Global;

/// The types that are written so: any, or from 1 to 16 in their order. `Bad` exactly if none are.
pub fn types(word: &[u8]) -> Result<Types, LineFault>
    ensures { Finds wanted word.now result }
{
    if word == b"any".as_slice() {
        return Ok(Types::any());
    }
    let mut parts = Parts::of(word, b',');
    let mut kinds = [WorkType(0); TYPE_LIMIT];
    let mut count = 0;
    while let Some(part) = parts.next() {
        if count == TYPE_LIMIT {
            return Err(LineFault::Bad);
        }
        kinds[count] = WorkType(short(part)?);
        count += 1;
    }
    match Types::list(&kinds[..count]) {
        Ok(types) => Ok(types),
        Err(_) => Err(LineFault::Bad),
    }
}

/// The bytes that are written so. `Bad` exactly if none are. Its only other error is `Memory`.
pub fn payload(alloc: Global, word: &[u8]) -> Result<Payload, LineFault>
    ensures { Finds body word.now result }
{
    if word == b"-".as_slice() {
        return Ok(Payload::from_vec(Vec::new(alloc)));
    }
    if word.is_empty() {
        return Err(LineFault::Bad);
    }
    let mut bytes = Vec::new(alloc);
    let mut rest = word;
    while let [high, low, after @ ..] = rest {
        let byte = nibble(*high)? * 16 + nibble(*low)?;
        if bytes.push(byte).is_err() {
            return Err(LineFault::Memory);
        }
        rest = after;
    }
    if !rest.is_empty() {
        return Err(LineFault::Bad);
    }
    Ok(Payload::from_vec(bytes))
}

// The number of a hexadecimal digit in lower case. `Bad` exactly if it is not one.
fn nibble(digit: u8) -> Result<u8, LineFault>
    ensures { MatchResult result (λ n. (n < 16) × (digit ≡ digit_glyph false n)) (λ fault. (fault ≡ LineFault.Bad) × ((n : ℕ) → n < 16 → digit ≡ digit_glyph false n → ⊥)) }
{
    match digit {
        b'0'..=b'9' => Ok(digit - b'0'),
        b'a'..=b'f' => Ok(digit - b'a' + 10),
        _ => Err(LineFault::Bad),
    }
}
