//! The pieces of a body.

ghost use Rattle.std.specs.Prelude.{◌≡◌, ◌≤◌, ◌<◌, ◌^◌, ◌++◌, OnOk, IfOk, length};
ghost use Rattle.std.specs.Int.{to_be_bytes, w32, w64};

use adlb_unit::{NoMemory, Payload, or_no_memory};
use std::alloc::Global;

/// Three pieces, one after the other, of which the first two are numbers or empty. Its only error is `NoMemory`.
pub fn joined(alloc: Global, first: &[u8], second: &[u8], third: &[u8]) -> Result<Payload, NoMemory>
    requires first { length first.now ≤ 8 }
    requires second { length second.now ≤ 8 }
    ensures { IfOk result (λ p. p ≡ first.now ++ second.now ++ third.now) }
{
    let count = first.len() + second.len() + third.len();
    let mut bytes = or_no_memory(Vec::with_capacity(alloc, count))?;
    append(&mut bytes, first)?;
    append(&mut bytes, second)?;
    append(&mut bytes, third)?;
    Ok(Payload::from_vec(bytes))
}

// Appends the piece.
fn append(bytes: &mut Vec<u8>, piece: &[u8]) -> Result<(), NoMemory>
    ensures { OnOk result (bytes.new.items ≡ bytes.old.items ++ piece.now) }
{
    or_no_memory(bytes.extend_from_slice(piece))
}

/// The bytes of a number, which it fits.
pub fn word(number: u32) -> [u8; 4]
    ensures bytes { result ≡ to_be_bytes w32 number }
    ensures fits { number < 2 ^ 32 }
{
    number.to_be_bytes()
}

/// The bytes of a long number, which it fits.
pub fn long_word(number: u64) -> [u8; 8]
    ensures bytes { result ≡ to_be_bytes w64 number }
    ensures fits { number < 2 ^ 64 }
{
    number.to_be_bytes()
}

/// The bytes in place.
pub fn array_of<const N: usize>(bytes: &[u8]) -> [u8; N]
    requires { length bytes.now ≡ N }
    ensures { result ≡ bytes.now }
{
    let mut array = [0u8; N];
    array.copy_from_slice(bytes);
    array
}
