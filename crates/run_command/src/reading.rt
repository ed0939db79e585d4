//! The reading of an input.

ghost use Rattle.std.specs.Prelude.{◌≡◌, ◌≤◌, ◌+◌, ℕ, List, Some, length, IfOk, OnOk, IfErr};
ghost use Rattle.adlb_io.specs.Inputs.{IsAtEnd};
ghost use Rattle.run_command.specs.Ends.{Asks, input_limit};
ghost use Rattle.run_command.specs.inside.{IsRefusal, Stops};

use crate::commands::{Command, ReadFault};
use crate::faults::Fault;
use adlb_io::{Source, SourceFault, read_up_to};
use std::alloc::Global;

/// The most bytes of an input.
const INPUT_LIMIT: usize = 0x100_0000;

/// Reads what the input asks. `TooLarge` comes exactly if it has more than 2^24 bytes, of which one more is then taken. `Input` comes
/// exactly if one of its lines is refused, both only if no read failed; `Read` only if the source's count of faults rose (or is at
/// its last value). Any of these yields to `Memory`.
pub(crate) fn read_input<C, S>(
    alloc: Global,
    command: &C,
    input: &mut S,
) -> Result<C::Asked, Fault<C::Why>>
where
    C: Command,
    C::Asked: Drop,
    C::Why: Copy,
    S: Source,
    ensures asked { IfOk result (λ asked. (bytes : List ℕ) → S.left input.old ≡ Some bytes → Asks (C.asks command.now) bytes asked) }
    ensures end { OnOk result (IsAtEnd (S.left input.new)) }
    ensures stopped { (refused refused' : ℕ) → IfErr result (Stops (C.asks command.now) (C.refuses command.now)
        (λ asked. ⊥) (S.left input.old) (S.left input.new) (S.faults input.old) (S.faults input.new) refused refused') }
    ensures later { S.faults input.old ≤ S.faults input.new }
{
    let mut bytes = match read_up_to(alloc, input, INPUT_LIMIT + 1) {
        Ok(bytes) => bytes,
        Err(SourceFault::Failed) => return Err(Fault::Read),
        Err(SourceFault::Memory) => return Err(Fault::Memory),
    };
    if bytes.len() > INPUT_LIMIT {
        let taken = bytes.len() as u64;
        return Err(Fault::TooLarge { taken });
    }
    let asked = read_bytes(alloc, command, &bytes);
    // The C library keeps blocks as large as the largest that it was given back; a list that shrinks first does not tell it so.
    bytes.truncate(1);
    bytes.shrink_to_fit();
    asked
}

// Reads what these bytes ask.
fn read_bytes<C>(alloc: Global, command: &C, bytes: &[u8]) -> Result<C::Asked, Fault<C::Why>>
where
    C: Command,
    C::Asked: Drop,
    C::Why: Copy,
    requires { length bytes.now ≤ input_limit }
    ensures asked { IfOk result (C.asks command.now bytes.now) }
    ensures refused { IfErr result (IsRefusal (C.refuses command.now bytes.now)) }
{
    match command.read(alloc, bytes) {
        Ok(asked) => Ok(asked),
        Err(ReadFault::Refused { line, why }) => Err(Fault::Input { line, why }),
        Err(ReadFault::Memory) => Err(Fault::Memory),
    }
}
