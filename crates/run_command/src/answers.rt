//! The answer to what an input asks: what is kept of its run, and what is written of it.

ghost use Rattle.std.specs.Prelude.{◌≡◌, IfOk, IfErr};
ghost use Rattle.run_command.specs.Kept.{HasRun, IsKept};

use crate::commands::Command;
use crate::faults::Fault;
use crate::kept::Kept;
use rank_client::RankProgram;
use std::alloc::Global;

/// What is kept of a run, and what is written of it.
#[derive(Drop)]
pub(crate) struct Answer<O> {
    pub kept: Kept<O>,
    pub text: Vec<u8>,
}

/// The answer of a run over what was asked, of which this is kept. Its only error is `Memory`.
pub(crate) fn answer_of<C>(
    alloc: Global,
    command: &C,
    asked: &C::Asked,
    kept: Kept<<C::Program as RankProgram>::Outcome>,
) -> Result<Answer<<C::Program as RankProgram>::Outcome>, Fault<C::Why>>
where
    C: Command,
    <C::Program as RankProgram>::Outcome: Drop,
    requires run { HasRun (C.are_programs command.now) C.Program.follows asked.now kept.report }
    ensures same { IfOk result (λ a. a.kept ≡ kept) }
    ensures answered { IfOk result (λ a. IsKept (C.are_programs command.now) C.Program.follows asked.now a.kept
        × C.tells command.now asked.now a.kept a.text.items) }
    ensures fault { IfErr result (λ fault. fault ≡ Fault.Memory) }
{
    match command.tell(alloc, asked, &kept) {
        Ok(text) => Ok(Answer { kept, text }),
        Err(_) => Err(Fault::Memory),
    }
}
