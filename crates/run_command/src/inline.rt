//! A run in line: one rank and one server on the caller's own thread.

ghost use Rattle.std.specs.Prelude.{◌≡◌, ◌≤◌, ◌^◌, ℕ, IfOk, OnOk, IfErr, IfSome};
ghost use Rattle.adlb_io.specs.Inputs.{IsAtEnd};
ghost use Rattle.run_command.specs.Ends.{EndsBy, IsAnswered, scene};
ghost use Rattle.run_command.specs.inside.{Stops};
ghost use Rattle.run_command.specs.Kept.{IsKept};

use crate::answers::{Answer, answer_of};
use crate::commands::Command;
use crate::faults::{Ended, Fault};
use crate::programs::run_in_line;
use crate::reading::read_input;
use crate::writing::write_answer;
use adlb_io::{Sink, Source};
use adlb_unit::Config;
use rank_client::RankProgram;
use std::alloc::Global;

/// Reads what the input asks, works it by the program of one rank over one server, and writes what is told. It returns, since nothing in
/// it waits.
///
/// `EndsBy` says of each end what was written and kept and why it came, whatever a spawner of threads counts: none is used. Without a
/// fault the whole text was written and flushed, and the kept ledger is a legal run. `Input`: a line is refused, and no read failed.
/// `TooLarge`: the input has more than 2^24 bytes. `Read` and `Write`: the count of faults of the source or of the sink rose (or is
/// at its last value). `TooLong`: a stamp would be past the last one, and the rank may begin 2^34 calls over what is asked. `Memory`: an
/// allocation failed; contracts never say when.
pub fn run_inline<C, S, K>(
    alloc: Global,
    command: &C,
    config: Config,
    input: &mut S,
    output: &mut K,
) -> Ended<C::Why, <C::Program as RankProgram>::Outcome>
where
    C: Command,
    C::Asked: Drop,
    C::Why: Copy,
    C::Program: Drop,
    <C::Program as RankProgram>::Outcome: Drop,
    S: Source,
    K: Sink,
    requires one_rank { config.ranks ≡ 1 }
    requires one_server { config.servers ≡ 1 }
    ensures ends { (refused started refused' started' : ℕ) →
        EndsBy (C.asks command.now) (C.refuses command.now) (IsKept (C.are_programs command.now) C.Program.follows) (C.tells command.now)
        (λ asked. C.may_take command.now asked config.ranks (2 ^ 34))
        (scene (S.left input.old) (S.faults input.old) (K.taken output.old) (K.faults output.old) (K.all_flushed output.old) refused started)
        (scene (S.left input.new) (S.faults input.new) (K.taken output.new) (K.faults output.new) (K.all_flushed output.new) refused' started')
        result.fault result.kept }
    ensures config { IfSome result.kept (λ k. k.report.config ≡ config) }
    ensures source { S.faults input.old ≤ S.faults input.new }
    ensures sink { K.faults output.old ≤ K.faults output.new }
{
    match answer_inline(alloc, command, config, input) {
        Ok(answer) => write_answer(output, answer),
        Err(fault) => Ended::new(Some(fault), None),
    }
}

// The answer to what the input asks.
fn answer_inline<C, S>(
    alloc: Global,
    command: &C,
    config: Config,
    input: &mut S,
) -> Result<Answer<<C::Program as RankProgram>::Outcome>, Fault<C::Why>>
where
    C: Command,
    C::Asked: Drop,
    C::Why: Copy,
    C::Program: Drop,
    <C::Program as RankProgram>::Outcome: Drop,
    S: Source,
    requires one_rank { config.ranks ≡ 1 }
    requires one_server { config.servers ≡ 1 }
    ensures answered { IfOk result (λ a. IsAnswered (C.asks command.now) (C.refuses command.now)
        (IsKept (C.are_programs command.now) C.Program.follows) (C.tells command.now) (S.left input.old) a.kept a.text.items) }
    ensures config { IfOk result (λ a. a.kept.report.config ≡ config) }
    ensures end { OnOk result (IsAtEnd (S.left input.new)) }
    ensures stopped { (refused refused' : ℕ) → IfErr result (Stops (C.asks command.now) (C.refuses command.now)
        (λ asked. C.may_take command.now asked config.ranks (2 ^ 34)) (S.left input.old) (S.left input.new) (S.faults input.old) (S.faults input.new) refused refused') }
    ensures later { S.faults input.old ≤ S.faults input.new }
{
    let asked = match read_input(alloc, command, input) {
        Ok(asked) => asked,
        Err(fault) => return Err(fault),
    };
    let kept = match run_in_line(alloc, command, config, &asked) {
        Ok(kept) => kept,
        Err(trouble) => return Err(Fault::by(trouble)),
    };
    answer_of(alloc, command, &asked, kept)
}
