//! A run with threads: each rank and each server in a thread of its own.

ghost use Rattle.std.specs.Prelude.{◌≡◌, ◌≤◌, ◌^◌, true, Err, IfOk, OnOk, IfErr, IfSome, IsSome};
ghost use Rattle.adlb_io.specs.Inputs.{IsAtEnd};
ghost use Rattle.adlb_io.specs.Outside.{Rises};
ghost use Rattle.run_command.specs.Ends.{EndsBy, IsAnswered, scene};
ghost use Rattle.run_command.specs.inside.{HasStarted, IsStopOf, Stops};
ghost use Rattle.run_command.specs.Kept.{HasRun, IsKept};

use crate::answers::{Answer, answer_of};
use crate::commands::Command;
use crate::faults::{Ended, Fault};
use crate::kept::Kept;
use crate::programs::programs_of;
use crate::reading::read_input;
use crate::writing::write_answer;
use adlb_io::{Gate, Sink, Source, Spawner};
use adlb_threads::{RanFault, run_ranks};
use adlb_unit::Config;
use rank_client::RankProgram;
use std::alloc::Global;

/// Reads what the input asks, works it by the programs of the configuration's ranks over its servers, each in a thread of its own, and
/// writes what is told. It waits for its threads.
///
/// `EndsBy` says of each end what was written and kept and why it came, as of a run in line, and one end besides. `NoThread`: the
/// spawner's count of faults rose (or is at its last value). `TooLong`: a stamp would be past the last one, and all ranks together
/// may begin 2^34 calls over what is asked. What is kept is of a run in threads, which is one run of all actors (`Kept::one_run`).
pub fn run_threads<C, S, K, T, G>(
    alloc: Global,
    command: &C,
    config: Config,
    input: &mut S,
    output: &mut K,
    threads: &mut T,
    gate: G,
) -> Ended<C::Why, <C::Program as RankProgram>::Outcome>
where
    C: Command,
    C::Asked: Drop,
    C::Why: Copy,
    C::Program: Send + Drop + 'static,
    <C::Program as RankProgram>::Outcome: Send + Drop + 'static,
    S: Source,
    K: Sink,
    T: Spawner,
    G: Gate + Send + Drop + 'static,
    ensures ends { EndsBy (C.asks command.now) (C.refuses command.now) (IsKept (C.are_programs command.now) C.Program.follows) (C.tells command.now)
        (λ asked. C.may_take command.now asked config.ranks (2 ^ 34))
        (scene (S.left input.old) (S.faults input.old) (K.taken output.old) (K.faults output.old) (K.all_flushed output.old)
        (T.faults threads.old) (T.starts threads.old))
        (scene (S.left input.new) (S.faults input.new) (K.taken output.new) (K.faults output.new) (K.all_flushed output.new)
        (T.faults threads.new) (T.starts threads.new))
        result.fault result.kept }
    ensures config { IfSome result.kept (λ k. k.report.config ≡ config) }
    ensures threaded { IfSome result.kept (λ k. k.threaded ≡ true) }
    ensures started { IsSome result.kept → HasStarted config (T.starts threads.old) (T.starts threads.new) }
    ensures source { S.faults input.old ≤ S.faults input.new }
    ensures sink { K.faults output.old ≤ K.faults output.new }
    ensures threads { T.faults threads.old ≤ T.faults threads.new }
{
    match answer_threads(alloc, command, config, input, threads, gate) {
        Ok(answer) => write_answer(output, answer),
        Err(fault) => Ended::new(Some(fault), None),
    }
}

// The answer to what the input asks.
fn answer_threads<C, S, T, G>(
    alloc: Global,
    command: &C,
    config: Config,
    input: &mut S,
    threads: &mut T,
    gate: G,
) -> Result<Answer<<C::Program as RankProgram>::Outcome>, Fault<C::Why>>
where
    C: Command,
    C::Asked: Drop,
    C::Why: Copy,
    C::Program: Send + Drop + 'static,
    <C::Program as RankProgram>::Outcome: Send + Drop + 'static,
    S: Source,
    T: Spawner,
    G: Gate + Send + Drop + 'static,
    ensures answered { IfOk result (λ a. IsAnswered (C.asks command.now) (C.refuses command.now)
        (IsKept (C.are_programs command.now) C.Program.follows) (C.tells command.now) (S.left input.old) a.kept a.text.items) }
    ensures config { IfOk result (λ a. a.kept.report.config ≡ config) }
    ensures threaded { IfOk result (λ a. a.kept.threaded ≡ true) }
    ensures end { OnOk result (IsAtEnd (S.left input.new)) }
    ensures stopped { IfErr result (Stops (C.asks command.now) (C.refuses command.now)
        (λ asked. C.may_take command.now asked config.ranks (2 ^ 34)) (S.left input.old) (S.left input.new) (S.faults input.old) (S.faults input.new) (T.faults threads.old) (T.faults threads.new)) }
    ensures started { OnOk result (HasStarted config (T.starts threads.old) (T.starts threads.new)) }
    ensures source { S.faults input.old ≤ S.faults input.new }
    ensures later { T.faults threads.old ≤ T.faults threads.new }
{
    let asked = match read_input(alloc, command, input) {
        Ok(asked) => asked,
        Err(fault) => return Err(fault),
    };
    let kept = match run_in_threads(alloc, command, config, &asked, threads, gate) {
        Ok(kept) => kept,
        Err(met) => return Err(Fault::ran(met)),
    };
    answer_of(alloc, command, &asked, kept)
}

// Runs what is asked by its programs, each rank and each server in a thread of its own.
fn run_in_threads<C, T, G>(
    alloc: Global,
    command: &C,
    config: Config,
    asked: &C::Asked,
    threads: &mut T,
    gate: G,
) -> Result<Kept<<C::Program as RankProgram>::Outcome>, RanFault>
where
    C: Command,
    C::Program: Send + Drop + 'static,
    <C::Program as RankProgram>::Outcome: Send + Drop + 'static,
    T: Spawner,
    G: Gate + Send + Drop + 'static,
    ensures run { IfOk result (λ k. HasRun (C.are_programs command.now) C.Program.follows asked.now k.report) }
    ensures config { IfOk result (λ k. k.report.config ≡ config) }
    ensures threaded { IfOk result (λ k. k.threaded ≡ true) }
    ensures faults { IfErr result (IsStopOf (C.may_take command.now asked.now config.ranks (2 ^ 34))) }
    ensures no_thread { result ≡ Err RanFault.NoThread → Rises (T.faults threads.old) (T.faults threads.new) }
    ensures started { OnOk result (HasStarted config (T.starts threads.old) (T.starts threads.new)) }
    ensures later { T.faults threads.old ≤ T.faults threads.new }
{
    let Ok(programs) = programs_of(alloc, command, config.ranks, asked) else {
        return Err(RanFault::Memory);
    };
    match run_ranks(alloc, config, programs, threads, gate) {
        Ok(report) => Ok(Kept::threaded(report)),
        Err(met) => Err(met),
    }
}
