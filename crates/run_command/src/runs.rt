//! A run in line or with threads.

ghost use Rattle.std.specs.Prelude.{◌≡◌, ◌≤◌, ◌^◌, true};
ghost use Rattle.run_command.specs.Ends.{EndsBy, scene};
ghost use Rattle.run_command.specs.Kept.{IsKept, IsRunWith};

use crate::commands::Command;
use crate::faults::Ended;
use crate::inline::run_inline;
use crate::threads::run_threads;
use adlb_io::{Gate, Sink, Source, Spawner};
use adlb_unit::Config;
use rank_client::RankProgram;
use std::alloc::Global;

/// Reads what the input asks, works it, in line (`run_inline`) or with threads (`run_threads`), and writes what is told. It ends by its
/// row of `EndsBy`, and `IsRunWith` says what it keeps and starts.
pub fn run<C, S, K, T, G>(
    alloc: Global,
    command: &C,
    config: Config,
    inline: bool,
    input: &mut S,
    output: &mut K,
    threads: &mut T,
    gate: G,
) -> Ended<C::Why, <C::Program as RankProgram>::Outcome>
where
    C: Command,
    C::Asked: Drop,
    C::Why: Copy,
    C::Program: Send + Drop + 'static,
    <C::Program as RankProgram>::Outcome: Send + Drop + 'static,
    S: Source,
    K: Sink,
    T: Spawner,
    G: Gate + Send + Drop + 'static,
    requires single { inline ≡ true → (config.ranks ≡ 1) × (config.servers ≡ 1) }
    ensures ends { EndsBy (C.asks command.now) (C.refuses command.now) (IsKept (C.are_programs command.now) C.Program.follows) (C.tells command.now)
        (λ asked. C.may_take command.now asked config.ranks (2 ^ 34))
        (scene (S.left input.old) (S.faults input.old) (K.taken output.old) (K.faults output.old) (K.all_flushed output.old)
        (T.faults threads.old) (T.starts threads.old))
        (scene (S.left input.new) (S.faults input.new) (K.taken output.new) (K.faults output.new) (K.all_flushed output.new)
        (T.faults threads.new) (T.starts threads.new))
        result.fault result.kept }
    ensures ran { IsRunWith (λ c. c ≡ config) inline
        (scene (S.left input.old) (S.faults input.old) (K.taken output.old) (K.faults output.old) (K.all_flushed output.old)
        (T.faults threads.old) (T.starts threads.old))
        (scene (S.left input.new) (S.faults input.new) (K.taken output.new) (K.faults output.new) (K.all_flushed output.new)
        (T.faults threads.new) (T.starts threads.new))
        result.kept }
    ensures source { S.faults input.old ≤ S.faults input.new }
    ensures sink { K.faults output.old ≤ K.faults output.new }
    ensures threads { T.faults threads.old ≤ T.faults threads.new }
{
    if inline {
        run_inline(alloc, command, config, input, output)
    } else {
        run_threads(alloc, command, config, input, output, threads, gate)
    }
}
