//! The top call: from the words and the input to the output.

ghost use Rattle.std.specs.Prelude.{◌≡◌, ◌≤◌, ℕ, List, Option, Some, None, map};
ghost use Rattle.std.specs.String.{string_bytes};
ghost use Rattle.command_words.specs.Said.{command_of};
ghost use Rattle.run_command.specs.Ends.{scene};
ghost use Rattle.command_ends.specs.Ends.{status_of};
ghost use Rattle.adlb_command.specs.Top.{EndsAs, EndsAsChecked, EndsAsDrawn, EndsAsMade};

use crate::words::{config, extras, settings};
use adlb_io::{Gate, Sink, Source, Spawner};
use command_ends::{RunEnd, RunFault};
use command_words::{Command, read_words};
use draw_command::draw_ledger;
use flow_command::flow;
use ledger_command::check_ledger;
use made_jobs::write_made;
use solve_command::{drill, solve};
use std::alloc::Global;
use tour_command::tour;

/// Runs the command that the words give. `solve` reads puzzles and batches of items from the input, and writes their report to
/// the output, and what else the words ask for. `make` reads nothing, and writes puzzles and batches that are made from a seed; `drill`
/// reads nothing, works these as `solve` would, and writes a summary. `check` reads the text of a ledger, and writes whether it is a
/// legal run; `draw` reads one, and writes its picture. `tour` reads cities, and writes a least tour through them. `flow` reads named
/// values and rules, and writes what each name is worth. `solve`, `drill`, `tour` and `flow` run each rank and each server in a thread of
/// its own, and wait for them, unless the words say `--inline`; the others start no thread. Status 0 says that the whole output was
/// written and flushed.
///
/// It ends as the command does that the words say (`EndsAs`): `solve`, `drill`, `tour` and `flow` by their row of `EndsBy`, `make` as
/// `write_made`, `check` as `check_ledger`, and `draw` as `draw_ledger`. If they say none it ends with `Usage`, and nothing is read or
/// written then. Each fault that has its cause yields to `Memory`. What follows of accepted and refused inputs is in `end_laws`.
pub fn run_adlb<S: Source, K: Sink, T: Spawner, G: Gate + Send + Drop + 'static>(
    alloc: Global,
    words: &[String],
    input: &mut S,
    output: &mut K,
    threads: &mut T,
    gate: G,
) -> RunEnd
    ensures status { result.status ≡ status_of result.fault }
    ensures ends { EndsAs (command_of (map string_bytes words.now))
        (scene (S.left input.old) (S.faults input.old) (K.taken output.old) (K.faults output.old) (K.all_flushed output.old)
        (T.faults threads.old) (T.starts threads.old))
        (scene (S.left input.new) (S.faults input.new) (K.taken output.new) (K.faults output.new) (K.all_flushed output.new)
        (T.faults threads.new) (T.starts threads.new))
        result.fault result.kept }
    ensures source { S.faults input.old ≤ S.faults input.new }
    ensures sink { K.faults output.old ≤ K.faults output.new }
    ensures threads { T.faults threads.old ≤ T.faults threads.new }
{
    match read_words(alloc, words) {
        Ok(Command::Solve(words)) => RunEnd::of(solve(
            alloc,
            settings(&words.options),
            extras(&words),
            config(&words.options.sizes, words.options.inline),
            words.options.inline,
            input,
            output,
            threads,
            gate,
        )),
        Ok(Command::Check) => check(alloc, input, output),
        Ok(Command::Draw) => draw(alloc, input, output),
        Ok(Command::Make { count, seed }) => make(alloc, count, seed, output),
        Ok(
            Command::Drill {
                count,
                seed,
                options,
            },
        ) => RunEnd::of(drill(
            alloc,
            count,
            seed,
            settings(&options),
            config(&options.sizes, options.inline),
            options.inline,
            output,
            threads,
            gate,
        )),
        Ok(Command::Tour(words)) => RunEnd::of(tour(
            alloc,
            config(&words.sizes, false),
            input,
            output,
            threads,
            gate,
        )),
        Ok(Command::Flow(asked)) => RunEnd::of(flow(
            alloc,
            config(&asked.sizes, false),
            input,
            output,
            threads,
            gate,
        )),
        Err(met) => RunEnd::new(Some(RunFault::from(met))),
    }
}

// Checks a ledger.
fn check<S: Source, K: Sink>(alloc: Global, input: &mut S, output: &mut K) -> RunEnd
    ensures status { result.status ≡ status_of result.fault }
    ensures ends { (refused started : ℕ) → EndsAsChecked
        (scene (S.left input.old) (S.faults input.old) (K.taken output.old) (K.faults output.old) (K.all_flushed output.old) refused started)
        (scene (S.left input.new) (S.faults input.new) (K.taken output.new) (K.faults output.new) (K.all_flushed output.new) refused started)
        result.fault result.kept }
    ensures source { S.faults input.old ≤ S.faults input.new }
    ensures sink { K.faults output.old ≤ K.faults output.new }
{
    let mut complaint = None;
    match check_ledger(alloc, input, output, &mut complaint) {
        Ok(_) => RunEnd::complaining(complaint),
        Err(fault) => RunEnd::new(Some(RunFault::from(fault))),
    }
}

// Draws a ledger.
fn draw<S: Source, K: Sink>(alloc: Global, input: &mut S, output: &mut K) -> RunEnd
    ensures status { result.status ≡ status_of result.fault }
    ensures ends { (refused started : ℕ) → EndsAsDrawn
        (scene (S.left input.old) (S.faults input.old) (K.taken output.old) (K.faults output.old) (K.all_flushed output.old) refused started)
        (scene (S.left input.new) (S.faults input.new) (K.taken output.new) (K.faults output.new) (K.all_flushed output.new) refused started)
        result.fault result.kept }
    ensures source { S.faults input.old ≤ S.faults input.new }
    ensures sink { K.faults output.old ≤ K.faults output.new }
{
    match draw_ledger(alloc, input, output) {
        Ok(_) => RunEnd::new(None),
        Err(fault) => RunEnd::new(Some(RunFault::from(fault))),
    }
}

// Makes an input.
fn make<K: Sink>(alloc: Global, count: u32, seed: u64, output: &mut K) -> RunEnd
    ensures status { result.status ≡ status_of result.fault }
    ensures ends { (left : Option (List ℕ)) (reads refused started : ℕ) → EndsAsMade count seed
        (scene left reads (K.taken output.old) (K.faults output.old) (K.all_flushed output.old) refused started)
        (scene left reads (K.taken output.new) (K.faults output.new) (K.all_flushed output.new) refused started)
        result.fault result.kept }
    ensures sink { K.faults output.old ≤ K.faults output.new }
{
    match write_made(alloc, count, seed, output) {
        Ok(()) => RunEnd::new(None),
        Err(fault) => RunEnd::new(Some(RunFault::from(fault))),
    }
}
