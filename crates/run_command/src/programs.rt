//! The programs of a command's ranks; and that of one rank over one server, from what is asked to its report.

ghost use Rattle.std.specs.Prelude.{◌≡◌, ◌≤◌, ◌<◌, ◌^◌, ℕ, [], ◌∷◌, length, slice_get, None, Some, Err, true, false, IfOk, OnOk, IfErr};
ghost use Rattle.core_inline.specs.Inline.{IsEnd, batch_of, zeroth};
ghost use Rattle.rank_client.specs.Calls.{Repeats, has_finished};
ghost use Rattle.run_command.specs.inside.{HasNumbers, HasWorked, IsOneMore, IsReportOf, IsTroubleOf};
ghost use Rattle.run_command.specs.Kept.{HasRun};

use crate::commands::Command;
use crate::kept::Kept;
use adlb_threads::Report;
use adlb_unit::{Config, NoMemory, Rank, Trouble, or_no_memory};
use bag_ledger::Said;
use core_inline::InlineWorld;
use ghost_list::Trace;
use packed_ledger::Ledger;
use rank_client::{Adlb, RankProgram};
use server_core::LeftUnit;
use std::alloc::Global;

/// Runs what is asked by the program of one rank over one server of its own, and finishes it. It fails if an allocation fails, or if a
/// stamp would be past the last one, and then the rank may begin 2^34 calls over what is asked.
pub(crate) fn run_in_line<C>(
    alloc: Global,
    command: &C,
    config: Config,
    asked: &C::Asked,
) -> Result<Kept<<C::Program as RankProgram>::Outcome>, Trouble>
where
    C: Command,
    C::Program: Drop,
    <C::Program as RankProgram>::Outcome: Drop,
    requires one_rank { config.ranks ≡ 1 }
    requires one_server { config.servers ≡ 1 }
    ensures run { IfOk result (λ k. HasRun (C.are_programs command.now) C.Program.follows asked.now k.report) }
    ensures config { IfOk result (λ k. k.report.config ≡ config) }
    ensures faults { IfErr result (IsTroubleOf (C.may_take command.now asked.now config.ranks (2 ^ 34))) }
{
    let Ok(programs) = programs_of(alloc, command, config.ranks, asked) else {
        return Err(Trouble::Memory);
    };
    let Ok(mut world) = InlineWorld::new(alloc, config.limit) else {
        return Err(Trouble::Memory);
    };
    let outcome = work(&programs[0], &mut world);
    world.finish_inline();
    let parts = end(world)?;
    report_of(alloc, config, parts, outcome)
}

/// The programs of the ranks, of which there are `ranks`, in their order. Its only error is `NoMemory`.
pub(crate) fn programs_of<C>(
    alloc: Global,
    command: &C,
    ranks: u32,
    asked: &C::Asked,
) -> Result<Vec<C::Program>, NoMemory>
where
    C: Command,
    C::Program: Drop,
    requires { 0 < ranks }
    ensures all { IfOk result (λ programs. length programs.items ≡ ranks) }
    ensures fits { IfOk result (λ programs. (k : ℕ) (p : C.Program) → slice_get programs.items k ≡ Some p → C.Program.fits p ranks) }
    ensures programs { IfOk result (λ programs. C.are_programs command.now ranks asked.now programs.items) }
{
    let mut programs = or_no_memory(Vec::with_capacity(alloc, ranks as usize))?;
    command.fill(alloc, &mut programs, ranks, asked)?;
    Ok(programs)
}

// The calls of the program, in a world at its start. After them the rank may end a batch.
fn work<P>(program: &P, world: &mut InlineWorld) -> Result<P::Outcome, Trouble>
where
    P: RankProgram,
    P::Outcome: Drop,
    requires fits { P.fits program.now world.old.run.config.ranks }
    requires empty { world.old.run.transcript ≡ [] }
    requires whole { world.old.run.failed ≡ None }
    requires closed { batch_of world.old.run ≡ false }
    ensures follows { IfOk result (P.follows program.now zeroth world.new.run.transcript) }
    ensures closed { batch_of world.new.run ≡ false }
    ensures open { has_finished world.new.run.transcript ≡ false }
    ensures config { HasNumbers world.old.run.config world.new.run }
    ensures heard { HasWorked (P.so_far program.now zeroth) world.new.run.transcript }
    ensures too_long { (stamp : ℕ) → result ≡ Err (Trouble.TooLong stamp) → world.new.run.failed ≡ Some (Trouble.TooLong stamp) }
{
    match program.run(Rank(0), world) {
        Ok(outcome) => Ok(outcome),
        Err(trouble) => {
            close(world);
            Err(trouble)
        }
    }
}

// Ends the batch that an error of the program left open, if it did.
fn close(world: &mut InlineWorld)
    requires { has_finished world.old.run.transcript ≡ false }
    ensures closed { batch_of world.new.run ≡ false }
    ensures open { has_finished world.new.run.transcript ≡ false }
    ensures config { HasNumbers world.old.run.config world.new.run }
    ensures one_more { IsOneMore world.old.run.transcript world.new.run.transcript }
    ensures repeats { Repeats world.old.run.failed world.new.run.failed }
{
    if world.batch_open() {
        let _ = world.end_batch();
    }
}

// What the world has at its end.
fn end(world: InlineWorld) -> Result<(Ledger, Trace<Said>, Vec<LeftUnit>), Trouble>
    requires finished { world.run.finished ≡ true }
    ensures ended { IfOk result (λ parts. IsEnd world.run parts.0 parts.1.items parts.2.items) }
    ensures transcript { IfOk result (λ parts. parts.1.items ≡ world.run.transcript) }
    ensures whole { OnOk result (world.run.failed ≡ None) }
    ensures faults { IfErr result (IsTroubleOf (2 ^ 35 ≤ length world.run.transcript)) }
{
    match world.end() {
        Ok(parts) => Ok(parts),
        Err(trouble) => Err(trouble),
    }
}

// The report of a run with one rank, if the rank has an outcome. Its only error is `Memory`.
fn report_of<O: Drop>(
    alloc: Global,
    config: Config,
    parts: (Ledger, Trace<Said>, Vec<LeftUnit>),
    outcome: Result<O, Trouble>,
) -> Result<Kept<O>, Trouble>
    requires { IfErr outcome (λ trouble. trouble ≡ Trouble.Memory) }
    ensures report { IfOk result (λ k. IsReportOf config parts.0 parts.1.items parts.2.items outcome k.report) }
    ensures fault { IfErr result (λ trouble. trouble ≡ Trouble.Memory) }
{
    let (ledger, transcript, left) = parts;
    let outcomes = one(alloc, outcome?)?;
    let transcripts = one(alloc, transcript)?;
    Ok(Kept::inline(Report {
        config,
        ledger,
        transcripts,
        outcomes,
        left,
    }))
}

// The list of one element. Its only error is `Memory`.
fn one<T: Drop>(alloc: Global, element: T) -> Result<Vec<T>, Trouble>
    ensures list { IfOk result (λ list. list.items ≡ element ∷ []) }
    ensures fault { IfErr result (λ trouble. trouble ≡ Trouble.Memory) }
{
    let Ok(mut list) = Vec::with_capacity(alloc, 1) else {
        return Err(Trouble::Memory);
    };
    list.push_reserved(element);
    Ok(list)
}
