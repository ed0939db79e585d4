//! What is written of a run over puzzles and batches.

ghost use Rattle.std.specs.Prelude.{IfOk};
ghost use Rattle.run_command.specs.Kept.{HasRun, IsWorkedUp};
ghost use Rattle.solve_command.specs.Puzzles.{ArePrograms, FollowsPuzzles};
ghost use Rattle.solve_report.specs.Told.{IsTold};

use crate::puzzles::PuzzleJobs;
use adlb_unit::NoMemory;
use job_report::Outcome;
use puzzle_app::Settings;
use run_command::Kept;
use solve_report::{Tail, Wanted, text_of};
use std::alloc::Global;

/// The text that is wanted of a run with these settings over these jobs, of which this is kept. All work of the run is done. Its only
/// error is `NoMemory`.
pub(crate) fn tell_run<E: Tail>(
    alloc: Global,
    settings: Settings,
    wanted: &Wanted<E>,
    asked: &PuzzleJobs,
    kept: &Kept<Outcome>,
) -> Result<Vec<u8>, NoMemory>
    requires { HasRun (λ ranks. ArePrograms settings) FollowsPuzzles asked.now kept.now.report }
    ensures told { IfOk result (λ text. IsTold E.tail settings wanted.now asked.now kept.now.report text.items) }
    ensures worked_up { IfOk result (λ text. IsWorkedUp kept.now.report) }
{
    text_of(alloc, wanted, asked.jobs(), kept.report())
}
