//! Runs over puzzles and batches, as a command.

ghost use Rattle.std.specs.Prelude.{◌≡◌, ◌≤◌, ◌<◌, ◌^◌, [], IfOk, OnOk, IfErr, length, vec_capacity};
ghost use Rattle.bag_ledger.specs.Runs.{calls};
ghost use Rattle.cover_law.specs.Begun.{pending_of};
ghost use Rattle.run_command.proofs.Hearing.{come_by};
ghost use Rattle.run_command.specs.Reading.{RefusesBy};
ghost use Rattle.solve_command.specs.Puzzles.{AreJobs, ArePrograms, RefusesLine};
ghost use Rattle.solve_report.specs.Told.{IsTold};
ghost use Rattle.spending_law.proofs.Together.{at_end, at_work, begun_most};
ghost use Rattle.spending_law.specs.Most.{most_calls};
ghost use Rattle.spending_law.specs.UnderWay.{HasCome, hears};

use crate::telling::tell_run;
use adlb_unit::NoMemory;
use job_report::Outcome;
use job_text::{Jobs, JobsFault, LineWhy, read_jobs};
use puzzle_app::{PuzzleProgram, Settings};
use run_command::{Command, Kept, ReadFault};
use solve_report::{Tail, Wanted};
use std::alloc::Global;
use std::marker::Model;

/// The jobs of an input, of which each puzzle is a grid. They are seen as their list.
#[derive(Drop)]
pub struct PuzzleJobs {
    jobs: Jobs,
}

impl Model for PuzzleJobs {
    ghost use Rattle.std.specs.Prelude.{List, All};
    ghost use Rattle.job_text.specs.declared.jobs.Job.{Job};
    ghost use Rattle.job_text.specs.Jobs.{HasGrid};

    ghost Value = { List Job };

    ghost view = { λ asked. asked.jobs };

    ghost invariant = { λ asked. All HasGrid asked.jobs };
}

impl PuzzleJobs {
    ghost use Rattle.std.specs.Prelude.{All};
    ghost use Rattle.job_text.specs.Jobs.{HasGrid};

    /// The jobs.
    pub fn jobs(&self) -> &Jobs
        ensures jobs { result.now ≡ self.now }
        ensures grids { All HasGrid self.now }
    {
        &self.jobs
    }
}

/// A run over the puzzles and batches of an input: its settings, and what is wanted of it.
#[derive(Drop)]
pub struct Puzzles<E> {
    pub settings: Settings,
    pub wanted: Wanted<E>,
}

impl<E: Tail> Command for Puzzles<E> {
    type Asked = PuzzleJobs;

    type Why = LineWhy;

    type Program = PuzzleProgram;

    ghost asks = { λ puzzles bytes jobs. AreJobs bytes jobs };

    ghost refuses = { λ puzzles bytes line why. RefusesLine bytes line why };

    ghost are_programs = { λ puzzles ranks jobs programs. ArePrograms puzzles.settings jobs programs };

    ghost tells = { λ puzzles jobs kept told. IsTold E.tail puzzles.settings puzzles.wanted jobs kept.report told };

    ghost may_take = { λ puzzles jobs ranks many. many ≤ most_calls puzzles.settings.budget puzzles.settings.grain ranks jobs };

    fn read(&self, alloc: Global, bytes: &[u8]) -> Result<PuzzleJobs, ReadFault<LineWhy>> {
        read_puzzles(alloc, bytes)
    }

    fn fill(
        &self,
        alloc: Global,
        programs: &mut Vec<PuzzleProgram>,
        ranks: u32,
        asked: &PuzzleJobs,
    ) -> Result<(), NoMemory> {
        fill(alloc, programs, self.settings, ranks, asked)
    }

    fn tell(
        &self,
        alloc: Global,
        asked: &PuzzleJobs,
        kept: &Kept<Outcome>,
    ) -> Result<Vec<u8>, NoMemory> {
        tell_run(alloc, self.settings, &self.wanted, asked, kept)
    }

    ghost takes = { λ puzzles jobs ranks many h.
        begun_most h.config h.ledger h.last puzzles.settings jobs ranks many h.ranks_are h.legal
        (λ rank below.
        let e = h.each rank below in
        let is = h.are rank.0 e.0 e.1 in
        let told = calls h.config h.ledger rank in
        let pending = pending_of h.last rank in
        record {
          program = e.0;
          settings_are = is.0;
          jobs_are = is.1;
          stands = come_by (HasCome e.0 told pending) (at_work e.0 told pending) hears (at_end e.0 told pending) e.2;
        }) h.enough };
}

// The jobs of an input of these bytes.
fn read_puzzles(alloc: Global, bytes: &[u8]) -> Result<PuzzleJobs, ReadFault<LineWhy>>
    requires { length bytes.now ≤ 2 ^ 24 }
    ensures asked { IfOk result (AreJobs bytes.now) }
    ensures refused { IfErr result (RefusesBy (RefusesLine bytes.now)) }
{
    match read_jobs(alloc, bytes) {
        Ok(jobs) => Ok(PuzzleJobs { jobs }),
        Err(JobsFault::Refused { line, why }) => Err(ReadFault::Refused { line, why }),
        Err(JobsFault::Memory) => Err(ReadFault::Memory),
    }
}

// Adds the programs of the ranks to an empty list: the first has the jobs. Its only error is `NoMemory`.
fn fill(
    alloc: Global,
    programs: &mut Vec<PuzzleProgram>,
    settings: Settings,
    ranks: u32,
    asked: &PuzzleJobs,
) -> Result<(), NoMemory>
    requires some { 0 < ranks }
    requires empty { programs.old.items ≡ [] }
    requires room { ranks ≤ vec_capacity programs.old }
    ensures all { OnOk result (length programs.new.items ≡ ranks) }
    ensures programs { OnOk result (ArePrograms settings asked.now programs.new.items) }
{
    let jobs = asked.jobs().twin()?;
    programs.push_reserved(PuzzleProgram::new(alloc, settings, Some(jobs)));
    for _rank in 1..ranks {
        programs.push_reserved(PuzzleProgram::new(alloc, settings, None));
    }
    Ok(())
}
