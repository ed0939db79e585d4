//! The puzzle program of a rank.

ghost use Rattle.std.specs.Prelude.{◌≡◌, [], ℕ, List, Option, None, false, IfOk, OnOk};
ghost use Rattle.puzzle_app.specs.Follows.{Follows, IsUnderWay};
ghost use Rattle.puzzle_app.specs.Working.{HasPut, IsGoing, IsOnWay, IsReady, IsStopped, Keeps, Passes, tasks_of};

use crate::calls::{Taken, take};
use crate::desk::Desk;
use crate::outcomes::Settings;
use crate::totals::count_made;
use adlb_unit::{Rank, Trouble};
use job_report::Outcome;
use job_text::Jobs;
use rank_client::{Adlb, RankProgram};
use std::alloc::Global;

/// The program of a rank. If it has the jobs of an input, it goes through them in order. It puts a board of each
/// puzzle, and the items of each batch as jobs of a batch, which it answers itself if no server keeps the common bytes.
/// Then it takes units until it is told an end: it works boards and jobs, and keeps the solutions and answers that come
/// to it.
#[derive(Drop)]
pub struct PuzzleProgram {
    pub(crate) alloc: Global,
    pub(crate) settings: Settings,
    jobs: Option<Jobs>,
}

impl PuzzleProgram {
    /// The program of a rank with these settings. Rank 0 has the jobs, and no other rank has any.
    pub fn new(alloc: Global, settings: Settings, jobs: Option<Jobs>) -> PuzzleProgram
        ensures settings { result.settings ≡ settings }
        ensures jobs { result.jobs ≡ jobs }
    {
        PuzzleProgram {
            alloc,
            settings,
            jobs,
        }
    }

    // The desk at the start.
    fn desk(&self) -> Desk
        ensures none { result.waiting.items ≡ [] }
        ensures going { IsGoing self.now [] result (tasks_of self.now) None }
    {
        match &self.jobs {
            None => Desk::new(self.alloc, 0, 0),
            Some(jobs) => {
                let (boards, items) = count_made(jobs.as_slice());
                Desk::new(self.alloc, boards, items)
            }
        }
    }

    // Does what its jobs ask, if it has any. False: an end was told.
    fn put_own<A: Adlb>(&self, link: &mut A, desk: &mut Desk) -> Result<bool, Trouble>
        requires none { desk.old.waiting.items ≡ [] }
        requires going { IsGoing self.now (A.link link.old).said desk.old (tasks_of self.now) None }
        requires ready { IsReady (A.link link.old) }
        requires closed { (A.link link.old).batch ≡ false }
        ensures told { IfOk result (λ all. Passes self.now (A.link link.new).said desk.new [] None all) }
        ensures so_far { IsOnWay self.now (A.link link.new) }
        ensures kept { Keeps (A.link link.old) (A.link link.new) false result }
    {
        match &self.jobs {
            Some(jobs) => self.put_input(link, desk, jobs.as_slice()),
            None => Ok(true),
        }
    }

    // Takes units, works, and puts what was made, until an end is told.
    fn take_all<A: Adlb>(&self, link: &mut A, desk: &mut Desk) -> Result<(), Trouble>
        requires going { HasPut self.now (A.link link.old).said desk.old [] None }
        requires ready { IsReady (A.link link.old) }
        ensures stopped { OnOk result (IsStopped self.now (A.link link.new).said desk.new None) }
        ensures so_far { IsOnWay self.now (A.link link.new) }
        ensures kept { Keeps (A.link link.old) (A.link link.new) (A.link link.old).batch result }
    {
        'rounds: loop {
            match take(link)? {
                Taken::Unit(note, body) => {
                    let Ok(()) = desk.bring(self.alloc, self.settings.grain, &note, &body) else {
                        return Err(Trouble::Memory);
                    };
                    if !self.put_all(link, desk, b"".as_slice())? {
                        return Ok(());
                    }
                }
                Taken::Ended(_) => return Ok(()),
            }
        }
    }

    // Does what its jobs ask, and takes units until an end is told.
    fn work<A: Adlb>(&self, link: &mut A, desk: &mut Desk) -> Result<(), Trouble>
        requires none { desk.old.waiting.items ≡ [] }
        requires going { IsGoing self.now (A.link link.old).said desk.old (tasks_of self.now) None }
        requires ready { IsReady (A.link link.old) }
        requires closed { (A.link link.old).batch ≡ false }
        ensures stopped { OnOk result (IsStopped self.now (A.link link.new).said desk.new None) }
        ensures so_far { IsOnWay self.now (A.link link.new) }
        ensures kept { Keeps (A.link link.old) (A.link link.new) false result }
    {
        if !self.put_own(link, desk)? {
            return Ok(());
        }
        self.take_all(link, desk)
    }
}

impl RankProgram for PuzzleProgram {
    type Outcome = Outcome;

    ghost so_far = { λ p rank said begun. IsUnderWay p said begun };

    ghost follows = { λ p rank said outcome. Follows p said outcome };

    fn run<A: Adlb>(&self, rank: Rank, link: &mut A) -> Result<Outcome, Trouble> {
        let mut desk = self.desk();
        self.work(link, &mut desk)?;
        Ok(desk.outcome())
    }
}
