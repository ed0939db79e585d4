//! The puts of the puzzle program: of what waits on the desk, and of what the jobs of an input ask.

ghost use Rattle.std.specs.Prelude.{◌≡◌, ◌<◌, ◌≤◌, ◌^◌, ◌++◌, ◌∷◌, [], ℕ, List, Option, length, Some, None, false, true, IfOk, All};
ghost use Rattle.job_text.specs.Jobs.{HasFewBytes};
ghost use Rattle.puzzle_app.specs.Arrivals.{bytes_on};
ghost use Rattle.puzzle_app.specs.Tasks.{Begin, End, Put, Task, jobs_from, tasks_from};
ghost use Rattle.puzzle_app.specs.Working.{CanDo, CanDoNext, Does, IsGoing, IsOnWay, IsReady, Keeps, Passes, job_tasks, task_at};

use crate::calls::{Reply, begin, put};
use crate::desk::Desk;
use crate::places::Place;
use crate::program::PuzzleProgram;
use adlb_unit::{Payload, Trouble};
use job_text::{Item, Job};
use job_units::{Board, Job as JobUnit, Made};
use rank_client::Adlb;

impl PuzzleProgram {
    /// Puts all that waits, over these common bytes of the batch that goes on. False: an end was told.
    pub(crate) fn put_all<A: Adlb>(
        &self,
        link: &mut A,
        desk: &mut Desk,
        common: &[u8],
    ) -> Result<bool, Trouble>
        requires going { CanDo self.now (A.link link.old).said desk.old common.now [] }
        requires common { length common.now < 2 ^ 56 }
        requires ready { IsReady (A.link link.old) }
        ensures told { (on : Option (List ℕ)) → bytes_on on ≡ common.now →
            Does self.now (λ rest. rest) (A.link link.old) desk.old on (A.link link.new) desk.new on result }
        ensures so_far { IsOnWay self.now (A.link link.new) }
        ensures kept { Keeps (A.link link.old) (A.link link.new) (A.link link.old).batch result }
        ensures more { length (A.link link.old).said ≤ length (A.link link.new).said }
    {
        'puts: while let Some(made) = desk.waiting.pop_front() {
            match put(self.alloc, link, &made)? {
                Reply::Accepted => {}
                Reply::Rejected => {
                    let Ok(()) = desk.receive(self.alloc, self.settings.grain, common, &made) else {
                        return Err(Trouble::Memory);
                    };
                }
                Reply::Ended(_) => return Ok(false),
            }
        }
        Ok(true)
    }

    // Puts this unit, and all that waits then. False: an end was told.
    fn put_next<A: Adlb>(
        &self,
        link: &mut A,
        desk: &mut Desk,
        made: Made,
        common: &[u8],
    ) -> Result<bool, Trouble>
        requires none { desk.old.waiting.items ≡ [] }
        requires going { CanDo self.now (A.link link.old).said desk.old common.now (Put made ∷ []) }
        requires common { length common.now < 2 ^ 56 }
        requires ready { IsReady (A.link link.old) }
        ensures told { (on : Option (List ℕ)) → bytes_on on ≡ common.now →
            Does self.now (λ rest. Put made ∷ rest) (A.link link.old) desk.old on (A.link link.new) desk.new on result }
        ensures so_far { IsOnWay self.now (A.link link.new) }
        ensures kept { Keeps (A.link link.old) (A.link link.new) (A.link link.old).batch result }
    {
        match desk.waiting.push_back(made) {
            Ok(()) => self.put_all(link, desk, common),
            Err(_) => Err(Trouble::Memory),
        }
    }

    // Puts the items of a batch that goes on as jobs. False: an end was told.
    fn put_jobs<A: Adlb>(
        &self,
        link: &mut A,
        desk: &mut Desk,
        batch: u32,
        common: &[u8],
        items: &[Item],
    ) -> Result<bool, Trouble>
        requires none { desk.old.waiting.items ≡ [] }
        requires going { CanDo self.now (A.link link.old).said desk.old common.now (job_tasks batch items.now) }
        requires common { length common.now < 2 ^ 56 }
        requires few { length items.now ≤ 2 ^ 24 }
        requires ready { IsReady (A.link link.old) }
        ensures told { (on : Option (List ℕ)) → bytes_on on ≡ common.now →
            Does self.now (λ rest. job_tasks batch items.now ++ rest) (A.link link.old) desk.old on (A.link link.new) desk.new on result }
        ensures so_far { IsOnWay self.now (A.link link.new) }
        ensures kept { Keeps (A.link link.old) (A.link link.new) (A.link link.old).batch result }
    {
        let mut number: u32 = 1;
        for item in items {
            let job = Made::Job(JobUnit {
                batch,
                number,
                item: *item,
            });
            if !self.put_next(link, desk, job, common)? {
                return Ok(false);
            }
            number += 1;
        }
        Ok(true)
    }

    // Puts the items of a batch that goes on as jobs, and ends it. False: an end was told.
    fn put_kept<A: Adlb>(
        &self,
        link: &mut A,
        desk: &mut Desk,
        batch: u32,
        common: &[u8],
        items: &[Item],
    ) -> Result<bool, Trouble>
        requires none { desk.old.waiting.items ≡ [] }
        requires going { (rest : List Task) ×
            IsGoing self.now (A.link link.old).said desk.old (job_tasks batch items.now ++ End ∷ rest) (Some common.now) }
        requires common { length common.now < 2 ^ 56 }
        requires few { length items.now ≤ 2 ^ 24 }
        requires ready { IsReady (A.link link.old) }
        requires open { (A.link link.old).batch ≡ true }
        ensures told { Does self.now (λ rest. job_tasks batch items.now ++ End ∷ rest)
            (A.link link.old) desk.old (Some common.now) (A.link link.new) desk.new None result }
        ensures so_far { IsOnWay self.now (A.link link.new) }
        ensures kept { Keeps (A.link link.old) (A.link link.new) false result }
    {
        let all = self.put_jobs(link, desk, batch, common, items)?;
        match link.end_batch() {
            Ok(()) => Ok(all),
            Err(trouble) => Err(trouble),
        }
    }

    // Begins a batch and puts its items, or answers them if no server keeps the common bytes. False: an end was told.
    fn put_batch<A: Adlb>(
        &self,
        link: &mut A,
        desk: &mut Desk,
        batch: u32,
        common: &Payload,
        items: &[Item],
    ) -> Result<bool, Trouble>
        requires none { desk.old.waiting.items ≡ [] }
        requires going { CanDoNext self.now (A.link link.old).said desk.old (Begin common.now (jobs_from batch 1 items.now)) }
        requires common { length common.now ≤ 2 ^ 20 }
        requires few { length items.now ≤ 2 ^ 24 }
        requires ready { IsReady (A.link link.old) }
        requires closed { (A.link link.old).batch ≡ false }
        ensures told { Does self.now (λ rest. Begin common.now (jobs_from batch 1 items.now) ∷ rest)
            (A.link link.old) desk.old None (A.link link.new) desk.new None result }
        ensures so_far { IsOnWay self.now (A.link link.new) }
        ensures kept { Keeps (A.link link.old) (A.link link.new) false result }
    {
        match begin(self.alloc, link, common)? {
            Reply::Accepted => self.put_kept(link, desk, batch, common.bytes(), items),
            Reply::Rejected => {
                let Ok(()) = desk.answer_all(batch, common.bytes(), items) else {
                    return Err(Trouble::Memory);
                };
                self.put_all(link, desk, b"".as_slice())
            }
            Reply::Ended(_) => Ok(false),
        }
    }

    // Does what a job of the input asks: its place is this one. False: an end was told.
    fn put_job<A: Adlb>(
        &self,
        link: &mut A,
        desk: &mut Desk,
        job: &Job,
        at: Place,
    ) -> Result<bool, Trouble>
        requires none { desk.old.waiting.items ≡ [] }
        requires going { CanDoNext self.now (A.link link.old).said desk.old (task_at self.now.settings.budget at job.now) }
        requires bytes { HasFewBytes job.now }
        requires ready { IsReady (A.link link.old) }
        requires closed { (A.link link.old).batch ≡ false }
        ensures told { Does self.now (λ rest. task_at self.now.settings.budget at job.now ∷ rest)
            (A.link link.old) desk.old None (A.link link.new) desk.new None result }
        ensures so_far { IsOnWay self.now (A.link link.new) }
        ensures kept { Keeps (A.link link.old) (A.link link.new) false result }
    {
        match job {
            Job::Puzzle(grid) => {
                let board = Made::Board(Board {
                    puzzle: at.puzzle,
                    budget: self.settings.budget,
                    grid: grid.grid(),
                });
                self.put_next(link, desk, board, b"".as_slice())
            }
            Job::Batch { common, items } => {
                self.put_batch(link, desk, at.batch, common.payload(), items.as_slice())
            }
        }
    }

    /// Does what the jobs of the input ask, in order. False: an end was told.
    pub(crate) fn put_input<A: Adlb>(
        &self,
        link: &mut A,
        desk: &mut Desk,
        jobs: &[Job],
    ) -> Result<bool, Trouble>
        requires none { desk.old.waiting.items ≡ [] }
        requires going { IsGoing self.now (A.link link.old).said desk.old
            (tasks_from self.now.settings.budget 1 1 jobs.now) None }
        requires bytes { All HasFewBytes jobs.now }
        requires few { length jobs.now ≤ 2 ^ 24 }
        requires ready { IsReady (A.link link.old) }
        requires closed { (A.link link.old).batch ≡ false }
        ensures told { IfOk result (λ all. Passes self.now (A.link link.new).said desk.new [] None all) }
        ensures so_far { IsOnWay self.now (A.link link.new) }
        ensures kept { Keeps (A.link link.old) (A.link link.new) false result }
    {
        let mut at = Place {
            puzzle: 1,
            batch: 1,
        };
        for job in jobs {
            if !self.put_job(link, desk, job, at)? {
                return Ok(false);
            }
            at = at.behind(job);
        }
        Ok(true)
    }
}
