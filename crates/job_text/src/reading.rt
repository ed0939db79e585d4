//! The jobs of the lines that were read so far.

ghost use Rattle.std.specs.Prelude.{◌≡◌, ◌≤◌, ◌^◌, ℕ, [], length, Some, Err, IfOk};
ghost use Rattle.job_text.specs.Kinds.{kind_of, puzzle, batch as batch_of, item as item_kind};
ghost use Rattle.job_text.specs.Jobs.{fault_of};
ghost use Rattle.job_text.specs.inside.Read.{Extends, count, is_open, jobs_with};

use crate::commons::CommonBytes;
use crate::faults::{JobsFault, LineWhy};
use crate::items::{Item, Items};
use crate::jobs::Job;
use crate::kinds::{Line, line_of};
use adlb_unit::{NoMemory, or_no_memory};
use std::alloc::Global;
use sudoku_rules::Grid;

/// A batch that is going on.
#[derive(Drop)]
pub(crate) struct OpenBatch {
    common: CommonBytes,
    items: Vec<Item>,
}

/// The jobs that are whole, and the batch that is going on, if there is one.
#[derive(Drop)]
pub(crate) struct Reading {
    jobs: Vec<Job>,
    current: Option<OpenBatch>,
}

impl Reading {
    /// No line was read.
    pub(crate) fn new(alloc: Global) -> Reading
        ensures jobs { result.jobs.items ≡ [] }
        ensures current { result.current ≡ None }
    {
        Reading {
            jobs: Vec::new(alloc),
            current: None,
        }
    }

    /// With one more line, of this number.
    pub(crate) fn with(self, alloc: Global, number: u64, line: &[u8]) -> Result<Reading, JobsFault>
        requires { count self ≤ 2 ^ 24 }
        ensures extends { IfOk result (λ next. Extends self (kind_of line.now) next) }
        ensures refused { (n : ℕ) (why : LineWhy) → result ≡ Err (JobsFault.Refused n why) →
            (n ≡ number) × (fault_of (is_open self) (kind_of line.now) ≡ Some why) }
    {
        match line_of(line) {
            Line::Skipped => Ok(self),
            Line::Puzzle(grid) => Ok(self.with_puzzle(alloc, grid)?),
            Line::Batch(common) => Ok(self.with_batch(alloc, common)?),
            Line::Item(item) => self.with_item(number, item),
            Line::Bad(why) => Err(JobsFault::Refused { line: number, why }),
        }
    }

    /// The jobs, with the batch that is going on as the last of them. Its only error is `NoMemory`.
    pub(crate) fn whole(self, alloc: Global) -> Result<Vec<Job>, NoMemory>
        requires { count self ≤ 2 ^ 24 }
        ensures jobs { IfOk result (λ jobs. jobs.items ≡ jobs_with self []) }
        ensures few { IfOk result (λ jobs. length jobs.items ≤ count self) }
    {
        let Reading { mut jobs, current } = self;
        if let Some(batch) = current {
            let OpenBatch { common, items } = batch;
            let items = Items::of(alloc, items)?;
            or_no_memory(jobs.push(Job::Batch { common, items }))?;
        }
        Ok(jobs)
    }

    // With a puzzle, which ends a batch. Its only error is `NoMemory`.
    fn with_puzzle(self, alloc: Global, grid: Grid) -> Result<Reading, NoMemory>
        requires { count self ≤ 2 ^ 24 }
        ensures { IfOk result (λ next. Extends self (puzzle grid) next) }
    {
        let mut jobs = self.whole(alloc)?;
        or_no_memory(jobs.push(Job::Puzzle(grid.keep(alloc)?)))?;
        Ok(Reading {
            jobs,
            current: None,
        })
    }

    // With a batch of these bytes, which ends a batch before it. Its only error is `NoMemory`.
    fn with_batch(self, alloc: Global, common: &[u8]) -> Result<Reading, NoMemory>
        requires { count self ≤ 2 ^ 24 }
        ensures { IfOk result (λ next. Extends self (batch_of common.now) next) }
    {
        let jobs = self.whole(alloc)?;
        let batch = OpenBatch {
            common: CommonBytes::copy(alloc, common)?,
            items: Vec::new(alloc),
        };
        Ok(Reading {
            jobs,
            current: Some(batch),
        })
    }

    // With a line of an item, if a batch is going on and the item is of its form.
    fn with_item(self, number: u64, item: Option<Item>) -> Result<Reading, JobsFault>
        ensures extends { IfOk result (λ next. Extends self (item_kind item) next) }
        ensures refused { (n : ℕ) (why : LineWhy) → result ≡ Err (JobsFault.Refused n why) →
            (n ≡ number) × (fault_of (is_open self) (item_kind item) ≡ Some why) }
    {
        let Reading { jobs, current } = self;
        let Some(mut batch) = current else {
            return Err(JobsFault::Refused {
                line: number,
                why: LineWhy::Item,
            });
        };
        let Some(item) = item else {
            return Err(JobsFault::Refused {
                line: number,
                why: LineWhy::Number,
            });
        };
        or_no_memory(batch.items.push(item))?;
        Ok(Reading {
            jobs,
            current: Some(batch),
        })
    }
}
