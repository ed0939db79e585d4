//! The jobs of an input.

ghost use Rattle.std.specs.Prelude.{◌≡◌, ◌≤◌, ◌^◌, ℕ, List, length, Some, None, Err, All, IfOk};
ghost use Rattle.job_text.specs.Jobs.{HasGrid, input_jobs, input_refused};

use crate::commons::CommonBytes;
use crate::faults::{JobsFault, LineWhy};
use crate::items::Items;
use crate::lines::Lines;
use crate::reading::Reading;
use adlb_unit::{NoMemory, or_no_memory};
use std::alloc::Global;
use std::marker::Model;
use std::sync::Arc;
use sudoku_rules::KeptGrid;

/// A job: a puzzle, or a batch of items over common bytes.
#[derive(Drop)]
pub enum Job {
    Puzzle(KeptGrid),
    Batch { common: CommonBytes, items: Items },
}

/// The jobs of an input, in its order: at most 2^24, each batch of at most 2^20 bytes. They are made by `read_jobs`
/// alone, and seen as their list. Twins share it, which no clause tells apart.
#[derive(Drop)]
pub struct Jobs {
    list: Arc<Vec<Job>, Global>,
}

impl Model for Jobs {
    ghost use Rattle.std.specs.Prelude.{◌≤◌, ◌^◌, List, length, All};
    ghost use Rattle.std.specs.Arc.{arc_value};
    ghost use Rattle.job_text.specs.declared.jobs.Job.{Job};
    ghost use Rattle.job_text.specs.Jobs.{HasFewBytes};

    ghost Value = { List Job };

    ghost view = { λ jobs. (arc_value jobs.list).items };

    ghost invariant = { λ jobs. (length (arc_value jobs.list).items ≤ 2 ^ 24) × All HasFewBytes (arc_value jobs.list).items };
}

impl Jobs {
    ghost use Rattle.std.specs.Prelude.{◌≤◌, ◌^◌, length, All};
    ghost use Rattle.job_text.specs.Jobs.{HasFewBytes};

    /// The jobs, in input order.
    pub fn as_slice(&self) -> &[Job]
        ensures jobs { result.now ≡ self.now }
        ensures few { length self.now ≤ 2 ^ 24 }
        ensures bytes { All HasFewBytes self.now }
    {
        self.list.as_slice()
    }

    /// An equal list of jobs. Its only error is `NoMemory`.
    pub fn twin(&self) -> Result<Jobs, NoMemory>
        ensures { IfOk result (λ jobs. jobs ≡ self.now) }
    {
        let list = or_no_memory(Arc::try_clone(&self.list))?;
        Ok(Jobs { list })
    }

    // These jobs, in no more room than they need. Its only error is `NoMemory`.
    fn of(alloc: Global, mut list: Vec<Job>) -> Result<Jobs, NoMemory>
        requires few { length list.items ≤ 2 ^ 24 }
        requires bytes { All HasFewBytes list.items }
        ensures { IfOk result (λ jobs. jobs ≡ list.items) }
    {
        list.shrink_to_fit();
        let list = or_no_memory(Arc::new(alloc, list))?;
        Ok(Jobs { list })
    }
}

/// Reads the jobs of an input of at most 2^24 bytes. `Refused` is answered exactly if a line is refused, with the
/// first such line and its reason, unless `Memory` is answered, which may come of any input. There are at most 2^24 jobs.
pub fn read_jobs(alloc: Global, bytes: &[u8]) -> Result<Jobs, JobsFault>
    requires { length bytes.now ≤ 2 ^ 24 }
    ensures jobs { IfOk result (λ jobs. (input_refused bytes.now ≡ None) × (jobs ≡ input_jobs bytes.now)) }
    ensures grids { IfOk result (All HasGrid) }
    ensures few { IfOk result (λ jobs. length jobs ≤ 2 ^ 24) }
    ensures refused { (line : ℕ) (why : LineWhy) → result ≡ Err (JobsFault.Refused line why) →
        input_refused bytes.now ≡ Some (line, why) }
{
    let mut lines = Lines::of(bytes);
    let mut reading = Reading::new(alloc);
    let mut number = 0;
    'each: while let Some(line) = lines.next() {
        number += 1;
        reading = reading.with(alloc, number, line)?;
    }
    let list = reading.whole(alloc)?;
    Ok(Jobs::of(alloc, list)?)
}
