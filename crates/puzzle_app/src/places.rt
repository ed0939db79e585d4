//! The places of the jobs of an input.

ghost use Rattle.std.specs.Prelude.{◌≡◌, ◌≤◌, ◌^◌, ◌+◌};
ghost use Rattle.puzzle_app.specs.Working.{behind};

use job_text::Job;

/// The numbers of the next puzzle and of the next batch.
#[derive(Clone, Copy)]
pub struct Place {
    pub puzzle: u32,
    pub batch: u32,
}

impl Place {
    /// The place after a job.
    pub fn behind(self, job: &Job) -> Place
        requires few { self.puzzle + self.batch ≤ 2 ^ 25 }
        ensures { result ≡ behind self job.now }
    {
        match job {
            Job::Puzzle(_) => Place {
                puzzle: self.puzzle + 1,
                batch: self.batch,
            },
            Job::Batch { .. } => Place {
                puzzle: self.puzzle,
                batch: self.batch + 1,
            },
        }
    }
}
