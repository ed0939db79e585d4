//! Jobs of a printer as work: a unit is a job, by its number of pages, and its answer is that it was printed.

ghost use Rattle.std.specs.Prelude.{◌≡◌, ℕ, Bool, IfOk, count_by};

use adlb::{Answers, Fault, NoMemory, Settings, Target, Units, gather, or_no_memory, units};
use std::alloc::Global;
use std::sync::Wait;
use std::thread::Threads;

/// The jobs of a printer, by their pages.
#[derive(Clone, Copy)]
struct Printer {
    jobs: &'static [u8],
}

impl Answers for Printer {
    type Answer = u8;

    ghost use Rattle.std.specs.Prelude.{count_by};

    ghost worth = { λ p test job. count_by test job };

    ghost whole = { λ p test. count_by test p.jobs.now };

    fn first(&self, out: &mut Units) -> Result<(), NoMemory> {
        let jobs = self.jobs;
        for pages in jobs {
            out.push(&[*pages])?;
        }
        Ok(())
    }

    fn work(&self, job: &[u8], out: &mut Units, printed: &mut Vec<u8>) -> Result<(), NoMemory> {
        or_no_memory(printed.extend_from_slice(job))
    }

    fn priority(&self, job: &[u8]) -> i32 {
        let [pages] = job else { return 0 };
        -(*pages as i32)
    }

    fn target(&self, job: &[u8], ranks: u32) -> Target {
        Target::Only(units::Rank(0))
    }
}

/// Prints these jobs, each once.
pub fn print_all<R: Threads + Wait + Send + Copy + 'static>(
    alloc: Global,
    rt: R,
    jobs: &'static [u8],
) -> Result<Vec<u8>, Fault>
    ensures each { IfOk result (λ printed. (test : ℕ → Bool) → count_by test printed.items ≡ count_by test jobs.now) }
{
    gather(alloc, rt, Settings::default(), Printer { jobs })
}
