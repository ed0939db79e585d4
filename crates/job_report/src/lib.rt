//! The report of puzzles and batches, or a summary of it, from what the ranks have at their ends.
//!
//!     let jobs = read_jobs(alloc, input)?;
//!     let report = render(alloc, &jobs, &outcomes)?; // the outcomes of all ranks of a run over these jobs
//!     let summary = summarize(alloc, &jobs, &outcomes)?;
//!
//! It stands on the jobs of `job_text`, the grids of `sudoku_rules` and `sudoku_law`, and the answers to items of
//! `job_units`. `specs/Report.antt` says what is written of which jobs (`IsReport`), `specs/Summary.antt` what the
//! summary of jobs is (`summary`). `specs/Whole.antt` says what the outcomes of all ranks together are to hold for both
//! (`AreWhole`).
#![tactic(auto)]

mod answers;
mod batches;
mod found;
mod outcomes;
mod puzzles;
mod reports;
mod summaries;
mod texts;
mod told_grids;
mod totals;

pub use outcomes::Outcome;
pub use reports::render;
pub use summaries::summarize;
