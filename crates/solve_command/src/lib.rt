//! The commands `solve` and `drill`: puzzles and batches of items that are read from an input, or made, and worked.
//!
//!     let settings = Settings { budget: 1 << 24, grain: 1 << 16 };
//!     let ended = solve(alloc, settings, tail, config, false, &mut input, &mut output, &mut threads, FreeGate {});
//!     let drilled = drill(alloc, 500, 1, settings, config, false, &mut output, &mut threads, FreeGate {});
//!
//! `Puzzles` is a command of `run_command`: it asks for the jobs of an input (`job_text`), which the programs of
//! `puzzle_app` work, and tells their report or a summary (`solve_report`). `solve` runs it over an input, and `drill`
//! over a made text. `specs/Ends.antt` says how the two end, and `specs/Puzzles.antt` what is asked and run; `Tail` is
//! what a caller wants after a report.
#![tactic(auto)]

mod drilling;
mod laws;
mod puzzles;
mod solving;
mod telling;

pub use drilling::drill;
pub use laws::puzzle_laws;
pub use puzzles::{PuzzleJobs, Puzzles};
pub use solve_report::{Extras, Tail, Wanted};
pub use solving::solve;
