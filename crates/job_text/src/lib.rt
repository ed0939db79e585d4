//! The jobs of an input: puzzles, and batches of items over common bytes.
//!
//!     match read_jobs(alloc, b"batch abcabc\ncount 97 98\n") {
//!         Ok(jobs) => ..,
//!         Err(JobsFault::Refused { line, why }) => .., // counted from 1
//!         Err(JobsFault::Memory) => ..,
//!     }
//!
//! An input is cut into lines (`specs/Lines.antt`). Each line is of one kind (`specs/Kinds.antt`): skipped, a
//! puzzle, the beginning of a batch, an item of the batch before it, or refused. `specs/Jobs.antt` has the jobs of
//! lines, and which line is refused first. It stands on `sudoku_rules` and on the payloads of `adlb_unit`.
#![tactic(auto)]

mod commons;
mod faults;
mod items;
mod jobs;
mod kinds;
mod lines;
mod reading;
mod words;

pub use commons::CommonBytes;
pub use faults::{JobsFault, LineWhy};
pub use items::{Item, Items};
pub use jobs::{Job, Jobs, read_jobs};
