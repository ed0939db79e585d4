//! The units of a program that works puzzles and jobs on bytes: boards, solutions, jobs and answers. Here are their
//! bodies, how each is put, how a fetched one is read, and what the work on one makes.
//!
//! It stands on the grids of `sudoku_rules`, the items of `job_text` and the kernels of `lane_bytes`. `specs/Bodies.antt`
//! has the bodies, `specs/Puts.antt` the puts, `specs/Reading.antt` which unit a body or a fetch is of, and
//! `specs/Works.antt` what the work on a board and on a job makes; `unit_laws` says how they fit together.
#![tactic(auto)]

mod answers;
mod boards;
mod fetches;
mod grids;
mod jobs;
mod laws;
mod pieces;
mod puts;
mod solutions;
mod units;

pub use answers::Answer;
pub use boards::Board;
pub use fetches::{Fetch, read_fetch};
pub use jobs::{Job, work};
pub use laws::unit_laws;
pub use puts::Putting;
pub use solutions::Solution;
pub use units::Made;
