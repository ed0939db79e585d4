//! The puzzle program: how each rank works the jobs of an input over any link.
//!
//! A `PuzzleProgram` works the jobs of `job_text` by the calls of `rank_client`, with the units of `job_units`, and
//! ends with an outcome of `job_report`. `specs/Tasks.antt` says what a rank is to do with the jobs of an input,
//! `specs/Arrivals.antt` what the units that come to it make. `specs/Books.antt` says which call it makes next, and
//! `specs/Follows.antt` with what outcome it ends. `calls_add_up` and `calls_in_order` say what follows from the
//! relation of a rank's calls for its transcript alone.
#![tactic(auto)]

mod calls;
mod desk;
mod laws;
mod outcomes;
mod places;
mod program;
mod puts;
mod totals;

pub use laws::{calls_add_up, calls_in_order};
pub use outcomes::Settings;
pub use program::PuzzleProgram;
