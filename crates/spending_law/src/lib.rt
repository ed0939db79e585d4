//! How many calls the ranks of a run of puzzle programs begin, whether the run has come to its end or not.
//!
//! It stands on `cover_law` and `puzzle_law`. It speaks of definitions alone and has no code. `specs/UnderWay.antt` says what a run
//! of puzzle programs is that may go on, and `specs/Most.antt` how many calls it has at most.
#![tactic(auto)]

mod laws;

pub use laws::spending_laws;
