//! How many calls the ranks of a run of flow programs begin, whether the run has come to its end or not.
//!
//! It stands on `cover_law` and `flow_run_law`. It speaks of definitions alone and has no code. `specs/UnderWay.antt` says what a run
//! of flow programs is that may go on, and `specs/Most.antt` how many calls it has at most.
#![tactic(auto)]

mod laws;

pub use laws::flow_bound_laws;
