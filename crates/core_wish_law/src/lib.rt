//! What the servers know of ranks that wait elsewhere, where nothing is under way that brings a run on.
//!
//! It stands on the laws of runs in `core_law` and `core_check_law`. `specs/News.antt` says what brings a run on. It speaks of
//! definitions alone and has no code.
#![tactic(auto)]

mod laws;

pub use laws::wish_laws;
