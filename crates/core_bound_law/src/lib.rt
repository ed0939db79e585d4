//! How many events a run of all actors by letters has, and how high its stamps are.
//!
//! It stands on the laws of runs in `core_law`. `specs/Bounds.antt` counts the calls that were begun. `specs/Credits.antt` says
//! what each letter and each actor holds to pay for events to come, and `specs/Costs.antt` what an act of a server pays. It speaks
//! of definitions alone and has no code.
#![tactic(auto)]

mod laws;

pub use laws::bound_laws;
