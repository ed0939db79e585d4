//! What the ledger of a run of all actors tells, at any moment, of the calls that the ranks have begun.
//!
//! It stands on the laws of runs in `core_check_law` and `core_bound_law`, and on `cover_law`, which counts the calls of a ledger.
//! `specs/Told.antt` says what is told. It speaks of definitions alone and has no code.
#![tactic(auto)]

mod laws;

pub use laws::begun_laws;
