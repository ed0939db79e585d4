//! What ranks got was sent: in every legal run, finished or not, of ranks that fetch what they were granted.
//!
//! It speaks of definitions alone and has no code. `specs/Grants.antt` says which ranks these are, and what is so of what they get, and
//! `specs/Begun.antt` how many calls the ranks have begun.
#![tactic(auto)]

mod laws;

pub use laws::cover_laws;
