//! What a run's ledger counts: units accepted, refused, rejected, granted and pushed, and how many were left.
//!
//!     let mut text = Vec::new(alloc);
//!     append_stats(alloc, &mut text, &ledger, left)?; // stats, accepted X, refused X, ..
//!
//! It stands on the ledger of `packed_ledger`. `specs/Stats.antt` has which entries are counted (`counts`) and the
//! seven lines that are written of a ledger (`stats_text`).
#![tactic(auto)]

mod stats;
mod texts;

pub use stats::append_stats;
