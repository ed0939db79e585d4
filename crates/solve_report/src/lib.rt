//! What `solve` and `drill` write of a run over puzzles and batches: the report of its jobs and a tail, or a summary.
//!
//! `text_of` makes the text that is `Wanted` of a run, and `specs/Told.antt` says which that is (`IsTold`). A `Tail` is what a caller wants
//! after a report: `Extras` has the counts of the kept ledger, and its text.
#![tactic(auto)]

mod extras;
mod wanted;

pub use extras::{Extras, Tail};
pub use wanted::{Wanted, text_of};
