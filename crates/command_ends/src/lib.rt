//! How a command of `adlbrun` ends: its exit status, why it did not write its whole output, and what it kept of a run.
//!
//! `LineWhy` has the reasons of all inputs, and `RunFault` the faults of all commands. `specs/Ends.antt` says which status each fault has
//! (`status_of`), and what each fault of a part of a command is among them.
#![tactic(auto)]

mod ends;
mod faults;
mod reasons;

pub use ends::{AnyKept, Left, RunEnd};
pub use faults::RunFault;
pub use reasons::{LineWhy, Reason};
