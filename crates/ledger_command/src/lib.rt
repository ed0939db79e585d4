//! The command `check`: whether an input is the text of a ledger that is a legal run.
//!
//! It stands on the texts of `ledger_file` and the rules of `ledger_rules`, over any source and sink of `adlb_io`.
//! `specs/Verdicts.antt` has what is written of a ledger, and `specs/Ends.antt` how a check ends (`ChecksTo`).
#![tactic(auto)]

mod checking;
mod faults;
mod reading;
mod verdicts;
mod writing;

pub use checking::check_ledger;
pub use faults::CheckFault;
pub use reading::read_text;
pub use verdicts::{Verdict, one_verdict};
