//! The command `draw`: the ledger whose text an input is, as a picture.
//!
//! It stands on the reading of `ledger_command` and the pictures of `ledger_picture`, over any source and sink of `adlb_io`.
//! `specs/Ends.antt` says how a drawing ends (`DrawsTo`). Its faults are those of `check`.
#![tactic(auto)]

mod drawing;
mod reading;
mod writing;

pub use drawing::draw_ledger;
