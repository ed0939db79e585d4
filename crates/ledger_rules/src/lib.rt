//! The rules of the bag, one by one: which one an entry breaks that is no step.
//!
//!     if let Some(complaint) = first_complaint(alloc, &config, &ledger)? {
//!         let line = complaint.text(alloc)?; // as: granted 1 0 0 0.0: unit 0.0 is not free at server 1
//!     }
//!
//! `specs/Table.antt` is the table: which rules an entry is under (`rules_of`), in order, and when a bag meets each (`meets`).
//! `rule_laws` states that an entry is a step exactly if all its rules are met. `first_complaint` finds the first entry of a ledger
//! that is no step, and the first of its rules that is not met; its text has both in words. It stands on the machine of
//! `ledger_checker`, and on the text of an entry of `ledger_file`.
#![tactic(auto)]

mod complaints;
mod laws;
mod meeting;
mod rules;
mod table;
mod words;

pub use complaints::{Complaint, complain, first_complaint};
pub use laws::rule_laws;
pub use meeting::meets;
pub use rules::Rule;
pub use table::first_broken;
