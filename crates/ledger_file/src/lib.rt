//! The text of a configuration and the ledger of a run: written, and read again.
//!
//!     let text = write_ledger(alloc, &config, &ledger)?;
//!     match read_ledger(alloc, &text) {
//!         Ok((config, ledger)) => ..,
//!         Err(LedgerFault::Refused { line }) => ..,
//!         Err(LedgerFault::Memory) => ..,
//!     }
//!
//! A text has a first line with the numbers of the configuration. Then comes a line for each entry (its name and its
//! fields, with blanks between), and a last line with the number of entries. It stands on `adlb_unit`, `bag_ledger` and
//! `packed_ledger`. `specs/Lines.antt` has the lines, entry by entry, and which line is refused first; `specs/Fields.antt`
//! has how each field is written, and which numbers there are. `laws` states that a configuration and a ledger have one
//! text, and no text is that of two.
#![tactic(auto)]

mod choices;
mod cursor;
mod faults;
mod fields;
mod laws;
mod lists;
mod names;
mod numbers;
mod reading;
mod rows;
mod texts;
mod words;
mod writing;

pub use faults::LedgerFault;
pub use laws::{read_back, text_laws};
pub use reading::read_ledger;
pub use writing::write_ledger;
