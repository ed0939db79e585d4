//! Entries as they are kept: the ledger of a run, and what an actor keeps of its events. They are seen as lists of entries, those of
//! `bag_ledger`, and read one after the other. They are kept as bytes, some 5 to 12 for an entry besides the bytes that it tells:
//! `specs/inside` says which.
//!
//!     let mut ledger = Ledger::new(alloc);
//!     ledger.push(Entry::Exhausted)?;
//!     let mut entries = ledger.entries();
//!     while let Some(entry) = entries.next(alloc)? { .. }
#![tactic(auto)]

mod chunks;
mod codes;
mod kept;
mod ledgers;
mod making;
mod numbers;
mod rooms;
mod rows;
mod signs;
mod stamped;
mod telling;

pub use kept::{Kept, Unread};
pub use ledgers::{Entries, Ledger};
pub use rooms::ENTRY_SIZE;
pub use stamped::Stamped;
