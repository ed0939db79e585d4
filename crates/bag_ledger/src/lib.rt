//! The bag of units: what a run may do, said without letters or threads.
//!
//! A run keeps a ledger of entries. `specs/Bag.antt` has the state that the entries change, `specs/Steps.antt` where
//! each entry is legal and what it changes, and `specs/Runs.antt` legal runs and the calls of a rank in them; `laws`
//! states what holds of them. `docs/MODEL.md` tells the same in plain words. It stands on `adlb_unit`.
#![tactic(auto)]

mod bodies;
mod entries;
mod laws;
mod states;

pub use bodies::Body;
pub use entries::{Answer, Call, Entry, Said};
pub use laws::{bag_laws, run_laws};
pub use states::{Part, Placed, Promise, RankState, Servers, Status, UnitPlace};
