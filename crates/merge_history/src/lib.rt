//! What happened in a run: the events of each actor, and what is kept of them, in one order.
//!
//! Events are values of proofs: an actor keeps their entries alone, each with its event's stamp. It stands on the letters of
//! `adlb_unit`, the ledger of `bag_ledger`, the runs of `core_run` and the laws of `journal_law` and `flat_merge`.
//! `specs/Events.antt` is what contracts see of events, `specs/Own.antt` says when journals compose, `specs/Merging.antt` what
//! their one history is and which ledger it has.
#![tactic(auto)]

mod causes;
mod fronts;
mod merging;

pub use causes::Cause;
pub use merging::merge;
