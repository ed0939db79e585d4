//! Flows: named values and rules, read from bytes, worked, and told as text.
//!
//! `flow_law` says what a flow is and what its names are worth. `specs/Kinds.antt` says what a line of a flow is, and
//! `specs/Reading.antt` which flow the lines of an input are and which line is refused first. `specs/Stored.antt`
//! says what a store holds, and `specs/Finishing.antt` what the values that ranks bring are to be.
#![tactic(auto)]

mod faults;
mod finishing;
mod flows;
mod kinds;
mod links;
mod parts;
mod reading;
mod stores;
mod texts;
mod words;

pub use faults::{FlowFault, FlowWhy};
pub use finishing::{FlowOutcome, finish_flow};
pub use flows::{Flow, read_flow};
pub use stores::{ReadyRule, Store};
