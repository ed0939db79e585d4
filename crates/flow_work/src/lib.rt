//! The flow program: how the ranks of a run compute the rules of a flow together, over any link.
//!
//! A `FlowProgram` works by the calls of `adlb_rank`, over the store of `flow_app` and the units of `flow_units`. Which call a rank makes
//! next is said by the desk of `flow_run_law`: `specs/Follows.antt` says which calls a rank can have made, and with what outcome it ends.
#![tactic(auto)]

mod away;
mod calls;
mod home;
mod pieces;
mod program;
mod stock;

pub use program::FlowProgram;
