//! The command `flow`: named values and rules that are read from an input, and the values that the rules come to.
//!
//!     let ended = flow(alloc, config, &mut input, &mut output, &mut threads, FreeGate {});
//!
//! `Flows` is a command of `run_command`. It asks for the flow of an input (`flow_app`), which the programs of
//! `flow_work` compute. It tells the values of its names, which their outcomes bring (`values_law`).
//! `specs/Flows.antt` says what is asked, run and told, and `specs/Ends.antt` how `flow` ends.
#![tactic(auto)]

mod flowing;
mod flows;
mod inputs;
mod laws;
mod telling;

pub use flowing::flow;
pub use flows::Flows;
pub use inputs::FlowInput;
pub use laws::flow_laws;
