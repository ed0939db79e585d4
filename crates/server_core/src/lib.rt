//! One server: what it keeps, and what it does with each letter.
//!
//! It stands on the letters of `adlb_unit` and the ledger's entries of `bag_ledger`, and on what a server is made of.
//! The queue is `work_queue`, checks are `exhaust_ring`, and pushes, ranks that wait and common parts
//! `server_components`. Contracts see a server as `specs/State.antt` of `server_law` has it, and a step carries out
//! the acts that `specs/Step.antt` there names. A file for each family of letters has what is done with them; what
//! follows each event is in `src/ending.rt`. The code serves any number of ranks and servers.
#![tactic(auto)]

mod asks;
mod batches;
mod checks;
mod counts;
mod dones;
mod ending;
mod expecting;
mod fetches;
mod finishing;
mod hints;
mod looks;
mod outgoing;
mod pushes;
mod puts;
mod reserves;
mod states;
mod steps;
mod turns;
mod waits;

pub use outgoing::Spare;
pub use states::{LeftUnit, ServerState};
pub use steps::Step;
