//! One rank: its calls, the programs that make them, and what a client does with each call and each letter.
//!
//! It stands on the letters of `adlb_unit` and the calls, answers and entries of `bag_ledger`. `specs/Calls.antt`
//! says what a call adds to a rank's transcript. `specs/State.antt` is what contracts see of a client.
//! `specs/Rules.antt` has the rule of each call and of each letter, `specs/Step.antt` the step that follows it, and
//! `specs/Expected.antt` says which letters have a step. `laws` states that the entries of a step are steps of the
//! bag, and that its answers are those that the bag's ledger gives. `specs/Answers.antt` says which calls a rank can
//! make and what each can be answered, and `specs/Says.antt` what the steps of a call make of the transcript. `Adlb`
//! is the link of a rank's program: `specs/Link.antt` says what each call makes of it.
#![tactic(auto)]

mod answers;
mod batches;
mod calls;
mod carriers;
mod clients;
mod counts;
mod dones;
mod expecting;
mod faults;
mod fetches;
mod hearing;
mod laws;
mod links;
mod looks;
mod openings;
mod outcomes;
mod pendings;
mod programs;
mod puts;
mod rooms;
mod rounds;
mod said;
mod steps;

pub use carriers::Carrier;
pub use clients::ClientCore;
pub use faults::{EndFault, PutFault, TryFault};
pub use laws::{client_laws, says_laws};
pub use links::Adlb;
pub use pendings::Pending;
pub use programs::RankProgram;
pub use steps::ClientStep;
