//! All that a program needs to share its work among ranks.
//!
//! A program says what its units are and what each is worth (`Work`), and `run` works them. What all ranks count together is then
//! what the first units are worth, for every number of ranks and servers, in whatever order letters come. If units give answers, it says
//! how many that pass a test (`Answers`), and `gather` gives them all, each once. A program that makes the calls of a rank itself
//! (`RankProgram`, over `Rank` or `Adlb`) is run by `run_each`. What fails, `main` may return as a `Failure`.
//!
//! It stands on the calls of `adlb_rank` and the threads of `adlb_threads`. A rank runs a `Worker` of its `Duty`: what it gathered and
//! sent is worth what it began with and got (`specs/Worked.antt`). So all ranks together gather what the first units are worth
//! (`worth_laws`).
#![tactic(auto)]

mod answers;
mod batches;
mod duties;
mod failures;
mod faults;
mod laws;
mod pushed;
mod runs;
mod settings;
mod work;
mod workers;
mod works;

pub use adlb_rank::{Batched, Rank, Reply, Taken};
pub use adlb_threads::Report;
pub use adlb_unit as units;
pub use adlb_unit::{
    ConfigFault, End, Info, NoMemory, Payload, Target, Trouble, Types, UnitNote, WorkType,
    or_no_memory,
};
pub use answers::Answers;
pub use bag_ledger::Body;
pub use batches::Batch;
pub use failures::Failure;
pub use faults::Fault;
pub use laws::worth_laws;
pub use pushed::Units;
pub use rank_client::{Adlb, RankProgram};
pub use runs::{run_each, run_each_on};
pub use settings::Settings;
pub use work::Work;
pub use works::{gather, gather_batch, gather_batch_on, gather_on, run, run_on};
