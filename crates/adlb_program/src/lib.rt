//! The program `adlbrun`, but for its `main`: the words of its command line, their command, and what standard error
//! is told if it does not end well.
//!
//! It stands on `run_adlb` of `adlb_command`, over standard input and output, and on `refusal` of `command_words`.
//! What is said of a fault is a `Complaint`: its first line tells the fault, and the lines after it what would have
//! been accepted. With `--progress` a `Teller` says each second how far the run is, by what the ranks count at their
//! gates (`Progress`).
#![tactic(auto)]

mod complaints;
mod hints;
mod progress;
mod running;
mod telling;
mod words;

pub use complaints::Complaint;
pub use progress::{Counts, Progress, ProgressGate};
pub use running::run_program;
pub use telling::Teller;
