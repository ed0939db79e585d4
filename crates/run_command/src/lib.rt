//! A command that runs a rank program over an input, whatever it asks, runs and tells.
//!
//!     let ended = run(alloc, &command, config, inline, &mut input, &mut output, &mut threads, FreeGate {});
//!     match ended.fault {
//!         None => .., // the whole output was written and flushed, and `ended.kept` is the run
//!         Some(fault) => ..,
//!     }
//!
//! A `Command` says what bytes ask, which programs the ranks have, and what is said of a run. `run` reads an input, runs the programs with
//! threads (`run_threads`) or on the caller's own thread (`run_inline`), and writes what is told. `specs/Ends.antt` says how such a run
//! ends, by its fault (`EndsBy`), and `specs/Kept.antt` what is kept of it (`IsKept`); `Kept` is that report, which knows if it is of a run
//! in threads. It stands on `adlb_threads`, `core_inline` and the sources and sinks of `adlb_io`.
#![tactic(auto)]

mod answers;
mod commands;
mod faults;
mod inline;
mod kept;
mod programs;
mod reading;
mod runs;
mod threads;
mod writing;

pub use adlb_threads::Report;
pub use commands::{Command, ReadFault};
pub use faults::{Ended, Fault};
pub use inline::run_inline;
pub use kept::Kept;
pub use runs::run;
pub use threads::run_threads;
