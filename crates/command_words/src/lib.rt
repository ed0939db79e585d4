//! The words of a command line, read by `clap`.
//!
//! The first word is the command, and `clap` reads the words after it as one simple command. It stands on `adlb_unit`.
//! `specs/Ranges.antt` is the table of the numbers, `specs/Options.antt` says what `clap` is told about each command,
//! and `specs/Said.antt` which lists of words are accepted and what they say.
#![tactic(auto)]

mod commands;
mod options;
mod reading;
mod refusals;

pub use commands::{Command, RunOptions, RunWords, Sizes, SolveWords, WordsFault};
pub use reading::read_words;
pub use refusals::refusal;
