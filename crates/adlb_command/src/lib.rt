//! The command `adlbrun` as a library: from the words and the input to the output, over any source and sink.
//!
//! `run_adlb` is the whole of it: it reads the words (`command_words`) and calls the command that they say. That is `solve` or `drill` of
//! `solve_command`, `tour` of `tour_command`, `flow` of `flow_command`, `write_made` of `made_jobs`, `check_ledger` of `ledger_command` or
//! `draw_ledger` of `draw_command`. `specs/Top.antt` says how it ends, by what the words say (`EndsAs`), and `command_ends` which exit
//! status there is. `end_laws` says what follows of accepted and refused inputs, and `one_report` that jobs have one report.
//! The program `adlbrun` (`adlb_program`) hands it the command line, standard input and output, threads of the system and a gate that is
//! always open.
#![tactic(auto)]

mod laws;
mod reports;
mod top;
mod words;

pub use command_ends::{AnyKept, LineWhy, RunEnd, RunFault};
pub use laws::end_laws;
pub use reports::one_report;
pub use top::run_adlb;
