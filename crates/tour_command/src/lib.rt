//! The command `tour`: cities that are read from an input, and a least tour through them.
//!
//!     let ended = tour(alloc, config, &mut input, &mut output, &mut threads, FreeGate {});
//!
//! `Tours` is a command of `run_command`. It asks for the cities of an input (`tour_search`), which the programs of
//! `tour_app` search. It tells a least tour, which their outcomes hold (`least_law`). `specs/Tours.antt` says what is
//! asked, run and told, and `specs/Ends.antt` how `tour` ends.
#![tactic(auto)]

mod laws;
mod telling;
mod touring;
mod tours;

pub use laws::city_laws;
pub use touring::tour;
pub use tours::Tours;
