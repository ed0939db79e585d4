//! What a server is and does, as definitions and laws, with no code.
//!
//! A server's step is a list of acts. `specs/State.antt` says what a server keeps, `specs/Acts.antt` what each act
//! takes, changes, says and enters, and `specs/Carried.antt` how acts follow each other. The rules of letters are in
//! `specs/Puts.antt`, `specs/Reserves.antt`, `specs/Looks.antt`, `specs/Fetches.antt`, `specs/Counts.antt`,
//! `specs/Batches.antt`, `specs/Dones.antt` and `specs/Finishes.antt`. Those of letters between servers are in
//! `specs/Asks.antt`, `specs/Hints.antt`, `specs/Pushes.antt` and `specs/Checks.antt`. What follows for a rank that
//! waits is in `specs/Waits.antt`, and how a push begins in `specs/Presses.antt`. What follows each event is in
//! `specs/Endings.antt`, and the step of a letter in `specs/Step.antt`. `specs/Expected.antt` says which letters have
//! a step, `specs/Agreement.antt` which part of the bag of units a server stands for. `specs/Moving.antt` says what
//! the bag has of a unit that is to move, and `specs/Calm.antt` what each event keeps. The code of a server,
//! `server_core`, and the laws of runs both stand on it.
#![tactic(auto)]

mod agreeing;
mod laws;

pub use agreeing::agreement_laws;
pub use laws::{calm_laws, server_laws};
