//! What holds of every run of all actors by letters, and that its ledger is a legal run of the bag.
//!
//! It stands on the definitions of runs in `core_run`. What holds at every moment is stated over weights of letters and
//! states (`specs/Measures.antt`, `specs/Letters.antt`), over each actor's own state (`specs/Own.antt`) and over the letters
//! on a link (`specs/Lines.antt`). A server's event is a chain of acts, one world after the other (`specs/Acting.antt`).
//! `specs/Seats.antt` says what each actor is to the bag. `specs/Lawful.antt` says what is known of each rank across its
//! client, its letters, the servers and the bag, and `specs/Others.antt` what an entry leaves of other ranks. It speaks of
//! definitions alone and has no code.
#![tactic(auto)]

mod laws;
mod letters;

pub use laws::{core_run_laws, other_laws};
pub use letters::letter_laws;
