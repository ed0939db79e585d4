//! What the checks that go round the ring of servers find.
//!
//! It stands on the laws of runs in `core_law`. `specs/Tokens.antt` counts the tokens under way, `specs/OnWay.antt` says what
//! one says of the servers. `specs/Turn.antt` says what it is to the server to which it goes, and `specs/Settling.antt` what it
//! says of the bag. `specs/Ends.antt` has the letters that say that an end was found, and `specs/After.antt` what is so
//! afterwards. It speaks of definitions alone and has no code.
#![tactic(auto)]

mod ends;
mod laws;
mod verdicts;

pub use ends::end_laws;
pub use laws::check_laws;
pub use verdicts::verdict_laws;
