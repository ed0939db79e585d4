//! Inputs of any size, made from a seed: puzzles and batches, the same for a seed on each machine.
//!
//!     let text = made(alloc, 500, 1)?; // 500 puzzles of the seed 1, and a batch after each eighth
//!     write_made(alloc, 500, 1, &mut output)?; // the text, to a sink
//!
//! It stands on the generator PCG32 of `rand_pcg` and the sinks of `adlb_io`. `specs/Made.antt` says what text is made
//! of a count and a seed (`made_text`), and `specs/Ends.antt` how its writing ends (`MakesTo`).
#![tactic(auto)]

mod faults;
mod laws;
mod makers;
mod texts;
mod writing;

pub use faults::MadeFault;
pub use laws::made_laws;
pub use texts::made;
pub use writing::write_made;
