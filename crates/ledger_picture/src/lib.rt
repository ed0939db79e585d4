//! A picture of a ledger: one SVG, with no script and no outside resource.
//!
//! `draw` follows a ledger up to its first entry that is no step, and draws a lane for each rank and each server of
//! the run. `specs/Front.antt` says what the text of a picture begins with (`IsPicture`), and `specs/Numbers.antt`
//! what its numbers are (`IsNumbersOf`); what is drawn in the lanes is tested. It stands on the machine of
//! `ledger_checker` and on `ledger_rules`.
#![tactic(auto)]

mod bars;
mod columns;
mod frame;
mod front;
mod legend;
mod levels;
mod moves;
mod numbers;
mod painter;
mod picture;
mod places;
mod ranks;
mod servers;
mod survey;
mod text;

pub use numbers::Numbers;
pub use picture::{Picture, draw};
