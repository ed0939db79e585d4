//! The tour program: how the ranks of a run find a least tour together, over any link.
//!
//! A `TourProgram` works by the calls of `adlb_rank`, on the cities and searches of `tour_search`. `specs/Works.antt` says which units
//! there are, how each is put and read, what the work on it makes, and what a rank is to do; `specs/Bodies.antt` has their bytes. It is
//! work in the sense of `work_law`, whose books say which call a rank makes next. `specs/Follows.antt` says with what outcome it ends, and
//! `specs/Output.antt` what is written of a tour.
#![tactic(auto)]

mod bodies;
mod calls;
mod desk;
mod laws;
mod outcomes;
mod output;
mod program;
mod starts;
mod units;
mod working;

pub use laws::unit_laws;
pub use outcomes::TourOutcome;
pub use output::render_tour;
pub use program::TourProgram;
pub use starts::Start;
pub use units::{Order, TourUnit};
