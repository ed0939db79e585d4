//! Cities: how they are read, a first tour through them, and the search for the best tours that begin in a given way.
//!
//! `specs/Reading.antt` says which cities an input has, or which of its lines is refused first. `read_cities` reads
//! them, `first_tour` makes a tour through them, and `search_from` improves one by branch and bound. It stands on the
//! definitions of `tour_law`.
#![tactic(auto)]

mod branching;
mod cities;
mod faults;
mod first;
mod lines;
mod numbers;
mod pieces;
mod reading;
mod searching;
mod tours;
mod ways;

pub use cities::Cities;
pub use faults::{CitiesFault, CitiesWhy};
pub use first::{cost_of, first_tour};
pub use reading::read_cities;
pub use searching::search_from;
pub use tours::Tour;
