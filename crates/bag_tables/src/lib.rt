//! The tables of a bag: its ranks, units, common parts and promises, each seen as the bag's list.
//!
//! A unit, a part and a promise are found by a map from their ids. What a server is charged with, how many parts are due and
//! which units are free are kept as sums and counts. So no question but those that say so looks at all that was kept. It
//! stands on `adlb_unit` and on `bag_ledger`, whose definitions the contracts cite.
#![tactic(auto)]

mod changes;
mod charges;
mod counts;
mod parts;
mod places;
mod promises;
mod ranks;
pub mod reading;
mod tallies;
mod units;

pub use changes::{PartChange, RankChange};
pub use parts::Parts;
pub use promises::Promises;
pub use ranks::Ranks;
pub use units::Units;
