//! The checker of ledgers: where a ledger is no legal run.
//!
//!     match first_illegal(alloc, &ledger, &config)? {
//!         None => .., // it is a legal run of the bag
//!         Some(place) => .., // counted from 0
//!     }
//!
//! A machine keeps the state of the bag that the entries before leave, and takes each entry that is a step of the bag from there.
//! `first_illegal` gives the place of the first entry that is no step; `first_stop` and `Machine` are public for whoever also looks at the
//! states between. It stands on `adlb_unit`, on `bag_ledger`, which says what a step is, and on `bag_tables`, which keeps what the state
//! has.
#![tactic(auto)]

mod checking;
mod effects;
mod legality;
mod machines;

pub use checking::{Stop, Unwatched, Watch, first_illegal, first_stop};
pub use machines::Machine;
