//! All actors together: what a run of a configuration by letters is.
//!
//! It stands on the letters of `adlb_unit`, the bag of `bag_ledger`, one server of `server_law` and the client of one rank
//! of `rank_client`. `specs/World.antt` says what a world is and what happens in it, and `specs/Runs.antt` what a run is and
//! what is read off it. It has no code but `Event`; `core_law` states what holds of every run, and `core_world` carries
//! events out.
#![tactic(auto)]

mod events;

pub use events::Event;
