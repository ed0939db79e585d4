//! What every legal run implies of the bag alone: laws, with no code.
//!
//! The bag after a run of `bag_ledger` is sound (`specs/Sound.antt`), and what the ranks were told in it is true of the bag
//! (`specs/Calls.antt`). All of it holds whatever is asked where exhaustion is found. So it is proved once, entry by entry, and
//! read off each run; no law over letters has to carry it. It stands on `adlb_unit` and `bag_ledger`.
#![tactic(auto)]

mod laws;

pub use laws::{
    every_run_is_sound, no_call_is_refused_twice, no_unit_is_taken_twice, sound_bag_laws,
};
