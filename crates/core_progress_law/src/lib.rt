//! That every run ends: none gets stuck, and where a run can go no further all has ended.
//!
//! It stands on the laws of runs in `core_law` and `core_check_law`, on the bound on events in `core_bound_law`, and on what
//! servers know of each other in `core_wish_law`. `specs/Ended.antt` says when a run can go no further and when it has ended,
//! `specs/Going.antt` what keeps it going, and `specs/Room.antt` how many letters are under way to one actor. By what servers know
//! of each other it also says that no rank has called the problem done where all work is found used up. It speaks of definitions
//! alone and has no code.
#![tactic(auto)]

mod endings;
mod laws;
mod orders;
mod rooms;

pub use endings::every_run_ends;
pub use laws::progress_laws;
pub use orders::order_laws;
pub use rooms::room_laws;
