//! How the servers of a run find out that all work is used up, or that each rank has finished.
//!
//! Server 0 sends a token twice round the ring of servers. In the first wave each server must be quiet: it marks its
//! activity, and puts the ranks that wait there on the token's list. In the second wave each server must be quiet, its
//! activity must be that of its mark, and no free unit there may fit a rank of the list. After both waves server 0 has
//! the verdict. A test that fails ends the check, and a later one starts anew.
//!
//! It stands on `adlb_unit`, and knows neither queues nor ranks: who calls tells it whether the server is quiet, its
//! activity, who waits and what fits. `specs/Ring.antt` says what a server keeps, `specs/Tests.antt` what is tested,
//! `specs/Visits.antt` what each call makes of the ring and answers, and `specs/Expected.antt` which tokens may come.
#![tactic(auto)]

mod expecting;
mod keeping;
mod laws;
mod starting;
mod steps;
mod visits;

pub use keeping::Ring;
pub use laws::ring_laws;
pub use steps::RingStep;
