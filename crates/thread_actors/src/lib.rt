//! The work of a rank's thread with its link to servers in other threads, and the work of a server's thread.
//!
//! `ThreadedLink` stands on the client of `rank_client`, whose transcript is the link's, and on the rank's desk of `actor_desk`.
//! What it claims as an `Adlb` rests on the client alone: a letter that the client does not expect makes the link fail. While it
//! has not failed, the journal of its desk is the client's own run, with all that went through its mailboxes. `specs/RankJobs.antt`
//! says what a rank's thread promises of its result.
//!
//! `ServerJob` stands on the server of `server_core` and on its desk of `actor_desk`. The journal of its desk is the server's own
//! run. While the server has not failed, it has all that went through the mailboxes. A letter may break it: then it tells all whom that
//! concerns, and reads on until each rank is over. `specs/ServerJobs.antt` says what a server's thread promises of its result.
//!
//! `specs/inside` has what private contracts cite.
#![tactic(auto)]

mod broken;
mod faults;
mod links;
mod rank_jobs;
mod rolls;
mod server_jobs;
mod serving;
mod wires;

pub use faults::ActorFault;
pub use links::{LinkEnd, ThreadedLink};
pub use rank_jobs::{Follows, RankEnd, RankJob};
pub use server_jobs::{ServerEnd, ServerJob, Serves};
