//! The calls of a rank as its program wants them.
//!
//! `Rank` has them over each link, and takes a unit in one call, so no handle is seen. A call comes to a `Reply`, a
//! `Taken` or a `Batched`, or fails with a `Trouble`. It stands on the link of `rank_client`. `specs/Calls.antt` says
//! what each call makes of the link, by the calls of that link (`Made`) of which it consists.
#![tactic(auto)]

mod links;
mod ranks;
mod replies;

pub use ranks::Rank;
pub use replies::{Batched, Reply, Taken};
