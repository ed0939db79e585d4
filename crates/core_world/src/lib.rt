//! All actors of a run together, handled by whoever calls.
//!
//!     let mut world = World::new(alloc, config)?;
//!     world.apply(Event::Call(Rank(0), Call::Finish))?; // the rank begins the call
//!     world.apply(Event::Deliver(Actor::Rank(Rank(0)), Actor::Server(Server(0))))?; // the server handles its letter
//!     let entries = world.ledger().len();
//!
//! `World` is a run whose events are applied one by one, as a caller chooses them. It stands on the client of `rank_client`, the
//! server of `server_core` and the run of `core_run`, whose definitions say what happens at an event; `specs/Seen.antt` is what
//! contracts see of a world, and `specs/Applied.antt` says what applying an event does and why it is refused. A world keeps that
//! a run leads to it, so by the laws of `core_law` and `core_check_law` each letter that it handles is expected.
#![tactic(auto)]

mod applying;
mod faults;
mod links;
mod stages;
mod steps;
mod worlds;

pub use faults::ApplyFault;
pub use worlds::World;
