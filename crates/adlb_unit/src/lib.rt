//! Units of work, who puts them and which of them a rank may get, and the letters in which ranks and servers speak of
//! them.
//!
//!     let config = Config::new(4, 2, 1 << 26)?; // ranks, servers, bytes of each server
//!     let types = Types::list(&[WorkType(0), WorkType(2)])?;
//!     let mine = permits(Rank(1), &types, WorkType(2), Target::Soft(Rank(3))); // true
//!     let (home, next) = (config.home(Rank(1)), config.next(Server(1)));
//!
//! It stands on nothing else of the workspace. Of its definitions, `specs/Permit.antt` says which units are permitted
//! to a rank and which suit it better. `specs/Targets.antt` has the targets of a run and the homes of its ranks. When
//! ids are equal is in `specs/Ids.antt`, and how great a run's numbers may be in `specs/Limits.antt`. Letters have
//! three: `specs/Links.antt` for their stamps and places, `specs/Kinds.antt` for who sends which message, and
//! `specs/Infos.antt` for what is said of free units. A payload's bytes are in `specs/Held.antt`, and how many of
//! them a fetch gives in `specs/Totals.antt`.
#![tactic(auto)]

mod actors;
mod configs;
mod handles;
mod letters;
mod limits;
mod messages;
mod names;
mod notes;
mod payloads;
mod running_out;
mod sending;
mod tokens;
mod units;
mod wanted;

pub use actors::Actor;
pub use configs::{Config, ConfigFault};
pub use handles::Handle;
pub use letters::{Letter, Sending};
pub use limits::{BODY_LIMIT, RANK_LIMIT, SERVER_LIMIT, STAMP_LIMIT, TYPE_LIMIT, limits_as_stated};
pub use messages::{Message, Why};
pub use names::{BatchId, CommonRef, NoMemory, Rank, Server, Target, UnitId, WorkType};
pub use notes::{End, Info, Trouble, UnitNote};
pub use payloads::Payload;
pub use running_out::or_no_memory;
pub use tokens::{AskedList, Token};
pub use units::Unit;
pub use wanted::{Types, TypesFault, class_for, permits};
