//! A run of one rank and one server in line: each letter is handled inside the call that sends it, so its calls return.
//!
//!     let mut world = InlineWorld::new(alloc, 1 << 26)?; // one rank, and one server with room for that
//!     let outcome = program.run(Rank(0), &mut world); // it is an `Adlb` as any other
//!     world.finish_inline();
//!     let (ledger, transcript, left) = world.end()?;
//!
//! `InlineWorld` stands on a world of `core_world`, of one rank and one server, to which a run of events leads. So what `core_law`
//! states of every run is read off for it. `specs/Inline.antt` is what contracts see of it and what holds of it after every sequence
//! of calls, and `specs/Left.antt` says which units are left at the end; `specs/inside` has what private contracts cite.
#![tactic(auto)]

mod inline;
mod laws;
mod pairs;
mod runs;

pub use inline::InlineWorld;
pub use laws::left_laws;
