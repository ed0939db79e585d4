//! What the journals of all actors are, also of those that failed.
//!
//! It stands on the journals of `merge_history`, the desks of `actor_desk`, and the laws of runs. What a desk knows of an actor that
//! may have failed is `Begins` there. `specs/Fallen.antt` says what such an actor still expects. It speaks of definitions alone and
//! has no code.
#![tactic(auto)]

mod laws;

pub use laws::fallen_laws;
