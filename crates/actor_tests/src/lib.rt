//! Units and ranks that wait, pushes, common parts, one server and one rank's client, call by call and letter by letter.
//!
//! It holds tests alone, in a crate of their own so that what they test is not proved again with them: of `work_queue`,
//! `server_components`, `server_core` and `rank_client`.
#![tactic(auto)]

#[cfg(test)]
mod asking;
#[cfg(test)]
mod driven;
#[cfg(test)]
mod ending;
#[cfg(test)]
mod handled;
#[cfg(test)]
mod keeping;
#[cfg(test)]
mod lines;
#[cfg(test)]
mod moving;
#[cfg(test)]
mod parts;
#[cfg(test)]
mod pushes;
#[cfg(test)]
mod queue;
#[cfg(test)]
mod queues;
#[cfg(test)]
mod serving;
#[cfg(test)]
mod waits;
