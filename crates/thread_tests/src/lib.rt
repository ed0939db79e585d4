//! Ranks and servers in threads, by example, and journals and their merge; and those in which an actor fails.
//!
//! It holds tests alone, of `rank_mail`, `actor_desk`, `thread_actors` and `adlb_threads`. They show
//! that letters arrive in order, and what a desk enters and sends. A rank's calls are told what its server said
//! beforehand, and its thread leaves what they came to. A server that hears what it does not expect ends. Whole runs
//! end well, or with what went wrong. Of `merge_history`, what a client and a server that are stepped by hand keep
//! merges to a legal ledger. What many actors keep of events of pseudo-random numbers and stamps merges to what a sort
//! makes of it.
//!
//! One actor of a run is tried at its desk, and a script says all letters of the others: `parts` is where that is done.
#![tactic(auto)]

#[cfg(test)]
mod calls;
#[cfg(test)]
mod cast;
#[cfg(test)]
mod desks;
#[cfg(test)]
mod faults;
#[cfg(test)]
mod gates;
#[cfg(test)]
mod heard;
#[cfg(test)]
mod keeping;
#[cfg(test)]
mod mailboxes;
#[cfg(test)]
mod parts;
#[cfg(test)]
mod programs;
#[cfg(test)]
mod ranks;
#[cfg(test)]
mod runs;
#[cfg(test)]
mod says;
#[cfg(test)]
mod servers;
#[cfg(test)]
mod sorted;
#[cfg(test)]
mod stepped;
