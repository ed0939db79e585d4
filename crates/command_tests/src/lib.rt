//! The top call, from words and bytes to what is written.
//!
//! It holds tests alone, in a crate of their own so that `adlb_command` is not proved again with them. They are the
//! worked rows in line and with threads, bad input, other commands, flows, faults outside, and what is said of each fault.
//! Solutions are compared with those of another solver, and least tours with a search of all orders.
#![tactic(auto)]

#[cfg(test)]
mod draws;
#[cfg(test)]
mod faults;
#[cfg(test)]
mod flows;
#[cfg(test)]
mod inline;
#[cfg(test)]
mod progress;
#[cfg(test)]
mod rows;
#[cfg(test)]
mod runs;
#[cfg(test)]
mod sides;
#[cfg(test)]
mod solved;
#[cfg(test)]
mod tables;
#[cfg(test)]
mod texts;
#[cfg(test)]
mod threaded;
#[cfg(test)]
mod tours;
