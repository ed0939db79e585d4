//! Runs that are stepped by hand and runs in line, by example, and ledgers through the checker of ledgers.
//!
//! It holds tests alone, in a crate of their own so that what they test is not proved again with them. Small ledgers are legal,
//! and each with one entry changed, dropped or added is illegal at a stated place. In 10,000 runs of up to six ranks and four
//! servers each event is chosen at random among those that are enabled, until no event is. Each leaves a legal ledger, and one
//! that differs from it in one entry is illegal at that entry. With one server each rank is told the end.
#![tactic(auto)]

#[cfg(test)]
mod calls;
#[cfg(test)]
mod changes;
#[cfg(test)]
mod driven;
#[cfg(test)]
mod inline;
#[cfg(test)]
mod mutants;
#[cfg(test)]
mod rows;
#[cfg(test)]
mod scenes;
#[cfg(test)]
mod scripts;
#[cfg(test)]
mod stepped;
