//! Units, letters, bytes, threads, words, and ledgers as text, checked and counted; and jobs and tours, by example.
//!
//! It holds tests alone, in a crate of their own so that what they test is not proved again with them: of `adlb_unit`,
//! `adlb_io`, `bag_ledger`, `command_words`, `ledger_file`, `ledger_rules`, `ledger_command`, `ledger_stats` and
//! `draw_command`, and in `jobs` of what reads, makes, works and reports puzzles, jobs and tours. They show which
//! numbers and targets are taken, what is permitted, and that what is heavy has a twin. Bytes are read and written, and
//! threads are started. Words are accepted or not, lines of a text are refused, and of each rule that an entry breaks
//! something is said. A check and a drawing of a ledger end in each way.
#![tactic(auto)]

#[cfg(test)]
mod bodies;
#[cfg(test)]
mod bytes;
#[cfg(test)]
mod checked;
#[cfg(test)]
mod complaints;
#[cfg(test)]
mod configs;
#[cfg(test)]
mod counts;
#[cfg(test)]
mod drawn;
#[cfg(test)]
mod handles;
#[cfg(test)]
mod jobs;
#[cfg(test)]
mod ledgers;
#[cfg(test)]
mod letters;
#[cfg(test)]
mod payloads;
#[cfg(test)]
mod texts;
#[cfg(test)]
mod threads;
#[cfg(test)]
mod tokens;
#[cfg(test)]
mod wanted;
#[cfg(test)]
mod words;
