//! What a mailbox holds, and what is known of it.

use adlb_unit::Letter;
use std::collections::LinkedList;

/// A letter with the number of its sender.
#[derive(Drop)]
pub struct Posted {
    pub from: u32,
    pub letter: Letter,
}

/// What a pass knows of its mailbox. A sender's knows its number and what it sent. The receiver's knows what it got,
/// how many senders there are, and what those that are closed had sent. It exists in proofs alone; no value of it is
/// made.
pub struct Known {
    pub sends: bool,
    pub from: u32,
    pub sent: LinkedList<Letter>,
    pub gets: bool,
    pub got: LinkedList<Posted>,
    pub senders: u32,
    pub closed: LinkedList<LinkedList<Letter>>,
}
