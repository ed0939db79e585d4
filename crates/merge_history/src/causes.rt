//! What brings an event about.

use adlb_unit::{Actor, Letter};
use bag_ledger::Call;

/// What an event begins with: a call of the rank's program, or a letter that the actor took from its mailbox.
#[derive(Drop)]
pub enum Cause {
    Called(Call),
    Got { from: Actor, letter: Letter },
}
