//! What happens in a run.

use adlb_unit::{Actor, Rank};
use bag_ledger::Call;

/// One event of a run: a rank begins a call, or an actor handles a letter.
#[derive(Drop)]
pub enum Event {
    /// The rank begins this call.
    Call(Rank, Call),
    /// The front letter of the list from the first actor to the second is handled by the second.
    Deliver(Actor, Actor),
}
