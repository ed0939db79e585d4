//! What an actor keeps of its events.

use bag_ledger::Entry;

/// An entry with the stamp of its event.
#[derive(Drop)]
pub struct Stamped {
    pub stamp: u64,
    pub entry: Entry,
}
