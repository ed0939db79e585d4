//! Memory that a client keeps, so that a letter that answers a call takes none.

use adlb_unit::Payload;
use std::alloc::Global;

// What it takes to ask more servers in the rest of a call: the bytes that each is offered. A try offers none, nor does that the
// problem is done.
#[derive(Drop)]
pub(crate) struct Room {
    pub(crate) tries: Vec<Payload>,
}

impl Room {
    // No room.
    pub(crate) fn none(alloc: Global) -> Room {
        Room {
            tries: Vec::new(alloc),
        }
    }
}
