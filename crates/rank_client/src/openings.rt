//! What begins a call.

use crate::pendings::Pending;
use crate::rooms::Room;
use adlb_unit::{End, Message, Server, UnitId};
use bag_ledger::{Call, Entry};

// What begins a call.
#[derive(Drop)]
pub(crate) struct Opening {
    // How many puts and batch beginnings were begun then.
    pub(crate) puts: u64,
    // The unit whose note is no longer held then, if there is one.
    pub(crate) spent: Option<UnitId>,
    pub(crate) entry: Entry,
    pub(crate) first: First,
}

// What comes of it first.
#[derive(Drop)]
pub(crate) enum First {
    // A server is asked, and the call waits for its answer, with room for what it may need then.
    Asks {
        to: Server,
        message: Message,
        pending: Pending,
        room: Room,
    },
    // The call is answered at once by the end that was told before.
    Over {
        call: Call,
        end: End,
    },
}
