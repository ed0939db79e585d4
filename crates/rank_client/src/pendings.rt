//! The call that a rank has begun and not heard the answer of.

use adlb_unit::{CommonRef, Payload, Server, Types, Unit, UnitNote, WorkType};

/// The pending call. Of one that goes to one server after the other, `tried` servers, from `first` on in ring order, have refused it,
/// found nothing or heard it. The next is being asked. A try goes so from the home on, and so does that the problem is done.
#[derive(Drop)]
pub enum Pending {
    /// No call is pending.
    Nothing,
    /// The unit is offered to one server after the other.
    Put {
        unit: Unit,
        first: Server,
        tried: u32,
    },
    /// The home looks for a unit of these types.
    Reserve {
        request: u64,
        types: Types,
    },
    /// One server after the other looks for a unit of these types.
    Try {
        request: u64,
        types: Types,
        tried: u32,
    },
    /// The unit's server is asked for its bytes.
    Fetch {
        request: u64,
        note: UnitNote,
    },
    /// The unit's own bytes have come, and the server of its common part is asked for that.
    Common {
        request: u64,
        note: UnitNote,
        common: CommonRef,
        own: Payload,
    },
    /// A batch begins: its common part is offered to one server after the other.
    Keep {
        request: u64,
        common: Payload,
        first: Server,
        tried: u32,
    },
    /// The batch ends: the server of its common part is told how many of its units were accepted.
    Close {
        request: u64,
        batch: CommonRef,
    },
    /// The home is asked what of this type is free there.
    Count {
        request: u64,
        kind: WorkType,
    },
    /// One server after the other, from the home on, is told that the problem is done.
    SetDone {
        request: u64,
        tried: u32,
    },
}
