//! A push that stands.

ghost use Rattle.std.specs.Prelude.{◌≡◌};
ghost use Rattle.server_components.specs.Pushes.{is_push_as};

use adlb_unit::{Server, UnitId};

// A push of one server: to which server it goes, of which unit, and how many bytes that unit has. First it is a query,
// which asks for room; then the unit, or a cancel of it, was sent, and the acknowledgement is awaited.
#[derive(Clone, Copy)]
pub struct StandingPush {
    pub to: Server,
    pub id: UnitId,
    pub length: u32,
    pub sent: bool,
}

impl StandingPush {
    // It is of this unit to that server, and the unit or a cancel was sent, or was not.
    pub(crate) fn is_as(&self, to: Server, id: UnitId, sent: bool) -> bool
        ensures { result ≡ is_push_as to id sent self.now }
    {
        self.to == to && self.id == id && self.sent == sent
    }
}
