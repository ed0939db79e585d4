//! What a reserve comes to.

ghost use Rattle.std.specs.Prelude.{◌≡◌};
ghost use Rattle.server_components.specs.Calls.{step_of};

use adlb_unit::{Server, UnitNote};

/// What becomes of a rank that reserves, at its home.
#[derive(Clone, Copy)]
pub enum ReserveStep {
    /// The unit is pinned to the rank, which waits no longer.
    Granted(UnitNote),
    /// The rank is parked, and this server is to be asked for it.
    Ask(Server),
    /// The rank is parked, and no server is to be asked for it now.
    Idle,
}

impl ReserveStep {
    // What is done for a rank that is parked, for which this server is asked.
    pub(crate) fn of(asked: Option<Server>) -> ReserveStep
        ensures { result ≡ step_of asked }
    {
        match asked {
            Some(server) => ReserveStep::Ask(server),
            None => ReserveStep::Idle,
        }
    }
}
