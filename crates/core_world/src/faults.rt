//! Why an event is not applied.

ghost use Rattle.std.specs.Prelude.{◌≡◌};
ghost use Rattle.core_world.specs.Applied.{fault_of};

use adlb_unit::Trouble;
use core_run::Event;
use std::fmt;
use thiserror::Error;

/// Why a world does not apply an event.
#[derive(Drop, Error)]
pub enum ApplyFault {
    /// There is no such event now. The rank is not in the run or not ready for the call. Or an actor is not in the run, no
    /// letter is under way from the one to the other, or the receiver has ended.
    #[error("the event is not enabled now")]
    NotEnabled { event: Event },
    /// There is no memory.
    #[error("out of memory")]
    Memory,
    /// The event would have this stamp, which is past the last one that is given.
    #[error("the run is too long: an event would have stamp {stamp}")]
    TooLong { stamp: u64 },
}

// As it is displayed: an event is not shown letter by letter.
impl fmt::Debug for ApplyFault {
    fn fmt<W: fmt::Write>(&self, f: &mut fmt::Formatter<W>) -> fmt::Result {
        fmt::Display::fmt(self, f)
    }
}

impl ApplyFault {
    // The trouble as a refusal.
    pub(crate) fn of(trouble: Trouble) -> ApplyFault
        ensures { result ≡ fault_of trouble }
    {
        match trouble {
            Trouble::Memory => ApplyFault::Memory,
            Trouble::TooLong { stamp } => ApplyFault::TooLong { stamp },
        }
    }
}
