//! Why an actor of a run in threads failed.

ghost use Rattle.std.specs.Prelude.{◌≡◌, ◌⊎◌, ◌↔◌, ℕ, IfSome, None, Some};
ghost use Rattle.std.specs.Option.{option_map};
ghost use Rattle.adlb_unit.specs.declared.notes.Trouble.{Trouble};
ghost use Rattle.thread_actors.specs.Faults.{IsLate, told};

use adlb_unit::{STAMP_LIMIT, Trouble};

/// Why an actor failed: by itself, or because another told that it had.
#[derive(Clone, Copy, Debug, PartialEq, Eq)]
pub enum ActorFault {
    /// Allocation failed.
    Memory,
    /// An event would have this stamp, which is past the last one that is given.
    TooLong { stamp: u64 },
    /// The actor of this number sent a letter that was not expected.
    Unexpected { from: u32 },
}

impl ActorFault {
    /// The fault of an actor that met this trouble, or was told it, exactly if it can be one that an actor met (`IsLate`). That is
    /// if a stamp that is too long is past the last one that is given. Otherwise it is `Memory`.
    pub fn of(trouble: Trouble) -> ActorFault
        ensures late { IsLate (told result) }
        ensures same { IsLate trouble → told result ≡ trouble }
        ensures otherwise { (told result ≡ trouble) ⊎ (told result ≡ Trouble.Memory) }
        ensures expected { (from : ℕ) → result ≡ ActorFault.Unexpected from → ⊥ }
    {
        match trouble {
            Trouble::TooLong { stamp } if stamp >= STAMP_LIMIT => ActorFault::TooLong { stamp },
            _ => ActorFault::Memory,
        }
    }

    /// What the actor's calls answer, and what others are told. A letter that was not expected is told as `Memory`. No answer of a
    /// call, no letter and no status has a word for it, since none comes in a run whose actors keep to the protocol.
    pub fn told(self) -> Trouble
        ensures { result ≡ told self }
    {
        match self {
            ActorFault::TooLong { stamp } => Trouble::TooLong { stamp },
            ActorFault::Memory | ActorFault::Unexpected { .. } => Trouble::Memory,
        }
    }
}

// Why a client failed that met this trouble, if it did. If there was a sender, the actor of this number sent a letter that was not
// expected. Otherwise the trouble says it.
pub(crate) fn fault_of(trouble: Option<Trouble>, unexpected: Option<u32>) -> Option<ActorFault>
    requires late { IfSome trouble IsLate }
    requires memory { (from : ℕ) → unexpected ≡ Some from → trouble ≡ Some Trouble.Memory }
    ensures told { option_map told result ≡ trouble }
    ensures unexpected { (from : ℕ) → (result ≡ Some (ActorFault.Unexpected from)) ↔ (unexpected ≡ Some from) }
{
    match (unexpected, trouble) {
        (Some(from), _) => Some(ActorFault::Unexpected { from }),
        (None, Some(trouble)) => Some(ActorFault::of(trouble)),
        (None, None) => None,
    }
}
