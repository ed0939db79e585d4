//! Sources of bytes.

ghost use Rattle.std.specs.Prelude.{◌≡◌, ◌≤◌, List, ℕ, length, Option, IfOk, OnOk, OnErr};
ghost use Rattle.adlb_io.specs.Outside.{Gives, Rises};

use adlb_unit::NoMemory;
use std::error::Error;
use std::fmt;

/// The outside has failed: the count of faults of what was called rose.
#[derive(Clone, Copy, Debug, PartialEq, Eq)]
pub struct Failed;

impl fmt::Display for Failed {
    fn fmt<W: fmt::Write>(&self, f: &mut fmt::Formatter<W>) -> fmt::Result {
        write!(f, "the outside has failed")
    }
}

impl Error for Failed {}

/// Why bytes were not read.
#[derive(Clone, Copy, PartialEq, Eq)]
pub enum SourceFault {
    /// The source failed.
    Failed,
    /// Allocation failed. Contracts never say when: any call that allocates may answer it.
    Memory,
}

impl From<Failed> for SourceFault {
    ghost use Rattle.adlb_io.specs.declared.sources.SourceFault.TheVariants as faults;

    ghost from_gives = { λ _ fault. fault ≡ faults.Failed };

    fn from(_: Failed) -> SourceFault {
        SourceFault::Failed
    }
}

impl From<NoMemory> for SourceFault {
    ghost use Rattle.adlb_io.specs.declared.sources.SourceFault.TheVariants as faults;

    ghost from_gives = { λ _ fault. fault ≡ faults.Memory };

    fn from(_: NoMemory) -> SourceFault {
        SourceFault::Memory
    }
}

/// Where bytes come from.
pub trait Source {
    /// What is left, where the source tells it.
    ghost left: { Self → Option (List ℕ) };

    /// How often the source has failed. It never falls, and stays at the last value of a `u64`.
    ghost faults: { Self → ℕ };

    /// Puts some of the bytes that are left to the front of the room, and answers how many. It answers 0 only at the end, or for
    /// a room without place. `Failed` comes only if the count of faults rose (or is at its last value), and changes nothing
    /// of what is left. Otherwise the count stays.
    fn read(&mut self, room: &mut [u8]) -> Result<usize, Failed>
        ensures bound { IfOk result (λ n. n ≤ length room.old) }
        ensures given { IfOk result (λ n. Gives (left self.old) (left self.new) room.new n) }
        ensures refused { OnErr result (left self.new ≡ left self.old) }
        ensures counted { OnOk result (faults self.new ≡ faults self.old) }
        ensures later { faults self.old ≤ faults self.new }
        ensures cause { OnErr result (Rises (faults self.old) (faults self.new)) };
}
