//! How a run of a command ends.

ghost use Rattle.std.specs.Prelude.{◌≡◌};

use crate::kept::Kept;
use adlb_io::SinkFault;
use adlb_threads::RanFault;
use adlb_unit::Trouble;

/// Why a command did not write its whole output.
#[derive(Clone, Copy, Drop)]
pub enum Fault<W> {
    /// A line of the input is refused: the first such line, from 1, and why.
    Input { line: u64, why: W },
    /// The source failed.
    Read,
    /// The sink failed.
    Write,
    /// A start of a thread was refused.
    NoThread,
    /// Allocation failed. Contracts never say when: any call that allocates may answer it.
    Memory,
    /// An event of the run would have this stamp, which is past the last one that is given.
    TooLong { stamp: u64 },
    /// The input has more than 2^24 bytes, of which this many were taken.
    TooLarge { taken: u64 },
}

impl<W> Fault<W> {
    ghost use Rattle.run_command.specs.inside.{fault_by, fault_of, fault_ran};

    /// The fault that a trouble of a run in line is (`fault_by`).
    pub(crate) fn by(trouble: Trouble) -> Fault<W>
        ensures { result ≡ fault_by trouble }
    {
        match trouble {
            Trouble::Memory => Fault::Memory,
            Trouble::TooLong { stamp } => Fault::TooLong { stamp },
        }
    }

    /// The fault that one of a run in threads is (`fault_ran`).
    pub(crate) fn ran(met: RanFault) -> Fault<W>
        ensures { result ≡ fault_ran met }
    {
        match met {
            RanFault::NoThread => Fault::NoThread,
            RanFault::Memory => Fault::Memory,
            RanFault::TooLong { stamp } => Fault::TooLong { stamp },
        }
    }

    /// The fault that one of the sink is (`fault_of`).
    pub(crate) fn of(met: SinkFault) -> Fault<W>
        ensures { result ≡ fault_of met }
    {
        match met {
            SinkFault::Failed => Fault::Write,
            SinkFault::Memory => Fault::Memory,
        }
    }
}

/// How a run of a command ended: why it did not write its whole output, if so, and what is kept of it. Something is
/// kept if some of the output was written, or if a write failed.
#[derive(Drop)]
pub struct Ended<W, O> {
    pub fault: Option<Fault<W>>,
    pub kept: Option<Kept<O>>,
}

impl<W, O> Ended<W, O> {
    /// The end of a run with this fault, if there is one, of which this is kept, if something is.
    pub fn new(fault: Option<Fault<W>>, kept: Option<Kept<O>>) -> Ended<W, O>
        ensures fault { result.fault ≡ fault }
        ensures kept { result.kept ≡ kept }
    {
        Ended { fault, kept }
    }
}
