//! Why a made text is not written.

ghost use Rattle.std.specs.Prelude.{◌≡◌};

use adlb_io::SinkFault;
use adlb_unit::NoMemory;
use thiserror::Error;

/// Why a text was not written whole. Its own text is what the user is told.
#[derive(Clone, Copy, Debug, PartialEq, Eq, Error)]
pub enum MadeFault {
    /// The sink failed.
    #[error("write failed")]
    Write,
    /// Allocation failed. Contracts never say when: any call that allocates may answer it.
    #[error("out of memory")]
    Memory,
}

impl From<NoMemory> for MadeFault {
    ghost use Rattle.made_jobs.specs.declared.faults.MadeFault.TheVariants.{Memory};

    ghost from_gives = { λ _ fault. fault ≡ Memory };

    fn from(_: NoMemory) -> MadeFault {
        MadeFault::Memory
    }
}

impl From<SinkFault> for MadeFault {
    ghost use Rattle.made_jobs.specs.Faults.{fault_of};

    ghost from_gives = { λ met fault. fault ≡ fault_of met };

    fn from(met: SinkFault) -> MadeFault {
        match met {
            SinkFault::Failed => MadeFault::Write,
            SinkFault::Memory => MadeFault::Memory,
        }
    }
}
