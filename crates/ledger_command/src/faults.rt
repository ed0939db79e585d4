//! Why a ledger is not checked.

ghost use Rattle.std.specs.Prelude.{◌≡◌};

use adlb_io::{SinkFault, SourceFault};
use adlb_unit::NoMemory;
use ledger_file::LedgerFault;
use thiserror::Error;

/// Why a check did not write its whole line. Its text is what the user is told.
#[derive(Clone, Copy, Debug, PartialEq, Eq, Error)]
pub enum CheckFault {
    /// The source failed.
    #[error("read failed")]
    Read,
    /// The sink failed.
    #[error("write failed")]
    Write,
    /// Allocation failed. Contracts never say when: any call that allocates may answer it.
    #[error("out of memory")]
    Memory,
    /// The input has more than 2^26 bytes, of which this many were taken.
    #[error("input too large")]
    TooLarge { taken: u64 },
    /// The line of this number, from 1, is the first that is not what is due at its place in the text of a ledger.
    #[error("line {line}: entry")]
    Entry { line: u64 },
}

impl From<NoMemory> for CheckFault {
    ghost use Rattle.ledger_command.specs.declared.faults.CheckFault.TheVariants.{Memory};

    ghost from_gives = { λ _ fault. fault ≡ Memory };

    fn from(_: NoMemory) -> CheckFault {
        CheckFault::Memory
    }
}

impl From<SourceFault> for CheckFault {
    ghost use Rattle.ledger_command.specs.Faults.{fault_at};

    ghost from_gives = { λ met fault. fault ≡ fault_at met };

    fn from(met: SourceFault) -> CheckFault {
        match met {
            SourceFault::Failed => CheckFault::Read,
            SourceFault::Memory => CheckFault::Memory,
        }
    }
}

impl From<LedgerFault> for CheckFault {
    ghost use Rattle.ledger_command.specs.Faults.{fault_in};

    ghost from_gives = { λ refusal fault. fault ≡ fault_in refusal };

    fn from(refusal: LedgerFault) -> CheckFault {
        match refusal {
            LedgerFault::Refused { line } => CheckFault::Entry { line },
            LedgerFault::Memory => CheckFault::Memory,
        }
    }
}

impl From<SinkFault> for CheckFault {
    ghost use Rattle.ledger_command.specs.Faults.{fault_of};

    ghost from_gives = { λ met fault. fault ≡ fault_of met };

    fn from(met: SinkFault) -> CheckFault {
        match met {
            SinkFault::Failed => CheckFault::Write,
            SinkFault::Memory => CheckFault::Memory,
        }
    }
}
