//! Why an input is no flow.

use adlb_unit::NoMemory;
use thiserror::Error;

/// Why a line is refused.
#[derive(Clone, Copy, Debug, Error)]
pub enum FlowWhy {
    /// It has more than 2^20 bytes.
    #[error("long")]
    Long,
    /// It is no definition.
    #[error("form")]
    Form,
    /// It defines a name that was defined before.
    #[error("twice")]
    Twice,
    /// It is definition 100,001.
    #[error("many")]
    Many,
}

/// Why no flow was read.
#[derive(Clone, Copy, Debug, Error)]
pub enum FlowFault {
    /// The first line that is refused, counted from 1, and why.
    #[error("line {line}: {why}")]
    Refused { line: u64, why: FlowWhy },
    /// Allocation failed. Contracts never say when: any call that allocates may answer it.
    #[error("out of memory")]
    Memory,
}

impl From<NoMemory> for FlowFault {
    ghost use Rattle.std.specs.Prelude.{◌≡◌};
    ghost use Rattle.flow_app.specs.declared.faults.FlowFault.TheVariants.{Memory};

    ghost from_gives = { λ _ fault. fault ≡ Memory };

    fn from(_fault: NoMemory) -> FlowFault {
        FlowFault::Memory
    }
}
