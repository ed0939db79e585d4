//! Why an input has no jobs.

use adlb_unit::NoMemory;
use thiserror::Error;

/// Why a line is refused.
#[derive(Clone, Copy, Debug, Error)]
pub enum LineWhy {
    /// It has more than 2^20 bytes.
    #[error("long")]
    Long,
    /// It is a puzzle whose text has not 16, 81 or 256 bytes but `got`.
    #[error("length")]
    Length { got: u64 },
    /// It is a puzzle with a byte that is no sign of a cell.
    #[error("character")]
    Character,
    /// It is an item, and no batch is going on.
    #[error("item")]
    Item,
    /// It is an item that is not of its form.
    #[error("number")]
    Number,
    /// It begins with no word of these.
    #[error("word")]
    Word,
}

/// Why no jobs were read.
#[derive(Clone, Copy, Debug, Error)]
pub enum JobsFault {
    /// The first line that is refused, counted from 1, and why.
    #[error("line {line}: {why}")]
    Refused { line: u64, why: LineWhy },
    /// Allocation failed. Contracts never say when: any call that allocates may answer it.
    #[error("out of memory")]
    Memory,
}

impl From<NoMemory> for JobsFault {
    ghost use Rattle.std.specs.Prelude.{◌≡◌};
    ghost use Rattle.job_text.specs.declared.faults.JobsFault.TheVariants.{Memory};

    ghost from_gives = { λ _ fault. fault ≡ Memory };

    fn from(_fault: NoMemory) -> JobsFault {
        JobsFault::Memory
    }
}
