//! Why an input has no cities.

use adlb_unit::NoMemory;
use thiserror::Error;

/// Why a line is refused.
#[derive(Clone, Copy, Debug, Error)]
pub enum CitiesWhy {
    /// It has more than 2^20 bytes.
    #[error("long")]
    Long,
    /// It is the first line, and does not say how many cities there are; or there is no first line.
    #[error("cities")]
    Cities,
    /// It is not a row of costs, or that row is missing.
    #[error("cost")]
    Cost,
    /// It follows the rows.
    #[error("extra")]
    Extra,
}

/// Why no cities were read.
#[derive(Clone, Copy, Debug, Error)]
pub enum CitiesFault {
    /// The first line that is refused, counted from 1, and why. A line that is missing has the number after the last line.
    #[error("line {line}: {why}")]
    Refused { line: u64, why: CitiesWhy },
    /// Allocation failed. Contracts never say when: any call that allocates may answer it.
    #[error("out of memory")]
    Memory,
}

impl From<NoMemory> for CitiesFault {
    ghost use Rattle.std.specs.Prelude.{◌≡◌};
    ghost use Rattle.tour_search.specs.declared.faults.CitiesFault.TheVariants.{Memory};

    ghost from_gives = { λ _ fault. fault ≡ Memory };

    fn from(_fault: NoMemory) -> CitiesFault {
        CitiesFault::Memory
    }
}
