//! Why a run gives no total.

ghost use Rattle.std.specs.Prelude.{◌≡◌, ℕ};

use adlb_threads::RanFault;
use adlb_unit::ConfigFault;
use thiserror::Error;

/// Why a run gives no total.
#[derive(Clone, Copy, Debug, PartialEq, Eq, Error)]
pub enum Fault {
    /// A number of the settings is outside its limits. Nothing was started.
    #[error("{0}")]
    Settings(ConfigFault),
    /// A thread could not be started.
    #[error("a thread could not be started")]
    NoThread,
    /// Allocation failed, in the work or in the run.
    #[error("out of memory")]
    Memory,
    /// An event of the run would have this stamp, which is past the last one that is given.
    #[error("the run is too long: it needs the stamp {stamp}")]
    TooLong { stamp: u64 },
}

impl Fault {
    /// The fault of a run of work whose run of ranks has this fault.
    pub fn of(fault: RanFault) -> Fault
        ensures no_thread { result ≡ Fault.NoThread → fault ≡ RanFault.NoThread }
        ensures too_long { (stamp : ℕ) → result ≡ Fault.TooLong stamp → fault ≡ RanFault.TooLong stamp }
        ensures settings { (given : ConfigFault) → result ≡ Fault.Settings given → ⊥ }
    {
        match fault {
            RanFault::NoThread => Fault::NoThread,
            RanFault::Memory => Fault::Memory,
            RanFault::TooLong { stamp } => Fault::TooLong { stamp },
        }
    }
}
