//! What a program of work may end with.

ghost use Rattle.std.specs.Prelude.{◌≡◌};

use crate::faults::Fault;
use adlb_unit::NoMemory;
use std::alloc::AllocError;
use std::{fmt, io};
use thiserror::Error;

/// Why a program of work ends without success. A `main` that may return it passes on by `?` the fault of a run, a failed allocation, and an
/// error of input or output. Standard error is then told its text, and the status is 1.
#[derive(Clone, Copy, PartialEq, Eq, Error)]
pub enum Failure {
    /// A run failed, or, as `Fault::Memory`, an allocation of the program itself.
    #[error("{0}")]
    Run(Fault),
    /// The system failed to read or to write.
    #[error("input or output failed")]
    Io,
    /// The program itself gives this reason, such as how it is to be called.
    #[error("{0}")]
    Reason(&'static str),
}

// As it is displayed: standard error is told this of what `main` returns.
impl fmt::Debug for Failure {
    fn fmt<W: fmt::Write>(&self, f: &mut fmt::Formatter<W>) -> fmt::Result {
        fmt::Display::fmt(self, f)
    }
}

impl From<Fault> for Failure {
    ghost use Rattle.adlb.specs.declared.failures.Failure.TheVariants.{Run};

    ghost from_gives = { λ fault failure. failure ≡ Run fault };

    fn from(fault: Fault) -> Failure {
        Failure::Run(fault)
    }
}

impl From<NoMemory> for Failure {
    ghost use Rattle.adlb.specs.declared.failures.Failure.TheVariants.{Run};
    ghost use Rattle.adlb.specs.declared.faults.Fault.TheVariants.{Memory};

    ghost from_gives = { λ _ failure. failure ≡ Run Memory };

    fn from(_: NoMemory) -> Failure {
        Failure::Run(Fault::Memory)
    }
}

impl From<AllocError> for Failure {
    ghost use Rattle.adlb.specs.declared.failures.Failure.TheVariants.{Run};
    ghost use Rattle.adlb.specs.declared.faults.Fault.TheVariants.{Memory};

    ghost from_gives = { λ _ failure. failure ≡ Run Memory };

    fn from(_: AllocError) -> Failure {
        Failure::Run(Fault::Memory)
    }
}

impl From<io::Error> for Failure {
    ghost use Rattle.adlb.specs.declared.failures.Failure.TheVariants.{Io};

    ghost from_gives = { λ _ failure. failure ≡ Io };

    fn from(_: io::Error) -> Failure {
        Failure::Io
    }
}
