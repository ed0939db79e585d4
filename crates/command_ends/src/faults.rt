//! Why a command did not write its whole output, and its exit status.

ghost use Rattle.std.specs.Prelude.{◌≡◌, Some};

use crate::reasons::{LineWhy, Reason};
use command_words::WordsFault;
use ledger_command::CheckFault;
use made_jobs::MadeFault;
use run_command::Fault;
use std::error::Error;
use std::fmt;

/// Why a command did not write its whole output. Its text is what the user is told.
#[derive(Clone, Copy, Debug)]
pub enum RunFault {
    /// A line of the input is refused: the first such line, from 1, and why.
    Input { line: u64, why: LineWhy },
    /// The words are refused.
    Usage,
    /// The source failed.
    Read,
    /// The sink failed.
    Write,
    /// Allocation failed.
    Memory,
    /// An event of the run would have this stamp, which is past the last one that is given.
    TooLong { stamp: u64 },
    /// The input has more than 2^24 bytes, or 2^26 for `check` and `draw`, of which this many were taken.
    TooLarge { taken: u64 },
    /// A start of a thread was refused.
    NoThread,
}

impl RunFault {
    ghost use Rattle.command_ends.specs.Ends.{status_of};

    /// The exit status that belongs to this fault (`status_of`).
    pub fn status(&self) -> u8
        ensures { result ≡ status_of (Some self.now) }
    {
        match self {
            RunFault::Input { .. } => 1,
            RunFault::Usage => 2,
            RunFault::Read => 3,
            RunFault::Write => 4,
            RunFault::NoThread => 5,
            RunFault::Memory => 6,
            RunFault::TooLong { .. } => 7,
            RunFault::TooLarge { .. } => 8,
        }
    }
}

impl RunFault {
    // What the user is told, of a refused line before its number.
    fn text(&self) -> &'static str {
        match self {
            RunFault::Input { .. } => "line",
            RunFault::Usage =>
                "usage: adlbrun solve, make, drill, check, tour, flow or draw with their options",
            RunFault::Read => "read failed",
            RunFault::Write => "write failed",
            RunFault::Memory => "out of memory",
            RunFault::TooLong { .. } => "stamp limit reached",
            RunFault::TooLarge { .. } => "input too large",
            RunFault::NoThread => "a thread could not be started",
        }
    }
}

impl fmt::Display for RunFault {
    fn fmt<W: fmt::Write>(&self, f: &mut fmt::Formatter<W>) -> fmt::Result {
        let text = self.text();
        match self {
            RunFault::Input { line, why } => write!(f, "{text} {line}: {why}"),
            _ => write!(f, "{text}"),
        }
    }
}

impl Error for RunFault {}

impl From<WordsFault> for RunFault {
    ghost use Rattle.command_ends.specs.Ends.{fault_said};

    ghost from_gives = { λ met fault. fault ≡ fault_said met };

    fn from(met: WordsFault) -> RunFault {
        match met {
            WordsFault::Usage => RunFault::Usage,
            WordsFault::Memory => RunFault::Memory,
        }
    }
}

impl<W: Reason> From<Fault<W>> for RunFault {
    ghost use Rattle.command_ends.specs.Ends.{fault_run};

    ghost from_gives = { λ met fault. fault ≡ fault_run W.means met };

    fn from(met: Fault<W>) -> RunFault {
        match met {
            Fault::Input { line, why } => RunFault::Input {
                line,
                why: why.why(),
            },
            Fault::Read => RunFault::Read,
            Fault::Write => RunFault::Write,
            Fault::NoThread => RunFault::NoThread,
            Fault::Memory => RunFault::Memory,
            Fault::TooLong { stamp } => RunFault::TooLong { stamp },
            Fault::TooLarge { taken } => RunFault::TooLarge { taken },
        }
    }
}

impl From<CheckFault> for RunFault {
    ghost use Rattle.command_ends.specs.Ends.{fault_at_check};

    ghost from_gives = { λ met fault. fault ≡ fault_at_check met };

    fn from(met: CheckFault) -> RunFault {
        match met {
            CheckFault::Read => RunFault::Read,
            CheckFault::Write => RunFault::Write,
            CheckFault::Memory => RunFault::Memory,
            CheckFault::TooLarge { taken } => RunFault::TooLarge { taken },
            CheckFault::Entry { line } => RunFault::Input {
                line,
                why: LineWhy::Entry,
            },
        }
    }
}

impl From<MadeFault> for RunFault {
    ghost use Rattle.command_ends.specs.Ends.{fault_at_making};

    ghost from_gives = { λ met fault. fault ≡ fault_at_making met };

    fn from(met: MadeFault) -> RunFault {
        match met {
            MadeFault::Write => RunFault::Write,
            MadeFault::Memory => RunFault::Memory,
        }
    }
}
