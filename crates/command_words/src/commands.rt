//! What a command line says, and why it is refused.

ghost use Rattle.std.specs.Prelude.{◌≡◌};

use std::alloc::AllocError;
use thiserror::Error;

/// The sizes of a run, whatever it works.
#[derive(Clone, Copy)]
pub struct Sizes {
    /// How many ranks there are: 1 to 32.
    pub ranks: u32,
    /// How many servers there are: 1 to 8.
    pub servers: u32,
    /// The bytes that a server takes at most: 64 to 2^30.
    pub limit: u64,
}

/// How a run over puzzles is done.
#[derive(Clone, Copy)]
pub struct RunOptions {
    pub sizes: Sizes,
    /// The budget of a puzzle: 1 to 2^32.
    pub budget: u64,
    /// The grain of a puzzle: 1 to 2^32.
    pub grain: u64,
    /// The run has one rank and one server, whatever its sizes say, and no thread.
    pub inline: bool,
    /// A run in threads tells each second how far it is.
    pub progress: bool,
}

/// What `solve` is told.
#[derive(Clone, Copy)]
pub struct SolveWords {
    pub options: RunOptions,
    /// Counts of the kept ledger follow the report.
    pub stats: bool,
    /// The kept ledger follows the report.
    pub ledger: bool,
}

/// What `tour` and `flow` are told.
#[derive(Clone, Copy)]
pub struct RunWords {
    pub sizes: Sizes,
    /// The run tells each second how far it is.
    pub progress: bool,
}

/// A command with its words.
#[derive(Clone, Copy)]
pub enum Command {
    /// Solve the input.
    Solve(SolveWords),
    /// Check a ledger's text.
    Check,
    /// Make `count` puzzles, at most 100,000, from `seed`.
    Make {
        count: u32,
        seed: u64,
    },
    /// Make the puzzles and solve them.
    Drill {
        count: u32,
        seed: u64,
        options: RunOptions,
    },
    /// Find a least tour through the input's cities.
    Tour(RunWords),
    /// Compute the rules of the input's flow.
    Flow(RunWords),
    /// Draw a ledger's text.
    Draw,
}

impl Command {
    ghost use Rattle.command_words.specs.Said.{tells_progress};

    /// Whether its run tells each second how far it is (`tells_progress`): its words ask for that, and it has threads.
    pub fn tells_progress(&self) -> bool
        ensures { result ≡ tells_progress self.now }
    {
        match self {
            Command::Solve(words) => words.options.progress && !words.options.inline,
            Command::Drill { options, .. } => options.progress && !options.inline,
            Command::Tour(words) | Command::Flow(words) => words.progress,
            Command::Check | Command::Make { .. } | Command::Draw => false,
        }
    }
}

/// Why the words give no command.
#[derive(Clone, Copy, Debug, Error)]
pub enum WordsFault {
    /// The words are refused.
    #[error("words refused")]
    Usage,
    /// Allocation failed. Contracts never say when: any call that allocates may answer it.
    #[error("out of memory")]
    Memory,
}

impl From<AllocError> for WordsFault {
    ghost use Rattle.command_words.specs.declared.commands.WordsFault.TheVariants.{Memory};

    ghost from_gives = { λ _ fault. fault ≡ Memory };

    fn from(_: AllocError) -> WordsFault {
        WordsFault::Memory
    }
}
