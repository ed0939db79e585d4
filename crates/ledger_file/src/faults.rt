//! Why a ledger is not read.

use thiserror::Error;

/// Why a line, or a word of it, is not read: it is not what is due at its place, or memory ran out. Contracts never
/// say when memory runs out; otherwise `Bad` comes exactly when they say.
#[derive(Clone, Copy)]
pub enum LineFault {
    Bad,
    Memory,
}

/// Why no configuration and ledger were read: a line, counted from 1, is not what is due at its place, or memory ran
/// out.
#[derive(Clone, Copy, Debug, Error)]
pub enum LedgerFault {
    /// The line of this number is not what is due at its place.
    #[error("line {line} is not what is due")]
    Refused { line: u64 },
    #[error("out of memory")]
    Memory,
}
