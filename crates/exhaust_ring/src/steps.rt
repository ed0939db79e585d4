//! What a server answers to a token.

use adlb_unit::{Token, Why};

/// What becomes of a check.
#[derive(Drop)]
pub enum RingStep {
    /// The token goes on to the next server.
    Pass(Token),
    /// A test failed here, for this reason, and the token goes to server 0, which ends the check.
    Fail(Token, Why),
    /// All work is found used up: some rank waits, and nothing is left that any can get.
    Exhausted,
    /// Each rank has finished.
    Shutdown,
    /// The check has ended at server 0 without a verdict.
    Ended,
}
