//! A common part as it is kept.

use adlb_unit::Payload;

/// The common part of a batch at the server that keeps it.
#[derive(Drop)]
pub struct Part {
    /// Its bytes.
    pub bytes: Payload,
    /// How often they were fetched.
    pub fetches: u64,
    /// How many units of the batch were accepted; none while the batch is open.
    pub accepted: Option<u64>,
}
