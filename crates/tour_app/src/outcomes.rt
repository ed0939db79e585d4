//! Outcomes.

use adlb_unit::Payload;

/// The tours that a rank found or fetched, with their costs. A tour has a byte for each city.
#[derive(Drop)]
pub struct TourOutcome {
    pub found: Vec<(u64, Payload)>,
}
