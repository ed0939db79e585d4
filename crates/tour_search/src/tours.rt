//! Tours with what they cost.

ghost use Rattle.std.specs.Prelude.{◌≡◌};
ghost use Rattle.tour_search.specs.Cities.{beats};

use std::cmp::Ordering;

/// A tour and its cost.
#[derive(Drop)]
pub struct Tour {
    pub cost: u64,
    pub cities: Vec<u8>,
}

impl Tour {
    /// A tour of this cost and these cities is better: cheaper, or as cheap and before it.
    pub fn is_beaten_by(&self, cost: u64, cities: &[u8]) -> bool
        ensures { result ≡ beats cost cities.now self.now.cost self.now.cities.items }
    {
        if cost != self.cost {
            return cost < self.cost;
        }
        match cities.cmp(self.cities.as_slice()) {
            Ordering::Less => true,
            _ => false,
        }
    }
}
