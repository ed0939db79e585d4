//! The cheapest ways out of cities.

ghost use Rattle.std.specs.Prelude.{◌≡◌, ◌≤◌, ◌<◌, ℕ, length, All, IfOk};
ghost use Rattle.tour_law.specs.Search.{IsWayOut};
ghost use Rattle.tour_search.specs.Cities.{costs, out_of};

use crate::cities::Cities;
use adlb_unit::{NoMemory, or_no_memory};
use std::alloc::Global;

/// For each city the cost of the cheapest way out of it to another city, at most 1,000,000. Its only error is `NoMemory`.
pub(crate) fn ways_out(alloc: Global, cities: &Cities) -> Result<Vec<u64>, NoMemory>
    ensures count { IfOk result (λ ways. length ways.items ≡ cities.now.count) }
    ensures ways { IfOk result (λ ways. IsWayOut cities.now.count (costs cities.now) (out_of ways.items)) }
    ensures low { IfOk result (λ ways. All (λ x. x ≤ 1000000) ways.items) }
{
    let mut ways = Vec::new(alloc);
    for city in 0..cities.count() {
        or_no_memory(ways.push(way_out(cities, city)))?;
    }
    Ok(ways)
}

// The cost of the cheapest way out of a city to another, at most 1,000,000.
fn way_out(cities: &Cities, from: u8) -> u64
    requires { from < cities.now.count }
    ensures cheap { (to : ℕ) → to < cities.now.count → (from ≡ to → ⊥) → result ≤ costs cities.now from to }
    ensures low { result ≤ 1000000 }
{
    let mut least: u64 = 1_000_000;
    for to in 0..cities.count() {
        least = cheaper(cities, from, to, least);
    }
    least
}

// The cost of the way from one city to another if that is less than this, or this if they are one city.
fn cheaper(cities: &Cities, from: u8, to: u8, least: u64) -> u64
    requires from { from < cities.now.count }
    requires to { to < cities.now.count }
    ensures low { result ≤ least }
    ensures cheap { (from ≡ to → ⊥) → result ≤ costs cities.now from to }
{
    if from == to {
        return least;
    }
    least.min(cities.cost(from, to))
}
