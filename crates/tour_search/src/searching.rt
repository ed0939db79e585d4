//! The best of the tours that begin in a given way.

ghost use Rattle.std.specs.Prelude.{◌≡◌, ◌⊎◌, ◌≤◌, ◌*◌, ◌+◌, ◌<◌, ℕ, List, length, All, OnOk, sum_by};
ghost use Rattle.tour_law.specs.Tours.{IsTour};
ghost use Rattle.tour_law.specs.Search.{IsAsGood, sum_below};
ghost use Rattle.tour_law.specs.Beginnings.{Continues, IsBeginning, path_cost};
ghost use Rattle.tour_search.specs.Cities.{IsKnown, costs, out_of};

use crate::branching::branch;
use crate::cities::Cities;
use crate::tours::Tour;
use crate::ways::ways_out;
use adlb_unit::{NoMemory, or_no_memory};
use std::alloc::Global;

/// Makes a tour the best of those that begin so and of what it was: cheapest, and first in order of those. Its only error is `NoMemory`,
/// and then the tour is one still.
pub fn search_from(
    alloc: Global,
    cities: &Cities,
    beginning: &[u8],
    best: &mut Tour,
) -> Result<(), NoMemory>
    requires begins { IsBeginning cities.now.count beginning.now }
    requires known { IsKnown cities.now best.old }
    ensures known { IsKnown cities.now best.new }
    ensures good { IsAsGood (costs cities.now) best.new.cities.items best.old.cities.items }
    ensures from { (best.new.cities.items ≡ best.old.cities.items) ⊎ Continues beginning.now best.new.cities.items }
    ensures searched { OnOk result ((tour : List ℕ) → IsTour cities.now.count tour → Continues beginning.now tour →
        IsAsGood (costs cities.now) best.new.cities.items tour) }
{
    let ways = ways_out(alloc, cities)?;
    let ways = ways.as_slice();
    let mut path = or_no_memory(Vec::with_capacity(alloc, cities.count() as usize))?;
    or_no_memory(path.extend_from_slice(beginning))?;
    let spent = cost_along(cities, beginning);
    let left = all_ways(cities, ways) - ways_from(ways, beginning);
    branch(cities, ways, &mut path, spent, left, best);
    Ok(())
}

// What it costs to go from the first of these cities to the others in turn.
pub(crate) fn cost_along(cities: &Cities, path: &[u8]) -> u64
    requires some { 1 ≤ length path.now }
    requires few { length path.now ≤ 12 }
    requires cities { All (λ x. x < cities.now.count) path.now }
    ensures cost { result ≡ path_cost (costs cities.now) path.now }
    ensures low { result ≤ 1000000 * length path.now }
{
    let mut cost = 0;
    for place in 1..path.len() {
        cost += cities.cost(path[place - 1], path[place]);
    }
    cost
}

// The cheapest ways out of all cities together.
fn all_ways(cities: &Cities, ways: &[u64]) -> u64
    requires count { length ways.now ≡ cities.now.count }
    requires low { All (λ x. x ≤ 1000000) ways.now }
    ensures sum { result ≡ sum_below cities.now.count (out_of ways.now) }
    ensures low { result ≤ 12000000 }
{
    let mut sum = 0;
    for city in 0..cities.count() {
        sum += ways[city as usize];
    }
    sum
}

// The cheapest ways out of these cities together.
fn ways_from(ways: &[u64], beginning: &[u8]) -> u64
    requires few { length beginning.now ≤ 12 }
    requires cities { All (λ x. x < length ways.now) beginning.now }
    requires low { All (λ x. x ≤ 1000000) ways.now }
    ensures { result ≡ sum_by (out_of ways.now) beginning.now }
{
    let mut sum = 0;
    for city in beginning {
        sum += ways[*city as usize];
    }
    sum
}
