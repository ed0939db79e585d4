//! Branch and bound over the tours that begin in a given way.

ghost use Rattle.std.specs.Prelude.{◌≡◌, ◌⊎◌, ◌≤◌, ◌<◌, ◌+◌, ◌*◌, ◌∷◌, [], ℕ, List, length, All, sum_by, vec_capacity, true, false, count_by, ◌==◌};
ghost use Rattle.tour_law.specs.Tours.{Costs, IsTour};
ghost use Rattle.tour_law.specs.Search.{IsAsGood, IsWayOut, bound, sum_below};
ghost use Rattle.tour_law.specs.Beginnings.{Continues, IsBeginning, path_cost};
ghost use Rattle.tour_search.specs.Cities.{IsKnown, beats, costs, cuts, out_of};

use crate::cities::Cities;
use crate::tours::Tour;
use std::cmp::Ordering;

/// Searches the tours that begin so, and makes `best` the best of these and of what it was. `ways_out` has for each city a cost that no
/// way out of it to another city is below; `spent` is what the beginning costs, and `left` what the ways out of the other cities cost.
pub(crate) fn branch(
    cities: &Cities,
    ways_out: &[u64],
    beginning: &mut Vec<u8>,
    spent: u64,
    left: u64,
    best: &mut Tour,
)
    requires count { length ways_out.now ≡ cities.now.count }
    requires ways { IsWayOut cities.now.count (costs cities.now) (out_of ways_out.now) }
    requires low { All (λ x. x ≤ 1000000) ways_out.now }
    requires begins { IsBeginning cities.now.count beginning.old.items }
    requires room { cities.now.count ≤ vec_capacity beginning.old }
    requires spent { spent ≡ path_cost (costs cities.now) beginning.old.items }
    requires few { spent ≤ 1000000 * length beginning.old.items }
    requires left { left + sum_by (out_of ways_out.now) beginning.old.items ≡ sum_below cities.now.count (out_of ways_out.now) }
    requires little { left ≤ 12000000 }
    requires known { IsKnown cities.now best.old }
    ensures kept { beginning.new.items ≡ beginning.old.items }
    ensures room { vec_capacity beginning.new ≡ vec_capacity beginning.old }
    ensures known { IsKnown cities.now best.new }
    ensures good { IsAsGood (costs cities.now) best.new.cities.items best.old.cities.items }
    ensures from { (best.new.cities.items ≡ best.old.cities.items) ⊎ Continues beginning.old.items best.new.cities.items }
    ensures searched { (tour : List ℕ) → IsTour cities.now.count tour → Continues beginning.old.items tour →
        IsAsGood (costs cities.now) best.new.cities.items tour }
{
    let count = cities.count();
    let depth = beginning.len();
    let last = beginning[depth - 1];
    let bound = bound_of(ways_out, beginning, spent, left);
    if is_cut(bound, beginning, best) {
        return;
    }
    if depth == count as usize {
        keep_better(spent + cities.cost(last, 0), beginning, best);
        return;
    }
    for city in 0..count {
        if !is_visited(beginning, city) {
            let there = spent + cities.cost(last, city);
            let rest = left - ways_out[city as usize];
            beginning.push_reserved(city);
            branch(cities, ways_out, beginning, there, rest, best);
            beginning.truncate(depth);
        }
    }
}

// The bound of a beginning (`bound`): what it costs, and the ways out of its last city and of the cities that are not yet visited.
fn bound_of(ways_out: &[u64], beginning: &[u8], spent: u64, left: u64) -> u64
    requires begins { IsBeginning (length ways_out.now) beginning.now }
    requires count { length ways_out.now ≤ 12 }
    requires low { All (λ x. x ≤ 1000000) ways_out.now }
    requires few { spent ≤ 1000000 * length beginning.now }
    requires little { left ≤ 12000000 }
    ensures { (c : Costs) (a : ℕ) (q : List ℕ) → beginning.now ≡ 0 ∷ a ∷ q → spent ≡ path_cost c beginning.now →
        left + sum_by (out_of ways_out.now) beginning.now ≡ sum_below (length ways_out.now) (out_of ways_out.now) →
        result ≡ bound (length ways_out.now) c (out_of ways_out.now) a q }
{
    let last = beginning[beginning.len() - 1];
    spent + ways_out[last as usize] + left
}

// The city is in the beginning.
fn is_visited(beginning: &[u8], city: u8) -> bool
    ensures yes { result ≡ true → 1 ≤ count_by (λ x. x == city) beginning.now }
    ensures no { result ≡ false → count_by (λ x. x == city) beginning.now ≡ 0 }
{
    beginning.contains(&city)
}

// A beginning with this bound is cut.
fn is_cut(bound: u64, beginning: &[u8], best: &Tour) -> bool
    requires { length beginning.now ≤ length best.now.cities.items }
    ensures { result ≡ cuts bound beginning.now best.now.cost best.now.cities.items }
{
    if bound != best.cost {
        return bound > best.cost;
    }
    let front = &best.cities[..beginning.len()];
    match beginning.cmp(front) {
        Ordering::Greater => true,
        _ => false,
    }
}

// Makes a tour the best if it is better.
fn keep_better(cost: u64, tour: &[u8], best: &mut Tour)
    requires { length tour.now ≡ length best.old.cities.items }
    ensures taken { beats cost tour.now best.old.cost best.old.cities.items ≡ true →
        (best.new.cost ≡ cost) × (best.new.cities.items ≡ tour.now) }
    ensures stays { beats cost tour.now best.old.cost best.old.cities.items ≡ false → best.new ≡ best.old }
{
    if best.is_beaten_by(cost, tour) {
        best.cost = cost;
        best.cities.copy_from_slice(tour);
    }
}
