//! A tour to begin with.

ghost use Rattle.std.specs.Prelude.{◌≡◌, ◌≤◌, ◌<◌, ◌⊎◌, ◌&&◌, ◌||◌, length, nat_lt, IfOk, OnOk};
ghost use Rattle.std.specs.List.{range_with_len};
ghost use Rattle.tour_law.specs.Tours.{IsLeast, IsTour, cost};
ghost use Rattle.tour_search.specs.Cities.{IsKnown, costs};

use crate::cities::Cities;
use crate::searching::{cost_along, search_from};
use crate::tours::Tour;
use adlb_unit::{NoMemory, or_no_memory};
use std::alloc::Global;

/// The fewest cities whose tours are shared.
const SHARED: u8 = 4;

/// A tour of these cities. Of fewer than four it is a least tour. Of more it always goes to the cheapest city not yet
/// visited, the lowest number on a tie. Its only error is `NoMemory`.
pub fn first_tour(alloc: Global, cities: &Cities) -> Result<Tour, NoMemory>
    ensures known { IfOk result (IsKnown cities.now) }
    ensures least { IfOk result (λ t. cities.now.count < 4 → IsLeast cities.now.count (costs cities.now) t.cities.items) }
{
    let mut order = in_order(alloc, cities)?;
    if cities.count() < SHARED {
        return least_of_few(alloc, cities, order);
    }
    go_nearest(cities, &mut order);
    Ok(with_cost(cities, order))
}

// A least tour of few cities. Its only error is `NoMemory`.
fn least_of_few(alloc: Global, cities: &Cities, order: Vec<u8>) -> Result<Tour, NoMemory>
    requires { IsTour cities.now.count order.items }
    ensures known { IfOk result (IsKnown cities.now) }
    ensures least { IfOk result (λ t. IsLeast cities.now.count (costs cities.now) t.cities.items) }
{
    let mut best = with_cost(cities, order);
    for city in 1..cities.count() {
        search_from(alloc, cities, [0, city].as_slice(), &mut best)?;
    }
    Ok(best)
}

// The cities in their order. Its only error is `NoMemory`.
fn in_order(alloc: Global, cities: &Cities) -> Result<Vec<u8>, NoMemory>
    ensures { IfOk result (λ order. IsTour cities.now.count order.items) }
{
    let mut order = Vec::new(alloc);
    for city in 0..cities.count() {
        or_no_memory(order.push(city))?;
    }
    Ok(order)
}

// A tour with its cost.
fn with_cost(cities: &Cities, order: Vec<u8>) -> Tour
    requires { IsTour cities.now.count order.items }
    ensures known { IsKnown cities.now result }
    ensures same { result.cities ≡ order }
{
    let cost = cost_of(cities, &order);
    Tour {
        cost,
        cities: order,
    }
}

/// What a tour costs.
pub fn cost_of(cities: &Cities, tour: &[u8]) -> u64
    requires { IsTour cities.now.count tour.now }
    ensures { result ≡ cost (costs cities.now) tour.now }
{
    let count = cities.count() as usize;
    if count == 1 {
        return 0;
    }
    cost_along(cities, tour) + cities.cost(tour[count - 1], tour[0])
}

// Brings to each place the cheapest to go to of the cities that stand there and after, the lowest number on a tie.
fn go_nearest(cities: &Cities, tour: &mut [u8])
    requires { IsTour cities.now.count tour.old }
    ensures { IsTour cities.now.count tour.new }
{
    for place in 1..tour.len() {
        let nearest = nearest_to(cities, tour, place);
        tour.swap(place, nearest);
    }
}

// The place from this one on whose city is the cheapest to go to from the city before, the lowest number on a tie.
fn nearest_to(cities: &Cities, tour: &[u8], place: usize) -> usize
    requires some { 1 ≤ place }
    requires within { place < length tour.now }
    requires tour { IsTour cities.now.count tour.now }
    ensures behind { place ≤ result }
    ensures within { result < length tour.now }
{
    let from = tour[place - 1];
    let mut nearest = place;
    for other in place + 1..tour.len() {
        if is_nearer(cities, from, tour[other], tour[nearest]) {
            nearest = other;
        }
    }
    nearest
}

// It is cheaper to go to one city than to another, or as cheap and its number is lower.
fn is_nearer(cities: &Cities, from: u8, city: u8, other: u8) -> bool
    requires from { from < cities.now.count }
    requires city { city < cities.now.count }
    requires other { other < cities.now.count }
{
    let cost = cities.cost(from, city);
    let known = cities.cost(from, other);
    cost < known || (cost == known && city < other)
}
