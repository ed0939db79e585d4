//! What a search starts from.

ghost use Rattle.std.specs.Prelude.{◌≡◌, ◌==◌, ◌≤◌, ◌<◌, nat_lt, true, false, count_by, IfOk};
ghost use Rattle.std.specs.List.{list_all};
ghost use Rattle.tour_law.specs.Tours.{IsTour, cost};
ghost use Rattle.tour_law.specs.Search.{is_better};
ghost use Rattle.tour_search.specs.Cities.{IsKnown};
ghost use Rattle.tour_app.specs.Starts.{begins_at_home, costs, has_each as has_each_city, is_tour as is_whole_tour};

use adlb_unit::{NoMemory, or_no_memory};
use std::alloc::Global;
use std::marker::Model;
use tour_search::{Cities, Tour};

/// The fewest cities whose tours are shared.
const SHARED: u8 = 4;

/// Cities, and a tour through them. Seen as the cities and the cities of the tour.
#[derive(Drop)]
pub struct Start {
    cities: Cities,
    first: Tour,
}

impl Model for Start {
    ghost use Rattle.tour_search.specs.Cities.{IsKnown};
    ghost use Rattle.tour_app.specs.Starts.{StartModel};

    ghost Value = { StartModel };

    ghost view = { λ s. record { cities = s.cities; first = s.first.cities.items } };

    ghost invariant = { λ s. IsKnown s.cities s.first };
}

impl Start {
    /// These cities, and this tour through them.
    pub fn new(cities: Cities, first: Tour) -> Start
        requires { IsKnown cities first }
        ensures { result ≡ record { cities = cities; first = first.cities.items } }
    {
        Start { cities, first }
    }

    /// The cities.
    pub fn cities(&self) -> &Cities
        ensures { result.now ≡ self.now.cities }
    {
        &self.cities
    }

    /// There are four cities at least.
    pub(crate) fn has_many(&self) -> bool
        ensures many { result ≡ true → 4 ≤ self.now.cities.count }
        ensures few { result ≡ false → self.now.cities.count < 4 }
    {
        self.cities.count() >= SHARED
    }

    /// The cities of the tour.
    pub fn order(&self) -> &[u8]
        ensures order { result.now ≡ self.now.first }
        ensures tour { IsTour self.now.cities.count self.now.first }
    {
        &self.first.cities
    }

    /// What the tour costs.
    pub fn cost(&self) -> u64
        ensures { result ≡ cost (costs self.now) self.now.first }
    {
        self.first.cost
    }

    /// The tour is worse than one of this cost and these cities.
    pub fn is_beaten_by(&self, tour: &Tour) -> bool
        requires { IsKnown self.now.cities tour.now }
        ensures { result ≡ is_better (costs self.now) tour.now.cities.items self.now.first }
    {
        self.first.is_beaten_by(tour.cost, &tour.cities)
    }

    /// The tour, to be improved. Its only error is `NoMemory`.
    pub fn tour(&self, alloc: Global) -> Result<Tour, NoMemory>
        ensures known { IfOk result (IsKnown self.now.cities) }
        ensures same { IfOk result (λ t. t.cities.items ≡ self.now.first) }
    {
        let cities = or_no_memory(Vec::from_slice(alloc, &self.first.cities))?;
        Ok(Tour {
            cost: self.first.cost,
            cities,
        })
    }
}

/// The list is a tour of `count` cities.
pub(crate) fn is_tour(count: u8, tour: &[u8]) -> bool
    ensures { result ≡ is_whole_tour count tour.now }
{
    begins_with_home(tour) && are_cities(count, tour) && has_each(count, tour)
}

// It begins with city 0.
fn begins_with_home(tour: &[u8]) -> bool
    ensures { result ≡ begins_at_home tour.now }
{
    match tour {
        [] => false,
        [city, ..] => *city == 0,
    }
}

// All of these are cities.
fn are_cities(count: u8, tour: &[u8]) -> bool
    ensures { result ≡ list_all (λ city. nat_lt city count) tour.now }
{
    tour.iter().all(|city| *city < count)
}

// Each city is there once.
fn has_each(count: u8, tour: &[u8]) -> bool
    ensures { result ≡ has_each_city count tour.now }
{
    for city in 0..count {
        if times(tour, city) != 1 {
            return false;
        }
    }
    true
}

// How often a city is there.
fn times(tour: &[u8], city: u8) -> usize
    ensures { result ≡ count_by (λ x. x == city) tour.now }
{
    tour.iter().filter(|x| **x == city).count()
}
