//! Cities, and what it costs to go from one to another.

ghost use Rattle.std.specs.Prelude.{◌≡◌, ◌≤◌, ◌<◌, ◌*◌, length, All, IfOk};
ghost use Rattle.tour_search.specs.Cities.{costs};

use adlb_unit::{NoMemory, or_no_memory};
use std::alloc::Global;
use std::marker::Model;

/// From 1 to 12 cities, and the cost from each to each, at most 1,000,000. Seen as their number and the costs by rows.
#[derive(Drop)]
pub struct Cities {
    count: u8,
    costs: Vec<u32>,
}

impl Model for Cities {
    ghost use Rattle.tour_search.specs.Cities.{AreCities, CitiesModel};

    ghost Value = { CitiesModel };

    ghost view = { λ cities. record { count = cities.count; rows = cities.costs.items } };

    ghost invariant = { λ cities. AreCities (record { count = cities.count; rows = cities.costs.items }) };
}

impl Cities {
    ghost use Rattle.tour_search.specs.Cities.{AreCities};

    /// The cities, 1 to 12 of them, with these costs by rows, each at most 1,000,000.
    pub fn new(count: u8, costs: Vec<u32>) -> Cities
        requires { AreCities (record { count = count; rows = costs.items }) }
        ensures { result ≡ record { count = count; rows = costs.items } }
    {
        Cities { count, costs }
    }

    /// Equal cities. Its only error is `NoMemory`.
    pub fn twin(&self, alloc: Global) -> Result<Cities, NoMemory>
        ensures same { IfOk result (λ cities. cities ≡ self.now) }
        ensures are { IfOk result AreCities }
    {
        let costs = or_no_memory(Vec::from_slice(alloc, &self.costs))?;
        Ok(Cities {
            count: self.count,
            costs,
        })
    }

    /// How many cities there are.
    pub fn count(&self) -> u8
        ensures is { result ≡ self.now.count }
        ensures some { 1 ≤ result }
        ensures few { result ≤ 12 }
    {
        self.count
    }

    /// What it costs to go from one city to another.
    pub fn cost(&self, from: u8, to: u8) -> u64
        requires from { from < self.now.count }
        requires to { to < self.now.count }
        ensures is { result ≡ costs self.now from to }
        ensures low { result ≤ 1000000 }
    {
        let place = self.count as usize * from as usize + to as usize;
        self.costs[place] as u64
    }

    /// The costs by rows.
    pub fn rows(&self) -> &[u32]
        ensures rows { result.now ≡ self.now.rows }
        ensures are { AreCities self.now }
    {
        &self.costs
    }
}
