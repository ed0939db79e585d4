//! Where things are in a list, by their ids.

ghost use Rattle.std.specs.Prelude.{◌≡◌, ◌==◌, ◌&&◌, ℕ, OnOk, OnErr, Some, None, if◌then◌else◌};
ghost use Rattle.std.specs.Option.{option_or};
ghost use Rattle.bag_tables.specs.Places.{place_at};

use adlb_unit::NoMemory;
use std::alloc::Global;
use std::collections::BTreeMap;

/// The place of each id that was noted, an id being a rank with the number of one of its calls.
#[derive(Drop)]
pub struct Places {
    held: BTreeMap<(u32, u64), usize>,
}

impl Places {
    /// No place.
    pub fn new(alloc: Global) -> Places
        ensures { (rank number : ℕ) → place_at result rank number ≡ None }
    {
        Places {
            held: BTreeMap::new(alloc),
        }
    }

    /// The place of this id.
    pub fn get(&self, rank: u32, number: u64) -> Option<usize>
        ensures { result ≡ place_at self.now rank number }
    {
        self.held.get(&(rank, number)).copied()
    }

    /// Notes the place of an id, unless the id has one. Its only error is `NoMemory`.
    pub fn note(&mut self, rank: u32, number: u64, place: usize) -> Result<(), NoMemory>
        ensures noted { OnOk result ((r n : ℕ) → place_at self.new r n ≡ option_or (place_at self.old r n) (if (rank == r) && (number == n) then Some place else None)) }
        ensures kept { OnErr result ((r n : ℕ) → place_at self.new r n ≡ place_at self.old r n) }
    {
        if self.held.contains_key(&(rank, number)) {
            return Ok(());
        }
        match self.held.insert((rank, number), place) {
            Ok(_) => Ok(()),
            Err(_) => Err(NoMemory),
        }
    }

    /// Forgets the place of this id.
    pub fn forget(&mut self, rank: u32, number: u64)
        ensures { (r n : ℕ) → place_at self.new r n ≡ (if (rank == r) && (number == n) then None else place_at self.old r n) }
    {
        self.held.remove(&(rank, number));
    }
}
