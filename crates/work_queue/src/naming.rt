//! The units by their ids.

ghost use Rattle.std.specs.Prelude.{◌≡◌, ◌<◌, ◌≤◌, ◌+◌, None, Some, OnOk, List, length, if◌then◌else◌};
ghost use Rattle.std.specs.List.{AllPairs, position_or_len};
ghost use Rattle.adlb_unit.specs.Ids.{same_unit};
ghost use Rattle.adlb_unit.specs.declared.names.UnitId.{UnitId};
ghost use Rattle.work_queue.specs.inside.Names.{IsNamed, spare_in, stamp_at};
ghost use Rattle.work_queue.specs.Queue.{HasDistinctIds, is_unit};
ghost use Rattle.work_queue.specs.declared.placing.Placed.{Placed};

use crate::parted::Parted;
use adlb_unit::UnitId;
use std::alloc::{AllocError, Global};
use std::collections::HashMap;

// Of the id of each unit, free or pinned, how many units had come before it.
#[derive(Drop)]
pub struct Names {
    kept: HashMap<(u32, u64), u64>,
}

impl Names {
    pub(crate) fn new(alloc: Global) -> Names
        ensures { (q : UnitId) → stamp_at result q ≡ None }
    {
        Names {
            kept: HashMap::new(alloc),
        }
    }

    // Makes room for `more` units.
    pub(crate) fn reserve(&mut self, more: usize) -> Result<(), AllocError>
        ensures names { (q : UnitId) → stamp_at self.new q ≡ stamp_at self.old q }
        ensures grown { spare_in self.old ≤ spare_in self.new }
        ensures room { OnOk result (more ≤ spare_in self.new) }
    {
        self.kept.reserve(more)
    }

    // The unit of this id comes, before which `stamp` others had come.
    pub(crate) fn add(&mut self, id: UnitId, stamp: u64)
        requires { 0 < spare_in self.old }
        ensures names { (q : UnitId) → stamp_at self.new q ≡ (if same_unit id q then Some stamp else stamp_at self.old q) }
        ensures room { spare_in self.old ≤ spare_in self.new + 1 }
    {
        let added = self.kept.insert((id.rank.0, id.number), stamp);
        match added {
            Ok(_) => {}
            Err(_) => unreachable!(),
        }
    }

    // The unit of this id is gone.
    pub(crate) fn remove(&mut self, id: UnitId)
        ensures names { (q : UnitId) → stamp_at self.new q ≡ (if same_unit id q then None else stamp_at self.old q) }
        ensures room { spare_in self.old ≤ spare_in self.new }
    {
        self.kept.remove(&(id.rank.0, id.number));
    }

    // The place in the arrival order of the unit of this id, by its stamp. If no unit has the id, it is how many
    // units there are.
    pub(crate) fn place_of(&self, stamps: &Parted<u64>, id: UnitId) -> usize
        requires { AllPairs (λ a b. a < b) stamps.now.items }
        ensures { (units : List Placed) → HasDistinctIds units → IsNamed units stamps.now.items self.now → length stamps.now.items ≡ length units → result ≡ position_or_len (is_unit id) units }
    {
        match self.kept.get(&(id.rank.0, id.number)) {
            Some(stamp) => stamps.place_of(*stamp),
            None => stamps.len(),
        }
    }
}
