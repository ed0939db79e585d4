//! The parts by batch.

ghost use Rattle.std.specs.Prelude.{◌≡◌, ◌<◌, ◌+◌, ◌^◌, ℕ, [], OnOk, OnErr, None, Some, Option};
ghost use Rattle.std.specs.BTreeMap.{insert_entry};
ghost use Rattle.std.specs.Option.{option_copied};
ghost use Rattle.server_components.specs.Store.{Store, by_batch, closed, fetched, part_in, with_turned, without};
ghost use Rattle.server_components.specs.declared.parts.Part.{Part as Kept};

use crate::parts::Part;
use adlb_unit::{BatchId, NoMemory};
use std::alloc::Global;
use std::collections::BTreeMap;
use std::marker::Model;

/// A map from batches to their parts.
#[derive(Drop)]
pub struct Table {
    held: BTreeMap<BatchId, Part>,
}

impl Model for Table {
    ghost use Rattle.std.specs.BTreeMap.{IsOrdered};
    ghost use Rattle.server_components.specs.Store.{Store, by_batch};

    ghost Value = { Store };

    ghost view = { λ t. t.held.entries };

    ghost invariant = { λ t. IsOrdered by_batch t.held };
}

impl Table {
    // No part. It takes no memory yet.
    pub(crate) fn new(alloc: Global) -> Table
        ensures { result ≡ [] }
    {
        Table {
            held: BTreeMap::new(alloc),
        }
    }

    // The part of the batch, if there is one.
    pub(crate) fn get(&self, batch: BatchId) -> Option<&Part>
        ensures { option_copied result ≡ part_in self.now batch }
    {
        self.held.get(&batch)
    }

    // The batch has this part from now on. Its only error is `NoMemory`.
    pub(crate) fn put(&mut self, batch: BatchId, part: Part) -> Result<(), NoMemory>
        ensures put { OnOk result (self.new ≡ insert_entry by_batch self.old batch part) }
        ensures err { OnErr result (self.new ≡ self.old) }
    {
        match self.held.insert(batch, part) {
            Ok(_) => Ok(()),
            Err(_) => Err(NoMemory),
        }
    }

    // Takes the part of the batch away, if there is one, and gives it.
    pub(crate) fn remove(&mut self, batch: BatchId) -> Option<Part>
        ensures part { result ≡ part_in self.old batch }
        ensures removed { self.new ≡ without self.old batch }
    {
        self.held.remove(&batch)
    }

    // The batch is closed, after `accepted` units of it were accepted.
    pub(crate) fn close(&mut self, batch: BatchId, accepted: u64)
        ensures { self.new ≡ with_turned self.old batch (closed accepted) }
    {
        if let Some(part) = self.held.get_mut(&batch) {
            part.accepted = Some(accepted);
        }
    }

    // The part of the batch is fetched once more.
    pub(crate) fn fetch(&mut self, batch: BatchId)
        requires { (p : Kept) → part_in self.old batch ≡ Some p → p.fetches + 1 < 2 ^ 64 }
        ensures { self.new ≡ with_turned self.old batch fetched }
    {
        if let Some(part) = self.held.get_mut(&batch) {
            part.fetches += 1;
        }
    }
}
