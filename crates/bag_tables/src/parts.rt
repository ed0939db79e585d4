//! The common parts.

ghost use Rattle.std.specs.Prelude.{◌≡◌, ◌+◌, ◌<◌, ◌≤◌, ◌^◌, ◌++◌, ◌∷◌, [], All, OnOk, MatchOption, None, Some, length, find, sum_by, count_by, if◌then◌else◌};
ghost use Rattle.std.specs.List.{list_any};
ghost use Rattle.adlb_unit.specs.Ids.{same_batch};
ghost use Rattle.bag_ledger.specs.Bag.{part_charge, is_due};
ghost use Rattle.bag_ledger.specs.Steps.{change_at, change_first};
ghost use Rattle.bag_tables.specs.Changes.{part_changed};
ghost use Rattle.bag_tables.specs.Charges.{IsSummed};
ghost use Rattle.bag_tables.specs.Found.{IsAbsent, IsFoundAt};
ghost use Rattle.bag_tables.specs.Keeping.{kept_at, part_weight, part_size};

use crate::changes::PartChange;
use crate::charges::{Charges, left_of};
use crate::places::Places;
use crate::reading::is_due;
use adlb_unit::{BatchId, NoMemory, Server};
use bag_ledger::Part;
use std::alloc::Global;
use std::marker::Model;

/// The common parts, in order, seen as their list. A part is found by its batch, a server's charge is a sum that is kept, and
/// the parts that are due are counted.
pub struct Parts {
    held: Vec<Part>,
    places: Places,
    charges: Charges,
    due: u64,
}

// By hand, so that whoever holds the parts lets them go by one call.
impl Drop for Parts {
    fn drop(self) {
        let Parts {
            held,
            places,
            charges,
            due,
        } = self;
    }
}

impl Model for Parts {
    ghost use Rattle.std.specs.Prelude.{List};
    ghost use Rattle.bag_ledger.specs.declared.states.Part.{Part};

    ghost Value = { List Part };

    ghost use Rattle.bag_tables.specs.Keeping.{PartsAreKept};

    ghost view = { λ p. p.held.items };

    ghost invariant = { λ p. PartsAreKept p.places p.charges p.due p.held.items };
}

impl Parts {
    /// No part.
    pub fn new(alloc: Global) -> Parts
        ensures { result ≡ [] }
    {
        Parts {
            held: Vec::new(alloc),
            places: Places::new(alloc),
            charges: Charges::new(),
            due: 0,
        }
    }

    // The place of the part.
    fn place_of(&self, batch: BatchId) -> Option<usize>
        ensures { MatchOption result (IsAbsent (λ p. same_batch p.batch batch) self.now) (λ place. IsFoundAt (λ p. same_batch p.batch batch) self.now place) }
    {
        self.places.get(batch.rank.0, batch.number)
    }

    /// The part of this batch, if there is one.
    pub fn get(&self, batch: BatchId) -> Option<&Part>
        ensures { MatchOption result (find (λ p. same_batch p.batch batch) self.now ≡ None) (λ p. find (λ p. same_batch p.batch batch) self.now ≡ Some p.now) }
    {
        match self.place_of(batch) {
            Some(at) => Some(&self.held[at]),
            None => None,
        }
    }

    /// One part more. Its only error is `NoMemory`.
    pub fn add(&mut self, part: Part) -> Result<(), NoMemory>
        ensures { OnOk result (self.new ≡ self.old ++ part ∷ []) }
    {
        let batch = part.batch;
        let at = self.held.len();
        let n = part.common.len() as u64;
        let kept = kept_at(&part);
        let due = is_due(&part);
        if self.held.reserve(1).is_err() {
            return Err(NoMemory);
        }
        self.places.note(batch.rank.0, batch.number, at)?;
        self.charges.shift(None, kept, n);
        self.due = recount(self.due, false, due);
        self.held.push_reserved(part);
        Ok(())
    }

    /// The part of this batch, if there is one, is changed.
    pub fn change(&mut self, batch: BatchId, change: PartChange)
        requires accepted { All (λ p. p.accepted + 1 < 2 ^ 64) self.old }
        requires fetched { All (λ p. p.fetched + 1 < 2 ^ 64) self.old }
        ensures { self.new ≡ change_first (part_changed change) (λ p. same_batch p.batch batch) self.old }
    {
        if let Some(at) = self.place_of(batch) {
            self.due = take_at(&mut self.held, &mut self.charges, self.due, at, change);
        }
    }

    /// What is left of the room below the bytes of the parts at the server that are not freed. The server is one of the 8 that
    /// a run has at most.
    pub fn left_of(&self, server: Server, room: u64) -> Option<u64>
        requires { server.0 < 8 }
        ensures { MatchOption result (room < sum_by (part_charge server) self.now) (λ left. left + sum_by (part_charge server) self.now ≡ room) }
    {
        left_of(&self.charges, server, room)
    }

    /// Some part is due.
    pub fn has_due(&self) -> bool
        ensures { result ≡ list_any is_due self.now }
    {
        self.due > 0
    }
}

// The server that is charged with the part.
fn kept_at(part: &Part) -> Option<Server>
    ensures { result ≡ kept_at part.now }
{
    if part.freed { None } else { Some(part.server) }
}

// The count after one element of it passes or no longer does.
fn recount(count: u64, was: bool, is: bool) -> u64
    requires room { count + 1 < 2 ^ 64 }
    requires held { (if was then 1 else 0) ≤ count }
    ensures { result + (if was then 1 else 0) ≡ count + (if is then 1 else 0) }
{
    count + is as u64 - was as u64
}

// The change of a part.
fn take(part: &mut Part, change: PartChange)
    requires accepted { part.old.accepted + 1 < 2 ^ 64 }
    requires fetched { part.old.fetched + 1 < 2 ^ 64 }
    ensures { part.new ≡ part_changed change part.old }
{
    match change {
        PartChange::Closed => part.closed = true,
        PartChange::Freed => part.freed = true,
        PartChange::Accepted => part.accepted += 1,
        PartChange::Fetched => part.fetched += 1,
    }
}

// The part here is changed, and the charges and the count of those that are due say so.
fn take_at(
    parts: &mut Vec<Part>,
    charges: &mut Charges,
    due: u64,
    at: usize,
    change: PartChange,
) -> u64
    requires inside { at < length parts.old.items }
    requires accepted { All (λ p. p.accepted + 1 < 2 ^ 64) parts.old.items }
    requires fetched { All (λ p. p.fetched + 1 < 2 ^ 64) parts.old.items }
    requires charged { IsSummed part_weight part_size charges.old parts.old.items }
    requires counted { due ≡ count_by is_due parts.old.items }
    ensures changed { parts.new.items ≡ change_at (part_changed change) at parts.old.items }
    ensures charged { IsSummed part_weight part_size charges.new parts.new.items }
    ensures counted { result ≡ count_by is_due parts.new.items }
{
    let part = &mut parts[at];
    let n = part.common.len() as u64;
    let from = kept_at(part);
    let was = is_due(part);
    take(part, change);
    let to = kept_at(part);
    let is = is_due(part);
    charges.shift(from, to, n);
    recount(due, was, is)
}
