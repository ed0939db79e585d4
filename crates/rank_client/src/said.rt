//! The transcript of a client, with the ids of the units in it.

ghost use Rattle.std.specs.Prelude.{◌≡◌, ◌+◌, ◌^◌, ◌<◌, ◌≤◌, ◌∷◌, ◌++◌, ◌||◌, [], IfOk, OnOk};
ghost use Rattle.std.specs.HashSet.{spare};
ghost use Rattle.adlb_unit.specs.Ids.{same_unit};
ghost use Rattle.adlb_unit.specs.declared.names.UnitId.{UnitId};
ghost use Rattle.rank_client.specs.Calls.{fetches, grants, is_fetched, is_granted};
ghost use Rattle.rank_client.specs.Names.{has_id};

use adlb_unit::{NoMemory, UnitId, or_no_memory};
use bag_ledger::{Answer, Call, Said};
use ghost_list::Trace;
use std::alloc::Global;
use std::collections::HashSet;
use std::marker::Model;

// The calls with their answers, of which none is held, and the ids of the units that were granted or fetched in them, by which a
// note is known.
#[derive(Drop)]
pub(crate) struct Transcript {
    said: Trace<Said>,
    ids: HashSet<(u32, u64)>,
}

impl Model for Transcript {
    ghost use Rattle.rank_client.specs.Transcript.{TranscriptModel};

    ghost Value = { TranscriptModel };

    ghost use Rattle.rank_client.specs.Names.{transcript_of, AreNamed};

    ghost view = { transcript_of };

    ghost invariant = { AreNamed };
}

impl Transcript {
    // No calls, and room for the ids of one. A call names two units at most.
    pub(crate) fn new(alloc: Global) -> Result<Transcript, NoMemory>
        ensures none { IfOk result (λ t. t.items ≡ []) }
        ensures ids { IfOk result (λ t. 2 ≤ t.ids) }
    {
        let ids = or_no_memory(HashSet::with_capacity(alloc, 2))?;
        let said = Trace::new();
        Ok(Transcript { said, ids })
    }
}

impl Transcript {
    // The calls with their answers, in order, with the transcript used up.
    pub(crate) fn into_calls(self) -> Trace<Said>
        ensures { result.items ≡ self.items }
    {
        self.said
    }

    // A unit of this id was granted or fetched.
    pub(crate) fn names(&self, id: UnitId) -> bool
        ensures { result ≡ (is_granted id self.now.items || is_fetched id self.now.items) }
    {
        self.ids.contains(&(id.rank.0, id.number))
    }

    // Makes room for the ids of two more calls.
    pub(crate) fn make_room(&mut self) -> Result<(), NoMemory>
        ensures items { self.new.items ≡ self.old.items }
        ensures ids { OnOk result (4 ≤ self.new.ids) }
        ensures no_fewer_ids { self.old.ids ≤ self.new.ids }
    {
        more_ids(&mut self.ids)
    }

    // Adds a call with its answer, for whose ids there is room.
    pub(crate) fn add(&mut self, said: &Said)
        requires ids { 2 ≤ self.old.ids }
        ensures items { self.new.items ≡ self.old.items ++ said.now ∷ [] }
        ensures ids { self.old.ids ≤ self.new.ids + 2 }
    {
        add_granted(&mut self.ids, &said.answer);
        add_fetched(&mut self.ids, &said.call);
        self.said = self.said.and(said);
    }
}

// Makes room for four more ids.
fn more_ids(ids: &mut HashSet<(u32, u64)>) -> Result<(), NoMemory>
    ensures same { (id : UnitId) → has_id ids.new id ≡ has_id ids.old id }
    ensures room { OnOk result (4 ≤ spare ids.new) }
    ensures no_fewer { spare ids.old ≤ spare ids.new }
{
    or_no_memory(ids.reserve(4))
}

// Adds the id of a unit that was granted, if one was.
fn add_granted(ids: &mut HashSet<(u32, u64)>, answer: &Answer)
    requires room { 1 ≤ spare ids.old }
    ensures added { (id : UnitId) → has_id ids.new id ≡ (grants id answer.now || has_id ids.old id) }
    ensures room { spare ids.old ≤ spare ids.new + 1 }
{
    match answer {
        Answer::Granted(note) => add(ids, note.id),
        _ => {}
    }
}

// Adds the id of a unit that was fetched, if one was.
fn add_fetched(ids: &mut HashSet<(u32, u64)>, call: &Call)
    requires room { 1 ≤ spare ids.old }
    ensures added { (id : UnitId) → has_id ids.new id ≡ (fetches id call.now || has_id ids.old id) }
    ensures room { spare ids.old ≤ spare ids.new + 1 }
{
    match call {
        Call::Fetch { id } => add(ids, *id),
        _ => {}
    }
}

fn add(ids: &mut HashSet<(u32, u64)>, id: UnitId)
    requires room { 1 ≤ spare ids.old }
    ensures added { (other : UnitId) → has_id ids.new other ≡ (same_unit id other || has_id ids.old other) }
    ensures room { spare ids.old ≤ spare ids.new + 1 }
{
    // There is room, so it is no error.
    let _ = ids.insert((id.rank.0, id.number));
}
