//! The entries of an actor's events.

ghost use Rattle.std.specs.Prelude.{◌≡◌, ◌≤◌, ◌+◌, ◌++◌, ◌∷◌, [], IfOk, OnOk, OnErr, MatchOption};
ghost use Rattle.std.specs.List.{All};
ghost use Rattle.packed_ledger.specs.Sizes.{KeptModel, first_stamp, room_for, size_of, stamped};
ghost use Rattle.packed_ledger.specs.inside.Chunks.{IsFilled, behind};

use crate::chunks::{Chunk, Rest};
use crate::rooms::room_of;
use crate::stamped::Stamped;
use adlb_unit::{NoMemory, or_no_memory};
use bag_ledger::Entry;
use std::alloc::Global;
use std::collections::VecDeque;
use std::marker::Model;
use std::mem;

// Room is made for this many bytes at once, so that what was read is given back piece by piece.
const CHUNK_SIZE: usize = 1 << 18;

/// Entries with the stamps of their events, in order. They are seen as `KeptModel`, with the bytes that there is room for.
pub struct Kept {
    full: Vec<Chunk>,
    last: Chunk,
    alloc: Global,
}

// By hand, so that whoever holds entries lets them go by one call, and does not look at how they lie.
impl Drop for Kept {
    fn drop(self) {
        let Kept { full, last, alloc } = self;
    }
}

impl Model for Kept {
    ghost use Rattle.std.specs.List.{All};
    ghost use Rattle.std.specs.Prelude.{◌++◌};
    ghost use Rattle.packed_ledger.specs.Sizes.{KeptModel};
    ghost use Rattle.packed_ledger.specs.inside.Chunks.{IsFilled, entries_of};

    ghost Value = { KeptModel };

    ghost view = { λ k. record { entries = entries_of k.full.items ++ k.last.entries; room = k.last.room } };

    ghost invariant = { λ k. All IsFilled k.full.items };
}

impl Kept {
    /// No entries. It takes no memory.
    pub fn new(alloc: Global) -> Kept
        ensures { result.entries ≡ [] }
    {
        Kept {
            full: Vec::new(alloc),
            last: Chunk::new(alloc),
            alloc,
        }
    }

    /// Makes room for this many bytes. Its only error is `NoMemory`; then nothing has changed.
    pub fn make_room(&mut self, bytes: usize) -> Result<(), NoMemory>
        ensures entries { self.new.entries ≡ self.old.entries }
        ensures room { OnOk result (bytes ≤ self.new.room) }
        ensures refused { OnErr result (self.new ≡ self.old) }
    {
        if bytes <= self.last.room() {
            return Ok(());
        }
        if self.last.is_empty() {
            return self.last.make_room(bytes.max(CHUNK_SIZE));
        }
        let next = Chunk::with_room(self.alloc, bytes.max(CHUNK_SIZE))?;
        or_no_memory(self.full.reserve(1))?;
        self.full.push_reserved(mem::replace(&mut self.last, next));
        Ok(())
    }

    /// Makes room for these entries. Its only error is `NoMemory`; then nothing has changed.
    pub fn make_room_for(&mut self, entries: &[Entry]) -> Result<(), NoMemory>
        ensures entries { self.new.entries ≡ self.old.entries }
        ensures room { OnOk result (room_for entries.now ≤ self.new.room) }
        ensures refused { OnErr result (self.new ≡ self.old) }
    {
        let Some(bytes) = room_of(entries) else {
            return Err(NoMemory);
        };
        self.make_room(bytes)
    }

    /// Keeps the entry, with the stamp of its event. There is room for it.
    pub fn push_reserved(&mut self, stamp: u64, entry: Entry)
        requires { size_of entry ≤ self.old.room }
        ensures entries { self.new.entries ≡ self.old.entries ++ stamped stamp entry ∷ [] }
        ensures room { self.old.room ≤ self.new.room + size_of entry }
    {
        self.last.push_reserved(stamp, entry);
    }

    /// The entries from the first on, to be taken one after the other.
    pub fn into_unread(self) -> Unread
        ensures { result ≡ self.entries }
    {
        let Kept { full, last, alloc } = self;
        let mut full = VecDeque::from(full);
        match full.pop_front() {
            Some(first) => Unread {
                current: first.into_rest(),
                full,
                last: Some(last),
            },
            None => Unread {
                current: last.into_rest(),
                full,
                last: None,
            },
        }
    }
}

/// Kept entries that are still to be taken, with the stamps of their events. They are seen as their list. Their memory is given back as
/// they are taken.
#[derive(Drop)]
pub struct Unread {
    current: Rest,
    full: VecDeque<Chunk>,
    last: Option<Chunk>,
}

impl Model for Unread {
    ghost use Rattle.std.specs.Prelude.{List, ◌≡◌, ◌++◌, []};
    ghost use Rattle.std.specs.List.{All};
    ghost use Rattle.packed_ledger.specs.declared.stamped.Stamped.{Stamped};
    ghost use Rattle.packed_ledger.specs.inside.Chunks.{IsFilled, behind};

    ghost Value = { List Stamped };

    ghost view = { λ u. u.current ++ behind u.full.items u.last };

    ghost invariant = { λ u. All IsFilled u.full.items × (u.current ≡ [] → behind u.full.items u.last ≡ []) };
}

impl Unread {
    /// The stamp of the next entry, if one is left.
    pub fn first_stamp(&self) -> Option<u64>
        ensures { result ≡ first_stamp self.now }
    {
        self.current.first_stamp()
    }

    /// Takes the next entry off, if one is left. Its only error is `NoMemory`; then it is still to be taken.
    pub fn take_first(&mut self, alloc: Global) -> Result<Option<Stamped>, NoMemory>
        ensures first { IfOk result (λ first. MatchOption first ((self.old ≡ []) × (self.new ≡ [])) (λ x. self.old ≡ x ∷ self.new)) }
        ensures same { OnErr result (self.new ≡ self.old) }
    {
        let Some(first) = self.current.take_first(alloc)? else {
            return Ok(None);
        };
        if self.current.is_done() {
            turn(&mut self.current, &mut self.full, &mut self.last);
        }
        Ok(Some(first))
    }
}

// Goes on to the next chunk, if there is one. What was read of the last one is given back.
fn turn(current: &mut Rest, full: &mut VecDeque<Chunk>, last: &mut Option<Chunk>)
    requires done { current.old ≡ [] }
    requires filled { All IsFilled full.old.items }
    ensures same { current.new ++ behind full.new.items last.new ≡ behind full.old.items last.old }
    ensures filled { All IsFilled full.new.items }
    ensures nothing { current.new ≡ [] → behind full.new.items last.new ≡ [] }
{
    match full.pop_front() {
        Some(next) => *current = next.into_rest(),
        None => {
            if let Some(next) = last.take() {
                *current = next.into_rest();
            }
        }
    }
}
