//! A part of the entries that an actor keeps, in one piece of memory.

ghost use Rattle.std.specs.Prelude.{◌≡◌, ◌≤◌, ◌+◌, ◌++◌, ◌∷◌, [], IfOk, IsTrue, OnOk, OnErr, MatchOption, ◌↔◌};
ghost use Rattle.packed_ledger.specs.Sizes.{KeptModel, first_stamp, size_of, stamped};

use crate::codes::{push_stamped, read_stamp, read_stamped};
use crate::stamped::Stamped;
use adlb_unit::{NoMemory, or_no_memory};
use bag_ledger::Entry;
use ghost_list::Trace;
use std::alloc::Global;
use std::marker::Model;

/// Entries with the stamps of their events, in order, in one piece of memory. They are seen as `KeptModel`, with the bytes that there is
/// room for.
#[derive(Drop)]
pub(crate) struct Chunk {
    bytes: Vec<u8>,
    of: Trace<Stamped>,
}

impl Model for Chunk {
    ghost use Rattle.std.specs.Prelude.{◌-◌};
    ghost use Rattle.std.specs.Vec.{vec_capacity, vec_len};
    ghost use Rattle.packed_ledger.specs.Sizes.{KeptModel};
    ghost use Rattle.packed_ledger.specs.inside.Codes.{Holds, IsKeptStamped, stamped_before};

    ghost Value = { KeptModel };

    ghost view = { λ k. record { entries = k.of.items; room = vec_capacity k.bytes - vec_len k.bytes } };

    ghost invariant = { λ k. Holds stamped_before IsKeptStamped k.bytes.items k.of.items };
}

impl Chunk {
    /// No entries. It takes no memory.
    pub(crate) fn new(alloc: Global) -> Chunk
        ensures { result.entries ≡ [] }
    {
        Chunk {
            bytes: Vec::new(alloc),
            of: Trace::new(),
        }
    }

    /// No entries, with room for this many bytes. Its only error is `NoMemory`.
    pub(crate) fn with_room(alloc: Global, bytes: usize) -> Result<Chunk, NoMemory>
        ensures { IfOk result (λ chunk. (chunk.entries ≡ []) × (bytes ≤ chunk.room)) }
    {
        let mut chunk = Chunk::new(alloc);
        chunk.make_room(bytes)?;
        Ok(chunk)
    }

    /// Makes room for this many bytes. Its only error is `NoMemory`; then nothing has changed.
    pub(crate) fn make_room(&mut self, bytes: usize) -> Result<(), NoMemory>
        ensures entries { self.new.entries ≡ self.old.entries }
        ensures room { OnOk result (bytes ≤ self.new.room) }
        ensures refused { OnErr result (self.new ≡ self.old) }
    {
        or_no_memory(self.bytes.reserve(bytes))
    }

    /// For how many more bytes there is room.
    pub(crate) fn room(&self) -> usize
        ensures { result ≡ self.now.room }
    {
        self.bytes.capacity() - self.bytes.len()
    }

    /// There is no entry.
    pub(crate) fn is_empty(&self) -> bool
        ensures { IsTrue result ↔ (self.now.entries ≡ []) }
    {
        self.bytes.is_empty()
    }

    /// Keeps the entry, with the stamp of its event. There is room for it.
    pub(crate) fn push_reserved(&mut self, stamp: u64, entry: Entry)
        requires { size_of entry ≤ self.old.room }
        ensures entries { self.new.entries ≡ self.old.entries ++ stamped stamp entry ∷ [] }
        ensures room { self.old.room ≤ self.new.room + size_of entry }
    {
        let last = Stamped { stamp, entry };
        push_stamped(&mut self.bytes, &last);
        self.of = self.of.and(&last);
    }

    /// The entries from the first on, to be taken one after the other.
    pub(crate) fn into_rest(self) -> Rest
        ensures { result ≡ self.entries }
    {
        Rest {
            bytes: self.bytes,
            at: 0,
            done: 0,
            of: self.of,
        }
    }
}

/// The entries of a chunk that are still to be taken, with the stamps of their events. They are seen as their list.
#[derive(Drop)]
pub(crate) struct Rest {
    bytes: Vec<u8>,
    at: usize,
    done: u64,
    of: Trace<Stamped>,
}

impl Model for Rest {
    ghost use Rattle.std.specs.Prelude.{List, ◌≤◌, drop, length};
    ghost use Rattle.packed_ledger.specs.declared.stamped.Stamped.{Stamped};
    ghost use Rattle.packed_ledger.specs.inside.Codes.{Holds, IsKeptStamped, stamped_before};

    ghost Value = { List Stamped };

    ghost view = { λ u. drop u.done u.of.items };

    ghost invariant = { λ u. Holds stamped_before IsKeptStamped (drop u.at u.bytes.items) (drop u.done u.of.items)
        × (u.at ≤ length u.bytes.items) × (u.done ≤ u.at) };
}

impl Rest {
    /// The stamp of the next entry, if one is left.
    pub(crate) fn first_stamp(&self) -> Option<u64>
        ensures { result ≡ first_stamp self.now }
    {
        if self.at == self.bytes.len() {
            return None;
        }
        let rest = self.bytes.as_slice().split_at(self.at).1;
        Some(read_stamp(rest))
    }

    /// Takes the next entry off, if one is left. Its only error is `NoMemory`; then it is still to be taken.
    pub(crate) fn take_first(&mut self, alloc: Global) -> Result<Option<Stamped>, NoMemory>
        ensures first { IfOk result (λ first. MatchOption first ((self.old ≡ []) × (self.new ≡ [])) (λ x. self.old ≡ x ∷ self.new)) }
        ensures same { OnErr result (self.new ≡ self.old) }
    {
        if self.at == self.bytes.len() {
            return Ok(None);
        }
        let rest = self.bytes.as_slice().split_at(self.at).1;
        let (first, size) = read_stamped(alloc, rest)?;
        self.at += size;
        self.done += 1;
        Ok(Some(first))
    }

    /// No entry is left.
    pub(crate) fn is_done(&self) -> bool
        ensures { IsTrue result ↔ (self.now ≡ []) }
    {
        self.at == self.bytes.len()
    }
}
