//! The ledger of a run.

ghost use Rattle.std.specs.Prelude.{◌≡◌, ◌++◌, ◌∷◌, ◌^◌, ◌<◌, [], length, IfOk, OnOk, OnErr, MatchOption};

use crate::codes::{push_entry, read_entry};
use crate::rooms::size_of;
use adlb_unit::{NoMemory, or_no_memory};
use bag_ledger::Entry;
use ghost_list::Trace;
use std::alloc::Global;
use std::marker::Model;

/// The entries of a run, in order. It is seen as their list.
#[derive(Drop)]
pub struct Ledger {
    bytes: Vec<u8>,
    count: u64,
    of: Trace<Entry>,
}

impl Model for Ledger {
    ghost use Rattle.std.specs.Prelude.{◌≡◌, List, length};
    ghost use Rattle.bag_ledger.specs.declared.entries.Entry.{Entry};
    ghost use Rattle.packed_ledger.specs.inside.Codes.{Holds, IsKept, entry_before};

    ghost Value = { List Entry };

    ghost view = { λ l. l.of.items };

    ghost invariant = { λ l. Holds entry_before IsKept l.bytes.items l.of.items × (l.count ≡ length l.of.items) };
}

impl Ledger {
    /// A ledger with no entry. It takes no memory.
    pub fn new(alloc: Global) -> Ledger
        ensures { result ≡ [] }
    {
        Ledger {
            bytes: Vec::new(alloc),
            count: 0,
            of: Trace::new(),
        }
    }

    /// Appends an entry. Its only error is `NoMemory`; then the ledger is unchanged.
    pub fn push(&mut self, entry: Entry) -> Result<(), NoMemory>
        ensures pushed { OnOk result (self.new ≡ self.old ++ entry ∷ []) }
        ensures kept { OnErr result (self.new ≡ self.old) }
    {
        let Some(size) = size_of(&entry) else {
            return Err(NoMemory);
        };
        or_no_memory(self.bytes.reserve(size))?;
        push_entry(&mut self.bytes, &entry);
        self.of = self.of.and(&entry);
        self.count += 1;
        Ok(())
    }

    /// How many entries there are. Each takes a byte at least, so there are fewer than 2^63.
    pub fn len(&self) -> u64
        ensures exact { result ≡ length self.now }
        ensures few { result < 2 ^ 63 }
    {
        self.count
    }

    /// The entries from the first on, to be read one after the other.
    pub fn entries(&self) -> Entries<'_>
        ensures { result ≡ self.now }
    {
        Entries {
            rest: self.bytes.as_slice(),
            done: 0,
            of: &self.of,
        }
    }

    /// All entries, in order. Its only error is `NoMemory`.
    pub fn list(&self, alloc: Global) -> Result<Vec<Entry>, NoMemory>
        ensures { IfOk result (λ all. all.items ≡ self.now) }
    {
        let mut all = Vec::new(alloc);
        let mut entries = self.entries();
        while let Some(entry) = entries.next(alloc)? {
            or_no_memory(all.push(entry))?;
        }
        Ok(all)
    }
}

/// The entries of a ledger that are still to be read. They are seen as their list.
#[derive(Drop)]
pub struct Entries<'a> {
    rest: &'a [u8],
    done: u64,
    of: &'a Trace<Entry>,
}

impl<'a> Model for Entries<'a> {
    ghost use Rattle.std.specs.Prelude.{List, ◌≤◌, ◌<◌, ◌^◌, drop, length};
    ghost use Rattle.bag_ledger.specs.declared.entries.Entry.{Entry};
    ghost use Rattle.packed_ledger.specs.inside.Codes.{Holds, IsKept, entry_before};

    ghost Value = { List Entry };

    ghost view = { λ e. drop e.done e.of.now.items };

    ghost invariant = { λ e. Holds entry_before IsKept e.rest.now (drop e.done e.of.now.items)
        × (e.done ≤ length e.of.now.items) × (length e.of.now.items < 2 ^ 64) };
}

impl<'a> Entries<'a> {
    /// The next entry, if one is left. Its only error is `NoMemory`; then that entry is still to be read.
    pub fn next(&mut self, alloc: Global) -> Result<Option<Entry>, NoMemory>
        ensures next { IfOk result (λ next. MatchOption next ((self.old ≡ []) × (self.new ≡ [])) (λ entry. self.old ≡ entry ∷ self.new)) }
        ensures same { OnErr result (self.new ≡ self.old) }
    {
        if self.rest.is_empty() {
            return Ok(None);
        }
        let (entry, rest) = read_entry(alloc, self.rest)?;
        self.rest = rest;
        self.done += 1;
        Ok(Some(entry))
    }
}
