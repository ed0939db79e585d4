//! What an event sends and enters.

ghost use Rattle.std.specs.Prelude.{◌≡◌, ◌<◌, ◌≤◌, IfOk, [], max};
ghost use Rattle.std.specs.Vec.{vec_capacity};
ghost use Rattle.server_core.specs.Out.{Out, nothing, with_answer, with_entry, with_letter};

use adlb_unit::{NoMemory, Sending};
use bag_ledger::Entry;
use std::alloc::Global;
use std::marker::Model;
use std::mem::replace;

/// Two lists that whoever runs servers keeps from one step to the next, for their room. What a step is lent it empties first.
#[derive(Drop)]
pub struct Spare {
    pub alloc: Global,
    pub sends: Vec<Sending>,
    pub entries: Vec<Entry>,
}

impl Spare {
    /// Two lists without room. It takes no memory.
    pub fn new(alloc: Global) -> Spare
        ensures sends { result.sends.items ≡ [] }
        ensures entries { result.entries.items ≡ [] }
    {
        Spare {
            alloc,
            sends: Vec::new(alloc),
            entries: Vec::new(alloc),
        }
    }

    /// Lends the lists to a step. Two without room are left in their place.
    pub fn lend(&mut self) -> Spare
        ensures lent { result ≡ self.old }
        ensures sends { self.new.sends.items ≡ [] }
        ensures entries { self.new.entries.items ≡ [] }
    {
        let alloc = self.alloc;
        replace(self, Spare::new(alloc))
    }

    /// Keeps these lists for the next step, each if it has more room than the one that is kept.
    pub fn keep(&mut self, sends: Vec<Sending>, entries: Vec<Entry>)
        ensures sends { vec_capacity self.new.sends ≡ max (vec_capacity self.old.sends) (vec_capacity sends) }
        ensures entries { vec_capacity self.new.entries ≡ max (vec_capacity self.old.entries) (vec_capacity entries) }
    {
        if self.sends.capacity() < sends.capacity() {
            drop(replace(&mut self.sends, sends));
        }
        if self.entries.capacity() < entries.capacity() {
            drop(replace(&mut self.entries, entries));
        }
    }
}

// The letters and the entries of one event. There is room for as many as it may have from its making; `room` is how
// many more of each.
#[derive(Drop)]
pub(crate) struct Outgoing {
    sends: Vec<Sending>,
    entries: Vec<Entry>,
    room: usize,
}

impl Model for Outgoing {
    ghost use Rattle.std.specs.Prelude.{◌≤◌, ◌+◌, length};
    ghost use Rattle.std.specs.Vec.{vec_capacity};
    ghost use Rattle.server_core.specs.Out.{Out};

    ghost Value = { Out };

    ghost view = { λ o. record { sends = o.sends.items; entries = o.entries.items; room = o.room } };

    ghost invariant = { λ o. (length o.sends.items + o.room ≤ vec_capacity o.sends) × (length o.entries.items + o.room ≤ vec_capacity o.entries) };
}

impl Outgoing {
    // Nothing yet, in these lists.
    pub(crate) fn new(spare: Spare, room: usize) -> Result<Outgoing, NoMemory>
        ensures { IfOk result (λ o. o ≡ nothing room) }
    {
        let Spare {
            mut sends,
            mut entries,
            ..
        } = spare;
        sends.clear();
        entries.clear();
        if sends.reserve(room).is_err() || entries.reserve(room).is_err() {
            return Err(NoMemory);
        }
        Ok(Outgoing {
            sends,
            entries,
            room,
        })
    }

    // An entry that is said in no letter.
    pub(crate) fn enter(&mut self, entry: Entry)
        requires { 0 < self.old.room }
        ensures { self.new ≡ with_entry self.old entry }
    {
        self.room -= 1;
        self.entries.push_reserved(entry);
    }

    // A letter that says no entry.
    pub(crate) fn say(&mut self, sending: Sending)
        requires { 0 < self.old.room }
        ensures { self.new ≡ with_letter self.old sending }
    {
        self.room -= 1;
        self.sends.push_reserved(sending);
    }

    // A letter, and the entry that it says.
    pub(crate) fn answer(&mut self, sending: Sending, entry: Entry)
        requires { 0 < self.old.room }
        ensures { self.new ≡ with_answer self.old sending entry }
    {
        self.room -= 1;
        self.sends.push_reserved(sending);
        self.entries.push_reserved(entry);
    }

    // The letters and the entries.
    pub(crate) fn parts(self) -> (Vec<Sending>, Vec<Entry>)
        ensures sends { result.0.items ≡ self.sends }
        ensures entries { result.1.items ≡ self.entries }
    {
        let Outgoing { sends, entries, .. } = self;
        (sends, entries)
    }
}
