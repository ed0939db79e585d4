//! The index of the free units.

ghost use Rattle.std.specs.Prelude.{◌≡◌, ◌≢◌, ◌<◌, ◌≤◌, ◌+◌, ◌++◌, ◌∷◌, [], All, Contains, IfNone, IfSome, OnOk, length, true, false};
ghost use Rattle.std.specs.List.{AllPairs, remove};
ghost use Rattle.std.specs.List.Sorted.{IsPermutation, IsPartitionPoint};
ghost use Rattle.work_queue.specs.inside.Index.{IsInOrder, IsRun, goes_before, runs_before};
ghost use Rattle.work_queue.specs.declared.entries.Entry.{Entry};

use crate::entries::{Entry, comes_before, is_of_earlier_run};
use crate::parted::Parted;
use std::alloc::{AllocError, Global};

// The entries of the free units in order; and for each unit, free or pinned, in arrival order, how many had come
// before it.
#[derive(Drop)]
pub struct Index {
    pub(crate) entries: Parted<Entry>,
    pub(crate) stamps: Parted<u64>,
}

// How many entries come before this one.
fn place_for(entries: &Parted<Entry>, entry: &Entry) -> usize
    requires { IsInOrder entries.now.items }
    ensures within { result ≤ length entries.now.items }
    ensures point { IsPartitionPoint (λ x. goes_before x entry.now ≡ true) (λ x. goes_before x entry.now ≡ false) entries.now.items result }
{
    entries.partition_point(|x| comes_before(x, entry))
}

// Entries of one type and target, which are side by side: the first, the last, and the place after that.
#[derive(Clone, Copy)]
pub struct Run {
    pub first: Entry,
    pub last: Entry,
    pub end: usize,
}

// How many entries are not of a run after that of this one.
fn run_end(entries: &Parted<Entry>, entry: &Entry) -> usize
    requires { IsInOrder entries.now.items }
    ensures within { result ≤ length entries.now.items }
    ensures point { IsPartitionPoint (λ x. runs_before entry.now x ≡ false) (λ x. runs_before entry.now x ≡ true) entries.now.items result }
{
    entries.partition_point(|x| !is_of_earlier_run(entry, x))
}

// The run that begins at this place, whose end is found by binary search.
pub(crate) fn run_at(entries: &Parted<Entry>, place: usize) -> Run
    requires order { IsInOrder entries.now.items }
    requires there { place < length entries.now.items }
    ensures { IsRun entries.now.items place result }
{
    let first = entries.at(place);
    let end = run_end(entries, &first);
    Run {
        first,
        last: entries.at(end - 1),
        end,
    }
}

impl Index {
    pub(crate) fn new(alloc: Global) -> Index
        ensures entries { result.entries.items ≡ [] }
        ensures stamps { result.stamps.items ≡ [] }
    {
        Index {
            entries: Parted::new(alloc),
            stamps: Parted::new(alloc),
        }
    }

    // Makes room for `more` units.
    pub(crate) fn reserve(&mut self, more: usize) -> Result<(), AllocError>
        ensures entries { self.new.entries.items ≡ self.old.entries.items }
        ensures stamps { self.new.stamps.items ≡ self.old.stamps.items }
        ensures entries_grown { self.old.entries.capacity ≤ self.new.entries.capacity }
        ensures stamps_grown { self.old.stamps.capacity ≤ self.new.stamps.capacity }
        ensures entries_room { OnOk result (length self.new.entries.items + more ≤ self.new.entries.capacity) }
        ensures stamps_room { OnOk result (length self.new.stamps.items + more ≤ self.new.stamps.capacity) }
    {
        self.entries.reserve(more)?;
        self.stamps.reserve(more)
    }

    // One more free unit comes, which is the last.
    pub(crate) fn add(&mut self, entry: Entry)
        requires order { IsInOrder self.old.entries.items }
        requires last { All (λ x. x.stamp < entry.stamp) self.old.entries.items }
        requires entries_room { length self.old.entries.items < self.old.entries.capacity }
        requires stamps_room { length self.old.stamps.items < self.old.stamps.capacity }
        ensures entries { IsPermutation (entry ∷ self.old.entries.items) self.new.entries.items }
        ensures order { IsInOrder self.new.entries.items }
        ensures stamps { self.new.stamps.items ≡ self.old.stamps.items ++ entry.stamp ∷ [] }
        ensures entries_len { length self.new.entries.items ≡ length self.old.entries.items + 1 }
        ensures stamps_len { length self.new.stamps.items ≡ length self.old.stamps.items + 1 }
        ensures entries_grown { self.old.entries.capacity ≤ self.new.entries.capacity }
        ensures stamps_grown { self.old.stamps.capacity ≤ self.new.stamps.capacity }
    {
        let place = place_for(&self.entries, &entry);
        self.stamps.push(entry.stamp);
        self.entries.insert(place, entry);
    }

    // A unit is free no longer.
    pub(crate) fn leave(&mut self, entry: &Entry)
        requires order { IsInOrder self.old.entries.items }
        requires there { Contains self.old.entries.items entry.now }
        ensures entries { IsPermutation self.old.entries.items (entry.now ∷ self.new.entries.items) }
        ensures gone { All (λ x. x ≢ entry.now) self.new.entries.items }
        ensures order { IsInOrder self.new.entries.items }
        ensures stamps { self.new.stamps ≡ self.old.stamps }
        ensures entries_len { length self.new.entries.items + 1 ≡ length self.old.entries.items }
        ensures entries_same { self.new.entries.capacity ≡ self.old.entries.capacity }
    {
        let place = place_for(&self.entries, entry);
        let removed = self.entries.remove(place);
        match removed {
            Some(_) => {}
            None => unreachable!(),
        }
    }

    // The unit at this place of the arrival order is gone. This is its entry, if it was free.
    pub(crate) fn forget(&mut self, place: usize, entry: Option<Entry>)
        requires order { IsInOrder self.old.entries.items }
        requires there { IfSome entry (λ e. Contains self.old.entries.items e) }
        requires within { place < length self.old.stamps.items }
        ensures kept { IfNone entry (self.new.entries.items ≡ self.old.entries.items) }
        ensures left { IfSome entry (λ e. IsPermutation self.old.entries.items (e ∷ self.new.entries.items)) }
        ensures gone { IfSome entry (λ e. All (λ x. x ≢ e) self.new.entries.items) }
        ensures order { IsInOrder self.new.entries.items }
        ensures stamps { self.new.stamps.items ≡ remove self.old.stamps.items place }
        ensures entries_len { length self.new.entries.items ≤ length self.old.entries.items }
        ensures entries_same { self.new.entries.capacity ≡ self.old.entries.capacity }
        ensures stamps_len { length self.new.stamps.items + 1 ≡ length self.old.stamps.items }
        ensures stamps_same { self.new.stamps.capacity ≡ self.old.stamps.capacity }
    {
        if let Some(entry) = entry {
            self.leave(&entry);
        }
        let removed = self.stamps.remove(place);
        match removed {
            Some(_) => {}
            None => unreachable!(),
        }
    }
}
