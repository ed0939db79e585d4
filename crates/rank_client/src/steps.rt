//! What one event of a rank gives.

ghost use Rattle.std.specs.Prelude.{◌≡◌, ◌≤◌, ◌<◌, ◌++◌, ◌∷◌, [], None, Some, IfOk};
ghost use Rattle.std.specs.Vec.{vec_capacity, vec_len};

use adlb_unit::{NoMemory, Sending, or_no_memory};
use bag_ledger::{Answer, Entry};
use std::alloc::Global;
use std::mem;

/// What a call or a letter gave: the stamp of its event, the letters and entries that go out, each in order, and the
/// answer if the call has ended. Whoever runs a rank keeps it from one event to the next, for the room of its lists: a
/// client is lent it, and empties it first. The room is enough for every event but Finish, for which a client has its
/// own.
#[derive(Drop)]
pub struct ClientStep {
    pub stamp: u64,
    pub sends: Vec<Sending>,
    pub entries: Vec<Entry>,
    pub answer: Option<Answer>,
    pub ghost room: { (1 ≤ vec_capacity sends) × (2 ≤ vec_capacity entries) },
}

impl ClientStep {
    /// Nothing yet, with the room of its lists. Its only error is `NoMemory`.
    pub fn new(alloc: Global) -> Result<ClientStep, NoMemory>
        ensures sends { IfOk result (λ x. x.sends.items ≡ []) }
        ensures entries { IfOk result (λ x. x.entries.items ≡ []) }
        ensures answer { IfOk result (λ x. x.answer ≡ None) }
    {
        let sends = or_no_memory(Vec::with_capacity(alloc, 1))?;
        let entries = or_no_memory(Vec::with_capacity(alloc, 2))?;
        Ok(ClientStep {
            stamp: 0,
            sends,
            entries,
            answer: None,
        })
    }

    // Nothing yet of the event of this stamp.
    pub(crate) fn empty(&mut self, stamp: u64)
        ensures stamp { self.new.stamp ≡ stamp }
        ensures sends { self.new.sends.items ≡ [] }
        ensures entries { self.new.entries.items ≡ [] }
        ensures answer { self.new.answer ≡ None }
    {
        self.stamp = stamp;
        self.sends.clear();
        self.entries.clear();
        drop(mem::replace(&mut self.answer, None));
    }
}
