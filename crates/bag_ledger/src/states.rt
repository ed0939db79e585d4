//! The parts of the bag's state.

ghost use Rattle.std.specs.Prelude.{◌≡◌, ◌==◌, ◌++◌, ◌∷◌, [], OnOk, OnErr};
ghost use Rattle.std.specs.List.{list_any, list_all, range_with_len};

use adlb_unit::{
    BatchId, CommonRef, End, NoMemory, Payload, Rank, Server, Types, Unit, UnitId, WorkType,
};
use std::alloc::Global;
use std::marker::Model;

/// What a rank does: it runs, has a call pending (with that call's number), or has finished.
#[derive(Drop)]
pub enum Status {
    Running,
    /// It puts the unit; the unit's id has the number of the call.
    Putting { unit: Unit },
    /// It begins a batch with this common part.
    Keeping { call: u64, common: Payload },
    /// It ends its batch.
    Closing { call: u64 },
    /// It reserves, and waits.
    Asking { call: u64, types: Types },
    /// It tries to reserve.
    Trying { call: u64, types: Types },
    /// It fetches the unit; `own` says that the unit's own bytes have come.
    Fetching { call: u64, id: UnitId, own: bool },
    /// It counts the free units of a type.
    Counting { call: u64, kind: WorkType },
    Finished,
}

/// A list of servers.
#[derive(Drop)]
pub struct Servers {
    held: Vec<Server>,
}

impl Model for Servers {
    ghost use Rattle.std.specs.Prelude.{List};
    ghost use Rattle.adlb_unit.specs.declared.names.Server.{Server};

    ghost Value = { List Server };

    ghost view = { λ s. s.held.items };
}

impl Servers {
    /// No server. It takes no memory.
    pub fn new(alloc: Global) -> Servers
        ensures { result ≡ [] }
    {
        Servers {
            held: Vec::new(alloc),
        }
    }

    /// Appends a server. It fails for want of memory alone, and then the list is unchanged.
    pub fn push(&mut self, server: Server) -> Result<(), NoMemory>
        ensures pushed { OnOk result (self.new ≡ self.old ++ server ∷ []) }
        ensures kept { OnErr result (self.new ≡ self.old) }
    {
        match self.held.push(server) {
            Ok(()) => Ok(()),
            Err(_) => Err(NoMemory),
        }
    }

    /// Leaves no server.
    pub fn clear(&mut self)
        ensures { self.new ≡ [] }
    {
        self.held.clear()
    }

    /// The server is in the list.
    pub fn has(&self, server: Server) -> bool
        ensures { result ≡ list_any (λ s. s.0 == server.0) self.now }
    {
        self.held.iter().any(|s| s.0 == server.0)
    }

    /// Each server below this number is in the list.
    pub fn has_all(&self, servers: u32) -> bool
        ensures { result ≡ list_all (λ k. list_any (λ s. s.0 == k) self.now) (range_with_len 0 servers) }
    {
        (0..servers).all(|k| self.has(Server(k)))
    }
}

/// A rank: what it does, the number of its next call, the batch that is going on, and the end that it was told last.
/// A server declines a pending call if it refuses what it brings, or looks in vain.
#[derive(Drop)]
pub struct RankState {
    pub status: Status,
    pub declined: Servers,
    pub next: u64,
    pub batch: Option<CommonRef>,
    pub end: Option<End>,
}

/// Where a unit is: free at a server, on the way to one, pinned at a server to the rank that it was granted to, or
/// fetched.
#[derive(Clone, Copy)]
pub enum UnitPlace {
    Free(Server),
    Travelling(Server),
    Pinned(Server, Rank),
    Spent,
}

/// An accepted unit and its place.
#[derive(Drop)]
pub struct Placed {
    pub unit: Unit,
    pub place: UnitPlace,
}

/// The common part of a batch, kept at a server: how many units of the batch were accepted, how often it was fetched,
/// and whether it was closed and freed.
#[derive(Drop)]
pub struct Part {
    pub batch: BatchId,
    pub server: Server,
    pub common: Payload,
    pub accepted: u64,
    pub fetched: u64,
    pub closed: bool,
    pub freed: bool,
}

/// Room that a server promised for a unit of this length.
#[derive(Clone, Copy)]
pub struct Promise {
    pub server: Server,
    pub id: UnitId,
    pub length: u32,
}
