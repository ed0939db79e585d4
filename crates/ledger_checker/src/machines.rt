//! The machine: the state of the bag that the entries before leave.

ghost use Rattle.std.specs.Prelude.{◌≡◌, ◌==◌, ◌&&◌, ◌+◌, ◌≤◌, ◌<◌, ◌^◌, IfOk, OnOk, MatchOption, None, Some, All, length, find, not};
ghost use Rattle.std.specs.List.{list_all, list_any};
ghost use Rattle.adlb_unit.specs.Permit.{permitted};
ghost use Rattle.adlb_unit.specs.declared.names.BatchId.{BatchId};
ghost use Rattle.bag_ledger.specs.Bag.{Bag, start, rank_at, unit_of, part_of, promise_of, charge, has_due, has_fit_at, has_fit, none_fits, settled, info_of, is_asking, is_asking_or_finished, is_travelling};
ghost use Rattle.bag_ledger.specs.Step.{is_server, fits};
ghost use Rattle.bag_ledger.specs.Steps.{IsServer};

use adlb_unit::{BatchId, Config, Info, NoMemory, Rank, Server, Types, UnitId, WorkType};
use bag_ledger::{Part, Placed, Promise, RankState, Status};
use bag_tables::{Parts, Promises, Ranks, Units};
use std::alloc::Global;
use std::marker::Model;

/// The state of the bag, kept in tables that are looked up by ids. It is seen as a `Bag`.
pub struct Machine {
    pub(crate) alloc: Global,
    pub(crate) ranks: Ranks,
    pub(crate) units: Units,
    pub(crate) parts: Parts,
    pub(crate) promises: Promises,
    pub(crate) done: bool,
    pub(crate) exhausted: bool,
    servers: u32,
    limit: u64,
}

// By hand, so that whoever holds a machine lets it go by one call, and does not look at its tables.
impl Drop for Machine {
    fn drop(self) {
        let Machine {
            alloc,
            ranks,
            units,
            parts,
            promises,
            done,
            exhausted,
            servers,
            limit,
        } = self;
    }
}

impl Model for Machine {
    ghost use Rattle.std.specs.Prelude.{◌≤◌};
    ghost use Rattle.bag_ledger.specs.Bag.{Bag};

    ghost Value = { Bag };

    ghost view = { λ m. record { ranks = m.ranks; units = m.units; parts = m.parts; promises = m.promises; done = m.done; exhausted = m.exhausted; servers = m.servers; limit = m.limit } };

    ghost invariant = { λ m. m.servers ≤ 8 };
}

impl Machine {
    /// The bag at the start of a run of this configuration (`start`). Its only error is `NoMemory`.
    pub fn new(alloc: Global, config: &Config) -> Result<Machine, NoMemory>
        ensures { IfOk result (λ m. m ≡ start config.now) }
    {
        let ranks = Ranks::new(alloc, config.ranks)?;
        Ok(Machine {
            alloc,
            ranks,
            units: Units::new(alloc),
            parts: Parts::new(alloc),
            promises: Promises::new(alloc),
            done: false,
            exhausted: false,
            servers: config.servers,
            limit: config.limit,
        })
    }

    /// How many servers there are.
    pub fn servers(&self) -> u32
        ensures { result ≡ self.now.servers }
    {
        self.servers
    }

    /// The limit of each server in bytes.
    pub fn limit(&self) -> u64
        ensures { result ≡ self.now.limit }
    {
        self.limit
    }

    /// The problem was called done.
    pub fn done(&self) -> bool
        ensures { result ≡ self.now.done }
    {
        self.done
    }

    /// Exhaustion was found.
    pub fn exhausted(&self) -> bool
        ensures { result ≡ self.now.exhausted }
    {
        self.exhausted
    }

    /// What the rank does, or `None` if it is not in the run (`rank_at`).
    pub fn rank(&self, rank: Rank) -> Option<&RankState>
        ensures { MatchOption result (rank_at self.now rank ≡ None) (λ r. rank_at self.now rank ≡ Some r.now) }
    {
        self.ranks.get(rank)
    }

    /// The unit of this id and its place, or `None` if none was accepted (`unit_of`).
    pub fn unit(&self, id: UnitId) -> Option<&Placed>
        ensures { MatchOption result (unit_of self.now id ≡ None) (λ u. unit_of self.now id ≡ Some u.now) }
    {
        self.units.get(id)
    }

    /// The common part of this batch, or `None` if none was kept (`part_of`).
    pub fn part(&self, batch: BatchId) -> Option<&Part>
        ensures { MatchOption result (part_of self.now batch ≡ None) (λ p. part_of self.now batch ≡ Some p.now) }
    {
        self.parts.get(batch)
    }

    /// The promise for the unit of this id, if one stands (`promise_of`).
    pub fn promise(&self, id: UnitId) -> Option<Promise>
        ensures { result ≡ promise_of self.now id }
    {
        self.promises.get(id)
    }

    /// The server is in the run (`is_server`).
    pub fn is_server(&self, server: Server) -> bool
        ensures { result ≡ is_server self.now server }
    {
        server.0 < self.servers
    }

    /// What the server's charge leaves of the room; `None` if the charge is more.
    pub fn left_of(&self, server: Server, room: u64) -> Option<u64>
        requires { IsServer self.now server }
        ensures { MatchOption result (room < charge self.now server) (λ left. left + charge self.now server ≡ room) }
    {
        let left = self.units.left_of(server, room)?;
        let left = self.parts.left_of(server, left)?;
        self.promises.left_of(server, left)
    }

    /// `n` bytes fit at the server (`fits`).
    pub fn fits(&self, server: Server, n: u64) -> bool
        requires { IsServer self.now server }
        ensures { result ≡ fits self.now server n }
    {
        match self.left_of(server, self.limit) {
            Some(left) => n <= left,
            None => false,
        }
    }

    /// This is the server's charge.
    pub fn is_charge(&self, server: Server, used: u64) -> bool
        requires { IsServer self.now server }
        ensures { result ≡ (used == charge self.now server) }
    {
        self.left_of(server, used) == Some(0)
    }

    /// Some common part is due to be freed (`has_due`).
    pub fn has_due(&self) -> bool
        ensures { result ≡ has_due self.now }
    {
        self.parts.has_due()
    }

    /// A unit free at the server is permitted to the rank with these types (`has_fit_at`).
    pub fn has_fit_at(&self, server: Server, rank: Rank, types: &Types) -> bool
        ensures { result ≡ has_fit_at self.now server rank types.now }
    {
        self.units.has_fit_at(server, rank, types)
    }

    /// What a count of the type at the server tells (`info_of`).
    pub fn info(&self, server: Server, kind: WorkType) -> Info
        ensures { result ≡ info_of self.now server kind }
    {
        self.units.info(server, kind)
    }

    // The rank asks, and a free unit is permitted to it.
    fn has_fit(&self, rank: Rank, r: &RankState) -> bool
        ensures { result ≡ has_fit self.now.units rank r.now.status }
    {
        match &r.status {
            Status::Asking { types, .. } => self.units.has_fit(rank, types),
            _ => false,
        }
    }

    // No rank has a fit.
    fn none_fits(&self) -> bool
        requires { length self.now.ranks ≤ 32 }
        ensures { result ≡ none_fits self.now.units 0 self.now.ranks }
    {
        let ranks = self.ranks.as_slice();
        for place in 0..ranks.len() {
            if self.has_fit(Rank(place as u32), &ranks[place]) {
                return false;
            }
        }
        true
    }

    // Each rank asks or has finished, some rank asks, no promise stands, and no unit travels.
    fn is_still(&self) -> bool
        ensures { result ≡ (list_all (λ r. is_asking_or_finished r.status) self.now.ranks && list_any (λ r. is_asking r.status) self.now.ranks && (length self.now.promises == 0) && not (list_any (λ u. is_travelling u.place) self.now.units)) }
    {
        self.ranks.each_asks_or_finished()
            && self.ranks.some_asks()
            && self.promises.is_empty()
            && !self.units.has_travelling()
    }

    /// Each rank asks or has finished, and nothing that is there or under way is for one that asks (`settled`).
    pub fn is_settled(&self) -> bool
        requires { length self.now.ranks ≤ 32 }
        ensures { result ≡ settled self.now }
    {
        self.is_still() && self.none_fits()
    }
}
