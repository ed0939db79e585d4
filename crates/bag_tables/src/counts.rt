//! How many units are free, by what is asked of them.

ghost use Rattle.std.specs.Prelude.{◌≡◌, OnOk, OnErr, MatchOption, Some, None, []};
ghost use Rattle.std.specs.List.{list_any};
ghost use Rattle.bag_tables.specs.Counted.{AreHeld, AreShifted, AreTight, HasNoTop, HaveRoom, IsCounted, IsTold, IsTop, shows_fit, shows_fit_of};
ghost use Rattle.bag_tables.specs.Keys.{kind_of, only_of, prio_of, shelf_of, target_of};

use crate::tallies::Tally;
use adlb_unit::{Info, NoMemory, Rank, Server, Target, Types, Unit, WorkType};
use std::alloc::Global;
use std::cmp::Reverse;

// The one rank that the target lets have the unit; none if each rank may.
fn only_of(target: Target) -> Option<u32>
    ensures { result ≡ only_of target }
{
    match target {
        Target::Any | Target::Soft(_) => None,
        Target::Only(rank) => Some(rank.0),
    }
}

// The keys by which a unit is counted while it is free at the server.

fn shelf_of(server: Server, unit: &Unit) -> (u32, u32, Option<u32>)
    ensures { result ≡ shelf_of server unit.now }
{
    (server.0, unit.kind.0, only_of(unit.target))
}

fn target_of(server: Server, unit: &Unit) -> (u32, Option<u32>)
    ensures { result ≡ target_of server unit.now }
{
    (server.0, only_of(unit.target))
}

fn kind_of(server: Server, unit: &Unit) -> (u32, u32)
    ensures { result ≡ kind_of server unit.now }
{
    (server.0, unit.kind.0)
}

fn prio_of(server: Server, unit: &Unit) -> (u32, u32, Option<Reverse<i32>>)
    ensures { result ≡ prio_of server unit.now }
{
    (server.0, unit.kind.0, Some(Reverse(unit.prio)))
}

/// How many units are free: by server, type and target; by server and target; by server and type; by server, type and
/// priority. A target counts as the rank that alone may have the unit, or as `None` if each rank may, as with `Any` and `Soft`.
/// Priorities stand from the highest on, and before them stands `None`, from which a search of them begins.
pub struct FreeCounts {
    shelves: Tally<(u32, u32, Option<u32>)>,
    targets: Tally<(u32, Option<u32>)>,
    kinds: Tally<(u32, u32)>,
    prios: Tally<(u32, u32, Option<Reverse<i32>>)>,
}

// By hand, so that whoever holds the counts lets them go by one call, and does not look at four trees.
impl Drop for FreeCounts {
    fn drop(self) {
        let FreeCounts {
            shelves,
            targets,
            kinds,
            prios,
        } = self;
    }
}

impl FreeCounts {
    pub(crate) fn new(alloc: Global) -> FreeCounts
        ensures { IsCounted result [] }
    {
        FreeCounts {
            shelves: Tally::new(alloc),
            targets: Tally::new(alloc),
            kinds: Tally::new(alloc),
            prios: Tally::new(alloc),
        }
    }

    // One unit more is free at the server.
    pub(crate) fn raise(&mut self, server: Server, unit: &Unit) -> Result<(), NoMemory>
        requires tight { AreTight self.old }
        requires room { HaveRoom self.old }
        ensures raised { OnOk result (AreShifted self.old self.new None (Some server) unit.now) }
        ensures kept { OnErr result (AreShifted self.old self.new None None unit.now) }
    {
        let shelf = shelf_of(server, unit);
        let target = target_of(server, unit);
        let kind = kind_of(server, unit);
        self.shelves.raise(shelf)?;
        if let Err(fault) = self.targets.raise(target) {
            self.shelves.lower(shelf);
            return Err(fault);
        }
        if let Err(fault) = self.kinds.raise(kind) {
            self.shelves.lower(shelf);
            self.targets.lower(target);
            return Err(fault);
        }
        if let Err(fault) = self.prios.raise(prio_of(server, unit)) {
            self.shelves.lower(shelf);
            self.targets.lower(target);
            self.kinds.lower(kind);
            return Err(fault);
        }
        Ok(())
    }

    // One unit less is free at the server.
    pub(crate) fn lower(&mut self, server: Server, unit: &Unit)
        requires tight { AreTight self.old }
        requires held { AreHeld self.old (Some server) unit.now }
        ensures { AreShifted self.old self.new (Some server) None unit.now }
    {
        self.shelves.lower(shelf_of(server, unit));
        self.targets.lower(target_of(server, unit));
        self.kinds.lower(kind_of(server, unit));
        self.prios.lower(prio_of(server, unit));
    }

    // Moves a free unit from one server to another; `None` is no server.
    pub(crate) fn shift(
        &mut self,
        from: Option<Server>,
        to: Option<Server>,
        unit: &Unit,
    ) -> Result<(), NoMemory>
        requires tight { AreTight self.old }
        requires held { AreHeld self.old from unit.now }
        requires room { HaveRoom self.old }
        ensures shifted { OnOk result (AreShifted self.old self.new from to unit.now) }
        ensures kept { OnErr result (AreShifted self.old self.new None None unit.now) }
    {
        if let Some(server) = to {
            self.raise(server, unit)?;
        }
        if let Some(server) = from {
            self.lower(server, unit);
        }
        Ok(())
    }

    // Some unit of the type for any rank or for this one is free at the server.
    fn has_fit_of(&self, server: Server, rank: Rank, kind: WorkType) -> bool
        ensures { result ≡ shows_fit_of self.now server rank kind }
    {
        self.shelves.count((server.0, kind.0, None)) > 0
            || self.shelves.count((server.0, kind.0, Some(rank.0))) > 0
    }

    // Some unit of one of these types, for any rank or for this one, is free at the server.
    fn has_fit_among(&self, server: Server, rank: Rank, kinds: &[WorkType]) -> bool
        ensures { result ≡ list_any (shows_fit_of self.now server rank) kinds.now }
    {
        kinds
            .iter()
            .any(|kind| self.has_fit_of(server, rank, *kind))
    }

    // Some unit that is permitted to the rank with these types is free at the server.
    pub(crate) fn has_fit(&self, server: Server, rank: Rank, types: &Types) -> bool
        ensures { result ≡ shows_fit self.now server rank types.now }
    {
        match types.kinds() {
            None => {
                self.targets.count((server.0, None)) > 0
                    || self.targets.count((server.0, Some(rank.0))) > 0
            }
            Some(kinds) => self.has_fit_among(server, rank, kinds),
        }
    }

    // The highest priority of a unit of the type that is free at the server, and how many have it.
    fn top(&self, server: Server, kind: WorkType) -> Option<(i32, u64)>
        requires { AreTight self.now }
        ensures { MatchOption result (HasNoTop self.now server kind) (IsTop self.now server kind) }
    {
        let Some(((at, of, prio), n)) = self.prios.first_after((server.0, kind.0, None)) else {
            return None;
        };
        if at != server.0 || of != kind.0 {
            return None;
        }
        match prio {
            Some(Reverse(top)) => Some((top, n)),
            None => None,
        }
    }

    // What the counts say of the units of the type that are free at the server.
    pub(crate) fn info(&self, server: Server, kind: WorkType) -> Info
        requires { AreTight self.now }
        ensures { IsTold self.now server kind result }
    {
        let free = self.kinds.count((server.0, kind.0));
        match self.top(server, kind) {
            None => Info {
                free,
                top: None,
                at_top: 0,
            },
            Some((top, at_top)) => Info {
                free,
                top: Some(top),
                at_top,
            },
        }
    }
}
