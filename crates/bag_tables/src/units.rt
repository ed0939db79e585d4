//! The accepted units.

ghost use Rattle.std.specs.Prelude.{◌≡◌, ◌==◌, ◌&&◌, ◌+◌, ◌<◌, ◌++◌, ◌∷◌, [], IfOk, OnOk, OnErr, MatchOption, None, Some, length, map, filter, find, sum_by};
ghost use Rattle.std.specs.List.{list_any};
ghost use Rattle.adlb_unit.specs.Infos.{info_of_prios};
ghost use Rattle.adlb_unit.specs.Ids.{same_unit};
ghost use Rattle.adlb_unit.specs.Permit.{permitted};
ghost use Rattle.bag_ledger.specs.Bag.{unit_charge, is_free, is_free_at, is_travelling};
ghost use Rattle.bag_ledger.specs.Steps.{change_at, change_first};
ghost use Rattle.bag_ledger.specs.declared.states.Placed.{Placed};
ghost use Rattle.bag_ledger.specs.declared.states.UnitPlace.TheVariants.{Free};
ghost use Rattle.bag_tables.specs.Charges.{IsSummed};
ghost use Rattle.bag_tables.specs.Counted.{IsCounted};
ghost use Rattle.bag_tables.specs.Found.{IsAbsent, IsFoundAt};
ghost use Rattle.bag_tables.specs.Keeping.{held_at, unit_weight, unit_size};
ghost use Rattle.bag_tables.specs.Keys.{free_server};

use crate::charges::{Charges, left_of};
use crate::counts::FreeCounts;
use crate::places::Places;
use crate::reading::{is_free, is_travelling};
use adlb_unit::{Info, NoMemory, Rank, Server, Types, Unit, UnitId, WorkType, permits};
use bag_ledger::{Placed, UnitPlace};
use std::alloc::Global;
use std::marker::Model;

/// The accepted units, in order, seen as their list. A unit is found by its id, a server's charge is a sum that is kept, and
/// the free units are counted by what is asked of them.
pub struct Units {
    held: Vec<Placed>,
    places: Places,
    charges: Charges,
    free: FreeCounts,
}

// By hand, so that whoever holds the units lets them go by one call.
impl Drop for Units {
    fn drop(self) {
        let Units {
            held,
            places,
            charges,
            free,
        } = self;
    }
}

impl Model for Units {
    ghost use Rattle.std.specs.Prelude.{List};
    ghost use Rattle.bag_ledger.specs.declared.states.Placed.{Placed};

    ghost Value = { List Placed };

    ghost use Rattle.bag_tables.specs.Keeping.{UnitsAreKept};

    ghost view = { λ u. u.held.items };

    ghost invariant = { λ u. UnitsAreKept u.places u.charges u.free u.held.items };
}

impl Units {
    /// No unit.
    pub fn new(alloc: Global) -> Units
        ensures { result ≡ [] }
    {
        Units {
            held: Vec::new(alloc),
            places: Places::new(alloc),
            charges: Charges::new(),
            free: FreeCounts::new(alloc),
        }
    }

    // The place of the unit.
    fn place_of(&self, id: UnitId) -> Option<usize>
        ensures { MatchOption result (IsAbsent (λ u. same_unit u.unit.id id) self.now) (λ place. IsFoundAt (λ u. same_unit u.unit.id id) self.now place) }
    {
        self.places.get(id.rank.0, id.number)
    }

    /// The unit of this id, if it was accepted.
    pub fn get(&self, id: UnitId) -> Option<&Placed>
        ensures { MatchOption result (find (λ u. same_unit u.unit.id id) self.now ≡ None) (λ u. find (λ u. same_unit u.unit.id id) self.now ≡ Some u.now) }
    {
        match self.place_of(id) {
            Some(at) => Some(&self.held[at]),
            None => None,
        }
    }

    /// One unit more, free at the server. Its only error is `NoMemory`.
    pub fn add(&mut self, unit: Unit, server: Server) -> Result<(), NoMemory>
        ensures { IfOk result (λ _. self.new ≡ self.old ++ record { unit = unit; place = Free server } ∷ []) }
    {
        let id = unit.id;
        let at = self.held.len();
        let n = unit.body.len() as u64;
        if self.held.reserve(1).is_err() {
            return Err(NoMemory);
        }
        self.free.raise(server, &unit)?;
        if let Err(fault) = self.places.note(id.rank.0, id.number, at) {
            self.free.lower(server, &unit);
            return Err(fault);
        }
        self.charges.shift(None, Some(server), n);
        let place = UnitPlace::Free(server);
        self.held.push_reserved(Placed { unit, place });
        Ok(())
    }

    /// The unit of this id, if it was accepted, is at this place now. Its only error is `NoMemory`.
    pub fn move_to(&mut self, id: UnitId, place: UnitPlace) -> Result<(), NoMemory>
        ensures { OnOk result (self.new ≡ change_first (λ u. record u { place = place }) (λ u. same_unit u.unit.id id) self.old) }
    {
        match self.place_of(id) {
            Some(at) => { move_at(&mut self.held, &mut self.charges, &mut self.free, at, place) }
            None => Ok(()),
        }
    }

    /// What is left of the room below the bodies of the units free or pinned at the server, which is one of the 8 that a run
    /// has at most.
    pub fn left_of(&self, server: Server, room: u64) -> Option<u64>
        requires { server.0 < 8 }
        ensures { MatchOption result (room < sum_by (unit_charge server) self.now) (λ left. left + sum_by (unit_charge server) self.now ≡ room) }
    {
        left_of(&self.charges, server, room)
    }

    /// A unit free at the server is permitted to the rank with these types. It looks up two counts for each type that is listed,
    /// or two where any is wanted.
    pub fn has_fit_at(&self, server: Server, rank: Rank, types: &Types) -> bool
        ensures { result ≡ list_any (λ u. is_free_at server u.place && permitted rank types.now u.unit.kind u.unit.target) self.now }
    {
        self.free.has_fit(server, rank, types)
    }

    /// A free unit is permitted to the rank with these types. It looks at each unit.
    pub fn has_fit(&self, rank: Rank, types: &Types) -> bool
        ensures { result ≡ list_any (λ u. is_free u.place && permitted rank types.now u.unit.kind u.unit.target) self.now }
    {
        self.held.iter().any(|u| is_free(u.place)
            && permits(rank, types, u.unit.kind, u.unit.target))
    }

    /// A unit travels. It looks at each unit.
    pub fn has_travelling(&self) -> bool
        ensures { result ≡ list_any (λ u. is_travelling u.place) self.now }
    {
        self.held.iter().any(|u| is_travelling(u.place))
    }

    /// What a count of the units of the type that are free at the server tells. It looks up one count, and searches for the
    /// highest priority once.
    pub fn info(&self, server: Server, kind: WorkType) -> Info
        ensures { result ≡ info_of_prios (map (λ u. u.unit.prio) (filter (λ u. is_free_at server u.place && (u.unit.kind.0 == kind.0)) self.now)) }
    {
        self.free.info(server, kind)
    }
}

// The server that is charged with a unit at this place.
fn held_at(place: UnitPlace) -> Option<Server>
    ensures { result ≡ held_at place }
{
    match place {
        UnitPlace::Free(server) => Some(server),
        UnitPlace::Pinned(server, _) => Some(server),
        _ => None,
    }
}

// The server at which a unit at this place is free.
fn free_server(place: UnitPlace) -> Option<Server>
    ensures { result ≡ free_server place }
{
    match place {
        UnitPlace::Free(server) => Some(server),
        _ => None,
    }
}

// The unit here is at this place now.
fn put_at(units: &mut Vec<Placed>, at: usize, place: UnitPlace)
    requires { at < length units.old.items }
    ensures { units.new.items ≡ change_at (λ u. record u { place = place }) at units.old.items }
{
    let unit = &mut units[at];
    unit.place = place;
}

// The unit here is at this place now, and the charges and the counts say so.
fn move_at(
    units: &mut Vec<Placed>,
    charges: &mut Charges,
    free: &mut FreeCounts,
    at: usize,
    place: UnitPlace,
) -> Result<(), NoMemory>
    requires inside { at < length units.old.items }
    requires charged { IsSummed unit_weight unit_size charges.old units.old.items }
    requires counted { IsCounted free.old units.old.items }
    ensures moved { OnOk result (units.new.items ≡ change_at (λ u. record u { place = place }) at units.old.items) }
    ensures kept { OnErr result (units.new.items ≡ units.old.items) }
    ensures charged { IsSummed unit_weight unit_size charges.new units.new.items }
    ensures counted { IsCounted free.new units.new.items }
{
    let unit = &units[at];
    let n = unit.unit.body.len() as u64;
    let from = unit.place;
    let old_server = free_server(from);
    let new_server = free_server(place);
    free.shift(old_server, new_server, &unit.unit)?;
    charges.shift(held_at(from), held_at(place), n);
    put_at(units, at, place);
    Ok(())
}
