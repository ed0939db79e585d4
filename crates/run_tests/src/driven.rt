//! Runs that are driven at random, three of four with several servers, and each with one entry changed.

use crate::calls::Words;
use crate::changes::changed;
use crate::scripts::GoingRun;
use adlb_unit::{Config, End, Rank, UnitId};
use bag_ledger::Entry;
use core_world::World;
use ledger_checker::first_illegal;
use packed_ledger::{Entries, Ledger};
use std::alloc::Global;
use std::test::Fail;

/// How many runs.
const RUNS: u64 = 10000;

// The entries of the ledger are pushed, the one at this place changed.
fn push_changed(
    alloc: Global,
    other: &mut Ledger,
    ledger: &Ledger,
    place: u64,
) -> Result<(), Fail> {
    let mut entries = ledger.entries();
    for at in 0..ledger.len() {
        push_next(alloc, other, &mut entries, at == place)?;
    }
    Ok(())
}

// The next entry is pushed, changed or as it is.
fn push_next(
    alloc: Global,
    other: &mut Ledger,
    entries: &mut Entries,
    is_changed: bool,
) -> Result<(), Fail> {
    if let Some(entry) = entries.next(alloc)? {
        other.push(changed_if(entry, is_changed))?;
    }
    Ok(())
}

fn changed_if(entry: Entry, is_so: bool) -> Entry {
    if is_so { changed(entry) } else { entry }
}

// The numbers of the run of this number: up to six ranks and four servers, and limits that are soon reached.
fn config_of(number: u64) -> Result<Config, Fail> {
    let ranks = 1 + (number % 6) as u32;
    let servers = 1 + (number / 6 % 4) as u32;
    let limit = 64 + number / 3 % 4 * 45;
    match Config::new(ranks, servers, limit) {
        Ok(config) => Ok(config),
        Err(_) => Err("no configuration".into()),
    }
}

// Each of the first ranks, of this number, was told an end, and has finished.
fn all_have_finished(entries: &[Entry], ranks: u32) -> bool {
    for rank in 0..ranks {
        if !has_finished(entries, rank) {
            return false;
        }
    }
    true
}

fn has_finished(entries: &[Entry], number: u32) -> bool {
    let mut told = false;
    let mut finished = false;
    for entry in entries {
        told |= tells_of(entry, number);
        finished |= ends(entry, number);
    }
    told && finished
}

fn tells_of(entry: &Entry, number: u32) -> bool {
    match entry {
        Entry::Over { rank, .. } => rank.0 == number,
        _ => false,
    }
}

fn ends(entry: &Entry, number: u32) -> bool {
    match entry {
        Entry::Finished { rank, .. } => rank.0 == number,
        _ => false,
    }
}

// With the entry at this place changed, the ledger is illegal there.
fn shows(alloc: Global, ledger: &Ledger, config: &Config, place: u64) -> Result<bool, Fail> {
    let mut other = Ledger::new(alloc);
    push_changed(alloc, &mut other, ledger, place)?;
    Ok(first_illegal(alloc, &other, config) == Ok(Some(place)))
}

// The ledger is legal, and with one of its entries changed it is illegal at that place.
fn is_judged(alloc: Global, ledger: &Ledger, config: &Config, number: u64) -> Result<bool, Fail> {
    let place = Words::new(number.wrapping_add(RUNS)).place(ledger.len() as usize);
    Ok(
        first_illegal(alloc, ledger, config) == Ok(None)
            && shows(alloc, ledger, config, place as u64)?,
    )
}

// What some run has shown. A put that each server refused; a unit that went to a waiting rank as it came; a count of
// some unit. A look at one server after another; a try with several servers that was granted. A unit that another
// server had for a rank that reserved, and one that came there only after the rank had asked. A push that was taken
// back. In how many runs with several servers a unit moved, these found that all work is used up, the problem was
// done, and a common part was freed. How many entries all have.
#[derive(Debug, Default, Drop)]
struct Seen {
    rejects: bool,
    settles: bool,
    counts: bool,
    looks_on: bool,
    tries: bool,
    far: bool,
    hinted: bool,
    withdrawn: bool,
    moved: u32,
    found: u32,
    done: u32,
    freed: u32,
    entries: usize,
}

impl Seen {
    fn look(&mut self, entries: &[Entry], servers: u32) {
        self.entries = self.entries.saturating_add(entries.len());
        self.add(Kinds::of(entries), servers);
        self.look_at_pairs(entries);
        for entry in entries {
            self.look_at(entries, servers, entry);
        }
    }

    fn look_at_pairs(&mut self, entries: &[Entry]) {
        for pair in entries.windows(2) {
            self.settles |= is_settled(pair);
            self.looks_on |= is_look_on(pair);
        }
    }

    fn add(&mut self, kinds: Kinds, servers: u32) {
        self.rejects |= kinds.rejected;
        self.counts |= kinds.counted;
        self.withdrawn |= kinds.withdrawn;
        self.moved = more_if(self.moved, kinds.arrived);
        self.done = more_if(self.done, kinds.done);
        self.freed = more_if(self.freed, kinds.freed);
        self.found = more_if(self.found, kinds.exhausted && servers > 1);
    }

    // Of a grant: whether the unit was at the rank's home, and whether the rank had asked for it, before it came or after.
    fn look_at(&mut self, entries: &[Entry], servers: u32, entry: &Entry) {
        if let Entry::Granted {
            server,
            rank,
            call,
            id,
        } = entry
        {
            let asked = place_asked(entries, *rank, *call);
            let far = server.0 != rank.0 % servers.max(1);
            self.tries |= servers > 1 && asked.is_none();
            self.far |= far && asked.is_some();
            self.hinted |= far && asked.is_some() && asked < place_accepted(entries, *id);
        }
    }

    fn all(&self) -> bool {
        self.rejects
            && self.settles
            && self.counts
            && self.looks_on
            && self.tries
            && self.far
            && self.hinted
            && self.withdrawn
            && self.moved > 4000
            && self.found > 5000
            && self.done > 1500
            && self.freed > 6000
            && self.entries > 1000000
    }
}

// Which entries the ledger of a run has; of counts those of some unit.
#[derive(Clone, Copy, Default)]
struct Kinds {
    rejected: bool,
    counted: bool,
    withdrawn: bool,
    arrived: bool,
    done: bool,
    freed: bool,
    exhausted: bool,
}

impl Kinds {
    fn of(entries: &[Entry]) -> Kinds {
        let mut kinds = Kinds::default();
        for entry in entries {
            kinds.add(entry);
        }
        kinds
    }

    fn add(&mut self, entry: &Entry) {
        match entry {
            Entry::Rejected { .. } => self.rejected = true,
            Entry::Counted { info, .. } => self.counted |= info.free > 0,
            Entry::Withdrawn { .. } => self.withdrawn = true,
            Entry::Arrived { .. } => self.arrived = true,
            Entry::Done { .. } => self.done = true,
            Entry::Freed { .. } => self.freed = true,
            Entry::Exhausted => self.exhausted = true,
            _ => {}
        }
    }
}

// One more, if it is so.
fn more_if(count: u32, is_so: bool) -> u32 {
    if is_so {
        count.saturating_add(1)
    } else {
        count
    }
}

// The place of the entry by which the rank asks in this call.
fn place_asked(entries: &[Entry], by: Rank, number: u64) -> Option<usize> {
    for (at, entry) in entries.iter().enumerate() {
        if is_asked(entry, by, number) {
            return Some(at);
        }
    }
    None
}

fn is_asked(entry: &Entry, by: Rank, number: u64) -> bool {
    match entry {
        Entry::Asked { rank, call, .. } => *rank == by && *call == number,
        _ => false,
    }
}

// The place of the entry by which the unit comes.
fn place_accepted(entries: &[Entry], unit: UnitId) -> Option<usize> {
    for (at, entry) in entries.iter().enumerate() {
        if is_accepted(entry, unit) {
            return Some(at);
        }
    }
    None
}

fn is_accepted(entry: &Entry, unit: UnitId) -> bool {
    match entry {
        Entry::Accepted { id, .. } => *id == unit,
        _ => false,
    }
}

// The run of this number, noted in what was seen: its ledger is legal, one change shows, and each rank was told the end.
fn is_as_stated(alloc: Global, number: u64, seen: &mut Seen) -> Result<bool, Fail> {
    let config = config_of(number)?;
    let mut run = GoingRun {
        world: World::new(alloc, config)?,
        config,
    };
    is_told(alloc, &mut run, number, seen)
}

fn is_told(alloc: Global, run: &mut GoingRun, number: u64, seen: &mut Seen) -> Result<bool, Fail> {
    run.is_driven(alloc, number)?;
    let (ledger, config) = (run.world.ledger(), &run.config);
    Ok(have_finished(alloc, ledger, config, seen)? && is_judged(alloc, ledger, config, number)?)
}

fn have_finished(
    alloc: Global,
    ledger: &Ledger,
    config: &Config,
    seen: &mut Seen,
) -> Result<bool, Fail> {
    let entries = ledger.list(alloc)?;
    seen.look(&entries, config.servers);
    Ok(all_have_finished(&entries, config.ranks))
}

#[test]
fn driven_runs_are_legal_and_one_change_shows(rt: HostRuntime) -> Result<(), Fail> {
    let mut seen = Seen::default();
    for number in 0..RUNS {
        assert!(rt;
            is_as_stated(rt.alloc(), number, &mut seen)?,
            "run {number}"
        );
    }
    assert!(rt; seen.all(), "{seen:?}");
    Ok(())
}

// One server looked right after another in one call.
fn is_look_on(pair: &[Entry]) -> bool {
    match pair {
        [
            Entry::Looked { server, call, .. },
            Entry::Looked {
                server: next,
                call: same,
                ..
            },
        ] => server != next && call == same,
        _ => false,
    }
}

// The unit was granted right after its coming.
fn is_settled(pair: &[Entry]) -> bool {
    match pair {
        [Entry::Accepted { id, .. }, Entry::Granted { id: to, .. }] => id == to,
        _ => false,
    }
}
