//! Small ledgers, and ledgers that differ from them in one entry, each with the place where it is illegal first.

use adlb_unit::{
    BatchId, Config, End, Info, NoMemory, Payload, Rank, Server, Target, Types, UnitId, WorkType,
};
use bag_ledger::Entry;
use ledger_checker::first_illegal;
use packed_ledger::Ledger;
use std::alloc::Global;
use std::test::Fail;

// A unit, by the rank that put it and the number of its put.
type Unit = (u32, u64);

// An entry of a small ledger, in constant numbers: servers and ranks, then calls, units and what is said of them. The type
// that a rank wants is any, or this one. The only batch is the first of rank 0.
#[derive(Clone, Copy)]
enum Row {
    // A unit of type 1 with these bytes, for any rank.
    Putting(u32, u64, &'static [u8]),
    // An empty unit of rank 0, of this type and target.
    PuttingFor(u64, u32, Target),
    Refused(u32, Unit, u64),
    Accepted(u32, Unit),
    Rejected(u32, u64),
    Asked(u32, u64, Option<u32>),
    Tried(u32, u64, Option<u32>),
    Granted(u32, u32, u64, Unit),
    Looked(u32, u32, u64),
    NoCurrent(u32, u64),
    Fetching(u32, u64, Unit),
    Fetched(u32, u32, Unit),
    Promised(u32, Unit, u32),
    Left(u32, u32, Unit),
    Arrived(u32, Unit),
    Withdrawn(u32, Unit),
    // Rank 0 begins the batch by the call of this number, and closes it by this one.
    Keeping(u64),
    Kept,
    Closing(u64),
    Closed,
    CommonFetched(u32),
    Freed,
    // Rank 0 counts type 1 in its third call, and is said of two free units with this priority.
    Counting,
    Counted(i32),
    Done(u32, u64),
    Exhausted,
    Over(u32, u64, End),
    Finished(u32, u64),
}

use Row::{
    Accepted, Arrived, Asked, Closed, Closing, CommonFetched, Counted, Counting, Done, Exhausted,
    Fetched, Fetching, Finished, Freed, Granted, Keeping, Kept, Left, Looked, NoCurrent, Over,
    Promised, Putting, PuttingFor, Refused, Rejected, Tried, Withdrawn,
};

// What is done at a place of the ledger.
#[derive(Clone, Copy)]
enum Edit {
    Keep,
    Remove,
    Set(Row),
    Insert(Row),
}

use Edit::{Insert, Remove, Set};

const BATCH: BatchId = BatchId {
    rank: Rank(0),
    number: 0,
};

fn id((rank, number): Unit) -> UnitId {
    UnitId {
        rank: Rank(rank),
        number,
    }
}

// Any type, or this one alone.
fn types(kind: Option<u32>) -> Types {
    match kind {
        Some(kind) => Types::list(&[WorkType(kind)]).unwrap_or(Types::any()),
        None => Types::any(),
    }
}

fn put(
    alloc: Global,
    (rank, call): (u32, u64),
    kind: u32,
    target: Target,
    bytes: &[u8],
) -> Result<Entry, NoMemory> {
    let body = Payload::copy(alloc, bytes)?;
    Ok(Entry::Putting {
        rank: Rank(rank),
        call,
        kind: WorkType(kind),
        prio: 0,
        target,
        answer: None,
        body,
    })
}

fn keeping(alloc: Global, call: u64) -> Result<Entry, NoMemory> {
    let common = Payload::copy(alloc, b"xy")?;
    Ok(Entry::Keeping {
        rank: Rank(0),
        call,
        common,
    })
}

// The entry of a row.
fn entry(alloc: Global, row: Row) -> Result<Entry, NoMemory> {
    match row {
        Putting(rank, call, bytes) => put(alloc, (rank, call), 1, Target::Any, bytes),
        PuttingFor(call, kind, target) => put(alloc, (0, call), kind, target, b""),
        Keeping(call) => keeping(alloc, call),
        plain => Ok(plain_entry(plain)),
    }
}

// The entry of a row about a unit that a server takes, grants or gives.
fn plain_entry(row: Row) -> Entry {
    match row {
        Refused(server, unit, used) => Entry::Refused {
            server: Server(server),
            id: id(unit),
            used,
        },
        Accepted(server, unit) => Entry::Accepted {
            server: Server(server),
            id: id(unit),
        },
        Granted(server, rank, call, unit) => Entry::Granted {
            server: Server(server),
            rank: Rank(rank),
            call,
            id: id(unit),
        },
        Fetching(rank, call, unit) => Entry::Fetching {
            rank: Rank(rank),
            call,
            id: id(unit),
        },
        Fetched(server, rank, unit) => Entry::Fetched {
            server: Server(server),
            rank: Rank(rank),
            id: id(unit),
        },
        moving => moving_entry(moving),
    }
}

// The entry of a row about a unit that moves to another server.
fn moving_entry(row: Row) -> Entry {
    match row {
        Promised(server, unit, length) => Entry::Promised {
            server: Server(server),
            id: id(unit),
            length,
        },
        Left(server, to, unit) => Entry::Left {
            server: Server(server),
            to: Server(to),
            id: id(unit),
        },
        Arrived(server, unit) => Entry::Arrived {
            server: Server(server),
            id: id(unit),
        },
        Withdrawn(server, unit) => Entry::Withdrawn {
            server: Server(server),
            id: id(unit),
        },
        batch => batch_entry(batch),
    }
}

// The entry of a row about the batch.
fn batch_entry(row: Row) -> Entry {
    let (server, rank) = (Server(0), Rank(0));
    match row {
        Kept => Entry::Kept {
            server,
            batch: BATCH,
        },
        Closing(call) => Entry::Closing { rank, call },
        Closed => Entry::Closed {
            server,
            batch: BATCH,
        },
        CommonFetched(server) => Entry::CommonFetched {
            server: Server(server),
            rank,
            batch: BATCH,
        },
        Freed => Entry::Freed {
            server,
            batch: BATCH,
        },
        Counting => Entry::Counting {
            rank,
            call: 3,
            kind: WorkType(1),
        },
        Counted(top) => Entry::Counted {
            server,
            rank,
            call: 3,
            info: Info {
                free: 2,
                top: Some(top),
                at_top: 2,
            },
        },
        call => call_entry(call),
    }
}

// The entry of a row about a call and how it ends; there is one other, of no numbers.
fn call_entry(row: Row) -> Entry {
    match row {
        Rejected(rank, call) => Entry::Rejected {
            rank: Rank(rank),
            call,
        },
        Asked(rank, call, kind) => Entry::Asked {
            rank: Rank(rank),
            call,
            types: types(kind),
        },
        Tried(rank, call, kind) => Entry::Tried {
            rank: Rank(rank),
            call,
            types: types(kind),
        },
        Looked(server, rank, call) => Entry::Looked {
            server: Server(server),
            rank: Rank(rank),
            call,
        },
        NoCurrent(rank, call) => Entry::NoCurrent {
            rank: Rank(rank),
            call,
        },
        Done(rank, call) => Entry::Done {
            rank: Rank(rank),
            call,
        },
        Over(rank, call, end) => Entry::Over {
            rank: Rank(rank),
            call,
            end,
        },
        Finished(rank, call) => Entry::Finished {
            rank: Rank(rank),
            call,
        },
        _ => Entry::Exhausted,
    }
}

// A ledger that is written with one edit.
#[derive(Drop)]
struct Writer {
    alloc: Global,
    ledger: Ledger,
    at: u64,
    place: u64,
    edit: Edit,
}

impl Writer {
    fn push(&mut self, row: Row) -> Result<(), NoMemory> {
        let entry = entry(self.alloc, row)?;
        self.ledger.push(entry)
    }

    fn write(&mut self, row: Row) -> Result<(), NoMemory> {
        let at = self.at;
        self.at = at.saturating_add(1);
        if at != self.place {
            return self.push(row);
        }
        match self.edit {
            Edit::Keep => self.push(row),
            Remove => Ok(()),
            Set(other) => self.push(other),
            Insert(other) => {
                self.push(other)?;
                self.push(row)
            }
        }
    }

    fn write_all(&mut self, rows: &[Row]) -> Result<(), NoMemory> {
        for row in rows {
            self.write(*row)?;
        }
        Ok(())
    }

    // What is to be inserted after the last row.
    fn end(&mut self) -> Result<(), NoMemory> {
        match self.edit {
            Insert(other) if self.at <= self.place => self.push(other),
            _ => Ok(()),
        }
    }

    fn write_base(&mut self, base: Base) -> Result<(), NoMemory> {
        match base {
            Base::Long => self.write_long()?,
            _ => self.write_all(rows(base))?,
        }
        self.end()
    }

    // Rank 0 puts units at two servers, rank 1 gets them all, and then nothing is left to do.
    fn write_long(&mut self) -> Result<(), NoMemory> {
        for call in 0..UNITS {
            self.write_put(call, (call % 2) as u32)?;
        }
        for call in 0..UNITS {
            self.write_work(call, (call % 2) as u32)?;
        }
        self.write_all(LONG_END)
    }

    // The unit of this number is put at this server.
    fn write_put(&mut self, call: u64, server: u32) -> Result<(), NoMemory> {
        self.write_all(&[Putting(0, call, b"x"), Accepted(server, (0, call))])
    }

    // Rank 1 gets it.
    fn write_work(&mut self, call: u64, server: u32) -> Result<(), NoMemory> {
        let asked = call.saturating_mul(2);
        self.write_all(&[
            Asked(1, asked, None),
            Granted(server, 1, asked, (0, call)),
            Fetching(1, asked.saturating_add(1), (0, call)),
            Fetched(server, 1, (0, call)),
        ])
    }
}

// The small ledgers, each with the numbers of its run.
#[derive(Clone, Copy)]
enum Base {
    FullServers,
    GotElsewhere,
    Pushed,
    PushedWithRoom,
    Tries,
    GrantedOnce,
    BatchOfTwo,
    BatchOnTwo,
    DoneCalled,
    CancelledPush,
    Shelves,
    SoftTargets,
    PushedBack,
    Long,
}

const ROOM: u64 = 67108864;

fn numbers(base: Base) -> (u32, u32, u64) {
    match base {
        Base::FullServers => (1, 3, 64),
        Base::GotElsewhere => (2, 2, ROOM),
        Base::Pushed => (2, 2, 64),
        Base::PushedWithRoom => (2, 2, ROOM),
        Base::Tries => (1, 3, ROOM),
        Base::GrantedOnce => (2, 1, 64),
        Base::BatchOfTwo => (1, 1, ROOM),
        Base::BatchOnTwo => (1, 2, ROOM),
        Base::DoneCalled => (2, 2, ROOM),
        Base::CancelledPush => (2, 2, 64),
        Base::Shelves => (3, 2, ROOM),
        Base::SoftTargets => (3, 2, ROOM),
        Base::PushedBack => (2, 2, 64),
        Base::Long => (2, 2, ROOM),
    }
}

// The rows of a ledger; of the long one those after its units.
fn rows(base: Base) -> &'static [Row] {
    match base {
        Base::FullServers => FULL_SERVERS,
        Base::GotElsewhere => GOT_ELSEWHERE,
        Base::Pushed | Base::PushedWithRoom => PUSHED,
        Base::Tries => TRIES,
        Base::GrantedOnce => GRANTED_ONCE,
        Base::BatchOfTwo | Base::BatchOnTwo => BATCH_OF_TWO,
        Base::DoneCalled => DONE_CALLED,
        Base::CancelledPush => CANCELLED_PUSH,
        Base::Shelves => SHELVES,
        Base::SoftTargets => SOFT_TARGETS,
        Base::PushedBack => PUSHED_BACK,
        Base::Long => LONG_END,
    }
}

// One rank fills three servers, and the next unit is rejected.
const FULL_SERVERS: &[Row] = &[
    Putting(0, 0, &[0; 56]),
    Accepted(0, (0, 0)),
    Putting(0, 1, &[0; 56]),
    Accepted(1, (0, 1)),
    Putting(0, 2, &[0; 56]),
    Accepted(2, (0, 2)),
    Putting(0, 3, &[0; 9]),
    Refused(0, (0, 3), 56),
    Refused(1, (0, 3), 56),
    Refused(2, (0, 3), 56),
    Rejected(0, 3),
];

// Rank 1 gets the unit that rank 0 puts at another server, and rank 0 tries in vain.
const GOT_ELSEWHERE: &[Row] = &[
    Asked(1, 0, None),
    Putting(0, 0, b"hello"),
    Accepted(0, (0, 0)),
    Granted(0, 1, 0, (0, 0)),
    Tried(0, 1, None),
    Looked(0, 0, 1),
    Looked(1, 0, 1),
    NoCurrent(0, 1),
];

// A unit is pushed while both ranks ask for another type, and then nothing is left to do.
const PUSHED: &[Row] = &[
    Asked(0, 0, Some(2)),
    Putting(1, 0, &[0; 60]),
    Accepted(1, (1, 0)),
    Asked(1, 1, Some(2)),
    Promised(0, (1, 0), 60),
    Left(1, 0, (1, 0)),
    Arrived(0, (1, 0)),
    Exhausted,
    Over(0, 0, End::Exhausted),
    Over(1, 1, End::Exhausted),
];

// Three servers have nothing; after the problem is done a try and a put are told so.
const TRIES: &[Row] = &[
    Tried(0, 0, None),
    Looked(0, 0, 0),
    Looked(1, 0, 0),
    Looked(2, 0, 0),
    NoCurrent(0, 0),
    Done(0, 1),
    Tried(0, 2, None),
    Over(0, 2, End::NoMoreWork),
    Putting(0, 3, b""),
    Over(0, 3, End::NoMoreWork),
];

// A unit is granted to rank 0, and rank 1 asks.
const GRANTED_ONCE: &[Row] = &[
    Putting(0, 0, b"ab"),
    Accepted(0, (0, 0)),
    Asked(0, 1, None),
    Granted(0, 0, 1, (0, 0)),
    Asked(1, 0, None),
];

// A batch of two units, counted and fetched.
const BATCH_OF_TWO: &[Row] = &[
    Keeping(0),
    Kept,
    Putting(0, 1, b"a"),
    Accepted(0, (0, 1)),
    Putting(0, 2, b"b"),
    Accepted(0, (0, 2)),
    Counting,
    Counted(0),
    Closing(4),
    Closed,
    Asked(0, 5, None),
    Granted(0, 0, 5, (0, 1)),
    Fetching(0, 6, (0, 1)),
    Fetched(0, 0, (0, 1)),
    CommonFetched(0),
    Asked(0, 7, None),
    Granted(0, 0, 7, (0, 2)),
    Fetching(0, 8, (0, 2)),
    Fetched(0, 0, (0, 2)),
    CommonFetched(0),
    Freed,
];

// Rank 0 calls the problem done, and all are told so.
const DONE_CALLED: &[Row] = &[
    Asked(1, 0, None),
    Done(0, 0),
    Over(1, 0, End::NoMoreWork),
    Putting(0, 1, b""),
    Over(0, 1, End::NoMoreWork),
    Asked(0, 2, None),
    Over(0, 2, End::NoMoreWork),
];

// A unit is granted where it is while another server has promised room for it.
const CANCELLED_PUSH: &[Row] = &[
    Putting(0, 0, &[0; 60]),
    Accepted(0, (0, 0)),
    Promised(1, (0, 0), 60),
    Asked(0, 1, None),
    Granted(0, 0, 1, (0, 0)),
    Withdrawn(1, (0, 0)),
    Putting(1, 0, &[0; 65]),
    Refused(1, (1, 0), 0),
    Refused(0, (1, 0), 60),
    Rejected(1, 0),
];

// A unit for rank 1 alone and one of another type are looked past, and then granted.
const SHELVES: &[Row] = &[
    PuttingFor(0, 1, Target::Only(Rank(1))),
    Accepted(0, (0, 0)),
    PuttingFor(1, 2, Target::Any),
    Accepted(0, (0, 1)),
    Tried(0, 2, Some(1)),
    Looked(0, 0, 2),
    Looked(1, 0, 2),
    NoCurrent(0, 2),
    Tried(1, 0, Some(1)),
    Granted(0, 1, 0, (0, 0)),
    Tried(2, 0, Some(1)),
    Looked(0, 2, 0),
    Looked(1, 2, 0),
    NoCurrent(2, 0),
    Tried(2, 1, None),
    Granted(0, 2, 1, (0, 1)),
    Tried(1, 1, None),
    Looked(0, 1, 1),
];

// Of two units for rank 1 before others, rank 2 gets the first, and rank 0 looks for another type and then for any.
const SOFT_TARGETS: &[Row] = &[
    PuttingFor(0, 1, Target::Soft(Rank(1))),
    Accepted(0, (0, 0)),
    Tried(2, 0, Some(1)),
    Granted(0, 2, 0, (0, 0)),
    PuttingFor(1, 1, Target::Soft(Rank(1))),
    Accepted(0, (0, 1)),
    Tried(0, 2, Some(2)),
    Looked(0, 0, 2),
    Looked(1, 0, 2),
    NoCurrent(0, 2),
    Tried(1, 0, None),
    Granted(0, 1, 0, (0, 1)),
    Tried(0, 3, None),
    Looked(0, 0, 3),
    Looked(1, 0, 3),
    NoCurrent(0, 3),
];

// A unit is promised, withdrawn, promised again, pushed, and pushed back.
const PUSHED_BACK: &[Row] = &[
    Putting(0, 0, &[0; 60]),
    Accepted(0, (0, 0)),
    Promised(1, (0, 0), 60),
    Withdrawn(1, (0, 0)),
    Promised(1, (0, 0), 60),
    Left(0, 1, (0, 0)),
    Arrived(1, (0, 0)),
    Promised(0, (0, 0), 60),
    Left(1, 0, (0, 0)),
    Arrived(0, (0, 0)),
    Asked(0, 1, None),
    Granted(0, 0, 1, (0, 0)),
    Putting(1, 0, &[0; 65]),
    Refused(1, (1, 0), 0),
    Refused(0, (1, 0), 60),
    Rejected(1, 0),
];

const UNITS: u64 = 2000;

// How the long ledger ends: both ranks ask in vain, and finish.
const LONG_END: &[Row] = &[
    Asked(0, UNITS, None),
    Asked(1, 2 * UNITS, None),
    Exhausted,
    Over(0, UNITS, End::Exhausted),
    Over(1, 2 * UNITS, End::Exhausted),
    Finished(0, UNITS + 1),
    Finished(1, 2 * UNITS + 1),
];

// Where the ledger with this edit is illegal first.
fn found(alloc: Global, base: Base, place: u64, edit: Edit) -> Result<Option<u64>, Fail> {
    let mut writer = Writer {
        alloc,
        ledger: Ledger::new(alloc),
        at: 0,
        place,
        edit,
    };
    writer.write_base(base)?;
    judged(alloc, &writer.ledger, base)
}

// Where the ledger is illegal first in the run of this base.
fn judged(alloc: Global, ledger: &Ledger, base: Base) -> Result<Option<u64>, Fail> {
    let (ranks, servers, limit) = numbers(base);
    let config = Config::new(ranks, servers, limit)?;
    Ok(first_illegal(alloc, ledger, &config)?)
}

// A ledger, the place of the edit and the edit, and the place where the ledger is then illegal first.
type Mutant = (Base, u64, Edit, u64);

// Which of the mutants is illegal first at another place than it states, if one is.
fn other(alloc: Global, mutants: &[Mutant]) -> Result<Option<usize>, Fail> {
    for (at, mutant) in mutants.iter().enumerate() {
        if !is_found(alloc, mutant)? {
            return Ok(Some(at));
        }
    }
    Ok(None)
}

fn is_found(alloc: Global, (base, place, edit, first): &Mutant) -> Result<bool, Fail> {
    Ok(found(alloc, *base, *place, *edit)? == Some(*first))
}

const BASES: &[Base] = &[
    Base::FullServers,
    Base::GotElsewhere,
    Base::Pushed,
    Base::Tries,
    Base::GrantedOnce,
    Base::BatchOfTwo,
    Base::DoneCalled,
    Base::CancelledPush,
    Base::Shelves,
    Base::SoftTargets,
    Base::PushedBack,
    Base::Long,
];

#[test]
fn small_ledgers_are_legal(rt: HostRuntime) -> Result<(), Fail> {
    for (at, base) in BASES.iter().enumerate() {
        let found = found(rt.alloc(), *base, 0, Edit::Keep)?;
        assert!(rt; found.is_none(), "ledger {at}");
    }
    Ok(())
}

// A grant twice; for another target; for another type; by another server; in another call.
const GRANTS: &[Mutant] = &[
    (Base::GrantedOnce, 5, Insert(Granted(0, 1, 0, (0, 0))), 5),
    (
        Base::GotElsewhere,
        1,
        Set(PuttingFor(0, 1, Target::Only(Rank(0)))),
        3,
    ),
    (Base::GotElsewhere, 0, Set(Asked(1, 0, Some(2))), 3),
    (Base::GotElsewhere, 3, Set(Granted(1, 1, 0, (0, 0))), 3),
    (Base::GotElsewhere, 3, Set(Granted(0, 1, 1, (0, 0))), 3),
];

// No refusal; one twice; one by another charge; a unit that fits; one that is too long.
const PUTS: &[Mutant] = &[
    (Base::FullServers, 8, Remove, 9),
    (Base::FullServers, 8, Set(Refused(0, (0, 3), 56)), 8),
    (Base::FullServers, 8, Set(Refused(1, (0, 3), 57)), 8),
    (Base::FullServers, 6, Set(Putting(0, 3, &[0; 8])), 7),
    (Base::FullServers, 7, Set(Accepted(0, (0, 3))), 7),
];

const IN_VAIN: &[Mutant] = &[
    (Base::GotElsewhere, 5, Remove, 6),
    (Base::GotElsewhere, 3, Remove, 4),
    (Base::GotElsewhere, 5, Set(Looked(2, 0, 1)), 5),
    (Base::GotElsewhere, 4, Set(Tried(2, 0, None)), 4),
    (Base::GotElsewhere, 4, Set(Tried(0, 2, None)), 4),
];

// The common part is freed early; a rank asks while a fetch is due; no fetch of the unit. The common part is fetched
// elsewhere; another count; a rank finishes while its batch goes on.
const BATCHES: &[Mutant] = &[
    (Base::BatchOfTwo, 15, Insert(Freed), 15),
    (Base::BatchOfTwo, 20, Set(Asked(0, 9, None)), 20),
    (Base::BatchOfTwo, 13, Remove, 13),
    (Base::BatchOnTwo, 14, Set(CommonFetched(1)), 14),
    (Base::BatchOfTwo, 7, Set(Counted(1)), 7),
    (Base::BatchOfTwo, 8, Set(Finished(0, 4)), 8),
];

// The last has another end.
const EXHAUSTIONS: &[Mutant] = &[
    (Base::Pushed, 6, Insert(Exhausted), 6),
    (Base::Pushed, 5, Insert(Exhausted), 5),
    (Base::Pushed, 4, Insert(Exhausted), 8),
    (Base::Pushed, 0, Set(Asked(0, 0, Some(1))), 7),
    (Base::Pushed, 3, Remove, 6),
    (Base::Pushed, 7, Remove, 7),
    (Base::Tries, 7, Set(Over(0, 2, End::Exhausted)), 7),
];

// A promise where the unit is; none; a promise withdrawn while the unit travels; one that still stands; a pinned unit left
// out; a fetch by another rank.
const PUSHES: &[Mutant] = &[
    (Base::PushedWithRoom, 4, Set(Promised(1, (1, 0), 60)), 4),
    (Base::Pushed, 4, Remove, 4),
    (Base::Pushed, 6, Set(Withdrawn(0, (1, 0))), 6),
    (Base::CancelledPush, 7, Set(Refused(1, (1, 0), 60)), 7),
    (Base::CancelledPush, 8, Set(Refused(0, (1, 0), 0)), 8),
    (Base::GrantedOnce, 4, Set(Fetching(1, 0, (0, 0))), 4),
];

// A unit for the rank itself; one for any; one of the type that is wanted; and looks at other units than those wanted.
const LOOKS: &[Mutant] = &[
    (
        Base::Shelves,
        0,
        Set(PuttingFor(0, 1, Target::Only(Rank(0)))),
        5,
    ),
    (Base::Shelves, 0, Set(PuttingFor(0, 1, Target::Any)), 5),
    (Base::Shelves, 2, Set(PuttingFor(1, 1, Target::Any)), 5),
    (Base::Shelves, 4, Set(Tried(0, 2, None)), 5),
    (Base::Shelves, 9, Set(Looked(0, 1, 0)), 9),
    (Base::Shelves, 10, Set(Tried(2, 0, None)), 11),
    (Base::Shelves, 15, Set(Looked(0, 2, 1)), 15),
];

// The second is for rank 1 alone, and the third of the type of the unit.
const SOFT: &[Mutant] = &[
    (Base::SoftTargets, 3, Set(Looked(0, 2, 0)), 3),
    (
        Base::SoftTargets,
        0,
        Set(PuttingFor(0, 1, Target::Only(Rank(1)))),
        3,
    ),
    (Base::SoftTargets, 6, Set(Tried(0, 2, Some(1))), 7),
    (Base::SoftTargets, 6, Set(Tried(0, 2, None)), 7),
    (Base::SoftTargets, 11, Remove, 12),
];

// A push without its promise, twice; one from elsewhere; a withdrawal without a promise; no promise back. A grant
// where the unit was; a charge that is not taken off, and one that counts twice.
const PUSHES_BACK: &[Mutant] = &[
    (Base::PushedBack, 3, Remove, 3),
    (Base::PushedBack, 4, Remove, 4),
    (Base::PushedBack, 5, Set(Left(1, 0, (0, 0))), 5),
    (Base::PushedBack, 7, Insert(Withdrawn(1, (0, 0))), 7),
    (Base::PushedBack, 7, Remove, 7),
    (Base::PushedBack, 11, Set(Granted(1, 0, 1, (0, 0))), 11),
    (Base::PushedBack, 13, Set(Refused(1, (1, 0), 60)), 13),
    (Base::PushedBack, 14, Set(Refused(0, (1, 0), 120)), 14),
];

// The place of the last grant, and that of the last entry.
const LAST_GRANT: u64 = 6 * UNITS - 3;

const LAST: u64 = 6 * UNITS + 6;

// A unit that was granted before; one that is elsewhere; no fetch; another call.
const LONG: &[Mutant] = &[
    (
        Base::Long,
        LAST_GRANT,
        Set(Granted(1, 1, 2 * UNITS - 2, (0, UNITS - 3))),
        LAST_GRANT,
    ),
    (
        Base::Long,
        LAST_GRANT,
        Set(Granted(0, 1, 2 * UNITS - 2, (0, UNITS - 1))),
        LAST_GRANT,
    ),
    (Base::Long, LAST_GRANT + 2, Remove, LAST_GRANT + 3),
    (Base::Long, LAST, Set(Finished(1, 2 * UNITS)), LAST),
];

// What each list of mutants shows.
const LISTS: &[(&str, &[Mutant])] = &[
    ("grants are checked", GRANTS),
    ("puts are checked", PUTS),
    ("tries are checked", IN_VAIN),
    ("batches are checked", BATCHES),
    ("exhaustion is checked", EXHAUSTIONS),
    ("pushes are checked", PUSHES),
    ("looks go by type and target", LOOKS),
    ("soft targets let each rank have the unit", SOFT),
    ("pushes back are checked", PUSHES_BACK),
    ("long ledgers are checked to their end", LONG),
];

#[test]
fn an_edit_shows_at_a_stated_place(rt: HostRuntime) -> Result<(), Fail> {
    for (shows, mutants) in LISTS {
        let other = other(rt.alloc(), mutants)?;
        assert!(rt; other.is_none(), "{shows}: mutant {other:?}");
    }
    Ok(())
}
