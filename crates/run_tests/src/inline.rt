//! Scripts of calls, with ledgers that were found by hand.

ghost use Rattle.std.specs.Prelude.{◌≡◌, ◌≤◌, ◌^◌, length, false, true, IfOk, OnOk};
ghost use Rattle.rank_client.specs.Calls.{granted, has_finished, is_fetched};

use crate::rows::{Form, are};
use adlb_unit::{Handle, Info, Payload, Rank, Server, Target, Types, UnitId, WorkType};
use bag_ledger::{Body, Entry};
use core_inline::InlineWorld;
use packed_ledger::Ledger;
use rank_client::{Adlb, EndFault, PutFault, TryFault};
use server_core::LeftUnit;
use std::alloc::Global;
use std::test::Fail;

// One step of a script, with what is answered.
#[derive(Clone, Copy)]
enum Act {
    // A unit of this type, of this byte `n` times, is put and accepted.
    Put(u32, u8, u8),
    // A unit of this type, of this priority and of one byte, an `a`, is put and accepted.
    PutAt(u32, i32),
    // A put of `n` bytes is rejected.
    PutRejected(u8),
    // A put is told this end.
    PutOver(PutFault),
    // A unit is reserved and fetched: it has these common bytes, and of its own this byte `n` times.
    Work(&'static str, u8, u8),
    // A unit is reserved and left.
    Leave,
    // A reserve is told this end.
    Over(EndFault),
    // A try finds no unit now.
    TryInVain,
    // A try is granted a unit, which is left.
    TryAndLeave,
    // A try is told this end.
    TryOver(TryFault),
    // A count of this type: how many units, their highest priority, and how many have it.
    Count(u32, u64, Option<i32>, u64),
    // A batch with the common part `xy` begins.
    Begin,
    // The beginning of a batch with a common part of `n` bytes is rejected, and no batch is going on.
    BeginRejected(u8),
    // The beginning of a batch is told this end, and no batch is going on.
    BeginOver(PutFault),
    // The batch ends.
    End,
    // The problem is called done, and each server has heard it.
    SetDone,
}

/// The limit of the server.
const LIMIT: u64 = 64;

// What a script shows, its steps, how many calls it makes, its ledger, as `Form::Lines` has it, and the units that are left.
struct Scene {
    shows: &'static str,
    acts: &'static [Act],
    calls: usize,
    ledger: &'static str,
    left: &'static [Left],
}

// A unit that is left: the number of its put, and the rank to which it is pinned.
type Left = (u64, Option<Rank>);

// This byte `n` times.
fn body(alloc: Global, byte: u8, n: u8) -> Result<Payload, Fail>
    ensures { IfOk result (λ b. length b ≤ 255) }
{
    let bytes = vec![in alloc; byte; n as usize]?;
    Ok(Payload::from_vec(bytes))
}

// A put of this type and priority, of this byte `n` times, is answered so.
fn puts(
    alloc: Global,
    world: &mut InlineWorld,
    kind: u32,
    prio: i32,
    byte: u8,
    n: u8,
    wanted: Result<(), PutFault>,
) -> Result<bool, Fail>
    requires { has_finished world.old.run.transcript ≡ false }
    ensures { has_finished world.new.run.transcript ≡ false }
{
    let body = body(alloc, byte, n)?;
    Ok(world.put(WorkType(kind), prio, Target::Any, None, body) == wanted)
}

fn reserve(world: &mut InlineWorld) -> Result<Handle, EndFault>
    requires { has_finished world.old.run.transcript ≡ false }
    ensures running { has_finished world.new.run.transcript ≡ false }
    ensures granted { IfOk result (λ note. granted note world.new.run.transcript) }
    ensures once { IfOk result (λ note. is_fetched note.id world.new.run.transcript ≡ false) }
{
    world.reserve(&Types::any())
}

// A reserve is answered so, and a unit that it is granted is left.
fn leaves(world: &mut InlineWorld, wanted: Result<(), EndFault>) -> bool
    requires { has_finished world.old.run.transcript ≡ false }
    ensures { has_finished world.new.run.transcript ≡ false }
{
    match reserve(world) {
        Ok(handle) => {
            world.leave(handle);
            wanted.is_ok()
        }
        Err(fault) => wanted == Err(fault),
    }
}

// A try is answered so, and a unit that it is granted is left.
fn tries(world: &mut InlineWorld, wanted: Result<(), TryFault>) -> bool
    requires { has_finished world.old.run.transcript ≡ false }
    ensures { has_finished world.new.run.transcript ≡ false }
{
    match world.ireserve(&Types::any()) {
        Ok(handle) => {
            world.leave(handle);
            wanted.is_ok()
        }
        Err(fault) => wanted == Err(fault),
    }
}

// A count of this type tells this.
fn counts(world: &mut InlineWorld, kind: u32, wanted: Info) -> Result<bool, Fail>
    requires { has_finished world.old.run.transcript ≡ false }
    ensures { has_finished world.new.run.transcript ≡ false }
{
    Ok(world.num_units(WorkType(kind))? == wanted)
}

fn sets_done(world: &mut InlineWorld) -> Result<bool, Fail>
    requires { has_finished world.old.run.transcript ≡ false }
    ensures { has_finished world.new.run.transcript ≡ false }
{
    world.set_problem_done()?;
    Ok(true)
}

// The bytes of a unit that is reserved and fetched.
fn work(world: &mut InlineWorld) -> Result<Body, Fail>
    requires { has_finished world.old.run.transcript ≡ false }
    ensures { has_finished world.new.run.transcript ≡ false }
{
    let handle = reserve(world)?;
    match world.get_reserved(handle) {
        Ok(body) => Ok(body),
        Err((handle, trouble)) => {
            let _ = handle.spend();
            Err(Fail::from(trouble))
        }
    }
}

// A unit is reserved and fetched: it has these common bytes, and of its own this byte `n` times.
fn works(world: &mut InlineWorld, common: &str, byte: u8, n: u8) -> Result<bool, Fail>
    requires { has_finished world.old.run.transcript ≡ false }
    ensures { has_finished world.new.run.transcript ≡ false }
{
    let given = work(world)?;
    Ok(has_bytes(&given, common, byte, n as usize))
}

fn has_bytes(given: &Body, common: &str, byte: u8, n: usize) -> bool {
    let (before, own) = given.runs();
    before == common.as_bytes() && own.len() == n && is_all(own, byte)
}

fn is_all(bytes: &[u8], wanted: u8) -> bool {
    for byte in bytes {
        if *byte != wanted {
            return false;
        }
    }
    true
}

// A batch begins where none is going on, is answered so, and is going on after `Ok` alone.
fn begins(world: &mut InlineWorld, common: Payload, wanted: Result<(), PutFault>) -> bool
    requires running { has_finished world.old.run.transcript ≡ false }
    requires size { length common ≤ 255 }
    ensures { has_finished world.new.run.transcript ≡ false }
{
    if world.batch_open() {
        return false;
    }
    let answer = world.begin_batch(common);
    answer == wanted && world.batch_open() == wanted.is_ok()
}

// A batch with the common part `xy` begins.
fn begins_fine(alloc: Global, world: &mut InlineWorld) -> Result<bool, Fail>
    requires { has_finished world.old.run.transcript ≡ false }
    ensures { has_finished world.new.run.transcript ≡ false }
{
    let common = Payload::copy(alloc, b"xy".as_slice())?;
    Ok(begins(world, common, Ok(())))
}

// The beginning of a batch with a common part of `n` bytes is answered by this fault.
fn fails(alloc: Global, world: &mut InlineWorld, n: u8, fault: PutFault) -> Result<bool, Fail>
    requires { has_finished world.old.run.transcript ≡ false }
    ensures { has_finished world.new.run.transcript ≡ false }
{
    let common = body(alloc, 0, n)?;
    Ok(begins(world, common, Err(fault)))
}

// The batch that is going on ends.
fn ends(world: &mut InlineWorld) -> Result<bool, Fail>
    requires { has_finished world.old.run.transcript ≡ false }
    ensures { has_finished world.new.run.transcript ≡ false }
{
    if !world.batch_open() {
        return Ok(false);
    }
    world.end_batch()?;
    Ok(!world.batch_open())
}

// Each step is answered as it says.
fn play(alloc: Global, world: &mut InlineWorld, acts: &[Act]) -> Result<bool, Fail>
    requires { has_finished world.old.run.transcript ≡ false }
    ensures { has_finished world.new.run.transcript ≡ false }
{
    for act in acts {
        if !play_one(alloc, world, *act)? {
            return Ok(false);
        }
    }
    Ok(true)
}

fn play_one(alloc: Global, world: &mut InlineWorld, act: Act) -> Result<bool, Fail>
    requires { has_finished world.old.run.transcript ≡ false }
    ensures { has_finished world.new.run.transcript ≡ false }
{
    match act {
        Act::Put(kind, byte, n) => puts(alloc, world, kind, 0, byte, n, Ok(())),
        Act::PutAt(kind, prio) => puts(alloc, world, kind, prio, b'a', 1, Ok(())),
        Act::PutRejected(n) => puts(alloc, world, 1, 0, 0, n, Err(PutFault::Rejected)),
        Act::PutOver(fault) => puts(alloc, world, 1, 0, 0, 1, Err(fault)),
        Act::Work(common, byte, n) => works(world, common, byte, n),
        Act::Leave => Ok(leaves(world, Ok(()))),
        Act::Over(fault) => Ok(leaves(world, Err(fault))),
        Act::TryInVain => Ok(tries(world, Err(TryFault::NoCurrentWork))),
        Act::TryAndLeave => Ok(tries(world, Ok(()))),
        Act::TryOver(fault) => Ok(tries(world, Err(fault))),
        Act::Count(kind, free, top, at_top) => counts(world, kind, Info { free, top, at_top }),
        Act::Begin => begins_fine(alloc, world),
        Act::BeginRejected(n) => fails(alloc, world, n, PutFault::Rejected),
        Act::BeginOver(fault) => fails(alloc, world, 1, fault),
        Act::End => ends(world),
        Act::SetDone => sets_done(world),
    }
}

// Each step is answered as it says, no batch is going on after them, and the rank finishes.
fn play_out(alloc: Global, world: &mut InlineWorld, acts: &[Act]) -> Result<bool, Fail>
    requires { has_finished world.old.run.transcript ≡ false }
    ensures { OnOk result (world.new.run.finished ≡ true) }
{
    let is_played = play(alloc, world, acts)?;
    let is_open = world.batch_open();
    if is_open {
        world.end_batch()?;
    }
    world.finish_inline();
    Ok(is_played && !is_open)
}

// Each step of the scene is made, and the rank, which then finishes, leaves what the scene says.
fn is_so(alloc: Global, scene: &Scene) -> Result<bool, Fail> {
    let mut world = InlineWorld::new(alloc, LIMIT)?;
    let is_played = play_out(alloc, &mut world, scene.acts)?;
    let (ledger, calls, units) = world.end()?;
    drop(calls);
    Ok(is_played && is_left_so(alloc, &ledger, &units, scene)?)
}

fn is_left_so(
    alloc: Global,
    ledger: &Ledger,
    units: &[LeftUnit],
    scene: &Scene,
) -> Result<bool, Fail> {
    let entries = ledger.list(alloc)?;
    Ok(
        begun(&entries) == scene.calls
            && are_left(units, scene.left)
            && are(alloc, &entries, Form::Lines, scene.ledger)?,
    )
}

// How many of the entries begin a call.
fn begun(entries: &[Entry]) -> usize {
    let mut count: usize = 0;
    for entry in entries {
        if begins_call(entry) {
            count = count.saturating_add(1);
        }
    }
    count
}

fn begins_call(entry: &Entry) -> bool {
    matches!(
        entry,
        Entry::Putting { .. }
            | Entry::Asked { .. }
            | Entry::Tried { .. }
            | Entry::Fetching { .. }
            | Entry::Keeping { .. }
            | Entry::Closing { .. }
            | Entry::Counting { .. }
            | Entry::Done { .. }
            | Entry::Finished { .. }
    )
}

fn are_left(units: &[LeftUnit], left: &[Left]) -> bool {
    for (found, wanted) in units.iter().zip(left) {
        if !is_left(found, *wanted) {
            return false;
        }
    }
    units.len() == left.len()
}

// It was put by rank 0, and is at server 0.
fn is_left(found: &LeftUnit, (number, pinned): Left) -> bool {
    let id = UnitId {
        rank: Rank(0),
        number,
    };
    found.id == id && found.server == Server(0) && found.pinned == pinned
}

const PUTS: &[Scene] = &[
    Scene {
        shows: "units are fetched in order",
        acts: &[
            Act::Put(1, b'a', 1),
            Act::Put(1, b'b', 1),
            Act::Work("", b'a', 1),
            Act::Work("", b'b', 1),
        ],
        calls: 7,
        ledger: "\
        Putting 0 0: type 1, 1 bytes, Some(97)\n\
        Accepted { server: Server(0), id: UnitId { rank: Rank(0), number: 0 } }\n\
        Putting 0 1: type 1, 1 bytes, Some(98)\n\
        Accepted { server: Server(0), id: UnitId { rank: Rank(0), number: 1 } }\n\
        Asked 0 2\n\
        Granted { server: Server(0), rank: Rank(0), call: 2, id: UnitId { rank: Rank(0), number: 0 } }\n\
        Fetching { rank: Rank(0), call: 3, id: UnitId { rank: Rank(0), number: 0 } }\n\
        Fetched { server: Server(0), rank: Rank(0), id: UnitId { rank: Rank(0), number: 0 } }\n\
        Asked 0 4\n\
        Granted { server: Server(0), rank: Rank(0), call: 4, id: UnitId { rank: Rank(0), number: 1 } }\n\
        Fetching { rank: Rank(0), call: 5, id: UnitId { rank: Rank(0), number: 1 } }\n\
        Fetched { server: Server(0), rank: Rank(0), id: UnitId { rank: Rank(0), number: 1 } }\n\
        Finished { rank: Rank(0), call: 6 }",
        left: &[],
    },
    Scene {
        shows: "what is over the limit is rejected",
        acts: &[
            Act::PutRejected(93),
            Act::PutRejected(85),
            Act::Over(EndFault::Exhausted),
            Act::Over(EndFault::Exhausted),
        ],
        calls: 5,
        ledger: "\
        Putting 0 0: type 1, 93 bytes, Some(0)\n\
        Refused { server: Server(0), id: UnitId { rank: Rank(0), number: 0 }, used: 0 }\n\
        Rejected { rank: Rank(0), call: 0 }\n\
        Putting 0 1: type 1, 85 bytes, Some(0)\n\
        Refused { server: Server(0), id: UnitId { rank: Rank(0), number: 1 }, used: 0 }\n\
        Rejected { rank: Rank(0), call: 1 }\n\
        Asked 0 2\n\
        Exhausted\n\
        Over { rank: Rank(0), call: 2, end: Exhausted }\n\
        Asked 0 3\n\
        Over { rank: Rank(0), call: 3, end: Exhausted }\n\
        Finished { rank: Rank(0), call: 4 }",
        left: &[],
    },
    Scene {
        shows: "units that are not fetched are left",
        acts: &[
            Act::Put(2, b'a', 60),
            Act::PutRejected(5),
            Act::Put(2, b'b', 4),
            Act::Leave,
        ],
        calls: 5,
        ledger: "\
        Putting 0 0: type 2, 60 bytes, Some(97)\n\
        Accepted { server: Server(0), id: UnitId { rank: Rank(0), number: 0 } }\n\
        Putting 0 1: type 1, 5 bytes, Some(0)\n\
        Refused { server: Server(0), id: UnitId { rank: Rank(0), number: 1 }, used: 60 }\n\
        Rejected { rank: Rank(0), call: 1 }\n\
        Putting 0 2: type 2, 4 bytes, Some(98)\n\
        Accepted { server: Server(0), id: UnitId { rank: Rank(0), number: 2 } }\n\
        Asked 0 3\n\
        Granted { server: Server(0), rank: Rank(0), call: 3, id: UnitId { rank: Rank(0), number: 0 } }\n\
        Finished { rank: Rank(0), call: 4 }",
        left: &[(0, Some(Rank(0))), (2, None)],
    },
];

const LOOKS: &[Scene] = &[
    Scene {
        shows: "free units of a type are counted by their priority",
        acts: &[
            Act::PutAt(1, 3),
            Act::PutAt(1, 7),
            Act::Count(1, 2, Some(7), 1),
            Act::Count(2, 0, None, 0),
            // The unit of priority 7 is fetched.
            Act::Work("", b'a', 1),
            Act::Count(1, 1, Some(3), 1),
            // A unit that is pinned is not counted.
            Act::Leave,
            Act::Count(1, 0, None, 0),
            // After an end was told the home is asked as before.
            Act::Over(EndFault::Exhausted),
            Act::Count(1, 0, None, 0),
        ],
        calls: 12,
        ledger: "\
        Putting 0 0: type 1, 1 bytes, Some(97)\n\
        Accepted { server: Server(0), id: UnitId { rank: Rank(0), number: 0 } }\n\
        Putting 0 1: type 1, 1 bytes, Some(97)\n\
        Accepted { server: Server(0), id: UnitId { rank: Rank(0), number: 1 } }\n\
        Counting { rank: Rank(0), call: 2, kind: WorkType(1) }\n\
        Counted { server: Server(0), rank: Rank(0), call: 2, info: Info { free: 2, top: Some(7), at_top: 1 } }\n\
        Counting { rank: Rank(0), call: 3, kind: WorkType(2) }\n\
        Counted { server: Server(0), rank: Rank(0), call: 3, info: Info { free: 0, top: None, at_top: 0 } }\n\
        Asked 0 4\n\
        Granted { server: Server(0), rank: Rank(0), call: 4, id: UnitId { rank: Rank(0), number: 1 } }\n\
        Fetching { rank: Rank(0), call: 5, id: UnitId { rank: Rank(0), number: 1 } }\n\
        Fetched { server: Server(0), rank: Rank(0), id: UnitId { rank: Rank(0), number: 1 } }\n\
        Counting { rank: Rank(0), call: 6, kind: WorkType(1) }\n\
        Counted { server: Server(0), rank: Rank(0), call: 6, info: Info { free: 1, top: Some(3), at_top: 1 } }\n\
        Asked 0 7\n\
        Granted { server: Server(0), rank: Rank(0), call: 7, id: UnitId { rank: Rank(0), number: 0 } }\n\
        Counting { rank: Rank(0), call: 8, kind: WorkType(1) }\n\
        Counted { server: Server(0), rank: Rank(0), call: 8, info: Info { free: 0, top: None, at_top: 0 } }\n\
        Asked 0 9\n\
        Exhausted\n\
        Over { rank: Rank(0), call: 9, end: Exhausted }\n\
        Counting { rank: Rank(0), call: 10, kind: WorkType(1) }\n\
        Counted { server: Server(0), rank: Rank(0), call: 10, info: Info { free: 0, top: None, at_top: 0 } }\n\
        Finished { rank: Rank(0), call: 11 }",
        left: &[(0, Some(Rank(0)))],
    },
    Scene {
        shows: "a try where nothing is looks once",
        acts: &[Act::TryInVain],
        calls: 2,
        ledger: "\
        Tried 0 0\n\
        Looked { server: Server(0), rank: Rank(0), call: 0 }\n\
        NoCurrent { rank: Rank(0), call: 0 }\n\
        Finished { rank: Rank(0), call: 1 }",
        left: &[],
    },
    Scene {
        shows: "a try is granted what is free",
        acts: &[
            Act::Put(1, b'a', 1),
            Act::TryAndLeave,
            // The unit is pinned.
            Act::TryInVain,
            // Trying does not use up the work, and reserving does.
            Act::Over(EndFault::Exhausted),
            Act::TryOver(TryFault::Exhausted),
        ],
        calls: 6,
        ledger: "\
        Putting 0 0: type 1, 1 bytes, Some(97)\n\
        Accepted { server: Server(0), id: UnitId { rank: Rank(0), number: 0 } }\n\
        Tried 0 1\n\
        Granted { server: Server(0), rank: Rank(0), call: 1, id: UnitId { rank: Rank(0), number: 0 } }\n\
        Tried 0 2\n\
        Looked { server: Server(0), rank: Rank(0), call: 2 }\n\
        NoCurrent { rank: Rank(0), call: 2 }\n\
        Asked 0 3\n\
        Exhausted\n\
        Over { rank: Rank(0), call: 3, end: Exhausted }\n\
        Tried 0 4\n\
        Over { rank: Rank(0), call: 4, end: Exhausted }\n\
        Finished { rank: Rank(0), call: 5 }",
        left: &[(0, Some(Rank(0)))],
    },
];

const BATCHES: &[Scene] = &[
    Scene {
        shows: "units of a batch share its common part",
        acts: &[
            Act::Begin,
            Act::Put(1, b'a', 1),
            Act::Put(1, b'b', 1),
            Act::Count(1, 2, Some(0), 2),
            Act::End,
            Act::Work("xy", b'a', 1),
            Act::Work("xy", b'b', 1),
        ],
        calls: 10,
        ledger: "\
        Keeping 0 0: 2 bytes, Some(120)\n\
        Kept { server: Server(0), batch: BatchId { rank: Rank(0), number: 0 } }\n\
        Putting 0 1: type 1, 1 bytes, Some(97)\n\
        Accepted { server: Server(0), id: UnitId { rank: Rank(0), number: 1 } }\n\
        Putting 0 2: type 1, 1 bytes, Some(98)\n\
        Accepted { server: Server(0), id: UnitId { rank: Rank(0), number: 2 } }\n\
        Counting { rank: Rank(0), call: 3, kind: WorkType(1) }\n\
        Counted { server: Server(0), rank: Rank(0), call: 3, info: Info { free: 2, top: Some(0), at_top: 2 } }\n\
        Closing { rank: Rank(0), call: 4 }\n\
        Closed { server: Server(0), batch: BatchId { rank: Rank(0), number: 0 } }\n\
        Asked 0 5\n\
        Granted { server: Server(0), rank: Rank(0), call: 5, id: UnitId { rank: Rank(0), number: 1 } }\n\
        Fetching { rank: Rank(0), call: 6, id: UnitId { rank: Rank(0), number: 1 } }\n\
        Fetched { server: Server(0), rank: Rank(0), id: UnitId { rank: Rank(0), number: 1 } }\n\
        CommonFetched { server: Server(0), rank: Rank(0), batch: BatchId { rank: Rank(0), number: 0 } }\n\
        Asked 0 7\n\
        Granted { server: Server(0), rank: Rank(0), call: 7, id: UnitId { rank: Rank(0), number: 2 } }\n\
        Fetching { rank: Rank(0), call: 8, id: UnitId { rank: Rank(0), number: 2 } }\n\
        Fetched { server: Server(0), rank: Rank(0), id: UnitId { rank: Rank(0), number: 2 } }\n\
        CommonFetched { server: Server(0), rank: Rank(0), batch: BatchId { rank: Rank(0), number: 0 } }\n\
        Freed { server: Server(0), batch: BatchId { rank: Rank(0), number: 0 } }\n\
        Finished { rank: Rank(0), call: 9 }",
        left: &[],
    },
    Scene {
        shows: "the part of a batch without units is freed at its end",
        acts: &[Act::Begin, Act::End],
        calls: 3,
        ledger: "\
        Keeping 0 0: 2 bytes, Some(120)\n\
        Kept { server: Server(0), batch: BatchId { rank: Rank(0), number: 0 } }\n\
        Closing { rank: Rank(0), call: 1 }\n\
        Closed { server: Server(0), batch: BatchId { rank: Rank(0), number: 0 } }\n\
        Freed { server: Server(0), batch: BatchId { rank: Rank(0), number: 0 } }\n\
        Finished { rank: Rank(0), call: 2 }",
        left: &[],
    },
    Scene {
        shows: "a common part over the limit is rejected",
        acts: &[
            Act::BeginRejected(65),
            Act::Put(1, b'a', 64),
            Act::Work("", b'a', 64),
        ],
        calls: 5,
        ledger: "\
        Keeping 0 0: 65 bytes, Some(0)\n\
        Refused { server: Server(0), id: UnitId { rank: Rank(0), number: 0 }, used: 0 }\n\
        Rejected { rank: Rank(0), call: 0 }\n\
        Putting 0 1: type 1, 64 bytes, Some(97)\n\
        Accepted { server: Server(0), id: UnitId { rank: Rank(0), number: 1 } }\n\
        Asked 0 2\n\
        Granted { server: Server(0), rank: Rank(0), call: 2, id: UnitId { rank: Rank(0), number: 1 } }\n\
        Fetching { rank: Rank(0), call: 3, id: UnitId { rank: Rank(0), number: 1 } }\n\
        Fetched { server: Server(0), rank: Rank(0), id: UnitId { rank: Rank(0), number: 1 } }\n\
        Finished { rank: Rank(0), call: 4 }",
        left: &[],
    },
    Scene {
        shows: "a batch ends after an end was told",
        acts: &[
            Act::Begin,
            Act::Put(1, b'a', 1),
            Act::Work("xy", b'a', 1),
            Act::Over(EndFault::Exhausted),
            Act::PutOver(PutFault::Exhausted),
            Act::End,
            Act::BeginOver(PutFault::Exhausted),
            Act::Over(EndFault::Exhausted),
        ],
        calls: 10,
        ledger: "\
        Keeping 0 0: 2 bytes, Some(120)\n\
        Kept { server: Server(0), batch: BatchId { rank: Rank(0), number: 0 } }\n\
        Putting 0 1: type 1, 1 bytes, Some(97)\n\
        Accepted { server: Server(0), id: UnitId { rank: Rank(0), number: 1 } }\n\
        Asked 0 2\n\
        Granted { server: Server(0), rank: Rank(0), call: 2, id: UnitId { rank: Rank(0), number: 1 } }\n\
        Fetching { rank: Rank(0), call: 3, id: UnitId { rank: Rank(0), number: 1 } }\n\
        Fetched { server: Server(0), rank: Rank(0), id: UnitId { rank: Rank(0), number: 1 } }\n\
        CommonFetched { server: Server(0), rank: Rank(0), batch: BatchId { rank: Rank(0), number: 0 } }\n\
        Asked 0 4\n\
        Exhausted\n\
        Over { rank: Rank(0), call: 4, end: Exhausted }\n\
        Putting 0 5: type 1, 1 bytes, Some(0)\n\
        Over { rank: Rank(0), call: 5, end: Exhausted }\n\
        Closing { rank: Rank(0), call: 6 }\n\
        Closed { server: Server(0), batch: BatchId { rank: Rank(0), number: 0 } }\n\
        Freed { server: Server(0), batch: BatchId { rank: Rank(0), number: 0 } }\n\
        Keeping 0 7: 1 bytes, Some(0)\n\
        Over { rank: Rank(0), call: 7, end: Exhausted }\n\
        Asked 0 8\n\
        Over { rank: Rank(0), call: 8, end: Exhausted }\n\
        Finished { rank: Rank(0), call: 9 }",
        left: &[],
    },
    Scene {
        shows: "a unit that is left keeps its common part",
        acts: &[Act::Begin, Act::Put(1, b'a', 1), Act::End, Act::Leave],
        calls: 5,
        ledger: "\
        Keeping 0 0: 2 bytes, Some(120)\n\
        Kept { server: Server(0), batch: BatchId { rank: Rank(0), number: 0 } }\n\
        Putting 0 1: type 1, 1 bytes, Some(97)\n\
        Accepted { server: Server(0), id: UnitId { rank: Rank(0), number: 1 } }\n\
        Closing { rank: Rank(0), call: 2 }\n\
        Closed { server: Server(0), batch: BatchId { rank: Rank(0), number: 0 } }\n\
        Asked 0 3\n\
        Granted { server: Server(0), rank: Rank(0), call: 3, id: UnitId { rank: Rank(0), number: 1 } }\n\
        Finished { rank: Rank(0), call: 4 }",
        left: &[(1, Some(Rank(0)))],
    },
];

const AFTER_DONE: &[Scene] = &[
    Scene {
        shows: "after the problem is done no call gets work",
        acts: &[
            Act::Put(1, b'a', 1),
            Act::SetDone,
            // The unit is free, and is not granted.
            Act::Over(EndFault::NoMoreWork),
            Act::TryOver(TryFault::NoMoreWork),
            Act::PutOver(PutFault::NoMoreWork),
            Act::BeginOver(PutFault::NoMoreWork),
            Act::Count(1, 1, Some(0), 1),
            // It can be said again.
            Act::SetDone,
        ],
        calls: 9,
        ledger: "\
        Putting 0 0: type 1, 1 bytes, Some(97)\n\
        Accepted { server: Server(0), id: UnitId { rank: Rank(0), number: 0 } }\n\
        Done { rank: Rank(0), call: 1 }\n\
        Asked 0 2\n\
        Over { rank: Rank(0), call: 2, end: NoMoreWork }\n\
        Tried 0 3\n\
        Over { rank: Rank(0), call: 3, end: NoMoreWork }\n\
        Putting 0 4: type 1, 1 bytes, Some(0)\n\
        Over { rank: Rank(0), call: 4, end: NoMoreWork }\n\
        Keeping 0 5: 1 bytes, Some(0)\n\
        Over { rank: Rank(0), call: 5, end: NoMoreWork }\n\
        Counting { rank: Rank(0), call: 6, kind: WorkType(1) }\n\
        Counted { server: Server(0), rank: Rank(0), call: 6, info: Info { free: 1, top: Some(0), at_top: 1 } }\n\
        Done { rank: Rank(0), call: 7 }\n\
        Finished { rank: Rank(0), call: 8 }",
        left: &[(0, None)],
    },
    Scene {
        shows: "a batch ends after the problem is done",
        acts: &[
            Act::Begin,
            Act::Put(1, b'a', 1),
            Act::SetDone,
            Act::PutOver(PutFault::NoMoreWork),
            Act::End,
        ],
        calls: 6,
        ledger: "\
        Keeping 0 0: 2 bytes, Some(120)\n\
        Kept { server: Server(0), batch: BatchId { rank: Rank(0), number: 0 } }\n\
        Putting 0 1: type 1, 1 bytes, Some(97)\n\
        Accepted { server: Server(0), id: UnitId { rank: Rank(0), number: 1 } }\n\
        Done { rank: Rank(0), call: 2 }\n\
        Putting 0 3: type 1, 1 bytes, Some(0)\n\
        Over { rank: Rank(0), call: 3, end: NoMoreWork }\n\
        Closing { rank: Rank(0), call: 4 }\n\
        Closed { server: Server(0), batch: BatchId { rank: Rank(0), number: 0 } }\n\
        Finished { rank: Rank(0), call: 5 }",
        left: &[(1, None)],
    },
];

// What the first scene shows that is not so.
fn first_other(alloc: Global, scenes: &[Scene]) -> Result<Option<&str>, Fail> {
    for scene in scenes {
        if !is_so(alloc, scene)? {
            return Ok(Some(scene.shows));
        }
    }
    Ok(None)
}

#[test]
fn puts_leave_their_ledgers(rt: HostRuntime) -> Result<(), Fail> {
    let other = first_other(rt.alloc(), PUTS)?;
    assert!(rt; other.is_none(), "{other:?}");
    Ok(())
}

#[test]
fn counts_and_tries_leave_their_ledgers(rt: HostRuntime) -> Result<(), Fail> {
    let other = first_other(rt.alloc(), LOOKS)?;
    assert!(rt; other.is_none(), "{other:?}");
    Ok(())
}

#[test]
fn batches_leave_their_ledgers(rt: HostRuntime) -> Result<(), Fail> {
    let other = first_other(rt.alloc(), BATCHES)?;
    assert!(rt; other.is_none(), "{other:?}");
    Ok(())
}

#[test]
fn calls_after_the_problem_is_done_leave_their_ledgers(rt: HostRuntime) -> Result<(), Fail> {
    let other = first_other(rt.alloc(), AFTER_DONE)?;
    assert!(rt; other.is_none(), "{other:?}");
    Ok(())
}
