//! Tests of values that were found by hand, and that the calls succeed when there is memory.

ghost use Rattle.std.specs.Prelude.{◌≡◌, ◌≤◌, IfOk, IsTrue, length};
ghost use Rattle.work_queue.specs.Queue.{HasNoPromise, HasNoUnit};

use crate::lines::{same, show};
use crate::queues::{Scene, Script, play};
use adlb_unit::{Info, Payload, Rank, Target, Types, Unit, UnitId, WorkType};
use std::alloc::Global;
use std::fmt::Write;
use std::process::Abort;
use std::test::Fail;
use work_queue::{AddFault, WorkQueue};

// A call of a queue whose units are of rank 0. Each byte of a body is 7.
#[derive(Clone, Copy)]
pub(crate) enum Step {
    // Puts the unit of this number, type, priority, target and length.
    Add(u64, u32, i32, Target, u8),
    Promise(u64, u32),
    // The promised unit of this number and length comes.
    Come(u64, u8),
    Withdraw(u64),
    Hold(u32),
    // Holds the first number of bytes, and gives the second back.
    HoldFor(u32, u32),
    // Pins the best unit for the rank, of this type if one is given.
    Give(u32, Option<u32>),
    // Takes the unit of this number, which is pinned to this rank.
    Take(u64, u32),
    Remove(u64),
    Push,
    // Which unit of this type fits the one rank or the other.
    Fits(u32, u32, u32),
    Counts(u32),
    At(u64),
    Tell(u64),
    // The charge and the arrivals.
    Totals,
}

/// The id of the unit of this number.
pub fn id(number: u64) -> UnitId {
    UnitId {
        rank: Rank(0),
        number,
    }
}

// The types that a request wants: this one, or any.
fn types(kind: Option<u32>) -> Result<Types, Fail> {
    Ok(match kind {
        Some(kind) => Types::list(&[WorkType(kind)])?,
        None => Types::any(),
    })
}

fn unit(
    alloc: Global,
    number: u64,
    kind: u32,
    prio: i32,
    target: Target,
    size: u8,
) -> Result<Unit, Fail>
    ensures { IfOk result (λ u. length u.body ≤ 255) }
{
    let bytes = vec![in alloc; 7_u8; size as usize]?;
    Ok(Unit {
        id: id(number),
        kind: WorkType(kind),
        prio,
        target,
        answer: Some(Rank(0)),
        common: None,
        body: Payload::from_vec(bytes),
    })
}

/// Neither a unit nor a promise has this id.
pub fn is_new(queue: &WorkQueue, id: UnitId) -> bool
    ensures unit { IsTrue result → HasNoUnit id queue.now.units }
    ensures promise { IsTrue result → HasNoPromise id queue.now.promises }
{
    !queue.has_unit(id) && queue.promised(id).is_none()
}

// What became of an attempt.
fn outcome(text: &mut String, fault: Option<AddFault>) -> Result<(), Fail> {
    match fault {
        None => say(text, "done"),
        Some(fault) => Ok(write!(text, "{fault}")?),
    }
}

/// Adds these words.
pub fn say(text: &mut String, words: &str) -> Result<(), Fail> {
    Ok(text.push_str(words)?)
}

// Adds a unit of a new id.
fn add(queue: &mut WorkQueue, unit: Unit) -> Option<AddFault>
    requires { length unit.body ≤ 255 }
{
    if !is_new(queue, unit.id) || queue.arrivals() > 99 {
        return None;
    }
    match queue.add(unit) {
        Ok(()) => None,
        Err((_, fault)) => Some(fault),
    }
}

// Promises room to a unit of a new id.
fn promise(queue: &mut WorkQueue, id: UnitId, n: u32) -> Option<AddFault> {
    if !is_new(queue, id) {
        return None;
    }
    queue.promise(id, n).err()
}

// Lets a unit come to which room of its length is promised.
fn come(queue: &mut WorkQueue, unit: Unit)
    requires { length unit.body ≤ 255 }
{
    let Some(length) = queue.promised(unit.id) else {
        return;
    };
    if length as usize == unit.body.len() && queue.arrivals() < 99 {
        queue.arrive(unit);
    }
}

// Takes the promise back, if there is one.
fn withdraw(queue: &mut WorkQueue, id: UnitId) {
    if let Some(_length) = queue.promised(id) {
        queue.withdraw(id);
    }
}

// The number and the length of the best unit, which is pinned.
fn give(queue: &mut WorkQueue, rank: u32, types: &Types) -> Option<(u64, u32)> {
    let best = queue.best(Rank(rank), types)?;
    let facts = queue.pin(best, Rank(rank));
    Some((facts.id.number, facts.length))
}

// The body of the pinned unit, if it is pinned to the rank.
fn take(queue: &mut WorkQueue, id: UnitId, rank: Rank) -> Option<Payload> {
    match queue.pinned_to(id) {
        Some(holder) if holder == rank => Some(queue.take_pinned(id, holder)),
        _ => None,
    }
}

// How many bytes the free unit has that is taken away.
fn remove(queue: &mut WorkQueue, id: UnitId) -> Option<usize> {
    if !queue.is_free(id) {
        return None;
    }
    Some(queue.remove_free(id).body.len())
}

// What is said of the unit.
fn tell(queue: &WorkQueue, id: UnitId, text: &mut String) -> Result<(), Fail> {
    if !queue.has_unit(id) {
        return say(text, "none");
    }
    let (facts, target) = queue.facts(id);
    let pin = queue.pinned_to(id);
    Ok(write!(
        text,
        "{} {} {:?} {:?}",
        facts.prio, facts.length, target, pin
    )?)
}

// What the queue tells.
fn told(queue: &WorkQueue, step: Step, text: &mut String) -> Result<(), Fail> {
    match step {
        Step::Push => show(text, &first_to_push(queue)),
        Step::Fits(one, other, kind) => fits(queue, one, other, kind, text),
        Step::Counts(kind) => counts(text, queue.counts(WorkType(kind))),
        Step::At(place) => at(queue, place, text),
        Step::Tell(number) => tell(queue, id(number), text),
        _ => Ok(write!(text, "{} {}", queue.charge(), queue.arrivals())?),
    }
}

fn first_to_push(queue: &WorkQueue) -> Option<(u64, u32)> {
    let (unit, length) = queue.first_to_push()?;
    Some((unit.number, length))
}

// The number of the unit of this type that fits the one rank or the other.
fn fits(queue: &WorkQueue, one: u32, other: u32, kind: u32, text: &mut String) -> Result<(), Fail> {
    let asked = [
        (Rank(one), types(Some(kind))?),
        (Rank(other), types(Some(kind))?),
    ];
    let found = queue.fits(&asked);
    show(text, &found.map(|id| id.number))
}

fn counts(text: &mut String, info: Info) -> Result<(), Fail> {
    Ok(write!(text, "{} {:?} {}", info.free, info.top, info.at_top)?)
}

// The number of the unit at this place, and the rank to which it is pinned.
fn at(queue: &WorkQueue, place: u64, text: &mut String) -> Result<(), Fail> {
    let seen = queue.unit_at(place);
    show(text, &seen.map(|at| (at.0.number, at.1)))
}

// Makes the step, and shows its answer.
fn answer(alloc: Global, queue: &mut WorkQueue, step: Step, text: &mut String) -> Result<(), Fail> {
    match step {
        Step::Add(number, kind, prio, target, size) => {
            let unit = unit(alloc, number, kind, prio, target, size)?;
            outcome(text, add(queue, unit))
        }
        Step::Promise(number, n) => outcome(text, promise(queue, id(number), n)),
        Step::Come(number, size) => {
            come(queue, unit(alloc, number, 5, 0, Target::Any, size)?);
            say(text, "done")
        }
        Step::Withdraw(number) => {
            withdraw(queue, id(number));
            say(text, "done")
        }
        Step::Hold(n) => hold(queue, n, 0, text),
        Step::HoldFor(n, given) => hold(queue, n, given, text),
        Step::Give(rank, kind) => show(text, &give(queue, rank, &types(kind)?)),
        Step::Take(number, rank) => taken(text, take(queue, id(number), Rank(rank))),
        Step::Remove(number) => show(text, &remove(queue, id(number))),
        _ => told(queue, step, text),
    }
}

// The bytes that were taken.
fn taken(text: &mut String, body: Option<Payload>) -> Result<(), Fail> {
    match &body {
        None => say(text, "none"),
        Some(body) => show(text, &body.bytes()),
    }
}

// Holds `n` bytes, and gives some of them back.
fn hold(queue: &mut WorkQueue, n: u32, given: u32, text: &mut String) -> Result<(), Fail> {
    match queue.hold(n) {
        Ok(()) if given <= n => {
            queue.release(given);
            say(text, "done")
        }
        Ok(()) => say(text, "not so many"),
        Err(full) => Ok(write!(text, "{full}")?),
    }
}

/// The steps of the queue have these answers.
pub(crate) fn go_through(
    rt: &impl Abort,
    alloc: Global,
    queue: &mut WorkQueue,
    shows: &str,
    rows: &[(Step, &str)],
) -> Result<(), Fail> {
    for (step, expected) in rows {
        let mut given = String::new(alloc);
        answer(alloc, queue, *step, &mut given)?;
        same(rt, shows, given.as_str(), expected);
    }
    Ok(())
}

const FULL: &str = "the queue is full at 64 bytes";

const OWN: Target = Target::Only(Rank(3));

const UNITS: &[Scene] = &[
    (
        "takes units up to the limit",
        64,
        Script::Queue(&[
            (Step::Add(0, 0, 0, Target::Any, 60), "done"),
            (Step::Totals, "60 1"),
            (Step::Add(1, 0, 0, Target::Any, 4), "done"),
            (Step::Totals, "64 2"),
            (Step::Add(2, 0, 0, Target::Any, 1), FULL),
            (Step::Totals, "64 2"),
            (Step::Add(3, 0, 0, Target::Any, 0), "done"),
            (Step::Totals, "64 3"),
            (Step::Promise(4, 1), FULL),
            (Step::Push, "Some((3, 0))"),
        ]),
    ),
    (
        "gives the best unit first",
        1000,
        Script::Queue(&[
            (Step::Add(0, 5, 1, Target::Any, 3), "done"),
            (Step::Add(1, 5, 9, Target::Any, 3), "done"),
            (Step::Add(2, 5, -2, OWN, 3), "done"),
            (Step::Add(3, 5, 9, Target::Any, 3), "done"),
            (Step::Add(4, 6, 99, Target::Any, 3), "done"),
            (Step::Add(5, 5, 99, Target::Only(Rank(4)), 3), "done"),
            (Step::Add(6, 5, 4, OWN, 3), "done"),
            (Step::Totals, "21 7"),
            (Step::Give(3, Some(5)), "Some((6, 3))"),
            (Step::Give(3, Some(5)), "Some((2, 3))"),
            (Step::Take(6, 3), "[7, 7, 7]"),
            (Step::Take(2, 3), "[7, 7, 7]"),
            (Step::Give(3, Some(5)), "Some((1, 3))"),
            (Step::Take(1, 3), "[7, 7, 7]"),
            (Step::Give(3, Some(5)), "Some((3, 3))"),
            (Step::Take(3, 3), "[7, 7, 7]"),
            (Step::Give(3, Some(5)), "Some((0, 3))"),
            (Step::Take(0, 3), "[7, 7, 7]"),
            (Step::Give(3, Some(5)), "None"),
            (Step::Totals, "6 7"),
        ]),
    ),
    // In arrival order: any with priority 9, and of rank 1 with 5, of rank 0 alone with 0, of rank 0 with 1.
    (
        "soft units prefer their rank: rank 0",
        1000,
        Script::Queue(&[
            (Step::Add(0, 5, 9, Target::Any, 3), "done"),
            (Step::Add(1, 5, 5, Target::Soft(Rank(1)), 3), "done"),
            (Step::Add(2, 5, 0, Target::Only(Rank(0)), 3), "done"),
            (Step::Add(3, 5, 1, Target::Soft(Rank(0)), 3), "done"),
            (Step::Push, "Some((0, 3))"),
            (Step::Give(0, None), "Some((2, 3))"),
            (Step::Give(0, None), "Some((3, 3))"),
            (Step::Give(0, None), "Some((0, 3))"),
            (Step::Give(0, None), "Some((1, 3))"),
        ]),
    ),
    (
        "soft units prefer their rank: rank 1",
        1000,
        Script::Queue(&[
            (Step::Add(0, 5, 9, Target::Any, 3), "done"),
            (Step::Add(1, 5, 5, Target::Soft(Rank(1)), 3), "done"),
            (Step::Add(2, 5, 0, Target::Only(Rank(0)), 3), "done"),
            (Step::Add(3, 5, 1, Target::Soft(Rank(0)), 3), "done"),
            (Step::Push, "Some((0, 3))"),
            (Step::Give(1, None), "Some((1, 3))"),
            (Step::Give(1, None), "Some((0, 3))"),
            (Step::Give(1, None), "Some((3, 3))"),
            (Step::Give(1, None), "None"),
        ]),
    ),
    (
        "shows units in arrival order",
        1000,
        Script::Queue(&[
            (Step::Add(0, 5, 1, Target::Any, 3), "done"),
            (Step::Add(1, 5, 9, Target::Any, 3), "done"),
            (Step::Give(3, None), "Some((1, 3))"),
            (Step::At(0), "Some((0, None))"),
            (Step::At(1), "Some((1, Some(Rank(3))))"),
            (Step::At(2), "None"),
        ]),
    ),
];

#[test]
fn units_go(rt: HostRuntime) -> Result<(), Fail> {
    play(&rt, rt.alloc(), UNITS)
}

const ROOM: &[Scene] = &[
    (
        "a promised unit comes after later ones",
        64,
        Script::Queue(&[
            (Step::Promise(7, 40), "done"),
            (Step::Add(2, 5, 0, Target::Any, 24), "done"),
            (
                Step::Add(3, 5, 0, Target::Any, 1),
                "the queue is full at 64 bytes",
            ),
            (Step::Come(7, 40), "done"),
            (Step::At(1), "Some((7, None))"),
            (Step::Come(7, 40), "done"),
            (Step::At(2), "None"),
            (Step::Totals, "64 2"),
        ]),
    ),
    (
        "promises and free units go",
        64,
        Script::Queue(&[
            (Step::Add(2, 5, 0, Target::Any, 24), "done"),
            (Step::Promise(7, 40), "done"),
            (Step::Withdraw(7), "done"),
            (Step::Remove(2), "Some(24)"),
            (Step::Totals, "0 1"),
            (Step::Tell(2), "none"),
            (Step::Promise(7, 60), "done"),
            (Step::Add(2, 5, 0, Target::Any, 4), "done"),
            (Step::Totals, "64 2"),
        ]),
    ),
    (
        "common parts take room",
        64,
        Script::Queue(&[
            (Step::HoldFor(64, 60), "done"),
            (Step::Totals, "4 0"),
            (Step::Hold(60), "done"),
            (Step::Hold(1), "the queue is full at 64 bytes"),
            (Step::Totals, "64 0"),
        ]),
    ),
    // Units of two types, of which the second is pinned to rank 3.
    (
        "tells what is free",
        1000,
        Script::Queue(&[
            (Step::Add(0, 5, 1, Target::Any, 3), "done"),
            (Step::Add(1, 5, 9, OWN, 3), "done"),
            (Step::Add(2, 6, -4, OWN, 3), "done"),
            (Step::Add(3, 5, 9, Target::Any, 3), "done"),
            (Step::Add(4, 5, 1, Target::Any, 3), "done"),
            (Step::Add(5, 6, 2, Target::Any, 3), "done"),
            (Step::Give(3, None), "Some((1, 3))"),
            (Step::Push, "Some((4, 3))"),
            (Step::Fits(2, 2, 6), "Some(5)"),
            (Step::Fits(2, 3, 6), "Some(2)"),
            (Step::Counts(5), "3 Some(9) 1"),
            (Step::Counts(6), "2 Some(2) 1"),
            (Step::Tell(1), "9 3 Only(Rank(3)) Some(Rank(3))"),
            (Step::Remove(1), "None"),
        ]),
    ),
    // Two types, units for one rank before others, and one that was promised.
    (
        "finds its units as they come and go",
        1000,
        Script::Queue(&[
            (Step::Add(0, 5, 3, Target::Soft(Rank(1)), 1), "done"),
            (Step::Add(1, 4, 3, Target::Any, 1), "done"),
            (Step::Add(2, 5, 7, Target::Any, 1), "done"),
            (Step::Promise(9, 2), "done"),
            (Step::Add(3, 5, 7, Target::Any, 1), "done"),
            (Step::Come(9, 2), "done"),
            (Step::Remove(2), "Some(1)"),
            (Step::Give(2, None), "Some((3, 1))"),
            (Step::Push, "Some((9, 2))"),
            (Step::Add(4, 4, 0, Target::Any, 1), "done"),
            (Step::Push, "Some((4, 1))"),
            (Step::Counts(4), "2 Some(3) 1"),
            (Step::Give(2, Some(4)), "Some((1, 1))"),
            (Step::Take(3, 2), "[7]"),
            (Step::Give(2, None), "Some((9, 2))"),
            (Step::Give(2, None), "Some((4, 1))"),
            (Step::Give(2, None), "Some((0, 1))"),
            (Step::Give(2, None), "None"),
        ]),
    ),
];

#[test]
fn room_is_kept(rt: HostRuntime) -> Result<(), Fail> {
    play(&rt, rt.alloc(), ROOM)
}
