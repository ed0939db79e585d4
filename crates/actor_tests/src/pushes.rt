//! Scripts worked by hand, at queues of limit 64.

ghost use Rattle.std.specs.Prelude.{◌≡◌};
ghost use Rattle.server_components.specs.Pushes.{is_query, is_under_way};

use crate::lines::{same, same_charge, show};
use crate::queue::{id, is_new, say};
use crate::queues::{Scene, Script, play};
use adlb_unit::{Config, Payload, Rank, Server, Target, Unit, UnitId, WorkType};
use server_components::{Push, PushQuery, PushState, push_query, put};
use std::alloc::Global;
use std::fmt::Write;
use std::process::Abort;
use std::test::Fail;
use work_queue::WorkQueue;

// A call. Units are named by their numbers.
#[derive(Clone, Copy)]
pub(crate) enum Act {
    // A put of a unit of this number, length and priority.
    Put(u64, u8, i32),
    // The unit is granted to a rank.
    Pin(u64),
    // Another server asks for room of this length for its unit.
    Query(u64, u32),
    Pressure,
    Yes,
    No,
    Ack,
    // Whether the push that stands asks this server for room for the unit, has sent it, and stands at all.
    Tells(u32, u64),
}

// The push that stands is a query.
fn is_query(pushes: &PushState) -> bool
    ensures { result ≡ is_query pushes.now.pushing }
{
    match pushes.stands() {
        Some((_, _, sent)) => !sent,
        None => false,
    }
}

// Its unit or a cancel was sent.
fn is_under_way(pushes: &PushState) -> bool
    ensures { result ≡ is_under_way pushes.now.pushing }
{
    match pushes.stands() {
        Some((_, _, sent)) => sent,
        None => false,
    }
}

// Puts a unit of this id, if that is new.
fn put_new(
    alloc: Global,
    queue: &mut WorkQueue,
    id: UnitId,
    size: u8,
    prio: i32,
    text: &mut String,
) -> Result<(), Fail> {
    if !is_new(queue, id) || queue.arrivals() > 9 {
        return say(text, "not so");
    }
    let body = Payload::from_vec(vec![in alloc; 7_u8; size as usize]?);
    let unit = Unit {
        id,
        kind: WorkType(1),
        prio,
        target: Target::Any,
        answer: None,
        common: None,
        body,
    };
    show(text, &put(queue, unit)?)
}

// Asks for room for a unit of this id, if that is new.
fn ask_room(text: &mut String, queue: &mut WorkQueue, id: UnitId, length: u32) -> Result<(), Fail> {
    if !is_new(queue, id) {
        return say(text, "not so");
    }
    Ok(write!(text, "{}", push_query(queue, id, length)?)?)
}

// Grants the unit of this id, if it is free.
fn pin(text: &mut String, queue: &mut WorkQueue, id: UnitId) -> Result<(), Fail> {
    if !queue.is_free(id) {
        return say(text, "not so");
    }
    queue.pin(id, Rank(0));
    say(text, "pinned")
}

// Shows the room that is asked for.
fn asks(text: &mut String, query: Option<PushQuery>) -> Result<(), Fail> {
    match query {
        Some(query) => Ok(write!(text, "{} {} {}", query.to.0, query.id.number, query.length)?),
        None => say(text, "none"),
    }
}

// Shows what is sent where there is room.
fn goes(text: &mut String, push: &Push) -> Result<(), Fail> {
    match push {
        Push::Go(to, unit) => sends(text, "go", *to, unit.id),
        Push::Cancel(to, id) => sends(text, "cancel", *to, *id),
    }
}

fn sends(text: &mut String, what: &str, to: Server, id: UnitId) -> Result<(), Fail> {
    Ok(write!(text, "{what} {} {}", to.0, id.number)?)
}

// What is told of the push that stands.
fn tells(text: &mut String, pushes: &PushState, to: Server, id: UnitId) -> Result<(), Fail> {
    let asks = pushes.asks(to, id);
    let sent = pushes.has_sent(to, id);
    Ok(write!(text, "{asks} {sent} {}", pushes.going())?)
}

// Makes the call, and shows its answer.
fn make(
    alloc: Global,
    pushes: &mut PushState,
    queue: &mut WorkQueue,
    act: Act,
    text: &mut String,
) -> Result<(), Fail> {
    match act {
        Act::Pressure => asks(text, pushes.pressure(queue)),
        Act::Yes if is_query(pushes) => goes(text, &pushes.push_yes(queue)),
        Act::No if is_query(pushes) => {
            pushes.push_no();
            say(text, "ended")
        }
        Act::Ack if is_under_way(pushes) => {
            pushes.push_ack();
            say(text, "ended")
        }
        Act::Tells(to, number) => tells(text, pushes, Server(to), id(number)),
        Act::Put(number, size, prio) => put_new(alloc, queue, id(number), size, prio, text),
        Act::Query(number, length) => ask_room(text, queue, id(number), length),
        Act::Pin(number) => pin(text, queue, id(number)),
        _ => say(text, "not so"),
    }
}

/// At server 2 of three, each call is answered so, and at the end the queue has this charge.
pub(crate) fn follow(
    rt: &impl Abort,
    alloc: Global,
    queue: &mut WorkQueue,
    shows: &str,
    charge: u64,
    rows: &[(Act, &str)],
) -> Result<(), Fail> {
    let config = Config::new(1, 3, 64)?;
    let mut pushes = PushState::new(config, Server(2));
    go_through(rt, alloc, &mut pushes, queue, shows, rows)?;
    same_charge(rt, shows, queue.charge(), charge);
    Ok(())
}

// The calls are answered as their rows say.
fn go_through(
    rt: &impl Abort,
    alloc: Global,
    pushes: &mut PushState,
    queue: &mut WorkQueue,
    shows: &str,
    rows: &[(Act, &str)],
) -> Result<(), Fail> {
    for (act, expected) in rows {
        let mut given = String::new(alloc);
        make(alloc, pushes, queue, *act, &mut given)?;
        same(rt, shows, given.as_str(), expected);
    }
    Ok(())
}

const SCENES: &[Scene] = &[
    (
        "takes and promises up to the limit",
        64,
        Script::Pushes(
            64,
            &[
                (Act::Put(0, 60, 0), "Accepted"),
                (Act::Put(1, 5, 0), "Full { charge: 60 }"),
                (Act::Query(2, 4), "true"),
                (Act::Query(3, 1), "false"),
                (Act::Query(3, 0), "true"),
                (Act::Put(1, 1, 0), "Full { charge: 64 }"),
            ],
        ),
    ),
    (
        "pushes one unit at a time",
        64,
        Script::Pushes(
            63,
            &[
                (Act::Put(0, 55, 5), "Accepted"),
                (Act::Put(1, 1, 3), "Accepted"),
                (Act::Pressure, "none"),
                (Act::Put(2, 1, 4), "Accepted"),
                (Act::Pressure, "0 1 1"),
                (Act::Put(3, 7, 9), "Accepted"),
                (Act::Pressure, "none"),
                (Act::Tells(0, 1), "true false true"),
                (Act::Tells(1, 1), "false false true"),
                (Act::Yes, "go 0 1"),
                (Act::Tells(0, 1), "false true true"),
                (Act::No, "not so"),
                (Act::Pressure, "none"),
                (Act::Ack, "ended"),
                (Act::Pressure, "1 2 1"),
                (Act::Pin(2), "pinned"),
                (Act::Yes, "cancel 1 2"),
                (Act::Tells(1, 2), "false true true"),
                (Act::Ack, "ended"),
                (Act::Pressure, "0 0 55"),
                (Act::Ack, "not so"),
                (Act::No, "ended"),
                (Act::Tells(0, 0), "false false false"),
                (Act::Pressure, "1 0 55"),
            ],
        ),
    ),
];

#[test]
fn pushes_go(rt: HostRuntime) -> Result<(), Fail> {
    play(&rt, rt.alloc(), SCENES)
}
