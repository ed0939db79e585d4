//! Scripts at server 0 of six ranks, worked by hand.

ghost use Rattle.std.specs.Prelude.{◌≡◌, IsTrue, true};
ghost use Rattle.server_components.specs.Parked.{IsAway, IsHere, IsOther, is_pending};

use crate::lines::{same, show};
use crate::queue::{id, is_new, say};
use crate::queues::{Scene, Script, play};
use adlb_unit::{Config, Payload, Rank, Server, Target, Types, Unit, UnitId, UnitNote, WorkType};
use server_components::{Parked, ReserveStep};
use std::alloc::Global;
use std::fmt::Write;
use std::process::Abort;
use std::test::Fail;
use work_queue::WorkQueue;

// A call. Ranks come first, then the request, then the type that is wanted.
#[derive(Clone, Copy)]
pub(crate) enum Act {
    // A unit of this number, type and target is in the queue.
    Put(u64, u32, Target),
    Reserve(u32, u64, u32),
    Try(u32, u32),
    Ask(u32, u64, u32),
    Refuse(u32, u64, u32),
    None(u32),
    Grant(u32),
    End(u32),
    Hint(u32, u64, u32),
    // The unit of this number is offered.
    Offer(u64),
    NextHint(u32, Target),
    EndIdle,
    Awaits(u32),
    // Whether a server is unanswered, how many ranks wait, and which is the first.
    All,
}

// The one type that is wanted.
fn only(kind: u32) -> Result<Types, Fail> {
    Ok(Types::list(&[WorkType(kind)])?)
}

// Puts the unit of this number, if it is new.
fn put(alloc: Global, queue: &mut WorkQueue, number: u64, kind: u32, target: Target) {
    let unit = Unit {
        id: id(number),
        kind: WorkType(kind),
        prio: 0,
        target,
        answer: None,
        common: None,
        body: Payload::from_vec(Vec::new(alloc)),
    };
    if is_new(queue, unit.id) && queue.arrivals() < 99 {
        let _put = queue.add(unit);
    }
}

// The rank is at home here.
fn is_here(parked: &Parked, rank: Rank) -> bool
    ensures { IsTrue result → IsHere parked.now.config parked.now.me rank }
{
    let (config, me) = parked.seat();
    rank.0 < config.ranks && config.home(rank).0 == me.0
}

// The rank is at home at another server.
fn is_away(parked: &Parked, rank: Rank) -> bool
    ensures { IsTrue result → IsAway parked.now.config parked.now.me rank }
{
    let (config, me) = parked.seat();
    rank.0 < config.ranks && config.home(rank).0 != me.0
}

// The server is another one.
fn is_other(parked: &Parked, server: Server) -> bool
    ensures { IsTrue result → IsOther parked.now.config parked.now.me server }
{
    let (config, me) = parked.seat();
    server.0 < config.servers && server.0 != me.0
}

// A server is unanswered for the rank.
fn is_pending(parked: &Parked, rank: Rank) -> bool
    ensures { IsTrue result → is_pending parked.now rank ≡ true }
{
    matches!(parked.awaits(rank), Some((_, Some(_))))
}

// Shows what a reserve came to.
fn shown(text: &mut String, step: ReserveStep) -> Result<(), Fail> {
    match step {
        ReserveStep::Granted(note) => unit(text, Some(note)),
        ReserveStep::Ask(server) => asks(text, server),
        ReserveStep::Idle => say(text, "idle"),
    }
}

// Shows the unit that was granted.
fn unit(text: &mut String, note: Option<UnitNote>) -> Result<(), Fail> {
    match note {
        Some(note) => Ok(write!(text, "unit {}", note.id.number)?),
        None => say(text, "none"),
    }
}

// Shows the server that is to be asked.
fn asks(text: &mut String, server: Server) -> Result<(), Fail> {
    Ok(write!(text, "ask {}", server.0)?)
}

// Shows a rank and its request.
fn call(text: &mut String, call: Option<(Rank, u64)>) -> Result<(), Fail> {
    match call {
        Some((rank, request)) => Ok(write!(text, "{} {request}", rank.0)?),
        None => say(text, "nobody"),
    }
}

// Reserves for a rank that is at home here and does not wait.
fn reserve(
    parked: &mut Parked,
    queue: &mut WorkQueue,
    rank: Rank,
    request: u64,
    types: &Types,
) -> Option<ReserveStep> {
    match parked.awaits(rank) {
        None if is_here(parked, rank) => Some(parked.reserve(queue, rank, request, types)),
        _ => None,
    }
}

// What the server that was asked for the rank answers.
fn answer(
    text: &mut String,
    parked: &mut Parked,
    queue: &mut WorkQueue,
    act: Act,
) -> Result<(), Fail> {
    match act {
        Act::None(rank) if is_pending(parked, Rank(rank)) => {
            shown(text, parked.remote_none(queue, Rank(rank)))
        }
        Act::Grant(rank) if is_pending(parked, Rank(rank)) => {
            parked.remote_grant(Rank(rank));
            say(text, "done")
        }
        Act::End(rank) if is_pending(parked, Rank(rank)) => {
            parked.remote_end(Rank(rank));
            say(text, "done")
        }
        _ => say(text, "not so"),
    }
}

// What is asked here for a rank of another home.
fn ask(
    text: &mut String,
    parked: &mut Parked,
    queue: &mut WorkQueue,
    act: Act,
) -> Result<(), Fail> {
    match act {
        Act::Ask(rank, request, kind) if is_away(parked, Rank(rank)) => {
            let types = only(kind)?;
            unit(text, parked.remote_ask(queue, Rank(rank), request, &types))
        }
        Act::Refuse(rank, request, kind) if is_away(parked, Rank(rank)) => {
            let types = only(kind)?;
            parked.refuse_ask(Rank(rank), request, &types);
            say(text, "done")
        }
        Act::NextHint(kind, target) => call(text, parked.next_hint(WorkType(kind), target)),
        _ => say(text, "not so"),
    }
}

// Offers the unit of this number, if it is free.
fn offer(
    text: &mut String,
    parked: &mut Parked,
    queue: &mut WorkQueue,
    number: u64,
) -> Result<(), Fail> {
    let unit = id(number);
    if !queue.is_free(unit) {
        return say(text, "not so");
    }
    match parked.offer(queue, unit) {
        Some((rank, request, note)) => Ok(write!(text, "{} {request} {}", rank.0, note.id.number)?),
        None => say(text, "nobody"),
    }
}

// What is said of those that wait.
fn told(text: &mut String, parked: &Parked) -> Result<(), Fail> {
    let mut room = std::array::from_fn(|_| (Rank(9), Types::any()));
    let count = parked.asked(&mut room);
    Ok(write!(text, "{} {count} {}", parked.unanswered(), room[0].0.0)?)
}

// Makes the call, and shows its answer.
fn make(
    alloc: Global,
    parked: &mut Parked,
    queue: &mut WorkQueue,
    act: Act,
    text: &mut String,
) -> Result<(), Fail> {
    match act {
        Act::Put(number, kind, target) => {
            put(alloc, queue, number, kind, target);
            say(text, "put")
        }
        Act::Reserve(rank, request, kind) => {
            reserves(text, parked, queue, Rank(rank), request, kind)
        }
        Act::Try(rank, kind) => tries(text, parked, queue, Rank(rank), kind),
        Act::Offer(number) => offer(text, parked, queue, number),
        Act::EndIdle => call(text, parked.end_idle()),
        Act::All => told(text, parked),
        Act::Awaits(rank) => show(text, &parked.awaits(Rank(rank))),
        Act::Hint(rank, request, from) => hint(text, parked, Rank(rank), request, Server(from)),
        Act::Ask(..) | Act::Refuse(..) | Act::NextHint(..) => ask(text, parked, queue, act),
        _ => answer(text, parked, queue, act),
    }
}

fn reserves(
    text: &mut String,
    parked: &mut Parked,
    queue: &mut WorkQueue,
    rank: Rank,
    request: u64,
    kind: u32,
) -> Result<(), Fail> {
    let types = only(kind)?;
    let step = reserve(parked, queue, rank, request, &types);
    reserved(text, step)
}

fn reserved(text: &mut String, step: Option<ReserveStep>) -> Result<(), Fail> {
    match step {
        Some(step) => shown(text, step),
        None => say(text, "not so"),
    }
}

// Tries for a rank of the run.
fn tries(
    text: &mut String,
    parked: &mut Parked,
    queue: &mut WorkQueue,
    rank: Rank,
    kind: u32,
) -> Result<(), Fail> {
    if rank.0 >= parked.seat().0.ranks {
        return say(text, "not so");
    }
    unit(text, parked.try_reserve(queue, rank, &only(kind)?))
}

// Hears a hint.
fn hint(
    text: &mut String,
    parked: &mut Parked,
    rank: Rank,
    request: u64,
    from: Server,
) -> Result<(), Fail> {
    if !is_here(parked, rank) || !is_other(parked, from) {
        return say(text, "not so");
    }
    match parked.hint(rank, request, from) {
        Some(server) => asks(text, server),
        None => say(text, "later"),
    }
}

/// In a run of so many servers, each call is answered so.
pub(crate) fn follow(
    rt: &impl Abort,
    alloc: Global,
    queue: &mut WorkQueue,
    shows: &str,
    servers: u32,
    rows: &[(Act, &str)],
) -> Result<(), Fail> {
    let config = Config::new(6, servers, 64)?;
    if servers == 0 {
        return Err("no servers".into());
    }
    let mut parked = Parked::new(alloc, config, Server(0))?;
    go_through(rt, alloc, &mut parked, queue, shows, rows)
}

// The calls are answered as their rows say.
fn go_through(
    rt: &impl Abort,
    alloc: Global,
    parked: &mut Parked,
    queue: &mut WorkQueue,
    shows: &str,
    rows: &[(Act, &str)],
) -> Result<(), Fail> {
    for (act, expected) in rows {
        let mut given = String::new(alloc);
        make(alloc, parked, queue, *act, &mut given)?;
        same(rt, shows, given.as_str(), expected);
    }
    Ok(())
}

const SCENES: &[Scene] = &[
    (
        "asks one server after the other",
        64,
        Script::Waits(
            3,
            &[
                (Act::Reserve(0, 7, 5), "ask 1"),
                (Act::Awaits(0), "Some((7, Some(Server(1))))"),
                (Act::All, "true 1 0"),
                (Act::EndIdle, "nobody"),
                (Act::None(0), "ask 2"),
                (Act::None(0), "idle"),
                (Act::All, "false 1 0"),
                (Act::Hint(0, 6, 1), "later"),
                (Act::Hint(0, 7, 2), "ask 2"),
                (Act::Hint(0, 7, 2), "later"),
                (Act::Hint(0, 7, 1), "later"),
                (Act::None(0), "ask 1"),
                (Act::None(0), "ask 2"),
                (Act::Grant(0), "done"),
                (Act::Awaits(0), "None"),
                (Act::All, "false 0 9"),
            ],
        ),
    ),
    (
        "looks at its own queue first",
        64,
        Script::Waits(
            3,
            &[
                (Act::Reserve(3, 7, 5), "ask 1"),
                (Act::Put(1, 5, Target::Any), "put"),
                (Act::Offer(1), "nobody"),
                (Act::None(3), "unit 1"),
                (Act::Awaits(3), "None"),
                (Act::Put(2, 5, Target::Only(Rank(3))), "put"),
                (Act::Try(0, 5), "none"),
                (Act::Reserve(3, 8, 5), "unit 2"),
                (Act::Reserve(3, 9, 5), "ask 1"),
                (Act::End(3), "done"),
                (Act::Awaits(3), "None"),
            ],
        ),
    ),
    (
        "gives a unit to an idle rank",
        64,
        Script::Waits(
            1,
            &[
                (Act::Reserve(0, 1, 5), "idle"),
                (Act::Reserve(1, 1, 5), "idle"),
                (Act::Reserve(2, 1, 6), "idle"),
                (Act::All, "false 3 0"),
                (Act::Put(1, 5, Target::Any), "put"),
                (Act::Offer(1), "0 1 1"),
                (Act::Reserve(0, 2, 5), "idle"),
                (Act::Put(2, 5, Target::Soft(Rank(0))), "put"),
                (Act::Offer(2), "0 2 2"),
                (Act::Put(3, 5, Target::Only(Rank(0))), "put"),
                (Act::Offer(3), "nobody"),
                (Act::EndIdle, "1 1"),
                (Act::EndIdle, "2 1"),
                (Act::EndIdle, "nobody"),
            ],
        ),
    ),
    (
        "keeps one wish a rank",
        64,
        Script::Waits(
            3,
            &[
                (Act::Ask(1, 4, 5), "none"),
                (Act::Ask(2, 3, 5), "none"),
                (Act::Ask(1, 5, 5), "none"),
                (Act::NextHint(6, Target::Any), "nobody"),
                (Act::NextHint(5, Target::Any), "2 3"),
                (Act::NextHint(5, Target::Any), "1 5"),
                (Act::NextHint(5, Target::Any), "nobody"),
                (Act::Refuse(1, 6, 5), "done"),
                (Act::Refuse(2, 7, 5), "done"),
                (Act::NextHint(5, Target::Soft(Rank(2))), "2 7"),
                (Act::Put(1, 5, Target::Only(Rank(1))), "put"),
                (Act::Ask(2, 8, 5), "none"),
                (Act::Ask(1, 8, 5), "unit 1"),
                (Act::NextHint(5, Target::Any), "2 8"),
                (Act::NextHint(5, Target::Any), "nobody"),
            ],
        ),
    ),
];

#[test]
fn ranks_wait(rt: HostRuntime) -> Result<(), Fail> {
    play(&rt, rt.alloc(), SCENES)
}
