//! Worlds stepped by hand, with ledgers that were found by hand.

ghost use Rattle.std.specs.Prelude.{◌≡◌};

use crate::rows::{Form, ledger_is};
use crate::scenes::{fetch, put_of, reserve, try_once};
use adlb_unit::{Actor, Config, Payload, Rank, Server, Target, Types, WorkType};
use bag_ledger::{Answer, Call};
use core_run::Event;
use core_world::{ApplyFault, World};
use std::alloc::Global;
use std::test::Fail;

const RANK: Actor = Actor::Rank(Rank(0));

const FIRST: Actor = Actor::Server(Server(0));

const SECOND: Actor = Actor::Server(Server(1));

const THIRD: Actor = Actor::Server(Server(2));

// An event of the only rank or of a list of letters.
#[derive(Clone, Copy)]
enum Does {
    // The rank puts a body of this length.
    Puts(usize),
    // It puts this byte.
    PutsByte(u8),
    // It puts a byte with this priority.
    PutsAt(i32),
    // It begins a batch with these common bytes.
    Begins([u8; 2]),
    Ends,
    // It reserves a unit of any type.
    Reserves,
    // It tries for a unit of any type.
    Tries,
    // It fetches its unit of this number.
    Fetches(u64),
    // It counts the units of this type.
    Counts(u32),
    Finishes,
    // The second handles the front letter of the first.
    Delivers(Actor, Actor),
}

// Three puts of 56 bytes, each accepted at another server.
const FILLS: &[Does] = &[
    Does::Puts(56),
    Does::Delivers(RANK, FIRST),
    Does::Delivers(FIRST, RANK),
    Does::Puts(56),
    Does::Delivers(RANK, SECOND),
    Does::Delivers(SECOND, RANK),
    Does::Puts(56),
    Does::Delivers(RANK, THIRD),
    Does::Delivers(THIRD, RANK),
];

// What a scene shows, how many servers its world has, and what each of its lines gives.
struct Scene {
    shows: &'static str,
    servers: u32,
    lines: &'static [(Line<'static>, &'static str)],
}

// A line of a scene: what is done with the world, or what is asked of it.
#[derive(Clone, Copy)]
enum Line<'a> {
    // It applies the event: done, or refused with the event.
    Applies(Does),
    // It runs the events: how many were applied, and whether the next was refused. Their answers are not told.
    Runs(&'a [Does]),
    // It applies the events one by one: as `Runs`.
    Plays(&'a [Does]),
    // How many letters are under way from the first to the second.
    Waiting(Actor, Actor),
    // How many calls of the rank were answered.
    Answered,
    // The two runs of bytes with which its last call was answered.
    Body,
    // What its last call, a count, was told.
    Info,
    // The ledger, each entry as `Form::Numbers` has it.
    Ledger,
    // The units that are left at the server of this number.
    Left(u32),
}

fn event(alloc: Global, does: Does) -> Result<Event, Fail> {
    match does {
        Does::Puts(size) => put(alloc, 7, size, 0),
        Does::PutsByte(byte) => put(alloc, byte, 1, 0),
        Does::PutsAt(prio) => put(alloc, b'a', 1, prio),
        Does::Begins(bytes) => begin(alloc, &bytes),
        Does::Ends => Ok(made(Call::EndBatch)),
        Does::Reserves => Ok(reserve(0, Types::any())),
        Does::Tries => Ok(try_once(0)),
        Does::Fetches(number) => Ok(fetch(0, 0, number)),
        Does::Counts(kind) => Ok(count(WorkType(kind))),
        Does::Finishes => Ok(made(Call::Finish)),
        Does::Delivers(from, to) => Ok(Event::Deliver(from, to)),
    }
}

// The rank makes this call.
fn made(call: Call) -> Event {
    Event::Call(Rank(0), call)
}

// It puts this byte so many times.
fn put(alloc: Global, byte: u8, size: usize, prio: i32) -> Result<Event, Fail> {
    let bytes = vec![in alloc; byte; size]?;
    Ok(put_of(0, 1, prio, Target::Any, Payload::from_vec(bytes)))
}

fn begin(alloc: Global, bytes: &[u8]) -> Result<Event, Fail> {
    let common = Payload::copy(alloc, bytes)?;
    Ok(made(Call::BeginBatch { common }))
}

fn count(kind: WorkType) -> Event {
    made(Call::Count { kind })
}

fn events(alloc: Global, all: &[Does]) -> Result<Vec<Event>, Fail> {
    let mut events = Vec::new(alloc);
    add_events(alloc, &mut events, all)?;
    Ok(events)
}

fn add_events(alloc: Global, events: &mut Vec<Event>, all: &[Does]) -> Result<(), Fail> {
    for does in all {
        let event = event(alloc, *does)?;
        events.push(event)?;
    }
    Ok(())
}

// The event is the one that was to happen.
fn is_that(event: &Event, does: Does) -> bool {
    match (event, does) {
        (Event::Call(Rank(0), Call::Put { body, .. }), Does::Puts(size)) => body.len() == size,
        (Event::Call(Rank(0), Call::EndBatch), Does::Ends) => true,
        (Event::Call(Rank(0), Call::Count { kind }), Does::Counts(number)) => kind.0 == number,
        (Event::Call(Rank(0), Call::Try { .. }), Does::Tries) => true,
        (Event::Call(Rank(0), Call::Finish), Does::Finishes) => true,
        (Event::Deliver(from, to), Does::Delivers(a, b)) => *from == a && *to == b,
        _ => false,
    }
}

// The event is applied or refused, which is told. An answer comes to the others.
fn apply(
    alloc: Global,
    world: &mut World,
    answers: &mut Vec<Answer>,
    does: Does,
) -> Result<&'static str, Fail>
    ensures { world.new.world.config ≡ world.old.world.config }
{
    let event = event(alloc, does)?;
    match world.apply(event) {
        Ok(answer) => hear(answers, answer),
        Err(fault) => Ok(refusal(&fault, does)),
    }
}

fn hear(answers: &mut Vec<Answer>, answer: Option<Answer>) -> Result<&'static str, Fail> {
    if let Some(answer) = answer {
        answers.push(answer)?;
    }
    Ok("done")
}

// The fault says that this event is not enabled.
fn refusal(fault: &ApplyFault, does: Does) -> &'static str {
    match fault {
        ApplyFault::NotEnabled { event } if is_that(event, does) => "refused",
        _ => "another fault",
    }
}

// How many of the events were applied, and what came then.
type Applied = (u64, &'static str);

fn play(
    alloc: Global,
    world: &mut World,
    answers: &mut Vec<Answer>,
    all: &[Does],
) -> Result<Applied, Fail>
    ensures { world.new.world.config ≡ world.old.world.config }
{
    let mut applied: u64 = 0;
    for does in all {
        let told = apply(alloc, world, answers, *does)?;
        if told != "done" {
            return Ok((applied, told));
        }
        applied = applied.saturating_add(1);
    }
    Ok((applied, "done"))
}

fn run(world: &mut World, events: Vec<Event>) -> Applied
    ensures { world.new.world.config ≡ world.old.world.config }
{
    match world.run_events(events) {
        Ok(applied) => (applied, "done"),
        Err((applied, ApplyFault::NotEnabled { .. })) => (applied, "refused"),
        Err((applied, _)) => (applied, "another fault"),
    }
}

// So many were done, and no other, or the next was answered so.
fn is_applied((applied, told): Applied, wanted: &str) -> bool {
    let Some((number, rest)) = wanted.split_once(' ') else {
        return false;
    };
    let told_so = if told == "done" {
        rest == "done"
    } else {
        rest.strip_prefix("done, then ") == Some(told)
    };
    is_number(applied, number) && told_so
}

fn applies(
    alloc: Global,
    world: &mut World,
    answers: &mut Vec<Answer>,
    does: Does,
    wanted: &str,
) -> Result<bool, Fail>
    ensures { world.new.world.config ≡ world.old.world.config }
{
    Ok(apply(alloc, world, answers, does)? == wanted)
}

fn plays(
    alloc: Global,
    world: &mut World,
    answers: &mut Vec<Answer>,
    all: &[Does],
    wanted: &str,
) -> Result<bool, Fail>
    ensures { world.new.world.config ≡ world.old.world.config }
{
    let applied = play(alloc, world, answers, all)?;
    Ok(is_applied(applied, wanted))
}

fn runs(alloc: Global, world: &mut World, all: &[Does], wanted: &str) -> Result<bool, Fail>
    ensures { world.new.world.config ≡ world.old.world.config }
{
    let events = events(alloc, all)?;
    Ok(is_applied(run(world, events), wanted))
}

/// The units that are left at the server of this number, of as many, are shown so.
pub(crate) fn has_left(
    alloc: Global,
    world: &World,
    servers: u32,
    number: u32,
    wanted: &str,
) -> Result<bool, Fail>
    requires { world.now.world.config.servers ≡ servers }
{
    if number >= servers {
        return Err("no such server".into());
    }
    let left = world.left(Server(number))?;
    let text = format!(in alloc; "{left:?}")?;
    Ok(text.as_str() == wanted)
}

// The last call was a fetch, which gave these two runs of bytes.
fn has_body(answers: &[Answer], wanted: &str) -> bool {
    match (answers.last(), wanted.split_once(' ')) {
        (Some(Answer::Body(body)), Some((common, own))) => {
            body.runs() == (common.as_bytes(), own.as_bytes())
        }
        _ => false,
    }
}

// The last call was a count, which told this.
fn has_info(alloc: Global, answers: &[Answer], wanted: &str) -> Result<bool, Fail> {
    let Some(Answer::Info(info)) = answers.last() else {
        return Ok(false);
    };
    let text = format!(in alloc; "{info:?}")?;
    Ok(text.as_str() == wanted)
}

fn is_number(number: u64, wanted: &str) -> bool {
    wanted.parse::<u64>() == Ok(number)
}

// The line of a scene gives what is wanted.
fn gives(
    alloc: Global,
    world: &mut World,
    answers: &mut Vec<Answer>,
    servers: u32,
    line: Line,
    wanted: &str,
) -> Result<bool, Fail>
    requires { world.old.world.config.servers ≡ servers }
    ensures { world.new.world.config ≡ world.old.world.config }
{
    match line {
        Line::Applies(does) => applies(alloc, world, answers, does, wanted),
        Line::Runs(all) => runs(alloc, world, all, wanted),
        Line::Plays(all) => plays(alloc, world, answers, all, wanted),
        Line::Waiting(from, to) => Ok(is_number(world.waiting(from, to), wanted)),
        Line::Answered => Ok(is_number(answers.len() as u64, wanted)),
        Line::Body => Ok(has_body(answers, wanted)),
        Line::Info => has_info(alloc, answers, wanted),
        Line::Ledger => ledger_is(alloc, world.ledger(), Form::Numbers, wanted),
        Line::Left(number) => has_left(alloc, world, servers, number, wanted),
    }
}

// In a world of one rank, each server with the lowest limit: which line of the scene gives something else, if one does.
fn other_line(alloc: Global, scene: &Scene) -> Result<Option<usize>, Fail> {
    let config = Config::new(1, scene.servers, 64)?;
    let mut world = World::new(alloc, config)?;
    let mut answers = Vec::new(alloc);
    go_through(alloc, &mut world, &mut answers, scene.servers, scene.lines)
}

fn go_through(
    alloc: Global,
    world: &mut World,
    answers: &mut Vec<Answer>,
    servers: u32,
    lines: &[(Line, &str)],
) -> Result<Option<usize>, Fail>
    requires { world.old.world.config.servers ≡ servers }
{
    for (at, (line, wanted)) in lines.iter().enumerate() {
        if !gives(alloc, world, answers, servers, *line, wanted)? {
            return Ok(Some(at));
        }
    }
    Ok(None)
}

// A put that each of three servers refuses.
const REFUSED: &[Does] = &[
    Does::Puts(9),
    Does::Delivers(RANK, FIRST),
    Does::Delivers(FIRST, RANK),
    Does::Delivers(RANK, SECOND),
    Does::Delivers(SECOND, RANK),
    Does::Delivers(RANK, THIRD),
    Does::Delivers(THIRD, RANK),
];

// A server and a rank that are not in the run.
const NONE: Actor = Actor::Server(Server(3));

const OTHER: Actor = Actor::Rank(Rank(1));

// The third of these events cannot happen.
const EVENTS: &[Does] = &[
    Does::Puts(5),
    Does::Delivers(RANK, FIRST),
    Does::Delivers(RANK, FIRST),
    Does::Delivers(FIRST, RANK),
];

// The only server of a run takes two units, of priorities 3 and 7.
const TWO_PRIORITIES: &[Does] = &[
    Does::PutsAt(3),
    Does::Delivers(RANK, FIRST),
    Does::Delivers(FIRST, RANK),
    Does::PutsAt(7),
    Does::Delivers(RANK, FIRST),
    Does::Delivers(FIRST, RANK),
];

// The only server of a run counts the units of type 1.
const COUNT_1: [Does; 3] = [
    Does::Counts(1),
    Does::Delivers(RANK, FIRST),
    Does::Delivers(FIRST, RANK),
];

// It counts the units of type 2.
const COUNT_2: [Does; 3] = [
    Does::Counts(2),
    Does::Delivers(RANK, FIRST),
    Does::Delivers(FIRST, RANK),
];

// A try for which each of three servers is asked.
const LOOKS: &[Does] = &[
    Does::Tries,
    Does::Delivers(RANK, FIRST),
    Does::Delivers(FIRST, RANK),
    Does::Delivers(RANK, SECOND),
    Does::Delivers(SECOND, RANK),
    Does::Delivers(RANK, THIRD),
    Does::Delivers(THIRD, RANK),
];

// The home is full, so the unit of 9 bytes is at the second server.
const PUTS: &[Does] = &[
    Does::Puts(56),
    Does::Delivers(RANK, FIRST),
    Does::Delivers(FIRST, RANK),
    Does::Puts(9),
    Does::Delivers(RANK, SECOND),
    Does::Delivers(SECOND, RANK),
];
// The first try is granted the home's unit, and the second that of the second server.
const TRIES: &[Does] = &[
    Does::Tries,
    Does::Delivers(RANK, FIRST),
    Does::Delivers(FIRST, RANK),
    Does::Tries,
    Does::Delivers(RANK, FIRST),
    Does::Delivers(FIRST, RANK),
    Does::Delivers(RANK, SECOND),
    Does::Delivers(SECOND, RANK),
    Does::Fetches(1),
    Does::Delivers(RANK, SECOND),
    Does::Delivers(SECOND, RANK),
];

// A batch over the bytes `xy`: the units `a` and `b` are put.
const BATCH: &[Does] = &[
    Does::Begins([b'x', b'y']),
    Does::Delivers(RANK, FIRST),
    Does::Delivers(FIRST, RANK),
    Does::PutsByte(b'a'),
    Does::Delivers(RANK, FIRST),
    Does::Delivers(FIRST, RANK),
    Does::PutsByte(b'b'),
    Does::Delivers(RANK, FIRST),
    Does::Delivers(FIRST, RANK),
];

const END: &[Does] = &[
    Does::Ends,
    Does::Delivers(RANK, FIRST),
    Does::Delivers(FIRST, RANK),
];

// The unit of number 1 is reserved and fetched: its own bytes come, and then those of its common part.
const WORK_1: [Does; 8] = [
    Does::Reserves,
    Does::Delivers(RANK, FIRST),
    Does::Delivers(FIRST, RANK),
    Does::Fetches(1),
    Does::Delivers(RANK, FIRST),
    Does::Delivers(FIRST, RANK),
    Does::Delivers(RANK, FIRST),
    Does::Delivers(FIRST, RANK),
];

// So it is of the unit of number 2.
const WORK_2: [Does; 8] = [
    Does::Reserves,
    Does::Delivers(RANK, FIRST),
    Does::Delivers(FIRST, RANK),
    Does::Fetches(2),
    Does::Delivers(RANK, FIRST),
    Does::Delivers(FIRST, RANK),
    Does::Delivers(RANK, FIRST),
    Does::Delivers(FIRST, RANK),
];

const PUT_SCENES: &[Scene] = &[
    Scene {
        shows: "rejects after every server refused",
        servers: 3,
        lines: &[
            (Line::Plays(FILLS), "9 done"),
            (Line::Plays(REFUSED), "7 done"),
            (
                Line::Ledger,
                "putting 0 0 56; accepted 0 0 0; putting 1 0 56; accepted 1 1 0; putting 2 0 56; accepted 2 2 0; \
                putting 3 0 9; refused 3 0 56; refused 3 1 56; refused 3 2 56; rejected 3 0 0; ",
            ),
            (Line::Answered, "4"),
        ],
    },
    Scene {
        shows: "what is not enabled changes nothing",
        servers: 3,
        lines: &[
            (Line::Applies(Does::Delivers(RANK, FIRST)), "refused"),
            (Line::Waiting(RANK, FIRST), "0"),
            (Line::Applies(Does::Delivers(FIRST, RANK)), "refused"),
            (Line::Waiting(FIRST, RANK), "0"),
            (Line::Applies(Does::Delivers(SECOND, THIRD)), "refused"),
            (Line::Waiting(SECOND, THIRD), "0"),
            (Line::Applies(Does::Delivers(RANK, RANK)), "refused"),
            (Line::Waiting(RANK, RANK), "0"),
            (Line::Applies(Does::Delivers(RANK, NONE)), "refused"),
            (Line::Waiting(RANK, NONE), "0"),
            (Line::Applies(Does::Delivers(OTHER, FIRST)), "refused"),
            (Line::Waiting(OTHER, FIRST), "0"),
            (Line::Applies(Does::Puts(9)), "done"),
            // The rank waits, so it is not ready for another call.
            (Line::Applies(Does::Puts(8)), "refused"),
            (Line::Ledger, "putting 0 0 9; "),
            (Line::Waiting(RANK, FIRST), "1"),
            (Line::Waiting(FIRST, RANK), "0"),
            (Line::Answered, "0"),
        ],
    },
];

const END_SCENES: &[Scene] = &[
    Scene {
        shows: "a run stops at the first refusal",
        servers: 3,
        lines: &[
            (Line::Runs(EVENTS), "2 done, then refused"),
            (Line::Waiting(FIRST, RANK), "1"),
            (Line::Runs(&[]), "0 done"),
            (Line::Applies(Does::Delivers(FIRST, RANK)), "done"),
            (Line::Ledger, "putting 0 0 5; accepted 0 0 0; "),
        ],
    },
    Scene {
        shows: "each server hears of the end and keeps what is left",
        servers: 3,
        lines: &[
            (Line::Plays(FILLS), "9 done"),
            (Line::Applies(Does::Finishes), "done"),
            (Line::Waiting(RANK, FIRST), "1"),
            (Line::Applies(Does::Delivers(RANK, FIRST)), "done"),
            (Line::Waiting(RANK, FIRST), "0"),
            (
                Line::Left(0),
                "[LeftUnit { id: UnitId { rank: Rank(0), number: 0 }, server: Server(0), pinned: None }]",
            ),
            (Line::Waiting(RANK, SECOND), "1"),
            (Line::Applies(Does::Delivers(RANK, SECOND)), "done"),
            (Line::Waiting(RANK, SECOND), "0"),
            (
                Line::Left(1),
                "[LeftUnit { id: UnitId { rank: Rank(0), number: 1 }, server: Server(1), pinned: None }]",
            ),
            (Line::Waiting(RANK, THIRD), "1"),
            (Line::Applies(Does::Delivers(RANK, THIRD)), "done"),
            (Line::Waiting(RANK, THIRD), "0"),
            (
                Line::Left(2),
                "[LeftUnit { id: UnitId { rank: Rank(0), number: 2 }, server: Server(2), pinned: None }]",
            ),
            (Line::Answered, "4"),
        ],
    },
];

const LOOK_SCENES: &[Scene] = &[
    Scene {
        shows: "a count tells of the units of a type",
        servers: 1,
        lines: &[
            (Line::Runs(TWO_PRIORITIES), "6 done"),
            (Line::Plays(&COUNT_1), "3 done"),
            (Line::Info, "Info { free: 2, top: Some(7), at_top: 1 }"),
            (Line::Plays(&COUNT_2), "3 done"),
            (Line::Info, "Info { free: 0, top: None, at_top: 0 }"),
            (
                Line::Ledger,
                "putting 0 0 1; accepted 0 0 0; putting 1 0 1; accepted 1 0 0; \
                counting 2 0 0; counted 2 0 2; counting 3 0 0; counted 3 0 0; ",
            ),
        ],
    },
    Scene {
        shows: "a count tells of the home alone",
        servers: 3,
        lines: &[
            (Line::Runs(FILLS), "9 done"),
            (Line::Applies(Does::Counts(1)), "done"),
            (Line::Waiting(RANK, SECOND), "0"),
            // It waits for the answer.
            (Line::Applies(Does::Counts(1)), "refused"),
            (Line::Applies(Does::Delivers(RANK, FIRST)), "done"),
            (Line::Applies(Does::Delivers(FIRST, RANK)), "done"),
            (Line::Info, "Info { free: 1, top: Some(0), at_top: 1 }"),
        ],
    },
    Scene {
        shows: "there is no work after each server has looked",
        servers: 3,
        lines: &[
            (Line::Plays(LOOKS), "7 done"),
            (
                Line::Ledger,
                "tried 0 0 0; looked 0 0 0; looked 0 1 0; looked 0 2 0; no current 0 0 0; ",
            ),
            (Line::Answered, "1"),
            (Line::Applies(Does::Tries), "done"),
            // The rank awaits the home, and no other server is asked before that has answered.
            (Line::Applies(Does::Tries), "refused"),
            (Line::Waiting(RANK, FIRST), "1"),
            (Line::Waiting(RANK, SECOND), "0"),
        ],
    },
    Scene {
        shows: "a try is granted the unit of another server",
        servers: 2,
        lines: &[
            (Line::Plays(PUTS), "6 done"),
            (Line::Plays(TRIES), "11 done"),
            (
                Line::Ledger,
                "putting 0 0 56; accepted 0 0 0; putting 1 0 9; accepted 1 1 0; tried 2 0 0; granted 0 0 0; \
                tried 3 0 0; looked 3 0 0; granted 1 1 0; fetching 1 0 0; fetched 1 1 0; ",
            ),
            (Line::Answered, "5"),
        ],
    },
];

const BATCH_SCENES: &[Scene] = &[Scene {
    shows: "a common part is fetched with each unit and then freed",
    servers: 1,
    lines: &[
        (Line::Applies(Does::Ends), "refused"),
        (Line::Runs(BATCH), "9 done"),
        // A batch is going on, so the rank does not finish.
        (Line::Applies(Does::Finishes), "refused"),
        (Line::Plays(&COUNT_1), "3 done"),
        (Line::Info, "Info { free: 2, top: Some(0), at_top: 2 }"),
        (Line::Runs(END), "3 done"),
        (Line::Plays(&WORK_1), "8 done"),
        (Line::Body, "xy a"),
        (Line::Plays(&WORK_2), "8 done"),
        (Line::Body, "xy b"),
        (
            Line::Ledger,
            "keeping 0 0 2; kept 0 0 0; putting 1 0 1; accepted 1 0 0; putting 2 0 1; accepted 2 0 0; \
                counting 3 0 0; counted 3 0 2; closing 4 0 0; closed 0 0 0; asked 5 0 0; granted 1 0 0; \
                fetching 1 0 0; fetched 1 0 0; common fetched 0 0 0; asked 7 0 0; granted 2 0 0; \
                fetching 2 0 0; fetched 2 0 0; common fetched 0 0 0; freed 0 0 0; ",
        ),
        (Line::Left(0), "[]"),
    ],
}];

// What the first scene shows that gives another thing, and at which of its lines.
fn first_other(alloc: Global, scenes: &[Scene]) -> Result<Option<(&str, usize)>, Fail> {
    for scene in scenes {
        if let Some(line) = other_line(alloc, scene)? {
            return Ok(Some((scene.shows, line)));
        }
    }
    Ok(None)
}

#[test]
fn lines_of_puts_and_what_is_not_enabled_give_what_is_beside_them(
    rt: HostRuntime,
) -> Result<(), Fail> {
    let other = first_other(rt.alloc(), PUT_SCENES)?;
    assert!(rt; other.is_none(), "{other:?}");
    Ok(())
}

#[test]
fn lines_of_refusals_and_ends_give_what_is_beside_them(rt: HostRuntime) -> Result<(), Fail> {
    let other = first_other(rt.alloc(), END_SCENES)?;
    assert!(rt; other.is_none(), "{other:?}");
    Ok(())
}

#[test]
fn lines_of_counts_and_tries_give_what_is_beside_them(rt: HostRuntime) -> Result<(), Fail> {
    let other = first_other(rt.alloc(), LOOK_SCENES)?;
    assert!(rt; other.is_none(), "{other:?}");
    Ok(())
}

#[test]
fn lines_of_a_batch_give_what_is_beside_them(rt: HostRuntime) -> Result<(), Fail> {
    let other = first_other(rt.alloc(), BATCH_SCENES)?;
    assert!(rt; other.is_none(), "{other:?}");
    Ok(())
}
