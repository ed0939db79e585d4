//! Clients driven by hand, a call or a letter at a time, with letters, entries and answers that were found by hand.

use crate::lines::{add_yes, same, show};
use adlb_unit::{
    Actor, BatchId, CommonRef, Config, End, Info, Letter, Message, Payload, Rank, Sending, Server,
    Target, Types, UnitId, UnitNote, WorkType,
};
use bag_ledger::{Answer, Body, Call, Entry};
use rank_client::{ClientCore, ClientStep};
use std::alloc::Global;
use std::fmt::Write;
use std::process::Abort;
use std::test::Fail;

// A call of rank 0.
#[derive(Clone, Copy)]
enum Makes {
    // A put of four bytes for this target.
    Put(Target),
    Reserve,
    Try,
    // A fetch of rank 1's unit of this number.
    Fetch(u64),
    // A batch with a common part of four bytes.
    BeginBatch,
    EndBatch,
    // A count of the units of type 1.
    Count,
    SetDone,
    Finish,
}

// What a letter says, in answer to the request of this number.
#[derive(Clone, Copy)]
enum Says {
    Accepted(u64),
    // This number of bytes is charged.
    Full(u64, u64),
    // Rank 1's unit of this number is at this server.
    Grant(u64, u64, u32),
    // The first unit of rank 1, with a common part at this server.
    GrantInBatch(u64, u32),
    Bytes(u64, &'static [u8]),
    Ended(u64, End),
    Nothing(u64),
    Closed(u64),
    // This number of units is free, and one of them has the highest priority, 7.
    Counted(u64, u64),
    DoneHeard(u64),
    Finish,
}

// A line of a scene: what is done with the client, or what is asked of it.
#[derive(Clone, Copy)]
enum Line {
    // The rank makes a call: the stamp, to whom letters go, the entries with their calls, and the answer if there is one.
    Begins(Makes),
    // It hears a letter of this server with this stamp: what it gives, shown in the same way.
    Hears(u32, u64, Says),
    // Whether it is ready for the call.
    IsReady(Makes),
    // Whether it expects a letter of this server with this stamp.
    Expects(u32, u64, Says),
    // How many calls are answered.
    Answered,
    // The call that was begun last, with its answer if there is one.
    SaidLast,
}

// Rank 1's unit of number 7 is granted, in the rank's second event.
const GRANTED: &str =
    "3 Granted(UnitNote { id: UnitId { rank: Rank(1), number: 7 }, kind: WorkType(1), \
    prio: 0, answer: None, server: Server(0), common: None, length: 4 })";

// Rank 1's unit of number 7, which is at server 1, is granted in the rank's third event.
const GRANTED_ELSEWHERE: &str =
    "5 Granted(UnitNote { id: UnitId { rank: Rank(1), number: 7 }, kind: WorkType(1), \
    prio: 0, answer: None, server: Server(1), common: None, length: 4 })";

// This unit is granted in the rank's second event.
const RESERVED_ELSEWHERE: &str =
    "3 Granted(UnitNote { id: UnitId { rank: Rank(1), number: 7 }, kind: WorkType(1), \
    prio: 0, answer: None, server: Server(1), common: None, length: 4 })";

// Rank 1's first unit is granted, which has a common part.
const GRANTED_IN_BATCH: &str =
    "3 Granted(UnitNote { id: UnitId { rank: Rank(1), number: 0 }, kind: WorkType(1), \
    prio: 0, answer: None, server: Server(0), common: Some(CommonRef { batch: \
    BatchId { rank: Rank(0), number: 0 }, server: Server(0), length: 4 }), length: 4 })";

fn call(alloc: Global, makes: Makes) -> Result<Call, Fail> {
    Ok(match makes {
        Makes::Put(target) => Call::Put {
            kind: WorkType(1),
            prio: 0,
            target,
            answer: None,
            body: Payload::copy(alloc, b"unit")?,
        },
        Makes::Reserve => Call::Reserve {
            types: Types::any(),
        },
        Makes::Try => Call::Try {
            types: Types::any(),
        },
        Makes::Fetch(number) => Call::Fetch {
            id: unit_id(number),
        },
        Makes::BeginBatch => Call::BeginBatch {
            common: Payload::copy(alloc, b"part")?,
        },
        Makes::EndBatch => Call::EndBatch,
        Makes::Count => Call::Count { kind: WorkType(1) },
        Makes::SetDone => Call::SetDone,
        Makes::Finish => Call::Finish,
    })
}

fn unit_id(number: u64) -> UnitId {
    UnitId {
        rank: Rank(1),
        number,
    }
}

fn message(alloc: Global, says: Says) -> Result<Message, Fail> {
    Ok(match says {
        Says::Accepted(request) => Message::Accepted { request },
        Says::Full(request, charge) => Message::Full { request, charge },
        Says::Grant(request, number, server) => Message::Grant {
            request,
            note: note(number, server, None),
        },
        Says::GrantInBatch(request, server) => Message::Grant {
            request,
            note: note(0, 0, Some(common_part(server))),
        },
        Says::Bytes(request, bytes) => Message::Bytes {
            request,
            body: Payload::copy(alloc, bytes)?,
        },
        Says::Ended(request, end) => Message::Ended { request, end },
        Says::Nothing(request) => Message::Nothing { request },
        Says::Closed(request) => Message::Closed { request },
        Says::Counted(request, free) => Message::Counted {
            request,
            info: info(free),
        },
        Says::DoneHeard(request) => Message::DoneHeard { request },
        Says::Finish => Message::Finish,
    })
}

// The note of a unit of rank 1 with four bytes.
fn note(number: u64, server: u32, common: Option<CommonRef>) -> UnitNote {
    UnitNote {
        id: unit_id(number),
        kind: WorkType(1),
        prio: 0,
        answer: None,
        server: Server(server),
        common,
        length: 4,
    }
}

// This number of units is free, and one of them has the highest priority, 7.
fn info(free: u64) -> Info {
    Info {
        free,
        top: Some(7),
        at_top: 1,
    }
}

// A common part of four bytes.
fn common_part(server: u32) -> CommonRef {
    CommonRef {
        batch: BatchId {
            rank: Rank(0),
            number: 0,
        },
        server: Server(server),
        length: 4,
    }
}

fn letter(alloc: Global, stamp: u64, says: Says) -> Result<Letter, Fail> {
    Ok(Letter {
        stamp,
        place: 0,
        message: message(alloc, says)?,
    })
}

// The client begins a call that it is ready for.
fn begin(
    alloc: Global,
    client: &mut ClientCore,
    step: &mut ClientStep,
    makes: Makes,
) -> Result<(), Fail> {
    let call = call(alloc, makes)?;
    if !client.ready(&call) {
        return Err("not ready".into());
    }
    Ok(client.begin(step, call)?)
}

// The client hears a letter that it expects.
fn hear(
    alloc: Global,
    client: &mut ClientCore,
    step: &mut ClientStep,
    from: u32,
    stamp: u64,
    says: Says,
) -> Result<(), Fail> {
    let letter = letter(alloc, stamp, says)?;
    if !client.expects(Server(from), &letter) {
        return Err("not expected".into());
    }
    Ok(client.hear(step, Server(from), letter)?)
}

// Whether the client is ready for the call.
fn add_ready(
    alloc: Global,
    client: &ClientCore,
    makes: Makes,
    all: &mut String,
) -> Result<(), Fail> {
    let call = call(alloc, makes)?;
    add_yes(all, client.ready(&call))
}

// Whether the client expects the letter.
fn add_expects(
    alloc: Global,
    client: &ClientCore,
    from: u32,
    stamp: u64,
    says: Says,
    all: &mut String,
) -> Result<(), Fail> {
    let letter = letter(alloc, stamp, says)?;
    add_yes(all, client.expects(Server(from), &letter))
}

// To whom letters go, with the batch of a unit, what the end of a batch tells, and that the problem is done.
fn add_receivers(all: &mut String, sends: &[Sending]) -> Result<(), Fail> {
    for sending in sends {
        match sending.to {
            Actor::Server(Server(number)) => write!(all, " to {number}")?,
            Actor::Rank(_) => all.push_str(" to a rank")?,
        }
        add_detail(all, &sending.letter.message)?;
    }
    Ok(())
}

fn add_detail(all: &mut String, message: &Message) -> Result<(), Fail> {
    match message {
        Message::Put { unit } => add_part(all, unit.common),
        Message::CloseBatch { accepted, .. } => Ok(write!(all, " after {accepted}")?),
        Message::Done { request } => Ok(write!(all, " with Done {request}")?),
        _ => Ok(()),
    }
}

fn add_part(all: &mut String, common: Option<CommonRef>) -> Result<(), Fail> {
    if let Some(part) = common {
        let number = part.batch.number;
        let at = part.server.0;
        write!(all, " in batch {number} at {at}")?;
    }
    Ok(())
}

// What each entry is, and its call.
fn add_names(all: &mut String, entries: &[Entry]) -> Result<(), Fail> {
    for entry in entries {
        add_name(all, name(entry))?;
    }
    Ok(())
}

fn add_name(all: &mut String, (name, call): (&str, u64)) -> Result<(), Fail> {
    Ok(write!(all, " {name} {call}")?)
}

fn name(entry: &Entry) -> (&'static str, u64) {
    match entry {
        Entry::Putting { call, .. } => ("putting", *call),
        Entry::Rejected { call, .. } => ("rejected", *call),
        Entry::Asked { call, .. } => ("asked", *call),
        Entry::Tried { call, .. } => ("tried", *call),
        Entry::NoCurrent { call, .. } => ("no current", *call),
        Entry::Fetching { call, .. } => ("fetching", *call),
        Entry::Keeping { call, .. } => ("keeping", *call),
        Entry::Closing { call, .. } => ("closing", *call),
        Entry::Counting { call, .. } => ("counting", *call),
        Entry::Done { call, .. } => ("done", *call),
        Entry::Over { call, .. } => ("over", *call),
        Entry::Finished { call, .. } => ("finished", *call),
        _ => ("other", 0),
    }
}

fn text(bytes: &[u8]) -> &str {
    str::from_utf8(bytes).unwrap_or("?")
}

fn add_answer(all: &mut String, answer: &Option<Answer>) -> Result<(), Fail> {
    match answer {
        None => Ok(()),
        Some(Answer::Body(body)) => add_body(all, body),
        Some(other) => add_other(all, other),
    }
}

fn add_other(all: &mut String, answer: &Answer) -> Result<(), Fail> {
    Ok(write!(all, " {answer:?}")?)
}

// The common bytes of a unit, and its own.
fn add_body(all: &mut String, body: &Body) -> Result<(), Fail> {
    let (common, own) = body.runs();
    let (common, own) = (text(common), text(own));
    Ok(write!(all, " bytes {common}|{own}")?)
}

// What a step gives: its stamp, to whom letters go, the entries, and the answer if there is one.
fn add_step(all: &mut String, step: &ClientStep) -> Result<(), Fail> {
    let stamp = step.stamp;
    write!(all, "{stamp}")?;
    add_receivers(all, &step.sends)?;
    add_names(all, &step.entries)?;
    add_answer(all, &step.answer)
}

// The call that the client began last, and how many were answered.
#[derive(Drop)]
struct Told {
    begun: Option<Makes>,
    answered: usize,
}

impl Told {
    // What a step of the client tells.
    fn hear(&mut self, line: Line, step: &ClientStep) {
        if let Line::Begins(makes) = line {
            self.begun = Some(makes);
        }
        if matches!(line, Line::Begins(_) | Line::Hears(..)) && step.answer.is_some() {
            self.answered = self.answered.saturating_add(1);
        }
    }
}

// The client makes the call or hears the letter of a line, if there is one.
fn act(
    alloc: Global,
    client: &mut ClientCore,
    step: &mut ClientStep,
    line: Line,
) -> Result<(), Fail> {
    match line {
        Line::Begins(makes) => begin(alloc, client, step, makes),
        Line::Hears(from, stamp, says) => hear(alloc, client, step, from, stamp, says),
        _ => Ok(()),
    }
}

// What a line gives, as it is shown.
fn add_line(
    alloc: Global,
    client: &mut ClientCore,
    step: &mut ClientStep,
    told: &mut Told,
    line: Line,
    all: &mut String,
) -> Result<(), Fail> {
    act(alloc, client, step, line)?;
    told.hear(line, step);
    match line {
        Line::Begins(_) | Line::Hears(..) => add_step(all, step),
        Line::IsReady(makes) => add_ready(alloc, client, makes, all),
        Line::Expects(from, stamp, says) => add_expects(alloc, client, from, stamp, says, all),
        Line::Answered => show(all, &told.answered),
        Line::SaidLast => add_last(alloc, all, step, told),
    }
}

// The call that the client began last, with its answer.
fn add_last(alloc: Global, all: &mut String, step: &ClientStep, told: &Told) -> Result<(), Fail> {
    match told.begun {
        None => Ok(all.push_str("none")?),
        Some(makes) => {
            add_call(alloc, all, makes)?;
            add_answer(all, &step.answer)
        }
    }
}

fn add_call(alloc: Global, all: &mut String, makes: Makes) -> Result<(), Fail> {
    let call = call(alloc, makes)?;
    show(all, &call)
}

// What it shows, the number of servers, and the lines, each with what it gives.
type Scene = (&'static str, u32, &'static [(Line, &'static str)]);

// In each scene a client of rank 0, one of two ranks, gives what is written beside each line.
fn play(rt: &impl Abort, alloc: Global, scenes: &[Scene]) -> Result<(), Fail> {
    for scene in scenes {
        play_one(rt, alloc, Config::new(2, scene.1, 64)?, scene)?;
    }
    Ok(())
}

fn play_one(rt: &impl Abort, alloc: Global, config: Config, scene: &Scene) -> Result<(), Fail> {
    let mut client = ClientCore::new(alloc, config, Rank(0))?;
    with_step(rt, alloc, &mut client, scene)
}

// The client makes its steps here. (By itself, so that what the client owns is not seen with what the step does.)
fn with_step(
    rt: &impl Abort,
    alloc: Global,
    client: &mut ClientCore,
    scene: &Scene,
) -> Result<(), Fail> {
    let mut step = ClientStep::new(alloc)?;
    go_through(rt, alloc, client, &mut step, scene)
}

// The client gives what is written beside each line.
fn go_through(
    rt: &impl Abort,
    alloc: Global,
    client: &mut ClientCore,
    step: &mut ClientStep,
    (shows, _, lines): &Scene,
) -> Result<(), Fail> {
    let mut told = Told {
        begun: None,
        answered: 0,
    };
    for (line, expected) in *lines {
        let mut given = String::new(alloc);
        add_line(alloc, client, step, &mut told, *line, &mut given)?;
        same(rt, shows, given.as_str(), expected);
    }
    Ok(())
}

const LAST: u64 = (1 << 48) - 1;

const CALLS: &[Scene] = &[
    (
        "a put is accepted by its target's home",
        2,
        &[
            (
                Line::Begins(Makes::Put(Target::Only(Rank(1)))),
                "1 to 1 putting 0",
            ),
            (Line::IsReady(Makes::Reserve), "no"),
            (Line::Hears(1, 2, Says::Accepted(0)), "3 Fine"),
            (Line::Answered, "1"),
        ],
    ),
    (
        "a put is rejected after each server refused",
        2,
        &[
            (Line::Begins(Makes::Put(Target::Any)), "1 to 0 putting 0"),
            (Line::Hears(0, 2, Says::Full(0, 64)), "3 to 1"),
            (
                Line::Hears(1, 4, Says::Full(0, 61)),
                "5 rejected 0 Rejected",
            ),
            // The next put begins one server further on.
            (Line::Begins(Makes::Put(Target::Any)), "6 to 1 putting 1"),
            (Line::Hears(1, 7, Says::Accepted(1)), "8 Fine"),
            (Line::IsReady(Makes::Reserve), "yes"),
        ],
    ),
    (
        "a reserved unit is fetched",
        1,
        &[
            (Line::IsReady(Makes::Fetch(7)), "no"),
            (Line::Begins(Makes::Reserve), "1 to 0 asked 0"),
            (Line::Hears(0, 2, Says::Grant(0, 7, 0)), GRANTED),
            (Line::Begins(Makes::Fetch(7)), "4 to 0 fetching 1"),
            (Line::Hears(0, 5, Says::Bytes(1, b"unit")), "6 bytes |unit"),
            (Line::IsReady(Makes::Fetch(7)), "no"),
            (Line::Begins(Makes::Finish), "7 to 0 finished 2 Fine"),
            (Line::IsReady(Makes::Reserve), "no"),
            (Line::Answered, "3"),
        ],
    ),
    (
        "a reserve is granted a unit of another server by the home",
        2,
        &[
            (Line::Begins(Makes::Reserve), "1 to 0 asked 0"),
            (Line::Expects(1, 1, Says::Grant(0, 7, 1)), "no"),
            (Line::Hears(0, 2, Says::Grant(0, 7, 1)), RESERVED_ELSEWHERE),
            (Line::Begins(Makes::Fetch(7)), "4 to 1 fetching 1"),
        ],
    ),
    (
        "an end is told again without a letter",
        1,
        &[
            (Line::Begins(Makes::Reserve), "1 to 0 asked 0"),
            (
                Line::Hears(0, 2, Says::Ended(0, End::Exhausted)),
                "3 Ended(Exhausted)",
            ),
            (
                Line::Begins(Makes::Put(Target::Any)),
                "4 putting 1 over 1 Ended(Exhausted)",
            ),
        ],
    ),
];

#[test]
fn calls_are_answered(rt: HostRuntime) -> Result<(), Fail> {
    play(&rt, rt.alloc(), CALLS)
}

const AWAITED: &[Scene] = &[
    (
        "a put awaits the server that was asked",
        2,
        &[
            (Line::Expects(1, 1, Says::Accepted(0)), "no"),
            (
                Line::Begins(Makes::Put(Target::Only(Rank(1)))),
                "1 to 1 putting 0",
            ),
            (Line::Expects(1, 1, Says::Accepted(0)), "yes"),
            (Line::Expects(1, LAST, Says::Accepted(0)), "yes"),
            (Line::Expects(0, 1, Says::Accepted(0)), "no"),
            (Line::Expects(1, 1, Says::Accepted(1)), "no"),
            (Line::Expects(1, LAST + 1, Says::Accepted(0)), "no"),
        ],
    ),
    (
        "a put awaits its answers",
        2,
        &[
            (
                Line::Begins(Makes::Put(Target::Only(Rank(1)))),
                "1 to 1 putting 0",
            ),
            (Line::Expects(1, 1, Says::Full(0, 64)), "yes"),
            (Line::Expects(1, 1, Says::Ended(0, End::Exhausted)), "yes"),
            (Line::Expects(1, 1, Says::Nothing(0)), "no"),
            (Line::Expects(1, 1, Says::Grant(0, 0, 1)), "no"),
            (Line::Expects(1, 1, Says::Finish), "no"),
        ],
    ),
    (
        "a reserve awaits its answers",
        1,
        &[
            (Line::Begins(Makes::Reserve), "1 to 0 asked 0"),
            (Line::Expects(0, 1, Says::Grant(0, 7, 0)), "yes"),
            (Line::Expects(0, 1, Says::Grant(1, 7, 0)), "no"),
            (Line::Expects(0, 1, Says::Grant(0, 7, 1)), "no"),
            (Line::Expects(0, 1, Says::GrantInBatch(0, 0)), "yes"),
            (Line::Expects(0, 1, Says::GrantInBatch(0, 1)), "no"),
            (Line::Expects(0, 1, Says::Ended(0, End::NoMoreWork)), "yes"),
            (Line::Expects(0, 1, Says::Accepted(0)), "no"),
        ],
    ),
    (
        "a fetch awaits as many bytes as its note says",
        1,
        &[
            (Line::Begins(Makes::Reserve), "1 to 0 asked 0"),
            (Line::Hears(0, 2, Says::Grant(0, 7, 0)), GRANTED),
            (Line::Begins(Makes::Fetch(7)), "4 to 0 fetching 1"),
            (Line::Expects(0, 1, Says::Bytes(1, b"unit")), "yes"),
            (Line::Expects(0, 1, Says::Bytes(1, b"uni")), "no"),
        ],
    ),
    (
        "a unit that was fetched is not granted again",
        1,
        &[
            (Line::Begins(Makes::Reserve), "1 to 0 asked 0"),
            (Line::Hears(0, 2, Says::Grant(0, 7, 0)), GRANTED),
            (Line::Begins(Makes::Fetch(7)), "4 to 0 fetching 1"),
            (Line::Hears(0, 5, Says::Bytes(1, b"unit")), "6 bytes |unit"),
            (Line::Begins(Makes::Reserve), "7 to 0 asked 2"),
            (Line::Expects(0, 1, Says::Grant(2, 7, 0)), "no"),
            (Line::Expects(0, 1, Says::Grant(2, 8, 0)), "yes"),
        ],
    ),
];

#[test]
fn answers_are_awaited(rt: HostRuntime) -> Result<(), Fail> {
    play(&rt, rt.alloc(), AWAITED)
}

const ROUNDS: &[Scene] = &[
    (
        "a batch is kept by one server until it ends",
        2,
        &[
            (Line::IsReady(Makes::EndBatch), "no"),
            (Line::Begins(Makes::BeginBatch), "1 to 0 keeping 0"),
            (Line::Hears(0, 2, Says::Full(0, 64)), "3 to 1"),
            (Line::Hears(1, 4, Says::Accepted(0)), "5 Fine"),
            (Line::IsReady(Makes::BeginBatch), "no"),
            (Line::IsReady(Makes::Finish), "no"),
            (
                Line::Begins(Makes::Put(Target::Only(Rank(0)))),
                "6 to 0 in batch 0 at 1 putting 1",
            ),
            (Line::Hears(0, 7, Says::Accepted(1)), "8 Fine"),
            (Line::Begins(Makes::EndBatch), "9 to 1 after 1 closing 2"),
            (Line::Expects(0, 1, Says::Closed(2)), "no"),
            (Line::Hears(1, 10, Says::Closed(2)), "11 Fine"),
            (
                Line::Begins(Makes::Put(Target::Only(Rank(0)))),
                "12 to 0 putting 3",
            ),
        ],
    ),
    (
        "the common bytes stand before the unit's own",
        1,
        &[
            (Line::Begins(Makes::Reserve), "1 to 0 asked 0"),
            (
                Line::Hears(0, 2, Says::GrantInBatch(0, 0)),
                GRANTED_IN_BATCH,
            ),
            (Line::Begins(Makes::Fetch(0)), "4 to 0 fetching 1"),
            (Line::Hears(0, 5, Says::Bytes(1, b"unit")), "6 to 0"),
            (Line::Expects(0, 1, Says::Bytes(1, b"par")), "no"),
            (
                Line::Hears(0, 7, Says::Bytes(1, b"part")),
                "8 bytes part|unit",
            ),
        ],
    ),
    (
        "a try goes round the servers",
        3,
        &[
            (Line::Begins(Makes::Try), "1 to 0 tried 0"),
            (Line::IsReady(Makes::Try), "no"),
            (Line::Hears(0, 2, Says::Nothing(0)), "3 to 1"),
            (Line::Expects(0, 1, Says::Nothing(0)), "no"),
            (Line::Hears(1, 4, Says::Nothing(0)), "5 to 2"),
            (
                Line::Hears(2, 6, Says::Nothing(0)),
                "7 no current 0 NoCurrent",
            ),
            (Line::Answered, "1"),
            // The next try begins at the home again.
            (Line::Begins(Makes::Try), "8 to 0 tried 1"),
        ],
    ),
    (
        "a try is granted a unit of the second server",
        2,
        &[
            (Line::Begins(Makes::Try), "1 to 0 tried 0"),
            (Line::Hears(0, 2, Says::Nothing(0)), "3 to 1"),
            (Line::Hears(1, 4, Says::Grant(0, 7, 1)), GRANTED_ELSEWHERE),
            (Line::Begins(Makes::Fetch(7)), "6 to 1 fetching 1"),
        ],
    ),
    (
        "a try awaits its answers",
        2,
        &[
            (Line::Begins(Makes::Try), "1 to 0 tried 0"),
            (Line::Expects(0, 1, Says::Nothing(0)), "yes"),
            (Line::Expects(0, 1, Says::Nothing(1)), "no"),
            (Line::Expects(1, 1, Says::Nothing(0)), "no"),
            (Line::Expects(0, 1, Says::Grant(0, 7, 0)), "yes"),
            (Line::Expects(1, 1, Says::Grant(0, 7, 0)), "no"),
            (Line::Expects(0, 1, Says::Grant(0, 7, 2)), "no"),
            (Line::Expects(0, 1, Says::Ended(0, End::NoMoreWork)), "yes"),
            (Line::Expects(0, 1, Says::Full(0, 64)), "no"),
        ],
    ),
    (
        "after an end a try is told it again",
        2,
        &[
            (Line::Begins(Makes::Try), "1 to 0 tried 0"),
            (
                Line::Hears(0, 2, Says::Ended(0, End::NoMoreWork)),
                "3 Ended(NoMoreWork)",
            ),
            (
                Line::Begins(Makes::Try),
                "4 tried 1 over 1 Ended(NoMoreWork)",
            ),
        ],
    ),
];

#[test]
fn batches_and_tries(rt: HostRuntime) -> Result<(), Fail> {
    play(&rt, rt.alloc(), ROUNDS)
}

const ENDS: &[Scene] = &[
    (
        "a count is told by the home",
        2,
        &[
            (Line::Begins(Makes::Count), "1 to 0 counting 0"),
            (Line::IsReady(Makes::Count), "no"),
            (Line::Expects(1, 1, Says::Counted(0, 2)), "no"),
            (Line::Expects(0, 1, Says::Counted(1, 2)), "no"),
            (Line::Expects(0, 1, Says::Nothing(0)), "no"),
            (
                Line::Hears(0, 2, Says::Counted(0, 2)),
                "3 Info(Info { free: 2, top: Some(7), at_top: 1 })",
            ),
            (Line::Answered, "1"),
        ],
    ),
    (
        "after an end the home is asked for a count",
        1,
        &[
            (Line::Begins(Makes::Reserve), "1 to 0 asked 0"),
            (
                Line::Hears(0, 2, Says::Ended(0, End::Exhausted)),
                "3 Ended(Exhausted)",
            ),
            (Line::Begins(Makes::Count), "4 to 0 counting 1"),
        ],
    ),
    (
        "each server hears that the problem is done",
        2,
        &[
            (Line::Begins(Makes::SetDone), "1 to 0 with Done 0 done 0"),
            (Line::IsReady(Makes::Finish), "no"),
            (Line::Expects(1, 1, Says::DoneHeard(0)), "no"),
            (Line::Expects(0, 1, Says::DoneHeard(1)), "no"),
            (Line::Expects(0, 1, Says::Ended(0, End::NoMoreWork)), "no"),
            (Line::Hears(0, 2, Says::DoneHeard(0)), "3 to 1 with Done 0"),
            (Line::Answered, "0"),
            (Line::Expects(0, 1, Says::DoneHeard(0)), "no"),
            (Line::Hears(1, 4, Says::DoneHeard(0)), "5 Fine"),
            (Line::SaidLast, "SetDone Fine"),
            (Line::Answered, "1"),
            (Line::IsReady(Makes::Finish), "yes"),
        ],
    ),
    (
        "after an end each server still hears that the problem is done",
        2,
        &[
            (Line::Begins(Makes::Reserve), "1 to 0 asked 0"),
            (
                Line::Hears(0, 2, Says::Ended(0, End::NoMoreWork)),
                "3 Ended(NoMoreWork)",
            ),
            (Line::Begins(Makes::SetDone), "4 to 0 with Done 1 done 1"),
            (Line::Hears(0, 5, Says::DoneHeard(1)), "6 to 1 with Done 1"),
            (Line::Hears(1, 7, Says::DoneHeard(1)), "8 Fine"),
            (Line::SaidLast, "SetDone Fine"),
        ],
    ),
];

#[test]
fn counts_and_ends(rt: HostRuntime) -> Result<(), Fail> {
    play(&rt, rt.alloc(), ENDS)
}
