//! Scenes of one server: letters that it handles one after the other, with entries and answers that were found by hand.

ghost use Rattle.std.specs.Prelude.{◌<◌};

use crate::lines::{add_yes, same, show};
use adlb_unit::{
    Actor, AskedList, BatchId, Config, Letter, Message, Payload, Rank, Sending, Server, Target,
    Token, Trouble, Types, Unit, UnitId, UnitNote, Why, WorkType,
};
use server_core::{ServerState, Spare, Step};
use std::alloc::Global;
use std::fmt::Write;
use std::process::Abort;
use std::test::Fail;

pub(crate) const RANK: Actor = Actor::Rank(Rank(0));

pub(crate) const RANK_1: Actor = Actor::Rank(Rank(1));

pub(crate) const SERVER_0: Actor = Actor::Server(Server(0));

pub(crate) const SERVER_1: Actor = Actor::Server(Server(1));

pub(crate) const SERVER_2: Actor = Actor::Server(Server(2));

// What a letter says.
#[derive(Clone, Copy)]
pub(crate) enum Says {
    // A put of this rank's unit of this number, with a body of this length, each byte 7, for this target.
    Put(u32, u64, usize, Target),
    // A reserve of this request, of any type.
    Reserve(u64),
    // A try of this request, for this type.
    Try(u64, u32),
    // A fetch of this request, of rank 0's first unit.
    Fetch(u64),
    // The batch that begins in this request has a common part of this length, each byte 7.
    Keep(u64, usize),
    // This request ends rank 0's batch of this number, of which this number of units was accepted.
    Close(u64, u64, u64),
    // A fetch, in this request, of the common part of rank 0's batch of this number.
    Share(u64, u64),
    // A count, in this request, of the units of this type.
    Count(u64, u32),
    Done(u64),
    Finish,
    // The home of this rank asks for it, in its call of this request, for a unit of any type.
    Ask(u32, u64),
    // A server that was asked for this rank in this request has pinned rank 2's first unit to it, or has none.
    AskGrant(u32, u64),
    AskNone(u32, u64),
    // A unit has come for this rank, which asked in vain in this request.
    Hint(u32, u64),
    // Room for this rank's unit of this number and length is asked; there is room, or there is not.
    PushQuery(u32, u64, u32),
    PushYes(u32, u64),
    PushNo(u32, u64),
    // This rank's unit of this number and length, for any rank; or no unit comes; and its acknowledgement.
    PushUnit(u32, u64, usize),
    PushCancel(u32, u64),
    PushAck(u32, u64),
    // The token of the check of this number and wave, with nobody on its list; and that the run has ended.
    Token(u64, u8),
    Shutdown,
}

// A line of a scene: what is done with the server, or what is asked of it.
#[derive(Clone, Copy)]
pub(crate) enum Line {
    // It handles a letter of this rank: the stamp of the step, its letters and its entries.
    Hears(u32, Says),
    // It handles a letter of rank 0 that was sent with this stamp: the stamp of the step and its entries, or its trouble.
    HearsAt(u64, Says),
    // It handles a letter: the stamp of the step, its letters in short, and its entries.
    Answers(Actor, Says),
    // Whether it expects such a letter of this actor.
    Expects(Actor, Says),
    // Whether it expects a Finish letter of rank 0 with this stamp.
    ExpectsAt(u64),
    // Whether each rank that is at home there waits or has finished.
    IsQuiet,
    // Whether it has ended.
    HasEnded,
    // What broke it, if anything did.
    Broken,
    // Which units are left.
    Left,
}

// Rank 0 puts its first unit, and it is accepted as the first thing that happens.
pub(crate) const ACCEPTS_FIRST: &str =
    "1 [Sending { to: Rank(Rank(0)), letter: Letter { stamp: 1, place: 0, \
    message: Accepted { request: 0 } } }] \
    [Accepted { server: Server(0), id: UnitId { rank: Rank(0), number: 0 } }]";

// The grant of the unit of rank 0 to it, as the second thing that happens.
pub(crate) const GRANTS_SECOND: &str =
    "2 [Sending { to: Rank(Rank(0)), letter: Letter { stamp: 2, place: 1, \
    message: Grant { request: 1, note: UnitNote { id: UnitId { rank: Rank(0), number: 0 }, \
    kind: WorkType(5), prio: 3, answer: None, server: Server(0), common: None, length: 2 } } } }] \
    [Granted { server: Server(0), rank: Rank(0), call: 1, id: UnitId { rank: Rank(0), number: 0 } }]";

// Rank 0 looks in vain as the first thing that happens.
pub(crate) const LOOKS_FIRST: &str =
    "1 [Sending { to: Rank(Rank(0)), letter: Letter { stamp: 1, place: 0, \
    message: Nothing { request: 0 } } }] \
    [Looked { server: Server(0), rank: Rank(0), call: 0 }]";

// Rank 0 counts, in its call 2, a type of which no unit is free, as the third thing that happens.
pub(crate) const COUNTS_NONE_THIRD: &str =
    "3 [Sending { to: Rank(Rank(0)), letter: Letter { stamp: 3, place: 2, \
    message: Counted { request: 2, info: Info { free: 0, top: None, at_top: 0 } } } }] \
    [Counted { server: Server(0), rank: Rank(0), call: 2, info: Info { free: 0, top: None, at_top: 0 } }]";

// Rank 0 begins a batch, and its common part is kept as the first thing that happens.
pub(crate) const KEEPS_FIRST: &str =
    "1 [Sending { to: Rank(Rank(0)), letter: Letter { stamp: 1, place: 0, \
    message: Accepted { request: 0 } } }] \
    [Kept { server: Server(0), batch: BatchId { rank: Rank(0), number: 0 } }]";

// The message that says so. A rank sends it, or one of the others does.
fn message(alloc: Global, says: Says) -> Result<Message, Fail> {
    match says {
        Says::Put(rank, number, size, target) => Ok(Message::Put {
            unit: unit(alloc, rank, number, size, target)?,
        }),
        Says::Reserve(request) => Ok(Message::Reserve {
            request,
            types: Types::any(),
        }),
        Says::Try(request, kind) => Ok(Message::Try {
            request,
            types: Types::list(&[WorkType(kind)])?,
        }),
        Says::Fetch(request) => Ok(Message::Fetch {
            request,
            id: unit_id(0, 0),
        }),
        Says::Keep(request, size) => Ok(Message::KeepCommon {
            request,
            common: bytes(alloc, size)?,
        }),
        Says::Close(request, number, accepted) => Ok(Message::CloseBatch {
            request,
            batch: batch_id(number),
            accepted,
        }),
        Says::Share(request, number) => Ok(Message::FetchCommon {
            request,
            batch: batch_id(number),
        }),
        Says::Count(request, kind) => Ok(Message::Count {
            request,
            kind: WorkType(kind),
        }),
        Says::Done(request) => Ok(Message::Done { request }),
        Says::Finish => Ok(Message::Finish),
        says => between_servers(alloc, says),
    }
}

fn between_servers(alloc: Global, says: Says) -> Result<Message, Fail> {
    match says {
        Says::Ask(rank, request) => Ok(Message::Ask {
            rank: Rank(rank),
            request,
            types: Types::any(),
        }),
        Says::AskGrant(rank, request) => Ok(Message::AskGrant {
            rank: Rank(rank),
            request,
            note: note(),
        }),
        Says::AskNone(rank, request) => Ok(Message::AskNone {
            rank: Rank(rank),
            request,
        }),
        Says::Hint(rank, request) => Ok(Message::Hint {
            rank: Rank(rank),
            request,
        }),
        Says::Token(check, wave) => Ok(Message::Token {
            token: Token {
                check,
                wave,
                asked: AskedList::new(alloc)?,
            },
        }),
        Says::Shutdown => Ok(Message::Shutdown),
        says => of_a_push(alloc, says),
    }
}

fn of_a_push(alloc: Global, says: Says) -> Result<Message, Fail> {
    match says {
        Says::PushQuery(rank, number, length) => Ok(Message::PushQuery {
            id: unit_id(rank, number),
            length,
        }),
        Says::PushYes(rank, number) => Ok(Message::PushYes {
            id: unit_id(rank, number),
        }),
        Says::PushNo(rank, number) => Ok(Message::PushNo {
            id: unit_id(rank, number),
        }),
        Says::PushUnit(rank, number, size) => Ok(Message::PushUnit {
            unit: unit(alloc, rank, number, size, Target::Any)?,
        }),
        Says::PushCancel(rank, number) => Ok(Message::PushCancel {
            id: unit_id(rank, number),
        }),
        Says::PushAck(rank, number) => Ok(Message::PushAck {
            id: unit_id(rank, number),
        }),
        _ => Err("no message".into()),
    }
}

// The note of rank 2's first unit, which is at server 2.
fn note() -> UnitNote {
    UnitNote {
        id: unit_id(2, 0),
        kind: WorkType(5),
        prio: 3,
        answer: None,
        server: Server(2),
        common: None,
        length: 2,
    }
}

fn unit(alloc: Global, rank: u32, number: u64, size: usize, target: Target) -> Result<Unit, Fail> {
    Ok(Unit {
        id: unit_id(rank, number),
        kind: WorkType(5),
        prio: 3,
        target,
        answer: None,
        common: None,
        body: bytes(alloc, size)?,
    })
}

// A body of this length, each byte 7.
fn bytes(alloc: Global, size: usize) -> Result<Payload, Fail> {
    Ok(Payload::from_vec(vec![in alloc; 7_u8; size]?))
}

fn batch_id(number: u64) -> BatchId {
    BatchId {
        rank: Rank(0),
        number,
    }
}

fn unit_id(rank: u32, number: u64) -> UnitId {
    UnitId {
        rank: Rank(rank),
        number,
    }
}

// The letter that says so, the first of its event.
fn letter(alloc: Global, stamp: u64, says: Says) -> Result<Letter, Fail> {
    Ok(Letter {
        stamp,
        place: 0,
        message: message(alloc, says)?,
    })
}

// Whether the server expects the letter.
fn add_expects(
    alloc: Global,
    server: &ServerState,
    from: Actor,
    stamp: u64,
    says: Says,
    text: &mut String,
) -> Result<(), Fail> {
    let letter = letter(alloc, stamp, says)?;
    add_yes(text, server.expects(from, &letter))
}

// How the letters of a step are shown.
#[derive(Clone, Copy)]
enum Letters {
    InFull,
    InShort,
    Unseen,
}

// The server, which is not broken, handles a letter that it expects: its step, or its trouble.
fn add_heard(
    alloc: Global,
    server: &mut ServerState,
    (from, stamp): (Actor, u64),
    says: Says,
    letters: Letters,
    text: &mut String,
) -> Result<(), Fail> {
    let letter = letter(alloc, stamp, says)?;
    if server.broken().is_some() || !server.expects(from, &letter) {
        return Err("broken, or not expected".into());
    }
    match server.step(Spare::new(alloc), from, letter) {
        Ok(step) => add_step(text, &step, letters),
        Err(trouble) => add_trouble(text, trouble),
    }
}

fn add_trouble(text: &mut String, trouble: Trouble) -> Result<(), Fail> {
    match trouble {
        Trouble::Memory => Err(trouble.into()),
        Trouble::TooLong { .. } => show(text, &trouble),
    }
}

// The stamp of a step, its letters as they are to be shown, and its entries.
fn add_step(text: &mut String, step: &Step, letters: Letters) -> Result<(), Fail> {
    write!(text, "{}", step.stamp)?;
    match letters {
        Letters::InFull => write!(text, " {:?}", step.sends)?,
        Letters::InShort => add_letters(text, &step.sends)?,
        Letters::Unseen => {}
    }
    Ok(write!(text, " {:?}", step.entries)?)
}

fn add_letters(text: &mut String, sends: &[Sending]) -> Result<(), Fail> {
    for sending in sends {
        add_letter(text, sending)?;
    }
    Ok(())
}

// To whom a letter goes, its place, and what it says of which call.
fn add_letter(text: &mut String, sending: &Sending) -> Result<(), Fail> {
    let place = sending.letter.place;
    write!(text, ", {:?} {place} ", sending.to)?;
    add_words(text, &short(&sending.letter.message))
}

fn add_words(text: &mut String, words: &Short) -> Result<(), Fail> {
    for (word, number) in words {
        text.push_str(word)?;
        if let Some(number) = number {
            write!(text, "{number}")?;
        }
    }
    Ok(())
}

// A letter in short: words, each with the number that follows it, if one does.
type Short = [(&'static str, Option<u64>); 3];

const NO_WORD: (&str, Option<u64>) = ("", None);

fn one(word: &'static str, number: u64) -> Short {
    [(word, Some(number)), NO_WORD, NO_WORD]
}

fn two(word: &'static str, number: u64, then: &'static str, last: u64) -> Short {
    [(word, Some(number)), (then, Some(last)), NO_WORD]
}

fn short(message: &Message) -> Short {
    match message {
        Message::Ask { rank, request, .. } => of_call("ask ", *rank, *request),
        Message::AskGrant { rank, request, .. } => of_call("grant ", *rank, *request),
        Message::AskNone { rank, request } => of_call("none ", *rank, *request),
        Message::Hint { rank, request } => of_call("hint ", *rank, *request),
        Message::Grant { request, note } => {
            two("granted ", *request, " at ", u64::from(note.server.0))
        }
        Message::Accepted { request } => one("accepted ", *request),
        Message::Full { request, charge } => two("full ", *request, " at ", *charge),
        Message::Bytes { request, .. } => one("bytes ", *request),
        _ => push(message),
    }
}

// A rank, and the number of its call.
fn of_call(word: &'static str, rank: Rank, request: u64) -> Short {
    two(word, u64::from(rank.0), " ", request)
}

// A letter of a push: of which rank's unit, of which number.
fn push(message: &Message) -> Short {
    match message {
        Message::PushQuery { id, length } => of_length("query ", *id, u64::from(*length)),
        Message::PushYes { id } => of_unit("yes ", *id),
        Message::PushNo { id } => of_unit("no ", *id),
        Message::PushUnit { unit } => of_length("unit ", unit.id, unit.body.len() as u64),
        Message::PushCancel { id } => of_unit("cancel ", *id),
        Message::PushAck { id } => of_unit("ack ", *id),
        _ => check(message),
    }
}

fn of_unit(word: &'static str, id: UnitId) -> Short {
    two(word, u64::from(id.rank.0), " ", id.number)
}

fn of_length(word: &'static str, id: UnitId, length: u64) -> Short {
    let [rank, number, _] = of_unit(word, id);
    [rank, number, (" of ", Some(length))]
}

// A letter of a check, or of an end.
fn check(message: &Message) -> Short {
    match message {
        Message::Notice => [("notice", None), NO_WORD, NO_WORD],
        Message::Token { token } => two("token ", token.check, " in wave ", u64::from(token.wave)),
        Message::Failed { token, why } => failed(token.check, reason(why)),
        Message::DoneHeard { request } => one("done heard ", *request),
        Message::Ended { request, .. } => one("ended ", *request),
        _ => [("another", None), NO_WORD, NO_WORD],
    }
}

fn failed(check: u64, reason: &'static str) -> Short {
    [("failed ", Some(check)), (" as ", None), (reason, None)]
}

fn reason(why: &Why) -> &'static str {
    match why {
        Why::Busy => "busy",
        Why::Changed { .. } => "changed",
        Why::Fits { .. } => "fits",
    }
}

// What a line of a scene gives, as it is shown.
fn add_line(
    alloc: Global,
    server: &mut ServerState,
    line: Line,
    text: &mut String,
) -> Result<(), Fail> {
    match line {
        Line::Hears(rank, says) => {
            let from = Actor::Rank(Rank(rank));
            add_heard(alloc, server, (from, 0), says, Letters::InFull, text)
        }
        Line::HearsAt(stamp, says) => {
            add_heard(alloc, server, (RANK, stamp), says, Letters::Unseen, text)
        }
        Line::Answers(from, says) => {
            add_heard(alloc, server, (from, 0), says, Letters::InShort, text)
        }
        line => add_told(alloc, server, line, text),
    }
}

// What the server tells of itself.
fn add_told(
    alloc: Global,
    server: &ServerState,
    line: Line,
    text: &mut String,
) -> Result<(), Fail> {
    match line {
        Line::Expects(from, says) => add_expects(alloc, server, from, 0, says, text),
        Line::ExpectsAt(stamp) => add_expects(alloc, server, RANK, stamp, Says::Finish, text),
        Line::IsQuiet => add_yes(text, server.is_quiet()),
        Line::HasEnded => add_yes(text, server.ended()),
        Line::Broken => show(text, &server.broken()),
        Line::Left => add_left(text, server),
        _ => Ok(()),
    }
}

fn add_left(text: &mut String, server: &ServerState) -> Result<(), Fail> {
    let left = server.left()?;
    show(text, &left)
}

/// What it shows; the numbers of ranks and servers of the run, and which server it is; and the lines, each with what it
/// gives.
pub(crate) type Scene = (
    &'static str,
    (u32, u32, u32),
    &'static [(Line, &'static str)],
);

/// In each scene a server with the lowest limit gives what is written beside each line.
pub(crate) fn play(rt: &impl Abort, alloc: Global, scenes: &[Scene]) -> Result<(), Fail> {
    for scene in scenes {
        let (_, (ranks, servers, me), _) = *scene;
        if me >= servers {
            return Err("no such server".into());
        }
        play_one(
            rt,
            alloc,
            Config::new(ranks, servers, 64)?,
            Server(me),
            scene,
        )?;
    }
    Ok(())
}

fn play_one(
    rt: &impl Abort,
    alloc: Global,
    config: Config,
    me: Server,
    scene: &Scene,
) -> Result<(), Fail>
    requires { me.0 < config.servers }
{
    let mut server = ServerState::new(alloc, config, me)?;
    go_through(rt, alloc, &mut server, scene)
}

// The server gives what is written beside each line.
fn go_through(
    rt: &impl Abort,
    alloc: Global,
    server: &mut ServerState,
    (shows, _, lines): &Scene,
) -> Result<(), Fail> {
    for (line, expected) in *lines {
        let mut given = String::new(alloc);
        add_line(alloc, server, *line, &mut given)?;
        same(rt, shows, given.as_str(), expected);
    }
    Ok(())
}
