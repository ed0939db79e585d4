//! Calls of a rank whose servers' letters are in its mailbox beforehand.

ghost use Rattle.std.specs.Prelude.{◌≡◌, ◌<◌, ◌+◌, [], false};
ghost use Rattle.actor_desk.specs.Desks.{IsNew};
ghost use Rattle.rank_client.specs.Calls.{has_finished};

use crate::cast::{Others, POOL};
use crate::gates::LentGate;
use crate::heard::Heard;
use crate::parts::{Part, Script, is_played};
use crate::programs::{begin, put, take};
use crate::says::{Line, Says, TOO_LONG};
use actor_desk::{Desk, Mailing};
use adlb_io::GatePoint;
use adlb_unit::{Config, NoMemory, Rank, STAMP_LIMIT, Target, Trouble};
use crossbeam_channel::{Receiver, Sender, bounded};
use rank_client::{Adlb, EndFault, PutFault};
use std::alloc::Global;
use std::sync::Wait;
use std::test::Fail;
use thread_actors::{ActorFault, LinkEnd, ThreadedLink};

type Link<'a, R, M> = ThreadedLink<R, LentGate<'a, R>, M>;

// A call of rank 0.
enum Does {
    // Puts a unit of one byte.
    Put,
    // Reserves a unit and leaves it.
    Reserve,
    // Reserves a unit and fetches its bytes.
    Work,
    BeginBatch,
}

// What the rank is told.
#[derive(Clone, Copy, PartialEq)]
enum Told {
    Put(Result<(), PutFault>),
    // Whether it got the bytes `c` with the common part `ab`.
    Took(Result<bool, EndFault>),
}

fn told_of_call<A: Adlb>(link: &mut A, alloc: Global, does: &Does) -> Told
    requires { has_finished (A.link link.old).said ≡ false }
    ensures { has_finished (A.link link.new).said ≡ false }
{
    match does {
        Does::Put => Told::Put(put(alloc, link, Target::Any)),
        Does::Reserve => Told::Took(take(link, false)),
        Does::Work => Told::Took(take(link, true)),
        Does::BeginBatch => Told::Put(begin(alloc, link)),
    }
}

// Each call is told what is written beside it.
fn are_told<A: Adlb>(link: &mut A, alloc: Global, calls: &[(Does, Told)]) -> bool
    requires { has_finished (A.link link.old).said ≡ false }
    ensures { has_finished (A.link link.new).said ≡ false }
{
    for (does, wanted) in calls {
        if told_of_call(link, alloc, does) != *wanted {
            return false;
        }
    }
    true
}

// Rank 0 passes these points in its next calls, and no others.
fn passed<R: Wait + Copy>(
    rt: &R,
    points: &Receiver<(u32, GatePoint), Global>,
    wanted: &[GatePoint],
) -> bool {
    for wanted in wanted {
        match points.try_recv(rt) {
            Ok((0, point)) if point == *wanted => {}
            _ => return false,
        }
    }
    points.try_recv(rt).is_err()
}

// A rank's calls, and all that is seen of them.
struct Play<'a> {
    shows: &'static str,
    says: &'a [Line],
    calls: &'a [(Does, Told)],
    passes: &'a [GatePoint],
    // What the servers hear before the rank's last letter to each, and this letter.
    heard: &'a [(u32, Heard)],
    last: Option<Heard>,
    fault: Option<ActorFault>,
    // How many there are in the journal; none if a batch is going on, in which the link has no end.
    entries: Option<u64>,
}

// The part of a rank that makes these calls. Where its gate tells what it sees.
#[derive(Clone, Copy)]
struct Calls<'a> {
    play: &'a Play<'a>,
    seen: &'a Sender<(u32, GatePoint), Global>,
}

impl Part for Calls<'_> {
    ghost at = { λ part number. number < 3 };

    fn last(&self, number: u32) -> Option<Heard> {
        if number < POOL {
            return None;
        }
        self.play.last
    }

    fn play<R: Wait + Copy, M: Mailing>(
        &self,
        rt: R,
        alloc: Global,
        config: Config,
        number: u32,
        desk: Desk<M>,
        others: &mut Others<M>,
    ) -> Result<bool, NoMemory> {
        let gate = LentGate {
            rt,
            seen: self.seen,
        };
        let link = Link::<'_, R, M>::new(alloc, rt, config, Rank(number), desk, gate)?;
        is_told(alloc, link, self.play, others)
    }
}

// The calls of the link, which has made none, are told what the play says.
fn is_told<R: Wait + Copy, M: Mailing>(
    alloc: Global,
    link: Link<'_, R, M>,
    play: &Play,
    others: &mut Others<M>,
) -> Result<bool, NoMemory>
    requires { link.core.transcript ≡ [] }
{
    let mut link = link;
    let told = are_told(&mut link, alloc, play.calls);
    is_left(link, play, others, told)
}

// The link leaves what the play says, or nothing if a batch is going on; and its calls were told what the play says.
fn is_left<R: Wait + Copy, M: Mailing>(
    link: Link<'_, R, M>,
    play: &Play,
    others: &mut Others<M>,
    told: bool,
) -> Result<bool, NoMemory>
    requires { has_finished link.core.transcript ≡ false }
{
    if link.batch_open() {
        drop(link);
        return Ok(told && play.entries.is_none());
    }
    has_ended(link.end(), play.fault, others, told)
}

// The link has left this, with its desk.
fn has_ended<M: Mailing>(
    end: LinkEnd<M>,
    wanted: Option<ActorFault>,
    others: &mut Others<M>,
    told: bool,
) -> Result<bool, NoMemory> {
    let LinkEnd {
        said,
        fault,
        desk,
        ..
    } = end;
    drop(said);
    others.put_back(desk)?;
    Ok(told && fault == wanted)
}

fn is_shown<R: Wait + Copy>(rt: R, alloc: Global, play: &Play) -> Result<bool, Fail> {
    let script = Script {
        number: 0,
        alone: false,
        said: play.says,
        then: &[],
        after: &[],
        heard: play.heard,
        entries: play.entries,
    };
    let (seen, points) = bounded(alloc, 16)?;
    let part = Calls { play, seen: &seen };
    Ok(is_played(rt, alloc, &script, &part)? && passed(&rt, &points, play.passes))
}

// Server 0 sent a letter that was not expected.
const STRANGE: ActorFault = ActorFault::Unexpected { from: POOL };

const FINE: Told = Told::Put(Ok(()));

const LATE_PUT: Told = Told::Put(Err(PutFault::TooLong { stamp: STAMP_LIMIT }));

const PLAYS: &[Play] = &[
    Play {
        shows: "a put is accepted, and each server hears of Finish",
        says: &[(POOL, 7, Says::Accepted(0))],
        calls: &[(Does::Put, FINE)],
        passes: &[GatePoint::Put { call: 0 }],
        heard: &[(POOL, Heard::Put)],
        last: Some(Heard::Finish),
        fault: None,
        entries: Some(2),
    },
    Play {
        shows: "a unit is granted and fetched, and the gate is passed",
        says: &[
            (POOL, 7, Says::GrantedInBatch(0)),
            (POOL, 7, Says::Bytes(1, b"c")),
            (POOL, 7, Says::Bytes(1, b"ab")),
        ],
        calls: &[(Does::Work, Told::Took(Ok(true)))],
        passes: &[
            GatePoint::Waiting { call: 0 },
            GatePoint::Granted { call: 0 },
            GatePoint::Fetched { call: 1 },
        ],
        heard: &[
            (POOL, Heard::Other),
            (POOL, Heard::Other),
            (POOL, Heard::Other),
        ],
        last: Some(Heard::Finish),
        fault: None,
        entries: Some(3),
    },
    Play {
        shows: "an end is told again without a letter",
        says: &[(POOL, 7, Says::Exhausted(0))],
        calls: &[
            (Does::Reserve, Told::Took(Err(EndFault::Exhausted))),
            (Does::Reserve, Told::Took(Err(EndFault::Exhausted))),
            (Does::Put, Told::Put(Err(PutFault::Exhausted))),
        ],
        passes: &[
            GatePoint::Waiting { call: 0 },
            GatePoint::Waiting { call: 1 },
        ],
        heard: &[(POOL, Heard::Other)],
        last: Some(Heard::Finish),
        fault: None,
        entries: Some(6),
    },
    Play {
        shows: "a failed server is told once, and the rank is gone",
        says: &[(POOL, 7, Says::Broken(TOO_LONG))],
        calls: &[(Does::Put, LATE_PUT), (Does::Put, LATE_PUT)],
        passes: &[],
        heard: &[(POOL, Heard::Put)],
        last: Some(Heard::Gone(TOO_LONG)),
        fault: Some(ActorFault::TooLong { stamp: STAMP_LIMIT }),
        entries: Some(1),
    },
    Play {
        shows: "a stamp that is not too long is not told",
        says: &[(POOL, 7, Says::Broken(Trouble::TooLong { stamp: 5 }))],
        calls: &[(Does::Put, Told::Put(Err(PutFault::Memory)))],
        passes: &[],
        heard: &[(POOL, Heard::Put)],
        last: Some(Heard::Gone(Trouble::Memory)),
        fault: Some(ActorFault::Memory),
        entries: Some(1),
    },
    Play {
        shows: "a letter that is not expected is kept",
        says: &[(POOL, 7, Says::Accepted(4))],
        calls: &[(Does::Put, Told::Put(Err(PutFault::Memory)))],
        passes: &[],
        heard: &[(POOL, Heard::Put)],
        last: Some(Heard::Gone(Trouble::Memory)),
        fault: Some(STRANGE),
        entries: Some(1),
    },
    Play {
        shows: "a unit is not granted twice",
        says: &[(POOL, 7, Says::Granted(0)), (POOL, 7, Says::Granted(1))],
        calls: &[
            (Does::Reserve, Told::Took(Ok(false))),
            (Does::Reserve, Told::Took(Err(EndFault::Memory))),
        ],
        passes: &[
            GatePoint::Waiting { call: 0 },
            GatePoint::Granted { call: 0 },
            GatePoint::Waiting { call: 1 },
        ],
        heard: &[(POOL, Heard::Other), (POOL, Heard::Other)],
        last: Some(Heard::Gone(Trouble::Memory)),
        fault: Some(STRANGE),
        entries: Some(2),
    },
    Play {
        shows: "a batch is going on after its beginning",
        says: &[(POOL, 7, Says::Accepted(0))],
        calls: &[(Does::BeginBatch, FINE)],
        passes: &[],
        heard: &[(POOL, Heard::Keep)],
        last: None,
        fault: None,
        entries: None,
    },
];

#[test]
fn calls_are_told_what_their_server_said(rt: HostRuntime) -> Result<(), Fail> {
    for play in PLAYS {
        assert!(rt; is_shown(rt, rt.alloc(), play)?, "{}", play.shows);
    }
    Ok(())
}
