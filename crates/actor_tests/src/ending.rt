//! Tests of checks, of the end of all work and of the problem, and of ranks that finish.

use crate::handled::{ACCEPTS_FIRST, Line, RANK, RANK_1, SERVER_0, SERVER_1, Says, Scene, play};
use adlb_unit::{Rank, Target};
use std::test::Fail;

const SCENES: &[Scene] = &[
    (
        "finishing shuts the server",
        (1, 1, 0),
        &[
            (
                Line::Hears(0, Says::Put(0, 0, 2, Target::Any)),
                ACCEPTS_FIRST,
            ),
            (Line::HasEnded, "no"),
            (Line::Hears(0, Says::Finish), "2 [] []"),
            (Line::HasEnded, "yes"),
            (Line::Broken, "None"),
        ],
    ),
    (
        "one of several waits and is not shut, at its home",
        (1, 2, 0),
        &[
            (Line::IsQuiet, "no"),
            (
                Line::Answers(RANK, Says::Reserve(0)),
                "1, Server(Server(1)) 0 ask 0 0 []",
            ),
            (Line::IsQuiet, "no"),
            // It is quiet, and starts a check.
            (
                Line::Answers(SERVER_1, Says::AskNone(0, 0)),
                "2, Server(Server(1)) 1 token 1 in wave 1 []",
            ),
            (Line::IsQuiet, "yes"),
        ],
    ),
    (
        "one of several waits and is not shut, at the other server",
        (1, 2, 1),
        &[
            (Line::IsQuiet, "yes"),
            (Line::Expects(RANK, Says::Reserve(1)), "no"),
            (
                Line::Answers(RANK, Says::Finish),
                "1, Server(Server(0)) 0 notice []",
            ),
            (Line::HasEnded, "no"),
        ],
    ),
    (
        "tells the end in arrival order",
        (2, 1, 0),
        &[
            (
                Line::Hears(0, Says::Put(0, 0, 1, Target::Only(Rank(0)))),
                ACCEPTS_FIRST,
            ),
            (Line::Hears(1, Says::Reserve(4)), "2 [] []"),
            (
                Line::Hears(0, Says::Reserve(1)),
                "3 [Sending { to: Rank(Rank(0)), letter: Letter { stamp: 3, place: 1, \
                message: Grant { request: 1, note: UnitNote { \
                id: UnitId { rank: Rank(0), number: 0 }, kind: WorkType(5), prio: 3, answer: None, \
                server: Server(0), common: None, length: 1 } } } }] \
                [Granted { server: Server(0), rank: Rank(0), call: 1, \
                id: UnitId { rank: Rank(0), number: 0 } }]",
            ),
            (
                Line::Hears(0, Says::Reserve(2)),
                "4 [Sending { to: Rank(Rank(1)), letter: Letter { stamp: 4, place: 0, \
                message: Ended { request: 4, end: Exhausted } } }, \
                Sending { to: Rank(Rank(0)), letter: Letter { stamp: 4, place: 2, \
                message: Ended { request: 2, end: Exhausted } } }] \
                [Exhausted, Over { rank: Rank(1), call: 4, end: Exhausted }, \
                Over { rank: Rank(0), call: 2, end: Exhausted }]",
            ),
        ],
    ),
    (
        "a rank finishes while another waits",
        (2, 1, 0),
        &[
            (Line::Hears(0, Says::Reserve(0)), "1 [] []"),
            (Line::Expects(RANK, Says::Finish), "no"),
            (
                Line::Hears(1, Says::Finish),
                "2 [Sending { to: Rank(Rank(0)), letter: Letter { stamp: 2, place: 0, \
                message: Ended { request: 0, end: Exhausted } } }] \
                [Exhausted, Over { rank: Rank(0), call: 0, end: Exhausted }]",
            ),
            (Line::HasEnded, "no"),
            (Line::Hears(0, Says::Finish), "3 [] []"),
            (Line::HasEnded, "yes"),
        ],
    ),
    (
        "who is idle is told that the problem is done",
        (2, 1, 0),
        &[
            (Line::Answers(RANK_1, Says::Reserve(0)), "1 []"),
            (
                Line::Answers(RANK, Says::Done(0)),
                "2, Rank(Rank(0)) 0 done heard 0, Rank(Rank(1)) 0 ended 0 \
                [Over { rank: Rank(1), call: 0, end: NoMoreWork }]",
            ),
            (
                Line::Answers(RANK, Says::Reserve(1)),
                "3, Rank(Rank(0)) 1 ended 1 [Over { rank: Rank(0), call: 1, end: NoMoreWork }]",
            ),
        ],
    ),
    (
        "a token goes on where the server is quiet",
        (2, 2, 1),
        &[
            (Line::Expects(SERVER_0, Says::Token(1, 2)), "no"),
            (
                Line::Answers(SERVER_0, Says::Token(1, 1)),
                "1, Server(Server(0)) 0 failed 1 as busy []",
            ),
            (
                Line::Answers(RANK_1, Says::Finish),
                "2, Server(Server(0)) 1 notice []",
            ),
            (
                Line::Answers(SERVER_0, Says::Token(2, 1)),
                "3, Server(Server(0)) 2 token 2 in wave 1 []",
            ),
            (Line::Expects(SERVER_0, Says::Token(2, 1)), "no"),
            (
                Line::Answers(SERVER_0, Says::Token(2, 2)),
                "4, Server(Server(0)) 3 token 2 in wave 2 []",
            ),
            (Line::Expects(SERVER_0, Says::Token(2, 2)), "no"),
            // Another rank's Finish comes between the two waves.
            (
                Line::Answers(SERVER_0, Says::Token(3, 1)),
                "5, Server(Server(0)) 4 token 3 in wave 1 []",
            ),
            (
                Line::Answers(RANK, Says::Finish),
                "6, Server(Server(0)) 5 notice []",
            ),
            (
                Line::Answers(SERVER_0, Says::Token(3, 2)),
                "7, Server(Server(0)) 6 failed 3 as changed []",
            ),
            (Line::HasEnded, "no"),
            (Line::Answers(SERVER_0, Says::Shutdown), "8 []"),
            (Line::HasEnded, "yes"),
        ],
    ),
];

#[test]
fn runs_end(rt: HostRuntime) -> Result<(), Fail> {
    play(&rt, rt.alloc(), SCENES)
}
