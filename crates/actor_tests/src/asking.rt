//! Tests of ranks that wait at their home, which asks the other servers and is given hints.

use crate::handled::{Line, RANK, SERVER_1, SERVER_2, Says, Scene, play};
use adlb_unit::{Actor, Rank, Server, Target};
use std::test::Fail;

const SCENES: &[Scene] = &[
    (
        "gives a unit to one that waits",
        (3, 1, 0),
        &[
            (Line::Hears(1, Says::Reserve(0)), "1 [] []"),
            (Line::Hears(0, Says::Reserve(0)), "2 [] []"),
            (Line::IsQuiet, "no"),
            (
                Line::Hears(2, Says::Put(2, 0, 1, Target::Soft(Rank(0)))),
                "3 [Sending { to: Rank(Rank(2)), letter: Letter { stamp: 3, place: 0, \
                message: Accepted { request: 0 } } }, \
                Sending { to: Rank(Rank(0)), letter: Letter { stamp: 3, place: 0, \
                message: Grant { request: 0, note: UnitNote { \
                id: UnitId { rank: Rank(2), number: 0 }, kind: WorkType(5), prio: 3, answer: None, \
                server: Server(0), common: None, length: 1 } } } }] \
                [Accepted { server: Server(0), id: UnitId { rank: Rank(2), number: 0 } }, \
                Granted { server: Server(0), rank: Rank(0), call: 0, \
                id: UnitId { rank: Rank(2), number: 0 } }]",
            ),
            (
                Line::Hears(2, Says::Put(2, 1, 1, Target::Any)),
                "4 [Sending { to: Rank(Rank(2)), letter: Letter { stamp: 4, place: 1, \
                message: Accepted { request: 1 } } }, \
                Sending { to: Rank(Rank(1)), letter: Letter { stamp: 4, place: 0, \
                message: Grant { request: 0, note: UnitNote { \
                id: UnitId { rank: Rank(2), number: 1 }, kind: WorkType(5), prio: 3, answer: None, \
                server: Server(0), common: None, length: 1 } } } }] \
                [Accepted { server: Server(0), id: UnitId { rank: Rank(2), number: 1 } }, \
                Granted { server: Server(0), rank: Rank(1), call: 0, \
                id: UnitId { rank: Rank(2), number: 1 } }]",
            ),
        ],
    ),
    (
        "asks until a server grants",
        (3, 3, 0),
        &[
            (
                Line::Answers(RANK, Says::Reserve(0)),
                "1, Server(Server(1)) 0 ask 0 0 []",
            ),
            // Only the server that was asked is awaited, and in this call.
            (Line::Expects(SERVER_2, Says::AskNone(0, 0)), "no"),
            (Line::Expects(SERVER_1, Says::AskNone(0, 1)), "no"),
            (Line::Expects(SERVER_1, Says::AskGrant(1, 0)), "no"),
            (
                Line::Answers(SERVER_1, Says::AskNone(0, 0)),
                "2, Server(Server(2)) 0 ask 0 0 []",
            ),
            (
                Line::Answers(SERVER_2, Says::AskNone(0, 0)),
                "3, Server(Server(1)) 1 token 1 in wave 1 []",
            ),
            // Server 1 hints, and is asked again; the hint of server 2 waits for its answer.
            (
                Line::Answers(SERVER_1, Says::Hint(0, 0)),
                "4, Server(Server(1)) 2 ask 0 0 []",
            ),
            (Line::Answers(SERVER_2, Says::Hint(0, 0)), "5 []"),
            (
                Line::Answers(SERVER_1, Says::AskNone(0, 0)),
                "6, Server(Server(2)) 1 ask 0 0 []",
            ),
            (
                Line::Answers(SERVER_2, Says::AskGrant(0, 0)),
                "7, Rank(Rank(0)) 0 granted 0 at 2 []",
            ),
            // The rank waits no longer.
            (Line::Answers(SERVER_1, Says::Hint(0, 0)), "8 []"),
            (Line::Expects(RANK, Says::Fetch(1)), "no"),
            (Line::Expects(RANK, Says::Finish), "yes"),
        ],
    ),
    (
        "keeps a wish and hints",
        (3, 3, 0),
        &[
            // Only another server asks, for a rank whose home it is.
            (
                Line::Expects(Actor::Server(Server(0)), Says::Ask(0, 0)),
                "no",
            ),
            (Line::Expects(SERVER_2, Says::Ask(1, 0)), "no"),
            (Line::Expects(SERVER_1, Says::Hint(1, 0)), "no"),
            (
                Line::Answers(SERVER_1, Says::Ask(1, 0)),
                "1, Server(Server(1)) 0 none 1 0 []",
            ),
            (
                Line::Answers(SERVER_2, Says::Ask(2, 4)),
                "2, Server(Server(2)) 0 none 2 4 []",
            ),
            // The wish of the rank that the target names before others goes first.
            (
                Line::Answers(RANK, Says::Put(0, 0, 2, Target::Soft(Rank(2)))),
                "3, Rank(Rank(0)) 0 accepted 0, Server(Server(2)) 1 hint 2 4, Server(Server(1)) 1 hint 1 0 \
                [Accepted { server: Server(0), id: UnitId { rank: Rank(0), number: 0 } }]",
            ),
            // Its wish is gone, and so is the other.
            (
                Line::Answers(RANK, Says::Put(0, 1, 2, Target::Any)),
                "4, Rank(Rank(0)) 1 accepted 1 \
                [Accepted { server: Server(0), id: UnitId { rank: Rank(0), number: 1 } }]",
            ),
            (
                Line::Answers(SERVER_2, Says::Ask(2, 4)),
                "5, Server(Server(2)) 2 grant 2 4 \
                [Granted { server: Server(0), rank: Rank(2), call: 4, id: UnitId { rank: Rank(0), number: 0 } }]",
            ),
        ],
    ),
];

#[test]
fn homes_ask(rt: HostRuntime) -> Result<(), Fail> {
    play(&rt, rt.alloc(), SCENES)
}
