//! Tests of pushes: units that move from one server to another.

use crate::handled::{Line, RANK, RANK_1, SERVER_0, SERVER_1, SERVER_2, Says, Scene, play};
use adlb_unit::{Rank, Target};
use std::test::Fail;

const PUSHED: &[Scene] = &[
    (
        "a cancelled push gives its promise back, at the server that pushes",
        (2, 2, 0),
        &[
            (
                Line::Answers(RANK, Says::Put(0, 0, 60, Target::Any)),
                "1, Rank(Rank(0)) 0 accepted 0, Server(Server(1)) 0 query 0 0 of 60 \
                [Accepted { server: Server(0), id: UnitId { rank: Rank(0), number: 0 } }]",
            ),
            (Line::Expects(SERVER_1, Says::PushNo(0, 0)), "yes"),
            (Line::Expects(SERVER_1, Says::PushYes(0, 1)), "no"),
            (Line::Expects(SERVER_1, Says::PushAck(0, 0)), "no"),
            (
                Line::Answers(RANK, Says::Reserve(1)),
                "2, Rank(Rank(0)) 1 granted 1 at 0 \
                [Granted { server: Server(0), rank: Rank(0), call: 1, id: UnitId { rank: Rank(0), number: 0 } }]",
            ),
            // The unit is free no longer.
            (
                Line::Answers(SERVER_1, Says::PushYes(0, 0)),
                "3, Server(Server(1)) 1 cancel 0 0 []",
            ),
            (Line::Expects(SERVER_1, Says::PushYes(0, 0)), "no"),
            (
                Line::Answers(RANK_1, Says::Put(1, 0, 65, Target::Any)),
                "4, Rank(Rank(1)) 0 full 0 at 60 \
                [Refused { server: Server(0), id: UnitId { rank: Rank(1), number: 0 }, used: 60 }]",
            ),
            (Line::Answers(SERVER_1, Says::PushAck(0, 0)), "5 []"),
            (Line::Expects(SERVER_1, Says::PushAck(0, 0)), "no"),
            (
                Line::Answers(RANK, Says::Fetch(2)),
                "6, Rank(Rank(0)) 2 bytes 2 \
                [Fetched { server: Server(0), rank: Rank(0), id: UnitId { rank: Rank(0), number: 0 } }]",
            ),
            (
                Line::Answers(RANK_1, Says::Put(1, 0, 65, Target::Any)),
                "7, Rank(Rank(1)) 1 full 0 at 0 \
                [Refused { server: Server(0), id: UnitId { rank: Rank(1), number: 0 }, used: 0 }]",
            ),
        ],
    ),
    (
        "a cancelled push gives its promise back, at the other server",
        (2, 2, 1),
        &[
            (
                Line::Answers(SERVER_0, Says::PushQuery(0, 0, 60)),
                "1, Server(Server(0)) 0 yes 0 0 \
                [Promised { server: Server(1), id: UnitId { rank: Rank(0), number: 0 }, length: 60 }]",
            ),
            // The promise is charged, and is for this unit of this length.
            (
                Line::Answers(RANK_1, Says::Put(1, 0, 65, Target::Any)),
                "2, Rank(Rank(1)) 0 full 0 at 60 \
                [Refused { server: Server(1), id: UnitId { rank: Rank(1), number: 0 }, used: 60 }]",
            ),
            (Line::Expects(SERVER_0, Says::PushQuery(0, 0, 60)), "no"),
            (Line::Expects(SERVER_0, Says::PushUnit(0, 0, 60)), "yes"),
            (Line::Expects(SERVER_0, Says::PushUnit(0, 0, 59)), "no"),
            (Line::Expects(SERVER_0, Says::PushCancel(0, 1)), "no"),
            (
                Line::Answers(SERVER_0, Says::PushCancel(0, 0)),
                "3, Server(Server(0)) 1 ack 0 0 \
                [Withdrawn { server: Server(1), id: UnitId { rank: Rank(0), number: 0 } }]",
            ),
            (Line::Expects(SERVER_0, Says::PushCancel(0, 0)), "no"),
            (
                Line::Answers(RANK_1, Says::Put(1, 0, 65, Target::Any)),
                "4, Rank(Rank(1)) 1 full 0 at 0 \
                [Refused { server: Server(1), id: UnitId { rank: Rank(1), number: 0 }, used: 0 }]",
            ),
        ],
    ),
    (
        "pushes go to the other servers in turn",
        (3, 3, 2),
        &[
            (
                Line::Answers(RANK, Says::Put(0, 0, 57, Target::Any)),
                "1, Rank(Rank(0)) 0 accepted 0, Server(Server(0)) 0 query 0 0 of 57 \
                [Accepted { server: Server(2), id: UnitId { rank: Rank(0), number: 0 } }]",
            ),
            (Line::Expects(SERVER_1, Says::PushYes(0, 0)), "no"),
            (
                Line::Answers(SERVER_0, Says::PushYes(0, 0)),
                "2, Server(Server(0)) 1 unit 0 0 of 57 \
                [Left { server: Server(2), to: Server(0), id: UnitId { rank: Rank(0), number: 0 } }]",
            ),
            // One push stands, so another put begins none.
            (
                Line::Answers(RANK, Says::Put(0, 1, 57, Target::Any)),
                "3, Rank(Rank(0)) 1 accepted 1 \
                [Accepted { server: Server(2), id: UnitId { rank: Rank(0), number: 1 } }]",
            ),
            (Line::Expects(SERVER_1, Says::PushAck(0, 0)), "no"),
            (Line::Answers(SERVER_0, Says::PushAck(0, 0)), "4 []"),
            // Of equal priority the latest goes first.
            (
                Line::Answers(RANK, Says::Put(0, 2, 1, Target::Any)),
                "5, Rank(Rank(0)) 2 accepted 2, Server(Server(1)) 0 query 0 2 of 1 \
                [Accepted { server: Server(2), id: UnitId { rank: Rank(0), number: 2 } }]",
            ),
        ],
    ),
    (
        "a push that is refused begins again with the next put, at the server that pushes",
        (2, 2, 0),
        &[
            // At 56 bytes of 64 the queue is not pressed.
            (
                Line::Answers(RANK, Says::Put(0, 0, 56, Target::Any)),
                "1, Rank(Rank(0)) 0 accepted 0 \
                [Accepted { server: Server(0), id: UnitId { rank: Rank(0), number: 0 } }]",
            ),
            (
                Line::Answers(RANK, Says::Put(0, 1, 1, Target::Only(Rank(0)))),
                "2, Rank(Rank(0)) 1 accepted 1, Server(Server(1)) 0 query 0 0 of 56 \
                [Accepted { server: Server(0), id: UnitId { rank: Rank(0), number: 1 } }]",
            ),
            (Line::Answers(SERVER_1, Says::PushNo(0, 0)), "3 []"),
            (Line::Expects(SERVER_1, Says::PushYes(0, 0)), "no"),
            // A put that is refused begins none.
            (
                Line::Answers(RANK, Says::Put(0, 2, 8, Target::Any)),
                "4, Rank(Rank(0)) 2 full 2 at 57 \
                [Refused { server: Server(0), id: UnitId { rank: Rank(0), number: 2 }, used: 57 }]",
            ),
            (
                Line::Answers(RANK, Says::Put(0, 3, 2, Target::Only(Rank(0)))),
                "5, Rank(Rank(0)) 3 accepted 3, Server(Server(1)) 1 query 0 0 of 56 \
                [Accepted { server: Server(0), id: UnitId { rank: Rank(0), number: 3 } }]",
            ),
        ],
    ),
    (
        "a push that is refused begins again with the next put, at the other server",
        (2, 2, 1),
        &[
            (
                Line::Answers(RANK_1, Says::Put(1, 0, 9, Target::Any)),
                "1, Rank(Rank(1)) 0 accepted 0 \
                [Accepted { server: Server(1), id: UnitId { rank: Rank(1), number: 0 } }]",
            ),
            (
                Line::Answers(SERVER_0, Says::PushQuery(0, 0, 56)),
                "2, Server(Server(0)) 0 no 0 0 []",
            ),
            (Line::Expects(SERVER_0, Says::PushUnit(0, 0, 56)), "no"),
            (Line::Expects(SERVER_0, Says::PushQuery(1, 0, 9)), "no"),
        ],
    ),
];

#[test]
fn pushes_stand(rt: HostRuntime) -> Result<(), Fail> {
    play(&rt, rt.alloc(), PUSHED)
}

const MOVED: &[Scene] = &[
    (
        "a unit that comes is settled and then acknowledged, where a rank is idle",
        (2, 2, 1),
        &[
            (
                Line::Answers(RANK_1, Says::Reserve(0)),
                "1, Server(Server(0)) 0 ask 1 0 []",
            ),
            (
                Line::Answers(SERVER_0, Says::AskNone(1, 0)),
                "2, Server(Server(0)) 1 notice []",
            ),
            (
                Line::Answers(SERVER_0, Says::PushQuery(0, 0, 2)),
                "3, Server(Server(0)) 2 yes 0 0, Server(Server(0)) 3 notice \
                [Promised { server: Server(1), id: UnitId { rank: Rank(0), number: 0 }, length: 2 }]",
            ),
            (
                Line::Answers(SERVER_0, Says::PushUnit(0, 0, 2)),
                "4, Rank(Rank(1)) 0 granted 0 at 1, Server(Server(0)) 4 ack 0 0 \
                [Arrived { server: Server(1), id: UnitId { rank: Rank(0), number: 0 } }, \
                Granted { server: Server(1), rank: Rank(1), call: 0, id: UnitId { rank: Rank(0), number: 0 } }]",
            ),
        ],
    ),
    (
        "a unit that comes is settled and then acknowledged, where a rank has wished",
        (3, 3, 1),
        &[
            (
                Line::Answers(SERVER_0, Says::Ask(0, 0)),
                "1, Server(Server(0)) 0 none 0 0 []",
            ),
            (
                Line::Answers(SERVER_2, Says::PushQuery(2, 0, 2)),
                "2, Server(Server(2)) 0 yes 2 0 \
                [Promised { server: Server(1), id: UnitId { rank: Rank(2), number: 0 }, length: 2 }]",
            ),
            (
                Line::Answers(SERVER_2, Says::PushUnit(2, 0, 2)),
                "3, Server(Server(0)) 1 hint 0 0, Server(Server(2)) 1 ack 2 0 \
                [Arrived { server: Server(1), id: UnitId { rank: Rank(2), number: 0 } }]",
            ),
        ],
    ),
    (
        "a unit is pushed by one server and then by another, at the second server",
        (3, 3, 1),
        &[
            (
                Line::Answers(SERVER_0, Says::PushQuery(0, 0, 57)),
                "1, Server(Server(0)) 0 yes 0 0 \
                [Promised { server: Server(1), id: UnitId { rank: Rank(0), number: 0 }, length: 57 }]",
            ),
            (
                Line::Answers(SERVER_0, Says::PushUnit(0, 0, 57)),
                "2, Server(Server(0)) 1 ack 0 0 \
                [Arrived { server: Server(1), id: UnitId { rank: Rank(0), number: 0 } }]",
            ),
            (
                Line::Answers(RANK_1, Says::Put(1, 0, 1, Target::Only(Rank(1)))),
                "3, Rank(Rank(1)) 0 accepted 0, Server(Server(2)) 0 query 0 0 of 57 \
                [Accepted { server: Server(1), id: UnitId { rank: Rank(1), number: 0 } }]",
            ),
            (Line::Expects(SERVER_2, Says::PushQuery(0, 0, 57)), "no"),
            (
                Line::Answers(SERVER_2, Says::PushYes(0, 0)),
                "4, Server(Server(2)) 1 unit 0 0 of 57 \
                [Left { server: Server(1), to: Server(2), id: UnitId { rank: Rank(0), number: 0 } }]",
            ),
            (Line::Answers(SERVER_2, Says::PushAck(0, 0)), "5 []"),
            (
                Line::Left,
                "[LeftUnit { id: UnitId { rank: Rank(1), number: 0 }, server: Server(1), pinned: None }]",
            ),
            (Line::Expects(SERVER_2, Says::PushQuery(0, 0, 57)), "yes"),
        ],
    ),
    (
        "a unit is pushed by one server and then by another, at the third server",
        (3, 3, 2),
        &[
            (
                Line::Answers(SERVER_1, Says::PushQuery(0, 0, 57)),
                "1, Server(Server(1)) 0 yes 0 0 \
                [Promised { server: Server(2), id: UnitId { rank: Rank(0), number: 0 }, length: 57 }]",
            ),
            (
                Line::Answers(SERVER_1, Says::PushUnit(0, 0, 57)),
                "2, Server(Server(1)) 1 ack 0 0 \
                [Arrived { server: Server(2), id: UnitId { rank: Rank(0), number: 0 } }]",
            ),
        ],
    ),
];

#[test]
fn units_move(rt: HostRuntime) -> Result<(), Fail> {
    play(&rt, rt.alloc(), MOVED)
}
