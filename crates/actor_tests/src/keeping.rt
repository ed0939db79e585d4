//! Tests of the common parts of batches.

use crate::handled::{KEEPS_FIRST, Line, RANK, Says, Scene, play};
use adlb_unit::{Actor, Rank};
use std::test::Fail;

const SCENES: &[Scene] = &[
    (
        "frees a part after its last fetch",
        (2, 1, 0),
        &[
            (Line::Hears(0, Says::Keep(0, 2)), KEEPS_FIRST),
            (Line::Expects(RANK, Says::Keep(0, 2)), "no"),
            (
                Line::Hears(1, Says::Share(0, 0)),
                "2 [Sending { to: Rank(Rank(1)), letter: Letter { stamp: 2, place: 0, \
                message: Bytes { request: 0, body: Payload { held: Shared([7, 7]) } } } }] \
                [CommonFetched { server: Server(0), rank: Rank(1), \
                batch: BatchId { rank: Rank(0), number: 0 } }]",
            ),
            (Line::Expects(RANK, Says::Close(1, 0, 0)), "no"),
            (
                Line::Hears(0, Says::Close(1, 0, 2)),
                "3 [Sending { to: Rank(Rank(0)), letter: Letter { stamp: 3, place: 1, \
                message: Closed { request: 1 } } }] \
                [Closed { server: Server(0), batch: BatchId { rank: Rank(0), number: 0 } }]",
            ),
            (Line::Expects(RANK, Says::Close(2, 0, 2)), "no"),
            (
                Line::Hears(1, Says::Share(1, 0)),
                "4 [Sending { to: Rank(Rank(1)), letter: Letter { stamp: 4, place: 1, \
                message: Bytes { request: 1, body: Payload { held: Shared([7, 7]) } } } }] \
                [CommonFetched { server: Server(0), rank: Rank(1), \
                batch: BatchId { rank: Rank(0), number: 0 } }, \
                Freed { server: Server(0), batch: BatchId { rank: Rank(0), number: 0 } }]",
            ),
            (Line::Expects(RANK, Says::Share(2, 0)), "no"),
        ],
    ),
    (
        "keeps parts as there is room",
        (2, 1, 0),
        &[
            (Line::Hears(0, Says::Keep(0, 60)), KEEPS_FIRST),
            (
                Line::Hears(0, Says::Keep(1, 5)),
                "2 [Sending { to: Rank(Rank(0)), letter: Letter { stamp: 2, place: 1, \
                message: Full { request: 1, charge: 60 } } }] \
                [Refused { server: Server(0), id: UnitId { rank: Rank(0), number: 1 }, used: 60 }]",
            ),
            (
                Line::Expects(Actor::Rank(Rank(1)), Says::Close(0, 0, 0)),
                "no",
            ),
            (
                Line::Hears(0, Says::Close(2, 0, 0)),
                "3 [Sending { to: Rank(Rank(0)), letter: Letter { stamp: 3, place: 2, \
                message: Closed { request: 2 } } }] \
                [Closed { server: Server(0), batch: BatchId { rank: Rank(0), number: 0 } }, \
                Freed { server: Server(0), batch: BatchId { rank: Rank(0), number: 0 } }]",
            ),
            (
                Line::Hears(0, Says::Keep(3, 5)),
                "4 [Sending { to: Rank(Rank(0)), letter: Letter { stamp: 4, place: 3, \
                message: Accepted { request: 3 } } }] \
                [Kept { server: Server(0), batch: BatchId { rank: Rank(0), number: 3 } }]",
            ),
        ],
    ),
];

#[test]
fn parts_are_kept(rt: HostRuntime) -> Result<(), Fail> {
    play(&rt, rt.alloc(), SCENES)
}
