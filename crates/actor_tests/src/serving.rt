//! Tests of a server that puts, reserves, tries, fetches and counts are sent to.

use crate::handled::{
    ACCEPTS_FIRST, COUNTS_NONE_THIRD, GRANTS_SECOND, LOOKS_FIRST, Line, RANK, Says, Scene, play,
};
use adlb_unit::{Actor, Rank, Server, Target};
use std::test::Fail;

const LAST: u64 = (1 << 48) - 1;

const MOST: usize = 1 << 20;

const GIVEN: &[Scene] = &[
    (
        "accepts until it is full",
        (1, 1, 0),
        &[
            (
                Line::Hears(0, Says::Put(0, 0, 60, Target::Any)),
                ACCEPTS_FIRST,
            ),
            (
                Line::Hears(0, Says::Put(0, 1, 5, Target::Any)),
                "2 [Sending { to: Rank(Rank(0)), letter: Letter { stamp: 2, place: 1, \
                message: Full { request: 1, charge: 60 } } }] \
                [Refused { server: Server(0), id: UnitId { rank: Rank(0), number: 1 }, used: 60 }]",
            ),
        ],
    ),
    (
        "grants and then is exhausted",
        (1, 1, 0),
        &[
            (
                Line::Hears(0, Says::Put(0, 0, 2, Target::Any)),
                ACCEPTS_FIRST,
            ),
            (Line::Hears(0, Says::Reserve(1)), GRANTS_SECOND),
            (
                Line::Left,
                "[LeftUnit { id: UnitId { rank: Rank(0), number: 0 }, server: Server(0), \
                pinned: Some(Rank(0)) }]",
            ),
            (
                Line::Hears(0, Says::Reserve(2)),
                "3 [Sending { to: Rank(Rank(0)), letter: Letter { stamp: 3, place: 2, \
                message: Ended { request: 2, end: Exhausted } } }] \
                [Exhausted, Over { rank: Rank(0), call: 2, end: Exhausted }]",
            ),
        ],
    ),
    // The last stamp is 2^48 - 1: a letter that was sent one before it gets it, and one that was sent with it breaks the server.
    (
        "gives no stamp past the last, and gives the last",
        (1, 1, 0),
        &[
            (
                Line::HearsAt(LAST - 1, Says::Reserve(0)),
                "281474976710655 [Exhausted, Over { rank: Rank(0), call: 0, end: Exhausted }]",
            ),
            (Line::Broken, "None"),
        ],
    ),
    (
        "gives no stamp past the last, and breaks",
        (1, 1, 0),
        &[
            (
                Line::HearsAt(LAST, Says::Reserve(0)),
                "TooLong { stamp: 281474976710656 }",
            ),
            (Line::Broken, "Some(TooLong { stamp: 281474976710656 })"),
        ],
    ),
    (
        "counts what is free of a type",
        (1, 1, 0),
        &[
            (
                Line::Hears(0, Says::Put(0, 0, 2, Target::Any)),
                ACCEPTS_FIRST,
            ),
            (Line::Hears(0, Says::Reserve(1)), GRANTS_SECOND),
            // The unit is pinned.
            (Line::Hears(0, Says::Count(2, 5)), COUNTS_NONE_THIRD),
            (
                Line::Hears(0, Says::Put(0, 3, 2, Target::Only(Rank(0)))),
                "4 [Sending { to: Rank(Rank(0)), letter: Letter { stamp: 4, place: 3, \
                message: Accepted { request: 3 } } }] \
                [Accepted { server: Server(0), id: UnitId { rank: Rank(0), number: 3 } }]",
            ),
            (
                Line::Hears(0, Says::Count(4, 5)),
                "5 [Sending { to: Rank(Rank(0)), letter: Letter { stamp: 5, place: 4, \
                message: Counted { request: 4, info: Info { free: 1, top: Some(3), at_top: 1 } } } }] \
                [Counted { server: Server(0), rank: Rank(0), call: 4, \
                info: Info { free: 1, top: Some(3), at_top: 1 } }]",
            ),
        ],
    ),
];

#[test]
fn calls_are_answered(rt: HostRuntime) -> Result<(), Fail> {
    play(&rt, rt.alloc(), GIVEN)
}

const AWAITED: &[Scene] = &[
    (
        "expects a count of a rank that runs at its home, at its home",
        (1, 2, 0),
        &[
            (Line::Expects(RANK, Says::Count(0, 5)), "yes"),
            (
                Line::Answers(RANK, Says::Reserve(0)),
                "1, Server(Server(1)) 0 ask 0 0 []",
            ),
            (Line::Expects(RANK, Says::Count(0, 5)), "no"),
        ],
    ),
    (
        "expects a count of a rank that runs at its home, at the other server",
        (1, 2, 1),
        &[(Line::Expects(RANK, Says::Count(0, 5)), "no")],
    ),
    (
        "looks for a unit that is free",
        (1, 1, 0),
        &[
            (Line::Hears(0, Says::Try(0, 5)), LOOKS_FIRST),
            (
                Line::Hears(0, Says::Put(0, 1, 2, Target::Any)),
                "2 [Sending { to: Rank(Rank(0)), letter: Letter { stamp: 2, place: 1, \
                message: Accepted { request: 1 } } }] \
                [Accepted { server: Server(0), id: UnitId { rank: Rank(0), number: 1 } }]",
            ),
            // It is of another type.
            (
                Line::Hears(0, Says::Try(2, 6)),
                "3 [Sending { to: Rank(Rank(0)), letter: Letter { stamp: 3, place: 2, \
                message: Nothing { request: 2 } } }] \
                [Looked { server: Server(0), rank: Rank(0), call: 2 }]",
            ),
            (
                Line::Hears(0, Says::Try(3, 5)),
                "4 [Sending { to: Rank(Rank(0)), letter: Letter { stamp: 4, place: 3, \
                message: Grant { request: 3, note: UnitNote { id: UnitId { rank: Rank(0), number: 1 }, \
                kind: WorkType(5), prio: 3, answer: None, server: Server(0), common: None, length: 2 } } } }] \
                [Granted { server: Server(0), rank: Rank(0), call: 3, id: UnitId { rank: Rank(0), number: 1 } }]",
            ),
        ],
    ),
    (
        "looks for each rank at each server",
        (1, 2, 1),
        &[
            (Line::Expects(RANK, Says::Try(0, 5)), "yes"),
            (Line::Expects(Actor::Rank(Rank(1)), Says::Try(0, 5)), "no"),
            (
                Line::Expects(Actor::Server(Server(0)), Says::Try(0, 5)),
                "no",
            ),
        ],
    ),
    (
        "expects a put of a new unit",
        (1, 1, 0),
        &[
            (
                Line::Hears(0, Says::Put(0, 0, 2, Target::Any)),
                ACCEPTS_FIRST,
            ),
            (
                Line::Expects(RANK, Says::Put(0, 1, MOST, Target::Only(Rank(0)))),
                "yes",
            ),
            (Line::Expects(RANK, Says::Put(0, 0, 2, Target::Any)), "no"),
            (Line::Expects(RANK, Says::Put(1, 1, 2, Target::Any)), "no"),
            (
                Line::Expects(RANK, Says::Put(0, 1, MOST + 1, Target::Any)),
                "no",
            ),
            (
                Line::Expects(RANK, Says::Put(0, 1, 2, Target::Only(Rank(1)))),
                "no",
            ),
        ],
    ),
    (
        "expects each letter by its row",
        (1, 1, 0),
        &[
            (
                Line::Hears(0, Says::Put(0, 0, 2, Target::Any)),
                ACCEPTS_FIRST,
            ),
            (Line::Expects(RANK, Says::Fetch(1)), "no"),
            (Line::Hears(0, Says::Reserve(1)), GRANTS_SECOND),
            (Line::Expects(RANK, Says::Fetch(2)), "yes"),
            (Line::Expects(RANK, Says::Reserve(2)), "yes"),
            (Line::Expects(RANK, Says::Finish), "yes"),
            (Line::Expects(RANK, Says::Done(2)), "yes"),
            (Line::Expects(Actor::Rank(Rank(1)), Says::Finish), "no"),
            (Line::Expects(Actor::Server(Server(0)), Says::Finish), "no"),
            (Line::ExpectsAt(1 << 48), "no"),
            (Line::Hears(0, Says::Finish), "3 [] []"),
            (Line::Expects(RANK, Says::Finish), "no"),
        ],
    ),
];

#[test]
fn letters_are_expected(rt: HostRuntime) -> Result<(), Fail> {
    play(&rt, rt.alloc(), AWAITED)
}
