//! Bodies, puts and fetches of worked units, what has no form, and the work of items.

ghost use Rattle.std.specs.Prelude.{◌≡◌, ◌<◌, ◌^◌, length};
ghost use Rattle.adlb_unit.specs.Totals.{total_of};

use adlb_unit::{BatchId, CommonRef, Payload, Rank, Server, Target, UnitId, UnitNote, WorkType};
use bag_ledger::Body;
use job_text::Item;
use job_units::{Answer, Board, Fetch, Job, Made, Solution, read_fetch, work};
use std::alloc::Global;
use std::test::Fail;
use sudoku_rules::parse_grid;

/// A grid of side 4 with ten filled cells.
const SMALL: &str = "1234301200004321";

/// A grid of side 9 with 77 filled cells.
const MIDDLE: &str =
    "534678912672195348198342567859760420426850790713924856961537284287419635345286179";

/// A unit, with its grid as text.
#[derive(Clone, Copy)]
enum Of {
    Board(u64, &'static str),
    Solution(u32, &'static str),
    Job(u32, u32, Item),
    Answer(u64),
}

// The unit: a board is of puzzle 1, and an answer of item 3 of batch 258.
fn made(of: Of) -> Result<Made, Fail> {
    Ok(match of {
        Of::Board(budget, grid) => Made::Board(Board {
            puzzle: 1,
            budget,
            grid: parse_grid(grid.as_bytes())?,
        }),
        Of::Solution(puzzle, grid) => Made::Solution(Solution {
            puzzle,
            grid: parse_grid(grid.as_bytes())?,
        }),
        Of::Job(batch, number, item) => Made::Job(Job {
            batch,
            number,
            item,
        }),
        Of::Answer(value) => Made::Answer(Answer {
            batch: 258,
            number: 3,
            value,
        }),
    })
}

/// The work type, priority, target and answer rank with which a unit is put.
type Row = (u32, i32, Target, Option<Rank>);

// The unit is put so, and is read back.
fn is_put(alloc: Global, of: Of, (kind, prio, target, answer): Row) -> Result<bool, Fail> {
    let unit = made(of)?;
    let putting = unit.putting(alloc)?;
    let read = Made::read(putting.kind, putting.answer, putting.body.bytes());
    Ok(
        read == Some(unit)
            && unit.kind() == putting.kind
            && (putting.kind.0, putting.prio) == (kind, prio)
            && (putting.target, putting.answer) == (target, answer),
    )
}

// The numbers of the first bytes of the body, and the rest as text.
fn shown(alloc: Global, of: Of, head: usize) -> Result<String, Fail> {
    let body = made(of)?.body(alloc)?;
    let bytes = body.bytes();
    if bytes.len() < head {
        return Err("too short".into());
    }
    let (front, rest) = bytes.split_at(head);
    let rest = str::from_utf8(rest).unwrap_or("?");
    Ok(format!(in alloc; "{front:?} {rest}")?)
}

/// Units, how many bytes are shown as numbers, and what is shown.
const BODIES: &[(Of, usize, &str)] = &[
    (
        Of::Board(0x100_0000, SMALL),
        12,
        "[0, 0, 0, 1, 0, 0, 0, 0, 1, 0, 0, 0] 1234301200004321",
    ),
    (
        Of::Board(0x7f_ffff, SMALL),
        12,
        "[0, 0, 0, 1, 0, 0, 0, 0, 0, 127, 255, 255] 1234301200004321",
    ),
    (Of::Solution(258, SMALL), 4, "[0, 0, 1, 2] 1234301200004321"),
    (
        Of::Job(1, 1, Item::Count { lo: 97, hi: 98 }),
        11,
        "[0, 0, 0, 1, 0, 0, 0, 1, 1, 97, 98] ",
    ),
    (
        Of::Job(2, 256, Item::Sum),
        11,
        "[0, 0, 0, 2, 0, 0, 1, 0, 2, 0, 0] ",
    ),
    (
        Of::Job(2, 257, Item::Max),
        11,
        "[0, 0, 0, 2, 0, 0, 1, 1, 3, 0, 0] ",
    ),
    (
        Of::Answer(588),
        16,
        "[0, 0, 1, 2, 0, 0, 0, 3, 0, 0, 0, 0, 0, 0, 2, 76] ",
    ),
];

// The unit's body is shown so.
fn is_shown(alloc: Global, of: Of, head: usize, wanted: &str) -> Result<bool, Fail> {
    let text = shown(alloc, of, head)?;
    Ok(text.as_str() == wanted)
}

#[test]
fn bodies_are_those_of_the_table(rt: HostRuntime) -> Result<(), Fail> {
    for (of, head, wanted) in BODIES {
        assert!(rt; is_shown(rt.alloc(), *of, *head, wanted)?, "{wanted}");
    }
    Ok(())
}

const PUT: &[(Of, Row)] = &[
    (Of::Board(1, SMALL), (0, 11, Target::Any, Some(Rank(0)))),
    (
        Of::Board(0xffff_ffff_ffff_ffff, MIDDLE),
        (0, 77, Target::Any, Some(Rank(0))),
    ),
    (
        Of::Solution(7, MIDDLE),
        (1, 100, Target::Only(Rank(0)), None),
    ),
    (
        Of::Job(1, 1, Item::Sum),
        (2, 50, Target::Any, Some(Rank(0))),
    ),
    (
        Of::Answer(0xffff_ffff_ffff_ffff),
        (3, 100, Target::Only(Rank(0)), None),
    ),
];

#[test]
fn units_are_put_by_the_table_and_read_back(rt: HostRuntime) -> Result<(), Fail> {
    for (of, row) in PUT {
        assert!(rt; is_put(rt.alloc(), *of, *row)?, "work type {}", row.0);
    }
    Ok(())
}

/// A work type, an answer rank and bytes that are no unit, and what they are.
const FORMLESS: &[(u32, Option<Rank>, &[u8], &str)] = &[
    (
        0,
        Some(Rank(0)),
        b"\0\0\0\x01\0\0\0\0\0\0\0\x0112343012000043",
        "a board that is short",
    ),
    (
        0,
        Some(Rank(0)),
        b"\0\0\0\x01\0\0\0\0\0\0\0\x011234301200004321 ",
        "a board that is long",
    ),
    (
        0,
        Some(Rank(0)),
        b"\0\0\0\x01\0\0\0\0\0\0\0\x0112343.1200004321",
        "a board with a dot",
    ),
    (
        0,
        Some(Rank(0)),
        b"\0\0\0\x01\0\0\0\0\0\0\0\x011234501200004321",
        "a board with a 5",
    ),
    (0, Some(Rank(0)), b"\0\0\0\x01", "a number alone"),
    (
        0,
        None,
        b"\0\0\0\x01\0\0\0\0\0\0\0\x011234301200004321",
        "a board for none",
    ),
    (
        1,
        None,
        b"\0\0\0\x01123430120000432",
        "a solution that is short",
    ),
    (
        1,
        None,
        b"\0\0\0\x01123430120000432.",
        "a solution with a dot",
    ),
    (
        1,
        Some(Rank(0)),
        b"\0\0\0\x011234301200004321",
        "a solution with an answer rank",
    ),
    (
        2,
        Some(Rank(0)),
        b"\0\0\0\x01\0\0\0\x01\x01a",
        "a job that is short",
    ),
    (
        2,
        Some(Rank(0)),
        b"\0\0\0\x01\0\0\0\x01\x01abc",
        "a job that is long",
    ),
    (
        2,
        Some(Rank(0)),
        b"\0\0\0\x01\0\0\0\x01\0\0\0",
        "an item of kind 0",
    ),
    (
        2,
        Some(Rank(0)),
        b"\0\0\0\x01\0\0\0\x01\x04\0\0",
        "an item of kind 4",
    ),
    (
        2,
        Some(Rank(0)),
        b"\0\0\0\x01\0\0\0\x01\x02\x01\0",
        "a sum with a least byte",
    ),
    (
        2,
        Some(Rank(0)),
        b"\0\0\0\x01\0\0\0\x01\x03\0\x01",
        "a maximum with a greatest byte",
    ),
    (
        2,
        Some(Rank(1)),
        b"\0\0\0\x01\0\0\0\x01\x02\0\0",
        "a job for rank 1",
    ),
    (
        3,
        None,
        b"\0\0\0\x01\0\0\0\x01\0\0\0\0\0\0\0",
        "an answer that is short",
    ),
    (
        3,
        None,
        b"\0\0\0\x01\0\0\0\x01\0\0\0\0\0\0\0\0\0",
        "an answer that is long",
    ),
    (
        4,
        None,
        b"\0\0\0\x01\0\0\0\x01\0\0\0\0\0\0\0\0",
        "work type 4",
    ),
];

#[test]
fn reads_no_other_form(rt: HostRuntime) {
    for (kind, answer, body, what) in FORMLESS {
        assert!(rt;
            Made::read(WorkType(*kind), *answer, body).is_none(),
            "{what}"
        );
    }
}

// A job of 11 bytes of its own, with 6 common bytes.
fn note() -> UnitNote
    ensures { total_of result ≡ 17 }
{
    UnitNote {
        id: UnitId {
            rank: Rank(0),
            number: 1,
        },
        kind: WorkType(2),
        prio: 50,
        answer: Some(Rank(0)),
        server: Server(0),
        common: Some(CommonRef {
            batch: BatchId {
                rank: Rank(0),
                number: 0,
            },
            server: Server(0),
            length: 6,
        }),
        length: 11,
    }
}

// The value of the answer of the job that is fetched by these two runs of bytes, and how many bytes were copied for it.
fn answered(alloc: Global, first: &[u8], second: &[u8]) -> Result<(Option<u64>, usize), Fail> {
    let body = Body::joined(Payload::copy(alloc, first)?, Payload::copy(alloc, second)?);
    if body.len() != 17 {
        return Err("not the bytes of the note".into());
    }
    let mut room = Vec::new(alloc);
    let value = match read_fetch(&note(), &body, &mut room) {
        Ok(fetch) => value_of(&fetch),
        Err(_) => return Err("out of memory".into()),
    };
    Ok((value, room.len()))
}

// The value of the answer of the job that was fetched, if it was item 1 of batch 1.
fn value_of(fetch: &Fetch<'_>) -> Option<u64>
    requires { length fetch.now.common.now < 2 ^ 32 }
{
    match &fetch.unit {
        Some(Made::Job(job)) if (job.batch, job.number) == (1, 1) => Some(
            job.answer(fetch.common).value,
        ),
        _ => None,
    }
}

/// The two runs of bytes by which a job is fetched, the value of its answer, and how many bytes are copied for it.
const FETCHED: &[(&[u8], &[u8], Option<u64>, usize)] = &[
    (b"abcabc", b"\0\0\0\x01\0\0\0\x01\x01ab", Some(4), 0),
    (b"abcabc\0\0\0\x01", b"\0\0\0\x01\x01ab", Some(4), 17),
    (b"", b"abcabc\0\0\0\x01\0\0\0\x01\x01ab", Some(4), 0),
    (b"abcabc", b"\0\0\0\x01\0\0\0\x01\x05ab", None, 0),
];

#[test]
fn a_fetched_job_is_answered_over_its_common_bytes(rt: HostRuntime) -> Result<(), Fail> {
    for (first, second, value, copied) in FETCHED {
        let got = answered(rt.alloc(), first, second)?;
        assert!(rt; got == (*value, *copied), "{} bytes first", first.len());
    }
    Ok(())
}

const ITEMS: &[(Item, &[u8], u64)] = &[
    (Item::Count { lo: 97, hi: 98 }, b"abcabc", 4),
    (Item::Count { lo: 98, hi: 97 }, b"abcabc", 0),
    (Item::Count { lo: 0, hi: 255 }, b"abcabc", 6),
    (Item::Sum, b"abcabc", 588),
    (Item::Max, b"abcabc", 99),
    (Item::Count { lo: 0, hi: 255 }, b"", 0),
    (Item::Sum, b"", 0),
    (Item::Max, b"", 0),
];

#[test]
fn items_are_worked(rt: HostRuntime) {
    for (item, bytes, wanted) in ITEMS {
        assert_eq!(rt; work(item, bytes), *wanted);
    }
}
