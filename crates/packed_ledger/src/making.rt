//! The entries that rows tell.

ghost use Rattle.std.specs.Prelude.{◌≡◌};
ghost use Rattle.packed_ledger.specs.inside.Made.{answer_at, batch_at, put_at, target_at, unit_at};
ghost use Rattle.packed_ledger.specs.inside.Made.{call_at, counted_at, given_at, light_at, moved_at, plain_at, taken_at};

use crate::rows::Row;
use crate::signs::signed;
use adlb_unit::{BatchId, End, Info, Payload, Rank, Server, Target, Types, UnitId, WorkType};
use bag_ledger::Entry;

/// The put of this row and body.
pub(crate) fn put_of(row: &Row, body: Payload) -> Entry
    ensures { result ≡ put_at row.now body }
{
    Entry::Putting {
        rank: Rank(row.first),
        call: row.call,
        kind: WorkType(row.second),
        prio: signed(row.third),
        target: target_of(row.head, row.fourth),
        answer: answer_of(row.head, row.fifth),
        body,
    }
}

fn target_of(head: u8, rank: u32) -> Target
    ensures { result ≡ target_at head rank }
{
    match head % 3 {
        0 => Target::Any,
        1 => Target::Only(Rank(rank)),
        _ => Target::Soft(Rank(rank)),
    }
}

fn answer_of(head: u8, rank: u32) -> Option<Rank>
    ensures { result ≡ answer_at head rank }
{
    if head < 3 {
        return None;
    }
    Some(Rank(rank))
}

/// The entry of this row, which holds no bytes and no list.
pub(crate) fn light_of(row: &Row) -> Entry
    ensures { result ≡ light_at row.now }
{
    if row.head < 16 {
        return plain_of(row);
    }
    if row.head < 20 {
        return call_of(row);
    }
    if row.head < 25 {
        return taken_of(row);
    }
    if row.head < 29 {
        return given_of(row);
    }
    moved_of(row)
}

// Of a rank's call, without more.
fn plain_of(row: &Row) -> Entry
    ensures { result ≡ plain_at row.now }
{
    let rank = Rank(row.first);
    let call = row.call;
    match row.head {
        7 => Entry::Asked {
            rank,
            call,
            types: Types::any(),
        },
        9 => Entry::Tried {
            rank,
            call,
            types: Types::any(),
        },
        11 => Entry::Rejected { rank, call },
        12 => Entry::Closing { rank, call },
        13 => Entry::NoCurrent { rank, call },
        14 => Entry::Done { rank, call },
        _ => Entry::Finished { rank, call },
    }
}

// Of a rank's call, with one thing more.
fn call_of(row: &Row) -> Entry
    ensures { result ≡ call_at row.now }
{
    let rank = Rank(row.first);
    let call = row.call;
    match row.head {
        16 => Entry::Over {
            rank,
            call,
            end: End::NoMoreWork,
        },
        17 => Entry::Over {
            rank,
            call,
            end: End::Exhausted,
        },
        18 => Entry::Fetching {
            rank,
            call,
            id: unit_id(row.second, row.number),
        },
        _ => Entry::Counting {
            rank,
            call,
            kind: WorkType(row.second),
        },
    }
}

// Of what a server takes or not.
fn taken_of(row: &Row) -> Entry
    ensures { result ≡ taken_at row.now }
{
    let server = Server(row.first);
    let batch = batch_id(row.second, row.number);
    match row.head {
        20 => Entry::Refused {
            server,
            id: unit_id(row.second, row.number),
            used: row.call,
        },
        21 => Entry::Accepted {
            server,
            id: unit_id(row.second, row.number),
        },
        22 => Entry::Kept { server, batch },
        23 => Entry::Closed { server, batch },
        _ => Entry::Freed { server, batch },
    }
}

// Of what a server gives a rank.
fn given_of(row: &Row) -> Entry
    ensures { result ≡ given_at row.now }
{
    let server = Server(row.first);
    let rank = Rank(row.second);
    match row.head {
        25 => Entry::Granted {
            server,
            rank,
            call: row.call,
            id: unit_id(row.third, row.number),
        },
        26 => Entry::Looked {
            server,
            rank,
            call: row.call,
        },
        27 => Entry::Fetched {
            server,
            rank,
            id: unit_id(row.third, row.number),
        },
        _ => Entry::CommonFetched {
            server,
            rank,
            batch: batch_id(row.third, row.number),
        },
    }
}

// Of pushes, of counts, and of the end of all work.
fn moved_of(row: &Row) -> Entry
    ensures { result ≡ moved_at row.now }
{
    let server = Server(row.first);
    let id = unit_id(row.second, row.number);
    match row.head {
        29 => Entry::Promised {
            server,
            id,
            length: row.third,
        },
        30 => Entry::Left {
            server,
            to: Server(row.second),
            id: unit_id(row.third, row.number),
        },
        31 => Entry::Arrived { server, id },
        32 => Entry::Withdrawn { server, id },
        33 => counted_of(row, None),
        34 => counted_of(row, Some(signed(row.third))),
        _ => Entry::Exhausted,
    }
}

fn counted_of(row: &Row, top: Option<i32>) -> Entry
    ensures { result ≡ counted_at row.now top }
{
    Entry::Counted {
        server: Server(row.first),
        rank: Rank(row.second),
        call: row.call,
        info: Info {
            free: row.number,
            top,
            at_top: row.amount,
        },
    }
}

fn unit_id(rank: u32, number: u64) -> UnitId
    ensures { result ≡ unit_at rank number }
{
    UnitId {
        rank: Rank(rank),
        number,
    }
}

fn batch_id(rank: u32, number: u64) -> BatchId
    ensures { result ≡ batch_at rank number }
{
    BatchId {
        rank: Rank(rank),
        number,
    }
}
