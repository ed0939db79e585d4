//! What an entry tells: its row.

ghost use Rattle.std.specs.Prelude.{◌≡◌, ◌<◌};
ghost use Rattle.packed_ledger.specs.inside.Told.{end_head, put_head, top_head, wanted_head};
ghost use Rattle.packed_ledger.specs.inside.Told.{aim, kinds_in, rank_or_0, row_of, small, top_or_0};

use crate::rows::Row;
use crate::signs::unsigned;
use adlb_unit::{End, Rank, Target, Types};
use bag_ledger::Entry;

/// What the entry tells in numbers.
pub(crate) fn row_of(entry: &Entry) -> Row
    ensures { result ≡ row_of entry.now }
{
    match entry {
        Entry::Putting {
            rank,
            call,
            kind,
            prio,
            target,
            answer,
            body,
        } => Row {
            head: put_head(*target, *answer),
            first: rank.0,
            second: kind.0,
            third: unsigned(*prio),
            fourth: aim(*target),
            fifth: rank_or_0(*answer),
            call: *call,
            number: body.len() as u64,
            amount: 0,
        },
        Entry::Keeping { rank, call, common } => {
            small(6, rank.0, 0, 0, *call, common.len() as u64)
        }
        Entry::Asked { rank, call, types } => {
            small(wanted_head(7, types), rank.0, 0, 0, *call, kinds_in(types))
        }
        Entry::Tried { rank, call, types } => {
            small(wanted_head(9, types), rank.0, 0, 0, *call, kinds_in(types))
        }
        Entry::Rejected { rank, call } => small(11, rank.0, 0, 0, *call, 0),
        Entry::Closing { rank, call } => small(12, rank.0, 0, 0, *call, 0),
        Entry::NoCurrent { rank, call } => small(13, rank.0, 0, 0, *call, 0),
        Entry::Done { rank, call } => small(14, rank.0, 0, 0, *call, 0),
        Entry::Finished { rank, call } => small(15, rank.0, 0, 0, *call, 0),
        Entry::Over { rank, call, end } => small(end_head(*end), rank.0, 0, 0, *call, 0),
        Entry::Fetching { rank, call, id } => small(18, rank.0, id.rank.0, 0, *call, id.number),
        Entry::Counting { rank, call, kind } => small(19, rank.0, kind.0, 0, *call, 0),
        Entry::Refused { server, id, used } => {
            small(20, server.0, id.rank.0, 0, *used, id.number)
        }
        Entry::Accepted { server, id } => small(21, server.0, id.rank.0, 0, 0, id.number),
        Entry::Kept { server, batch } => small(22, server.0, batch.rank.0, 0, 0, batch.number),
        Entry::Closed { server, batch } => small(23, server.0, batch.rank.0, 0, 0, batch.number),
        Entry::Freed { server, batch } => small(24, server.0, batch.rank.0, 0, 0, batch.number),
        Entry::Granted {
            server,
            rank,
            call,
            id,
        } => small(25, server.0, rank.0, id.rank.0, *call, id.number),
        Entry::Looked { server, rank, call } => small(26, server.0, rank.0, 0, *call, 0),
        Entry::Fetched { server, rank, id } => {
            small(27, server.0, rank.0, id.rank.0, 0, id.number)
        }
        Entry::CommonFetched {
            server,
            rank,
            batch,
        } => small(28, server.0, rank.0, batch.rank.0, 0, batch.number),
        Entry::Promised { server, id, length } => {
            small(29, server.0, id.rank.0, *length, 0, id.number)
        }
        Entry::Left { server, to, id } => small(30, server.0, to.0, id.rank.0, 0, id.number),
        Entry::Arrived { server, id } => small(31, server.0, id.rank.0, 0, 0, id.number),
        Entry::Withdrawn { server, id } => small(32, server.0, id.rank.0, 0, 0, id.number),
        Entry::Counted {
            server,
            rank,
            call,
            info,
        } => Row {
            head: top_head(info.top),
            first: server.0,
            second: rank.0,
            third: top_or_0(info.top),
            fourth: 0,
            fifth: 0,
            call: *call,
            number: info.free,
            amount: info.at_top,
        },
        Entry::Exhausted => small(35, 0, 0, 0, 0, 0),
    }
}

// A row of few numbers.
fn small(head: u8, first: u32, second: u32, third: u32, call: u64, number: u64) -> Row
    ensures { result ≡ small head first second third call number }
{
    Row {
        head,
        first,
        second,
        third,
        fourth: 0,
        fifth: 0,
        call,
        number,
        amount: 0,
    }
}

fn put_head(target: Target, answer: Option<Rank>) -> u8
    ensures { result ≡ put_head target answer }
{
    let of_target = match target {
        Target::Any => 0,
        Target::Only(_) => 1,
        Target::Soft(_) => 2,
    };
    match answer {
        None => of_target,
        Some(_) => of_target + 3,
    }
}

fn aim(target: Target) -> u32
    ensures { result ≡ aim target }
{
    match target {
        Target::Any => 0,
        Target::Only(rank) => rank.0,
        Target::Soft(rank) => rank.0,
    }
}

fn rank_or_0(answer: Option<Rank>) -> u32
    ensures { result ≡ rank_or_0 answer }
{
    match answer {
        None => 0,
        Some(rank) => rank.0,
    }
}

fn top_or_0(top: Option<i32>) -> u32
    ensures { result ≡ top_or_0 top }
{
    match top {
        None => 0,
        Some(prio) => unsigned(prio),
    }
}

fn top_head(top: Option<i32>) -> u8
    ensures { result ≡ top_head top }
{
    match top {
        None => 33,
        Some(_) => 34,
    }
}

fn end_head(end: End) -> u8
    ensures { result ≡ end_head end }
{
    match end {
        End::NoMoreWork => 16,
        End::Exhausted => 17,
    }
}

fn wanted_head(head: u8, types: &Types) -> u8
    requires { head < 100 }
    ensures { result ≡ wanted_head head types.now }
{
    match types.kinds() {
        None => head,
        Some(_) => head + 1,
    }
}

fn kinds_in(types: &Types) -> u64
    ensures { result ≡ kinds_in types.now }
{
    match types.kinds() {
        None => 0,
        Some(kinds) => kinds.len() as u64,
    }
}
