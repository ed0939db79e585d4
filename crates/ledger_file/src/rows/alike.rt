//! Entries with fields of the same kinds. Each reader reads the fields of the entry of a name. `Bad` comes exactly if
//! the words left do not begin with such fields.

ghost use Rattle.std.specs.Prelude.{◌≡◌};
ghost use Rattle.ledger_file.specs.inside.Reading.{Gives, length_in, next, pair_in, parts_left, types_in, value, with_call, with_server};
ghost use Rattle.ledger_file.specs.inside.Rows.{call_entry, id_entry, way_entry, wish_entry};

use crate::cursor::Parts;
use crate::faults::LineFault;
use crate::names::Name;
use adlb_unit::{BatchId, Rank, Server, Types, UnitId};
use bag_ledger::Entry;

/// The entry of this name, which names a call alone.
pub fn of_call(name: Name, words: &mut Parts<'_>) -> Result<Entry, LineFault>
    ensures { Gives (λ e. (e, parts_left words.new)) result (with_call (λ rank call. value (call_entry name rank call)) (parts_left words.old)) }
{
    let (rank, call) = words.call()?;
    Ok(call_entry(name, rank, call))
}

fn call_entry(name: Name, rank: Rank, call: u64) -> Entry
    ensures { result ≡ call_entry name rank call }
{
    match name {
        Name::Rejected => Entry::Rejected { rank, call },
        Name::Closing => Entry::Closing { rank, call },
        Name::NoCurrent => Entry::NoCurrent { rank, call },
        Name::Done => Entry::Done { rank, call },
        _ => Entry::Finished { rank, call },
    }
}

/// The entry of this name, which names a call and the types that are wanted.
pub fn of_wish(name: Name, words: &mut Parts<'_>) -> Result<Entry, LineFault>
    ensures { Gives (λ e. (e, parts_left words.new)) result (with_call (λ rank call. next types_in (λ types. value (wish_entry name rank call types))) (parts_left words.old)) }
{
    let (rank, call) = words.call()?;
    let types = words.types()?;
    Ok(wish_entry(name, rank, call, types))
}

fn wish_entry(name: Name, rank: Rank, call: u64, types: Types) -> Entry
    ensures { result ≡ wish_entry name rank call types }
{
    match name {
        Name::Asked => Entry::Asked { rank, call, types },
        _ => Entry::Tried { rank, call, types },
    }
}

/// The entry of this name, which names a server and an id.
pub fn of_id(name: Name, words: &mut Parts<'_>) -> Result<Entry, LineFault>
    ensures { Gives (λ e. (e, parts_left words.new)) result (with_server (λ server. next pair_in (λ x. value (id_entry name server x))) (parts_left words.old)) }
{
    let server = words.server()?;
    let (rank, number) = words.id()?;
    Ok(id_entry(name, server, Rank(rank), number))
}

fn id_entry(name: Name, server: Server, rank: Rank, number: u64) -> Entry
    ensures { result ≡ id_entry name server (rank.0, number) }
{
    let (id, batch) = (UnitId { rank, number }, BatchId { rank, number });
    match name {
        Name::Accepted => Entry::Accepted { server, id },
        Name::Kept => Entry::Kept { server, batch },
        Name::Closed => Entry::Closed { server, batch },
        Name::Freed => Entry::Freed { server, batch },
        Name::Arrived => Entry::Arrived { server, id },
        _ => Entry::Withdrawn { server, id },
    }
}

/// The entry of this name, which names a server, whom it gives to, and an id.
pub fn of_way(name: Name, words: &mut Parts<'_>) -> Result<Entry, LineFault>
    ensures { Gives (λ e. (e, parts_left words.new)) result (with_server (λ server. next length_in (λ to. next pair_in (λ x. value (way_entry name server to x)))) (parts_left words.old)) }
{
    let server = words.server()?;
    let to = words.length()?;
    let (rank, number) = words.id()?;
    Ok(way_entry(name, server, to, (Rank(rank), number)))
}

fn way_entry(name: Name, server: Server, to: u32, id: (Rank, u64)) -> Entry
    ensures { result ≡ way_entry name server to (id.0.0, id.1) }
{
    let (rank, number) = id;
    let (id, batch) = (UnitId { rank, number }, BatchId { rank, number });
    match name {
        Name::Fetched => Entry::Fetched {
            server,
            rank: Rank(to),
            id,
        },
        Name::CommonFetched => Entry::CommonFetched {
            server,
            rank: Rank(to),
            batch,
        },
        _ => Entry::Left {
            server,
            to: Server(to),
            id,
        },
    }
}
