//! The entries of a ledger.

use adlb_unit::{NoMemory, Payload, Rank, Server, Target, Types, UnitId, WorkType};
use bag_ledger::Entry;
use packed_ledger::Ledger;
use std::alloc::Global;
use std::test::Fail;

const UNIT: UnitId = UnitId {
    rank: Rank(0),
    number: 0,
};

// The entry at this place: a unit is put, accepted, asked for and granted.
fn entry(alloc: Global, place: u32) -> Result<Entry, NoMemory> {
    let (rank, server) = (Rank(0), Server(0));
    match place {
        0 => putting(alloc),
        1 => Ok(Entry::Accepted { server, id: UNIT }),
        2 => Ok(Entry::Asked {
            rank,
            call: 1,
            types: Types::any(),
        }),
        _ => Ok(Entry::Granted {
            server,
            rank,
            call: 1,
            id: UNIT,
        }),
    }
}

fn putting(alloc: Global) -> Result<Entry, NoMemory> {
    let body = Payload::copy(alloc, b"ab")?;
    Ok(Entry::Putting {
        rank: Rank(0),
        call: 0,
        kind: WorkType(1),
        prio: 0,
        target: Target::Any,
        answer: None,
        body,
    })
}

fn push_all(alloc: Global, ledger: &mut Ledger) -> Result<(), NoMemory> {
    for place in 0..4 {
        ledger.push(entry(alloc, place)?)?;
    }
    Ok(())
}

fn are_those(entries: &[Entry]) -> bool {
    match entries {
        [put, accepted, asked, granted] => {
            is_put(put)
                && matches!(accepted, Entry::Accepted { id, .. } if *id == UNIT)
                && matches!(asked, Entry::Asked { call: 1, .. })
                && matches!(granted, Entry::Granted { call: 1, .. })
        }
        _ => false,
    }
}

fn is_put(entry: &Entry) -> bool {
    match entry {
        Entry::Putting { body, .. } => body.bytes() == b"ab".as_slice(),
        _ => false,
    }
}

#[test]
fn entries_are_what_was_pushed(rt: HostRuntime) -> Result<(), Fail> {
    let mut ledger = Ledger::new(rt.alloc());
    assert!(rt; ledger.list(rt.alloc())?.is_empty());
    push_all(rt.alloc(), &mut ledger)?;
    assert!(rt; are_those(&ledger.list(rt.alloc())?));
    Ok(())
}
