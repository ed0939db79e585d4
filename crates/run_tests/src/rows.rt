//! Entries of ledgers as texts, one after the other.

use adlb_unit::{End, Payload};
use bag_ledger::Entry;
use packed_ledger::Ledger;
use std::alloc::Global;
use std::fmt::Write;
use std::test::Fail;

/// How entries are shown.
#[derive(Clone, Copy)]
pub(crate) enum Form {
    /// Each on a line, as it is shown by `Debug`. Of what is put it shows type, length and first byte, of a common part the
    /// latter two, and of a reserve and a try no types.
    Lines,
    /// What it is, the call, unit or batch that it names, its server, or its rank if it names none, and its bytes or the
    /// bytes used.
    Numbers,
    /// Its server, or its rank if it names none; of a grant both, of a refusal the charge, and of a unit that leaves where
    /// it goes.
    Places,
}

/// The ledger is shown so.
pub(crate) fn ledger_is(
    alloc: Global,
    ledger: &Ledger,
    form: Form,
    wanted: &str,
) -> Result<bool, Fail> {
    let entries = ledger.list(alloc)?;
    are(alloc, &entries, form, wanted)
}

/// The entries are shown so.
pub(crate) fn are(
    alloc: Global,
    entries: &[Entry],
    form: Form,
    wanted: &str,
) -> Result<bool, Fail> {
    let mut text = String::new(alloc);
    add_all(&mut text, entries, form)?;
    Ok(text.as_str() == wanted)
}

fn add_all(text: &mut String, entries: &[Entry], form: Form) -> Result<(), Fail> {
    for entry in entries {
        add(text, entry, form)?;
    }
    Ok(())
}

fn add(text: &mut String, entry: &Entry, form: Form) -> Result<(), Fail> {
    match form {
        Form::Lines => add_line(text, entry),
        Form::Numbers => add_numbers(text, entry),
        Form::Places => add_place(text, entry),
    }
}

fn add_line(text: &mut String, entry: &Entry) -> Result<(), Fail> {
    if !text.is_empty() {
        text.push_str("\n")?;
    }
    match entry {
        Entry::Putting {
            rank,
            call,
            kind,
            body,
            ..
        } => add_put(text, (rank.0, *call), kind.0, body),
        Entry::Keeping { rank, call, common } => add_part(text, (rank.0, *call), common),
        Entry::Asked { rank, call, .. } => add_call(text, "Asked", (rank.0, *call)),
        Entry::Tried { rank, call, .. } => add_call(text, "Tried", (rank.0, *call)),
        _ => Ok(write!(text, "{entry:?}")?),
    }
}

fn add_put(text: &mut String, call: (u32, u64), kind: u32, body: &Payload) -> Result<(), Fail> {
    let (rank, call) = call;
    write!(text, "Putting {rank} {call}: type {kind}, ")?;
    add_bytes(text, body.bytes())
}

fn add_part(text: &mut String, (rank, call): (u32, u64), common: &Payload) -> Result<(), Fail> {
    write!(text, "Keeping {rank} {call}: ")?;
    add_bytes(text, common.bytes())
}

fn add_call(text: &mut String, name: &str, (rank, call): (u32, u64)) -> Result<(), Fail> {
    Ok(write!(text, "{name} {rank} {call}")?)
}

// How many bytes these are, and the first of them.
fn add_bytes(text: &mut String, bytes: &[u8]) -> Result<(), Fail> {
    let (length, first) = (bytes.len(), bytes.first());
    Ok(write!(text, "{length} bytes, {first:?}")?)
}

fn add_numbers(text: &mut String, entry: &Entry) -> Result<(), Fail> {
    let (name, number) = (name(entry), number(entry));
    let (place, bytes) = (place(entry), bytes(entry));
    Ok(write!(text, "{name} {number} {place} {bytes}; ")?)
}

fn add_place(text: &mut String, entry: &Entry) -> Result<(), Fail> {
    match entry {
        Entry::Granted { rank, .. } => add_two(text, entry, "to", u64::from(rank.0)),
        Entry::Refused { used, .. } => add_two(text, entry, "by", *used),
        Entry::Left { to, .. } => add_two(text, entry, "to", u64::from(to.0)),
        Entry::Exhausted => Ok(text.push_str("exhausted; ")?),
        _ => add_one(text, entry),
    }
}

fn add_one(text: &mut String, entry: &Entry) -> Result<(), Fail> {
    let (name, place) = (name(entry), place(entry));
    Ok(write!(text, "{name} {place}; ")?)
}

fn add_two(text: &mut String, entry: &Entry, how: &str, number: u64) -> Result<(), Fail> {
    let (name, place) = (name(entry), place(entry));
    Ok(write!(text, "{name} {place} {how} {number}; ")?)
}

fn name(entry: &Entry) -> &'static str {
    match entry {
        Entry::Putting { .. } => "putting",
        Entry::Refused { .. } => "refused",
        Entry::Accepted { .. } => "accepted",
        Entry::Rejected { .. } => "rejected",
        Entry::Keeping { .. } => "keeping",
        Entry::Kept { .. } => "kept",
        Entry::Closing { .. } => "closing",
        Entry::Closed { .. } => "closed",
        Entry::Freed { .. } => "freed",
        Entry::Asked { .. } => "asked",
        Entry::Tried { .. } => "tried",
        Entry::Granted { .. } => "granted",
        Entry::Looked { .. } => "looked",
        Entry::NoCurrent { .. } => "no current",
        Entry::Fetching { .. } => "fetching",
        Entry::Fetched { .. } => "fetched",
        Entry::CommonFetched { .. } => "common fetched",
        Entry::Promised { .. } => "promised",
        Entry::Left { .. } => "left",
        Entry::Arrived { .. } => "arrived",
        Entry::Withdrawn { .. } => "withdrawn",
        Entry::Counting { .. } => "counting",
        Entry::Counted { .. } => "counted",
        Entry::Done { .. } => "done",
        Entry::Exhausted => "exhausted",
        Entry::Over { end, .. } => end_name(*end),
        Entry::Finished { .. } => "finished",
    }
}

fn end_name(end: End) -> &'static str {
    match end {
        End::Exhausted => "used up",
        End::NoMoreWork => "no more",
    }
}

// The unit or batch of a server's entry, and the call of a rank's.
fn number(entry: &Entry) -> u64 {
    match entry {
        Entry::Refused { id, .. }
        | Entry::Accepted { id, .. }
        | Entry::Granted { id, .. }
        | Entry::Fetching { id, .. }
        | Entry::Fetched { id, .. }
        | Entry::Promised { id, .. }
        | Entry::Left { id, .. }
        | Entry::Arrived { id, .. }
        | Entry::Withdrawn { id, .. } => id.number,
        Entry::Kept { batch, .. }
        | Entry::Closed { batch, .. }
        | Entry::Freed { batch, .. }
        | Entry::CommonFetched { batch, .. } => batch.number,
        Entry::Putting { call, .. }
        | Entry::Rejected { call, .. }
        | Entry::Keeping { call, .. }
        | Entry::Closing { call, .. }
        | Entry::Asked { call, .. }
        | Entry::Tried { call, .. }
        | Entry::Looked { call, .. }
        | Entry::NoCurrent { call, .. }
        | Entry::Counting { call, .. }
        | Entry::Counted { call, .. }
        | Entry::Done { call, .. }
        | Entry::Over { call, .. }
        | Entry::Finished { call, .. } => *call,
        Entry::Exhausted => 0,
    }
}

// The server, or the rank of an entry that names none.
fn place(entry: &Entry) -> u32 {
    match entry {
        Entry::Refused { server, .. }
        | Entry::Accepted { server, .. }
        | Entry::Kept { server, .. }
        | Entry::Closed { server, .. }
        | Entry::Freed { server, .. }
        | Entry::Granted { server, .. }
        | Entry::Looked { server, .. }
        | Entry::Fetched { server, .. }
        | Entry::CommonFetched { server, .. }
        | Entry::Promised { server, .. }
        | Entry::Left { server, .. }
        | Entry::Arrived { server, .. }
        | Entry::Withdrawn { server, .. }
        | Entry::Counted { server, .. } => server.0,
        Entry::Putting { rank, .. }
        | Entry::Rejected { rank, .. }
        | Entry::Keeping { rank, .. }
        | Entry::Closing { rank, .. }
        | Entry::Asked { rank, .. }
        | Entry::Tried { rank, .. }
        | Entry::NoCurrent { rank, .. }
        | Entry::Fetching { rank, .. }
        | Entry::Counting { rank, .. }
        | Entry::Done { rank, .. }
        | Entry::Over { rank, .. }
        | Entry::Finished { rank, .. } => rank.0,
        Entry::Exhausted => 0,
    }
}

fn bytes(entry: &Entry) -> u64 {
    match entry {
        Entry::Putting { body, .. } => body.len() as u64,
        Entry::Keeping { common, .. } => common.len() as u64,
        Entry::Refused { used, .. } => *used,
        Entry::Counted { info, .. } => info.free,
        _ => 0,
    }
}
