//! Writing the text of a configuration and its ledger.

ghost use Rattle.std.specs.Prelude.{◌≡◌, ◌++◌, IfOk, OnOk, length};
ghost use Rattle.std.specs.List.{AllByRecursion};
ghost use Rattle.ledger_file.specs.Fields.{IsWithin};
ghost use Rattle.ledger_file.specs.Lines.{AreEntries, IsEntry, first_row, last_row, line, open_text, row, text};
ghost use Rattle.ledger_file.specs.inside.Given.{fields_of, spaced, what, who};

use crate::fields::Field::{self, Aim, Answer, Bytes, End, Id, Number, Prio, Short, Top, Types};
use crate::names::Name;
use crate::texts::append;
use adlb_unit::{Config, NoMemory};
use bag_ledger::Entry;
use packed_ledger::Ledger;
use std::alloc::Global;

/// The text of the configuration and the ledger (`text`), the numbers of whose entries lie in the ranges of their types. Its only
/// error is `NoMemory`.
pub fn write_ledger(alloc: Global, config: &Config, ledger: &Ledger) -> Result<Vec<u8>, NoMemory>
    ensures written { IfOk result (λ bytes. bytes.items ≡ text config.now ledger.now) }
    ensures within { OnOk result (AreEntries ledger.now) }
{
    let mut bytes = Vec::new(alloc);
    let (ranks, servers) = (Short(config.ranks), Short(config.servers));
    append_line(
        &mut bytes,
        b"ledger",
        &[ranks, servers, Number(config.limit)],
    )?;
    let mut entries = ledger.entries();
    while let Some(entry) = entries.next(alloc)? {
        append_entry(&mut bytes, &entry)?;
    }
    append_line(&mut bytes, b"end", &[Number(ledger.len())])?;
    Ok(bytes)
}

// Appends the line of the entry. Its only error is `NoMemory`.
fn append_entry(bytes: &mut Vec<u8>, entry: &Entry) -> Result<(), NoMemory>
    ensures written { OnOk result (bytes.new.items ≡ bytes.old.items ++ line (row entry.now)) }
    ensures within { OnOk result (IsEntry entry.now) }
{
    append(bytes, Name::of_entry(entry).word())?;
    append_who(bytes, entry)?;
    append_what(bytes, entry)?;
    append(bytes, b"\n")
}

// Appends the server, the rank and the call of the entry, as far as its line has them. Its only error is `NoMemory`.
fn append_who(bytes: &mut Vec<u8>, entry: &Entry) -> Result<(), NoMemory>
    ensures written { OnOk result (bytes.new.items ≡ bytes.old.items ++ spaced (who entry.now)) }
    ensures within { OnOk result (AllByRecursion IsWithin (who entry.now)) }
{
    match entry {
        Entry::Putting { rank, call, .. }
        | Entry::Rejected { rank, call }
        | Entry::Keeping { rank, call, .. }
        | Entry::Closing { rank, call }
        | Entry::Asked { rank, call, .. }
        | Entry::Tried { rank, call, .. }
        | Entry::NoCurrent { rank, call }
        | Entry::Fetching { rank, call, .. }
        | Entry::Counting { rank, call, .. }
        | Entry::Done { rank, call }
        | Entry::Over { rank, call, .. }
        | Entry::Finished { rank, call } => append_fields(bytes, &[Short(rank.0), Number(*call)]),
        Entry::Refused { server, .. }
        | Entry::Accepted { server, .. }
        | Entry::Kept { server, .. }
        | Entry::Closed { server, .. }
        | Entry::Freed { server, .. }
        | Entry::Promised { server, .. }
        | Entry::Arrived { server, .. }
        | Entry::Withdrawn { server, .. } => append_fields(bytes, &[Short(server.0)]),
        Entry::Granted {
            server,
            rank,
            call,
            ..
        }
        | Entry::Looked { server, rank, call }
        | Entry::Counted {
            server,
            rank,
            call,
            ..
        } => { append_fields(bytes, &[Short(server.0), Short(rank.0), Number(*call)]) }
        Entry::Fetched { server, rank, .. } | Entry::CommonFetched { server, rank, .. } => {
            append_fields(bytes, &[Short(server.0), Short(rank.0)])
        }
        Entry::Left { server, to, .. } => append_fields(bytes, &[Short(server.0), Short(to.0)]),
        Entry::Exhausted => Ok(()),
    }
}

// Appends the fields after those. Its only error is `NoMemory`.
fn append_what(bytes: &mut Vec<u8>, entry: &Entry) -> Result<(), NoMemory>
    ensures written { OnOk result (bytes.new.items ≡ bytes.old.items ++ spaced (what entry.now)) }
    ensures within { OnOk result (AllByRecursion IsWithin (what entry.now)) }
{
    match entry {
        Entry::Putting {
            kind,
            prio,
            target,
            answer,
            body,
            ..
        } => {
            let (kind, prio, body) = (Short(kind.0), Prio(*prio), Bytes(body.bytes()));
            append_fields(bytes, &[kind, prio, Aim(*target), Answer(*answer), body])
        }
        Entry::Refused { id, used, .. } => {
            append_fields(bytes, &[Id(id.rank, id.number), Number(*used)])
        }
        Entry::Promised { id, length, .. } => {
            append_fields(bytes, &[Id(id.rank, id.number), Short(*length)])
        }
        Entry::Accepted { id, .. }
        | Entry::Granted { id, .. }
        | Entry::Fetching { id, .. }
        | Entry::Fetched { id, .. }
        | Entry::Left { id, .. }
        | Entry::Arrived { id, .. }
        | Entry::Withdrawn { id, .. } => append_fields(bytes, &[Id(id.rank, id.number)]),
        Entry::Kept { batch, .. }
        | Entry::Closed { batch, .. }
        | Entry::Freed { batch, .. }
        | Entry::CommonFetched { batch, .. } => {
            append_fields(bytes, &[Id(batch.rank, batch.number)])
        }
        Entry::Keeping { common, .. } => append_fields(bytes, &[Bytes(common.bytes())]),
        Entry::Asked { types, .. } | Entry::Tried { types, .. } => {
            append_fields(bytes, &[Types(types)])
        }
        Entry::Counting { kind, .. } => append_fields(bytes, &[Short(kind.0)]),
        Entry::Counted { info, .. } => {
            append_fields(
                bytes,
                &[Number(info.free), Top(info.top), Number(info.at_top)],
            )
        }
        Entry::Over { end, .. } => append_fields(bytes, &[End(*end)]),
        _ => Ok(()),
    }
}

// Appends the line of a name and fields. Its only error is `NoMemory`.
fn append_line(bytes: &mut Vec<u8>, name: &[u8], fields: &[Field<'_>]) -> Result<(), NoMemory>
    ensures { OnOk result (bytes.new.items ≡ bytes.old.items ++ line (name.now, fields_of fields.now)) }
{
    append(bytes, name)?;
    append_fields(bytes, fields)?;
    append(bytes, b"\n")
}

// Appends fields, each after a blank. Its only error is `NoMemory`.
fn append_fields(bytes: &mut Vec<u8>, fields: &[Field<'_>]) -> Result<(), NoMemory>
    ensures written { OnOk result (bytes.new.items ≡ bytes.old.items ++ spaced (fields_of fields.now)) }
    ensures within { OnOk result (AllByRecursion IsWithin (fields_of fields.now)) }
{
    for field in fields {
        append(bytes, b" ")?;
        field.append_to(bytes)?;
    }
    Ok(())
}
