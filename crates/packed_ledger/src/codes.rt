//! Entries as bytes: the row of an entry, and after it the bytes or the types that it tells.

ghost use Rattle.std.specs.Prelude.{ℕ, ◌≡◌, ◌≤◌, ◌<◌, ◌+◌, ◌++◌, List, [], Some, length, take, IfOk};
ghost use Rattle.std.specs.List.{All, flat_map};
ghost use Rattle.std.specs.Vec.{vec_capacity, vec_len};
ghost use Rattle.adlb_unit.specs.declared.names.WorkType.{WorkType};
ghost use Rattle.bag_ledger.specs.declared.entries.Entry.{Entry};
ghost use Rattle.packed_ledger.specs.inside.Codes.{IsKept, IsKeptStamped, entry_before, kind_code, kind_fits, listed, stamped_before};
ghost use Rattle.packed_ledger.specs.inside.Made.{with_bytes, with_types};
ghost use Rattle.packed_ledger.specs.Sizes.{size_of};
ghost use Rattle.packed_ledger.specs.declared.stamped.Stamped.{Stamped};

use crate::making::{light_of, put_of};
use crate::numbers::{LONG, SHORT, push_groups, read_groups, read_short};
use crate::rows::{Row, push_row, read_row};
use crate::stamped::Stamped;
use crate::telling::row_of;
use adlb_unit::{NoMemory, Payload, Rank, TYPE_LIMIT, Types, WorkType, or_no_memory};
use bag_ledger::Entry;
use std::alloc::Global;

/// Appends the entry. There is room for it, where 10 bytes fewer are enough: those of a stamp.
pub(crate) fn push_entry(bytes: &mut Vec<u8>, entry: &Entry)
    requires { vec_len bytes.old + size_of entry.now ≤ vec_capacity bytes.old + 10 }
    ensures items { bytes.new.items ≡ bytes.old.items ++ entry_before entry.now [] }
    ensures len { vec_len bytes.new + 10 ≤ vec_len bytes.old + size_of entry.now }
    ensures capacity { vec_capacity bytes.old ≤ vec_capacity bytes.new }
    ensures kept { IsKept entry.now }
{
    push_row(bytes, row_of(entry));
    match entry {
        Entry::Putting { body, .. } => push_bytes(bytes, body.bytes()),
        Entry::Keeping { common, .. } => push_bytes(bytes, common.bytes()),
        Entry::Asked { types, .. } => push_types(bytes, types),
        Entry::Tried { types, .. } => push_types(bytes, types),
        _ => {}
    }
}

fn push_bytes(bytes: &mut Vec<u8>, more: &[u8])
    requires { vec_len bytes.old + length more.now ≤ vec_capacity bytes.old }
    ensures items { bytes.new.items ≡ bytes.old.items ++ more.now }
    ensures len { vec_len bytes.new ≡ vec_len bytes.old + length more.now }
    ensures capacity { vec_capacity bytes.old ≤ vec_capacity bytes.new }
{
    let _fits = bytes.extend_from_slice(more);
}

// Of a list the first 16, which are all.
fn push_types(bytes: &mut Vec<u8>, types: &Types)
    requires { vec_len bytes.old + 80 ≤ vec_capacity bytes.old }
    ensures items { bytes.new.items ≡ bytes.old.items ++ flat_map kind_code (listed types.now) }
    ensures len { vec_len bytes.new ≤ vec_len bytes.old + 80 }
    ensures capacity { vec_capacity bytes.new ≡ vec_capacity bytes.old }
    ensures fit { All kind_fits (listed types.now) }
{
    match types.kinds() {
        None => {}
        Some(kinds) => push_kinds(bytes, kinds.split_at(kinds.len().min(TYPE_LIMIT)).0),
    }
}

fn push_kinds(bytes: &mut Vec<u8>, kinds: &[WorkType])
    requires few { length kinds.now ≤ 16 }
    requires room { vec_len bytes.old + 80 ≤ vec_capacity bytes.old }
    ensures items { bytes.new.items ≡ bytes.old.items ++ flat_map kind_code kinds.now }
    ensures len { vec_len bytes.new ≤ vec_len bytes.old + 80 }
    ensures capacity { vec_capacity bytes.new ≡ vec_capacity bytes.old }
    ensures fit { All kind_fits kinds.now }
{
    for kind in kinds {
        push_groups(bytes, SHORT, kind.0 as u64);
    }
}

/// The entry in front, and what follows it. Its only error is `NoMemory`.
pub(crate) fn read_entry(alloc: Global, bytes: &[u8]) -> Result<(Entry, &[u8]), NoMemory>
    ensures { (e : Entry) (rest : List ℕ) → IsKept e → bytes.now ≡ entry_before e rest → IfOk result (λ r. (r.0 ≡ e) × (r.1.now ≡ rest)) }
{
    let (row, rest) = read_row(bytes);
    if row.head < 7 {
        return read_with_bytes(alloc, &row, rest);
    }
    if row.head == 8 || row.head == 10 {
        return read_with_types(&row, rest);
    }
    Ok((light_of(&row), rest))
}

fn read_with_bytes<'a>(
    alloc: Global,
    row: &Row,
    rest: &'a [u8],
) -> Result<(Entry, &'a [u8]), NoMemory>
    ensures { (body behind : List ℕ) → row.now.number ≡ length body → rest.now ≡ body ++ behind →
        IfOk result (λ r. (r.0 ≡ with_bytes row.now body) × (r.1.now ≡ behind)) }
{
    let (body, behind) = rest.split_at(at_most(row.number, rest.len()));
    let body = Payload::from_vec(or_no_memory(Vec::from_slice(alloc, body))?);
    if row.head < 6 {
        return Ok((put_of(row, body), behind));
    }
    let keeping = Entry::Keeping {
        rank: Rank(row.first),
        call: row.call,
        common: body,
    };
    Ok((keeping, behind))
}

// The number, or the greatest that is allowed.
fn at_most(number: u64, limit: usize) -> usize
    ensures within { result ≤ limit }
    ensures is { number ≤ limit → result ≡ number }
{
    if number < limit as u64 {
        number as usize
    } else {
        limit
    }
}

// Of at most 16 types. That there are more, or none, does not come.
fn read_with_types<'a>(row: &Row, rest: &'a [u8]) -> Result<(Entry, &'a [u8]), NoMemory>
    ensures { (kinds : List WorkType) (behind : List ℕ) → row.now.number ≡ length kinds → All kind_fits (take 16 kinds) →
        rest.now ≡ flat_map kind_code (take 16 kinds) ++ behind →
        IfOk result (λ r. (r.0 ≡ with_types row.now (Some kinds)) × (r.1.now ≡ behind)) }
{
    if row.number > TYPE_LIMIT as u64 {
        return Err(NoMemory);
    }
    let (types, behind) = read_types(rest, row.number as usize)?;
    let rank = Rank(row.first);
    let call = row.call;
    if row.head == 8 {
        return Ok((Entry::Asked { rank, call, types }, behind));
    }
    Ok((Entry::Tried { rank, call, types }, behind))
}

fn read_types(bytes: &[u8], count: usize) -> Result<(Types, &[u8]), NoMemory>
    requires { count ≤ 16 }
    ensures { (kinds : List WorkType) (rest : List ℕ) → count ≡ length kinds → All kind_fits kinds →
        bytes.now ≡ flat_map kind_code kinds ++ rest → IfOk result (λ r. (r.0 ≡ Some kinds) × (r.1.now ≡ rest)) }
{
    let mut kinds = [WorkType(0); TYPE_LIMIT];
    let mut rest = bytes;
    for i in 0..count {
        let (kind, behind) = read_short(rest);
        kinds[i] = WorkType(kind);
        rest = behind;
    }
    match Types::list(&kinds[..count]) {
        Ok(types) => Ok((types, rest)),
        Err(_) => Err(NoMemory),
    }
}

/// Appends the entry after its stamp. There is room for it.
pub(crate) fn push_stamped(bytes: &mut Vec<u8>, last: &Stamped)
    requires { vec_len bytes.old + size_of last.now.entry ≤ vec_capacity bytes.old }
    ensures items { bytes.new.items ≡ bytes.old.items ++ stamped_before last.now [] }
    ensures len { vec_len bytes.new ≤ vec_len bytes.old + size_of last.now.entry }
    ensures capacity { vec_capacity bytes.old ≤ vec_capacity bytes.new }
    ensures kept { IsKeptStamped last.now }
{
    push_groups(bytes, LONG, last.stamp);
    push_entry(bytes, &last.entry);
}

/// The stamp in front.
pub(crate) fn read_stamp(bytes: &[u8]) -> u64
    ensures { (s : Stamped) (rest : List ℕ) → IsKeptStamped s → bytes.now ≡ stamped_before s rest → result ≡ s.stamp }
{
    read_groups(bytes, LONG).0
}

/// The entry in front with its stamp, and how many bytes they are. Its only error is `NoMemory`.
pub(crate) fn read_stamped(alloc: Global, bytes: &[u8]) -> Result<(Stamped, usize), NoMemory>
    ensures within { IfOk result (λ r. r.1 ≤ length bytes.now) }
    ensures read { (s : Stamped) (rest : List ℕ) → IsKeptStamped s → bytes.now ≡ stamped_before s rest →
        IfOk result (λ r. (r.0 ≡ s) × (r.1 + length rest ≡ length bytes.now)) }
{
    let (stamp, behind) = read_groups(bytes, LONG);
    let (entry, rest) = read_entry(alloc, behind)?;
    Ok((
        Stamped { stamp, entry },
        bytes.len().saturating_sub(rest.len()),
    ))
}
