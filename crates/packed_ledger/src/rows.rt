//! Rows: what an entry tells in numbers. As bytes a row is its head, a byte whose bits tell which numbers are not 0, and these numbers.

ghost use Rattle.std.specs.Prelude.{ℕ, ◌≡◌, ◌≤◌, ◌+◌, ◌++◌, List, []};
ghost use Rattle.std.specs.Vec.{vec_capacity, vec_len};
ghost use Rattle.packed_ledger.specs.declared.rows.Row.{Row};
ghost use Rattle.packed_ledger.specs.inside.Rows.{RowFits, marks, row_before};

use crate::numbers::{LONG, SHORT, mark, push_part, read_byte, read_long_part, read_short_part};

/// What an entry tells in numbers. The head tells which entry it is.
#[derive(Drop)]
pub(crate) struct Row {
    pub head: u8,
    pub first: u32,
    pub second: u32,
    pub third: u32,
    pub fourth: u32,
    pub fifth: u32,
    pub call: u64,
    pub number: u64,
    pub amount: u64,
}

/// Appends the row. There is room for 57 bytes.
pub(crate) fn push_row(bytes: &mut Vec<u8>, row: Row)
    requires { vec_len bytes.old + 57 ≤ vec_capacity bytes.old }
    ensures items { bytes.new.items ≡ bytes.old.items ++ row_before row [] }
    ensures len { vec_len bytes.new ≤ vec_len bytes.old + 57 }
    ensures capacity { vec_capacity bytes.new ≡ vec_capacity bytes.old }
    ensures fits { RowFits row }
{
    bytes.push_reserved(row.head);
    bytes.push_reserved(marks(&row));
    push_part(bytes, SHORT, row.first as u64);
    push_part(bytes, SHORT, row.second as u64);
    push_part(bytes, SHORT, row.third as u64);
    push_part(bytes, SHORT, row.fourth as u64);
    push_part(bytes, SHORT, row.fifth as u64);
    push_part(bytes, LONG, row.call);
    push_part(bytes, LONG, row.number);
    push_part(bytes, LONG, row.amount);
}

// Which numbers of the row are not 0, the first in the lowest bit.
fn marks(row: &Row) -> u8
    ensures marks { result ≡ marks row.now }
    ensures fits { RowFits row.now }
{
    mark(row.first as u64)
        + 2 * mark(row.second as u64)
        + 4 * mark(row.third as u64)
        + 8 * mark(row.fourth as u64)
        + 16 * mark(row.fifth as u64)
        + 32 * mark(row.call)
        + 64 * mark(row.number)
        + 128 * mark(row.amount)
}

/// The row in front, and what follows it.
pub(crate) fn read_row(bytes: &[u8]) -> (Row, &[u8])
    ensures { (row : Row) (rest : List ℕ) → RowFits row → bytes.now ≡ row_before row rest → (result.0 ≡ row) × (result.1.now ≡ rest) }
{
    let (head, rest) = read_byte(bytes);
    let (marks, rest) = read_byte(rest);
    let (first, rest) = read_short_part(rest, marks % 2);
    let (second, rest) = read_short_part(rest, marks / 2 % 2);
    let (third, rest) = read_short_part(rest, marks / 4 % 2);
    let (fourth, rest) = read_short_part(rest, marks / 8 % 2);
    let (fifth, rest) = read_short_part(rest, marks / 16 % 2);
    let (call, rest) = read_long_part(rest, marks / 32 % 2);
    let (number, rest) = read_long_part(rest, marks / 64 % 2);
    let (amount, rest) = read_long_part(rest, marks / 128 % 2);
    let row = Row {
        head,
        first,
        second,
        third,
        fourth,
        fifth,
        call,
        number,
        amount,
    };
    (row, rest)
}
