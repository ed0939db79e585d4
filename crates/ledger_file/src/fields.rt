//! The fields of a line, as they are written.

ghost use Rattle.std.specs.Prelude.{◌≡◌, ◌++◌, ◌<◌, ◌≤◌, OnOk, Some, false, length};
ghost use Rattle.std.specs.Fmt.{digit_glyph};
ghost use Rattle.adlb_unit.specs.Limits.{type_limit};
ghost use Rattle.ledger_file.specs.Fields.{IsWithin, word, aim, wanted, body as bytes_field, id};
ghost use Rattle.ledger_file.specs.inside.Given.{field_of};

use crate::texts::append;
use adlb_unit::{End, NoMemory, Rank, Target, Types, WorkType};
use itoa::{Buffer, Integer};

/// A field of a line, by its kind.
#[derive(Clone, Copy)]
pub enum Field<'a> {
    Short(u32),
    Number(u64),
    Prio(i32),
    Id(Rank, u64),
    Aim(Target),
    Answer(Option<Rank>),
    Top(Option<i32>),
    Types(&'a Types),
    Bytes(&'a [u8]),
    End(End),
}

impl Field<'_> {
    /// Appends the word of the field, whose numbers lie in the ranges of their types. Its only error is `NoMemory`.
    pub fn append_to(&self, bytes: &mut Vec<u8>) -> Result<(), NoMemory>
        ensures written { OnOk result (bytes.new.items ≡ bytes.old.items ++ word (field_of self.now)) }
        ensures within { OnOk result (IsWithin (field_of self.now)) }
    {
        match self {
            Field::Short(n) => append_number(bytes, *n),
            Field::Number(n) => append_number(bytes, *n),
            Field::Prio(n) => append_number(bytes, *n),
            Field::Id(rank, number) => append_id(bytes, *rank, *number),
            Field::Aim(target) => append_target(bytes, *target),
            Field::Answer(None) => append(bytes, b"none"),
            Field::Answer(Some(rank)) => append_number(bytes, rank.0),
            Field::Top(None) => append(bytes, b"none"),
            Field::Top(Some(n)) => append_number(bytes, *n),
            Field::Types(types) => match types.kinds() {
                None => append(bytes, b"any"),
                Some(kinds) => append_kinds(bytes, kinds),
            },
            Field::Bytes(body) => append_body(bytes, body),
            Field::End(End::NoMoreWork) => append(bytes, b"nomore"),
            Field::End(End::Exhausted) => append(bytes, b"exhausted"),
        }
    }
}

// Appends the number in decimal digits. Its only error is `NoMemory`.
fn append_number<I: Integer>(bytes: &mut Vec<u8>, n: I) -> Result<(), NoMemory>
    ensures { OnOk result (bytes.new.items ≡ bytes.old.items ++ I.text n) }
{
    let mut digits = Buffer::new();
    append(bytes, digits.format(n).as_bytes())
}

// Appends an id. Its only error is `NoMemory`.
fn append_id(bytes: &mut Vec<u8>, rank: Rank, number: u64) -> Result<(), NoMemory>
    ensures written { OnOk result (bytes.new.items ≡ bytes.old.items ++ word (id rank.0 number)) }
    ensures within { OnOk result (IsWithin (id rank.0 number)) }
{
    append_number(bytes, rank.0)?;
    append(bytes, b".")?;
    append_number(bytes, number)
}

// Appends a target. Its only error is `NoMemory`.
fn append_target(bytes: &mut Vec<u8>, target: Target) -> Result<(), NoMemory>
    ensures written { OnOk result (bytes.new.items ≡ bytes.old.items ++ word (aim target)) }
    ensures within { OnOk result (IsWithin (aim target)) }
{
    match target {
        Target::Any => append(bytes, b"any"),
        Target::Only(rank) => {
            append(bytes, b"only:")?;
            append_number(bytes, rank.0)
        }
        Target::Soft(rank) => {
            append(bytes, b"soft:")?;
            append_number(bytes, rank.0)
        }
    }
}

// Appends a list of 1 to 16 types. Its only error is `NoMemory`.
fn append_kinds(bytes: &mut Vec<u8>, kinds: &[WorkType]) -> Result<(), NoMemory>
    requires some { 0 < length kinds.now }
    requires few { length kinds.now ≤ type_limit }
    ensures written { OnOk result (bytes.new.items ≡ bytes.old.items ++ word (wanted (Some kinds.now))) }
    ensures within { OnOk result (IsWithin (wanted (Some kinds.now))) }
{
    let [first, rest @ ..] = kinds else {
        return Ok(());
    };
    append_number(bytes, first.0)?;
    for kind in rest {
        append(bytes, b",")?;
        append_number(bytes, kind.0)?;
    }
    Ok(())
}

// Appends the bytes of a body. Its only error is `NoMemory`.
fn append_body(bytes: &mut Vec<u8>, body: &[u8]) -> Result<(), NoMemory>
    ensures written { OnOk result (bytes.new.items ≡ bytes.old.items ++ word (bytes_field body.now)) }
    ensures within { OnOk result (IsWithin (bytes_field body.now)) }
{
    if body.is_empty() {
        return append(bytes, b"-");
    }
    for b in body {
        append(bytes, &[digit(b / 16), digit(b % 16)])?;
    }
    Ok(())
}

// The hexadecimal digit of a number below 16, in lower case.
fn digit(n: u8) -> u8
    requires { n < 16 }
    ensures { result ≡ digit_glyph false n }
{
    if n < 10 { b'0' + n } else { b'a' - 10 + n }
}
