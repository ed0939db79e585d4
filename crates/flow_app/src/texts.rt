//! The output of a flow, piece by piece.

ghost use Rattle.std.specs.Prelude.{◌≡◌, ◌≤◌, ◌++◌, ℕ, length, decimal, codes, Some, IfOk, OnOk};
ghost use Rattle.flow_law.specs.Flows.{Name, flow_text, told};
ghost use Rattle.flow_app.specs.Reading.{definition_limit};
ghost use Rattle.flow_app.specs.Stored.{IsDrained, IsWhole};
ghost use Rattle.flow_app.specs.inside.Told.{ends_with, line_with};

use crate::flows::Flow;
use crate::stores::Store;
use adlb_unit::{NoMemory, or_no_memory};
use itoa::Buffer;
use std::alloc::Global;

// Appends the piece. Its only error is `NoMemory`.
fn append(text: &mut Vec<u8>, piece: &[u8]) -> Result<(), NoMemory>
    ensures { OnOk result (text.new.items ≡ text.old.items ++ piece.now) }
{
    or_no_memory(text.extend_from_slice(piece))
}

// Appends the number in decimal digits. Its only error is `NoMemory`.
fn append_number(text: &mut Vec<u8>, n: u64) -> Result<(), NoMemory>
    ensures { OnOk result (text.new.items ≡ text.old.items ++ decimal n) }
{
    let mut digits = Buffer::new();
    append(text, digits.format(n).as_bytes())
}

// Appends the line of a name. Its only error is `NoMemory`.
fn append_line(text: &mut Vec<u8>, name: &[u8], value: Option<u64>) -> Result<(), NoMemory>
    ensures { OnOk result (text.new.items ≡ text.old.items ++ line_with name.now value) }
{
    append(text, name)?;
    match value {
        Some(value) => {
            append(text, b" = ")?;
            append_number(text, value)?;
        }
        None => append(text, b" waits")?,
    }
    append(text, b"\n")
}

// Appends the last line. Its only error is `NoMemory`.
fn append_end(text: &mut Vec<u8>, done: usize, waits: usize) -> Result<(), NoMemory>
    ensures { OnOk result (text.new.items ≡ text.old.items ++ ends_with done waits) }
{
    append(text, b"done ")?;
    append_number(text, done as u64)?;
    append(text, b" waits ")?;
    append_number(text, waits as u64)?;
    append(text, b"\n")
}

/// The output of a flow of which all that is ready was worked. Its only error is `NoMemory`.
pub(crate) fn text_of(alloc: Global, flow: &Flow, store: &Store) -> Result<Vec<u8>, NoMemory>
    requires stored { IsWhole flow.now store.now }
    requires drained { IsDrained store.now }
    ensures { IfOk result (λ text. text.items ≡ flow_text flow.now) }
{
    let mut text = Vec::new(alloc);
    for (place, definition) in flow.as_slice().iter().enumerate() {
        append_line(&mut text, definition.name().bytes(), store.value(place))?;
    }
    let done = store.count();
    append_end(&mut text, done, flow.as_slice().len() - done)?;
    Ok(text)
}
