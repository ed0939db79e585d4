//! The part of a batch.

ghost use Rattle.std.specs.Prelude.{◌≡◌, ◌++◌, ◌≤◌, ◌^◌, length, OnOk};
ghost use Rattle.job_report.specs.inside.{batch_head, batch_told, item_line as line_of_item, lines_told};

use crate::answers::Answers;
use crate::texts::{append, append_count, append_number};
use adlb_unit::NoMemory;
use job_text::Item;

/// Appends the part of the batch of this number, whose common part has `bytes` bytes. Its only error is `NoMemory`.
pub(crate) fn append_batch(
    text: &mut Vec<u8>,
    batch: u32,
    bytes: usize,
    items: &[Item],
    answers: &Answers,
) -> Result<(), NoMemory>
    requires { length items.now ≤ 2 ^ 24 }
    ensures { OnOk result (text.new.items ≡ text.old.items ++ batch_told answers.now batch bytes items.now) }
{
    append_head(text, batch, bytes, items.len())?;
    append_items(text, batch, items, answers)
}

// Appends the first line of the batch.
fn append_head(text: &mut Vec<u8>, batch: u32, bytes: usize, items: usize) -> Result<(), NoMemory>
    ensures { OnOk result (text.new.items ≡ text.old.items ++ batch_head batch bytes items) }
{
    append(text, b"batch ")?;
    append_number(text, batch as u128)?;
    append(text, b" bytes ")?;
    append_number(text, bytes as u128)?;
    append_count(text, b" items", items as u128)
}

// Appends a line for each item.
fn append_items(
    text: &mut Vec<u8>,
    batch: u32,
    items: &[Item],
    answers: &Answers,
) -> Result<(), NoMemory>
    requires { length items.now ≤ 2 ^ 24 }
    ensures { OnOk result (text.new.items ≡ text.old.items ++ lines_told answers.now batch 1 items.now) }
{
    let mut number: u32 = 1;
    for item in items {
        append_item(text, *item, answers.value(batch, number))?;
        number += 1;
    }
    Ok(())
}

// Appends the line of an item with this answer.
fn append_item(text: &mut Vec<u8>, item: Item, answer: u64) -> Result<(), NoMemory>
    ensures { OnOk result (text.new.items ≡ text.old.items ++ line_of_item item answer) }
{
    match item {
        Item::Count { lo, hi } => append_counting(text, lo, hi, answer),
        Item::Sum => append_count(text, b"sum =", answer as u128),
        Item::Max => append_count(text, b"max =", answer as u128),
    }
}

// Appends the line of a counting from `lo` to `hi`.
fn append_counting(text: &mut Vec<u8>, lo: u8, hi: u8, answer: u64) -> Result<(), NoMemory>
    ensures { OnOk result (text.new.items ≡ text.old.items ++ line_of_item (Item.Count lo hi) answer) }
{
    append(text, b"count ")?;
    append_number(text, lo as u128)?;
    append(text, b" ")?;
    append_number(text, hi as u128)?;
    append_count(text, b" =", answer as u128)
}
