//! The items of a batch.

ghost use Rattle.std.specs.Prelude.{◌≡◌, IfOk};
ghost use Rattle.job_text.specs.Kinds.{item_of as item_of_line};

use crate::words::{byte_number, cut_word};
use adlb_unit::{NoMemory, or_no_memory};
use std::alloc::Global;
use std::marker::Model;

/// What is asked of the bytes of a batch: how many are from `lo` to `hi`, their sum, or the greatest.
#[derive(Clone, Copy, PartialEq, Eq)]
pub enum Item {
    Count { lo: u8, hi: u8 },
    Sum,
    Max,
}

/// The items of a batch, in input order, at most 2^24. They are seen as their list.
#[derive(Drop)]
pub struct Items {
    list: Box<Vec<Item>>,
}

impl Model for Items {
    ghost use Rattle.std.specs.Prelude.{◌≤◌, ◌^◌, List, length};
    ghost use Rattle.job_text.specs.declared.items.Item.{Item};

    ghost Value = { List Item };

    ghost view = { λ items. items.list.value.items };

    ghost invariant = { λ items. length items.list.value.items ≤ 2 ^ 24 };
}

impl Items {
    ghost use Rattle.std.specs.Prelude.{◌≤◌, ◌^◌, length};

    /// The items, in input order.
    pub fn as_slice(&self) -> &[Item]
        ensures items { result.now ≡ self.now }
        ensures few { length self.now ≤ 2 ^ 24 }
    {
        self.list.as_slice()
    }

    // The items of a list. Its only error is `NoMemory`.
    pub(crate) fn of(alloc: Global, list: Vec<Item>) -> Result<Items, NoMemory>
        requires { length list.items ≤ 2 ^ 24 }
        ensures { IfOk result (λ items. items ≡ list.items) }
    {
        let list = or_no_memory(Box::new(alloc, list))?;
        Ok(Items { list })
    }
}

/// The item of a line that begins with the name of one, if it is of its form (`item_of`).
#[tactic(auto, unfolding(crate::specs::Kinds::item_of))]
pub(crate) fn item_of(line: &[u8]) -> Option<Item>
    ensures { result ≡ item_of_line line.now }
{
    if line == b"sum".as_slice() {
        return Some(Item::Sum);
    }
    if line == b"max".as_slice() {
        return Some(Item::Max);
    }
    let (name, numbers) = cut_word(line);
    if name != b"count".as_slice() {
        return None;
    }
    let (lo, hi) = cut_word(numbers);
    Some(Item::Count {
        lo: byte_number(lo)?,
        hi: byte_number(hi)?,
    })
}
