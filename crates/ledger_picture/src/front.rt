//! What the text of a picture begins with, and the names of its lanes.

ghost use Rattle.std.specs.Prelude.{◌≡◌, ◌++◌, ◌+◌, ◌*◌, ◌≤◌, ◌<◌, ◌^◌, IfOk, OnOk};
ghost use Rattle.ledger_picture.specs.Front.{IsPicture, attribute, counts_of, front_of, illegal_of, label, lane_of, lanes, lanes_of};

use crate::numbers::Numbers;
use crate::text::{put, put_number};
use adlb_unit::NoMemory;
use std::alloc::Global;

/// The text of a picture with these numbers (`IsPicture`), whose size and rest these are. Its only error is `NoMemory`.
pub(crate) fn whole(
    alloc: Global,
    numbers: Numbers,
    size: &[u8],
    rest: &[u8],
) -> Result<Vec<u8>, NoMemory>
    requires ranks { numbers.ranks ≤ 32 }
    requires servers { numbers.servers ≤ 8 }
    ensures { IfOk result (λ text. IsPicture numbers text.items) }
{
    let mut text = Vec::new(alloc);
    put_front(&mut text, numbers)?;
    put(&mut text, size)?;
    put_lanes(&mut text, numbers)?;
    put(&mut text, rest)?;
    Ok(text)
}

// Appends what a picture with these numbers begins with. Its only error is `NoMemory`.
fn put_front(text: &mut Vec<u8>, numbers: Numbers) -> Result<(), NoMemory>
    ensures { OnOk result (text.new.items ≡ text.old.items ++ front_of numbers) }
{
    put_counts(text, numbers)?;
    put_illegal(text, numbers.illegal)
}

// Appends how many ranks, servers and entries there are. Its only error is `NoMemory`.
fn put_counts(text: &mut Vec<u8>, numbers: Numbers) -> Result<(), NoMemory>
    ensures { OnOk result (text.new.items ≡ text.old.items ++ counts_of numbers) }
{
    put_attribute(
        text,
        b"<svg xmlns='http://www.w3.org/2000/svg' data-ranks='",
        numbers.ranks as u64,
    )?;
    put_attribute(text, b" data-servers='", numbers.servers as u64)?;
    put_attribute(text, b" data-entries='", numbers.entries)
}

// Appends where the first entry stands that is no step, if there is one. Its only error is `NoMemory`.
fn put_illegal(text: &mut Vec<u8>, illegal: Option<u64>) -> Result<(), NoMemory>
    ensures { OnOk result (text.new.items ≡ text.old.items ++ illegal_of illegal) }
{
    match illegal {
        Some(place) => put_attribute(text, b" data-illegal='", place),
        None => Ok(()),
    }
}

// Appends an attribute of this beginning. Its only error is `NoMemory`.
fn put_attribute(text: &mut Vec<u8>, name: &[u8], n: u64) -> Result<(), NoMemory>
    ensures { OnOk result (text.new.items ≡ text.old.items ++ attribute name.now n) }
{
    put(text, name)?;
    put_number(text, n)?;
    put(text, b"'")
}

// Appends the names of all lanes. Its only error is `NoMemory`.
fn put_lanes(text: &mut Vec<u8>, numbers: Numbers) -> Result<(), NoMemory>
    requires ranks { numbers.ranks ≤ 32 }
    requires servers { numbers.servers ≤ 8 }
    ensures { OnOk result (text.new.items ≡ text.old.items ++ lanes_of numbers) }
{
    let ranks = numbers.ranks as u64;
    put_names(text, b"rank", 104, 24, numbers.ranks)?;
    put_names(text, b"server", 132 + 24 * ranks, 80, numbers.servers)
}

// Appends the names of that many lanes. Its only error is `NoMemory`.
fn put_names(
    text: &mut Vec<u8>,
    word: &[u8],
    top: u64,
    height: u64,
    count: u32,
) -> Result<(), NoMemory>
    requires top { top < 2 ^ 32 }
    requires height { height ≤ 80 }
    ensures { OnOk result (text.new.items ≡ text.old.items ++ lanes word.now top height count) }
{
    for k in 0..count {
        put_name(text, word, top + height * k as u64, k as u64)?;
    }
    Ok(())
}

// Appends the name of a lane. Its only error is `NoMemory`.
fn put_name(text: &mut Vec<u8>, word: &[u8], y: u64, n: u64) -> Result<(), NoMemory>
    ensures { OnOk result (text.new.items ≡ text.old.items ++ lane_of word.now y n) }
{
    put_attribute(text, b"<text x='8' y='", y)?;
    put_label(text, word, n)?;
    put(text, b"</text>\n")
}

// Appends the word and the number that name a lane. Its only error is `NoMemory`.
fn put_label(text: &mut Vec<u8>, word: &[u8], n: u64) -> Result<(), NoMemory>
    ensures { OnOk result (text.new.items ≡ text.old.items ++ label word.now n) }
{
    put(text, b">")?;
    put(text, word)?;
    put(text, b" ")?;
    put_number(text, n)
}
