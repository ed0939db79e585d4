//! The words of a definition: names, numbers and what a rule does.

ghost use Rattle.std.specs.Prelude.{◌≡◌, ◌↔◌, decimal, IsTrue, IfSome};
ghost use Rattle.std.specs.List.{list_all};
ghost use Rattle.flow_app.specs.Kinds.{is_letter, name_in, number_in, op_in};

use flow_law::{Name, Op};
use itoa::Buffer;
use std::str;

/// The most bytes of a name.
const NAME_LIMIT: usize = 16;

/// The name that the word is, if it is one.
#[tactic(auto, unfolding(crate::specs::Kinds::name_in))]
pub(crate) fn name_of(word: &[u8]) -> Option<Name>
    ensures is { result ≡ name_in word.now }
    ensures same { IfSome result (λ name. name ≡ word.now) }
{
    if word.is_empty() || word.len() > NAME_LIMIT || !are_letters(word) {
        return None;
    }
    Some(Name::of(word))
}

// All are lower-case letters.
fn are_letters(word: &[u8]) -> bool
    ensures { result ≡ list_all is_letter word.now }
{
    word.iter().all(|byte| b'a' <= *byte && *byte <= b'z')
}

/// What a rule of this word does, if there is one.
#[tactic(auto, unfolding(crate::specs::Kinds::op_in))]
pub(crate) fn op_of(word: &[u8]) -> Option<Op>
    ensures { result ≡ op_in word.now }
{
    if word == b"add".as_slice() {
        Some(Op::Add)
    } else if word == b"mul".as_slice() {
        Some(Op::Mul)
    } else if word == b"min".as_slice() {
        Some(Op::Min)
    } else if word == b"max".as_slice() {
        Some(Op::Max)
    } else if word == b"xor".as_slice() {
        Some(Op::Xor)
    } else {
        None
    }
}

/// The number below `2^64` that is written so, if there is one.
pub(crate) fn number_of(word: &[u8]) -> Option<u64>
    ensures { result ≡ number_in word.now }
{
    let Ok(text) = str::from_utf8(word) else {
        return None;
    };
    let Ok(number) = text.parse::<u64>() else {
        return None;
    };
    if !is_written(number, word) {
        return None;
    }
    Some(number)
}

// The word is how the number is written.
fn is_written(number: u64, word: &[u8]) -> bool
    ensures { IsTrue result ↔ (word.now ≡ decimal number) }
{
    let mut digits = Buffer::new();
    digits.format(number).as_bytes() == word
}
