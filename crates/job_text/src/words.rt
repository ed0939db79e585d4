//! The words of a line, and numbers.

ghost use Rattle.std.specs.Prelude.{◌≡◌, ◌↔◌, ◌==◌, decimal, position, IsTrue};
ghost use Rattle.std.specs.List.{before_first};
ghost use Rattle.job_text.specs.inside.Left.{CutsAt};
ghost use Rattle.job_text.specs.Words.{behind_word, byte_number as number_of, first_word, is_blank};

use itoa::Buffer;
use std::str;

// The place of the first of these bytes, if there is one.
fn place_of(bytes: &[u8], at: u8) -> Option<usize>
    ensures { result ≡ position (λ byte. byte == at) bytes.now }
{
    bytes.iter().position(|byte| *byte == at)
}

/// What comes before the first of these bytes, and what follows it, if there is one.
pub(crate) fn cut(bytes: &[u8], at: u8) -> Option<(&[u8], &[u8])>
    ensures { CutsAt (λ byte. byte == at) bytes.now result }
{
    match place_of(bytes, at) {
        Some(place) => Some((&bytes[..place], &bytes[place + 1..])),
        None => None,
    }
}

/// The first word of a text, which ends before the first space, and what follows that space.
pub(crate) fn cut_word(text: &[u8]) -> (&[u8], &[u8])
    ensures { (result.0.now ≡ first_word text.now) × (result.1.now ≡ behind_word text.now) }
{
    match cut(text, b' ') {
        Some(sides) => sides,
        None => (text, &text[text.len()..]),
    }
}

/// What comes before the first space or tab.
pub(crate) fn before_blank(text: &[u8]) -> &[u8]
    ensures { result.now ≡ before_first is_blank text.now }
{
    match blank_of(text) {
        Some(place) => &text[..place],
        None => text,
    }
}

// The place of the first space or tab, if there is one.
fn blank_of(text: &[u8]) -> Option<usize>
    ensures { result ≡ position is_blank text.now }
{
    text.iter().position(|byte| *byte == b' ' || *byte == b'\t')
}

/// The number up to 255 that is written so (`byte_number`).
pub(crate) fn byte_number(word: &[u8]) -> Option<u8>
    ensures { result ≡ number_of word.now }
{
    let Ok(text) = str::from_utf8(word) else {
        return None;
    };
    let Ok(number) = text.parse::<u8>() else {
        return None;
    };
    if !is_written(number, word) {
        return None;
    }
    Some(number)
}

// The word is how the number is written.
fn is_written(number: u8, word: &[u8]) -> bool
    ensures { IsTrue result ↔ (word.now ≡ decimal number) }
{
    let mut digits = Buffer::new();
    digits.format(number).as_bytes() == word
}
