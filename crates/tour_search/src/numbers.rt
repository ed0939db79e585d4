//! Numbers in decimal digits.

ghost use Rattle.std.specs.Prelude.{◌≡◌, ◌↔◌, ◌<◌, ◌^◌, decimal, IsTrue};
ghost use Rattle.tour_search.specs.Numbers.{number_to};

use itoa::Buffer;
use std::str;

/// The number up to `most` that is written so (`number_to`).
pub(crate) fn number_up_to(word: &[u8], most: u32) -> Option<u32>
    ensures { result ≡ number_to most word.now }
{
    let Ok(text) = str::from_utf8(word) else {
        return None;
    };
    let Ok(number) = text.parse::<u32>() else {
        return None;
    };
    if number > most {
        return None;
    }
    if !is_written(number, word) {
        return None;
    }
    Some(number)
}

// The word is how the number is written.
fn is_written(number: u32, word: &[u8]) -> bool
    ensures { IsTrue result ↔ (word.now ≡ decimal number) }
{
    let mut digits = Buffer::new();
    digits.format(number).as_bytes() == word
}
