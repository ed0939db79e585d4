//! The greatest byte.

ghost use Rattle.std.specs.Prelude.{◌≡◌, max};
ghost use Rattle.lane_bytes.specs.Answers.{greatest};

use crate::LANES;
use std::simd::prelude::*;

/// The greatest of the bytes; 0 if there are no bytes.
pub fn max_byte(bytes: &[u8]) -> u8
    ensures { result ≡ greatest bytes.now }
{
    let mut most = u8x32::splat(0);
    let mut at = 0;
    while bytes.len() - at >= LANES {
        most = most.simd_max(u8x32::from_slice(&bytes[at..]));
        at += LANES;
    }
    max_rest(&bytes[at..], max_rest(&most.to_array(), 0))
}

// The greatest of `least` and the bytes.
fn max_rest(bytes: &[u8], least: u8) -> u8
    ensures { result ≡ max least (greatest bytes.now) }
{
    let mut most = least;
    for byte in bytes {
        if *byte > most {
            most = *byte;
        }
    }
    most
}
