//! The sum of bytes.

ghost use Rattle.std.specs.Prelude.{◌≡◌, ◌≤◌, ◌<◌, ◌*◌, ◌^◌, length, sum};

use crate::LANES;
use std::simd::prelude::*;

// The most bytes of one run: a lane, which adds at most 255 of each 32 bytes, then stays below 2^16.
const RUN: usize = 256 * LANES;

/// The sum of the bytes. There are fewer than 2^56 of them, so it is below 2^64.
pub fn sum_bytes(bytes: &[u8]) -> u64
    requires { length bytes.now < 2 ^ 56 }
    ensures { result ≡ sum bytes.now }
{
    let mut total = 0;
    let mut at = 0;
    while bytes.len() - at > RUN {
        total += u64::from(sum_run(&bytes[at..at + RUN]));
        at += RUN;
    }
    total + u64::from(sum_run(&bytes[at..]))
}

fn sum_run(bytes: &[u8]) -> u32
    requires { length bytes.now ≤ 256 * 32 }
    ensures { result ≡ sum bytes.now }
{
    let mut sums = u16x32::splat(0);
    let mut at = 0;
    while bytes.len() - at >= LANES {
        sums = sums.strict_add(u8x32::from_slice(&bytes[at..]).cast::<u16>());
        at += LANES;
    }
    sums.cast::<u32>().strict_reduce_sum() + sum_rest(&bytes[at..])
}

fn sum_rest(bytes: &[u8]) -> u32
    requires { length bytes.now ≤ 256 * 32 }
    ensures { result ≡ sum bytes.now }
{
    let mut sum = 0;
    for byte in bytes {
        sum += u32::from(*byte);
    }
    sum
}
