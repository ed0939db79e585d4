//! The number of bytes in a range.

ghost use Rattle.std.specs.Prelude.{◌≡◌, ◌≤◌, ◌*◌, length, cond, map};
ghost use Rattle.lane_bytes.specs.Answers.{count_from, is_from};

use crate::LANES;
use std::simd::prelude::*;

// The most bytes of one run: a lane, which counts at most one of each 32 bytes, then stays below 256.
const RUN: usize = 255 * LANES;

/// The number of bytes from `lo` to `hi`, both included; 0 if `lo` is above `hi`.
pub fn count_range(bytes: &[u8], lo: u8, hi: u8) -> u64
    ensures { result ≡ count_from lo hi bytes.now }
{
    let mut total = 0;
    let mut at = 0;
    while bytes.len() - at > RUN {
        total += u64::from(count_run(&bytes[at..at + RUN], lo, hi));
        at += RUN;
    }
    total + u64::from(count_run(&bytes[at..], lo, hi))
}

fn count_run(bytes: &[u8], lo: u8, hi: u8) -> u32
    requires { length bytes.now ≤ 255 * 32 }
    ensures { result ≡ count_from lo hi bytes.now }
{
    let mut counts = u8x32::splat(0);
    let mut at = 0;
    while bytes.len() - at >= LANES {
        counts = counts.strict_add(ones_in(u8x32::from_slice(&bytes[at..]), lo, hi));
        at += LANES;
    }
    counts.cast::<u32>().strict_reduce_sum() + count_rest(&bytes[at..], lo, hi)
}

fn ones_in(lanes: u8x32, lo: u8, hi: u8) -> u8x32
    requires { length lanes ≡ 32 }
    ensures { result ≡ map (λ byte. cond (is_from lo hi byte) 1 0) lanes }
{
    let zero = u8x32::splat(0);
    let from_lo = lanes
        .simd_ge(u8x32::splat(lo))
        .select(u8x32::splat(1), zero);
    lanes.simd_le(u8x32::splat(hi)).select(from_lo, zero)
}

fn count_rest(bytes: &[u8], lo: u8, hi: u8) -> u32
    requires { length bytes.now ≤ 255 * 32 }
    ensures { result ≡ count_from lo hi bytes.now }
{
    let mut count = 0;
    for byte in bytes {
        if lo <= *byte && *byte <= hi {
            count += 1;
        }
    }
    count
}
