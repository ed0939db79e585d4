//! The kernels against plain loops, and against worked rows.

ghost use Rattle.std.specs.Prelude.{◌≤◌, length};

use lane_bytes::{count_range, max_byte, sum_bytes};
use std::process::Abort;

// The greatest length of the table.
const MOST: usize = 130;

fn plain_count(bytes: &[u8], lo: u8, hi: u8) -> u64 {
    let mut count = 0u64;
    for byte in bytes {
        if lo <= *byte && *byte <= hi {
            count = count.wrapping_add(1);
        }
    }
    count
}

fn plain_sum(bytes: &[u8]) -> u64 {
    let mut sum = 0u64;
    for byte in bytes {
        sum = sum.wrapping_add(u64::from(*byte));
    }
    sum
}

fn plain_max(bytes: &[u8]) -> u8 {
    let mut most = 0;
    for byte in bytes {
        if *byte > most {
            most = *byte;
        }
    }
    most
}

fn rising() -> [u8; MOST] {
    let mut bytes = [0; MOST];
    for k in 0..MOST {
        bytes[k] = k as u8;
    }
    bytes
}

const BOUNDS: &[(u8, u8)] = &[(0, 255), (0, 0), (1, 254), (255, 255), (31, 97), (97, 31)];

fn is_counted(bytes: &[u8]) -> bool
    requires { length bytes.now ≤ 130 }
{
    for (lo, hi) in BOUNDS {
        if count_range(bytes, *lo, *hi) != plain_count(bytes, *lo, *hi) {
            return false;
        }
    }
    true
}

fn is_plain(bytes: &[u8]) -> bool
    requires { length bytes.now ≤ 130 }
{
    is_counted(bytes) && sum_bytes(bytes) == plain_sum(bytes) && max_byte(bytes) == plain_max(bytes)
}

fn answers_are_plain(rt: &impl Abort, bytes: &[u8])
    requires { length bytes.now ≤ 130 }
{
    assert!(rt; is_plain(bytes), "{} bytes", bytes.len());
}

fn all_are_plain(rt: &impl Abort, bytes: &[u8; MOST]) {
    for length in 0..=MOST {
        answers_are_plain(rt, &bytes[..length]);
    }
}

#[test]
fn answers_as_plain_loops_at_each_length(rt: HostRuntime) {
    all_are_plain(&rt, &[0; MOST]);
    all_are_plain(&rt, &[255; MOST]);
    all_are_plain(&rt, &rising());
}

const LETTERS: &[u8] = b"abcabc";

const MANY: &[u8] = &[255; 20_000];

// Of these bytes so many are in the range; this is their sum, and this the greatest.
fn is_answered(bytes: &[u8], lo: u8, hi: u8, answers: (u64, u64, u8)) -> bool
    requires { length bytes.now ≤ 20000 }
{
    let (count, sum, most) = answers;
    count_range(bytes, lo, hi) == count && sum_bytes(bytes) == sum && max_byte(bytes) == most
}

#[test]
fn answers_worked_rows(rt: HostRuntime) {
    assert!(rt; is_answered(LETTERS, 97, 98, (4, 588, 99)), "letters");
    assert!(rt;
        is_answered(MANY, 255, 255, (20_000, 5_100_000, 255)),
        "many"
    );
}
