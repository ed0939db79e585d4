//! Numbers as bytes: groups of 7 bits, the lowest first, each but the last with 128 added. A number that is 0 may be left out, which a bit
//! elsewhere tells.

ghost use Rattle.std.specs.Prelude.{ℕ, ◌≡◌, ◌≤◌, ◌<◌, ◌+◌, ◌^◌, ◌++◌, ◌∷◌, List};
ghost use Rattle.std.specs.Vec.{vec_capacity, vec_len};
ghost use Rattle.packed_ledger.specs.inside.Numbers.{groups, mark, part};

/// A number below 2 ^ 32 has at most this many groups.
pub(crate) const SHORT: usize = 5;

/// A number below 2 ^ 64 has at most this many groups.
pub(crate) const LONG: usize = 10;

/// Appends the lowest groups of a number, at most `most`. There is room for them.
pub(crate) fn push_groups(bytes: &mut Vec<u8>, most: usize, number: u64)
    requires { vec_len bytes.old + most ≤ vec_capacity bytes.old }
    ensures items { bytes.new.items ≡ bytes.old.items ++ groups most number }
    ensures len { vec_len bytes.new ≤ vec_len bytes.old + most }
    ensures capacity { vec_capacity bytes.new ≡ vec_capacity bytes.old }
{
    if most == 0 {
        return;
    }
    if number < 128 {
        bytes.push_reserved(number as u8);
        return;
    }
    bytes.push_reserved((128 + number % 128) as u8);
    push_groups(bytes, most - 1, number / 128)
}

/// The number whose groups, at most `most`, come first, and what follows them.
pub(crate) fn read_groups(bytes: &[u8], most: usize) -> (u64, &[u8])
    ensures { (n : ℕ) (rest : List ℕ) → n < 2 ^ 64 → n < 128 ^ most → bytes.now ≡ groups most n ++ rest →
        (result.0 ≡ n) × (result.1.now ≡ rest) }
{
    if most == 0 {
        return (0, bytes);
    }
    match bytes.split_first() {
        None => (0, bytes),
        Some((group, behind)) => {
            let group = *group;
            if group < 128 {
                return (group as u64, behind);
            }
            let (high, rest) = read_groups(behind, most - 1);
            (
                high.saturating_mul(128)
                    .saturating_add((group - 128) as u64),
                rest,
            )
        }
    }
}

/// The number below 2 ^ 32 whose groups come first, and what follows them.
pub(crate) fn read_short(bytes: &[u8]) -> (u32, &[u8])
    ensures { (n : ℕ) (rest : List ℕ) → n < 2 ^ 32 → bytes.now ≡ groups 5 n ++ rest → (result.0 ≡ n) × (result.1.now ≡ rest) }
{
    let (number, rest) = read_groups(bytes, SHORT);
    (short(number), rest)
}

// The number, or 0 if it is too large.
fn short(number: u64) -> u32
    ensures { number < 2 ^ 32 → result ≡ number }
{
    if number < 1 << 32 { number as u32 } else { 0 }
}

/// Appends the groups of a number that is not 0. There is room for `most`.
pub(crate) fn push_part(bytes: &mut Vec<u8>, most: usize, number: u64)
    requires { vec_len bytes.old + most ≤ vec_capacity bytes.old }
    ensures items { bytes.new.items ≡ bytes.old.items ++ part most number }
    ensures len { vec_len bytes.new ≤ vec_len bytes.old + most }
    ensures capacity { vec_capacity bytes.new ≡ vec_capacity bytes.old }
{
    if number != 0 {
        push_groups(bytes, most, number)
    }
}

/// 1 for a number that is not left out, otherwise 0.
pub(crate) fn mark(number: u64) -> u8
    ensures is { result ≡ mark number }
    ensures bit { result ≤ 1 }
{
    if number == 0 { 0 } else { 1 }
}

/// The number whose groups come first if the mark is 1, and otherwise 0, and what follows it.
pub(crate) fn read_long_part(bytes: &[u8], marked: u8) -> (u64, &[u8])
    ensures { (n : ℕ) (rest : List ℕ) → n < 2 ^ 64 → marked ≡ mark n → bytes.now ≡ part 10 n ++ rest →
        (result.0 ≡ n) × (result.1.now ≡ rest) }
{
    if marked == 0 {
        return (0, bytes);
    }
    read_groups(bytes, LONG)
}

/// As `read_long_part`, of a number below 2 ^ 32.
pub(crate) fn read_short_part(bytes: &[u8], marked: u8) -> (u32, &[u8])
    ensures { (n : ℕ) (rest : List ℕ) → n < 2 ^ 32 → marked ≡ mark n → bytes.now ≡ part 5 n ++ rest →
        (result.0 ≡ n) × (result.1.now ≡ rest) }
{
    if marked == 0 {
        return (0, bytes);
    }
    read_short(bytes)
}

/// The first byte, or 0 without one, and what follows it.
pub(crate) fn read_byte(bytes: &[u8]) -> (u8, &[u8])
    ensures { (b : ℕ) (rest : List ℕ) → bytes.now ≡ b ∷ rest → (result.0 ≡ b) × (result.1.now ≡ rest) }
{
    match bytes.split_first() {
        None => (0, bytes),
        Some((byte, behind)) => (*byte, behind),
    }
}
