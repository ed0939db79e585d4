//! Priorities as numbers without a sign: twice the number, and one more for a negative one.

ghost use Rattle.std.specs.Prelude.{◌≡◌};
ghost use Rattle.packed_ledger.specs.inside.Numbers.{signed, unsigned};

/// The number of a priority.
pub(crate) fn unsigned(prio: i32) -> u32
    ensures { result ≡ unsigned prio }
{
    let size = prio.unsigned_abs();
    if prio < 0 {
        return size + (size - 1);
    }
    size + size
}

/// The priority of a number.
pub(crate) fn signed(number: u32) -> i32
    ensures { result ≡ signed number }
{
    let half = (number / 2) as i32;
    if number % 2 == 0 {
        return half;
    }
    -1 - half
}
