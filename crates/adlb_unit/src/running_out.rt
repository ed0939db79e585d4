//! Where memory runs out.

ghost use Rattle.std.specs.Prelude.{◌≡◌, IsErr, MatchResult, Ok};

use crate::names::NoMemory;

/// What an allocation gives, with `NoMemory` in place of its own error.
pub fn or_no_memory<T, E: Drop>(given: Result<T, E>) -> Result<T, NoMemory>
    ensures { MatchResult result (λ value. given ≡ Ok value) (λ _. IsErr given) }
{
    match given {
        Ok(value) => Ok(value),
        Err(_) => Err(NoMemory),
    }
}
