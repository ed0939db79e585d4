//! What a rank wants.

ghost use Rattle.std.specs.Prelude.{◌≡◌, find, option_copied};
ghost use Rattle.server_components.specs.Calls.{hints_next, is_soft_for, suits, suits_first};

use adlb_unit::{Rank, Target, Types, WorkType, permits};

/// What a rank wants: in its call of this number, a unit of these types.
#[derive(Drop)]
pub struct Wish {
    pub rank: Rank,
    pub request: u64,
    pub types: Types,
}

impl Wish {
    // A unit of this type and target is permitted to the rank.
    pub(crate) fn suits(&self, kind: WorkType, target: Target) -> bool
        ensures { result ≡ suits kind target self.now }
    {
        permits(self.rank, &self.types, kind, target)
    }
}

// The target names this rank before others.
pub(crate) fn is_soft_for(target: Target, rank: Rank) -> bool
    ensures { result ≡ is_soft_for target rank }
{
    matches!(target, Target::Soft(first) if first.0 == rank.0)
}

// The wish that a free unit of this type and target takes off next (`hints_next`).
pub(crate) fn hints_next(wishes: &[Wish], kind: WorkType, target: Target) -> Option<&Wish>
    ensures { option_copied result ≡ hints_next kind target wishes.now }
{
    match first_named(wishes, kind, target) {
        Some(wish) => Some(wish),
        None => first_suited(wishes, kind, target),
    }
}

// The wish of the rank that the target names before others.
fn first_named(wishes: &[Wish], kind: WorkType, target: Target) -> Option<&Wish>
    ensures { option_copied result ≡ find (suits_first kind target) wishes.now }
{
    wishes.iter().find(|wish| wish.suits(kind, target) && is_soft_for(target, wish.rank))
}

// The first wish to whose rank the unit is permitted.
fn first_suited(wishes: &[Wish], kind: WorkType, target: Target) -> Option<&Wish>
    ensures { option_copied result ≡ find (suits kind target) wishes.now }
{
    wishes.iter().find(|wish| wish.suits(kind, target))
}
