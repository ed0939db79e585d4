//! Lists of wanted types, and what is permitted.

ghost use Rattle.std.specs.Prelude.{ℕ, ◌≡◌, ◌<◌, ◌≤◌, ◌↔◌, IsTrue, IfOk, MatchOption, length, Some, None, IfSome, []};
ghost use Rattle.adlb_unit.specs.Limits.{type_limit};
ghost use Rattle.adlb_unit.specs.Permit.{HasKind, Permits, class_for, has_kind, permitted};

use crate::limits::TYPE_LIMIT;
use crate::names::{Rank, Target, WorkType};
use std::marker::Model;
use thiserror::Error;

/// Why a list of types is refused.
#[derive(Clone, Copy, Debug, PartialEq, Eq, Error)]
pub enum TypesFault {
    /// No type is listed.
    #[error("no type is listed")]
    Empty,
    /// `count` types are listed, more than 16.
    #[error("{count} types are listed")]
    TooMany { count: u64 },
}

/// Any type, or a list of 1 to 16 types, held in place. It is seen as `None` for any, otherwise as the list.
#[derive(Debug, Drop)]
pub struct Types {
    any: bool,
    kinds: [WorkType; TYPE_LIMIT],
    count: usize,
}

impl Model for Types {
    ghost use Rattle.std.specs.Prelude.{◌≤◌, ◌<◌, Option, List, take, Some, None, if◌then◌else◌};
    ghost use Rattle.adlb_unit.specs.declared.names.WorkType.{WorkType};
    ghost use Rattle.adlb_unit.specs.Limits.{type_limit};

    ghost Value = { Option (List WorkType) };

    ghost view = { λ t. if t.any then None else Some (take t.count t.kinds) };

    ghost invariant = { λ t. (0 < t.count) × (t.count ≤ type_limit) };
}

impl Types {
    /// Any type is wanted.
    pub fn any() -> Types
        ensures { result ≡ None }
    {
        Types {
            any: true,
            kinds: [WorkType(0); TYPE_LIMIT],
            count: 1,
        }
    }

    /// The listed types are wanted: from 1 to 16 of them. `Empty` exactly when none is listed, `TooMany` exactly when more
    /// than 16 are, with their number.
    pub fn list(kinds: &[WorkType]) -> Result<Types, TypesFault>
        ensures listed { IfOk result (λ t. t ≡ Some kinds.now) }
        ensures empty { (result ≡ Err TypesFault.Empty) ↔ (kinds.now ≡ []) }
        ensures too_many { (n : ℕ) → (result ≡ Err (TypesFault.TooMany n)) ↔ ((type_limit < length kinds.now) × (n ≡ length kinds.now)) }
    {
        if kinds.is_empty() {
            return Err(TypesFault::Empty);
        }
        if kinds.len() > TYPE_LIMIT {
            return Err(TypesFault::TooMany {
                count: kinds.len() as u64,
            });
        }
        let mut held = [WorkType(0); TYPE_LIMIT];
        held[..kinds.len()].copy_from_slice(kinds);
        Ok(Types {
            any: false,
            kinds: held,
            count: kinds.len(),
        })
    }

    /// Equal types.
    pub fn twin(&self) -> Types
        ensures { result ≡ self.now }
    {
        Types {
            any: self.any,
            kinds: self.kinds,
            count: self.count,
        }
    }

    /// The list, which has 1 to 16 types, or `None` if any type is wanted.
    pub fn kinds(&self) -> Option<&[WorkType]>
        ensures listed { MatchOption result (self.now ≡ None) (λ k. self.now ≡ Some k.now) }
        ensures few { IfSome result (λ k. (0 < length k.now) × (length k.now ≤ type_limit)) }
    {
        if self.any {
            return None;
        }
        Some(&self.kinds[..self.count])
    }

    /// The type is wanted: any is, or it is in the list (`HasKind`, and as a test `has_kind`).
    pub fn has(&self, kind: WorkType) -> bool
        ensures wanted { IsTrue result ↔ HasKind self.now kind }
        ensures test { result ≡ has_kind self.now kind }
    {
        self.any || self.kinds[..self.count].contains(&kind)
    }
}

/// The class of a target for an asking rank (`class_for`), the nearest first. It is 0 for this rank alone, 1 for this
/// rank before others, 2 for any, 3 for another rank before this one, and 4 for another rank alone.
pub fn class_for(rank: Rank, target: Target) -> u8
    ensures { result ≡ class_for rank target }
{
    match target {
        Target::Only(only) if only == rank => 0,
        Target::Only(_) => 4,
        Target::Soft(first) if first == rank => 1,
        Target::Soft(_) => 3,
        Target::Any => 2,
    }
}

/// A unit of this type and target is permitted to a rank that wants these types (`Permits`, and as a test `permitted`).
/// The type is wanted, and the target is not another rank alone.
pub fn permits(rank: Rank, types: &Types, kind: WorkType, target: Target) -> bool
    ensures permits { IsTrue result ↔ Permits rank types.now kind target }
    ensures test { result ≡ permitted rank types.now kind target }
{
    class_for(rank, target) < 4 && types.has(kind)
}
