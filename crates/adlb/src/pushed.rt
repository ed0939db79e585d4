//! Units that were made and are still to be put.

ghost use Rattle.std.specs.Prelude.{◌≡◌, ◌≤◌, ◌∷◌, ◌++◌, [], IfSome, MatchOption, OnOk, length};
ghost use Rattle.adlb_unit.specs.Limits.{body_limit};

use adlb_unit::{NoMemory, Payload, or_no_memory};
use std::alloc::Global;
use std::marker::Model;

/// Units that were made and not put yet, seen as the list of their bytes, in order. Each has at most `2^20` bytes.
#[derive(Drop)]
pub struct Units {
    alloc: Global,
    waiting: Vec<Payload>,
}

impl Model for Units {
    ghost use Rattle.std.specs.Prelude.{◌≤◌, ℕ, List, All, length};
    ghost use Rattle.adlb_unit.specs.Limits.{body_limit};

    ghost Value = { List (List ℕ) };

    ghost view = { λ u. u.waiting.items };

    ghost invariant = { λ u. All (λ p. length p ≤ body_limit) u.waiting.items };
}

impl Units {
    /// No units.
    pub fn new(alloc: Global) -> Units
        ensures { result ≡ [] }
    {
        Units {
            alloc,
            waiting: Vec::new(alloc),
        }
    }

    /// The allocator, for what is made on the way.
    pub fn alloc(&self) -> Global {
        self.alloc
    }

    /// Adds a unit of these bytes, at most `2^20`. Its only error is `NoMemory`.
    pub fn push(&mut self, bytes: &[u8]) -> Result<(), NoMemory>
        requires few { length bytes.now ≤ body_limit }
        ensures pushed { OnOk result (self.new ≡ self.old ++ bytes.now ∷ []) }
    {
        let unit = Payload::copy(self.alloc, bytes)?;
        or_no_memory(self.waiting.push(unit))
    }

    /// Takes the last unit.
    pub fn pop(&mut self) -> Option<Payload>
        ensures last { MatchOption result ((self.old ≡ []) × (self.new ≡ [])) (λ p. self.old ≡ self.new ++ p ∷ []) }
        ensures few { IfSome result (λ p. length p ≤ body_limit) }
    {
        self.waiting.pop()
    }
}
