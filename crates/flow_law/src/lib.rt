//! What the names of a flow are worth.
//!
//! A flow is a list of definitions: each gives a name a value, or computes it by a rule from two others. `specs/Flows.antt` says what
//! the names are worth, as a relation and in turns. The clauses of `flow_laws` are theorems.
#![tactic(auto)]

ghost use Rattle.std.specs.Prelude.{◌≡◌, ◌↔◌, ℕ, List, Some};
ghost use Rattle.flow_law.specs.declared.Definition.{Definition};
ghost use Rattle.flow_law.specs.Flows.{AreDistinct, HasValue, Name, turn, value};

use std::marker::Model;

/// A name, of at most 16 bytes: the first `count` of `letters`. Contracts see it as the list of its bytes.
#[derive(Drop)]
pub struct Name {
    letters: [u8; 16],
    // A byte, since a flow may have many names, and is kept whole twice.
    count: u8,
}

impl Model for Name {
    ghost use Rattle.std.specs.Prelude.{◌≤◌, ℕ, List, take};

    ghost Value = { List ℕ };

    ghost view = { λ name. take name.count name.letters };

    ghost invariant = { λ name. name.count ≤ 16 };
}

impl Name {
    ghost use Rattle.std.specs.Prelude.{◌≡◌, ◌≤◌, length};

    /// The name of these bytes.
    pub fn of(bytes: &[u8]) -> Name
        requires { length bytes.now ≤ 16 }
        ensures { result ≡ bytes.now }
    {
        let mut letters = [0; 16];
        letters[..bytes.len()].copy_from_slice(bytes);
        Name {
            letters,
            count: bytes.len() as u8,
        }
    }

    /// Its bytes.
    pub fn bytes(&self) -> &[u8]
        ensures { result.now ≡ self.now }
    {
        &self.letters[..self.count as usize]
    }
}

impl Op {
    ghost use Rattle.std.specs.Prelude.{◌≡◌};
    ghost use Rattle.flow_law.specs.Flows.{apply as applied};

    /// What it makes of two inputs.
    pub fn apply(self, a: u64, b: u64) -> u64
        ensures { result ≡ applied self a b }
    {
        match self {
            Op::Add => a.wrapping_add(b),
            Op::Mul => a.wrapping_mul(b),
            Op::Min => a.min(b),
            Op::Max => a.max(b),
            Op::Xor => a ^ b,
        }
    }
}

/// What a rule does with its two inputs. `Add` and `Mul` are modulo `2^64`.
#[derive(Clone, Copy, Debug, Drop)]
pub enum Op {
    Add,
    Mul,
    Min,
    Max,
    Xor,
}

/// What defines a name: a value, or a rule that computes it from two others.
#[derive(Drop)]
pub enum Definition {
    Let {
        name: Name,
        value: u64,
    },
    Rule {
        name: Name,
        op: Op,
        left: Name,
        right: Name,
    },
}

impl Definition {
    ghost use Rattle.std.specs.Prelude.{◌≡◌};
    ghost use Rattle.flow_law.specs.Flows.{name_of};

    /// The name that it defines.
    pub fn name(&self) -> &Name
        ensures { result.now ≡ name_of self.now }
    {
        match self {
            Definition::Let { name, .. } => name,
            Definition::Rule { name, .. } => name,
        }
    }
}

/// Of definitions of distinct names: a name is worth a value by the rule exactly if it has it after as many turns as
/// there are definitions. So it has one value at most. No later turn finds more.
pub fn flow_laws()
    ensures values { (flow : List Definition) → AreDistinct flow → (name : Name) (v : ℕ) →
        (value flow name ≡ Some v) ↔ HasValue flow name v }
    ensures one { (flow : List Definition) → AreDistinct flow → (name : Name) (v w : ℕ) →
        HasValue flow name v → HasValue flow name w → v ≡ w }
    ensures enough { (flow : List Definition) (turns : ℕ) (name : Name) (v : ℕ) →
        turn flow turns name ≡ Some v → value flow name ≡ Some v }
{}
