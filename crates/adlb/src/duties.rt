//! What a worker needs of work, whatever its result is.

ghost use Rattle.std.specs.Prelude.{◌≡◌, ◌≤◌, ◌<◌, ◌+◌, ◌^◌, ℕ, Bool, List, [], IfOk, IfSome, OnOk, length, sum_by};
ghost use Rattle.adlb_unit.specs.Limits.{body_limit};
ghost use Rattle.adlb_unit.specs.Targets.{Aims};
ghost use Rattle.adlb.specs.Worked.{shared_bytes};

use crate::answers::Answers;
use crate::batches::Batch;
use crate::pushed::Units;
use crate::work::Work;
use adlb_unit::{NoMemory, Payload, Target, WorkType};
use std::alloc::Global;

/// How a unit is put.
#[derive(Clone, Copy)]
pub struct Aim {
    pub kind: WorkType,
    pub prio: i32,
    pub target: Target,
}

/// Work, as its workers see it: what each rank gathers, and what a unit is worth to each eye that looks at what is gathered. A number
/// has one eye, and a list of answers has one for each test of an answer.
pub trait Duty {
    /// What a rank gathers.
    type Got: Drop;

    ghost Eye: { Type 0 };

    // How much an eye sees of what was gathered.
    ghost sees: { Self.Got → Eye → ℕ };

    // What it sees of a unit of these common and these own bytes with all that comes of it, and of the first units together.
    ghost worth: { Self → Eye → List ℕ → List ℕ → ℕ };

    ghost whole: { Self → Eye → ℕ };

    /// What a rank begins with.
    fn none(&self, alloc: Global) -> Self::Got
        ensures { (eye : Eye) → sees result eye ≡ 0 };

    /// Adds the first units to `out`, and gives the bytes that they share, if they do.
    fn first(&self, out: &mut Units) -> Result<Option<Payload>, NoMemory>
        requires none { out.old ≡ [] }
        ensures first { IfOk result (λ common. (eye : Eye) →
            sum_by (worth self.now eye (shared_bytes common)) out.new ≡ whole self.now eye) }
        ensures few { IfOk result (λ common. IfSome common (λ bytes. length bytes ≤ body_limit)) };

    /// Works a unit: gathers what it gives at once, and adds to `out` the units that come of it, which share nothing.
    fn work(
        &self,
        common: &[u8],
        unit: &[u8],
        out: &mut Units,
        got: &mut Self::Got,
    ) -> Result<(), NoMemory>
        requires few { length unit.now ≤ body_limit }
        requires room { (eye : Eye) → sees got.old eye ≤ 2 ^ 112 }
        ensures work { OnOk result ((eye : Eye) → sees got.new eye + sum_by (worth self.now eye []) out.new ≡
            sees got.old eye + worth self.now eye common.now unit.now + sum_by (worth self.now eye []) out.old) }
        ensures few { OnOk result ((eye : Eye) → sees got.new eye ≤ sees got.old eye + 2 ^ 64) };

    /// How a unit is put, with this number of ranks.
    fn aim(&self, unit: &[u8], ranks: u32) -> Aim
        requires some { 0 < ranks }
        ensures aims { Aims result.target ranks };
}

/// The duty of work whose result is a number.
#[derive(Clone, Copy)]
pub struct Counting<W> {
    pub work: W,
}

impl<W: Work> Duty for Counting<W> {
    type Got = u128;

    ghost Eye = { Unit {0} };

    ghost sees = { λ total eye. total };

    ghost worth = { λ d eye common unit. W.worth d.work unit };

    ghost whole = { λ d eye. W.whole d.work };

    fn none(&self, alloc: Global) -> u128 {
        0
    }

    fn first(&self, out: &mut Units) -> Result<Option<Payload>, NoMemory> {
        self.work.first(out)?;
        Ok(None)
    }

    fn work(
        &self,
        _common: &[u8],
        unit: &[u8],
        out: &mut Units,
        got: &mut u128,
    ) -> Result<(), NoMemory> {
        let count = self.work.work(unit, out)?;
        *got += count as u128;
        Ok(())
    }

    fn aim(&self, unit: &[u8], ranks: u32) -> Aim {
        Aim {
            kind: self.work.kind(unit),
            prio: self.work.priority(unit),
            target: self.work.target(unit, ranks),
        }
    }
}

/// The duty of work whose result is a list of answers.
#[derive(Clone, Copy)]
pub struct Listing<W> {
    pub work: W,
}

impl<W: Answers> Duty for Listing<W> {
    type Got = Vec<W::Answer>;

    ghost use Rattle.std.specs.Prelude.{Bool, count_by};

    ghost Eye = { W.Answer → Bool };

    ghost sees = { λ answers test. count_by test answers.items };

    ghost worth = { λ d test common unit. W.worth d.work test unit };

    ghost whole = { λ d test. W.whole d.work test };

    fn none(&self, alloc: Global) -> Vec<W::Answer> {
        Vec::new(alloc)
    }

    fn first(&self, out: &mut Units) -> Result<Option<Payload>, NoMemory> {
        self.work.first(out)?;
        Ok(None)
    }

    fn work(
        &self,
        _common: &[u8],
        unit: &[u8],
        out: &mut Units,
        got: &mut Vec<W::Answer>,
    ) -> Result<(), NoMemory> {
        self.work.work(unit, out, got)?;
        let _few = got.len();
        Ok(())
    }

    fn aim(&self, unit: &[u8], ranks: u32) -> Aim {
        Aim {
            kind: self.work.kind(unit),
            prio: self.work.priority(unit),
            target: self.work.target(unit, ranks),
        }
    }
}

/// The duty of a batch.
#[derive(Clone, Copy)]
pub struct Batching<W> {
    pub work: W,
}

impl<W: Batch> Duty for Batching<W> {
    type Got = Vec<W::Answer>;

    ghost use Rattle.std.specs.Prelude.{Bool, count_by};

    ghost Eye = { W.Answer → Bool };

    ghost sees = { λ answers test. count_by test answers.items };

    ghost worth = { λ d test common unit. W.worth d.work test common unit };

    ghost whole = { λ d test. W.whole d.work test };

    fn none(&self, alloc: Global) -> Vec<W::Answer> {
        Vec::new(alloc)
    }

    fn first(&self, out: &mut Units) -> Result<Option<Payload>, NoMemory> {
        Ok(Some(self.work.first(out)?))
    }

    fn work(
        &self,
        common: &[u8],
        unit: &[u8],
        out: &mut Units,
        got: &mut Vec<W::Answer>,
    ) -> Result<(), NoMemory> {
        self.work.work(common, unit, out, got)?;
        let _few = got.len();
        Ok(())
    }

    fn aim(&self, unit: &[u8], ranks: u32) -> Aim {
        Aim {
            kind: self.work.kind(unit),
            prio: self.work.priority(unit),
            target: self.work.target(unit, ranks),
        }
    }
}
