//! The program of a rank that works whatever units there are.

ghost use Rattle.std.specs.Prelude.{◌≡◌, ◌+◌, ◌<◌, ◌≤◌, ◌^◌, ℕ, List, [], Err, None, Some, take, drop, false, IfOk, IfSome, IsSome, OnOk, length, sum_by};
ghost use Rattle.adlb_rank.specs.Calls.{Stays};
ghost use Rattle.adlb_unit.specs.Limits.{body_limit};
ghost use Rattle.balance_law.specs.Parcels.{common_of, own_of};
ghost use Rattle.adlb.specs.WorkerCalls.{IsFree};
ghost use Rattle.adlb.specs.Worked.{IsGoing, Passes, begins, shared_bytes};

use crate::duties::{Aim, Duty};
use crate::pushed::Units;
use adlb_rank::{Rank, Reply, Taken};
use adlb_unit::{BODY_LIMIT, NoMemory, Payload, Rank as RankName, Trouble, Types, UnitNote};
use bag_ledger::Body;
use rank_client::{Adlb, RankProgram};
use std::alloc::Global;
use std::mem;

/// The program of a rank below this number, which works units until there are no more. The first rank puts the first units.
#[derive(Clone, Copy)]
pub struct Worker<D> {
    pub alloc: Global,
    pub ranks: u32,
    pub duty: D,
}

// How many of the bytes of a unit are those of its common part.
fn common_length(note: &UnitNote) -> usize
    ensures common { (body : List ℕ) → shared_bytes (common_of note.now.common body) ≡ take result body }
    ensures own { (body : List ℕ) → own_of note.now.common body ≡ drop result body }
{
    match note.common {
        None => 0,
        Some(part) => part.length as usize,
    }
}

// The bytes that units share.
fn shared_part(common: &Option<Payload>) -> &[u8]
    ensures { result.now ≡ shared_bytes common.now }
{
    match common {
        None => &[],
        Some(bytes) => bytes.bytes(),
    }
}

// Those bytes, to hand on.
fn twin_of(alloc: Global, common: &Option<Payload>) -> Result<Payload, NoMemory>
    ensures { IfOk result (λ bytes. bytes ≡ shared_bytes common.now) }
{
    match common {
        None => Ok(Payload::from_vec(Vec::new(alloc))),
        Some(bytes) => bytes.twin(alloc),
    }
}

/// How far a rank has come.
#[derive(Clone, Copy)]
pub enum Progress {
    /// All that waited was put or worked.
    More,
    /// An end was told.
    Ended,
}

impl<D: Duty> Worker<D> {
    // Works a unit here.
    fn work(
        &self,
        common: &[u8],
        unit: &[u8],
        out: &mut Units,
        got: &mut D::Got,
    ) -> Result<(), Trouble>
        requires few { length unit.now ≤ body_limit }
        requires room { (eye : D.Eye) → D.sees got.old eye ≤ 2 ^ 112 }
        ensures work { OnOk result ((eye : D.Eye) → D.sees got.new eye + sum_by (D.worth self.now.duty eye []) out.new ≡
            D.sees got.old eye + D.worth self.now.duty eye common.now unit.now + sum_by (D.worth self.now.duty eye []) out.old) }
        ensures few { OnOk result ((eye : D.Eye) → D.sees got.new eye ≤ D.sees got.old eye + 2 ^ 64) }
        ensures memory { (stamp : ℕ) → result ≡ Err (Trouble.TooLong stamp) → ⊥ }
    {
        match self.duty.work(common, unit, out, got) {
            Ok(()) => Ok(()),
            Err(_) => Err(Trouble::Memory),
        }
    }

    // Works a unit that was fetched.
    fn receive(
        &self,
        note: &UnitNote,
        body: &Body,
        out: &mut Units,
        got: &mut D::Got,
    ) -> Result<(), Trouble>
        requires room { (eye : D.Eye) → D.sees got.old eye ≤ 2 ^ 112 }
        ensures work { OnOk result ((eye : D.Eye) → D.sees got.new eye + sum_by (D.worth self.now.duty eye []) out.new ≡
            D.sees got.old eye
            + D.worth self.now.duty eye (shared_bytes (common_of note.now.common body.now)) (own_of note.now.common body.now)
            + sum_by (D.worth self.now.duty eye []) out.old) }
        ensures few { OnOk result ((eye : D.Eye) → D.sees got.new eye ≤ D.sees got.old eye + 2 ^ 64) }
        ensures memory { (stamp : ℕ) → result ≡ Err (Trouble.TooLong stamp) → ⊥ }
    {
        let at = common_length(note);
        if body.len() < at {
            return Err(Trouble::Memory);
        }
        let mut room = Vec::new(self.alloc);
        let Ok((common, own)) = body.parted(at, &mut room) else {
            return Err(Trouble::Memory);
        };
        if own.len() > BODY_LIMIT {
            return Err(Trouble::Memory);
        }
        self.work(common, own, out, got)
    }

    // Puts a unit, in the batch of these common bytes if there is one. What no server takes is worked here. Besides what `out` has, units
    // of some more worth can wait.
    fn offer<R: Rank>(
        &self,
        link: &mut R,
        common: &Option<Payload>,
        unit: &Payload,
        out: &mut Units,
        got: &mut D::Got,
    ) -> Result<Progress, Trouble>
        requires few { length unit.now ≤ body_limit }
        requires free { IsFree self.now.ranks (R.link link.old) }
        requires room { (eye : D.Eye) → D.sees got.old eye ≤ 2 ^ 112 }
        ensures passes { IfOk result (λ done. (eye : D.Eye) (begin more : ℕ) →
            IsGoing (D.worth self.now.duty eye) begin self.now.ranks common.now (R.link link.old).said (D.sees got.old eye)
            (more + sum_by (D.worth self.now.duty eye []) out.old + D.worth self.now.duty eye (shared_bytes common.now) unit.now) →
            Passes (D.worth self.now.duty eye) begin self.now.ranks common.now (R.link link.new).said (D.sees got.new eye)
            (more + sum_by (D.worth self.now.duty eye []) out.new) done) }
        ensures longer { OnOk result (length (R.link link.old).said < length (R.link link.new).said) }
        ensures stays { Stays (R.link link.old) (R.link link.new) result }
    {
        let Ok(twin) = unit.twin(self.alloc) else {
            return Err(Trouble::Memory);
        };
        let aim = self.duty.aim(unit.bytes(), self.ranks);
        match link.put(aim.kind, aim.prio, aim.target, None, twin)? {
            Reply::Accepted => Ok(Progress::More),
            Reply::Rejected => match self.work(shared_part(common), unit.bytes(), out, got) {
                Ok(()) => Ok(Progress::More),
                Err(trouble) => Err(trouble),
            },
            Reply::Ended(_) => Ok(Progress::Ended),
        }
    }

    // Puts all that waits.
    fn put_all<R: Rank>(
        &self,
        link: &mut R,
        rank: RankName,
        out: &mut Units,
        got: &mut D::Got,
    ) -> Result<Progress, Trouble>
        requires free { IsFree self.now.ranks (R.link link.old) }
        requires going { (eye : D.Eye) → IsGoing (D.worth self.now.duty eye) (begins (D.whole self.now.duty eye) rank) self.now.ranks
            None (R.link link.old).said (D.sees got.old eye) (sum_by (D.worth self.now.duty eye []) out.old) }
        ensures passes { IfOk result (λ done. (eye : D.Eye) → Passes (D.worth self.now.duty eye)
            (begins (D.whole self.now.duty eye) rank) self.now.ranks None (R.link link.new).said (D.sees got.new eye) 0 done) }
        ensures none { IfOk result (λ done. done ≡ Progress.More → out.new ≡ []) }
        ensures stays { Stays (R.link link.old) (R.link link.new) result }
    {
        'units: while let Some(unit) = out.pop() {
            match self.offer(link, &None, &unit, out, got) {
                Ok(Progress::More) => {}
                Ok(Progress::Ended) => return Ok(Progress::Ended),
                Err(trouble) => return Err(trouble),
            }
        }
        Ok(Progress::More)
    }

    // Puts these units in the batch that has begun.
    fn fill<R: Rank>(
        &self,
        link: &mut R,
        rank: RankName,
        common: &Option<Payload>,
        units: &mut Units,
        out: &mut Units,
        got: &mut D::Got,
    ) -> Result<Progress, Trouble>
        requires free { IsFree self.now.ranks (R.link link.old) }
        requires going { (eye : D.Eye) → IsGoing (D.worth self.now.duty eye) (begins (D.whole self.now.duty eye) rank) self.now.ranks
            common.now (R.link link.old).said (D.sees got.old eye)
            (sum_by (D.worth self.now.duty eye (shared_bytes common.now)) units.old + sum_by (D.worth self.now.duty eye []) out.old) }
        ensures passes { IfOk result (λ done. (eye : D.Eye) → Passes (D.worth self.now.duty eye)
            (begins (D.whole self.now.duty eye) rank) self.now.ranks common.now (R.link link.new).said (D.sees got.new eye)
            (sum_by (D.worth self.now.duty eye []) out.new) done) }
        ensures stays { Stays (R.link link.old) (R.link link.new) result }
    {
        'units: while let Some(unit) = units.pop() {
            match self.offer(link, common, &unit, out, got) {
                Ok(Progress::More) => {}
                Ok(Progress::Ended) => return Ok(Progress::Ended),
                Err(trouble) => return Err(trouble),
            }
        }
        Ok(Progress::More)
    }

    // Puts units in a batch with these common bytes. While no server takes the batch, one of its units is worked here at a time.
    fn share<R: Rank>(
        &self,
        link: &mut R,
        rank: RankName,
        common: &Option<Payload>,
        units: &mut Units,
        out: &mut Units,
        got: &mut D::Got,
    ) -> Result<Progress, Trouble>
        requires some { IsSome common.now }
        requires few { length (shared_bytes common.now) ≤ body_limit }
        requires free { IsFree self.now.ranks (R.link link.old) }
        requires closed { (R.link link.old).batch ≡ false }
        requires going { (eye : D.Eye) → IsGoing (D.worth self.now.duty eye) (begins (D.whole self.now.duty eye) rank) self.now.ranks
            None (R.link link.old).said (D.sees got.old eye)
            (sum_by (D.worth self.now.duty eye (shared_bytes common.now)) units.old + sum_by (D.worth self.now.duty eye []) out.old) }
        ensures passes { IfOk result (λ done. (eye : D.Eye) → Passes (D.worth self.now.duty eye)
            (begins (D.whole self.now.duty eye) rank) self.now.ranks None (R.link link.new).said (D.sees got.new eye)
            (sum_by (D.worth self.now.duty eye []) out.new) done) }
        ensures stays { Stays (R.link link.old) (R.link link.new) result }
    {
        'tries: loop {
            let Ok(twin) = twin_of(self.alloc, common) else {
                return Err(Trouble::Memory);
            };
            match link.begin_batch(twin)? {
                Reply::Accepted => {
                    let done = self.fill(link, rank, common, units, out, got)?;
                    link.end_batch()?;
                    return Ok(done);
                }
                Reply::Rejected => {
                    let Some(unit) = units.pop() else {
                        return Ok(Progress::More);
                    };
                    self.work(shared_part(common), unit.bytes(), out, got)?;
                }
                Reply::Ended(_) => return Ok(Progress::Ended),
            }
        }
    }

    // Puts the first units in their batch, if they share bytes. What waits then shares nothing.
    fn begin<R: Rank>(
        &self,
        link: &mut R,
        rank: RankName,
        out: &mut Units,
        got: &mut D::Got,
    ) -> Result<Progress, Trouble>
        requires none { out.old ≡ [] }
        requires said { (R.link link.old).said ≡ [] }
        requires nothing { (eye : D.Eye) → D.sees got.old eye ≡ 0 }
        requires free { IsFree self.now.ranks (R.link link.old) }
        requires closed { (R.link link.old).batch ≡ false }
        ensures passes { IfOk result (λ done. (eye : D.Eye) → Passes (D.worth self.now.duty eye)
            (begins (D.whole self.now.duty eye) rank) self.now.ranks None (R.link link.new).said (D.sees got.new eye)
            (sum_by (D.worth self.now.duty eye []) out.new) done) }
        ensures stays { Stays (R.link link.old) (R.link link.new) result }
    {
        if rank.0 != 0 {
            return Ok(Progress::More);
        }
        let Ok(common) = self.duty.first(out) else {
            return Err(Trouble::Memory);
        };
        if common.is_none() {
            return Ok(Progress::More);
        }
        let mut units = mem::replace(out, Units::new(self.alloc));
        self.share(link, rank, &common, &mut units, out, got)
    }

    // Takes a unit and works it, and puts all that comes of it.
    fn round<R: Rank>(
        &self,
        link: &mut R,
        rank: RankName,
        out: &mut Units,
        got: &mut D::Got,
    ) -> Result<Progress, Trouble>
        requires none { out.old ≡ [] }
        requires free { IsFree self.now.ranks (R.link link.old) }
        requires going { (eye : D.Eye) → IsGoing (D.worth self.now.duty eye) (begins (D.whole self.now.duty eye) rank) self.now.ranks
            None (R.link link.old).said (D.sees got.old eye) 0 }
        ensures passes { IfOk result (λ done. (eye : D.Eye) → Passes (D.worth self.now.duty eye)
            (begins (D.whole self.now.duty eye) rank) self.now.ranks None (R.link link.new).said (D.sees got.new eye) 0 done) }
        ensures none { IfOk result (λ done. done ≡ Progress.More → out.new ≡ []) }
        ensures longer { OnOk result (length (R.link link.old).said < length (R.link link.new).said) }
        ensures stays { Stays (R.link link.old) (R.link link.new) result }
    {
        match link.take(&Types::any())? {
            Taken::Unit(note, body) => match self.receive(&note, &body, out, got) {
                Ok(()) => self.put_all(link, rank, out, got),
                Err(trouble) => Err(trouble),
            },
            Taken::NoneNow => unreachable!(),
            Taken::Ended(_) => Ok(Progress::Ended),
        }
    }
}

impl<D: Duty> RankProgram for Worker<D> {
    type Outcome = D::Got;

    ghost use Rattle.std.specs.Prelude.{◌≡◌, None};
    ghost use Rattle.adlb.specs.Worked.{HasWorked, begins};

    ghost fits = { λ p ranks. p.ranks ≡ ranks };

    ghost follows = { λ p rank said got. (eye : D.Eye) →
        HasWorked (D.worth p.duty eye) (begins (D.whole p.duty eye) rank) p.ranks None said (D.sees got eye) };

    fn run<A: Adlb>(&self, rank: RankName, link: &mut A) -> Result<D::Got, Trouble> {
        let mut got = self.duty.none(self.alloc);
        let mut out = Units::new(self.alloc);
        match self.begin(link, rank, &mut out, &mut got)? {
            Progress::More => {}
            Progress::Ended => return Ok(got),
        }
        match self.put_all(link, rank, &mut out, &mut got)? {
            Progress::More => {}
            Progress::Ended => return Ok(got),
        }
        'rounds: loop {
            match self.round(link, rank, &mut out, &mut got)? {
                Progress::More => {}
                Progress::Ended => return Ok(got),
            }
        }
    }
}
