//! Programs of ranks, some of which fail.

ghost use Rattle.std.specs.Prelude.{◌≡◌, ◌<◌, [], Err, OnOk, Some, false};
ghost use Rattle.rank_client.specs.Calls.{has_finished};
ghost use Rattle.adlb_unit.specs.Targets.{Aims};
ghost use Rattle.adlb_unit.specs.declared.notes.Trouble.{Trouble};
ghost use Rattle.thread_tests.specs.declared.programs.Plan.{Plan};

use adlb_unit::{Payload, Rank, Target, Trouble, Types, WorkType};
use bag_ledger::Body;
use rank_client::{Adlb, EndFault, PutFault, RankProgram};
use std::alloc::{AllocError, Global};

/// What a rank does.
#[derive(Clone, Copy)]
pub enum Plan {
    /// It makes no call.
    Rests,
    /// It makes no call, and fails.
    Fails,
    /// It puts this many units, and takes units until an end is told.
    Works(u32),
    /// It waits for units until an end is told, and leaves each with its server.
    Waits,
    /// It puts a unit for itself, and takes none.
    Leaves,
    /// It puts two units in a batch.
    Batches,
    /// The same, but it fails after the first of them.
    FailsInBatch,
    /// It puts a unit for itself, is granted it, and fails.
    FailsHolding,
    /// It waits until an end is told, and fails.
    FailsAtEnd,
}

/// A rank that does so. Its outcome is how many units it was granted, or put if it takes none, and 5 if it makes no call.
#[derive(Drop)]
pub struct Worker {
    pub alloc: Global,
    pub plan: Plan,
}

/// The plans of the first ranks, and that of all others.
pub type Crew<'a> = (&'a [Plan], Plan);

/// The programs of this many ranks, which follow these plans.
pub fn workers(
    alloc: Global,
    ranks: u32,
    (plans, others): Crew,
) -> Result<Vec<Worker>, AllocError> {
    let mut programs = Vec::new(alloc);
    for number in 0..ranks {
        let plan = match plans.get(number as usize) {
            Some(plan) => *plan,
            None => others,
        };
        programs.push(Worker { alloc, plan })?;
    }
    Ok(programs)
}

impl RankProgram for Worker {
    type Outcome = u32;

    ghost follows = { λ program rank said outcome. program.plan ≡ Plan.Rests → (said ≡ []) × (outcome ≡ 5) };

    fn run<A: Adlb>(&self, rank: Rank, link: &mut A) -> Result<u32, Trouble> {
        match self.plan {
            Plan::Rests => Ok(5),
            Plan::Fails => Err(Trouble::Memory),
            Plan::Works(count) => work(self.alloc, link, count),
            Plan::Waits => wait(link, false),
            Plan::Leaves => taken(put(self.alloc, link, Target::Only(rank))),
            Plan::Batches => batch(self.alloc, link, false),
            Plan::FailsInBatch => batch(self.alloc, link, true),
            Plan::FailsHolding => hold(self.alloc, link, rank),
            Plan::FailsAtEnd => {
                wait(link, false)?;
                Err(Trouble::Memory)
            }
        }
    }
}

// Puts units for any rank, and then takes units until an end is told.
fn work<A: Adlb>(alloc: Global, link: &mut A, count: u32) -> Result<u32, Trouble>
    requires running { has_finished (A.link link.old).said ≡ false }
    requires closed { (A.link link.old).batch ≡ false }
    ensures running { has_finished (A.link link.new).said ≡ false }
    ensures closed { OnOk result ((A.link link.new).batch ≡ false) }
    ensures seat { (A.link link.new).seat ≡ (A.link link.old).seat }
    ensures failed { (stamp : _) → result ≡ Err (Trouble.TooLong stamp) → (A.link link.new).failed ≡ Some (Trouble.TooLong stamp) }
{
    for _ in 0..count {
        taken(put(alloc, link, Target::Any))?;
    }
    wait(link, true)
}

// Puts a unit for itself, is granted a unit, and fails.
fn hold<A: Adlb>(alloc: Global, link: &mut A, rank: Rank) -> Result<u32, Trouble>
    requires running { has_finished (A.link link.old).said ≡ false }
    requires closed { (A.link link.old).batch ≡ false }
    requires rank { rank.0 < (A.link link.old).seat.ranks }
    ensures running { has_finished (A.link link.new).said ≡ false }
    ensures closed { OnOk result ((A.link link.new).batch ≡ false) }
    ensures seat { (A.link link.new).seat ≡ (A.link link.old).seat }
    ensures failed { (stamp : _) → result ≡ Err (Trouble.TooLong stamp) → (A.link link.new).failed ≡ Some (Trouble.TooLong stamp) }
{
    taken(put(alloc, link, Target::Only(rank)))?;
    match take(link, false) {
        Err(EndFault::TooLong { stamp }) => Err(Trouble::TooLong { stamp }),
        _ => Err(Trouble::Memory),
    }
}

// Puts two units in a batch, or fails after the first.
fn batch<A: Adlb>(alloc: Global, link: &mut A, fails: bool) -> Result<u32, Trouble>
    requires running { has_finished (A.link link.old).said ≡ false }
    requires closed { (A.link link.old).batch ≡ false }
    ensures running { has_finished (A.link link.new).said ≡ false }
    ensures closed { OnOk result ((A.link link.new).batch ≡ false) }
    ensures seat { (A.link link.new).seat ≡ (A.link link.old).seat }
    ensures failed { (stamp : _) → result ≡ Err (Trouble.TooLong stamp) → (A.link link.new).failed ≡ Some (Trouble.TooLong stamp) }
{
    taken(begin(alloc, link))?;
    taken(put(alloc, link, Target::Any))?;
    if fails {
        return Err(Trouble::Memory);
    }
    taken(put(alloc, link, Target::Any))?;
    if link.batch_open() {
        link.end_batch()?;
    }
    Ok(2)
}

// Waits for units until an end is told, and fetches each, or leaves it with its server. It counts them.
fn wait<A: Adlb>(link: &mut A, fetches: bool) -> Result<u32, Trouble>
    requires running { has_finished (A.link link.old).said ≡ false }
    requires closed { (A.link link.old).batch ≡ false }
    ensures running { has_finished (A.link link.new).said ≡ false }
    ensures closed { (A.link link.new).batch ≡ false }
    ensures seat { (A.link link.new).seat ≡ (A.link link.old).seat }
    ensures failed { (stamp : _) → result ≡ Err (Trouble.TooLong stamp) → (A.link link.new).failed ≡ Some (Trouble.TooLong stamp) }
{
    for granted in 0..1000 {
        match take(link, fetches) {
            Ok(_) => {}
            Err(EndFault::Memory) => return Err(Trouble::Memory),
            Err(EndFault::TooLong { stamp }) => return Err(Trouble::TooLong { stamp }),
            Err(_) => return Ok(granted),
        }
    }
    Ok(1000)
}

// How many units were put by a put that was told this, or by the beginning of a batch. Here no end is told, and there is room.
fn taken(told: Result<(), PutFault>) -> Result<u32, Trouble>
    ensures { (stamp : _) → result ≡ Err (Trouble.TooLong stamp) → told ≡ Err (PutFault.TooLong stamp) }
{
    match told {
        Ok(()) => Ok(1),
        Err(PutFault::TooLong { stamp }) => Err(Trouble::TooLong { stamp }),
        Err(_) => Err(Trouble::Memory),
    }
}

/// Begins a batch, whose common part has two bytes, unless one is going on.
pub fn begin<A: Adlb>(alloc: Global, link: &mut A) -> Result<(), PutFault>
    requires running { has_finished (A.link link.old).said ≡ false }
    ensures running { has_finished (A.link link.new).said ≡ false }
    ensures seat { (A.link link.new).seat ≡ (A.link link.old).seat }
    ensures failed { (stamp : _) → result ≡ Err (PutFault.TooLong stamp) → (A.link link.new).failed ≡ Some (Trouble.TooLong stamp) }
{
    if link.batch_open() {
        return Err(PutFault::Rejected);
    }
    match Payload::copy(alloc, b"xy".as_slice()) {
        Ok(common) => link.begin_batch(common),
        Err(_) => Err(PutFault::Memory),
    }
}

/// Puts a unit of one byte.
pub fn put<A: Adlb>(alloc: Global, link: &mut A, target: Target) -> Result<(), PutFault>
    requires running { has_finished (A.link link.old).said ≡ false }
    requires target { Aims target (A.link link.old).seat.ranks }
    ensures running { has_finished (A.link link.new).said ≡ false }
    ensures seat { (A.link link.new).seat ≡ (A.link link.old).seat }
    ensures closed { (A.link link.old).batch ≡ false → (A.link link.new).batch ≡ false }
    ensures failed { (stamp : _) → result ≡ Err (PutFault.TooLong stamp) → (A.link link.new).failed ≡ Some (Trouble.TooLong stamp) }
{
    match Payload::copy(alloc, b"a".as_slice()) {
        Ok(body) => link.put(WorkType(1), 0, target, None, body),
        Err(_) => Err(PutFault::Memory),
    }
}

// Whether these are the bytes `c` with the common part `ab`.
fn is_c_after_ab(body: Body) -> bool {
    let fits = body.runs() == (b"ab".as_slice(), b"c".as_slice());
    drop(body);
    fits
}

/// Waits for a unit, and fetches its bytes, or leaves it with its server. Whether it got the bytes `c` with the common part `ab`.
pub fn take<A: Adlb>(link: &mut A, fetches: bool) -> Result<bool, EndFault>
    requires running { has_finished (A.link link.old).said ≡ false }
    ensures running { has_finished (A.link link.new).said ≡ false }
    ensures seat { (A.link link.new).seat ≡ (A.link link.old).seat }
    ensures closed { (A.link link.old).batch ≡ false → (A.link link.new).batch ≡ false }
    ensures failed { (stamp : _) → result ≡ Err (EndFault.TooLong stamp) → (A.link link.new).failed ≡ Some (Trouble.TooLong stamp) }
{
    let handle = link.reserve(&Types::any())?;
    if !fetches {
        link.leave(handle);
        return Ok(false);
    }
    match link.get_reserved(handle) {
        Ok(body) => Ok(is_c_after_ab(body)),
        Err((handle, trouble)) => {
            let _ = handle.spend();
            match trouble {
                Trouble::Memory => Err(EndFault::Memory),
                Trouble::TooLong { stamp } => Err(EndFault::TooLong { stamp }),
            }
        }
    }
}
