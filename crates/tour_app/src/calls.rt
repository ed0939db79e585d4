//! The calls of the tour program over any link.

ghost use Rattle.std.specs.Prelude.{◌≡◌, ◌≤◌, ◌<◌, ◌^◌, ◌++◌, ◌∷◌, [], ℕ, length, Some, None, Ok, Err, true, false, IfOk, OnOk, OnErr};
ghost use Rattle.adlb_rank.specs.Calls.{Takes, answer_of};
ghost use Rattle.bag_ledger.specs.declared.entries.Call.{Call};
ghost use Rattle.rank_client.specs.Calls.{Pends, has_finished, unanswered};
ghost use Rattle.tour_app.specs.Calls.{Fails, is_accepted};
ghost use Rattle.tour_app.specs.Working.{IsReady, Keeps};
ghost use Rattle.tour_app.specs.Works.{fits, tours};
ghost use Rattle.work_law.specs.Books.{said_of};
ghost use Rattle.work_law.specs.Work.{put_of};

use crate::units::{Putting, TourUnit};
use adlb_rank::{Rank, Reply, Taken};
use adlb_unit::{Payload, Trouble, Types};
use std::alloc::Global;

/// Puts a unit (`put_of`).
pub(crate) fn put<R: Rank>(alloc: Global, link: &mut R, unit: &TourUnit) -> Result<Reply, Trouble>
    requires running { has_finished (R.link link.old).said ≡ false }
    requires ready { IsReady (R.link link.old) }
    ensures says { IfOk result (λ reply. (R.link link.new).said ≡
        (R.link link.old).said ++ said_of (put_of tours unit.now) (answer_of reply) ∷ []) }
    ensures form { OnOk result (fits unit.now ≡ true) }
    ensures same { OnErr result ((R.link link.new).said ≡ (R.link link.old).said) }
    ensures begun { Pends (unanswered (R.link link.new).failed (R.link link.new).begun) (put_of tours unit.now) }
    ensures kept { Keeps (R.link link.old) (R.link link.new) (R.link link.old).batch result }
{
    let Ok(putting) = unit.putting(alloc) else {
        return Err(Trouble::Memory);
    };
    let Putting {
        kind,
        prio,
        target,
        answer,
        body,
    } = putting;
    link.put(kind, prio, target, answer, body)
}

/// Begins a batch of these common bytes.
pub(crate) fn begin<R: Rank>(
    alloc: Global,
    link: &mut R,
    common: &Payload,
) -> Result<Reply, Trouble>
    requires running { has_finished (R.link link.old).said ≡ false }
    requires whole { (R.link link.old).failed ≡ None }
    requires common { length common.now ≤ 2 ^ 20 }
    requires closed { (R.link link.old).batch ≡ false }
    ensures says { IfOk result (λ reply. (R.link link.new).said ≡
        (R.link link.old).said ++ said_of (Call.BeginBatch common.now) (answer_of reply) ∷ []) }
    ensures same { OnErr result ((R.link link.new).said ≡ (R.link link.old).said) }
    ensures begun { Pends (unanswered (R.link link.new).failed (R.link link.new).begun) (Call.BeginBatch common.now) }
    ensures fine { OnOk result ((R.link link.new).failed ≡ None) }
    ensures seat { (R.link link.new).seat ≡ (R.link link.old).seat }
    ensures batch { IfOk result (λ reply. (R.link link.new).batch ≡ is_accepted reply) }
    ensures too_long { (stamp : ℕ) → result ≡ Err (Trouble.TooLong stamp) →
        (R.link link.new).failed ≡ Some (Trouble.TooLong stamp) }
{
    let Ok(common) = common.twin(alloc) else {
        return Err(Trouble::Memory);
    };
    link.begin_batch(common)
}

/// Takes a unit of any type, or is told an end. If the fetch fails, the grant stands.
pub(crate) fn take<R: Rank>(link: &mut R) -> Result<Taken, Trouble>
    requires running { has_finished (R.link link.old).said ≡ false }
    requires whole { (R.link link.old).failed ≡ None }
    ensures takes { IfOk result (λ taken. Takes (Call.Reserve None) (R.link link.old).said (R.link link.new).said taken) }
    ensures waits { result ≡ Ok Taken.NoneNow → ⊥ }
    ensures longer { OnOk result (length (R.link link.old).said < length (R.link link.new).said) }
    ensures part { OnErr result (Fails (R.link link.old).said (R.link link.new).said
        (unanswered (R.link link.new).failed (R.link link.new).begun)) }
    ensures kept { Keeps (R.link link.old) (R.link link.new) (R.link link.old).batch result }
{
    link.take(&Types::any())
}
