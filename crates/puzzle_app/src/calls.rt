//! The calls of the puzzle program over any link.

ghost use Rattle.std.specs.Prelude.{◌≡◌, ◌<◌, ◌≤◌, ◌^◌, ◌++◌, ◌∷◌, [], ℕ, length, Some, None, Ok, Err, false, IfOk, IfErr, IfSome, OnOk, OnErr};
ghost use Rattle.bag_ledger.specs.declared.entries.Call.{Call};
ghost use Rattle.job_units.specs.Forms.{IsUnit};
ghost use Rattle.job_units.specs.Puts.{put_of};
ghost use Rattle.rank_client.specs.Calls.{Pends, has_finished, unanswered};
ghost use Rattle.rank_client.specs.Link.{put_came};
ghost use Rattle.puzzle_app.specs.Books.{said_of};
ghost use Rattle.puzzle_app.specs.Calls.{Fails, IsWhole, Takes, answer_of, is_accepted};
ghost use Rattle.puzzle_app.specs.Working.{IsReady, Keeps};

use adlb_unit::{End, Payload, Trouble, Types, UnitNote};
use bag_ledger::Body;
use job_units::{Made, Putting};
use rank_client::{Adlb, EndFault, PutFault};
use std::alloc::Global;

/// What a put or the beginning of a batch comes to.
#[derive(Clone, Copy)]
pub enum Reply {
    Accepted,
    Rejected,
    Ended(End),
}

/// What a reservation comes to: a unit and its bytes, or an end.
#[derive(Drop)]
pub enum Taken {
    Unit(UnitNote, Body),
    Ended(End),
}

/// Puts a unit that was made (`put_of`).
pub fn put<A: Adlb>(alloc: Global, link: &mut A, made: &Made) -> Result<Reply, Trouble>
    requires running { has_finished (A.link link.old).said ≡ false }
    requires ready { IsReady (A.link link.old) }
    ensures says { IfOk result (λ reply. (A.link link.new).said ≡
        (A.link link.old).said ++ said_of (put_of made.now) (answer_of reply) ∷ []) }
    ensures form { OnOk result (IsUnit made.now) }
    ensures same { OnErr result ((A.link link.new).said ≡ (A.link link.old).said) }
    ensures begun { Pends (unanswered (A.link link.new).failed (A.link link.new).begun) (put_of made.now) }
    ensures begun_form { IfSome (unanswered (A.link link.new).failed (A.link link.new).begun) (λ call. IsUnit made.now) }
    ensures kept { Keeps (A.link link.old) (A.link link.new) (A.link link.old).batch result }
{
    let Ok(putting) = made.putting(alloc) else {
        return Err(Trouble::Memory);
    };
    let Putting {
        kind,
        prio,
        target,
        answer,
        body,
    } = putting;
    reply_of(link.put(kind, prio, target, answer, body))
}

/// Begins a batch of these common bytes.
pub fn begin<A: Adlb>(alloc: Global, link: &mut A, common: &Payload) -> Result<Reply, Trouble>
    requires running { has_finished (A.link link.old).said ≡ false }
    requires whole { (A.link link.old).failed ≡ None }
    requires common { length common.now ≤ 2 ^ 20 }
    requires closed { (A.link link.old).batch ≡ false }
    ensures says { IfOk result (λ reply. (A.link link.new).said ≡
        (A.link link.old).said ++ said_of (Call.BeginBatch common.now) (answer_of reply) ∷ []) }
    ensures same { OnErr result ((A.link link.new).said ≡ (A.link link.old).said) }
    ensures begun { Pends (unanswered (A.link link.new).failed (A.link link.new).begun) (Call.BeginBatch common.now) }
    ensures fine { OnOk result ((A.link link.new).failed ≡ None) }
    ensures seat { (A.link link.new).seat ≡ (A.link link.old).seat }
    ensures batch { IfOk result (λ reply. (A.link link.new).batch ≡ is_accepted reply) }
    ensures too_long { (stamp : ℕ) → result ≡ Err (Trouble.TooLong stamp) →
        (A.link link.new).failed ≡ Some (Trouble.TooLong stamp) }
{
    let Ok(common) = common.twin(alloc) else {
        return Err(Trouble::Memory);
    };
    reply_of(link.begin_batch(common))
}

// What such a call comes to, or the trouble with which it fails.
fn reply_of(told: Result<(), PutFault>) -> Result<Reply, Trouble>
    ensures answer { IfOk result (λ reply. put_came told ≡ Ok (answer_of reply)) }
    ensures trouble { IfErr result (λ t. put_came told ≡ Err t) }
{
    match told {
        Ok(()) => Ok(Reply::Accepted),
        Err(PutFault::Rejected) => Ok(Reply::Rejected),
        Err(PutFault::NoMoreWork) => Ok(Reply::Ended(End::NoMoreWork)),
        Err(PutFault::Exhausted) => Ok(Reply::Ended(End::Exhausted)),
        Err(PutFault::Memory) => Err(Trouble::Memory),
        Err(PutFault::TooLong { stamp }) => Err(Trouble::TooLong { stamp }),
    }
}

/// Reserves a unit of any type and fetches it, or is told an end (`Takes`). If the fetch fails, the grant stands.
pub fn take<A: Adlb>(link: &mut A) -> Result<Taken, Trouble>
    requires running { has_finished (A.link link.old).said ≡ false }
    requires whole { (A.link link.old).failed ≡ None }
    ensures takes { IfOk result (λ taken. Takes (A.link link.old).said (A.link link.new).said taken) }
    ensures whole { IfOk result IsWhole }
    ensures part { OnErr result (Fails (A.link link.old).said (A.link link.new).said
        (unanswered (A.link link.new).failed (A.link link.new).begun)) }
    ensures kept { Keeps (A.link link.old) (A.link link.new) (A.link link.old).batch result }
{
    let types = Types::any();
    match link.reserve(&types) {
        Ok(handle) => {
            let note = *handle.note();
            match link.get_reserved(handle) {
                Ok(body) => Ok(Taken::Unit(note, body)),
                Err((handle, trouble)) => {
                    link.leave(handle);
                    Err(trouble)
                }
            }
        }
        Err(EndFault::NoMoreWork) => Ok(Taken::Ended(End::NoMoreWork)),
        Err(EndFault::Exhausted) => Ok(Taken::Ended(End::Exhausted)),
        Err(EndFault::Memory) => Err(Trouble::Memory),
        Err(EndFault::TooLong { stamp }) => Err(Trouble::TooLong { stamp }),
    }
}
