//! The calls of the flow program over any link.

ghost use Rattle.std.specs.Prelude.{◌≡◌, ◌<◌, ◌++◌, ◌∷◌, [], length, Some, None, Ok, true, false, IfOk, OnOk, OnErr};
ghost use Rattle.adlb_rank.specs.Calls.{Takes, answer_of};
ghost use Rattle.bag_ledger.specs.declared.entries.Call.{Call};
ghost use Rattle.rank_client.specs.Calls.{Pends, has_finished, unanswered};
ghost use Rattle.work_law.specs.Books.{said_of};
ghost use Rattle.work_law.specs.Work.{put_of};
ghost use Rattle.flow_run_law.specs.Units.{flows};
ghost use Rattle.flow_units.specs.Bodies.{forms, unit_fits};
ghost use Rattle.flow_work.specs.Calls.{Fails, IsReady, Keeps};
ghost use Rattle.flow_work.specs.Pieces.{piece};

use crate::pieces::{Piece, Putting};
use adlb_rank::{Rank, Reply, Taken};
use adlb_unit::{Trouble, Types};
use std::alloc::Global;

/// A rank of a run of this many ranks, as it works.
#[derive(Clone, Copy, Drop)]
pub(crate) struct Worker {
    pub(crate) alloc: Global,
    pub(crate) ranks: u32,
}

impl Worker {
    /// Puts a unit (`put_of`).
    pub(crate) fn put<R: Rank>(&self, link: &mut R, unit: &Piece) -> Result<Reply, Trouble>
        requires running { has_finished (R.link link.old).said ≡ false }
        requires ready { IsReady self.now.ranks (R.link link.old) }
        ensures says { IfOk result (λ reply. (R.link link.new).said ≡
            (R.link link.old).said ++ said_of (put_of (flows (forms self.now.ranks)) (piece unit.now)) (answer_of reply) ∷ []) }
        ensures fits { unit_fits (piece unit.now) ≡ true }
        ensures same { OnErr result ((R.link link.new).said ≡ (R.link link.old).said) }
        ensures begun { Pends (unanswered (R.link link.new).failed (R.link link.new).begun)
            (put_of (flows (forms self.now.ranks)) (piece unit.now)) }
        ensures kept { Keeps (R.link link.old) (R.link link.new) result }
    {
        let Ok(putting) = unit.putting(self.alloc, self.ranks) else {
            return Err(Trouble::Memory);
        };
        let Putting {
            kind,
            prio,
            target,
            answer,
            body,
        } = putting;
        link.put(kind, prio, target, answer, body)
    }

    /// Takes a unit of any type, or is told an end. If the fetch fails, the grant stands.
    pub(crate) fn take<R: Rank>(&self, link: &mut R) -> Result<Taken, Trouble>
        requires running { has_finished (R.link link.old).said ≡ false }
        requires ready { IsReady self.now.ranks (R.link link.old) }
        ensures takes { IfOk result (λ taken. Takes (Call.Reserve None) (R.link link.old).said (R.link link.new).said taken) }
        ensures waits { result ≡ Ok Taken.NoneNow → ⊥ }
        ensures longer { OnOk result (length (R.link link.old).said < length (R.link link.new).said) }
        ensures part { OnErr result (Fails (R.link link.old).said (R.link link.new).said
            (unanswered (R.link link.new).failed (R.link link.new).begun)) }
        ensures kept { Keeps (R.link link.old) (R.link link.new) result }
    {
        link.take(&Types::any())
    }
}
