//! The calls of a rank.

ghost use Rattle.std.specs.Prelude.{◌≡◌, ◌<◌, ◌^◌, Result, Ok, IfOk, OnOk, false, length};
ghost use Rattle.std.specs.Borrow.{MutBor};
ghost use Rattle.std.specs.Fn.{FnOnceReturnsAtMut};
ghost use Rattle.adlb_unit.specs.declared.notes.Trouble.{Trouble};
ghost use Rattle.bag_ledger.specs.declared.entries.Call.{Call};
ghost use Rattle.rank_client.specs.Calls.{has_finished};
ghost use Rattle.rank_client.specs.Link.{Can, LinkModel, Made, count_came, done_came};
ghost use Rattle.adlb_rank.specs.Calls.{Begins, HasBatched, HasTaken, Stays, Takes, replied};

use crate::replies::{Batched, Reply, Taken};
use adlb_unit::{Info, Payload, Rank as RankName, Target, Trouble, Types, WorkType};

/// What a rank can do, over any link. A call that fails does so with a `Trouble`; then the link has failed, and each later call fails
/// with the same. After an end was told, each put, each taking and each beginning of a batch gives that end again.
pub trait Rank {
    // What contracts see of it: whom it serves, its calls with their answers, whether a batch goes on, and what made it fail.
    ghost link: { Self → LinkModel };

    /// Puts a unit, whose body has at most `2^20` bytes and whose target is a rank.
    fn put(
        &mut self,
        kind: WorkType,
        prio: i32,
        target: Target,
        answer: Option<RankName>,
        body: Payload,
    ) -> Result<Reply, Trouble>
        requires can { Can (link self.old) (Call.Put kind prio target answer body) }
        ensures made { Made (link self.old) (link self.new) (Call.Put kind prio target answer body) (replied result) }
        ensures longer { OnOk result (length (link self.old).said < length (link self.new).said) }
        ensures stays { Stays (link self.old) (link self.new) result };

    /// Waits for a unit of these types and fetches it, or is told an end. It is never told that there is no unit now.
    fn take(&mut self, types: &Types) -> Result<Taken, Trouble>
        requires running { has_finished (link self.old).said ≡ false }
        ensures made { HasTaken (Call.Reserve types.now) (link self.old) (link self.new) result }
        ensures takes { IfOk result (Takes (Call.Reserve types.now) (link self.old).said (link self.new).said) }
        ensures waits { result ≡ Ok Taken.NoneNow → ⊥ }
        ensures longer { OnOk result (length (link self.old).said < length (link self.new).said) }
        ensures stays { Stays (link self.old) (link self.new) result };

    /// Asks each server for a unit of these types, and fetches it if there is one. It waits for none.
    fn try_take(&mut self, types: &Types) -> Result<Taken, Trouble>
        requires running { has_finished (link self.old).said ≡ false }
        ensures made { HasTaken (Call.Try types.now) (link self.old) (link self.new) result }
        ensures takes { IfOk result (Takes (Call.Try types.now) (link self.old).said (link self.new).said) }
        ensures longer { OnOk result (length (link self.old).said < length (link self.new).said) }
        ensures stays { Stays (link self.old) (link self.new) result };

    /// Begins a batch with a common part of at most `2^20` bytes: units that are put until it ends share it.
    fn begin_batch(&mut self, common: Payload) -> Result<Reply, Trouble>
        requires can { Can (link self.old) (Call.BeginBatch common) }
        ensures made { Made (link self.old) (link self.new) (Call.BeginBatch common) (replied result) }
        ensures longer { OnOk result (length (link self.old).said < length (link self.new).said) };

    /// Ends the batch that is going on.
    fn end_batch(&mut self) -> Result<(), Trouble>
        requires can { Can (link self.old) Call.EndBatch }
        ensures made { Made (link self.old) (link self.new) Call.EndBatch (done_came result) };

    /// Begins a batch with a common part of at most `2^20` bytes, does in it what `inside` does, and ends it. What is put inside shares
    /// the common part. If each server refuses it, or an end is told, `inside` is not called. If `inside` fails the batch is not ended.
    fn batch<T: Drop, F: FnOnce(&mut Self) -> Result<T, Trouble>>(
        &mut self,
        common: Payload,
        inside: F,
    ) -> Result<Batched<T>, Trouble>
        requires can { Can (link self.old) (Call.BeginBatch common) }
        requires callable { (p : MutBor Self) → Begins common (link self.old) (link p.now) → F.pre inside p }
        requires stays { (a b : Self) (r : Result T Trouble) → Begins common (link self.old) (link a) →
            FnOnceReturnsAtMut F.FnOnce inside a r b → Stays (link a) (link b) r }
        ensures made { HasBatched link (FnOnceReturnsAtMut F.FnOnce inside) common self.old self.new result }
        ensures stays { Stays (link self.old) (link self.new) result };

    /// Tells of the units of this type that are free at the rank's home: how many there are, their highest priority, and how many
    /// have it.
    fn count(&mut self, kind: WorkType) -> Result<Info, Trouble>
        requires running { has_finished (link self.old).said ≡ false }
        ensures made { Made (link self.old) (link self.new) (Call.Count kind) (count_came result) }
        ensures stays { Stays (link self.old) (link self.new) result };

    /// Says that the problem is done: each server has heard it. From then on each put, each taking and each beginning
    /// of a batch, of every rank, is told `NoMoreWork`.
    fn done(&mut self) -> Result<(), Trouble>
        requires running { has_finished (link self.old).said ≡ false }
        ensures made { Made (link self.old) (link self.new) Call.SetDone (done_came result) }
        ensures stays { Stays (link self.old) (link self.new) result };

    /// How many ranks the run has.
    fn ranks(&self) -> u32
        ensures { result ≡ (link self.now).seat.ranks };

    // Each call takes a stamp of its own, so a loop of calls ends: `2 ^ 48 - length (link l).said` is its measure.
    ghost short: { (l : Self) → length (link l).said < 2 ^ 48 };
}
