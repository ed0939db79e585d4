//! The calls of a rank.

ghost use Rattle.std.specs.Prelude.{◌≡◌, ◌<◌, ◌^◌, length, false, IfErr};
ghost use Rattle.bag_ledger.specs.declared.entries.Call.{Call};
ghost use Rattle.rank_client.specs.Calls.{granted, is_fetched};
ghost use Rattle.rank_client.specs.Link.{Can, LinkModel, Made, count_came, done_came, fetch_came, put_came, reserve_came, try_came};

use crate::faults::{EndFault, PutFault, TryFault};
use adlb_unit::{Handle, Info, Payload, Rank, Target, Trouble, Types, WorkType};
use bag_ledger::{Body, Call};

/// What a rank can do. Each call but `leave`, `batch_open` and `ranks` waits for its answer: `Can` says when it can be made, and `Made`
/// what it makes of the link. It adds itself with its answer to the transcript, unless it answers `Memory` or `TooLong`. A link that
/// answered one of these two has failed: its transcript stays, and each later call answers the same. The transcript stands in
/// contracts alone.
pub trait Adlb {
    // What contracts see of it: whom it serves, its calls with their answers, whether a batch goes on, and what made it fail.
    ghost link: { Self → LinkModel };

    /// Puts a unit, whose body has at most `2^20` bytes and whose target is a rank. It is Rejected only after each server has
    /// refused it in this call. After an end was told it gives that end again.
    fn put(
        &mut self,
        kind: WorkType,
        prio: i32,
        target: Target,
        answer: Option<Rank>,
        body: Payload,
    ) -> Result<(), PutFault>
        requires can { Can (link self.old) (Call.Put kind prio target answer body) }
        ensures made { Made (link self.old) (link self.new) (Call.Put kind prio target answer body) (put_came result) };

    /// Waits until a unit of these types is granted or an end is told. A unit is granted once. After an end was told it gives
    /// that end again.
    fn reserve(&mut self, types: &Types) -> Result<Handle, EndFault>
        requires can { Can (link self.old) (Call.Reserve types.now) }
        ensures made { Made (link self.old) (link self.new) (Call.Reserve types.now) (reserve_came result) };

    /// Asks the rank's home for a free unit of these types, and then the other servers in ring order, and does not wait for a
    /// unit. It answers `NoCurrentWork` only after each server found none in this call. A unit is granted once. After an end
    /// was told it gives that end again.
    fn ireserve(&mut self, types: &Types) -> Result<Handle, TryFault>
        requires can { Can (link self.old) (Call.Try types.now) }
        ensures made { Made (link self.old) (link self.new) (Call.Try types.now) (try_came result) };

    /// Gives the bytes of a unit that was granted and not fetched before. They are those of the common part, if there
    /// is one, and then its own, shared with whoever else has them. A refusal hands the handle back, which can still
    /// be spent.
    fn get_reserved(&mut self, handle: Handle) -> Result<Body, (Handle, Trouble)>
        requires can { Can (link self.old) (Call.Fetch handle.id) }
        requires granted { granted handle (link self.old).said }
        ensures made { Made (link self.old) (link self.new) (Call.Fetch handle.id) (fetch_came result) }
        ensures back { IfErr result (λ e. e.0 ≡ handle) }
        ensures granted { IfErr result (λ e. granted e.0 (link self.new).said) }
        ensures unfetched { IfErr result (λ e. is_fetched e.0.id (link self.new).said ≡ false) };

    /// Spends a handle. Its unit stays pinned to the rank, and is not fetched.
    fn leave(&mut self, handle: Handle)
        requires granted { granted handle (link self.old).said }
        requires once { is_fetched handle.id (link self.old).said ≡ false }
        ensures { link self.new ≡ link self.old };

    /// Begins a batch: units that are put while it goes on share its common part, of at most `2^20` bytes. It is Rejected only
    /// after each server has refused the common part in this call. After an end was told it gives that end again. After a
    /// refusal no batch is going on.
    fn begin_batch(&mut self, common: Payload) -> Result<(), PutFault>
        requires can { Can (link self.old) (Call.BeginBatch common) }
        ensures made { Made (link self.old) (link self.new) (Call.BeginBatch common) (put_came result) };

    /// Ends the batch that is going on. It works after an end was told as well.
    fn end_batch(&mut self) -> Result<(), Trouble>
        requires can { Can (link self.old) Call.EndBatch }
        ensures made { Made (link self.old) (link self.new) Call.EndBatch (done_came result) };

    /// A batch is going on. A link that has failed has none.
    fn batch_open(&self) -> bool
        ensures { result ≡ (link self.now).batch };

    /// How many ranks the run has. The target of a put is one of them.
    fn ranks(&self) -> u32
        ensures { result ≡ (link self.now).seat.ranks };

    /// Tells of the units of this type that are free at the rank's home: how many there are, their highest priority, and how many
    /// have it. It works after an end was told as well.
    fn num_units(&mut self, kind: WorkType) -> Result<Info, Trouble>
        requires can { Can (link self.old) (Call.Count kind) }
        ensures made { Made (link self.old) (link self.new) (Call.Count kind) (count_came result) };

    /// Says that the problem is done: tells each server, from the rank's home on in ring order, and waits for each to have heard it.
    /// From then on the servers answer each put, reserve, try and beginning of a batch, of every rank, with `NoMoreWork`; units that
    /// were granted can still be fetched. It works after an end was told as well, and while a batch is going on.
    fn set_problem_done(&mut self) -> Result<(), Trouble>
        requires can { Can (link self.old) Call.SetDone }
        ensures made { Made (link self.old) (link self.new) Call.SetDone (done_came result) };

    /// Leaves the run, while no batch is going on. After it no call can be made.
    fn finish(&mut self) -> Result<(), Trouble>
        requires can { Can (link self.old) Call.Finish }
        ensures made { Made (link self.old) (link self.new) Call.Finish (done_came result) };

    // Each call takes a stamp of its own.
    ghost short: { (l : Self) → length (link l).said < 2 ^ 48 };
}
