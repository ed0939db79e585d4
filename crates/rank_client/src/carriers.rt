//! The one link of a rank, over whatever carries its calls.

ghost use Rattle.std.specs.Prelude.{◌≡◌, ◌<◌, ◌^◌, length, true, IfOk};
ghost use Rattle.rank_client.specs.Answers.{answers_call};
ghost use Rattle.rank_client.specs.Link.{Can, HasGrant, LinkModel, Made};

use crate::answers::{
    count_result, done_result, fetch_result, put_result, reserve_result, try_result,
};
use crate::faults::{EndFault, PutFault, TryFault};
use crate::links::Adlb;
use adlb_unit::{Handle, Info, Payload, Rank, Target, Trouble, Types, WorkType};
use bag_ledger::{Answer, Body, Call};

/// What carries the calls of a rank to its servers. Whatever does is a link (`Adlb`).
pub trait Carrier {
    // What contracts see of it, as of a link.
    ghost carried: { Self → LinkModel };

    /// Makes a call and waits for its answer, which is of the call's kind. Its errors are those of a link.
    fn exchange(&mut self, call: Call) -> Result<Answer, Trouble>
        requires can { Can (carried self.old) call }
        requires granted { HasGrant (carried self.old).said call }
        ensures made { Made (carried self.old) (carried self.new) call result }
        ensures kind { IfOk result (λ a. answers_call call a ≡ true) };

    /// A batch is going on.
    fn has_batch(&self) -> bool
        ensures { result ≡ (carried self.now).batch };

    /// How many ranks the run has.
    fn count_ranks(&self) -> u32
        ensures { result ≡ (carried self.now).seat.ranks };

    // Each call takes a stamp of its own.
    ghost few: { (c : Self) → length (carried c).said < 2 ^ 48 };
}

impl<C: Carrier> Adlb for C {
    ghost link = { λ c. C.carried c };

    fn put(
        &mut self,
        kind: WorkType,
        prio: i32,
        target: Target,
        answer: Option<Rank>,
        body: Payload,
    ) -> Result<(), PutFault> {
        put_result(self.exchange(Call::Put {
            kind,
            prio,
            target,
            answer,
            body,
        }))
    }

    fn reserve(&mut self, types: &Types) -> Result<Handle, EndFault> {
        reserve_result(self.exchange(Call::Reserve {
            types: types.twin(),
        }))
    }

    fn ireserve(&mut self, types: &Types) -> Result<Handle, TryFault> {
        try_result(self.exchange(Call::Try {
            types: types.twin(),
        }))
    }

    fn get_reserved(&mut self, handle: Handle) -> Result<Body, (Handle, Trouble)> {
        let id = handle.note().id;
        let came = self.exchange(Call::Fetch { id });
        fetch_result(handle, came)
    }

    fn leave(&mut self, handle: Handle) {
        let _ = handle.spend();
    }

    fn begin_batch(&mut self, common: Payload) -> Result<(), PutFault> {
        put_result(self.exchange(Call::BeginBatch { common }))
    }

    fn end_batch(&mut self) -> Result<(), Trouble> {
        done_result(self.exchange(Call::EndBatch))
    }

    fn batch_open(&self) -> bool {
        self.has_batch()
    }

    fn ranks(&self) -> u32 {
        self.count_ranks()
    }

    fn num_units(&mut self, kind: WorkType) -> Result<Info, Trouble> {
        count_result(self.exchange(Call::Count { kind }))
    }

    fn set_problem_done(&mut self) -> Result<(), Trouble> {
        done_result(self.exchange(Call::SetDone))
    }

    fn finish(&mut self) -> Result<(), Trouble> {
        done_result(self.exchange(Call::Finish))
    }

    ghost short = { λ c. C.few c };
}
