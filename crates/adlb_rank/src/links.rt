//! The calls of a rank over a link.

ghost use Rattle.rank_client.specs.Link.{put_came};
ghost use Rattle.std.specs.Prelude.{◌≡◌};
ghost use Rattle.adlb_rank.specs.Calls.{replied};

use crate::ranks::Rank;
use crate::replies::{Batched, Reply, Taken};
use adlb_unit::{End, Info, Payload, Rank as RankName, Target, Trouble, Types, WorkType};
use rank_client::{Adlb, EndFault, PutFault, TryFault};

impl<A: Adlb> Rank for A {
    ghost link = { λ l. A.link l };

    ghost short = { λ l. A.short l };

    #[tactic(auto, using(crate::proofs::Lengths::one_more))]
    fn put(
        &mut self,
        kind: WorkType,
        prio: i32,
        target: Target,
        answer: Option<RankName>,
        body: Payload,
    ) -> Result<Reply, Trouble> {
        reply_of(Adlb::put(self, kind, prio, target, answer, body))
    }

    #[tactic(auto, using(crate::proofs::Lengths::one_more, crate::proofs::Lengths::two_more))]
    fn take(&mut self, types: &Types) -> Result<Taken, Trouble> {
        match self.reserve(types) {
            Ok(handle) => {
                let note = *handle.note();
                match self.get_reserved(handle) {
                    Ok(body) => Ok(Taken::Unit(note, body)),
                    Err((handle, trouble)) => {
                        self.leave(handle);
                        Err(trouble)
                    }
                }
            }
            Err(EndFault::NoMoreWork) => Ok(Taken::Ended(End::NoMoreWork)),
            Err(EndFault::Exhausted) => Ok(Taken::Ended(End::Exhausted)),
            Err(EndFault::Memory) => Err(Trouble::Memory),
            Err(EndFault::TooLong { stamp }) => Err(Trouble::TooLong { stamp }),
        }
    }

    #[tactic(auto, using(crate::proofs::Lengths::one_more, crate::proofs::Lengths::two_more))]
    fn try_take(&mut self, types: &Types) -> Result<Taken, Trouble> {
        match self.ireserve(types) {
            Ok(handle) => {
                let note = *handle.note();
                match self.get_reserved(handle) {
                    Ok(body) => Ok(Taken::Unit(note, body)),
                    Err((handle, trouble)) => {
                        self.leave(handle);
                        Err(trouble)
                    }
                }
            }
            Err(TryFault::NoCurrentWork) => Ok(Taken::NoneNow),
            Err(TryFault::NoMoreWork) => Ok(Taken::Ended(End::NoMoreWork)),
            Err(TryFault::Exhausted) => Ok(Taken::Ended(End::Exhausted)),
            Err(TryFault::Memory) => Err(Trouble::Memory),
            Err(TryFault::TooLong { stamp }) => Err(Trouble::TooLong { stamp }),
        }
    }

    #[tactic(auto, using(crate::proofs::Lengths::one_more))]
    fn begin_batch(&mut self, common: Payload) -> Result<Reply, Trouble> {
        reply_of(Adlb::begin_batch(self, common))
    }

    fn end_batch(&mut self) -> Result<(), Trouble> {
        Adlb::end_batch(self)
    }

    fn batch<T: Drop, F: FnOnce(&mut A) -> Result<T, Trouble>>(
        &mut self,
        common: Payload,
        inside: F,
    ) -> Result<Batched<T>, Trouble> {
        match Rank::begin_batch(self, common)? {
            Reply::Accepted => match inside(self) {
                Ok(done) => match Adlb::end_batch(self) {
                    Ok(()) => Ok(Batched::Done(done)),
                    Err(trouble) => Err(trouble),
                },
                Err(trouble) => Err(trouble),
            },
            Reply::Rejected => Ok(Batched::Rejected),
            Reply::Ended(end) => Ok(Batched::Ended(end)),
        }
    }

    fn count(&mut self, kind: WorkType) -> Result<Info, Trouble> {
        self.num_units(kind)
    }

    fn done(&mut self) -> Result<(), Trouble> {
        self.set_problem_done()
    }

    fn ranks(&self) -> u32 {
        Adlb::ranks(self)
    }
}

// What such a call comes to, or the trouble with which it fails.
fn reply_of(told: Result<(), PutFault>) -> Result<Reply, Trouble>
    ensures { put_came told ≡ replied result }
{
    match told {
        Ok(()) => Ok(Reply::Accepted),
        Err(PutFault::Rejected) => Ok(Reply::Rejected),
        Err(PutFault::NoMoreWork) => Ok(Reply::Ended(End::NoMoreWork)),
        Err(PutFault::Exhausted) => Ok(Reply::Ended(End::Exhausted)),
        Err(PutFault::Memory) => Err(Trouble::Memory),
        Err(PutFault::TooLong { stamp }) => Err(Trouble::TooLong { stamp }),
    }
}
