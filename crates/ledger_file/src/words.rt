//! The fields of an entry, read from the words of a line one after the other.

ghost use Rattle.ledger_file.specs.inside.Reading.{Gives, first, parts_left, whole, length_in, number_in, prio_in, pair_in, target_in, answer_in, top_in, types_in, bytes_in, end_in, call_in};
ghost use Rattle.std.specs.Prelude.{◌≡◌, ◌∷◌, [], MatchResult};

use crate::choices::{answer, end, target, top};
use crate::cursor::Parts;
use crate::faults::LineFault;
use crate::lists::{payload, types};
use crate::numbers::{id, number, prio, short};
use adlb_unit::{End, Payload, Rank, Server, Target, Types, UnitId};
use std::alloc::Global;

/// Each reads the next word as a field, and fails as `Bad` exactly if there is no further word or it is no such field.
impl<'a> Parts<'a> {
    /// The next word. `Bad` exactly if there is no further word.
    pub fn word(&mut self) -> Result<&'a [u8], LineFault>
        ensures { MatchResult result (λ w. parts_left self.old ≡ w.now ∷ parts_left self.new) (λ fault. (fault ≡ LineFault.Bad) × (parts_left self.old ≡ [])) }
    {
        self.next().ok_or(LineFault::Bad)
    }

    pub fn length(&mut self) -> Result<u32, LineFault>
        ensures { Gives (λ x. (x, parts_left self.new)) result (first length_in (parts_left self.old)) }
    {
        short(self.word()?)
    }

    pub fn number(&mut self) -> Result<u64, LineFault>
        ensures { Gives (λ x. (x, parts_left self.new)) result (first number_in (parts_left self.old)) }
    {
        number(self.word()?)
    }

    pub fn server(&mut self) -> Result<Server, LineFault>
        ensures { Gives (λ x. (x.0, parts_left self.new)) result (first length_in (parts_left self.old)) }
    {
        Ok(Server(self.length()?))
    }

    /// The next two words, as a rank and the number of its call.
    #[tactic(auto, unfolding(crate::specs::inside::Reading::call_in))]
    pub fn call(&mut self) -> Result<(Rank, u64), LineFault>
        ensures { Gives (λ x. ((x.0.0, x.1), parts_left self.new)) result (call_in (parts_left self.old)) }
    {
        Ok((Rank(self.length()?), self.number()?))
    }

    pub fn unit(&mut self) -> Result<UnitId, LineFault>
        ensures { Gives (λ x. ((x.rank.0, x.number), parts_left self.new)) result (first pair_in (parts_left self.old)) }
    {
        let (rank, number) = self.id()?;
        Ok(UnitId {
            rank: Rank(rank),
            number,
        })
    }

    pub fn id(&mut self) -> Result<(u32, u64), LineFault>
        ensures { Gives (λ x. (x, parts_left self.new)) result (first pair_in (parts_left self.old)) }
    {
        id(self.word()?)
    }

    pub fn prio(&mut self) -> Result<i32, LineFault>
        ensures { Gives (λ x. (x, parts_left self.new)) result (first prio_in (parts_left self.old)) }
    {
        prio(self.word()?)
    }

    pub fn target(&mut self) -> Result<Target, LineFault>
        ensures { Gives (λ x. (x, parts_left self.new)) result (first target_in (parts_left self.old)) }
    {
        target(self.word()?)
    }

    pub fn answer(&mut self) -> Result<Option<Rank>, LineFault>
        ensures { Gives (λ x. (x, parts_left self.new)) result (first answer_in (parts_left self.old)) }
    {
        answer(self.word()?)
    }

    pub fn top(&mut self) -> Result<Option<i32>, LineFault>
        ensures { Gives (λ x. (x, parts_left self.new)) result (first top_in (parts_left self.old)) }
    {
        top(self.word()?)
    }

    pub fn types(&mut self) -> Result<Types, LineFault>
        ensures { Gives (λ x. (x, parts_left self.new)) result (first types_in (parts_left self.old)) }
    {
        types(self.word()?)
    }

    pub fn payload(&mut self, alloc: Global) -> Result<Payload, LineFault>
        ensures { Gives (λ x. (x, parts_left self.new)) result (first bytes_in (parts_left self.old)) }
    {
        payload(alloc, self.word()?)
    }

    pub fn end(&mut self) -> Result<End, LineFault>
        ensures { Gives (λ x. (x, parts_left self.new)) result (first end_in (parts_left self.old)) }
    {
        end(self.word()?)
    }

    /// The value, if no word is left. Otherwise `Bad`.
    pub fn last<T: Drop>(&mut self, value: T) -> Result<T, LineFault>
        ensures { Gives (λ x. x) result (whole value (parts_left self.old)) }
    {
        match self.next() {
            None => Ok(value),
            Some(_) => Err(LineFault::Bad),
        }
    }
}
