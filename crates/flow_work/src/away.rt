//! The work of a rank that has no flow.

ghost use Rattle.std.specs.Prelude.{◌≡◌, ◌<◌, ◌≤◌, ◌∷◌, ◌++◌, [], length, None, IfOk, IfErr, OnOk};
ghost use Rattle.flow_units.specs.Bodies.{forms};
ghost use Rattle.flow_work.specs.Calls.{IsReady, Keeps};
ghost use Rattle.flow_work.specs.Pieces.{piece_read};
ghost use Rattle.flow_work.specs.Working.{Fresh, HasCome, HasTried, IsGoing, IsOnWay, IsStopped, Keeping, Owes, Passes};

use crate::calls::Worker;
use crate::home::answer_of;
use crate::pieces::Piece;
use adlb_rank::{Rank, Reply, Taken};
use adlb_unit::{Trouble, or_no_memory};
use flow_units::AnswerUnit;
use std::collections::VecDeque;

impl Worker {
    /// Puts the oldest answer that it keeps once more, and takes a unit, until an end is told.
    pub(crate) fn work_away<R: Rank>(
        &self,
        link: &mut R,
        kept: &mut VecDeque<(u32, u64)>,
    ) -> Result<(), Trouble>
        requires going { IsGoing (forms self.now.ranks) None (R.link link.old).said (Fresh kept.old.items) }
        requires ready { IsReady self.now.ranks (R.link link.old) }
        ensures stopped { OnOk result (IsStopped (forms self.now.ranks) None (R.link link.new).said (Keeping kept.new.items)) }
        ensures so_far { IsOnWay (forms self.now.ranks) None (R.link link.new) }
        ensures kept { Keeps (R.link link.old) (R.link link.new) result }
    {
        'rounds: loop {
            if !self.put_again(link, kept)? {
                return Ok(());
            }
            if !self.take_away(link, kept)? {
                return Ok(());
            }
        }
    }

    // Puts the oldest answer that it keeps, if it keeps any. False: an end was told.
    fn put_again<R: Rank>(
        &self,
        link: &mut R,
        kept: &mut VecDeque<(u32, u64)>,
    ) -> Result<bool, Trouble>
        requires going { IsGoing (forms self.now.ranks) None (R.link link.old).said (Fresh kept.old.items) }
        requires ready { IsReady self.now.ranks (R.link link.old) }
        ensures told { IfOk result (Passes (forms self.now.ranks) None (R.link link.new).said (HasTried kept.new.items)
            (Keeping kept.new.items)) }
        ensures so_far { IsOnWay (forms self.now.ranks) None (R.link link.new) }
        ensures kept { Keeps (R.link link.old) (R.link link.new) result }
        ensures more { OnOk result (length (R.link link.old).said ≤ length (R.link link.new).said) }
    {
        match kept.pop_front() {
            Some((number, value)) => self.put_oldest(link, kept, AnswerUnit { number, value }),
            None => Ok(true),
        }
    }

    // Puts this answer, which stood before those that it keeps, and keeps it there if no server takes it. False: an end was told.
    fn put_oldest<R: Rank>(
        &self,
        link: &mut R,
        kept: &mut VecDeque<(u32, u64)>,
        answer: AnswerUnit,
    ) -> Result<bool, Trouble>
        requires going { IsGoing (forms self.now.ranks) None (R.link link.old).said
            (Fresh ((answer.number, answer.value) ∷ kept.old.items)) }
        requires ready { IsReady self.now.ranks (R.link link.old) }
        ensures told { IfOk result (Passes (forms self.now.ranks) None (R.link link.new).said (HasTried kept.new.items)
            (Keeping kept.new.items)) }
        ensures so_far { IsOnWay (forms self.now.ranks) None (R.link link.new) }
        ensures kept { Keeps (R.link link.old) (R.link link.new) result }
        ensures more { OnOk result (length (R.link link.old).said ≤ length (R.link link.new).said) }
    {
        match self.put(link, &Piece::Answer(answer))? {
            Reply::Accepted => Ok(true),
            Reply::Rejected => keep_first(kept, answer, true),
            Reply::Ended(_) => keep_first(kept, answer, false),
        }
    }

    // Takes a unit, and works it if it is a rule. False: an end was told.
    fn take_away<R: Rank>(
        &self,
        link: &mut R,
        kept: &mut VecDeque<(u32, u64)>,
    ) -> Result<bool, Trouble>
        requires going { IsGoing (forms self.now.ranks) None (R.link link.old).said (HasTried kept.old.items) }
        requires ready { IsReady self.now.ranks (R.link link.old) }
        ensures told { IfOk result (Passes (forms self.now.ranks) None (R.link link.new).said (Fresh kept.new.items)
            (Keeping kept.new.items)) }
        ensures so_far { IsOnWay (forms self.now.ranks) None (R.link link.new) }
        ensures kept { Keeps (R.link link.old) (R.link link.new) result }
        ensures longer { OnOk result (length (R.link link.old).said < length (R.link link.new).said) }
    {
        match self.take(link)? {
            Taken::Unit(note, body) => {
                let Ok(unit) = Piece::fetched(self.alloc, self.ranks, &note, &body) else {
                    return Err(Trouble::Memory);
                };
                self.receive_away(link, kept, unit)
            }
            Taken::NoneNow => unreachable!(),
            Taken::Ended(_) => Ok(false),
        }
    }

    // A unit came, if it is one: a rule is worked. False: an end was told.
    fn receive_away<R: Rank>(
        &self,
        link: &mut R,
        kept: &mut VecDeque<(u32, u64)>,
        unit: Option<Piece>,
    ) -> Result<bool, Trouble>
        requires came { HasCome (forms self.now.ranks) None (R.link link.old).said (Fresh kept.old.items) (piece_read unit) }
        requires ready { IsReady self.now.ranks (R.link link.old) }
        ensures told { IfOk result (Passes (forms self.now.ranks) None (R.link link.new).said (Fresh kept.new.items)
            (Keeping kept.new.items)) }
        ensures so_far { IsOnWay (forms self.now.ranks) None (R.link link.new) }
        ensures kept { Keeps (R.link link.old) (R.link link.new) result }
        ensures more { OnOk result (length (R.link link.old).said ≤ length (R.link link.new).said) }
    {
        match unit {
            Some(Piece::Rule(rule)) => {
                let answer = answer_of(rule);
                self.put_new(link, kept, answer)
            }
            Some(Piece::Answer(_)) => Ok(true),
            None => Ok(true),
        }
    }

    // Puts an answer; keeps it after the others if no server takes it. False: an end was told.
    fn put_new<R: Rank>(
        &self,
        link: &mut R,
        kept: &mut VecDeque<(u32, u64)>,
        answer: AnswerUnit,
    ) -> Result<bool, Trouble>
        requires owes { Owes (forms self.now.ranks) None (R.link link.old).said (Fresh kept.old.items) (answer.number, answer.value) }
        requires ready { IsReady self.now.ranks (R.link link.old) }
        ensures told { IfOk result (Passes (forms self.now.ranks) None (R.link link.new).said (Fresh kept.new.items)
            (Keeping kept.new.items)) }
        ensures so_far { IsOnWay (forms self.now.ranks) None (R.link link.new) }
        ensures kept { Keeps (R.link link.old) (R.link link.new) result }
        ensures more { OnOk result (length (R.link link.old).said ≤ length (R.link link.new).said) }
    {
        match self.put(link, &Piece::Answer(answer))? {
            Reply::Accepted => Ok(true),
            Reply::Rejected => keep_last(kept, answer, true),
            Reply::Ended(_) => keep_last(kept, answer, false),
        }
    }
}

// Keeps an answer before all others. The result is `on`.
fn keep_first(
    kept: &mut VecDeque<(u32, u64)>,
    answer: AnswerUnit,
    on: bool,
) -> Result<bool, Trouble>
    ensures kept { IfOk result (λ r. (r ≡ on) × (kept.new.items ≡ (answer.number, answer.value) ∷ kept.old.items)) }
    ensures memory { IfErr result (λ trouble. trouble ≡ Trouble.Memory) }
{
    match or_no_memory(kept.push_front((answer.number, answer.value))) {
        Ok(()) => Ok(on),
        Err(_) => Err(Trouble::Memory),
    }
}

// Keeps an answer after all others. The result is `on`.
fn keep_last(kept: &mut VecDeque<(u32, u64)>, answer: AnswerUnit, on: bool) -> Result<bool, Trouble>
    ensures kept { IfOk result (λ r. (r ≡ on) × (kept.new.items ≡ kept.old.items ++ (answer.number, answer.value) ∷ [])) }
    ensures memory { IfErr result (λ trouble. trouble ≡ Trouble.Memory) }
{
    match or_no_memory(kept.push_back((answer.number, answer.value))) {
        Ok(()) => Ok(on),
        Err(_) => Err(Trouble::Memory),
    }
}
