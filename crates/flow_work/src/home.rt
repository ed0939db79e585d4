//! The work of the rank that has the flow.

ghost use Rattle.std.specs.Prelude.{◌≡◌, ◌<◌, ◌≤◌, length, slice_get, Some, Ok, IfOk, OnOk, true};
ghost use Rattle.flow_app.specs.Stored.{to_take};
ghost use Rattle.flow_law.specs.Flows.{apply as applied};
ghost use Rattle.flow_units.specs.Bodies.{forms};
ghost use Rattle.flow_work.specs.Calls.{IsReady, Keeps};
ghost use Rattle.flow_work.specs.Pieces.{piece_read};
ghost use Rattle.flow_work.specs.Working.{AllPut, AtHome, Carries, HasCome, IsGoing, IsOnWay, IsStopped, Owes, Passes, Stored};

use crate::calls::Worker;
use crate::pieces::Piece;
use crate::stock::Home;
use adlb_rank::{Rank, Reply, Taken};
use adlb_unit::{Trouble, or_no_memory};
use flow_app::Flow;
use flow_units::{AnswerUnit, RuleUnit};

impl Worker {
    /// Puts what is ready and takes units, until an end is told.
    pub(crate) fn work_home<R: Rank>(
        &self,
        link: &mut R,
        flow: &Flow,
        home: &mut Home,
    ) -> Result<(), Trouble>
        requires going { IsGoing (forms self.now.ranks) (Some flow.now) (R.link link.old).said (AtHome flow.now home.old) }
        requires ready { IsReady self.now.ranks (R.link link.old) }
        ensures stopped { OnOk result (IsStopped (forms self.now.ranks) (Some flow.now) (R.link link.new).said (Stored flow.now home.new)) }
        ensures so_far { IsOnWay (forms self.now.ranks) (Some flow.now) (R.link link.new) }
        ensures kept { Keeps (R.link link.old) (R.link link.new) result }
    {
        'rounds: loop {
            if !self.put_rules(link, flow, home)? {
                return Ok(());
            }
            if !self.take_home(link, flow, home)? {
                return Ok(());
            }
        }
    }

    // Puts each rule that is ready. False: an end was told.
    fn put_rules<R: Rank>(
        &self,
        link: &mut R,
        flow: &Flow,
        home: &mut Home,
    ) -> Result<bool, Trouble>
        requires going { IsGoing (forms self.now.ranks) (Some flow.now) (R.link link.old).said (AtHome flow.now home.old) }
        requires ready { IsReady self.now.ranks (R.link link.old) }
        ensures told { IfOk result (Passes (forms self.now.ranks) (Some flow.now) (R.link link.new).said
            (AllPut flow.now home.new) (Stored flow.now home.new)) }
        ensures so_far { IsOnWay (forms self.now.ranks) (Some flow.now) (R.link link.new) }
        ensures kept { Keeps (R.link link.old) (R.link link.new) result }
        ensures more { OnOk result (length (R.link link.old).said ≤ length (R.link link.new).said) }
    {
        'rules: while let Some(number) = home.store.next() {
            if !self.put_rule(link, flow, home, number)? {
                return Ok(false);
            }
        }
        Ok(true)
    }

    // Puts the rule that is ready next. False: an end was told.
    fn put_rule<R: Rank>(
        &self,
        link: &mut R,
        flow: &Flow,
        home: &mut Home,
        number: u32,
    ) -> Result<bool, Trouble>
        requires going { IsGoing (forms self.now.ranks) (Some flow.now) (R.link link.old).said (AtHome flow.now home.old) }
        requires ready { IsReady self.now.ranks (R.link link.old) }
        requires next { slice_get home.old.store.ready.items home.old.store.next ≡ Some number }
        ensures told { IfOk result (Passes (forms self.now.ranks) (Some flow.now) (R.link link.new).said
            (AtHome flow.now home.new) (Stored flow.now home.new)) }
        ensures so_far { IsOnWay (forms self.now.ranks) (Some flow.now) (R.link link.new) }
        ensures kept { Keeps (R.link link.old) (R.link link.new) result }
        ensures more { OnOk result (length (R.link link.old).said ≤ length (R.link link.new).said) }
        ensures less { result ≡ Ok true → to_take home.new.store < to_take home.old.store }
    {
        match home.store.rule(flow, number as usize) {
            Some(rule) => {
                let unit = RuleUnit {
                    number,
                    op: rule.op,
                    left: rule.left,
                    right: rule.right,
                };
                self.put_ready(link, flow, home, unit)
            }
            None => {
                home.store.pass();
                Ok(true)
            }
        }
    }

    // Puts the rule that is ready next, with the values of its inputs; works it if no server takes it. False: an end was told.
    fn put_ready<R: Rank>(
        &self,
        link: &mut R,
        flow: &Flow,
        home: &mut Home,
        unit: RuleUnit,
    ) -> Result<bool, Trouble>
        requires going { IsGoing (forms self.now.ranks) (Some flow.now) (R.link link.old).said (AtHome flow.now home.old) }
        requires ready { IsReady self.now.ranks (R.link link.old) }
        requires next { slice_get home.old.store.ready.items home.old.store.next ≡ Some unit.number }
        requires carries { Carries flow.now home.old.store unit }
        ensures told { IfOk result (Passes (forms self.now.ranks) (Some flow.now) (R.link link.new).said
            (AtHome flow.now home.new) (Stored flow.now home.new)) }
        ensures so_far { IsOnWay (forms self.now.ranks) (Some flow.now) (R.link link.new) }
        ensures kept { Keeps (R.link link.old) (R.link link.new) result }
        ensures more { OnOk result (length (R.link link.old).said ≤ length (R.link link.new).said) }
        ensures less { result ≡ Ok true → to_take home.new.store < to_take home.old.store }
    {
        match self.put(link, &Piece::Rule(unit))? {
            Reply::Accepted => {
                home.store.pass();
                Ok(true)
            }
            Reply::Rejected => {
                let value = unit.op.apply(unit.left, unit.right);
                let Ok(()) = home.store.keep(flow, unit.number, value) else {
                    return Err(Trouble::Memory);
                };
                home.store.pass();
                Ok(true)
            }
            Reply::Ended(_) => Ok(false),
        }
    }

    // Takes a unit: works a rule, and stores an answer. False: an end was told.
    fn take_home<R: Rank>(
        &self,
        link: &mut R,
        flow: &Flow,
        home: &mut Home,
    ) -> Result<bool, Trouble>
        requires going { IsGoing (forms self.now.ranks) (Some flow.now) (R.link link.old).said (AllPut flow.now home.old) }
        requires ready { IsReady self.now.ranks (R.link link.old) }
        ensures told { IfOk result (Passes (forms self.now.ranks) (Some flow.now) (R.link link.new).said
            (AtHome flow.now home.new) (Stored flow.now home.new)) }
        ensures so_far { IsOnWay (forms self.now.ranks) (Some flow.now) (R.link link.new) }
        ensures kept { Keeps (R.link link.old) (R.link link.new) result }
        ensures longer { OnOk result (length (R.link link.old).said < length (R.link link.new).said) }
    {
        match self.take(link)? {
            Taken::Unit(note, body) => {
                let Ok(unit) = Piece::fetched(self.alloc, self.ranks, &note, &body) else {
                    return Err(Trouble::Memory);
                };
                self.receive_home(link, flow, home, unit)
            }
            Taken::NoneNow => unreachable!(),
            Taken::Ended(_) => Ok(false),
        }
    }

    // A unit came, if it is one. False: an end was told.
    fn receive_home<R: Rank>(
        &self,
        link: &mut R,
        flow: &Flow,
        home: &mut Home,
        unit: Option<Piece>,
    ) -> Result<bool, Trouble>
        requires came { HasCome (forms self.now.ranks) (Some flow.now) (R.link link.old).said (AtHome flow.now home.old) (piece_read unit) }
        requires ready { IsReady self.now.ranks (R.link link.old) }
        ensures told { IfOk result (Passes (forms self.now.ranks) (Some flow.now) (R.link link.new).said
            (AtHome flow.now home.new) (Stored flow.now home.new)) }
        ensures so_far { IsOnWay (forms self.now.ranks) (Some flow.now) (R.link link.new) }
        ensures kept { Keeps (R.link link.old) (R.link link.new) result }
        ensures more { OnOk result (length (R.link link.old).said ≤ length (R.link link.new).said) }
    {
        match unit {
            Some(Piece::Rule(rule)) => {
                let answer = answer_of(rule);
                self.put_own(link, flow, home, answer)
            }
            Some(Piece::Answer(answer)) => {
                let Ok(()) = home.store.keep(flow, answer.number, answer.value) else {
                    return Err(Trouble::Memory);
                };
                Ok(true)
            }
            None => Ok(true),
        }
    }

    // Puts an answer; stores it if no server takes it. False: an end was told, and the answer is kept.
    fn put_own<R: Rank>(
        &self,
        link: &mut R,
        flow: &Flow,
        home: &mut Home,
        answer: AnswerUnit,
    ) -> Result<bool, Trouble>
        requires owes { Owes (forms self.now.ranks) (Some flow.now) (R.link link.old).said (AtHome flow.now home.old) (answer.number, answer.value) }
        requires ready { IsReady self.now.ranks (R.link link.old) }
        ensures told { IfOk result (Passes (forms self.now.ranks) (Some flow.now) (R.link link.new).said
            (AtHome flow.now home.new) (Stored flow.now home.new)) }
        ensures so_far { IsOnWay (forms self.now.ranks) (Some flow.now) (R.link link.new) }
        ensures kept { Keeps (R.link link.old) (R.link link.new) result }
        ensures more { OnOk result (length (R.link link.old).said ≤ length (R.link link.new).said) }
    {
        match self.put(link, &Piece::Answer(answer))? {
            Reply::Accepted => Ok(true),
            Reply::Rejected => {
                let Ok(()) = home.store.keep(flow, answer.number, answer.value) else {
                    return Err(Trouble::Memory);
                };
                Ok(true)
            }
            Reply::Ended(_) => {
                let Ok(()) = or_no_memory(home.kept.push((answer.number, answer.value))) else {
                    return Err(Trouble::Memory);
                };
                Ok(false)
            }
        }
    }
}

/// The answer of a rule.
pub(crate) fn answer_of(rule: RuleUnit) -> AnswerUnit
    ensures { result ≡ record { number = rule.number; value = applied rule.op rule.left rule.right } }
{
    AnswerUnit {
        number: rule.number,
        value: rule.op.apply(rule.left, rule.right),
    }
}
