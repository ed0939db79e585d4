//! A run of one rank and one server, call by call.

ghost use Rattle.std.specs.Prelude.{◌≡◌, ◌≤◌, ◌^◌, ◌↔◌, ◌||◌, ℕ, length, None, Some, Err, true, IfOk, OnOk};
ghost use Rattle.adlb_unit.specs.declared.notes.Trouble.{Trouble};
ghost use Rattle.bag_ledger.specs.declared.entries.Call.{Call};
ghost use Rattle.rank_client.specs.Answers.{answers_call};
ghost use Rattle.rank_client.specs.Calls.{has_finished, is_finish};
ghost use Rattle.rank_client.specs.Link.{Can, HasGrant, Made};
ghost use Rattle.core_inline.specs.Inline.{IsEnd, IsInline, IsStart, batch_of, link_of};

use crate::pairs::exchange;
use adlb_unit::{Config, NoMemory, Rank, Server, Trouble};
use bag_ledger::{Answer, Call, Said};
use core_world::World;
use ghost_list::Trace;
use packed_ledger::Ledger;
use server_core::LeftUnit;
use std::alloc::Global;
use std::marker::Model;

// A run in line: a world of one rank and one server, how many calls were answered, and whether the rank's finish was called.
#[derive(Drop)]
pub(crate) struct InlineRun {
    world: World,
    answered: usize,
    finished: bool,
}

impl Model for InlineRun {
    ghost use Rattle.core_inline.specs.Inline.{Run};

    ghost Value = { Run };

    ghost use Rattle.core_inline.specs.inside.Fields.{run_of, IsInside};

    ghost view = { run_of };

    ghost invariant = { IsInside };
}

impl InlineRun {
    // A run at the start.
    pub(crate) fn new(alloc: Global, limit: u64) -> Result<InlineRun, NoMemory>
        requires least { 64 ≤ limit }
        requires most { limit ≤ 2 ^ 30 }
        ensures start { IfOk result (λ run. IsStart limit run) }
        ensures holds { IfOk result IsInline }
    {
        let Ok(config) = Config::new(1, 1, limit) else {
            unreachable!()
        };
        Ok(InlineRun {
            world: World::new(alloc, config)?,
            answered: 0,
            finished: false,
        })
    }

    // One call of the rank, from its beginning to its answer. The server hears of Finish within it.
    pub(crate) fn call(&mut self, call: Call) -> Result<Answer, Trouble>
        requires can { Can (link_of self.old) call }
        requires granted { HasGrant self.old.transcript call }
        ensures made { Made (link_of self.old) (link_of self.new) call result }
        ensures kind { IfOk result (λ a. answers_call call a ≡ true) }
        ensures finished { self.new.finished ≡ (self.old.finished || is_finish call) }
        ensures config { self.new.config ≡ self.old.config }
        ensures holds { IsInline self.new }
    {
        let called = finishes(self.finished, &call);
        self.finished = called;
        if let Some(met) = self.world.trouble() {
            return Err(met);
        }
        let answer = exchange(&mut self.world, call)?;
        self.answered += 1;
        Ok(answer)
    }

    // A batch is going on.
    pub(crate) fn batch_open(&self) -> bool
        ensures { result ≡ batch_of self.now }
    {
        self.world.trouble().is_none() && self.world.batch_open(Rank(0))
    }

    // What is there at the end.
    pub(crate) fn end(self) -> Result<(Ledger, Trace<Said>, Vec<LeftUnit>), Trouble>
        requires finished { self.finished ≡ true }
        ensures whole { OnOk result (self.failed ≡ None) }
        ensures ledger { IfOk result (λ parts. parts.0 ≡ self.ledger) }
        ensures transcript { IfOk result (λ parts. parts.1.items ≡ self.transcript) }
        ensures left { IfOk result (λ parts. parts.2.items ≡ self.left) }
        ensures ended { IfOk result (λ parts. IsEnd self parts.0 parts.1.items parts.2.items) }
        ensures has_finish { IfOk result (λ parts. has_finished parts.1.items ≡ true) }
        ensures too_long { (n : ℕ) → (result ≡ Err (Trouble.TooLong n)) ↔ (self.failed ≡ Some (Trouble.TooLong n)) }
        ensures memory { self.failed ≡ Some Trouble.Memory → result ≡ Err Trouble.Memory }
        ensures many { (n : ℕ) → result ≡ Err (Trouble.TooLong n) → 2 ^ 35 ≤ length self.transcript }
    {
        if let Some(trouble) = self.world.trouble() {
            return Err(trouble);
        }
        let Ok(left) = self.world.left(Server(0)) else {
            return Err(Trouble::Memory);
        };
        let (ledger, transcript) = self.world.into_parts(Rank(0));
        Ok((ledger, transcript, left))
    }

    // The entries, in the order of the events.
    pub(crate) fn ledger(&self) -> &Ledger
        ensures entries { result.now ≡ self.now.ledger }
        ensures holds { IsInline self.now }
    {
        self.world.ledger()
    }
}

// Finish was called before, or is this call.
fn finishes(before: bool, call: &Call) -> bool
    ensures { result ≡ (before || is_finish call.now) }
{
    before || is_last(call)
}

// The call is the rank's last.
fn is_last(call: &Call) -> bool
    ensures { result ≡ is_finish call.now }
{
    matches!(call, Call::Finish)
}
