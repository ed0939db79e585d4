//! A run of one rank and one server, without threads.

ghost use Rattle.std.specs.Prelude.{◌≡◌, ◌<◌, ◌≤◌, ◌^◌, ◌↔◌, ℕ, length, None, Some, Err, true, false, IfOk, IfErr, OnOk};
ghost use Rattle.adlb_unit.specs.Limits.{stamp_limit};
ghost use Rattle.adlb_unit.specs.declared.notes.Trouble.{Trouble};
ghost use Rattle.bag_ledger.specs.declared.entries.Call.{Call};
ghost use Rattle.rank_client.specs.Calls.{Began, Repeats, has_finished, plus};
ghost use Rattle.core_inline.specs.Inline.{IsEnd, IsInline, IsStart, batch_of, finish_answer, link_of};

use crate::runs::InlineRun;
use adlb_unit::{NoMemory, Trouble};
use bag_ledger::{Answer, Call, Said};
use ghost_list::Trace;
use packed_ledger::Ledger;
use rank_client::Carrier;
use server_core::LeftUnit;
use std::alloc::Global;

/// A run of one rank and one server. It is the link of its rank: each letter is handled inside the call that sends it, so each
/// call returns. What it was, contracts see as its `run` (`Run`), of which `IsInline` holds after every sequence of calls. A
/// world that answered `Memory` or `TooLong` has failed, and answers the same to every later call.
#[derive(Drop)]
pub struct InlineWorld {
    run: InlineRun,
    pub ghost one_rank: { run.config.ranks ≡ 1 },
    pub ghost late: { (stamp : ℕ) → run.failed ≡ Some (Trouble.TooLong stamp) → stamp_limit ≤ stamp },
    ghost short: { length run.transcript < stamp_limit },
}

impl InlineWorld {
    /// A world at the start, whose server takes `limit` bytes, from 64 to `2^30`. Its only error is `NoMemory`.
    pub fn new(alloc: Global, limit: u64) -> Result<InlineWorld, NoMemory>
        requires least { 64 ≤ limit }
        requires most { limit ≤ 2 ^ 30 }
        ensures { IfOk result (λ world. IsStart limit world.run) }
    {
        Ok(InlineWorld {
            run: InlineRun::new(alloc, limit)?,
        })
    }

    /// The entries, in the order of the events. They are a legal run, in which the calls of the rank are its transcript
    /// (`IsInline`).
    pub fn ledger(&self) -> &Ledger
        ensures entries { result.now ≡ self.now.run.ledger }
        ensures holds { IsInline self.now.run }
    {
        self.run.ledger()
    }

    /// The rank finishes, and the server hears of it. It is called where the transcript holds no Finish, and no batch is going on.
    /// Where nothing failed, Finish comes to the transcript; what fails is told by `end`.
    pub fn finish_inline(&mut self)
        requires running { has_finished self.old.run.transcript ≡ false }
        requires closed { batch_of self.old.run ≡ false }
        ensures finished { self.new.run.finished ≡ true }
        ensures says { self.new.run.transcript ≡ plus self.old.run.transcript Call.Finish (finish_answer self.new.run.failed) }
        ensures repeats { Repeats self.old.run.failed self.new.run.failed }
        ensures began { Began self.old.run.failed self.old.run.begun Call.Finish self.new.run.failed self.new.run.begun }
        ensures config { self.new.run.config ≡ self.old.run.config }
        ensures heard { self.new.run.failed ≡ None → self.new.run.ended ≡ true }
        ensures holds { IsInline self.new.run }
    {
        let _ = self.run.call(Call::Finish);
    }

    /// What is there at the end, after `finish_inline`: the ledger, the calls of the rank with their answers (in
    /// proofs alone), and the units that are left, in arrival order. It answers `TooLong` exactly if a call of this
    /// world met it, `finish_inline` among them. No call does before 2^35 were answered (`many`): each takes five of
    /// the 2^48 stamps at most. It answers `Memory` if a call met that, or if the list of what is left has no
    /// memory.
    pub fn end(self) -> Result<(Ledger, Trace<Said>, Vec<LeftUnit>), Trouble>
        requires finished { self.run.finished ≡ true }
        ensures whole { OnOk result (self.run.failed ≡ None) }
        ensures ledger { IfOk result (λ parts. parts.0 ≡ self.run.ledger) }
        ensures transcript { IfOk result (λ parts. parts.1.items ≡ self.run.transcript) }
        ensures left { IfOk result (λ parts. parts.2.items ≡ self.run.left) }

        // The ledger is a legal run that holds the rank's calls, of which Finish is one, and after it the units of the bag are left.
        ensures ended { IfOk result (λ parts. IsEnd self.run parts.0 parts.1.items parts.2.items) }
        ensures has_finish { IfOk result (λ parts. has_finished parts.1.items ≡ true) }

        // When it fails.
        ensures too_long { (n : ℕ) → (result ≡ Err (Trouble.TooLong n)) ↔ (self.run.failed ≡ Some (Trouble.TooLong n)) }
        ensures memory { self.run.failed ≡ Some Trouble.Memory → result ≡ Err Trouble.Memory }
        ensures many { (n : ℕ) → result ≡ Err (Trouble.TooLong n) → 2 ^ 35 ≤ length self.run.transcript }
    {
        self.run.end()
    }
}

impl Carrier for InlineWorld {
    ghost carried = { λ world. link_of world.run };

    fn exchange(&mut self, call: Call) -> Result<Answer, Trouble> {
        self.run.call(call)
    }

    fn has_batch(&self) -> bool {
        self.run.batch_open()
    }

    fn count_ranks(&self) -> u32 {
        1
    }

    ghost few = { λ world. world.short };
}
