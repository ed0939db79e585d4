//! The link of a rank whose servers are in other threads.

ghost use Rattle.std.specs.Prelude.{◌≡◌, ◌<◌, ◌≤◌, ◌&&◌, ℕ, [], length, false, true, not, None, Some, IfOk, IfSome, is_none};
ghost use Rattle.std.specs.Option.{option_map};
ghost use Rattle.adlb_unit.specs.Limits.{stamp_limit};
ghost use Rattle.adlb_unit.specs.declared.notes.Trouble.{Trouble};
ghost use Rattle.bag_ledger.specs.declared.entries.Answer.{Answer};
ghost use Rattle.bag_ledger.specs.declared.entries.Call.{Call};
ghost use Rattle.rank_client.specs.Calls.{has_finished, is_open, plus};
ghost use Rattle.actor_desk.specs.Desks.{DeskModel, IsNew};
ghost use Rattle.thread_actors.specs.Faults.{IsLateFault, told};
ghost use Rattle.thread_actors.specs.RankJobs.{HasToldAll, IsBegun, IsCutShort, IsRankRun, IsStopped, ended_by, was_told};
ghost use Rattle.thread_actors.specs.Run.{left_begun, link_in};
ghost use Rattle.thread_actors.specs.declared.faults.ActorFault.{ActorFault};

use crate::faults::{ActorFault, fault_of};
use crate::wires::{Wire, tell_gone};
use actor_desk::{Desk, Mailing};
use adlb_io::{Gate, GatePoint};
use adlb_unit::{Config, NoMemory, Rank, Trouble};
use bag_ledger::{Answer, Call, Said};
use ghost_list::Trace;
use rank_client::{Carrier, ClientCore, ClientStep};
use std::alloc::Global;
use std::marker::Model;
use std::sync::Wait;

/// What a link leaves at its end: its transcript, of which nothing is held, what made it fail, if anything did, and its desk. A fault
/// is its own if no server told it.
#[derive(Drop)]
pub struct LinkEnd<M: Mailing> {
    pub said: Trace<Said>,
    pub fault: Option<ActorFault>,
    pub own: bool,
    pub desk: Desk<M>,
}

/// The link of a rank whose servers are in other threads. Its calls wait for letters. Its transcript is that of the rank's client.
/// It fails if its client does, if memory for the journal is missing, or if a server tells that it has failed. It fails, too, if a
/// letter comes that is not expected, which is dropped. While it has not failed, its journal is the rank's own run. A gate is
/// passed before each call that waits for a unit, and after each grant, each fetch and each put that was taken. Contracts see it
/// as `RankLink`.
#[derive(Drop)]
pub struct ThreadedLink<R: Wait, G: Gate, M: Mailing> {
    wire: Wire<R, M>,
    gate: G,
    me: Rank,
    ghost short: { length wire.core.transcript < stamp_limit },
}

impl<R: Wait, G: Gate, M: Mailing> Model for ThreadedLink<R, G, M> {
    ghost use Rattle.std.specs.Prelude.{◌≡◌, [], false};
    ghost use Rattle.thread_actors.specs.Run.{RankLink};

    ghost Value = { RankLink };

    ghost use Rattle.thread_actors.specs.RankJobs.{was_told};
    ghost use Rattle.thread_actors.specs.inside.Wires.{IsCut, IsRecorded, IsUpTo, MeetsLimit, Rests};

    ghost view = { λ l. record {
      config = l.wire.core.config;
      me = l.wire.core.me;
      core = l.wire.core;
      desk = l.wire.desk;
      short = l.short;
    } };

    ghost invariant = { λ l. (l.wire.core.me ≡ l.me) × Rests l.wire.core × IsRecorded l.wire.desk [] l.wire.core
        × IsCut l.wire.desk l.wire.core l.wire.unexpected × IsUpTo l.wire.desk l.wire.core
        × (l.wire.told ≡ false → MeetsLimit l.wire.desk l.wire.core) × (l.wire.told ≡ was_told l.wire.desk.got) };
}

impl<R: Wait + Copy, G: Gate + Drop, M: Mailing> ThreadedLink<R, G, M> {
    /// The link of the rank `me` at the start of a run, at its desk. Its only error is `NoMemory`.
    pub fn new(
        alloc: Global,
        rt: R,
        config: Config,
        me: Rank,
        desk: Desk<M>,
        gate: G,
    ) -> Result<ThreadedLink<R, G, M>, NoMemory>
        requires rank { me.0 < config.ranks }
        requires desk { IsNew config me.0 desk }
        ensures config { IfOk result (λ l. l.config ≡ config) }
        ensures me { IfOk result (λ l. l.me ≡ me) }
        ensures desk { IfOk result (λ l. (l.desk.config ≡ config) × (l.desk.number ≡ me.0)) }
        ensures empty { IfOk result (λ l. l.core.transcript ≡ []) }
        ensures whole { IfOk result (λ l. l.core.trouble ≡ None) }
    {
        let step = ClientStep::new(alloc)?;
        let core = ClientCore::new(alloc, config, me)?;
        Ok(ThreadedLink {
            wire: Wire {
                rt,
                config,
                core,
                step,
                desk,
                unexpected: None,
                told: false,
            },
            gate,
            me,
        })
    }

    // The numbers of the run.
    pub(crate) fn config(&self) -> Config
        ensures { result ≡ self.now.config }
    {
        self.wire.config
    }

    // Which rank it serves.
    pub(crate) fn rank(&self) -> Rank
        ensures { result ≡ self.now.me }
    {
        self.me
    }

    // The link fails with this trouble, which is of the program, if it has not failed before.
    pub(crate) fn fail(&mut self, trouble: Trouble)
        requires other { self.old.core.trouble ≡ None → (stamp : ℕ) → trouble ≡ Trouble.TooLong stamp → ⊥ }
        ensures says { self.new.core.transcript ≡ self.old.core.transcript }
        ensures failed { is_none self.new.core.trouble ≡ false }
        ensures begun { left_begun self.new ≡ left_begun self.old }
        ensures config { self.new.config ≡ self.old.config }
        ensures me { self.new.me ≡ self.old.me }
    {
        let _ = self.wire.core.fail(trouble);
    }

    /// Leaves the run, as `finish` does, and gives back what the link kept. If it has not failed the transcript ends with Finish, and
    /// the journal is the rank's own run (`IsRankRun`). If it had failed before, the trouble of its calls is what its fault is told as.
    /// If that is a letter which was not expected, the journal is the rank's own run up to there (`IsCutShort`). Whatever it met, the
    /// journal is the rank's own run so far (`IsBegun`). If it has failed, each server was told once, and nothing else was sent. A fault
    /// is its own exactly if no letter told that a server has failed (`was_told`).
    pub fn end(self) -> LinkEnd<M>
        requires running { has_finished self.core.transcript ≡ false }
        requires closed { (is_open self.core.transcript && is_none self.core.trouble) ≡ false }
        ensures finished { result.fault ≡ None → result.said.items ≡ plus self.core.transcript Call.Finish (Some Answer.Fine) }
        ensures said { result.said.items ≡ ended_by result.fault self.core.transcript }
        ensures late { IfSome result.fault IsLateFault }
        ensures kept { is_none self.core.trouble ≡ false → option_map told result.fault ≡ self.core.trouble }
        ensures desk { (result.desk.config ≡ self.config) × (result.desk.number ≡ self.me.0) }
        ensures own { result.fault ≡ None → IsRankRun self.config self.me result.desk result.said.items }
        ensures cut { (from : ℕ) → result.fault ≡ Some (ActorFault.Unexpected from) → IsCutShort self.config self.me result.desk from }
        ensures begun { IsBegun self.config self.me result.desk result.said.items (left_begun self) }
        ensures sent { HasToldAll self.config result.desk (option_map told result.fault) }
        ensures itself { result.own ≡ not (was_told result.desk.got) }
        ensures stopped { result.own ≡ true → (stamp : ℕ) → result.fault ≡ Some (ActorFault.TooLong stamp) → IsStopped self.config self.me result.desk stamp }
    {
        let ThreadedLink { mut wire, .. } = self;
        let came = wire.call(Call::Finish);
        let Wire {
            rt,
            config,
            core,
            mut desk,
            unexpected,
            told,
            ..
        } = wire;
        tell_gone(&mut desk, rt, config, &came);
        LinkEnd {
            fault: fault_of(core.failed(), unexpected),
            said: core.into_transcript(),
            own: !told,
            desk,
        }
    }

    // Passes the gate if this call is about to wait for a unit.
    fn pass_before(&self, number: u64, call: &Call) {
        if matches!(call, Call::Reserve { .. }) {
            self.gate.pass(self.me, GatePoint::Waiting { call: number });
        }
    }

    // Passes the gate if this call was answered by a unit, or by the bytes of one, or if it put a unit that a server took.
    fn pass(&self, call: u64, puts: bool, answer: &Result<Answer, Trouble>) {
        match answer {
            Ok(Answer::Granted(_)) => self.gate.pass(self.me, GatePoint::Granted { call }),
            Ok(Answer::Body(_)) => self.gate.pass(self.me, GatePoint::Fetched { call }),
            Ok(Answer::Fine) if puts => self.gate.pass(self.me, GatePoint::Put { call }),
            _ => {}
        }
    }
}

impl<R: Wait + Copy, G: Gate + Drop, M: Mailing> Carrier for ThreadedLink<R, G, M> {
    ghost carried = { λ l. link_in l };

    fn exchange(&mut self, call: Call) -> Result<Answer, Trouble> {
        let number = self.wire.core.next_call();
        let puts = matches!(&call, Call::Put { .. });
        self.pass_before(number, &call);
        let came = self.wire.call(call);
        self.pass(number, puts, &came);
        came
    }

    fn has_batch(&self) -> bool {
        self.wire.core.batch_open() && self.wire.core.failed().is_none()
    }

    fn count_ranks(&self) -> u32 {
        self.wire.config.ranks
    }

    ghost few = { λ l. l.short };
}
