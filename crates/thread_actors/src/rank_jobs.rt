//! A rank's program with its link, as the work of a thread.

ghost use Rattle.std.specs.Prelude.{◌≡◌, ◌<◌, ◌≤◌, ◌+◌, [], length, None, Some, IfOk, IfSome};
ghost use Rattle.actor_desk.specs.Desks.{IsNew};
ghost use Rattle.thread_actors.specs.RankJobs.{EndsAs};

use crate::faults::ActorFault;
use crate::links::{LinkEnd, ThreadedLink};
use actor_desk::{Desk, Mailing};
use adlb_io::Gate;
use adlb_unit::{Config, NoMemory, Rank};
use bag_ledger::Said;
use ghost_list::Trace;
use rank_client::RankProgram;
use std::alloc::Global;
use std::marker::{Model, PhantomData};
use std::snapshot::Snapshot;
use std::sync::Wait;
use std::thread::Promise;

/// What a rank gives back. Its transcript, which is there in proofs alone. The outcome of its program, exactly if
/// that answered `Ok` and the link had not failed after Finish. What made it fail, exactly if there is no outcome, and whether it
/// met that itself: no server told it.
/// Its desk, with its journal and its mailboxes, since others may still send to it. Contracts see it as `Ended`.
#[derive(Drop)]
pub struct RankEnd<O, M: Mailing> {
    pub said: Trace<Said>,
    pub outcome: Option<O>,
    pub fault: Option<ActorFault>,
    pub own: bool,
    pub desk: Desk<M>,
}

impl<O, M: Mailing> Model for RankEnd<O, M> {
    ghost use Rattle.thread_actors.specs.RankJobs.{Ended};

    ghost Value = { Ended O };

    ghost view = { λ e. record { said = e.said.items; outcome = e.outcome; fault = e.fault; own = e.own; desk = e.desk } };
}

/// What a rank's thread promises (`kept_by`): its end is as `EndsAs` says.
#[derive(Drop)]
pub struct Follows<P: RankProgram, M: Mailing> {
    pub program: Snapshot<P>,
    pub config: Config,
    pub rank: Rank,
    pub of: PhantomData<M>,
}

impl<P: RankProgram, M: Mailing> Promise<RankEnd<P::Outcome, M>> for Follows<P, M> {
    ghost kept_by = { λ p r. EndsAs (P.so_far p.program.value p.rank) (P.follows p.program.value p.rank) p.config p.rank r };
}

/// A rank's program with its link, at the start.
#[derive(Drop)]
pub struct RankJob<P: RankProgram, R: Wait, G: Gate, M: Mailing> {
    pub program: P,
    pub link: ThreadedLink<R, G, M>,
    pub ghost rank: { link.me.0 < link.config.ranks },
    pub ghost empty: { link.core.transcript ≡ [] },
    pub ghost whole: { link.core.trouble ≡ None },
    pub ghost desk_is: { (link.desk.config ≡ link.config) × (link.desk.number ≡ link.me.0) },
}

impl<P: RankProgram + Drop, R: Wait + Copy, G: Gate + Drop, M: Mailing> RankJob<P, R, G, M> {
    /// The work of the rank `me` at the start of a run, as `ThreadedLink::new` says of its link. Its only error is `NoMemory`.
    pub fn new(
        alloc: Global,
        rt: R,
        config: Config,
        me: Rank,
        program: P,
        desk: Desk<M>,
        gate: G,
    ) -> Result<RankJob<P, R, G, M>, NoMemory>
        requires rank { me.0 < config.ranks }
        requires desk { IsNew config me.0 desk }
        ensures program { IfOk result (λ j. j.program ≡ program) }
        ensures config { IfOk result (λ j. j.link.config ≡ config) }
        ensures me { IfOk result (λ j. j.link.me ≡ me) }
    {
        let link = ThreadedLink::new(alloc, rt, config, me, desk, gate)?;
        Ok(RankJob { program, link })
    }

    /// The numbers of the run.
    pub fn config(&self) -> Config
        ensures { result ≡ self.now.link.config }
    {
        self.link.config()
    }

    /// Which rank it is.
    pub fn rank(&self) -> Rank
        ensures { result ≡ self.now.link.me }
    {
        self.link.rank()
    }
}

impl<P: RankProgram + Drop, R: Wait + Copy, G: Gate + Drop, M: Mailing> RankJob<P, R, G, M>
where
    P::Outcome: Drop,
{
    /// Runs the program and leaves the run. If the program answers `Err` the link fails, and the servers are told.
    pub fn run(self) -> RankEnd<P::Outcome, M>
        requires fits { P.fits self.program self.link.config.ranks }
        ensures { EndsAs (P.so_far self.program self.link.me) (P.follows self.program self.link.me) self.link.config self.link.me result }
    {
        let RankJob { program, link } = self;
        let mut link = link;
        let ran = match program.run(link.rank(), &mut link) {
            Ok(outcome) => Some(outcome),
            Err(trouble) => {
                link.fail(trouble);
                None
            }
        };
        let LinkEnd {
            said,
            fault,
            own,
            desk,
        } = link.end();
        let outcome = match fault {
            None => ran,
            Some(_) => None,
        };
        RankEnd {
            said,
            outcome,
            fault,
            own,
            desk,
        }
    }
}
