//! A server with its desk, as the work of a thread.

ghost use Rattle.std.specs.Prelude.{◌≡◌, ◌<◌, ◌+◌, IfOk};
ghost use Rattle.actor_desk.specs.Desks.{IsNew};
ghost use Rattle.thread_actors.specs.ServerJobs.{EndsAs};

use crate::faults::ActorFault;
use crate::serving::Serving;
use actor_desk::{Desk, Mailing};
use adlb_unit::{Config, NoMemory, Server};
use server_core::LeftUnit;
use std::alloc::Global;
use std::marker::{Model, PhantomData};
use std::sync::Wait;
use std::thread::Promise;

/// What a server gives back: the units that were put and not fetched, or none if it failed, and what broke it, if anything
/// did, and whether that was a step of its own. Also its desk, with its journal and its mailboxes, since others may still send to
/// it. Contracts see it as `Ended`.
#[derive(Drop)]
pub struct ServerEnd<M: Mailing> {
    pub left: Vec<LeftUnit>,
    pub fault: Option<ActorFault>,
    pub own: bool,
    pub desk: Desk<M>,
}

impl<M: Mailing> Model for ServerEnd<M> {
    ghost use Rattle.thread_actors.specs.ServerJobs.{Ended};

    ghost Value = { Ended };

    ghost view = { λ e. record { left = e.left.items; fault = e.fault; own = e.own; desk = e.desk } };
}

/// What a server's thread promises (`kept_by`): its end is as `EndsAs` says.
#[derive(Drop)]
pub struct Serves<M: Mailing> {
    pub config: Config,
    pub me: Server,
    pub of: PhantomData<M>,
}

impl<M: Mailing> Promise<ServerEnd<M>> for Serves<M> {
    ghost kept_by = { λ p r. EndsAs p.config p.me r };
}

/// One server of a run at its desk, at the start of the run. Contracts see it as its numbers.
///
/// It handles letters until it has ended. At the first fault it is broken: it tells each other server, and then each rank that waits
/// for it, once. From then on it answers each letter whose rank waits for that, and ignores the rest, until each rank is over: its last
/// letter came, Finish or Gone, or it was never started. So no rank waits for ever. The fault is its own, as a letter that it did
/// not expect, which is dropped. Or it is that of a rank (Gone), that of another server (Abort), or that of the caller, who sends
/// Abort when a thread could not be started. It keeps the first.
#[derive(Drop)]
pub struct ServerJob<R: Wait, M: Mailing> {
    serving: Serving<R, M>,
}

impl<R: Wait, M: Mailing> Model for ServerJob<R, M> {
    ghost use Rattle.std.specs.Prelude.{[]};
    ghost use Rattle.thread_actors.specs.ServerJobs.{Seat};
    ghost use Rattle.thread_actors.specs.inside.Serving.{Follows};

    ghost Value = { Seat };

    ghost view = { λ j. record { config = j.serving.config; me = j.serving.me } };

    ghost invariant = { λ j. Follows j.serving.desk [] j.serving.state };
}

impl<R: Wait + Copy, M: Mailing> ServerJob<R, M> {
    /// One of the servers of a run, at its start, at this desk. Its only error is `NoMemory`.
    pub fn new(
        alloc: Global,
        rt: R,
        config: Config,
        me: Server,
        desk: Desk<M>,
    ) -> Result<ServerJob<R, M>, NoMemory>
        requires server { me.0 < config.servers }
        requires desk { IsNew config (config.ranks + me.0) desk }
        ensures config { IfOk result (λ j. j.config ≡ config) }
        ensures me { IfOk result (λ j. j.me ≡ me) }
    {
        Ok(ServerJob {
            serving: Serving::new(alloc, rt, config, me, desk)?,
        })
    }

    /// The numbers of the run.
    pub fn config(&self) -> Config
        ensures { result ≡ self.now.config }
    {
        self.serving.config
    }

    /// Which server it is.
    pub fn server(&self) -> Server
        ensures { result ≡ self.now.me }
    {
        self.serving.me
    }

    /// Handles letters until it has ended, or is broken, all were told and each rank is over.
    pub fn run(self) -> ServerEnd<M>
        ensures { EndsAs self.config self.me result }
    {
        let ServerJob { serving } = self;
        let mut serving = serving;
        match serving.serve_all() {
            None => serving.end(),
            Some(broken) => serving.end_broken(broken),
        }
    }
}
