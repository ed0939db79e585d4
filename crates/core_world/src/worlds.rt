//! A run that is stepped by hand.

ghost use Rattle.std.specs.Prelude.{◌≡◌, ◌<◌, ◌^◌, ◌↔◌, All, IfOk, IsTrue, None, is_some, length};
ghost use Rattle.core_progress_law.specs.Bounds.{calls_begun};
ghost use Rattle.core_run.specs.declared.events.Event.{Event};
ghost use Rattle.core_run.specs.Runs.{transcript};
ghost use Rattle.core_run.specs.World.{client_of, happens, pool_of};
ghost use Rattle.core_world.specs.Seen.{new_world, under_way};
ghost use Rattle.server_core.specs.Left.{left_of};

use crate::stages::Stage;
use adlb_unit::{Actor, Config, NoMemory, Rank, Server, Trouble};
use bag_ledger::Said;
use ghost_list::Trace;
use packed_ledger::Ledger;
use rank_client::ClientStep;
use server_core::LeftUnit;
use std::alloc::Global;
use std::marker::Model;

/// All actors of a run, stepped by hand. Contracts see it as a `Seen`: the world of `core_run`, and the trouble with which it
/// has failed, if it has.
pub struct World {
    pub(crate) stage: Stage,
    // What an event of a rank gave last, which is lent to the next.
    pub(crate) step: ClientStep,
    pub(crate) trouble: Option<Trouble>,
}

// By hand, so that whoever holds a world lets it go by one call, and does not look at what is in it.
impl Drop for World {
    fn drop(self) {
        let World {
            stage,
            step,
            trouble,
        } = self;
    }
}

impl Model for World {
    ghost use Rattle.core_world.specs.Seen.{Seen};

    ghost Value = { Seen };

    ghost use Rattle.core_world.specs.Fields.{IsSound, seen_of};

    ghost view = { seen_of };

    ghost invariant = { IsSound };
}

impl World {
    /// A run at its start: no letter is under way, and each rank runs. Its only error is `NoMemory`.
    pub fn new(alloc: Global, config: Config) -> Result<World, NoMemory>
        ensures { IfOk result (λ w. w ≡ new_world config) }
    {
        let step = ClientStep::new(alloc)?;
        Ok(World {
            stage: Stage::new(alloc, config)?,
            step,
            trouble: None,
        })
    }

    /// What made the run fail, if anything did.
    pub fn trouble(&self) -> Option<Trouble>
        ensures { result ≡ self.now.trouble }
    {
        self.trouble
    }

    /// The entries, in the order of the events.
    pub fn ledger(&self) -> &Ledger
        ensures { result.now ≡ self.now.world.ledger }
    {
        self.stage.ledger()
    }

    /// A batch of a rank of the run is going on.
    pub fn batch_open(&self, rank: Rank) -> bool
        requires { rank.0 < self.now.world.config.ranks }
        ensures { result ≡ is_some (client_of self.now.world rank).batch }
    {
        self.stage.client_at(rank).batch_open()
    }

    /// How many letters from one actor to another were sent and not handled. It is 0 where one of the two is not in the run.
    pub fn waiting(&self, from: Actor, to: Actor) -> u64
        ensures { result ≡ length (under_way self.now.world from to) }
    {
        self.stage.waiting(from, to)
    }

    /// The units that are left at a server of the run, in arrival order. Its only error is `NoMemory`.
    pub fn left(&self, server: Server) -> Result<Vec<LeftUnit>, NoMemory>
        requires { server.0 < self.now.world.config.servers }
        ensures { IfOk result (λ left. left.items ≡ left_of (pool_of self.now.world server)) }
    {
        self.stage.server_at(server).left()
    }

    /// A server of the run has ended: it is shut, and has handled each rank's Finish letter. It handles no letter more. In a world
    /// that has not failed, and in which fewer than 2^34 calls were begun, each has where no event can happen any more (`rests`).
    pub fn has_ended(&self, server: Server) -> bool
        requires { server.0 < self.now.world.config.servers }
        ensures says { IsTrue result ↔ (IsTrue (pool_of self.now.world server).kept.shut ×
            All IsTrue (pool_of self.now.world server).kept.finished) }
        ensures rests { self.now.trouble ≡ None → calls_begun self.now.world < 2 ^ 34 →
            ((event : Event) → happens self.now.world event ≡ None) → IsTrue result }
    {
        self.stage.server_at(server).ended()
    }

    /// The ledger, and the calls of a rank of the run that it has heard the answer of, in order, with the world used up. Nothing of
    /// the calls is held.
    pub fn into_parts(self, rank: Rank) -> (Ledger, Trace<Said>)
        requires { rank.0 < self.world.config.ranks }
        ensures ledger { result.0 ≡ self.world.ledger }
        ensures transcript { result.1.items ≡ transcript self.world rank }
    {
        let World {
            stage,
            step,
            trouble,
        } = self;
        stage.into_parts(rank)
    }
}
