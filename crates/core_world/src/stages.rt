//! All actors, the letters between them and the ledger.

ghost use Rattle.std.specs.Prelude.{◌≡◌, ◌<◌, ◌↔◌, true, IfOk, IsTrue, length};
ghost use Rattle.core_run.specs.Runs.{is_over, transcript};
ghost use Rattle.core_run.specs.World.{client_of, pool_of, start};
ghost use Rattle.adlb_unit.specs.Links.{is_within};
ghost use Rattle.core_world.specs.Applied.{IsEnabled};
ghost use Rattle.core_world.specs.Seen.{under_way};
ghost use Rattle.core_world.specs.Stage.{IsReached, IsWhole};

use crate::links::{Links, place_of};
use adlb_unit::{Actor, Config, NoMemory, Rank, Server, or_no_memory};
use bag_ledger::Said;
use core_run::Event;
use ghost_list::Trace;
use packed_ledger::Ledger;
use rank_client::ClientCore;
use server_core::{ServerState, Spare};
use std::alloc::Global;
use std::marker::Model;

// All actors by their numbers, the letters that are under way, and the entries.
#[derive(Drop)]
pub(crate) struct Stage {
    pub(crate) config: Config,
    pub(crate) ranks: Vec<ClientCore>,
    pub(crate) servers: Vec<ServerState>,
    pub(crate) links: Links,
    pub(crate) ledger: Ledger,
    // The lists of what a server's step gave last.
    pub(crate) spare: Spare,
}

impl Model for Stage {
    ghost use Rattle.core_run.specs.World.{World};

    ghost Value = { World };

    ghost use Rattle.core_world.specs.Stage.{IsInside, world_of};

    ghost view = { world_of };

    ghost invariant = { IsInside };
}

impl Stage {
    // All actors at the start.
    pub(crate) fn new(alloc: Global, config: Config) -> Result<Stage, NoMemory>
        ensures start { IfOk result (λ s. s ≡ start config) }
        ensures whole { IfOk result IsWhole }
    {
        let actors = config.ranks as usize + config.servers as usize;
        Ok(Stage {
            config,
            ranks: clients(alloc, config)?,
            servers: servers(alloc, config)?,
            links: Links::new(alloc, actors)?,
            ledger: Ledger::new(alloc),
            spare: Spare::new(alloc),
        })
    }

    pub(crate) fn ledger(&self) -> &Ledger
        ensures { result.now ≡ self.now.ledger }
    {
        &self.ledger
    }

    // The client of a rank.
    pub(crate) fn client_at(&self, rank: Rank) -> &ClientCore
        requires { rank.0 < self.now.config.ranks }
        ensures { result.now ≡ client_of self.now rank }
    {
        &self.ranks[rank.0 as usize]
    }

    pub(crate) fn server_at(&self, server: Server) -> &ServerState
        requires { server.0 < self.now.config.servers }
        ensures { result.now ≡ pool_of self.now server }
    {
        &self.servers[server.0 as usize]
    }

    // The ledger and the calls of a rank with their answers.
    pub(crate) fn into_parts(self, rank: Rank) -> (Ledger, Trace<Said>)
        requires { rank.0 < self.config.ranks }
        ensures ledger { result.0 ≡ self.ledger }
        ensures transcript { result.1.items ≡ transcript self rank }
    {
        let mut ranks = self.ranks;
        let client = ranks.swap_remove(rank.0 as usize);
        (self.ledger, client.into_transcript())
    }

    // The actor is one of the run.
    fn has_actor(&self, actor: Actor) -> bool
        ensures { result ≡ is_within self.now.config actor }
    {
        match actor {
            Actor::Rank(rank) => rank.0 < self.config.ranks,
            Actor::Server(server) => server.0 < self.config.servers,
        }
    }

    // How many letters wait on the list; 0 where an actor is not in the run.
    pub(crate) fn waiting(&self, from: Actor, to: Actor) -> u64
        ensures { result ≡ length (under_way self.now from to) }
    {
        if !self.has_actor(from) || !self.has_actor(to) {
            return 0;
        }
        self.links
            .waiting(place_of(&self.config, from), place_of(&self.config, to))
    }

    // There is such an event now.
    pub(crate) fn enables(&self, event: &Event) -> bool
        requires { IsReached self.now }
        ensures { IsTrue result ↔ IsEnabled self.now event.now }
    {
        match event {
            Event::Call(rank, call) => {
                rank.0 < self.config.ranks && self.client_at(*rank).ready(call)
            }
            Event::Deliver(from, to) => self.can_deliver(*from, *to),
        }
    }

    // There is a front letter, and the receiver goes on.
    fn can_deliver(&self, from: Actor, to: Actor) -> bool
        requires { IsReached self.now }
        ensures { IsTrue result ↔ IsEnabled self.now (Event.Deliver from to) }
    {
        self.waiting(from, to) > 0 && !self.is_over(to)
    }

    // It is a server that has ended.
    fn is_over(&self, actor: Actor) -> bool
        requires { is_within self.now.config actor ≡ true }
        ensures { result ≡ is_over self.now actor }
    {
        match actor {
            Actor::Rank(_) => false,
            Actor::Server(server) => self.server_at(server).ended(),
        }
    }
}

// The clients of all ranks at the start.
fn clients(alloc: Global, config: Config) -> Result<Vec<ClientCore>, NoMemory>
    ensures { IfOk result (λ v. v.items ≡ (start config).ranks) }
{
    let mut clients = or_no_memory(Vec::with_capacity(alloc, config.ranks as usize))?;
    for number in 0..config.ranks {
        let client = ClientCore::new(alloc, config, Rank(number))?;
        clients.push_reserved(client);
    }
    Ok(clients)
}

// All servers at the start.
fn servers(alloc: Global, config: Config) -> Result<Vec<ServerState>, NoMemory>
    ensures { IfOk result (λ v. v.items ≡ (start config).servers) }
{
    let mut servers = or_no_memory(Vec::with_capacity(alloc, config.servers as usize))?;
    for number in 0..config.servers {
        let server = ServerState::new(alloc, config, Server(number))?;
        servers.push_reserved(server);
    }
    Ok(servers)
}
