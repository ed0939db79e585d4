//! The servers that are still to be asked.

ghost use Rattle.std.specs.Prelude.{◌≡◌, ◌<◌, ◌==◌, ◌||◌, ◌++◌, ◌∷◌, [], length, drop, slice_get};
ghost use Rattle.adlb_unit.specs.Limits.{server_limit};
ghost use Rattle.adlb_unit.specs.Ring.{others};
ghost use Rattle.server_components.specs.Calls.{has_server, with_server};

use adlb_unit::{Config, SERVER_LIMIT, Server};
use std::marker::Model;

/// Servers in the order in which they are to be asked: at most 8, held in place. Contracts see the list of them.
#[derive(Drop)]
pub struct ToAsk {
    servers: [Server; SERVER_LIMIT as usize],
    count: usize,
}

impl Model for ToAsk {
    ghost use Rattle.std.specs.Prelude.{◌≤◌, List, take};
    ghost use Rattle.adlb_unit.specs.declared.names.Server.{Server};
    ghost use Rattle.adlb_unit.specs.Limits.{server_limit};

    ghost Value = { List Server };

    ghost view = { λ t. take t.count t.servers };

    ghost invariant = { λ t. t.count ≤ server_limit };
}

impl ToAsk {
    // No server.
    pub(crate) fn none() -> ToAsk
        ensures { result ≡ [] }
    {
        ToAsk {
            servers: [Server(0); SERVER_LIMIT as usize],
            count: 0,
        }
    }

    // This server comes last.
    fn push(&mut self, server: Server)
        requires { length self.old < server_limit }
        ensures { self.new ≡ self.old ++ server ∷ [] }
    {
        self.servers[self.count] = server;
        self.count += 1;
    }

    // The server is among them.
    fn has(&self, server: Server) -> bool
        ensures { result ≡ has_server self.now server }
    {
        self.servers[..self.count]
            .iter()
            .any(|other| other.0 == server.0)
    }

    // It is among them and this one.
    fn has_with(&self, server: Server, next: Server) -> bool
        ensures { result ≡ ((next.0 == server.0) || has_server self.now next) }
    {
        next.0 == server.0 || self.has(next)
    }

    // All servers but this one, in ring order from the one after it on (`others`).
    pub(crate) fn others(config: &Config, me: Server) -> ToAsk
        requires { me.0 < config.now.servers }
        ensures { result ≡ others config.now me }
    {
        let mut all = ToAsk::none();
        for places in 1..config.servers {
            all.push(Server((me.0 + places) % config.servers));
        }
        all
    }

    // These and one more, in ring order (`with_server`).
    pub(crate) fn with(&self, config: &Config, me: Server, server: Server) -> ToAsk
        requires { me.0 < config.now.servers }
        ensures { result ≡ with_server config.now me self.now server }
    {
        let mut all = ToAsk::none();
        for places in 1..config.servers {
            let next = Server((me.0 + places) % config.servers);
            if self.has_with(server, next) {
                all.push(next);
            }
        }
        all
    }

    // The first of them, which is taken off; `None` if there is no such server.
    pub(crate) fn take_first(&mut self) -> Option<Server>
        ensures first { result ≡ slice_get self.old 0 }
        ensures rest { self.new ≡ drop 1 self.old }
    {
        if self.count == 0 {
            return None;
        }
        let first = self.servers[0];
        self.servers.rotate_left(1);
        self.count -= 1;
        Some(first)
    }
}
