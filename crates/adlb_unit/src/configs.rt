//! How many ranks and servers there are, and how many bytes a server takes.

ghost use Rattle.std.specs.Prelude.{ℕ, ◌≡◌, ◌<◌, ◌+◌, ◌%◌, ◌↔◌, IfOk, IsTrue};
ghost use Rattle.adlb_unit.specs.Limits.{InRanks, InServers, InLimit, Refuses};

use crate::limits::{RANK_LIMIT, SERVER_LIMIT};
use crate::names::{Rank, Server, Target};
use thiserror::Error;

/// Which number of a configuration is outside its limits.
#[derive(Clone, Copy, Debug, PartialEq, Eq, Error)]
pub enum ConfigFault {
    /// `given` ranks, where 1 to 32 are allowed.
    #[error("{given} ranks, but there are 1 to 32")]
    Ranks { given: u32 },
    /// `given` servers, where 1 to 8 are allowed.
    #[error("{given} servers, but there are 1 to 8")]
    Servers { given: u32 },
    /// A limit of `given` bytes, where 64 to 2^30 are allowed.
    #[error("a limit of {given} bytes, but it is 64 to 1073741824")]
    Limit { given: u64 },
}

/// A run's numbers: 1 to 32 ranks, 1 to 8 servers, and from 64 to `2^30` bytes that a server takes at most.
#[derive(Clone, Copy, PartialEq, Eq)]
pub struct Config {
    pub ranks: u32,
    pub servers: u32,
    pub limit: u64,
    pub ghost ranks_within: { InRanks ranks },
    pub ghost servers_within: { InServers servers },
    pub ghost limit_within: { InLimit limit },
}

impl Config {
    ghost use Rattle.adlb_unit.specs.Targets.{home};

    /// A configuration of these numbers. It refuses the first of them that is outside its limits (`Refuses`).
    pub fn new(ranks: u32, servers: u32, limit: u64) -> Result<Config, ConfigFault>
        ensures ranks { IfOk result (λ c. c.ranks ≡ ranks) }
        ensures servers { IfOk result (λ c. c.servers ≡ servers) }
        ensures limit { IfOk result (λ c. c.limit ≡ limit) }
        ensures refused { (fault : ConfigFault) → (result ≡ Err fault) ↔ Refuses ranks servers limit fault }
    {
        if ranks < 1 || ranks > RANK_LIMIT {
            return Err(ConfigFault::Ranks { given: ranks });
        }
        if servers < 1 || servers > SERVER_LIMIT {
            return Err(ConfigFault::Servers { given: servers });
        }
        if limit < 64 || limit > 1 << 30 {
            return Err(ConfigFault::Limit { given: limit });
        }
        Ok(Config {
            ranks,
            servers,
            limit,
        })
    }

    /// The home of a rank (`home`): the server of the rank's number modulo the number of servers.
    pub fn home(&self, rank: Rank) -> Server
        ensures home { result ≡ home self.now rank }
        ensures there { result.0 < self.now.servers }
    {
        Server(rank.0 % self.servers)
    }

    /// The server after this one in ring order: the next number, and 0 after the last. The server is in the run.
    pub fn next(&self, server: Server) -> Server
        requires { server.0 < self.now.servers }
        ensures ring { result.0 ≡ (server.0 + 1) % self.now.servers }
        ensures there { result.0 < self.now.servers }
    {
        if server.0 + 1 == self.servers {
            Server(0)
        } else {
            Server(server.0 + 1)
        }
    }
}

impl Config {
    ghost use Rattle.adlb_unit.specs.Targets.{Aims, in_ranks};

    /// A rank that the target names is in the run (`Aims`, and as a test `in_ranks`).
    pub fn has_target(&self, target: Target) -> bool
        ensures aims { IsTrue result ↔ Aims target self.now.ranks }
        ensures test { result ≡ in_ranks self.now target }
    {
        match target {
            Target::Any => true,
            Target::Only(rank) | Target::Soft(rank) => rank.0 < self.ranks,
        }
    }
}
