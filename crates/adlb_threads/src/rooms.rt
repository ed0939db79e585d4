//! How many letters a mailbox holds.

ghost use Rattle.std.specs.Prelude.{◌≡◌, ◌<◌, ◌≤◌, ◌*◌};
ghost use Rattle.adlb_unit.specs.declared.names.Server.{Server};
ghost use Rattle.core_progress_law.specs.Room.{most_letters};

use adlb_unit::{Config, Rank, Server};

/// A bound on the letters under way to one actor: the most that can be under way to a server, but for notices
/// (`core_progress_law::room_laws`). It is taken once for each server, since notices go to server 0 alone. While that
/// goes on, who sends it one may wait for room. After it has ended at most one notice comes for each letter that is
/// under way to another server. At most one letter is under way to a rank.
pub fn capacity(config: &Config) -> u32
    ensures there { 1 ≤ result }
    ensures each { (server : Server) → server.0 < config.now.servers →
        config.now.servers * most_letters config.now server ≤ result }
    ensures one { (server : Server) × (server.0 < config.now.servers) ×
        (result ≡ config.now.servers * most_letters config.now server) }
{
    config.servers * most_to_one(config)
}

// How many letters are under way at most to the server to which the most can be, but for notices.
fn most_to_one(config: &Config) -> u32
    ensures there { 1 ≤ result }
    ensures few { result ≤ 491 }
    ensures each { (server : Server) → server.0 < config.now.servers → most_letters config.now server ≤ result }
    ensures one { (server : Server) × (server.0 < config.now.servers) × (result ≡ most_letters config.now server) }
{
    let mut most = letters_to(config, Server(0));
    for server in 1..config.servers {
        most = most.max(letters_to(config, Server(server)));
    }
    most
}

// How many letters are under way to this server at most, but for notices.
fn letters_to(config: &Config, server: Server) -> u32
    ensures exact { result ≡ most_letters config.now server }
    ensures few { result ≤ 491 }
{
    let pair = 2 * (config.servers - 1);
    let mut hints = 0;
    for rank in 0..config.ranks {
        if config.home(Rank(rank)) == server {
            hints += pair;
        }
    }
    config.ranks + hints + config.servers + 3
}
