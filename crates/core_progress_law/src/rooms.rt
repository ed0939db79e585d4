//! How many letters are under way to one actor.

ghost use Rattle.std.specs.Prelude.{◌≡◌, ◌≢◌, ◌<◌, ◌≤◌, ◌+◌, ◌*◌, ℕ, List};
ghost use Rattle.adlb_unit.specs.declared.configs.Config.{Config};
ghost use Rattle.adlb_unit.specs.declared.names.Rank.{Rank};
ghost use Rattle.adlb_unit.specs.declared.names.Server.{Server};
ghost use Rattle.core_wish_law.specs.Bounds.{begun};
ghost use Rattle.core_progress_law.specs.Room.{hints_to, most_hints, most_letters, notices_to, to_rank, to_server};
ghost use Rattle.core_run.specs.declared.events.Event.{Event};
ghost use Rattle.core_run.specs.Runs.{Runs};
ghost use Rattle.core_run.specs.World.{World, start};

/// In every run, whatever the numbers of ranks and servers and the order of calls and letters. At most one letter is
/// under way to a rank (`rank`). To a server there are, besides notices, at most one of each rank, one of each push,
/// one of a check, and two of the ends that server 0 found. Of hints two are from each other server of each rank with
/// its home there (`server`, `hints`). Notices go to server 0 alone (`notices`), and of them there are few for the
/// calls that were begun (`pile`).
pub fn room_laws()
    ensures rank { (config : Config) (events : List Event) (w : World) (rank : Rank) → rank.0 < config.ranks →
        Runs (start config) events w → to_rank w rank ≤ 1 }
    ensures server { (config : Config) (events : List Event) (w : World) (server : Server) → server.0 < config.servers →
        Runs (start config) events w → to_server w server ≤ most_letters config server + notices_to w server }
    ensures hints { (config : Config) (events : List Event) (w : World) (server : Server) → server.0 < config.servers →
        Runs (start config) events w → hints_to w server ≤ most_hints config server }
    ensures pile { (config : Config) (n : ℕ) (events : List Event) (w : World) (server : Server) → Runs (start config) events w →
        begun events ≤ n → notices_to w server ≤ 256 * (n + 1) }
    ensures notices { (config : Config) (events : List Event) (w : World) (server : Server) → server.0 < config.servers →
        server.0 ≢ 0 → Runs (start config) events w → notices_to w server ≡ 0 }
{}
