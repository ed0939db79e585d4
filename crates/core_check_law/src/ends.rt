//! What is so once an end was found.

ghost use Rattle.std.specs.Prelude.{◌≡◌, ◌≢◌, ◌<◌, ◌++◌, ◌∷◌, true, List};
ghost use Rattle.adlb_unit.specs.declared.configs.Config.{Config};
ghost use Rattle.adlb_unit.specs.declared.names.Rank.{Rank};
ghost use Rattle.adlb_unit.specs.declared.names.Server.{Server};
ghost use Rattle.bag_ledger.specs.Bag.{Bag, start as empty_bag};
ghost use Rattle.bag_ledger.specs.Runs.{IsRun};
ghost use Rattle.bag_ledger.specs.declared.entries.Entry.{Entry};
ghost use Rattle.bag_ledger.specs.declared.entries.Entry.TheVariants.{Exhausted};
ghost use Rattle.core_run.specs.declared.events.Event.{Event};
ghost use Rattle.core_run.specs.Runs.{Runs};
ghost use Rattle.core_run.specs.World.{World, client_of, pool_of, start};
ghost use Rattle.core_check_law.specs.After.{AllOver, AreIdle, IsShutDown};
ghost use Rattle.core_check_law.specs.Ends.{IsToldOnce, is_exhaust, is_exhausted, is_shut, is_shutdown};

/// In every run, whatever the numbers of ranks and servers and the order of calls and letters. Once server 0 has found that all
/// work is used up, each other server knows it, or one letter that tells it so is under way. Before that there is no such letter
/// (`exhaust_told`). Likewise that no rank waits or runs any more (`shutdown_told`). After that no server accepts, refuses, keeps
/// or grants anything in the ledger, or looks in vain, and nothing is promised, sent, received or taken back (`idle`). Each rank
/// has finished, or asks for what no unit that is free or between servers is permitted to it for, or was told an end (`over`). A
/// server is shut only where each rank has finished (`finished`); then nothing is promised and no unit is between servers
/// (`shut`).
pub fn end_laws()
    ensures exhaust_told { (config : Config) (events : List Event) (w : World) (server : Server) → server.0 ≢ 0 →
        server.0 < config.servers → Runs (start config) events w → IsToldOnce is_exhaust is_exhausted w server }
    ensures shutdown_told { (config : Config) (events : List Event) (w : World) (server : Server) → server.0 ≢ 0 →
        server.0 < config.servers → Runs (start config) events w → IsToldOnce is_shutdown is_shut w server }
    ensures over { (config : Config) (events : List Event) (w : World) (b : Bag) → Runs (start config) events w →
        IsRun (empty_bag config) w.ledger b → b.exhausted ≡ true → AllOver b }
    ensures idle { (config : Config) (events : List Event) (w : World) (before behind : List Entry) → Runs (start config) events w →
        w.ledger ≡ before ++ Exhausted ∷ behind → AreIdle behind }
    ensures finished { (config : Config) (events : List Event) (w : World) (server : Server) (rank : Rank) →
        server.0 < config.servers → rank.0 < config.ranks → Runs (start config) events w → (pool_of w server).kept.shut ≡ true →
        (client_of w rank).finished ≡ true }
    ensures shut { (config : Config) (events : List Event) (w : World) (server : Server) (b : Bag) → server.0 < config.servers →
        Runs (start config) events w → IsRun (empty_bag config) w.ledger b → (pool_of w server).kept.shut ≡ true → IsShutDown b }
{}
