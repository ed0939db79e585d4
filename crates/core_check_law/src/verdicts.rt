//! That what the checks find is so.

ghost use Rattle.std.specs.Prelude.{◌≡◌, ◌<◌, false, List, None};
ghost use Rattle.adlb_unit.specs.declared.configs.Config.{Config};
ghost use Rattle.adlb_unit.specs.declared.names.Server.{Server};
ghost use Rattle.bag_ledger.specs.Bag.{Bag, start as empty_bag};
ghost use Rattle.bag_ledger.specs.Runs.{IsLegal, IsRun};
ghost use Rattle.server_components.specs.declared.waits.Waiting.{Waiting};
ghost use Rattle.core_run.specs.declared.events.Event.{Event};
ghost use Rattle.core_run.specs.Runs.{Runs};
ghost use Rattle.core_run.specs.World.{World, pool_of, start};
ghost use Rattle.core_check_law.specs.Settling.{Has, Settles};

/// In every run, for all numbers of ranks and servers and every order of calls and letters, the ledger is a legal run
/// of the bag (`legal`). It is so also where several servers find that all work is used up. Then each rank asks or
/// has finished, and some rank asks. No room is promised, no unit travels, and no free unit is permitted to a rank
/// that asks. So says a token of wave 2 of the bag. If the servers that it still has to visit have changed nothing
/// since their marks, all rests. The ranks that wait are those of its list, and nothing fits them at the servers that
/// it has visited (`settles`). No rank is idle at a server that knows that the problem is done (`told`).
pub fn verdict_laws()
    ensures legal { (config : Config) (events : List Event) (w : World) → Runs (start config) events w → IsLegal config w.ledger }
    ensures settles { (config : Config) (events : List Event) (w : World) → 1 < config.servers → Runs (start config) events w →
        (b : Bag) × IsRun (empty_bag config) w.ledger b × Settles w b }
    ensures told { (config : Config) (events : List Event) (w : World) (server : Server) (e : Waiting) → server.0 < config.servers →
        Runs (start config) events w → Has (pool_of w server).kept.parked.waiting e → e.asked ≡ None →
        (pool_of w server).kept.done ≡ false }
{}
