//! What is so where nothing brings a run on.

ghost use Rattle.std.specs.Prelude.{◌≡◌, ◌<◌, true, List};
ghost use Rattle.adlb_unit.specs.declared.configs.Config.{Config};
ghost use Rattle.adlb_unit.specs.declared.names.Server.{Server};
ghost use Rattle.server_law.specs.Endings.{is_quiet};
ghost use Rattle.core_run.specs.declared.events.Event.{Event};
ghost use Rattle.core_run.specs.Runs.{Runs};
ghost use Rattle.core_run.specs.World.{World, pool_of, start};
ghost use Rattle.core_law.specs.Measures.{measure};
ghost use Rattle.core_wish_law.specs.News.{AreForeseen, IsAgreed, IsCovered, news};

/// In every run, whatever the numbers of ranks and servers and the order of calls and letters. Where no letter under way brings
/// anything on and no rank can begin a call, each server is quiet (`quiet`). All servers know that the problem is done, or no
/// server does (`agreed`). With several servers each other server then keeps the wish of a rank that is idle, or is still to be
/// asked for it (`covered`). So while a free unit is permitted to a rank that is idle elsewhere, something brings the run on
/// (`foreseen`).
pub fn wish_laws()
    ensures quiet { (config : Config) (events : List Event) (w : World) (server : Server) → server.0 < w.config.servers →
        Runs (start config) events w → measure news w ≡ 0 → is_quiet (pool_of w server) ≡ true }
    ensures agreed { (config : Config) (events : List Event) (w : World) → Runs (start config) events w → IsAgreed w }
    ensures covered { (config : Config) (events : List Event) (w : World) → 1 < config.servers → Runs (start config) events w →
        IsCovered w }
    ensures foreseen { (config : Config) (events : List Event) (w : World) → 1 < config.servers → Runs (start config) events w →
        AreForeseen w }
{}
