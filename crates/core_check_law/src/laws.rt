//! What holds of the checks that go round in every run of all actors.

ghost use Rattle.std.specs.Prelude.{◌≡◌, List};
ghost use Rattle.adlb_unit.specs.declared.configs.Config.{Config};
ghost use Rattle.server_law.specs.Acts.{zeroth};
ghost use Rattle.core_run.specs.declared.events.Event.{Event};
ghost use Rattle.core_law.specs.Letters.{one};
ghost use Rattle.core_law.specs.Measures.{links_weight};
ghost use Rattle.core_check_law.specs.OnWay.{IsRinged};
ghost use Rattle.core_check_law.specs.Tokens.{tokens};
ghost use Rattle.core_check_law.specs.Turn.{AreOnTurn, NoneIsEverStuck};
ghost use Rattle.core_run.specs.Runs.{Runs};
ghost use Rattle.core_run.specs.World.{World, pool_of, start};

/// In every run, whatever the numbers of ranks and servers and the order of calls and letters. While a check runs at server
/// 0, exactly one token is under way, or one letter that a test failed. Otherwise there is no such letter (`tokens`). A
/// token is of the last check. In wave 1 the servers that it has passed have their mark of this check and the others do
/// not. Its list is of ranks with their homes so far. In wave 2 all servers have their mark. Each server that has its mark
/// and has changed nothing since is quiet, and the ranks that wait there are those of the list with their home there
/// (`ringed`). The list names ranks of the run, each once. The tests of the check are still to be made where the token has
/// yet to come in wave 2, and server 0 has made its own by then. A failed test is of the last check (`on_turn`). So the
/// front letter of each list is expected, tokens too, and no event is stuck while stamps are given (`expected`).
pub fn check_laws()
    ensures tokens { (config : Config) (events : List Event) (w : World) → Runs (start config) events w →
        links_weight w.config tokens w.links ≡ one (pool_of w zeroth).kept.ring.runs }
    ensures ringed { (config : Config) (events : List Event) (w : World) → Runs (start config) events w → IsRinged w }
    ensures on_turn { (config : Config) (events : List Event) (w : World) → Runs (start config) events w → AreOnTurn w }
    ensures expected { (config : Config) (events : List Event) (w : World) → Runs (start config) events w → NoneIsEverStuck w }
{}
