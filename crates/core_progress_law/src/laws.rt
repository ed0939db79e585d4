//! What keeps a run going.

ghost use Rattle.std.specs.Prelude.{◌≡◌, ◌<◌, ◌^◌, List, None};
ghost use Rattle.adlb_unit.specs.declared.configs.Config.{Config};
ghost use Rattle.core_wish_law.specs.Bounds.{calls_begun};
ghost use Rattle.core_progress_law.specs.Ended.{IsEnded, IsStill};
ghost use Rattle.core_progress_law.specs.Going.{Goes};
ghost use Rattle.core_run.specs.declared.events.Event.{Event};
ghost use Rattle.core_run.specs.Runs.{Runs};
ghost use Rattle.core_run.specs.World.{World, happens, start};

/// In every run, whatever the numbers of ranks and servers and the order of calls and letters. Where no letter is under way to
/// an actor that has not ended, and no rank can begin a call, each rank has finished and each server has ended (`ends`). So no
/// run gets stuck. A world in which no event can happen has ended, if fewer than 2^34 calls were begun, so that no stamp reaches
/// its limit (`dead`). With several servers something goes on until then, or a check goes round that finds all as it was
/// (`goes`).
pub fn progress_laws()
    ensures ends { (config : Config) (events : List Event) (w : World) → Runs (start config) events w → IsStill w → IsEnded w }
    ensures dead { (config : Config) (events : List Event) (w : World) → Runs (start config) events w → calls_begun w < 2 ^ 34 →
        ((e : Event) → happens w e ≡ None) → IsEnded w }
    ensures goes { (config : Config) (events : List Event) (w : World) → 1 < config.servers → Runs (start config) events w →
        Goes w }
{}
