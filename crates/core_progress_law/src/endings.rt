//! That every run ends.

ghost use Rattle.std.specs.Prelude.{◌≤◌, ℕ, List};
ghost use Rattle.adlb_unit.specs.declared.configs.Config.{Config};
ghost use Rattle.core_wish_law.specs.Bounds.{begun};
ghost use Rattle.core_progress_law.specs.Ended.{EndsWithin};
ghost use Rattle.core_run.specs.declared.events.Event.{Event};
ghost use Rattle.core_run.specs.Runs.{Runs};
ghost use Rattle.core_run.specs.World.{World, start};

/// A run of any number of ranks and servers that begins at most `n` calls has at most `8192 * (n + 1)` events, whatever the
/// order in which letters are delivered. Where it can go no further, no letter can be delivered, and each rank waits or has
/// finished. Then each rank has finished and each server has ended: no rank waits in vain.
pub fn every_run_ends()
    ensures { (config : Config) (n : ℕ) (events : List Event) (w : World) → Runs (start config) events w → begun events ≤ n →
        EndsWithin n events w }
{}
