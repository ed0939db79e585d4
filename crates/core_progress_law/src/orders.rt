//! In which order the ledger of a run has ends.

ghost use Rattle.std.specs.Prelude.{◌≡◌, ◌++◌, ◌∷◌, false, List};
ghost use Rattle.std.specs.List.{list_any};
ghost use Rattle.adlb_unit.specs.declared.configs.Config.{Config};
ghost use Rattle.adlb_unit.specs.declared.notes.End.TheVariants.{NoMoreWork};
ghost use Rattle.bag_ledger.specs.Words.{causes};
ghost use Rattle.bag_ledger.specs.declared.entries.Entry.{Entry};
ghost use Rattle.bag_ledger.specs.declared.entries.Entry.TheVariants.{Exhausted};
ghost use Rattle.core_run.specs.declared.events.Event.{Event};
ghost use Rattle.core_run.specs.Runs.{Runs};
ghost use Rattle.core_run.specs.World.{World, start};

/// In every run, whatever the numbers of ranks and servers and the order of calls and letters. All work is found used up only
/// where no rank has called the problem done (`undone`). No `Done` entry is before the `Exhausted` entry.
pub fn order_laws()
    ensures undone { (config : Config) (events : List Event) (w : World) (before behind : List Entry) → Runs (start config) events w →
        w.ledger ≡ before ++ Exhausted ∷ behind → list_any (causes NoMoreWork) before ≡ false }
{}
