//! What a ledger tells of the calls that were begun.

ghost use Rattle.std.specs.Prelude.{◌≡◌, ◌≤◌, ◌<◌, ◌∷◌, ◌++◌, [], List, Some, None};
ghost use Rattle.adlb_unit.specs.declared.configs.Config.{Config};
ghost use Rattle.adlb_unit.specs.declared.names.Rank.{Rank};
ghost use Rattle.bag_ledger.specs.declared.entries.Entry.{Entry};
ghost use Rattle.bag_ledger.specs.declared.entries.Said.{Said};
ghost use Rattle.bag_ledger.specs.declared.states.RankState.{RankState};
ghost use Rattle.bag_ledger.specs.Bag.{Bag, rank_at, start};
ghost use Rattle.bag_ledger.specs.Runs.{IsRun, calls};
ghost use Rattle.balance_law.specs.Orderly.{finish};
ghost use Rattle.core_run.specs.declared.events.Event.{Event};
ghost use Rattle.core_run.specs.Runs.{Runs};
ghost use Rattle.core_run.specs.World.{World, start as at_start};
ghost use Rattle.cover_law.specs.Begun.{begun_by, pending_of};
ghost use Rattle.begun_law.specs.Told.{IsMoment};

/// At every moment of every run, whatever the numbers of ranks and servers and the order of calls and letters. The ledger is
/// a legal run of the bag, in which all ranks together have begun no fewer calls than in the run. It has the calls of each rank
/// of which the rank has heard, and perhaps the one that is pending (`moment`). In every legal run a rank has begun no fewer
/// calls than the number of its next one says (`numbers`), and after Finish it makes none (`finishes`).
pub fn begun_laws()
    ensures moment { (config : Config) (events : List Event) (w : World) → Runs (at_start config) events w → IsMoment config events w }
    ensures numbers { (config : Config) (ledger : List Entry) (last : Bag) (rank : Rank) (r : RankState) → rank.0 < config.ranks →
        IsRun (start config) ledger last → rank_at last rank ≡ Some r → r.next ≤ begun_by config ledger last rank }
    ensures finishes { (config : Config) (ledger : List Entry) (last : Bag) (rank : Rank) (said more : List Said) →
        rank.0 < config.ranks → IsRun (start config) ledger last → calls config ledger rank ≡ said ++ finish ∷ more →
        (more ≡ []) × (pending_of last rank ≡ None) }
{}
