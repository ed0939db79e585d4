//! What every legal run conserves. In a run of orderly ranks, which may put in batches, each unit that was put is fetched once, each
//! common part is freed, and nothing is left. What was got was sent before, and what is put for one rank alone is got by that rank.
//!
//! It speaks of definitions alone and has no code. `specs/Parcels.antt` says what the calls of a rank send and get,
//! and `specs/Orderly.antt` which ranks are orderly. `specs/Balanced.antt` says what is so at the end, and
//! `specs/Ways.antt` where what ranks get comes from.
#![tactic(auto)]

ghost use Rattle.std.specs.Prelude.{◌<◌, ℕ, List, ◌++◌};
ghost use Rattle.adlb_unit.specs.declared.configs.Config.{Config};
ghost use Rattle.adlb_unit.specs.declared.names.Rank.{Rank};
ghost use Rattle.bag_ledger.specs.declared.entries.Entry.{Entry};
ghost use Rattle.bag_ledger.specs.Bag.{Bag, start};
ghost use Rattle.bag_ledger.specs.Runs.{IsRun};
ghost use Rattle.balance_law.specs.Balanced.{AreOrderly, IsBalanced};
ghost use Rattle.balance_law.specs.Ways.{AreAimed, IsCaused, IsGotBy};

/// In a legal run, for every configuration, in which each rank is orderly and has finished. Each accepted unit was fetched, once,
/// and whoever fetched it got what was put, with the common bytes of its batch. Each common part that was kept was closed and
/// freed. No put and no beginning of a batch was told an end, and each rank was told, at a reserve, that all work is used up. In
/// each front of the ledger what was got was sent in that front. If each put of a work type is for one rank alone, no other rank
/// gets a unit of it.
pub fn balance_laws()
    ensures balanced { (config : Config) (ledger : List Entry) (last : Bag) →
        0 < config.ranks → IsRun (start config) ledger last → AreOrderly config ledger → IsBalanced config ledger last }
    ensures caused { (config : Config) (front back : List Entry) (last : Bag) →
        0 < config.ranks → IsRun (start config) (front ++ back) last → AreOrderly config (front ++ back) → IsCaused config front }
    ensures aimed { (config : Config) (ledger : List Entry) (last : Bag) →
        0 < config.ranks → IsRun (start config) ledger last → AreOrderly config ledger →
        (kind : ℕ) (rank : Rank) → AreAimed config ledger kind rank → IsGotBy config ledger kind rank }
{}
