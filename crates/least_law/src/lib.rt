//! How a least tour follows from the ledger of a run of tour programs.
//!
//! It speaks of definitions alone and has no code. `specs/Joined.antt` says what a run of tour programs is.
#![tactic(auto)]

ghost use Rattle.std.specs.Prelude.{◌≡◌, ◌<◌, true, List, All};
ghost use Rattle.adlb_unit.specs.declared.configs.Config.{Config};
ghost use Rattle.bag_ledger.specs.declared.entries.Entry.{Entry};
ghost use Rattle.bag_ledger.specs.declared.states.UnitPlace.TheVariants.{Spent};
ghost use Rattle.bag_ledger.specs.Bag.{Bag, start};
ghost use Rattle.bag_ledger.specs.Runs.{IsRun};
ghost use Rattle.tour_app.specs.Found.{HoldLeast, all_found};
ghost use Rattle.tour_app.specs.Starts.{StartModel, costs};
ghost use Rattle.tour_app.specs.declared.outcomes.TourOutcome.{TourOutcome};
ghost use Rattle.least_law.specs.Joined.{IsTourRun, StartsWell};

use balance_law::balance_laws;

/// The joining of ledger and programs, for every configuration. Of a legal run in which each rank ran its tour
/// program and then finished. The outcomes together hold a least tour, and nothing but tours with their costs
/// (`least`). Each accepted unit was fetched, so no unit is left (`spent`), and the common part of the batch was
/// freed (`freed`).
pub fn joining_laws()
    ensures least { (config : Config) (ledger : List Entry) (last : Bag) (s : StartModel) (outcomes : List TourOutcome) →
        0 < config.ranks → IsRun (start config) ledger last → StartsWell s → IsTourRun config ledger s outcomes →
        HoldLeast s.cities.count (costs s) (all_found outcomes) }
    ensures spent { (config : Config) (ledger : List Entry) (last : Bag) (s : StartModel) (outcomes : List TourOutcome) →
        0 < config.ranks → IsRun (start config) ledger last → IsTourRun config ledger s outcomes →
        All (λ u. u.place ≡ Spent) last.units }
    ensures freed { (config : Config) (ledger : List Entry) (last : Bag) (s : StartModel) (outcomes : List TourOutcome) →
        0 < config.ranks → IsRun (start config) ledger last → IsTourRun config ledger s outcomes →
        All (λ p. (p.closed ≡ true) × (p.freed ≡ true)) last.parts }
{
    balance_laws();
}
