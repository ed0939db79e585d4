//! How the values of a flow, and what the ledger enters, follow from the ledger of a run of flow programs.
//!
//! It speaks of definitions alone and has no code. `specs/Joined.antt` says what a run of flow programs is.
#![tactic(auto)]

ghost use Rattle.std.specs.Prelude.{◌≡◌, ◌<◌, ◌∷◌, ◌++◌, ℕ, List, All, true};
ghost use Rattle.adlb_unit.specs.declared.configs.Config.{Config};
ghost use Rattle.bag_ledger.specs.declared.entries.Answer.{Answer as Reply};
ghost use Rattle.bag_ledger.specs.declared.entries.Entry.{Entry};
ghost use Rattle.bag_ledger.specs.declared.entries.Said.{Said};
ghost use Rattle.bag_ledger.specs.declared.states.UnitPlace.TheVariants.{Spent};
ghost use Rattle.bag_ledger.specs.Bag.{Bag, start};
ghost use Rattle.bag_ledger.specs.Runs.{IsRun, calls};
ghost use Rattle.work_law.specs.Books.{said_of};
ghost use Rattle.work_law.specs.Work.{put_of};
ghost use Rattle.flow_law.specs.Flows.{AreDistinct};
ghost use Rattle.flow_law.specs.declared.Definition.{Definition};
ghost use Rattle.flow_law.specs.declared.Op.{Op};
ghost use Rattle.flow_app.specs.Finishing.{AreValues};
ghost use Rattle.flow_app.specs.declared.finishing.FlowOutcome.{FlowOutcome};
ghost use Rattle.flow_run_law.specs.Puts.{AreTaken, IsOfKnown};
ghost use Rattle.flow_run_law.specs.Units.{Rule, flows};
ghost use Rattle.flow_entry_law.specs.Entries.{AreAllEntered, AreEntered};
ghost use Rattle.flow_units.specs.Bodies.{forms, unit_fits};
ghost use Rattle.values_law.specs.Joined.{IsFlowsRun};

use flow_entry_law::entry_laws;

/// The joining of ledger and programs, for every configuration. Of a legal run in which each rank ran its flow
/// program and then finished. What the ranks bring are the values of their rules (`values`). The ledger enters each
/// rule once at most, by rank 0, with the values of its inputs (`entered`). Each of these was known to rank 0 in its
/// calls before (`known`). The ledger enters each rule that has a value, if no put of an answer was rejected on
/// another rank (`complete`). Each accepted unit was fetched, so no unit is left (`spent`), and each common part was
/// freed (`freed`).
pub fn value_laws()
    ensures values { (config : Config) (ledger : List Entry) (last : Bag) (flow : List Definition) (outcomes : List FlowOutcome) →
        0 < config.ranks → IsRun (start config) ledger last → IsFlowsRun config ledger flow outcomes → AreValues flow outcomes }
    ensures entered { (config : Config) (ledger : List Entry) (last : Bag) (flow : List Definition) (outcomes : List FlowOutcome) →
        0 < config.ranks → IsRun (start config) ledger last → IsFlowsRun config ledger flow outcomes →
        AreEntered (forms config.ranks) config ledger flow }
    ensures known { (config : Config) (ledger : List Entry) (last : Bag) (flow : List Definition) (outcomes : List FlowOutcome) →
        0 < config.ranks → IsRun (start config) ledger last → IsFlowsRun config ledger flow outcomes →
        (front : List Said) (s : Said) (back : List Said) (i : ℕ) (op : Op) (a b : ℕ) (x : Reply) → unit_fits (Rule i op a b) ≡ true →
        s ≡ said_of (put_of (flows (forms config.ranks)) (Rule i op a b)) x →
        calls config ledger (record { 0 = 0 }) ≡ front ++ s ∷ back → IsOfKnown (forms config.ranks) flow front i }
    ensures complete { (config : Config) (ledger : List Entry) (last : Bag) (flow : List Definition) (outcomes : List FlowOutcome) →
        0 < config.ranks → IsRun (start config) ledger last → IsFlowsRun config ledger flow outcomes →
        AreDistinct flow → AreTaken (forms config.ranks) config ledger → AreAllEntered (forms config.ranks) ledger flow }
    ensures spent { (config : Config) (ledger : List Entry) (last : Bag) (flow : List Definition) (outcomes : List FlowOutcome) →
        0 < config.ranks → IsRun (start config) ledger last → IsFlowsRun config ledger flow outcomes →
        All (λ u. u.place ≡ Spent) last.units }
    ensures freed { (config : Config) (ledger : List Entry) (last : Bag) (flow : List Definition) (outcomes : List FlowOutcome) →
        0 < config.ranks → IsRun (start config) ledger last → IsFlowsRun config ledger flow outcomes →
        All (λ p. (p.closed ≡ true) × (p.freed ≡ true)) last.parts }
{
    entry_laws();
}
