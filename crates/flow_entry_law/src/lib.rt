//! Which rules the ledger of a run of flow programs enters.
//!
//! It speaks of definitions alone and has no code. `specs/Entries.antt` says what is entered.
#![tactic(auto)]

ghost use Rattle.std.specs.Prelude.{◌<◌, List};
ghost use Rattle.adlb_unit.specs.declared.configs.Config.{Config};
ghost use Rattle.bag_ledger.specs.declared.entries.Entry.{Entry};
ghost use Rattle.bag_ledger.specs.Bag.{Bag, start};
ghost use Rattle.bag_ledger.specs.Runs.{IsRun};
ghost use Rattle.flow_law.specs.Flows.{AreDistinct};
ghost use Rattle.flow_law.specs.declared.Definition.{Definition};
ghost use Rattle.flow_run_law.specs.Puts.{AreTaken, IsFlowRun};
ghost use Rattle.flow_run_law.specs.Units.{AreForms, Forms, HasTypes};
ghost use Rattle.flow_entry_law.specs.Entries.{AreAllEntered, AreEntered};

/// Of a legal run in which each rank ran the flow program and then finished. The ledger enters each rule once at
/// most, by rank 0, with the values of its inputs. It enters each rule that has a value, if no put of an answer was
/// rejected on another rank.
pub fn entry_laws()
    ensures entered { (F : Forms) (config : Config) (ledger : List Entry) → 0 < config.ranks → AreForms config.ranks F →
        (flow : List Definition) → IsFlowRun F config ledger flow → (last : Bag) → IsRun (start config) ledger last →
        AreEntered F config ledger flow }
    ensures complete { (F : Forms) (config : Config) (ledger : List Entry) → 0 < config.ranks → AreForms config.ranks F →
        (flow : List Definition) → IsFlowRun F config ledger flow → (last : Bag) → IsRun (start config) ledger last →
        HasTypes F → AreDistinct flow → AreTaken F config ledger → AreAllEntered F ledger flow }
{}
