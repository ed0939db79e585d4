//! How many calls the ranks of a run of flow programs begin.

ghost use Rattle.std.specs.Prelude.{◌≡◌, ◌≤◌, ◌++◌, List, Some, length};
ghost use Rattle.adlb_unit.specs.declared.configs.Config.{Config};
ghost use Rattle.bag_ledger.specs.declared.entries.Entry.{Entry};
ghost use Rattle.bag_ledger.specs.declared.entries.Said.{Said};
ghost use Rattle.bag_ledger.specs.Bag.{Bag, start};
ghost use Rattle.bag_ledger.specs.Runs.{IsRun, calls};
ghost use Rattle.cover_law.specs.Begun.{all_begun};
ghost use Rattle.flow_law.specs.declared.Definition.{Definition};
ghost use Rattle.flow_run_law.specs.Desk.{Desk, Goes, at_start};
ghost use Rattle.flow_run_law.specs.Units.{AreForms, Forms};
ghost use Rattle.flow_bound_law.specs.Most.{most_calls};
ghost use Rattle.flow_bound_law.specs.UnderWay.{AreUnderWay};

/// In a legal run of every configuration, finished or not, in which each rank runs the flow program. All ranks together have begun at
/// most `8 * d + 2 * R` calls, Finish among them: the flow has `d` rules, and there are `R` ranks (`begun`, `most_calls`). Of a run of
/// one rank the calls of its program that it has heard are no more either, whatever the ledger tells beyond them (`heard`).
pub fn flow_bound_laws()
    ensures begun { (F : Forms) (config : Config) (ledger : List Entry) (last : Bag) (flow : List Definition) →
        AreForms config.ranks F → IsRun (start config) ledger last → AreUnderWay F config ledger last flow →
        all_begun config ledger last ≤ most_calls config.ranks flow }
    ensures heard { (F : Forms) (config : Config) (ledger : List Entry) (last : Bag) (flow : List Definition) (said more : List Said) →
        AreForms config.ranks F → IsRun (start config) ledger last → config.ranks ≡ 1 →
        (desk : Desk) → Goes F (Some flow) at_start said desk → calls config ledger (record { 0 = 0 }) ≡ said ++ more →
        length said ≤ most_calls 1 flow }
{}
