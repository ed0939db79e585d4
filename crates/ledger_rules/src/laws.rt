//! What the table says of the bag's steps.

ghost use Rattle.std.specs.Prelude.{◌≡◌, ◌↔◌, None};
ghost use Rattle.bag_ledger.specs.declared.entries.Entry.{Entry};
ghost use Rattle.bag_ledger.specs.Bag.{Bag};
ghost use Rattle.bag_ledger.specs.Step.{step};
ghost use Rattle.bag_ledger.specs.Steps.{after};
ghost use Rattle.ledger_rules.specs.Table.{broken, rules_of};

/// The table says the same as the bag's steps: an entry is a step exactly if the bag meets all its rules.
pub fn rule_laws()
    ensures { (b : Bag) (e : Entry) → (broken b (rules_of e) ≡ None) ↔ (step b e ≡ Some (after b e)) }
{}
