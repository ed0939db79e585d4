//! What is left at the end of a run.

ghost use Rattle.std.specs.Prelude.{◌≡◌, List, [], All};
ghost use Rattle.bag_ledger.specs.declared.states.UnitPlace.TheVariants.{Spent};
ghost use Rattle.bag_ledger.specs.Bag.{Bag};
ghost use Rattle.core_inline.specs.Left.{IsLeft};
ghost use Rattle.server_core.specs.declared.states.LeftUnit.{LeftUnit};

/// Where each accepted unit was fetched, nothing is left.
pub fn left_laws()
    ensures { (last : Bag) (left : List LeftUnit) → All (λ u. u.place ≡ Spent) last.units → IsLeft last left → left ≡ [] }
{}
