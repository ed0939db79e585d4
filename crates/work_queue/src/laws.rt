//! The definitions of the queue, and that they fit together.

ghost use Rattle.std.specs.Prelude.{◌≡◌, ◌↔◌, ℕ, Any, List, Option, Some, None};
ghost use Rattle.adlb_unit.specs.declared.names.Rank.{Rank};
ghost use Rattle.adlb_unit.specs.declared.names.UnitId.{UnitId};
ghost use Rattle.adlb_unit.specs.declared.names.WorkType.{WorkType};
ghost use Rattle.work_queue.specs.Best.{IsBest, IsOffered, best_of};
ghost use Rattle.work_queue.specs.Fits.{IsAsked, IsFirstFit, first_fit};
ghost use Rattle.work_queue.specs.Push.{IsFirstToPush, IsMovable, first_to_push_of};
ghost use Rattle.work_queue.specs.declared.placing.Placed.{Placed};

/// What going over a list of units gives (`best_of`, `first_to_push_of`, `first_fit`) is the one unit that comes
/// first (`IsBest`, `IsFirstToPush`, `IsFirstFit`). It gives `None` exactly when no unit is offered (`IsOffered`),
/// may be pushed (`IsMovable`) or is asked (`IsAsked`).
pub fn queue_laws()
    ensures best { (rank : Rank) (types : Option (List WorkType)) (units : List Placed) (id : UnitId) →
        (best_of rank types units ≡ Some id) ↔ IsBest rank types units id }
    ensures no_best { (rank : Rank) (types : Option (List WorkType)) (units : List Placed) →
        (best_of rank types units ≡ None) ↔ (¬ Any (IsOffered rank types) units) }
    ensures push { (units : List Placed) (is : UnitId × ℕ) →
        (first_to_push_of units ≡ Some is) ↔ IsFirstToPush units is }
    ensures no_push { (units : List Placed) →
        (first_to_push_of units ≡ None) ↔ (¬ Any IsMovable units) }
    ensures fit { (asked : List (Rank × Option (List WorkType))) (units : List Placed) (id : UnitId) →
        (first_fit asked units ≡ Some id) ↔ IsFirstFit asked units id }
    ensures no_fit { (asked : List (Rank × Option (List WorkType))) (units : List Placed) →
        (first_fit asked units ≡ None) ↔ (¬ Any (IsAsked asked) units) }
{}
