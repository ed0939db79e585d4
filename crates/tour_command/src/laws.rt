//! What follows from how a run over cities ends.

ghost use Rattle.std.specs.Prelude.{◌≡◌, ◌⊎◌, ◌≤◌, ◌<◌, ◌+◌, ℕ, List, Option, Some, Ok, Err, length};
ghost use Rattle.adlb_io.specs.Outside.{Rises};
ghost use Rattle.run_command.specs.Ends.{IsFine, Scene, input_limit};
ghost use Rattle.run_command.specs.declared.faults.Fault.{Fault};
ghost use Rattle.run_command.specs.Kept.{Kept};
ghost use Rattle.tour_app.specs.declared.outcomes.TourOutcome.{TourOutcome};
ghost use Rattle.tour_command.specs.Ends.{EndsWith};
ghost use Rattle.tour_command.specs.Tours.{TellsLeast};
ghost use Rattle.tour_search.specs.Cities.{CitiesModel};
ghost use Rattle.tour_search.specs.Reading.{input_cities};
ghost use Rattle.tour_search.specs.declared.faults.CitiesWhy.{CitiesWhy};

/// What follows of a source that tells its bytes, if no read failed. An accepted input is answered, if no write failed and no start was
/// refused either (`complete`). A refused one is refused at its first such line (`refused`). One that is too long is told as such
/// (`overlong`). Memory may fail each time. Besides, only the stamps can end. Cities have one text (`one_text`).
pub fn city_laws()
    ensures complete { (before after : Scene) (fault : Option (Fault CitiesWhy)) (kept : Option (Kept TourOutcome)) (bytes : List ℕ) →
        EndsWith before after fault kept → before.left ≡ Some bytes → (Rises before.reads after.reads → ⊥) →
        (cities : CitiesModel) → length bytes ≤ input_limit → input_cities bytes ≡ Ok cities →
        (Rises before.writes after.writes → ⊥) → (Rises before.refused after.refused → ⊥) → IsFine fault }
    ensures refused { (before after : Scene) (fault : Option (Fault CitiesWhy)) (kept : Option (Kept TourOutcome)) (bytes : List ℕ) →
        EndsWith before after fault kept → before.left ≡ Some bytes → (Rises before.reads after.reads → ⊥) →
        (line : ℕ) (why : CitiesWhy) → length bytes ≤ input_limit → input_cities bytes ≡ Err (line, why) →
        (fault ≡ Some (Fault.Input line why)) ⊎ (fault ≡ Some Fault.Memory) }
    ensures overlong { (before after : Scene) (fault : Option (Fault CitiesWhy)) (kept : Option (Kept TourOutcome)) (bytes : List ℕ) →
        EndsWith before after fault kept → before.left ≡ Some bytes → (Rises before.reads after.reads → ⊥) →
        input_limit < length bytes → (fault ≡ Some (Fault.TooLarge (input_limit + 1))) ⊎ (fault ≡ Some Fault.Memory) }
    ensures one_text { (cities : CitiesModel) (one other : List ℕ) → TellsLeast cities one → TellsLeast cities other → one ≡ other }
{}
