//! What follows from how a run over puzzles and batches ends.

ghost use Rattle.std.specs.Prelude.{◌≡◌, ◌⊎◌, ◌≤◌, ◌<◌, ◌+◌, ◌^◌, ℕ, List, Option, Some, None, length};
ghost use Rattle.adlb_io.specs.Outside.{Rises};
ghost use Rattle.run_command.specs.Reports.{Reported};
ghost use Rattle.job_report.specs.declared.outcomes.Outcome.{Outcome};
ghost use Rattle.job_text.specs.declared.faults.LineWhy.{LineWhy};
ghost use Rattle.job_text.specs.Jobs.{input_jobs, input_refused};
ghost use Rattle.puzzle_app.specs.declared.outcomes.Settings.{Settings};
ghost use Rattle.run_command.specs.Ends.{IsFine, Scene, input_limit};
ghost use Rattle.run_command.specs.declared.faults.Fault.{Fault};
ghost use Rattle.run_command.specs.Kept.{Kept};
ghost use Rattle.solve_command.specs.Ends.{EndsWith};
ghost use Rattle.solve_report.specs.Told.{IsTold};
ghost use Rattle.solve_report.specs.declared.wanted.Wanted.{Wanted};
ghost use Rattle.spending_law.specs.Most.{most_calls};

/// What follows of a source that tells its bytes, if no read failed, for any settings, whatever is wanted of it. An accepted input is
/// answered, if no write failed and no start was refused either (`complete`). A refused one is refused at its first such line (`refused`).
/// One that is too long is told as such (`overlong`). Memory may fail each time. Besides, only the stamps can end, and only if all ranks
/// together may begin 2^34 calls for the jobs (`short`).
pub fn puzzle_laws()
    ensures complete { (settings : Settings) (ranks : ℕ) (wanted : Wanted (Reported Outcome → List ℕ)) (before after : Scene) (fault : Option (Fault LineWhy))
        (kept : Option (Kept Outcome)) (bytes : List ℕ) →
        EndsWith settings ranks (IsTold (λ tail. tail) settings wanted) before after fault kept → before.left ≡ Some bytes → (Rises before.reads after.reads → ⊥) →
        length bytes ≤ input_limit → input_refused bytes ≡ None →
        (Rises before.writes after.writes → ⊥) → (Rises before.refused after.refused → ⊥) → IsFine fault }
    ensures refused { (settings : Settings) (ranks : ℕ) (wanted : Wanted (Reported Outcome → List ℕ)) (before after : Scene) (fault : Option (Fault LineWhy))
        (kept : Option (Kept Outcome)) (bytes : List ℕ) →
        EndsWith settings ranks (IsTold (λ tail. tail) settings wanted) before after fault kept → before.left ≡ Some bytes → (Rises before.reads after.reads → ⊥) →
        (line : ℕ) (why : LineWhy) → length bytes ≤ input_limit → input_refused bytes ≡ Some (line, why) →
        (fault ≡ Some (Fault.Input line why)) ⊎ (fault ≡ Some Fault.Memory) }
    ensures overlong { (settings : Settings) (ranks : ℕ) (wanted : Wanted (Reported Outcome → List ℕ)) (before after : Scene) (fault : Option (Fault LineWhy))
        (kept : Option (Kept Outcome)) (bytes : List ℕ) →
        EndsWith settings ranks (IsTold (λ tail. tail) settings wanted) before after fault kept → before.left ≡ Some bytes → (Rises before.reads after.reads → ⊥) →
        input_limit < length bytes → (fault ≡ Some (Fault.TooLarge (input_limit + 1))) ⊎ (fault ≡ Some Fault.Memory) }
    ensures short { (settings : Settings) (ranks : ℕ) (wanted : Wanted (Reported Outcome → List ℕ)) (before after : Scene) (fault : Option (Fault LineWhy))
        (kept : Option (Kept Outcome)) (bytes : List ℕ) →
        EndsWith settings ranks (IsTold (λ tail. tail) settings wanted) before after fault kept → before.left ≡ Some bytes →
        most_calls settings.budget settings.grain ranks (input_jobs bytes) < 2 ^ 34 →
        IsFine fault → (fault ≡ None) ⊎ (fault ≡ Some Fault.Memory) }
{}
