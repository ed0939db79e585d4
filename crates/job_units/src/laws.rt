//! How bodies, puts, fetches and work fit together.

ghost use Rattle.std.specs.Prelude.{◌≡◌, ◌<◌, ◌^◌, ◌++◌, ◌∷◌, [], ℕ, List, length, Some, All};
ghost use Rattle.adlb_unit.specs.declared.names.Target.{Target};
ghost use Rattle.adlb_unit.specs.declared.notes.UnitNote.{UnitNote};
ghost use Rattle.bag_ledger.specs.declared.entries.Call.{Call};
ghost use Rattle.job_units.specs.Bodies.{body_of};
ghost use Rattle.job_units.specs.Forms.{IsAnswer, IsBoard, IsJob, IsUnit};
ghost use Rattle.job_units.specs.Puts.{counts, kind_of, put_of};
ghost use Rattle.job_units.specs.Reading.{common_bytes, fetched};
ghost use Rattle.job_units.specs.Works.{answer_of, made_by, walk_of};
ghost use Rattle.job_units.specs.declared.boards.Board.{Board};
ghost use Rattle.job_units.specs.declared.jobs.Job.{Job};
ghost use Rattle.job_units.specs.declared.units.Made.{Made};

/// A unit that was put is read back from its fetch, and the common bytes are those before its body (`back`, `common`).
/// What is read of a fetch has the form of a unit (`form`). The work type and the body tell a unit (`one`). What the work
/// on a board makes has the form of units, and is as many boards and solutions as it meets (`made`, `counted`). The answer
/// of a job has the form of one if the common bytes are bytes, and fewer than 2^56 (`answer`).
pub fn unit_laws()
    ensures back { (unit : Made) (note : UnitNote) (target : Target) (body common : List ℕ) → IsUnit unit →
        put_of unit ≡ Call.Put note.kind note.prio target note.answer body → note.length ≡ length body →
        fetched note (common ++ body) ≡ Some unit }
    ensures common { (common body : List ℕ) (long : ℕ) → long ≡ length body → common_bytes long (common ++ body) ≡ common }
    ensures form { (note : UnitNote) (bytes : List ℕ) (unit : Made) → fetched note bytes ≡ Some unit → IsUnit unit }
    ensures one { (x y : Made) → IsUnit x → IsUnit y → kind_of x ≡ kind_of y → body_of x ≡ body_of y → x ≡ y }
    ensures made { (grain : ℕ) (b : Board) → IsBoard b → All IsUnit (made_by grain b) }
    ensures counted { (grain : ℕ) (b : Board) →
        counts (made_by grain b) ≡ length (walk_of grain b).children ∷ length (walk_of grain b).solutions ∷ 0 ∷ 0 ∷ [] }
    ensures answer { (common : List ℕ) (j : Job) → IsJob j → All (λ byte. byte < 256) common → length common < 2 ^ 56 →
        IsAnswer (answer_of common j) }
{}
