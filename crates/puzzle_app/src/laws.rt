//! What the relation of the program's calls says of each rank's transcript, from the start or from any books.

ghost use Rattle.std.specs.Prelude.{◌≡◌, ◌++◌, ◌∷◌, [], ℕ, List, Option, Some, None, true, false, is_some, map, All, IsPermutation};
ghost use Rattle.adlb_unit.specs.declared.names.WorkType.{WorkType};
ghost use Rattle.adlb_unit.specs.declared.notes.UnitNote.{UnitNote};
ghost use Rattle.bag_ledger.specs.declared.entries.Call.{Call};
ghost use Rattle.bag_ledger.specs.declared.entries.Said.{Said};
ghost use Rattle.job_units.specs.Puts.{put_of};
ghost use Rattle.job_units.specs.declared.jobs.Job.{Job};
ghost use Rattle.rank_client.specs.Calls.{end_told, has_finished, is_open};
ghost use Rattle.puzzle_app.specs.Books.{Books, Goes, Moves};
ghost use Rattle.puzzle_app.specs.Follows.{IsSoFar, start_of};
ghost use Rattle.puzzle_app.specs.Working.{all_made, tasks_of};
ghost use Rattle.puzzle_app.specs.Tasks.{Begin, Task, all_units};
ghost use Rattle.puzzle_app.specs.Transcripts.{all_come, all_refused, batches_in, came_calls, is_own, is_within, note_of, puts};
ghost use Rattle.puzzle_app.specs.declared.program.PuzzleProgram.{PuzzleProgram};

/// What a rank's calls add up to. What was put, what is still to be put, and the jobs of the batches that no server
/// took are, as a permutation, what the program makes. It makes units of its jobs, and by the work on each unit that
/// came to it (`puts`). The units that came to it are in order those that no server took, those that it fetched, and
/// the jobs of the batches that no server took (`came`).
pub fn calls_add_up()
    ensures puts { (p : PuzzleProgram) (said : List Said) (last : Books) →
        Goes p.settings.grain (start_of p) said last →
        IsPermutation (map put_of (all_made p last.came))
        (puts said ++ map put_of (all_units last.tasks ++ all_refused (batches_in (tasks_of p)) said)) }
    ensures came { (p : PuzzleProgram) (said : List Said) (last : Books) →
        Goes p.settings.grain (start_of p) said last →
        all_come None (batches_in (tasks_of p)) said ≡ came_calls last.came }
{}

/// How a rank's calls go on. They are no other calls than puts, reservations, fetches, and beginnings and ends of
/// batches (`own`), and Finish is not among them (`running`). Each call agrees with its books (`each`), and the calls
/// before it are such calls too (`front`). A reservation is of any type, and comes only when nothing is to be done, no
/// batch goes on and nothing is held (`reserves`). Exactly the unit that a call grants is held after it (`grants`), and
/// when one is held the next call is its fetch (`fetches`). A batch begins with its first task and when none goes on
/// (`begins`). While one goes on, jobs and answers are put, and it is ended (`within`). The books tell whether one goes
/// on as the transcript does (`going_on`). After an end only the batch that goes on is ended (`last`), and the books
/// are shut exactly when the transcript tells one (`told`).
pub fn calls_in_order()
    ensures own { (p : PuzzleProgram) (said : List Said) → IsSoFar p said →
        All (λ (s : Said). is_own s.call ≡ true) said }
    ensures running { (p : PuzzleProgram) (said : List Said) → IsSoFar p said → has_finished said ≡ false }
    ensures front { (p : PuzzleProgram) (said more : List Said) → IsSoFar p (said ++ more) → IsSoFar p said }
    ensures each { (grain : ℕ) (b : Books) (said : List Said) (s : Said) (more : List Said) (last : Books) →
        Goes grain b (said ++ s ∷ more) last →
        (mid : Books) × (next : Books) × Goes grain b said mid × Moves grain mid s next × Goes grain next more last }
    ensures reserves { (grain : ℕ) (b next : Books) (s : Said) (types : Option (List WorkType)) →
        Moves grain b s next → s.call ≡ Call.Reserve types →
        (types ≡ None) × (b.tasks ≡ []) × (b.on ≡ None) × (b.held ≡ None) }
    ensures grants { (grain : ℕ) (b next : Books) (s : Said) → Moves grain b s next → next.held ≡ note_of s.answer }
    ensures fetches { (grain : ℕ) (b next : Books) (s : Said) (note : UnitNote) → Moves grain b s next →
        b.held ≡ Some note → s.call ≡ Call.Fetch note.id }
    ensures begins { (grain : ℕ) (b next : Books) (s : Said) (common : List ℕ) → Moves grain b s next →
        s.call ≡ Call.BeginBatch common →
        (jobs : List Job) × (rest : List Task) × (b.tasks ≡ Begin common jobs ∷ rest) × (b.on ≡ None) }
    ensures within { (p : PuzzleProgram) (said : List Said) (mid next : Books) (s : Said) (common : List ℕ) →
        Goes p.settings.grain (start_of p) said mid →
        Moves p.settings.grain mid s next → mid.on ≡ Some common → is_within s.call ≡ true }
    ensures going_on { (p : PuzzleProgram) (said : List Said) (last : Books) →
        Goes p.settings.grain (start_of p) said last →
        is_open said ≡ is_some last.on }
    ensures last { (grain : ℕ) (b next : Books) (s : Said) → Moves grain b s next → b.ended ≡ true →
        (s.call ≡ Call.EndBatch) × (is_some b.on ≡ true) × (next.ended ≡ true) }
    ensures told { (p : PuzzleProgram) (said : List Said) (last : Books) →
        Goes p.settings.grain (start_of p) said last →
        is_some (end_told said) ≡ last.ended }
{}
