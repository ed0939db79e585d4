//! Why a made text is an accepted input, and which jobs it has.
//!
//! It speaks of definitions alone and has no code. `specs/Jobs.antt` says which jobs are made of a count and a seed.
#![tactic(auto)]

ghost use Rattle.std.specs.Prelude.{◌≡◌, ℕ, ◌+◌, ◌*◌, ◌/◌, All, None, length};
ghost use Rattle.job_report.specs.Jobs.{all_items, puzzles};
ghost use Rattle.job_text.specs.Jobs.{input_jobs, input_refused};
ghost use Rattle.made_jobs.specs.Made.{made_text, seeded};
ghost use Rattle.made_law.specs.Jobs.{made_jobs};
ghost use Rattle.made_law.specs.Solved.{IsSolvable};

use made_jobs::made_laws;

/// What a made text is as an input, for every count and seed. No line of it is refused (`accepted`), and its jobs are
/// those made of the count and the seed (`jobs`). So it has a puzzle for each that was asked for (`puzzles`), and a
/// batch for each eighth of them (`all`), of three items (`items`). Each of its puzzles has a solution (`solved`).
pub fn made_is_accepted()
    ensures accepted { (count seed : ℕ) → input_refused (made_text count seed) ≡ None }
    ensures jobs { (count seed : ℕ) → input_jobs (made_text count seed) ≡ made_jobs count (seeded seed) }
    ensures puzzles { (count seed : ℕ) → length (puzzles (input_jobs (made_text count seed))) ≡ count }
    ensures all { (count seed : ℕ) → length (input_jobs (made_text count seed)) ≡ count + count / 8 }
    ensures items { (count seed : ℕ) → all_items (input_jobs (made_text count seed)) ≡ 3 * (count / 8) }
    ensures solved { (count seed : ℕ) → All IsSolvable (puzzles (input_jobs (made_text count seed))) }
{
    made_laws();
}
