//! What holds of every made text.

ghost use Rattle.std.specs.Prelude.{◌≡◌, ◌≤◌, ℕ, ◌+◌, ◌*◌, ◌/◌, ◌^◌, length};
ghost use Rattle.rand_pcg.specs.Lcg.{Lcg};
ghost use Rattle.made_jobs.specs.Made.{made_text, puzzle};
ghost use Rattle.made_jobs.specs.Signs.{IsPuzzle, filled};

/// What the made texts are like. A puzzle has 81 signs, each a dot or a digit from 1 to 9, and at least 41 of them are digits.
/// A text has 82 bytes for each puzzle and 108 for each batch, so one of at most 100,000 puzzles has at most 2^24.
pub fn made_laws()
    ensures puzzles { (generator : Lcg) → IsPuzzle (puzzle generator).0 }
    ensures filled { (generator : Lcg) → 41 ≤ filled (puzzle generator).0 }
    ensures long { (count seed : ℕ) → length (made_text count seed) ≡ 82 * count + 108 * (count / 8) }
    ensures short { (count seed : ℕ) → count ≤ 100000 → length (made_text count seed) ≤ 2 ^ 24 }
{}
