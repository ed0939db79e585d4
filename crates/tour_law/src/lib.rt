//! What a least round tour of cities is.
//!
//! It speaks of definitions alone and has no code. `specs/Tours.antt` says what a tour is, what it costs, and which is least;
//! `specs/Search.antt` has the least tour as a function, and the bound of a beginning. `tour_laws` says how they fit together.
#![tactic(auto)]

ghost use Rattle.std.specs.Prelude.{◌≡◌, ◌≤◌, ◌<◌, ◌++◌, ◌∷◌, ℕ, List};
ghost use Rattle.tour_law.specs.Beginnings.{Continues};
ghost use Rattle.tour_law.specs.Search.{IsAsGood, IsWayOut, bound, least};
ghost use Rattle.tour_law.specs.Tours.{Costs, IsLeast, IsTour, cost};

/// The best of all orders of the cities is a least tour (`least`), and there is one least tour (`one`). A tour that
/// is as good as each is least (`good`). The bound of a beginning is at most the cost of each tour that begins so
/// (`bounded`). So a tour that costs less than the bound is as good as each such tour (`cut`).
pub fn tour_laws()
    ensures least { (n : ℕ) (c : Costs) → 1 ≤ n → IsLeast n c (least n c) }
    ensures one { (n : ℕ) (c : Costs) (a b : List ℕ) → IsLeast n c a → IsLeast n c b → a ≡ b }
    ensures good { (n : ℕ) (c : Costs) (a : List ℕ) → IsTour n a → ((b : List ℕ) → IsTour n b → IsAsGood c a b) → IsLeast n c a }
    ensures bounded { (n : ℕ) (c : Costs) (out : ℕ → ℕ) (a : ℕ) (q rest : List ℕ) → 0 < n → IsWayOut n c out →
        IsTour n (0 ∷ a ∷ (q ++ rest)) → bound n c out a q ≤ cost c (0 ∷ a ∷ (q ++ rest)) }
    ensures cut { (n : ℕ) (c : Costs) (out : ℕ → ℕ) (a : ℕ) (q known : List ℕ) → 0 < n → IsWayOut n c out →
        cost c known < bound n c out a q → (tour : List ℕ) → IsTour n tour → Continues (0 ∷ a ∷ q) tour → IsAsGood c known tour }
{}
