//! Laws of the definitions: the two forms of the rules, the one list of solutions, the tests on a grid, and
//! what one unit of work takes of a tree. The box side, the budget, the grain and the grid are any.

ghost use Rattle.std.specs.Prelude.{◌≡◌, ◌<◌, ◌≤◌, ◌*◌, ◌↔◌, ◌||◌, ◌++◌, ℕ, List, Some, None, true};
ghost use Rattle.std.specs.Prelude.{All, IsPermutation};
ghost use Rattle.std.specs.List.{flat_map, list_any, sum_by};
ghost use Rattle.sudoku_law.specs.Grid.{Cells, side, IsGrid, IsSolution, IsBlank, IsFewest, HasConflict};
ghost use Rattle.sudoku_law.specs.Grid.{conflict, fewest};
ghost use Rattle.sudoku_law.specs.Pairs.{IsSolutionByPairs};
ghost use Rattle.sudoku_law.specs.Solutions.{IsSolutionList};
ghost use Rattle.sudoku_law.specs.Tree.{tree, walk, solutions, is_over, handed, boards};

/// The literal rules say: each digit is in exactly one cell of every row, column and box. The rules by pairs say: no
/// two cells of a row, column or box have the same digit. Both have the same solutions.
pub fn rule_by_pairs()
    ensures law { (m : ℕ) (g s : Cells) → IsSolution m g s ↔ IsSolutionByPairs m g s }
{}

/// A grid has at most one list of solutions.
pub fn solution_list_is_unique()
    ensures unique { (m : ℕ) (g : Cells) (xs ys : List Cells) →
        IsSolutionList m g xs → IsSolutionList m g ys → xs ≡ ys }
{}

/// The tests on a grid say what their definitions say. They are that it has a conflict (`conflict`), which of its
/// blank cells is the first with the fewest candidates (`fewest`), and that no cell is blank (`full`).
pub fn tests_are_exact()
    ensures conflict { (m : ℕ) (g : Cells) → (conflict m g ≡ true) ↔ HasConflict m g }
    ensures fewest { (m : ℕ) (g : Cells) (cell : ℕ) → (fewest m g ≡ Some cell) ↔ IsFewest m g cell }
    ensures full { (m : ℕ) (g : Cells) → (fewest m g ≡ None) ↔ ((cell : ℕ) → IsBlank g cell → ⊥) }
{}

/// What one unit meets, and what the trees of the boards that it hands out have, are together the whole tree's. This
/// holds of the solution nodes (`nodes`), the boards (`boards`), and whether a node is over (`over`). Each board that
/// it hands out is a grid with a lower budget (`children`), and its solution nodes are grids (`grids`). No tree hands
/// out more boards than the greatest digit times its budget (`bound`).
pub fn unit_adds_up()
    ensures nodes { (m grain b : ℕ) (g : Cells) → IsPermutation (solutions (tree m b g))
        ((walk grain (tree m b g)).solutions
        ++ flat_map (λ c. solutions (tree m c.0 c.1)) (walk grain (tree m b g)).children) }
    ensures boards { (m grain b : ℕ) (g : Cells) → handed grain (tree m b g)
        ≡ sum_by (λ c. boards grain (tree m c.0 c.1)) (walk grain (tree m b g)).children }
    ensures over { (m grain b : ℕ) (g : Cells) → is_over (tree m b g)
        ≡ ((walk grain (tree m b g)).over
        || list_any (λ c. is_over (tree m c.0 c.1)) (walk grain (tree m b g)).children) }
    ensures children { (m grain b : ℕ) (g : Cells) → IsGrid m g →
        All (λ c. IsGrid m c.1 × (c.0 < b)) (walk grain (tree m b g)).children }
    ensures grids { (m grain b : ℕ) (g : Cells) → IsGrid m g →
        All (IsGrid m) (walk grain (tree m b g)).solutions }
    ensures bound { (m grain b : ℕ) (g : Cells) → handed grain (tree m b g) ≤ side m * b }
{}
