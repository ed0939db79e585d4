//! The law of the search tree: where no node is over, its solution nodes are all solutions of its grid.
//! The box side, the budget and the grid are any.

ghost use Rattle.std.specs.Prelude.{◌≡◌, ◌≢◌, ◌↔◌, ℕ, List, [], Some, None, true, false};
ghost use Rattle.std.specs.Prelude.{slice_index, slice_set, Contains, AllPairs, IsPermutation, IsSorted};
ghost use Rattle.std.specs.Cmp.Lexicographic.{slice_cmp};
ghost use Rattle.std.specs.Ordering.{nat_cmp};
ghost use Rattle.sudoku_law.specs.Grid.{Cells, IsGrid, IsSolution, IsBlank, conflict, candidates, fewest};
ghost use Rattle.sudoku_law.specs.Tree.{tree, node, is_over, solutions};
ghost use Rattle.sudoku_law.specs.Solutions.{IsSolutionList};

/// Where no node of a grid's tree is over, its solution nodes, sorted, are the grid's solution list (`law`),
/// and in any order they are its solutions (`all`).
pub fn tree_is_complete()
    ensures law { (m b : ℕ) (g : Cells) (xs : List Cells) → IsGrid m g → is_over (tree m b g) ≡ false →
        IsPermutation (solutions (tree m b g)) xs → IsSorted (slice_cmp nat_cmp) xs → IsSolutionList m g xs }
    ensures all { (m b : ℕ) (g s : Cells) → IsGrid m g → is_over (tree m b g) ≡ false →
        Contains (solutions (tree m b g)) s ↔ IsSolution m g s }
{}

/// The tree of a grid is one node, over the trees of its children with their shares of the budget.
pub fn tree_is_its_node()
    ensures law { (m b : ℕ) (g : Cells) → tree m b g ≡ node m (tree m) b g }
{}

/// Whatever the budget, each solution node of a grid's tree is a solution of the grid (`law`), and none
/// is there twice (`once`). A full grid without conflict is its own solution (`full`), and a full grid has no
/// other (`only`).
pub fn solution_nodes_are_solutions()
    ensures law { (m b : ℕ) (g s : Cells) → IsGrid m g → Contains (solutions (tree m b g)) s →
        IsSolution m g s }
    ensures once { (m b : ℕ) (g : Cells) → IsGrid m g → AllPairs (λ s t. s ≢ t) (solutions (tree m b g)) }
    ensures full { (m : ℕ) (g : Cells) → IsGrid m g → conflict m g ≡ false → fewest m g ≡ None →
        IsSolution m g g }
    ensures only { (m : ℕ) (g s : Cells) → IsGrid m g → fewest m g ≡ None → IsSolution m g s → s ≡ g }
{}

/// The chosen cell is blank (`blank`), and at a blank cell each solution of a grid extends one child. Its digit there
/// is a candidate (`candidate`), and it is a solution of the child with that digit (`extends`). The child of a
/// candidate has those solutions of the grid that have this digit at the cell (`child`), so distinct children share
/// none (`apart`).
pub fn solutions_extend_one_child()
    ensures blank { (m : ℕ) (g : Cells) (cell : ℕ) → fewest m g ≡ Some cell → IsBlank g cell }
    ensures candidate { (m : ℕ) (g s : Cells) (cell : ℕ) → IsGrid m g → IsBlank g cell → IsSolution m g s →
        Contains (candidates m g cell) (slice_index s cell) }
    ensures extends { (m : ℕ) (g s : Cells) (cell : ℕ) → IsGrid m g → IsBlank g cell → IsSolution m g s →
        IsSolution m (slice_set g cell (slice_index s cell)) s }
    ensures child { (m : ℕ) (g s : Cells) (cell d : ℕ) → IsBlank g cell → Contains (candidates m g cell) d →
        IsSolution m (slice_set g cell d) s ↔ (IsSolution m g s × (slice_index s cell ≡ d)) }
    ensures apart { (m : ℕ) (g s : Cells) (cell d e : ℕ) → IsBlank g cell →
        Contains (candidates m g cell) d → Contains (candidates m g cell) e →
        IsSolution m (slice_set g cell d) s → IsSolution m (slice_set g cell e) s → d ≡ e }
{}

/// A grid with a conflict has no solution (`conflict`), nor has one with a blank cell without candidates
/// (`blank`).
pub fn conflict_leaves_no_solution()
    ensures conflict { (m : ℕ) (g s : Cells) → IsGrid m g → conflict m g ≡ true → IsSolution m g s → ⊥ }
    ensures blank { (m : ℕ) (g s : Cells) (cell : ℕ) → IsGrid m g → IsBlank g cell →
        candidates m g cell ≡ [] → IsSolution m g s → ⊥ }
{}
