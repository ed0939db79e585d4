//! What a solution of a Sudoku grid is, the search tree of a grid, and the law that joins them.
//!
//! The definitions are in specs/: the plain rules in Grid, the tree in Tree, the list in Solutions.
//! Nothing here runs: each function has an empty body, and its `ensures` clauses are theorems about them.
#![tactic(auto)]

mod completeness;
mod facts;

pub use completeness::{
    conflict_leaves_no_solution, solution_nodes_are_solutions, solutions_extend_one_child,
    tree_is_complete, tree_is_its_node,
};
pub use facts::{rule_by_pairs, solution_list_is_unique, tests_are_exact, unit_adds_up};
