//! What a rank has at its end.

use sudoku_rules::KeptGrid;

/// What a rank has at its end. Puzzles, batches and the items of a batch are numbered from 1.
#[derive(Drop)]
pub struct Outcome {
    /// The solutions that it fetched and those that no server took, each with the number of its puzzle.
    pub solutions: Vec<(u32, KeptGrid)>,
    /// The puzzles of which a board that it worked met a node without budget, each once.
    pub overs: Vec<u32>,
    /// The answers that it fetched and those that no server took: the batch, the item and the value.
    pub answers: Vec<(u32, u32, u64)>,
    /// How many boards, solutions, jobs and answers it made, accepted or not.
    pub made: [u128; 4],
}
