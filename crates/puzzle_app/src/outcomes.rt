//! How puzzles are worked.

/// How puzzles are worked: the budget of each puzzle's tree, and the grain, the greatest budget of a board that is
/// worked whole.
#[derive(Clone, Copy)]
pub struct Settings {
    pub budget: u64,
    pub grain: u64,
}
