//! The text of a grid in a body.

ghost use Rattle.std.specs.Prelude.{◌≡◌, ◌↔◌, ℕ, List, Some, IfSome};
ghost use Rattle.sudoku_law.specs.Text.{text_of};
ghost use Rattle.sudoku_rules.specs.Sides.{IsSudoku};

use sudoku_rules::{Grid, parse_grid};

/// The grid whose text this is, if any. Blank cells are zeros there, so a text with a dot has none.
pub fn grid_of(text: &[u8]) -> Option<Grid>
    ensures exact { (g : List ℕ) → IsSudoku g → (result ≡ Some g) ↔ (text.now ≡ text_of g) }
    ensures some { IfSome result (λ g. text.now ≡ text_of g) }
    ensures grid { IfSome result IsSudoku }
{
    let grid = parse_grid(text).ok()?;
    if grid.text().as_slice() == text {
        Some(grid)
    } else {
        None
    }
}
