//! The lines of an input, one after the other.

ghost use Rattle.std.specs.Prelude.{◌≡◌, ◌∷◌, [], true, false, MatchOption};
ghost use Rattle.std.specs.Str.Lines.{strip_carriage_return};
ghost use Rattle.tour_search.specs.inside.Left.{lines_left, pieces_left};
ghost use Rattle.tour_search.specs.Lines.{lines};

use crate::pieces::Pieces;

/// The lines that are still to be read.
#[derive(Clone, Copy, Drop)]
pub(crate) struct Lines<'a> {
    pieces: Pieces<'a>,
}

impl<'a> Lines<'a> {
    /// The lines of an input.
    pub(crate) fn of(bytes: &'a [u8]) -> Lines<'a>
        ensures { lines_left result ≡ lines bytes.now }
    {
        Lines {
            pieces: Pieces::of(bytes, b'\n'),
        }
    }

    /// The next line, if there is one.
    pub(crate) fn next(&mut self) -> Option<&'a [u8]>
        ensures { MatchOption result (lines_left self.old ≡ [])
            (λ line. lines_left self.old ≡ line.now ∷ lines_left self.new) }
    {
        let piece = self.pieces.next()?;
        if is_end(piece, &self.pieces) {
            return None;
        }
        Some(without_return(piece))
    }
}

// The piece is empty and no other is to come.
fn is_end(piece: &[u8], pieces: &Pieces<'_>) -> bool
    ensures end { result ≡ true → (piece.now ≡ []) × (pieces_left pieces.now ≡ []) }
    ensures more { result ≡ false → piece.now ≡ [] → pieces_left pieces.now ≡ [] → ⊥ }
{
    piece.is_empty() && pieces.is_done()
}

// A line without the one carriage return at its end, if it has one.
fn without_return(line: &[u8]) -> &[u8]
    ensures { result.now ≡ strip_carriage_return line.now }
{
    match line {
        [.., b'\r'] => &line[..line.len() - 1],
        _ => line,
    }
}
