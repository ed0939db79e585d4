//! The pieces of bytes that are cut at each byte of one kind.

ghost use Rattle.std.specs.Prelude.{◌≡◌, ◌==◌, ◌∷◌, [], position, true, false, MatchOption};
ghost use Rattle.std.specs.List.{slice_split};
ghost use Rattle.tour_search.specs.inside.Left.{CutsAt, pieces_left};

/// The pieces that are still to come: those of the rest, or none if the last piece came.
#[derive(Clone, Copy, Drop)]
pub(crate) struct Pieces<'a> {
    rest: Option<&'a [u8]>,
    at: u8,
}

impl<'a> Pieces<'a> {
    /// The pieces of these bytes, cut at each byte of this kind.
    pub(crate) fn of(bytes: &'a [u8], at: u8) -> Pieces<'a>
        ensures pieces { pieces_left result ≡ slice_split (λ byte. byte == at) bytes.now }
        ensures at { result.at ≡ at }
    {
        Pieces {
            rest: Some(bytes),
            at,
        }
    }

    /// The next piece, if there is one.
    pub(crate) fn next(&mut self) -> Option<&'a [u8]>
        ensures { MatchOption result (pieces_left self.old ≡ [])
            (λ piece. pieces_left self.old ≡ piece.now ∷ pieces_left self.new) }
    {
        let text = self.rest?;
        match cut(text, self.at) {
            Some((piece, rest)) => {
                self.rest = Some(rest);
                Some(piece)
            }
            None => {
                self.rest = None;
                Some(text)
            }
        }
    }

    /// No piece is to come.
    pub(crate) fn is_done(&self) -> bool
        ensures done { result ≡ true → pieces_left self.now ≡ [] }
        ensures more { result ≡ false → pieces_left self.now ≡ [] → ⊥ }
    {
        match self.rest {
            None => true,
            Some(_) => false,
        }
    }
}

// What comes before the first of these bytes, and what follows it, if there is one.
fn cut(bytes: &[u8], at: u8) -> Option<(&[u8], &[u8])>
    ensures { CutsAt (λ byte. byte == at) bytes.now result }
{
    match place_of(bytes, at) {
        Some(place) => Some((&bytes[..place], &bytes[place + 1..])),
        None => None,
    }
}

// The place of the first of these bytes, if there is one.
fn place_of(bytes: &[u8], at: u8) -> Option<usize>
    ensures { result ≡ position (λ byte. byte == at) bytes.now }
{
    bytes.iter().position(|byte| *byte == at)
}
