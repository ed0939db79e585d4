//! What is between marks: the lines of an input, and the words of a line.

ghost use Rattle.std.specs.Prelude.{◌≡◌, ◌==◌, ◌+◌, ◌<◌, ◌∷◌, [], ⊤, length, position, MatchOption};
ghost use Rattle.std.specs.List.{slice_split};
ghost use Rattle.std.specs.Str.Lines.{strip_carriage_return};
ghost use Rattle.flow_app.specs.Kinds.{is_mark};
ghost use Rattle.flow_app.specs.inside.Left.{parts_left, room_left};

/// The parts that are still to be read: those of the rest, or none if the last part was read.
#[derive(Clone, Copy, Drop)]
pub(crate) struct Parts<'a> {
    mark: u8,
    rest: Option<&'a [u8]>,
}

impl<'a> Parts<'a> {
    /// The parts of the bytes between these marks.
    pub(crate) fn of(bytes: &'a [u8], mark: u8) -> Parts<'a>
        ensures parts { parts_left result ≡ slice_split (is_mark mark) bytes.now }
        ensures room { room_left result ≡ length bytes.now + 1 }
    {
        Parts {
            mark,
            rest: Some(bytes),
        }
    }

    /// The next part, if there is one.
    pub(crate) fn next(&mut self) -> Option<&'a [u8]>
        ensures part { MatchOption result (parts_left self.old ≡ [])
            (λ part. parts_left self.old ≡ part.now ∷ parts_left self.new) }
        ensures room { MatchOption result ⊤ (λ part. room_left self.new < room_left self.old) }
    {
        let text = self.rest?;
        match place_of(text, self.mark) {
            Some(place) => {
                self.rest = Some(&text[place + 1..]);
                Some(&text[..place])
            }
            None => {
                self.rest = None;
                Some(text)
            }
        }
    }
}

// The place of the first mark, if there is one.
fn place_of(bytes: &[u8], mark: u8) -> Option<usize>
    ensures { result ≡ position (is_mark mark) bytes.now }
{
    bytes.iter().position(|byte| *byte == mark)
}

/// A line without the one carriage return at its end, if it has one.
pub(crate) fn without_return(line: &[u8]) -> &[u8]
    ensures { result.now ≡ strip_carriage_return line.now }
{
    match line {
        [.., b'\r'] => &line[..line.len() - 1],
        _ => line,
    }
}
