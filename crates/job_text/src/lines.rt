//! The lines of an input, one after the other.

ghost use Rattle.std.specs.Prelude.{◌≡◌, ◌+◌, ◌<◌, ◌≤◌, ◌∷◌, [], length, MatchOption};
ghost use Rattle.std.specs.Str.Lines.{strip_carriage_return};
ghost use Rattle.job_text.specs.Lines.{lines};
ghost use Rattle.job_text.specs.inside.Left.{bytes_left, ends_left, lines_left};

use crate::words::cut;

/// The lines that are still to be read: those of the rest of an input, or none if its last line was read.
#[derive(Clone, Copy, Drop)]
pub(crate) struct Lines<'a> {
    rest: Option<&'a [u8]>,
}

impl<'a> Lines<'a> {
    /// The lines of an input.
    pub(crate) fn of(bytes: &'a [u8]) -> Lines<'a>
        ensures lines { lines_left result ≡ lines bytes.now }
        ensures bytes { bytes_left result ≡ length bytes.now }
        ensures ends { ends_left result ≡ length bytes.now + 1 }
    {
        Lines { rest: Some(bytes) }
    }

    /// The next line, if there is one.
    pub(crate) fn next(&mut self) -> Option<&'a [u8]>
        ensures line { MatchOption result (lines_left self.old ≡ [])
            (λ line. lines_left self.old ≡ line.now ∷ lines_left self.new) }
        ensures bytes { MatchOption result (bytes_left self.old ≡ 0)
            (λ line. length line.now + bytes_left self.new ≤ bytes_left self.old) }
        ensures ends { MatchOption result (ends_left self.old ≡ 0)
            (λ line. ends_left self.new < ends_left self.old) }
    {
        let text = self.rest?;
        match cut(text, b'\n') {
            Some((line, rest)) => {
                self.rest = Some(rest);
                Some(without_return(line))
            }
            None => {
                self.rest = None;
                Some(without_return(text))
            }
        }
    }
}

/// A line without the one carriage return at its end, if it has one.
fn without_return(line: &[u8]) -> &[u8]
    ensures line { result.now ≡ strip_carriage_return line.now }
    ensures bytes { length result.now ≤ length line.now }
{
    match line {
        [.., b'\r'] => &line[..line.len() - 1],
        _ => line,
    }
}
