//! Lists of bytes that are cut at a byte: a line at blanks, a list of types at commas, an id at its dot, a text at
//! line feeds.

ghost use Rattle.std.specs.Prelude.{◌≡◌, ◌∷◌, [], MatchOption, true};
ghost use Rattle.ledger_file.specs.inside.Reading.{IsCut, free, parts_left, parts_of};

/// What comes before the first of these bytes and after it, if there is one (`IsCut`).
pub fn cut(bytes: &[u8], at: u8) -> Option<(&[u8], &[u8])>
    ensures { MatchOption result (free at bytes.now ≡ true) (λ sides. IsCut at bytes.now sides.0.now sides.1.now) }
{
    for (i, b) in bytes.iter().enumerate() {
        if *b == at {
            return Some((&bytes[..i], &bytes[i + 1..]));
        }
    }
    None
}

/// The parts between the separators, which are still to be read. There is one more than separators, and a part may be
/// empty.
#[derive(Drop)]
pub struct Parts<'a> {
    rest: Option<&'a [u8]>,
    separator: u8,
}

impl<'a> Parts<'a> {
    /// The parts of these bytes.
    pub fn of(bytes: &'a [u8], separator: u8) -> Parts<'a>
        ensures { parts_left result ≡ parts_of separator bytes.now }
    {
        Parts {
            rest: Some(bytes),
            separator,
        }
    }

    /// The next part, if there is one.
    pub fn next(&mut self) -> Option<&'a [u8]>
        ensures { MatchOption result (parts_left self.old ≡ []) (λ part. parts_left self.old ≡ part.now ∷ parts_left self.new) }
    {
        let text = self.rest?;
        match cut(text, self.separator) {
            Some((part, rest)) => {
                self.rest = Some(rest);
                Some(part)
            }
            None => {
                self.rest = None;
                Some(text)
            }
        }
    }
}
