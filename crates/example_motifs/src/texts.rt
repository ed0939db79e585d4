//! A text, some motifs, and how often one occurs in a text.

ghost use Rattle.std.specs.Prelude.{◌≡◌};
ghost use Rattle.example_motifs.specs.Texts.{places, times};

/// The text that is looked through.
pub const TEXT: &[u8] =
    b"the ranks put units, the servers keep the units, and the ranks get the units that the ranks put";

/// The motifs that are looked for.
pub const MOTIFS: &[&[u8]] = &[b"the", b"rank", b"unit", b"that", b"e", b" ", b"zebra"];

/// How often the motif of this number occurs in the text, up to 255 times. A motif that is not there never does.
pub fn times(motifs: &[&[u8]], text: &[u8], number: u8) -> u8
    ensures { result ≡ times motifs.now text.now number }
{
    match motifs.get(number as usize) {
        Some(motif) => places(motif, text).min(255) as u8,
        None => 0,
    }
}

// At how many places of the text the motif begins.
fn places(motif: &[u8], text: &[u8]) -> usize
    ensures { result ≡ places motif.now text.now }
{
    let mut found = 0;
    let mut rest = text;
    while let Some((_, after)) = rest.split_first() {
        if rest.starts_with(motif) {
            found += 1;
        }
        rest = after;
    }
    found
}
