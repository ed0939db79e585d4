//! What the colours and marks of a picture mean.

use crate::bars::colour;
use crate::text::fill;
use adlb_unit::NoMemory;

/// A sample, of which the `~` are where it begins, and what it means.
#[derive(Clone, Copy)]
struct Item {
    sample: &'static [u8],
    means: &'static [u8],
}

const DOING: &[Item] = &[
    Item {
        sample: b"<path class=\"w\" d=\"M~ ~h14\"/>",
        means: b"waits for a unit",
    },
    Item {
        sample: b"<path class=\"c b\" d=\"M~ ~h14\"/>",
        means: b"calls",
    },
];

const MARKS: &[Item] = &[
    Item {
        sample: b"<path class=\"x\" d=\"M~ ~m3 -4l8 8m0 -8l-8 8\"/>",
        means: b"rejected",
    },
    Item {
        sample: b"<path class=\"d\" d=\"M~ ~m2 5h10l-5 -10z\"/>",
        means: b"problem done",
    },
    Item {
        sample: b"<path class=\"o\" d=\"M~ ~m4 -3h6v6h-6z\"/>",
        means: b"told an end",
    },
    Item {
        sample: b"<path class=\"f\" d=\"M~ ~m7 -7v14\"/>",
        means: b"finished",
    },
    Item {
        sample: b"<path class=\"u\" d=\"M~ ~m0 -5h14v10h-14z\"/>",
        means: b"charge",
    },
    Item {
        sample: b"<path class=\"l\" d=\"M~ ~h14\"/>",
        means: b"limit",
    },
    Item {
        sample: b"<path class=\"v\" d=\"M~ ~m0 -5h14v10h-14z\"/>",
        means: b"free units",
    },
    Item {
        sample: b"<path class=\"m\" d=\"M~ ~m7 -6v10l-3 -6h6l-3 6\"/>",
        means: b"unit moved",
    },
];

/// Appends what colours and marks mean, with these types of work. Its only error is `NoMemory`.
pub(crate) fn put_legend(text: &mut Vec<u8>, kinds: &[u32]) -> Result<(), NoMemory> {
    let x = put_row(text, DOING, 40)?;
    put_kinds(text, kinds, x)?;
    put_row(text, MARKS, 60)?;
    Ok(())
}

// Appends a row of items, and answers where it ends.
fn put_row(text: &mut Vec<u8>, items: &[Item], y: u64) -> Result<u64, NoMemory> {
    let mut x = 8u64;
    for item in items {
        fill(text, item.sample, &[x, y])?;
        x = put_meaning(text, item.means, x.saturating_add(20), y)?;
    }
    Ok(x)
}

// Appends what an item means, and answers where the next begins.
fn put_meaning(text: &mut Vec<u8>, means: &[u8], x: u64, y: u64) -> Result<u64, NoMemory> {
    fill(text, b"<text x=\"~\" y=\"~\">", &[x, y.saturating_add(4)])?;
    fill(text, means, &[])?;
    fill(text, b"</text>\n", &[])?;
    let length = (means.len() as u64).saturating_mul(6);
    Ok(x.saturating_add(length).saturating_add(16))
}

// Appends the types of work, each with its colour.
fn put_kinds(text: &mut Vec<u8>, kinds: &[u32], x: u64) -> Result<(), NoMemory> {
    let mut x = put_meaning(text, b"works a unit of type", x, 40)?;
    for kind in kinds {
        let at = [colour(*kind), x, 40, x.saturating_add(18), 44, *kind as u64];
        fill(text, KIND, &at)?;
        x = x.saturating_add(44);
    }
    put_meaning(text, b"(thin: calls after it)", x, 40)?;
    Ok(())
}

const KIND: &[u8] = b"<path class=\"k~\" d=\"M~ ~h14\"/><text x=\"~\" y=\"~\">~</text>\n";
