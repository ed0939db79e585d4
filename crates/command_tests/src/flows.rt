//! Flows: worked rows, and refused lines; what an input comes to where it is read alone; and drawn flows.

mod drawn;
mod large;
mod random;
mod texts;

use crate::rows::{Row, Shows, show};
use std::test::Fail;

/// Each way to run: one rank, four ranks over two servers, and servers that take three rules at most.
const WAYS: &[&str] = &[
    "flow --ranks 1 --servers 1",
    "flow --ranks 4 --servers 2",
    "flow --limit 64",
    "flow --limit 64 --ranks=1 --servers=1 --progress",
];

/// Five definitions, and what their names are worth.
pub const FIVE: &str = "let x 2\nlet y 3\nrule z add x y\nrule w mul z z\nrule q add q x\n";

pub const FIVE_WORTH: &str = "x = 2\ny = 3\nz = 5\nw = 25\nq waits\ndone 4 waits 1\n";

/// A rule that stands before its inputs.
const EARLY: &str = "rule c xor a b\nlet a 6\nlet b 3\n";

const EARLY_WORTH: &str = "c = 5\na = 6\nb = 3\ndone 3 waits 0\n";

const WORKED: &[Row] = &[
    (WAYS, &[FIVE], Shows::Is(FIVE_WORTH)),
    (
        WAYS,
        &["rule a add b b\n"],
        Shows::Is("a waits\ndone 0 waits 1\n"),
    ),
    (WAYS, &[], Shows::Is("done 0 waits 0\n")),
    (
        WAYS,
        &["let a 18446744073709551615\n", "rule b add a a\n"],
        Shows::Is("a = 18446744073709551615\nb = 18446744073709551614\ndone 2 waits 0\n"),
    ),
    (WAYS, &[EARLY], Shows::Is(EARLY_WORTH)),
    // Lines may end with a carriage return, and the last without a line feed. Words of a line may be names.
    (
        WAYS,
        &[
            "# let x 1\r\n\nlet let 7\r\n",
            "rule add max let rule\n\nlet rule 9",
        ],
        Shows::Is("let = 7\nadd = 9\nrule = 9\ndone 3 waits 0\n"),
    ),
    // Rules that wait for each other, and one that waits for these.
    (
        WAYS,
        &[
            "rule a min b b\nrule b min a a\n",
            "rule c mul a one\nlet one 1\n",
        ],
        Shows::Is("a waits\nb waits\nc waits\none = 1\ndone 1 waits 3\n"),
    ),
    // Six rules that are ready at once.
    (
        WAYS,
        &[
            "let a 3\nrule b add a a\nrule c mul a a\nrule d min a a\n",
            "rule e max a a\nrule f xor a a\nrule g add a a\nrule h add g f\n",
        ],
        Shows::Is("a = 3\nb = 6\nc = 9\nd = 3\ne = 3\nf = 0\ng = 6\nh = 6\ndone 8 waits 0\n"),
    ),
    // A rule is put, taken and fetched, and so is its answer.
    (
        &["flow --ranks 1 --servers 1"],
        &[EARLY],
        Shows::Kept(EARLY_WORTH, "paqgfFpaqgfFqxo."),
    ),
    // Three rules fill the server. The fourth is refused there (`?`, as it uses bytes) and taken by none, so rank 0 works it
    // itself, and no answer is put for it.
    (
        &["flow --ranks 1 --servers 1 --limit 64"],
        &["let a 3\nrule b add a a\nrule c mul a a\nrule d min a a\nrule e max a a\n"],
        Shows::Kept(
            "a = 3\nb = 6\nc = 9\nd = 3\ne = 3\ndone 5 waits 0\n",
            "papapap?RqgfFpaqgfFqgfFpaqgfFqgfFpaqgfFqxo.",
        ),
    ),
];

#[test]
fn writes_what_each_name_is_worth(rt: HostRuntime) -> Result<(), Fail> {
    show(rt, rt.alloc(), WORKED)
}

const REFUSED: &[Row] = &[
    (
        WAYS,
        &["let x 1\nlet x 2\n"],
        Shows::Refused(1, "line 2: twice"),
    ),
    (
        WAYS,
        &["let x 1\nrule x add x x\n"],
        Shows::Refused(1, "line 2: twice"),
    ),
    (WAYS, &["let X 1\n"], Shows::Refused(1, "line 1: form")),
    (WAYS, &["let x 01\n"], Shows::Refused(1, "line 1: form")),
    (WAYS, &["let x  1\n"], Shows::Refused(1, "line 1: form")),
    (WAYS, &["let x 1 \n"], Shows::Refused(1, "line 1: form")),
    (WAYS, &["\n let x 1\n"], Shows::Refused(1, "line 2: form")),
    (
        WAYS,
        &["let x 18446744073709551616\n"],
        Shows::Refused(1, "line 1: form"),
    ),
    (
        WAYS,
        &["let abcdefghijklmnopq 1\n"],
        Shows::Refused(1, "line 1: form"),
    ),
    (
        WAYS,
        &["let y 1\nrule x sub y y\nlet y 1\n"],
        Shows::Refused(1, "line 2: form"),
    ),
    (WAYS, &["rule x add y\n"], Shows::Refused(1, "line 1: form")),
    (
        WAYS,
        &["rule x add y y y\n"],
        Shows::Refused(1, "line 1: form"),
    ),
];

#[test]
fn refuses_the_first_line_that_is_no_definition(rt: HostRuntime) -> Result<(), Fail> {
    show(rt, rt.alloc(), REFUSED)
}
