//! What would have been accepted in place of what a fault is of.

use adlb_command::{LineWhy, RunFault};

/// The commands and their options, with their ranges and what stands where an option is not given.
const USAGE: &[&str] = &[
    "solve [OPTION..] [--stats] [--ledger]   solve the puzzles and work the batches of standard input",
    "drill N SEED [OPTION..]                 make N puzzles from SEED and solve them",
    "make N SEED                             write N puzzles, made from SEED",
    "check                                   tell whether standard input is the text of a legal ledger",
    "tour [OPTION..]                         write a least round tour through the cities of standard input",
    "flow [OPTION..]                         compute the rules of standard input, and write what each name is worth",
    "N is 0 to 100000, SEED 0 to 2^64 - 1. Options, each once at most, as --ranks 4 or --ranks=4:",
    "--ranks 1 to 32, or 4        --servers 1 to 8, or 2       --limit 64 to 2^30 bytes a server, or 2^26",
    "--budget 1 to 2^32 nodes a puzzle, or 2^24                --grain 1 to 2^32 nodes a unit, or 2^16",
    "--inline: one rank and one server, and no thread          --progress: how far it is, each second; not in line",
    "tour and flow take --ranks, --servers, --limit and --progress",
    "--stats: counts of the run behind the report              --ledger: all that happened, behind the report",
    "draw                                    write a picture, an SVG, of the ledger whose text standard input is",
];

/// What would have been accepted in place of what this fault is of, line by line; nothing where the fault says all.
pub(crate) fn hints(fault: &RunFault) -> &'static [&'static str] {
    match fault {
        RunFault::Usage => USAGE,
        RunFault::Input { why, .. } => line_hints(why),
        RunFault::TooLarge { .. } => {
            &["an input has at most 2^24 bytes, and that of check and draw at most 2^26"]
        }
        _ => &[],
    }
}

// What a line can be.
fn line_hints(why: &LineWhy) -> &'static [&'static str] {
    match why {
        LineWhy::Long => &["a line has at most 2^20 bytes"],
        LineWhy::Length { .. } => {
            &[
                "a puzzle has 16, 81 or 256 signs before its first space or tab, by the side 4, 9 or 16",
            ]
        }
        LineWhy::Character => {
            &["a cell is 0 or a dot, or a digit of the side: 1 to 4, 1 to 9, or 1 to 9 and A to G"]
        }
        LineWhy::Item => &["count, sum and max stand behind a line that begins with batch"],
        LineWhy::Number => {
            &[
                "an item is sum, max, or count LO HI with numbers from 0 to 255, one space before each",
            ]
        }
        LineWhy::Word => &[
            "a line begins with a digit, a dot or A to G, as a puzzle, or with the word batch, count, sum or max",
            "a line that is empty or begins with # is passed over",
        ],
        LineWhy::Cities => &[
            "the first line is cities N, with N from 1 to 12 and one space before it",
        ],
        LineWhy::Cost => &[
            "a row has N numbers from 0 to 1000000, one space between two: what it costs to go from its city to each",
            "after the first line there are N rows",
        ],
        LineWhy::Extra => &["nothing follows the rows of costs"],
        LineWhy::Form => &[
            "a line is let NAME V or rule NAME OP A B, one space between two words; a name has 1 to 16 letters a to z",
            "V is 0 to 2^64 - 1 with no 0 before it, and OP is add, mul, min, max or xor",
            "a line that is empty or begins with # is passed over",
        ],
        LineWhy::Twice => &["a name is defined by one line"],
        LineWhy::Many => &["a flow has at most 100000 definitions"],
        LineWhy::Entry => &[
            "a ledger begins with ledger RANKS SERVERS LIMIT, has an entry a line, and ends with end N",
            "solve --ledger writes one behind its report, from the line that begins with ledger on",
        ],
    }
}
