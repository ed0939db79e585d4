//! What the program says on standard error of each fault, byte for byte.

use crate::runs::words;
use adlb_command::{LineWhy, RunFault};
use adlb_program::Complaint;
use std::alloc::Global;
use std::test::Fail;

// The complaint about this fault of a command line with these words is this text.
fn says(alloc: Global, line: &str, fault: RunFault, text: &str) -> Result<bool, Fail> {
    let words = words(alloc, line)?;
    let complaint = Complaint::new(alloc, words.as_slice(), fault);
    Ok(complaint.to_string(alloc)?.as_str() == text)
}

/// Each fault that says all, and what is said of it.
const PLAIN: &[(RunFault, &str)] = &[
    (RunFault::Read, "adlbrun: read failed\n"),
    (RunFault::Write, "adlbrun: write failed\n"),
    (
        RunFault::NoThread,
        "adlbrun: a thread could not be started\n",
    ),
    (RunFault::Memory, "adlbrun: out of memory\n"),
    (
        RunFault::TooLong {
            stamp: 281_474_976_710_656,
        },
        "adlbrun: stamp limit reached\n",
    ),
    (
        RunFault::TooLarge { taken: 16_777_217 },
        "adlbrun: input too large\n\
         \x20 an input has at most 2^24 bytes, and that of check and draw at most 2^26\n",
    ),
];

#[test]
fn says_each_fault_of_the_outside(rt: HostRuntime) -> Result<(), Fail> {
    for (fault, text) in PLAIN {
        assert!(rt; says(rt.alloc(), "solve", *fault, text)?, "{text}");
    }
    Ok(())
}

/// Why a line is refused, and what is said of line 2.
const LINES: &[(LineWhy, &str)] = &[
    (
        LineWhy::Long,
        "adlbrun: line 2: long\n\
         \x20 a line has at most 2^20 bytes\n",
    ),
    (
        LineWhy::Length { got: 80 },
        "adlbrun: line 2: length\n\
         \x20 a puzzle has 16, 81 or 256 signs before its first space or tab, by the side 4, 9 or 16\n\
         \x20 this one has 80\n",
    ),
    (
        LineWhy::Character,
        "adlbrun: line 2: character\n\
         \x20 a cell is 0 or a dot, or a digit of the side: 1 to 4, 1 to 9, or 1 to 9 and A to G\n",
    ),
    (
        LineWhy::Item,
        "adlbrun: line 2: item\n\
         \x20 count, sum and max stand behind a line that begins with batch\n",
    ),
    (
        LineWhy::Number,
        "adlbrun: line 2: number\n\
         \x20 an item is sum, max, or count LO HI with numbers from 0 to 255, one space before each\n",
    ),
    (
        LineWhy::Word,
        "adlbrun: line 2: word\n\
         \x20 a line begins with a digit, a dot or A to G, as a puzzle, or with the word batch, count, sum or max\n\
         \x20 a line that is empty or begins with # is passed over\n",
    ),
    (
        LineWhy::Cities,
        "adlbrun: line 2: cities\n\
         \x20 the first line is cities N, with N from 1 to 12 and one space before it\n",
    ),
    (
        LineWhy::Cost,
        "adlbrun: line 2: cost\n\
         \x20 a row has N numbers from 0 to 1000000, one space between two: what it costs to go from its city to each\n\
         \x20 after the first line there are N rows\n",
    ),
    (
        LineWhy::Extra,
        "adlbrun: line 2: extra\n\
         \x20 nothing follows the rows of costs\n",
    ),
    (
        LineWhy::Form,
        "adlbrun: line 2: form\n\
         \x20 a line is let NAME V or rule NAME OP A B, one space between two words; a name has 1 to 16 letters a to z\n\
         \x20 V is 0 to 2^64 - 1 with no 0 before it, and OP is add, mul, min, max or xor\n\
         \x20 a line that is empty or begins with # is passed over\n",
    ),
    (
        LineWhy::Twice,
        "adlbrun: line 2: twice\n\
         \x20 a name is defined by one line\n",
    ),
    (
        LineWhy::Many,
        "adlbrun: line 2: many\n\
         \x20 a flow has at most 100000 definitions\n",
    ),
    (
        LineWhy::Entry,
        "adlbrun: line 2: entry\n\
         \x20 a ledger begins with ledger RANKS SERVERS LIMIT, has an entry a line, and ends with end N\n\
         \x20 solve --ledger writes one behind its report, from the line that begins with ledger on\n",
    ),
];

#[test]
fn says_what_a_line_can_be(rt: HostRuntime) -> Result<(), Fail> {
    for (why, text) in LINES {
        let fault = RunFault::Input { line: 2, why: *why };
        assert!(rt; says(rt.alloc(), "solve", fault, text)?, "{text}");
    }
    Ok(())
}

/// What is said of words that are refused: the first line, and those after the one that names the word.
const FIRST: &str =
    "adlbrun: usage: adlbrun solve, make, drill, check, tour, flow or draw with their options\n";

const COMMANDS: &str = "\n\
    \x20 solve [OPTION..] [--stats] [--ledger]   solve the puzzles and work the batches of standard input\n\
    \x20 drill N SEED [OPTION..]                 make N puzzles from SEED and solve them\n\
    \x20 make N SEED                             write N puzzles, made from SEED\n\
    \x20 check                                   tell whether standard input is the text of a legal ledger\n\
    \x20 tour [OPTION..]                         write a least round tour through the cities of standard input\n\
    \x20 flow [OPTION..]                         compute the rules of standard input, and write what each name is worth\n\
    \x20 N is 0 to 100000, SEED 0 to 2^64 - 1. Options, each once at most, as --ranks 4 or --ranks=4:\n\
    \x20 --ranks 1 to 32, or 4        --servers 1 to 8, or 2       --limit 64 to 2^30 bytes a server, or 2^26\n\
    \x20 --budget 1 to 2^32 nodes a puzzle, or 2^24                --grain 1 to 2^32 nodes a unit, or 2^16\n\
    \x20 --inline: one rank and one server, and no thread          --progress: how far it is, each second; not in line\n\
    \x20 tour and flow take --ranks, --servers, --limit and --progress\n\
    \x20 --stats: counts of the run behind the report              --ledger: all that happened, behind the report\n\
    \x20 draw                                    write a picture, an SVG, of the ledger whose text standard input is\n";

/// Words that are refused, and what is said of the word.
const REFUSED: &[(&str, &str)] = &[
    ("", "  no command is given"),
    ("frob", "  there is no command 'frob'"),
    ("Solve", "  there is no command 'Solve'"),
    ("solve frob", "  unexpected argument 'frob' found"),
    ("solve --frob", "  unexpected argument '--frob' found"),
    (
        "solve --ranks 33",
        "  invalid value '33' for '--ranks <ranks>': 33 is not in 1..=32",
    ),
    (
        "drill 1 2 --limit=63",
        "  invalid value '63' for '--limit <limit>': 63 is not in 64..=1073741824",
    ),
    (
        "solve --grain x",
        "  invalid value 'x' for '--grain <grain>': invalid digit found in string",
    ),
    (
        "solve --inline --inline",
        "  the argument '--inline' cannot be used multiple times",
    ),
    ("make 1", "  N or SEED is not given"),
    (
        "make 100001 2",
        "  invalid value '100001' for '<count>': 100001 is not in 0..=100000",
    ),
    ("check --stats", "  unexpected argument '--stats' found"),
    ("tour --inline", "  unexpected argument '--inline' found"),
    ("flow --stats", "  unexpected argument '--stats' found"),
];

// What is said of these refused words has this line after the first one.
fn says_word(alloc: Global, line: &str, told: &str) -> Result<bool, Fail> {
    let text = format!(in alloc; "{FIRST}{told}{COMMANDS}")?;
    says(alloc, line, RunFault::Usage, text.as_str())
}

#[test]
fn says_which_word_is_refused_and_what_the_commands_are(rt: HostRuntime) -> Result<(), Fail> {
    for (line, told) in REFUSED {
        assert!(rt; says_word(rt.alloc(), line, told)?, "{line}");
    }
    Ok(())
}
