//! The worked rows of the top call, in line and with threads: what each command writes, and what is refused.

use crate::rows::{Row, Shows, is_shown, show};
use crate::runs::run_words;
use adlb_io::{RealThreads, Spawner};
use std::alloc::Global;
use std::test::Fail;

/// Each way to run: in line, and with two, three and four ranks in threads, over one, eight and two servers.
pub const WAYS: &[&str] = &[
    "solve --inline",
    "solve --ranks 2 --servers 1",
    "solve --ranks 3 --servers 8",
    "solve",
];

/// A puzzle in which every cell is forced.
pub const FORCED: &str =
    "530070000600195000098000060800060003400803001700020006060000280000419005000080079";

/// Its first 80 cells.
const SHORT: &str =
    "53007000060019500009800006080006000340080300170002000606000028000041900500008007";

/// Its solution.
const FULL: &str =
    "534678912672195348198342567859761423426853791713924856961537284287419635345286179";

/// The solution with two columns of two rows blank. It has one other solution.
pub const TWO: &str =
    "534678912672195348198342567859760420426850790713924856961537284287419635345286179";

/// The solution without its first row.
const ROW: &str =
    ".........672195348198342567859761423426853791713924856961537284287419635345286179";

/// The solution with a digit that is twice in its column.
const CLASH: &str =
    "634678912672195348198342567859761423426853791713924856961537284287419635345286179";

/// The report on the forced puzzle.
pub const FORCED_SOLVED: &str = "puzzle 1 solutions 1\n\
    534678912672195348198342567859761423426853791713924856961537284287419635345286179\n\
    totals\nboard 1\nsolution 1\njob 0\nanswer 0\n";

/// The report on the puzzle with two solutions.
pub const TWO_SOLVED: &str = "puzzle 1 solutions 2\n\
    534678912672195348198342567859761423426853791713924856961537284287419635345286179\n\
    534678912672195348198342567859763421426851793713924856961537284287419635345286179\n\
    totals\nboard 3\nsolution 2\njob 0\nanswer 0\n";

/// The report on a puzzle without solutions.
const NONE_SOLVED: &str = "puzzle 1 solutions 0\ntotals\nboard 1\nsolution 0\njob 0\nanswer 0\n";

/// The report on a puzzle that is over.
pub const OVER: &str = "puzzle 1 over\ntotals\nboard 1\nsolution 0\njob 0\nanswer 0\n";

/// The report of no job.
pub const NOTHING: &str = "totals\nboard 0\nsolution 0\njob 0\nanswer 0\n";

/// How a puzzle runs with a line feed, and how without.
const FED: &[&str] = &["solve --inline", "solve --ranks 2 --servers 1"];

const UNFED: &[&str] = &["solve --inline", "solve --ranks 3 --servers 8"];

const WORKED: &[Row] = &[
    (FED, &[FORCED, "\n"], Shows::Is(FORCED_SOLVED)),
    (UNFED, &[FORCED], Shows::Is(FORCED_SOLVED)),
    (FED, &[TWO, "\n"], Shows::Is(TWO_SOLVED)),
    (UNFED, &[TWO], Shows::Is(TWO_SOLVED)),
    (FED, &[FULL, "\n"], Shows::Is(FORCED_SOLVED)),
    (UNFED, &[FULL], Shows::Is(FORCED_SOLVED)),
    (FED, &[ROW, "\n"], Shows::Is(FORCED_SOLVED)),
    (UNFED, &[ROW], Shows::Is(FORCED_SOLVED)),
    (FED, &[CLASH, "\n"], Shows::Is(NONE_SOLVED)),
    (UNFED, &[CLASH], Shows::Is(NONE_SOLVED)),
];

#[test]
fn writes_the_report_of_each_worked_row(rt: HostRuntime) -> Result<(), Fail> {
    show(rt, rt.alloc(), WORKED)
}

const SOLVE: &[&str] = &["solve", "solve --inline"];

const BAD: &[Row] = &[
    (SOLVE, &[SHORT], Shows::Refused(1, "line 1: length")),
    (SOLVE, &[SHORT, "x"], Shows::Refused(1, "line 1: character")),
    (SOLVE, &[" ", FORCED], Shows::Refused(1, "line 1: word")),
    (
        SOLVE,
        &[FORCED, "\n5300"],
        Shows::Refused(1, "line 2: length"),
    ),
    (SOLVE, &[FORCED, "1"], Shows::Refused(1, "line 1: length")),
    (
        SOLVE,
        &[FORCED, "\n", SHORT],
        Shows::Refused(1, "line 2: length"),
    ),
    (
        SOLVE,
        &[FORCED, "\n", FORCED, "1"],
        Shows::Refused(1, "line 2: length"),
    ),
    (
        SOLVE,
        &["batch a\n", FORCED, "\nmax"],
        Shows::Refused(1, "line 3: item"),
    ),
    (
        SOLVE,
        &["batch a\n", "1234341221434321\nmax"],
        Shows::Refused(1, "line 3: item"),
    ),
    (
        SOLVE,
        &["batch a\n", "count 256 1"],
        Shows::Refused(1, "line 2: number"),
    ),
    (
        SOLVE,
        &["batch a\n", "count 01 2"],
        Shows::Refused(1, "line 2: number"),
    ),
    (
        SOLVE,
        &["batch a\n", "sum x"],
        Shows::Refused(1, "line 2: number"),
    ),
    (SOLVE, &["sum"], Shows::Refused(1, "line 1: item")),
    (SOLVE, &["batchx"], Shows::Refused(1, "line 1: word")),
    (SOLVE, &["\r\r", "\n"], Shows::Refused(1, "line 1: word")),
    (SOLVE, &["\0"], Shows::Refused(1, "line 1: word")),
];

#[test]
fn refuses_each_bad_input_and_writes_nothing(rt: HostRuntime) -> Result<(), Fail> {
    show(rt, rt.alloc(), BAD)
}

/// An empty line and a comment, two puzzles, the second with a remark and no line feed; and its report.
const PUZZLES: &str = "# x\r\n\r\n\
    530070000600195000098000060800060003400803001700020006060000280000419005000080079\r\n\
    534678912672195348198342567859761423426853791713924856961537284287419635345286179 remark";

const PUZZLES_SOLVED: &str = "puzzle 1 solutions 1\n\
    534678912672195348198342567859761423426853791713924856961537284287419635345286179\n\
    puzzle 2 solutions 1\n\
    534678912672195348198342567859761423426853791713924856961537284287419635345286179\n\
    totals\nboard 2\nsolution 2\njob 0\nanswer 0\n";

/// Puzzles and batches in turn; and their report.
const MIXED: &str = "batch ab\nmax\n1234341221434321\nbatch\n1234341221434322\n";

const MIXED_SOLVED: &str = "batch 1 bytes 2 items 1\nmax = 98\n\
    puzzle 1 solutions 1\n1234341221434321\n\
    batch 2 bytes 0 items 0\npuzzle 2 solutions 0\n\
    totals\nboard 2\nsolution 1\njob 1\nanswer 1\n";

/// A batch; and its report.
const ITEMS: &str = "batch abcabc\ncount 97 98\nsum\nmax\ncount 5 4";

const ITEMS_ANSWERED: &str =
    "batch 1 bytes 6 items 4\ncount 97 98 = 4\nsum = 588\nmax = 99\ncount 5 4 = 0\n\
    totals\nboard 0\nsolution 0\njob 4\nanswer 4\n";

/// The report on an item that counts nothing.
const NONE_COUNTED: &str =
    "batch 1 bytes 1 items 1\ncount 5 4 = 0\ntotals\nboard 0\nsolution 0\njob 1\nanswer 1\n";

const EMPTY_BATCH: &str = "batch 1 bytes 3 items 0\ntotals\nboard 0\nsolution 0\njob 0\nanswer 0\n";

const READ: &[Row] = &[
    (WAYS, &[""], Shows::Is(NOTHING)),
    (WAYS, &["\r\n\r"], Shows::Is(NOTHING)),
    (WAYS, &[PUZZLES], Shows::Is(PUZZLES_SOLVED)),
    (WAYS, &[MIXED], Shows::Is(MIXED_SOLVED)),
    (WAYS, &[ITEMS], Shows::Is(ITEMS_ANSWERED)),
    (WAYS, &["batch a\n", "count 5 4"], Shows::Is(NONE_COUNTED)),
    (WAYS, &["batch xyz"], Shows::Is(EMPTY_BATCH)),
];

#[test]
fn reads_puzzles_and_batches(rt: HostRuntime) -> Result<(), Fail> {
    show(rt, rt.alloc(), READ)
}

/// A puzzle in which every cell is blank.
pub const BLANK: &str =
    ".................................................................................";

const OPTIONS: &[Row] = &[
    (&["solve --budget 100"], &[BLANK], Shows::Is(OVER)),
    (&["solve --budget 1 --ranks 2"], &[TWO], Shows::Is(OVER)),
    (
        &["solve --limit 64", "solve --limit 64 --grain 1 --ranks 32"],
        &[FORCED],
        Shows::Is(FORCED_SOLVED),
    ),
];

#[test]
fn options_of_runs_with_threads(rt: HostRuntime) -> Result<(), Fail> {
    show(rt, rt.alloc(), OPTIONS)
}

const OTHER_WORDS: &[Row] = &[(
    &[
        "",
        "frob",
        "solve --ranks 33",
        "solve --ranks 0",
        "solve --servers 0",
        "solve --servers 9",
        "solve --stats --stats",
        "solve --limit 63",
        "solve --grain 0",
        "solve --inline --inline",
        "make 100001 2",
        "make 1",
        "drill 1",
        "drill 1 2 --stats",
        "check --stats",
        "solve solve",
        "Solve",
    ],
    &[FORCED],
    Shows::Refused(
        2,
        "usage: adlbrun solve, make, drill, check, tour, flow or draw with their options",
    ),
)];

#[test]
fn refuses_other_words(rt: HostRuntime) -> Result<(), Fail> {
    show(rt, rt.alloc(), OTHER_WORDS)
}

const GIVEN: &[Row] = &[
    (
        &[
            "solve --budget 1 --inline --ranks 32",
            "solve --budget 1 --ranks=1",
        ],
        &[TWO],
        Shows::Kept(OVER, "paqgfFqxo."),
    ),
    (
        &["solve --budget=1 --limit 64 --inline"],
        &[TWO],
        Shows::Kept(OVER, "prRqxo."),
    ),
    (
        &["solve --budget 1 --limit 64 --ranks 1"],
        &[TWO],
        Shows::Kept(OVER, "prrRqxo."),
    ),
    (
        &["solve --budget 1 --limit 64 --ranks 1 --servers 3"],
        &[TWO],
        Shows::Kept(OVER, "prrrRqxo."),
    ),
    (
        &["solve --grain 16777216"],
        &[TWO],
        Shows::Frame("", "board 1\nsolution 2\njob 0\nanswer 0\n"),
    ),
];

#[test]
fn the_words_give_limit_budget_and_grain(rt: HostRuntime) -> Result<(), Fail> {
    show(rt, rt.alloc(), GIVEN)
}

/// The ledger of a run without jobs.
const NO_JOBS: &str = "totals\nboard 0\nsolution 0\njob 0\nanswer 0\n\
    ledger 1 1 67108864\nasked 0 0 any\nexhausted\nover 0 0 exhausted\nfinished 0 1\nend 4\n";

const BOTH_EXTRAS: &str = "totals\nboard 0\nsolution 0\njob 0\nanswer 0\n\
    stats\naccepted 0\nrefused 0\nrejected 0\ngranted 0\npushed 0\nleft 0\n\
    ledger 1 1 67108864\nasked 0 0 any\nexhausted\nover 0 0 exhausted\nfinished 0 1\nend 4\n";

const EXTRAS: &[Row] = &[
    (
        &["solve --ledger --inline"],
        &[""],
        Shows::Frame("", NO_JOBS),
    ),
    (
        &["solve --ledger --stats --ranks 1 --servers 1"],
        &[""],
        Shows::Frame("", BOTH_EXTRAS),
    ),
    (
        &["solve --stats"],
        &[FORCED],
        Shows::Frame(
            "",
            "stats\naccepted 2\nrefused 0\nrejected 0\ngranted 2\npushed 0\nleft 0\n",
        ),
    ),
    (
        &["solve --stats --limit 64"],
        &[FORCED],
        Shows::Frame(
            "",
            "stats\naccepted 0\nrefused 4\nrejected 2\ngranted 0\npushed 0\nleft 0\n",
        ),
    ),
    (
        &["solve --stats"],
        &[ITEMS],
        Shows::Frame(
            "",
            "stats\naccepted 8\nrefused 0\nrejected 0\ngranted 8\npushed 0\nleft 0\n",
        ),
    ),
];

#[test]
fn counts_and_the_ledger_follow_the_report(rt: HostRuntime) -> Result<(), Fail> {
    show(rt, rt.alloc(), EXTRAS)
}

// The ledger that `solve` writes with these words on this input, from its first line on; its first word alone if there is none.
fn ledger_text<T: Spawner>(
    alloc: Global,
    threads: &mut T,
    (line, input): (&str, &str),
) -> Result<String, Fail> {
    let solved = run_words(alloc, threads, line, input)?;
    let (_, text) = solved
        .written
        .as_str()
        .split_once("\nledger ")
        .unwrap_or(("", ""));
    Ok(format!(in alloc; "ledger {text}")?)
}

// What `check` writes of the ledger that `solve` wrote with these words on this input begins so.
fn checks<T: Spawner>(
    alloc: Global,
    threads: &mut T,
    run: (&str, &str),
    wanted: &str,
) -> Result<bool, Fail> {
    let text = ledger_text(alloc, threads, run)?;
    is_shown(
        alloc,
        threads,
        "check",
        text.as_str(),
        &Shows::Frame(wanted, ""),
    )
}

/// Words and an input, and how many entries the ledger has, which is legal.
const LEGAL: &[((&str, &str), &str)] = &[
    (("solve --ledger --inline", ""), "legal 4\n"),
    (("solve --ledger --inline", FORCED), "legal 16\n"),
    (("solve --ledger --inline --limit 64", FORCED), "legal 10\n"),
    (("solve --ledger --ranks 1", FORCED), "legal 16\n"),
    (("solve --ledger", FORCED), "legal 25\n"),
    (("solve --ledger --servers 8", FORCED), "legal 25\n"),
    (("solve --ledger --stats", MIXED), "legal "),
];

#[test]
fn a_written_ledger_is_legal(rt: HostRuntime) -> Result<(), Fail> {
    let mut threads = RealThreads::new(rt);
    for (run, wanted) in LEGAL {
        assert!(rt;
            checks(rt.alloc(), &mut threads, *run, wanted)?,
            "{} {:?}",
            run.0,
            run.1
        );
    }
    Ok(())
}

// `make` writes this number of lines, which `solve` answers with a report that ends so.
fn makes<T: Spawner>(
    alloc: Global,
    threads: &mut T,
    line: &str,
    lines: usize,
    end: &str,
) -> Result<bool, Fail> {
    let made = run_words(alloc, threads, line, "x")?;
    let input = made.written.as_str();
    Ok(
        made.is_well()
            && input.lines().count() == lines
            && is_shown(alloc, threads, "solve", input, &Shows::Frame("", end))?,
    )
}

/// Words of `make`, how many lines it writes, and how the report on them ends.
const MADE: &[(&str, usize, &str)] = &[
    ("make 0 7", 0, NOTHING),
    ("make 8 1", 12, "job 3\nanswer 3\n"),
];

#[test]
fn makes_an_input_that_it_solves(rt: HostRuntime) -> Result<(), Fail> {
    let mut threads = RealThreads::new(rt);
    for (line, lines, end) in MADE {
        assert!(rt;
            makes(rt.alloc(), &mut threads, line, *lines, end)?,
            "{line}"
        );
    }
    Ok(())
}

/// The summary of no puzzle.
const NO_DRILL: &str = "drill 0 7\npuzzles 0 over 0 solutions 0\nbatches 0 items 0\n\
    totals\nboard 0\nsolution 0\njob 0\nanswer 0\n";

const DRILLS: &[Row] = &[
    (&["drill 0 7"], &["x"], Shows::Is(NO_DRILL)),
    (
        &["drill 64 +001"],
        &["x"],
        Shows::Frame("drill 64 1\npuzzles 64 over ", "job 24\nanswer 24\n"),
    ),
    (
        &["drill 3 4 --budget 1"],
        &["x"],
        Shows::Frame(
            "drill 3 4\npuzzles 3 over 3 solutions 0\nbatches 0 items 0\n",
            "totals\nboard 3\nsolution 0\njob 0\nanswer 0\n",
        ),
    ),
];

#[test]
fn drills_made_inputs(rt: HostRuntime) -> Result<(), Fail> {
    show(rt, rt.alloc(), DRILLS)
}

const NO_LEDGERS: &[Row] = &[
    (&["check"], &[""], Shows::Refused(1, "line 1: entry")),
    (
        &["check"],
        &["ledger 1 1 64\nend 1\n"],
        Shows::Refused(1, "line 2: entry"),
    ),
    (
        &["check"],
        &["ledger 1 1 64\nexhausted\nend 1\n"],
        Shows::Is("illegal 0\n"),
    ),
];

#[test]
fn a_text_of_no_ledger_is_refused(rt: HostRuntime) -> Result<(), Fail> {
    show(rt, rt.alloc(), NO_LEDGERS)
}
