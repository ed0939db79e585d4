//! Reports and summaries of jobs, from what two ranks are said to have.

ghost use Rattle.std.specs.Prelude.{◌<◌, ◌^◌, ℕ, slice_index, IfOk, vec_len};
ghost use Rattle.job_report.specs.Whole.{made_in};

use job_report::{Outcome, render, summarize};
use job_text::{Jobs, read_jobs};
use std::alloc::Global;
use std::process::Abort;
use std::test::Fail;
use sudoku_rules::{KeptGrid, parse_grid};

/// What a rank is said to have: solutions by their texts, overs, answers, and how many units it made.
struct Told {
    solutions: &'static [(u32, &'static str)],
    overs: &'static [u32],
    answers: &'static [(u32, u32, u64)],
    made: [u32; 4],
}

/// A rank that has nothing.
const NOTHING: Told = Told {
    solutions: &[],
    overs: &[],
    answers: &[],
    made: [0, 0, 0, 0],
};

/// An input, what two ranks are said to have, and what is written of them.
type Row = (&'static [u8], Told, Told, &'static str);

// The grids of these texts.
fn grids(alloc: Global, texts: &[(u32, &str)]) -> Result<Vec<(u32, KeptGrid)>, Fail> {
    let mut grids = Vec::new(alloc);
    for (puzzle, text) in texts {
        grids.push((*puzzle, parse_grid(text.as_bytes())?.keep(alloc)?))?;
    }
    Ok(grids)
}

// The outcome of a rank that is said to have this.
fn outcome_of(alloc: Global, told: &Told) -> Result<Outcome, Fail>
    ensures { IfOk result (λ outcome. (k : ℕ) → slice_index outcome.made k < 2 ^ 32) }
{
    let [boards, solutions, jobs, answers] = told.made;
    Ok(Outcome {
        solutions: grids(alloc, told.solutions)?,
        overs: Vec::from_slice(alloc, told.overs)?,
        answers: Vec::from_slice(alloc, told.answers)?,
        made: [
            boards as u128,
            solutions as u128,
            jobs as u128,
            answers as u128,
        ],
    })
}

// The jobs of the input.
fn jobs_of(alloc: Global, input: &[u8]) -> Result<Jobs, Fail> {
    if input.len() > 1 << 24 {
        return Err("long".into());
    }
    Ok(read_jobs(alloc, input)?)
}

// The report of the input's jobs, from the two outcomes.
fn report_of(alloc: Global, input: &[u8], first: &Told, second: &Told) -> Result<String, Fail> {
    let outcomes = [outcome_of(alloc, first)?, outcome_of(alloc, second)?];
    let jobs = jobs_of(alloc, input)?;
    let text = render(alloc, &jobs, &outcomes)?;
    Ok(String::from_utf8(text).unwrap_or(String::new(alloc)))
}

// The summary of the input's jobs, from the two outcomes.
fn summary_of(alloc: Global, input: &[u8], first: &Told, second: &Told) -> Result<String, Fail> {
    let jobs = jobs_of(alloc, input)?;
    let outcomes = [outcome_of(alloc, first)?, outcome_of(alloc, second)?];
    let text = summarize(alloc, &jobs, &outcomes)?;
    Ok(String::from_utf8(text).unwrap_or(String::new(alloc)))
}

// The row's input has the report.
fn is_reported(alloc: Global, (input, first, second, expected): &Row) -> Result<bool, Fail> {
    let text = report_of(alloc, input, first, second)?;
    Ok(text.as_str() == *expected)
}

// The row's input has the summary.
fn is_summed(alloc: Global, (input, first, second, expected): &Row) -> Result<bool, Fail> {
    let text = summary_of(alloc, input, first, second)?;
    Ok(text.as_str() == *expected)
}

/// Each input has the report.
fn check(rt: &impl Abort, alloc: Global, rows: &[Row]) -> Result<(), Fail> {
    for row in rows {
        assert!(rt; is_reported(alloc, row)?, "{}", row.3);
    }
    Ok(())
}

/// Puzzles of side 4: all cells are given, or four are blank and there are two solutions.
const PUZZLES: &[Row] = &[
    (
        b"",
        NOTHING,
        NOTHING,
        "totals\nboard 0\nsolution 0\njob 0\nanswer 0\n",
    ),
    (
        b"1234341221434321",
        NOTHING,
        Told {
            solutions: &[(1, "1234341221434321")],
            made: [1, 1, 0, 0],
            ..NOTHING
        },
        "puzzle 1 solutions 1\n\
         1234341221434321\n\
         totals\nboard 1\nsolution 1\njob 0\nanswer 0\n",
    ),
    (
        b"..343412..434321",
        Told {
            solutions: &[(1, "2134341212434321")],
            made: [2, 1, 0, 0],
            ..NOTHING
        },
        Told {
            solutions: &[(1, "1234341221434321")],
            made: [1, 1, 0, 0],
            ..NOTHING
        },
        "puzzle 1 solutions 2\n\
         1234341221434321\n\
         2134341212434321\n\
         totals\nboard 3\nsolution 2\njob 0\nanswer 0\n",
    ),
    (
        b"1134341221434321",
        Told {
            made: [1, 0, 0, 0],
            ..NOTHING
        },
        NOTHING,
        "puzzle 1 solutions 0\n\
         totals\nboard 1\nsolution 0\njob 0\nanswer 0\n",
    ),
];

/// A puzzle of which a node is over has no solution of it in the report.
const OVERS: &[Row] = &[
    (
        b"................",
        NOTHING,
        Told {
            overs: &[1],
            made: [1, 0, 0, 0],
            ..NOTHING
        },
        "puzzle 1 over\n\
         totals\nboard 1\nsolution 0\njob 0\nanswer 0\n",
    ),
    (
        b"1234341221434321\n..343412..434321",
        Told {
            solutions: &[(2, "2134341212434321"), (1, "1234341221434321")],
            made: [2, 2, 0, 0],
            ..NOTHING
        },
        Told {
            overs: &[2],
            made: [2, 0, 0, 0],
            ..NOTHING
        },
        "puzzle 1 solutions 1\n\
         1234341221434321\n\
         puzzle 2 over\n\
         totals\nboard 4\nsolution 2\njob 0\nanswer 0\n",
    ),
];

/// Batches by themselves: of six bytes, without items, of no bytes, and with a count from above to below.
const BATCHES: &[Row] = &[
    (
        b"batch abcabc\ncount 97 98\nsum\nmax",
        Told {
            answers: &[(1, 2, 588)],
            made: [0, 0, 2, 1],
            ..NOTHING
        },
        Told {
            answers: &[(1, 3, 99), (1, 1, 4)],
            made: [0, 0, 1, 2],
            ..NOTHING
        },
        "batch 1 bytes 6 items 3\n\
         count 97 98 = 4\n\
         sum = 588\n\
         max = 99\n\
         totals\nboard 0\nsolution 0\njob 3\nanswer 3\n",
    ),
    (
        b"batch xyz",
        NOTHING,
        NOTHING,
        "batch 1 bytes 3 items 0\n\
         totals\nboard 0\nsolution 0\njob 0\nanswer 0\n",
    ),
    (
        b"batch\nmax\nsum\ncount 0 255",
        Told {
            answers: &[(1, 3, 0), (1, 2, 0), (1, 1, 0)],
            made: [0, 0, 3, 3],
            ..NOTHING
        },
        NOTHING,
        "batch 1 bytes 0 items 3\n\
         max = 0\n\
         sum = 0\n\
         count 0 255 = 0\n\
         totals\nboard 0\nsolution 0\njob 3\nanswer 3\n",
    ),
    (
        b"batch ab\ncount 5 4\ncount 98 255",
        NOTHING,
        Told {
            answers: &[(1, 2, 1), (1, 1, 0)],
            made: [0, 0, 2, 2],
            ..NOTHING
        },
        "batch 1 bytes 2 items 2\n\
         count 5 4 = 0\n\
         count 98 255 = 1\n\
         totals\nboard 0\nsolution 0\njob 2\nanswer 2\n",
    ),
];

/// Puzzles and batches stand in input order, and are numbered each by themselves.
const MIXED: &[Row] = &[(
    b"batch abc\nmax\n................\nbatch cab!\nmax\nsum\nbatch\n1234341221434321",
    Told {
        overs: &[1],
        answers: &[(2, 2, 327), (1, 1, 99)],
        made: [1, 0, 1, 2],
        ..NOTHING
    },
    Told {
        solutions: &[(2, "1234341221434321")],
        answers: &[(2, 1, 99)],
        made: [1, 1, 2, 1],
        ..NOTHING
    },
    "batch 1 bytes 3 items 1\n\
     max = 99\n\
     puzzle 1 over\n\
     batch 2 bytes 4 items 2\n\
     max = 99\n\
     sum = 327\n\
     batch 3 bytes 0 items 0\n\
     puzzle 2 solutions 1\n\
     1234341221434321\n\
     totals\nboard 2\nsolution 1\njob 3\nanswer 3\n",
)];

/// Summaries of no job, and of three puzzles, the first of which is over, among two batches.
const SUMMARIES: &[Row] = &[
    (
        b"",
        NOTHING,
        NOTHING,
        "puzzles 0 over 0 solutions 0\n\
         batches 0 items 0\n\
         totals\nboard 0\nsolution 0\njob 0\nanswer 0\n",
    ),
    (
        b"batch abc\nmax\n................\n..343412..434321\nbatch cab!\nmax\nsum\n1234341221434321",
        Told {
            solutions: &[(2, "2134341212434321"), (1, "1234341221434321")],
            answers: &[(2, 2, 327), (1, 1, 99)],
            made: [3, 2, 1, 2],
            ..NOTHING
        },
        Told {
            solutions: &[(3, "1234341221434321"), (2, "1234341221434321")],
            overs: &[1],
            answers: &[(2, 1, 99)],
            made: [2, 2, 2, 1],
        },
        "puzzles 3 over 1 solutions 3\n\
         batches 2 items 3\n\
         totals\nboard 5\nsolution 4\njob 3\nanswer 3\n",
    ),
];

#[test]
fn puzzles_have_their_solutions_in_text_order(rt: HostRuntime) -> Result<(), Fail> {
    check(&rt, rt.alloc(), PUZZLES)
}

#[test]
fn puzzles_are_over_if_some_rank_says_so(rt: HostRuntime) -> Result<(), Fail> {
    check(&rt, rt.alloc(), OVERS)
}

#[test]
fn batches_have_a_line_for_each_item(rt: HostRuntime) -> Result<(), Fail> {
    check(&rt, rt.alloc(), BATCHES)
}

#[test]
fn jobs_stand_in_input_order(rt: HostRuntime) -> Result<(), Fail> {
    check(&rt, rt.alloc(), MIXED)
}

#[test]
fn summaries_count_solutions_of_puzzles_that_are_not_over(rt: HostRuntime) -> Result<(), Fail> {
    for row in SUMMARIES {
        assert!(rt; is_summed(rt.alloc(), row)?, "{}", row.3);
    }
    Ok(())
}
