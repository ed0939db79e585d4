//! Runs in line with a budget, a grain and a limit that no word gives.

use crate::rows::Shows;
use crate::runs::{Ran, seen};
use crate::tables::{BLANK, FORCED, FORCED_SOLVED, OVER, TWO};
use adlb_command::RunEnd;
use adlb_io::{SteadySink, SteadySource};
use adlb_unit::Config;
use puzzle_app::Settings;
use run_command::run_inline;
use solve_command::{Extras, Puzzles, Wanted};
use std::alloc::Global;
use std::test::Fail;

/// The budget and the grain of a run without options, and a limit that no run comes to.
const BUDGET: u64 = 0x100_0000;

const GRAIN: u64 = 0x1_0000;

const LIMIT: u64 = 0x400_0000;

/// A puzzle with 1,462 solutions.
const MANY: &str =
    ".3.6.8.........3.....3............23426.53.917...2...696.5....42.741....34.......";

/// The settings of a run: its budget and its grain, and how many bytes a server takes.
type Sizes = (u64, u64, u64);

fn puzzles((budget, grain, _): Sizes) -> Puzzles<Extras> {
    let extras = Extras {
        stats: false,
        ledger: false,
    };
    Puzzles {
        settings: Settings { budget, grain },
        wanted: Wanted::Report(extras),
    }
}

// The end of a run in line with these settings.
fn end(
    alloc: Global,
    sizes: Sizes,
    input: &mut SteadySource,
    output: &mut SteadySink,
) -> Result<RunEnd, Fail> {
    let config = Config::new(1, 1, sizes.2).ok().ok_or("no such limit")?;
    Ok(RunEnd::of(run_inline(alloc, &puzzles(sizes), config, input, output)))
}

// A run in line with these settings.
fn solve_on(alloc: Global, puzzle: &str, sizes: Sizes) -> Result<Ran, Fail> {
    let mut input = SteadySource::new(puzzle.as_bytes().to_vec(alloc)?);
    let mut output = SteadySink::new(alloc);
    let end = end(alloc, sizes, &mut input, &mut output)?;
    seen(alloc, &end, output.taken())
}

// A run in line with these settings shows this.
fn is_solved(alloc: Global, puzzle: &str, sizes: Sizes, shows: &Shows<'_>) -> Result<bool, Fail> {
    let ran = solve_on(alloc, puzzle, sizes)?;
    Ok(shows.is_of(&ran))
}

/// A board has 93 bytes: at the limit 64 each unit is rejected, at 400 all but a few that wait.
const GRAINS: &[(u64, u64)] = &[(1, LIMIT), (16, LIMIT), (GRAIN, 64), (16, 400)];

// With each other grain and limit the report begins with these solutions. It fails with the first with which it does not.
fn same_solutions(alloc: Global, solutions: &str) -> Result<(), Fail> {
    let begins = Shows::Frame(solutions, "");
    for (grain, limit) in GRAINS {
        if !is_solved(alloc, MANY, (BUDGET, *grain, *limit), &begins)? {
            return Err(("grain and limit", *grain, *limit).into());
        }
    }
    Ok(())
}

#[test]
fn another_limit_and_another_grain_change_no_solution(rt: HostRuntime) -> Result<(), Fail> {
    let whole = solve_on(rt.alloc(), MANY, (BUDGET, GRAIN, LIMIT))?;
    let solutions = whole.written.as_str().split("totals").next().unwrap_or("");
    assert!(rt; whole.is_well() && solutions.starts_with("puzzle 1 solutions 1462\n"));
    same_solutions(rt.alloc(), solutions)
}

const BUDGETS: &[(&str, u64)] = &[(BLANK, 1), (BLANK, 2), (BLANK, 9), (BLANK, 100), (TWO, 1)];

#[test]
fn a_small_budget_is_over(rt: HostRuntime) -> Result<(), Fail> {
    for (puzzle, budget) in BUDGETS {
        let sizes = (*budget, GRAIN, LIMIT);
        assert!(rt;
            is_solved(rt.alloc(), puzzle, sizes, &Shows::Is(OVER))?,
            "budget {budget}"
        );
    }
    Ok(())
}

/// The board of 93 bytes and the solution of 85 go to the server and come back, or each is refused by it.
const LIMITS: &[(u64, &str)] = &[
    (LIMIT, "paqgfFpaqgfFqxo."),
    (64, "prRprRqxo."),
    (90, "prRpaqgfFqxo."),
];

// At each limit the forced puzzle is solved with this ledger, and nothing is left.
#[test]
fn a_server_that_is_too_small_keeps_the_report(rt: HostRuntime) -> Result<(), Fail> {
    for (limit, ledger) in LIMITS {
        let sizes = (BUDGET, GRAIN, *limit);
        let shows = Shows::Kept(FORCED_SOLVED, ledger);
        assert!(rt;
            is_solved(rt.alloc(), FORCED, sizes, &shows)?,
            "limit {limit}"
        );
    }
    Ok(())
}
