//! The program of one rank over a link that has no other.

mod fake;

ghost use Rattle.std.specs.Prelude.{◌≡◌, ◌≤◌, ◌^◌, length, [], None, false};

use adlb_unit::Rank;
use fake::Fake;
use job_report::{Outcome, render};
use job_text::read_jobs;
use puzzle_app::{PuzzleProgram, Settings};
use rank_client::{Adlb, RankProgram};
use std::alloc::Global;
use std::process::Abort;
use std::test::Fail;

/// The settings of a run without options.
const SETTINGS: Settings = Settings {
    budget: 0x100_0000,
    grain: 0x1_0000,
};

/// A puzzle in which every cell is forced; and its report.
const FORCED: &str =
    "530070000600195000098000060800060003400803001700020006060000280000419005000080079";

const FORCED_SOLVED: &str = "puzzle 1 solutions 1\n\
    534678912672195348198342567859761423426853791713924856961537284287419635345286179\n\
    totals\nboard 1\nsolution 1\njob 0\nanswer 0\n";

/// Its solution with two columns of two rows blank; and the report of that, with another solution.
const TWO: &str =
    "534678912672195348198342567859760420426850790713924856961537284287419635345286179";

const TWO_SOLVED: &str = "puzzle 1 solutions 2\n\
    534678912672195348198342567859761423426853791713924856961537284287419635345286179\n\
    534678912672195348198342567859763421426851793713924856961537284287419635345286179\n\
    totals\nboard 3\nsolution 2\njob 0\nanswer 0\n";

/// A batch of the bytes 97, 98, 99, 97 and 98.
const BATCH: &str = "batch abcab\ncount 98 255\nsum\nmax\n";

/// That batch and the forced puzzle, one of side 4 in which two digits of two rows can be exchanged, and more batches; and
/// the report.
const MIXED: &str = "batch abcab\ncount 98 255\nsum\nmax\n\
    530070000600195000098000060800060003400803001700020006060000280000419005000080079\n\
    .2.4.4.221434321\nbatch q\nbatch zz\nsum\nbatch\nmax\n";

const MIXED_SOLVED: &str = "batch 1 bytes 5 items 3\ncount 98 255 = 3\nsum = 489\nmax = 99\n\
    puzzle 1 solutions 1\n\
    534678912672195348198342567859761423426853791713924856961537284287419635345286179\n\
    puzzle 2 solutions 2\n1234341221434321\n3214143221434321\n\
    batch 2 bytes 1 items 0\nbatch 3 bytes 2 items 1\nsum = 244\nbatch 4 bytes 0 items 1\nmax = 0\n\
    totals\nboard 4\nsolution 3\njob 5\nanswer 5\n";

/// More calls than a run here has.
const MANY: usize = 1 << 20;

// What a run of one rank on this input over this link has at its end.
fn outcome_over(alloc: Global, input: &[u8], link: &mut Fake) -> Result<Outcome, Fail>
    requires input { length input.now ≤ 2 ^ 24 }
    requires said { link.old.said.items ≡ [] }
    requires trouble { link.old.trouble ≡ None }
    requires going { link.old.going ≡ false }
{
    let jobs = read_jobs(alloc, input)?;
    let program = PuzzleProgram::new(alloc, SETTINGS, Some(jobs));
    Ok(program.run(Rank(0), link)?)
}

// That over a link that rejects no put or batch, or each, or each second or third one.
fn outcome_on(alloc: Global, input: &[u8], every: u64) -> Result<Outcome, Fail>
    requires { length input.now ≤ 2 ^ 24 }
{
    let mut link = Fake::new(alloc, every, MANY);
    outcome_over(alloc, input, &mut link)
}

// The report of that on this input.
fn rendered(alloc: Global, input: &[u8], outcome: Outcome) -> Result<String, Fail>
    requires { length input.now ≤ 2 ^ 24 }
{
    let jobs = read_jobs(alloc, input)?;
    let text = render(alloc, &jobs, &[outcome])?;
    Ok(String::from_utf8(text).unwrap_or(String::new(alloc)))
}

// The report of such a run.
fn report_on(alloc: Global, input: &str, every: u64) -> Result<String, Fail> {
    if input.len() > 1 << 24 {
        return Err("more than the limit".into());
    }
    let outcome = outcome_on(alloc, input.as_bytes(), every)?;
    rendered(alloc, input.as_bytes(), outcome)
}

// One rank writes this report on this input over a link that rejects so.
fn is_written(alloc: Global, input: &str, every: u64, wanted: &str) -> Result<bool, Fail> {
    let text = report_on(alloc, input, every)?;
    Ok(text.as_str() == wanted)
}

// One rank writes this report on this input, whatever is rejected.
fn writes(rt: &impl Abort, alloc: Global, input: &str, wanted: &str) -> Result<(), Fail> {
    for every in 0..4 {
        assert!(rt;
            is_written(alloc, input, every, wanted)?,
            "rejects every {every}"
        );
    }
    Ok(())
}

#[test]
fn one_rank_writes_the_report(rt: HostRuntime) -> Result<(), Fail> {
    writes(&rt, rt.alloc(), FORCED, FORCED_SOLVED)?;
    writes(&rt, rt.alloc(), TWO, TWO_SOLVED)
}

#[test]
fn one_rank_works_puzzles_and_batches(rt: HostRuntime) -> Result<(), Fail> {
    writes(&rt, rt.alloc(), MIXED, MIXED_SOLVED)
}

// How many calls a run of one rank on a batch makes, what it counts as made, and whether a batch goes on at its end.
fn stopped_after(alloc: Global, stops: usize) -> Result<Stopped, Fail> {
    let mut link = Fake::new(alloc, 0, stops);
    let made = made_over(alloc, &mut link)?;
    Ok((link.calls(), made, link.batch_open()))
}

// What a run of one rank on a batch over this link counts as made.
fn made_over(alloc: Global, link: &mut Fake) -> Result<[u128; 4], Fail>
    requires said { link.old.said.items ≡ [] }
    requires trouble { link.old.trouble ≡ None }
    requires going { link.old.going ≡ false }
{
    let outcome = outcome_over(alloc, BATCH.as_bytes(), link)?;
    Ok(outcome.made)
}

// What a run is seen to come to: its calls, what it counts as made, and whether a batch goes on.
type Stopped = (usize, [u128; 4], bool);

/// After how many calls an end is told, and what the run comes to.
const STOPS: &[(usize, Stopped)] = &[
    (0, (1, [0, 0, 3, 0], false)),
    (1, (3, [0, 0, 3, 0], false)),
    (3, (5, [0, 0, 3, 0], false)),
    (5, (6, [0, 0, 3, 0], false)),
    (7, (8, [0, 0, 3, 1], false)),
];

#[test]
fn an_end_stops_a_rank_and_its_batch(rt: HostRuntime) -> Result<(), Fail> {
    for (stops, wanted) in STOPS {
        let stopped = stopped_after(rt.alloc(), *stops)?;
        assert_eq!(rt; stopped, *wanted, "after {stops} calls");
    }
    Ok(())
}
