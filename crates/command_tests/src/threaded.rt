//! Starts that are refused, two ranks that really interleave, and many runs, each with a legal ledger.

use crate::draws::Draws;
use crate::flows::{FIVE, FIVE_WORTH};
use crate::rows::{Shows, is_shown, must_show};
use crate::runs::{run_gated, run_words};
use crate::tables::{FORCED, FORCED_SOLVED, TWO, TWO_SOLVED};
use crate::tours::{SQUARE, SQUARE_TOURED};
use adlb_io::{Gate, GatePoint, ListedThreads, RealThreads, Spawner};
use adlb_unit::{NoMemory, Rank, or_no_memory};
use std::alloc::Global;
use std::hint;
use std::sync::atomic::{AtomicU64, Ordering};
use std::sync::{Arc, Wait};
use std::test::Fail;
use std::thread::Threads;

// A run of which the start of this number is refused shows this.
fn refused_shows<R: Threads + Wait + Send + Copy + Drop + 'static>(
    alloc: Global,
    rt: R,
    start: u64,
    (line, input): (&str, &str),
    shows: &Shows<'_>,
) -> Result<bool, Fail> {
    let mut threads = ListedThreads::new(rt, [start].to_vec(alloc)?);
    is_shown(alloc, &mut threads, line, input, shows)
}

/// What is shown where a start is refused.
const UNSTARTED: Shows<'static> = Shows::Refused(5, "a thread could not be started");

// The start of each number up to this one is refused with nothing written. There is no start of a later number, one for each rank
// and one for each server.
fn starts<R: Threads + Wait + Send + Copy + Drop + 'static>(
    alloc: Global,
    rt: R,
    line: &'static str,
    (puzzle, report): (&str, &str),
    actors: u64,
) -> Result<bool, Fail> {
    for start in 1..actors.saturating_add(1) {
        if !refused_shows(alloc, rt, start, (line, puzzle), &UNSTARTED)? {
            return Ok(false);
        }
    }
    refused_shows(
        alloc,
        rt,
        actors.saturating_add(1),
        (line, puzzle),
        &Shows::Is(report),
    )
}

/// Words, a puzzle with its report, and how many threads there are.
const STARTS: &[(&str, (&str, &str), u64)] = &[
    ("solve --ranks 2 --servers 1", (FORCED, FORCED_SOLVED), 3),
    ("solve --ranks 2 --servers 2", (TWO, TWO_SOLVED), 4),
    ("solve --ranks 32 --servers 8", (FORCED, FORCED_SOLVED), 40),
    ("solve", (FORCED, FORCED_SOLVED), 6),
    ("tour --ranks 2 --servers 1", (SQUARE, SQUARE_TOURED), 3),
    ("flow --ranks 1 --servers 2", (FIVE, FIVE_WORTH), 3),
];

#[test]
fn each_refused_start_writes_nothing(rt: HostRuntime) -> Result<(), Fail> {
    for (line, puzzle, actors) in STARTS {
        assert!(rt; starts(rt.alloc(), rt, line, *puzzle, *actors)?, "{line}");
    }
    Ok(())
}

/// How a run ends of which the first start is refused: what starts no thread, and a drill with threads.
const UNTHREADED: &[(&str, u8)] = &[
    ("solve --inline", 0),
    ("drill 3 4 --inline", 0),
    ("make 3 4", 0),
    ("solve frob", 2),
    ("drill 3 4", 5),
];

#[test]
fn starts_nothing_in_line(rt: HostRuntime) -> Result<(), Fail> {
    for (line, wanted) in UNTHREADED {
        let shows = Shows::Status(*wanted);
        assert!(rt;
            refused_shows(rt.alloc(), rt, 1, (line, FORCED), &shows)?,
            "{line}"
        );
    }
    Ok(())
}

/// Words of drills that write the same.
const ALIKE: &[&str] = &["drill 24 9 --ranks 2", "drill 24 9"];

#[test]
fn drills_alike_in_line_and_with_threads(rt: HostRuntime) -> Result<(), Fail> {
    let mut threads = RealThreads::new(rt);
    let wanted = written(rt.alloc(), &mut threads, "drill 24 9 --inline", "")?;
    for line in ALIKE {
        must_show(
            rt.alloc(),
            &mut threads,
            line,
            "",
            &Shows::Is(wanted.as_str()),
        )?;
    }
    Ok(())
}

/// What two ranks have come to: 1 once they have. `met` counts the waits that ended.
#[derive(Drop)]
struct Marks {
    granted_0: AtomicU64,
    granted_1: AtomicU64,
    fetched_1: AtomicU64,
    met: AtomicU64,
}

/// A gate at which rank 0, when it is first granted a unit, waits until rank 1 has fetched one. Rank 1, when it is first
/// granted one, waits until rank 0 has been. So the two meet only if they run at the same time.
#[derive(Drop)]
struct Crossing {
    marks: Arc<Marks, Global>,
}

impl Gate for Crossing {
    fn pass(&self, rank: Rank, point: GatePoint) {
        match (rank.0, point) {
            (0, GatePoint::Granted { .. }) => {
                self.first(&self.marks.granted_0, &self.marks.fetched_1);
            }
            (1, GatePoint::Granted { .. }) => {
                self.first(&self.marks.granted_1, &self.marks.granted_0);
            }
            (1, GatePoint::Fetched { .. }) => self.marks.fetched_1.store(1, Ordering::SeqCst),
            _ => {}
        }
    }

    fn twin(&self) -> Result<Crossing, NoMemory> {
        let marks = or_no_memory(Arc::try_clone(&self.marks))?;
        Ok(Crossing { marks })
    }
}

impl Crossing {
    // Marks where the rank has come to; if it is there for the first time, waits for a mark of the other rank, but not for ever.
    fn first(&self, here: &AtomicU64, other: &AtomicU64) {
        if here.swap(1, Ordering::SeqCst) == 1 {
            return;
        }
        for _ in 0..100_000_000u64 {
            if other.load(Ordering::SeqCst) == 1 {
                self.marks.met.fetch_add(1, Ordering::SeqCst);
                return;
            }
            hint::spin_loop();
        }
    }
}

/// Four times the puzzle with two solutions; and its report.
const FOUR: &str = "\
    534678912672195348198342567859760420426850790713924856961537284287419635345286179\n\
    534678912672195348198342567859760420426850790713924856961537284287419635345286179\n\
    534678912672195348198342567859760420426850790713924856961537284287419635345286179\n\
    534678912672195348198342567859760420426850790713924856961537284287419635345286179\n";

const FOUR_SOLVED: &str = "\
    puzzle 1 solutions 2\n\
    534678912672195348198342567859761423426853791713924856961537284287419635345286179\n\
    534678912672195348198342567859763421426851793713924856961537284287419635345286179\n\
    puzzle 2 solutions 2\n\
    534678912672195348198342567859761423426853791713924856961537284287419635345286179\n\
    534678912672195348198342567859763421426851793713924856961537284287419635345286179\n\
    puzzle 3 solutions 2\n\
    534678912672195348198342567859761423426853791713924856961537284287419635345286179\n\
    534678912672195348198342567859763421426851793713924856961537284287419635345286179\n\
    puzzle 4 solutions 2\n\
    534678912672195348198342567859761423426853791713924856961537284287419635345286179\n\
    534678912672195348198342567859763421426851793713924856961537284287419635345286179\n\
    totals\nboard 12\nsolution 8\njob 0\nanswer 0\n";

// Marks of ranks that have come to nothing.
fn new_crossing(alloc: Global) -> Result<Crossing, Fail> {
    let marks = Arc::new(
        alloc,
        Marks {
            granted_0: AtomicU64::new(0),
            granted_1: AtomicU64::new(0),
            fetched_1: AtomicU64::new(0),
            met: AtomicU64::new(0),
        },
    )?;
    Ok(Crossing { marks })
}

// A run whose ranks pass this gate writes the report on four puzzles.
fn solves_four<T: Spawner>(alloc: Global, threads: &mut T, gate: Crossing) -> Result<bool, Fail> {
    let line = "solve --ranks 2 --servers 1";
    let ran = run_gated(alloc, threads, gate, line, FOUR.as_bytes())?;
    Ok(ran.writes(FOUR_SOLVED))
}

// How often one rank saw the other in a run.
fn meetings<T: Spawner>(alloc: Global, threads: &mut T) -> Result<u64, Fail> {
    let gate = new_crossing(alloc)?;
    if !solves_four(alloc, threads, gate.twin()?)? {
        return Err("another report".into());
    }
    Ok(gate.marks.met.load(Ordering::SeqCst))
}

#[test]
fn two_ranks_interleave(rt: HostRuntime) -> Result<(), Fail> {
    let mut threads = RealThreads::new(rt);
    for _ in 0..20 {
        if meetings(rt.alloc(), &mut threads)? == 2 {
            return Ok(());
        }
    }
    Err("no rank saw the other".into())
}

/// How many inputs a test makes, and how many runs with threads there are over each: in ten tests 5,000 runs. A test may take a minute.
const INPUTS: u32 = 25;

const RUNS: u32 = 20;

// The words of a run with threads that splits boards at this grain.
fn drawn_line(alloc: Global, draws: &mut Draws, grain: u32) -> Result<String, Fail> {
    let ranks = draws.below(32);
    let servers = draws.below(8);
    let limit = draws.below(1000);
    let line = format!(in alloc;
        "solve --ranks {} --servers {} --limit {} --grain {grain}",
        ranks as u64 + 1,
        servers as u64 + 1,
        limit as u64 + 64
    )?;
    Ok(line)
}

// What a run with these words writes on this input.
fn written<T: Spawner>(
    alloc: Global,
    threads: &mut T,
    line: &str,
    input: &str,
) -> Result<String, Fail> {
    Ok(run_words(alloc, threads, line, input)?.into_written())
}

// The input that `make` writes with these numbers.
fn made<T: Spawner>(alloc: Global, threads: &mut T, count: u32, seed: u32) -> Result<String, Fail> {
    let line = format!(in alloc; "make {count} {seed}")?;
    written(alloc, threads, line.as_str(), "")
}

// What the run in line that splits boards at this grain writes on this input.
fn solved<T: Spawner>(
    alloc: Global,
    threads: &mut T,
    grain: u32,
    input: &str,
) -> Result<String, Fail> {
    let line = format!(in alloc; "solve --inline --grain {grain}")?;
    written(alloc, threads, line.as_str(), input)
}

// Each run on this input, split at this grain, is legal and writes this report. It fails with the words of the first that is not.
fn runs_are_legal<T: Spawner>(
    alloc: Global,
    threads: &mut T,
    draws: &mut Draws,
    grain: u32,
    (input, report): (&str, &str),
) -> Result<(), Fail> {
    for _ in 0..RUNS {
        let line = drawn_line(alloc, draws, grain)?;
        must_show(alloc, threads, line.as_str(), input, &Shows::Legal(report))?;
    }
    Ok(())
}

// Each run over one made input is legal and writes the report of the run in line.
fn input_is_legal<T: Spawner>(
    alloc: Global,
    threads: &mut T,
    draws: &mut Draws,
) -> Result<(), Fail> {
    let (count, seed) = (draws.below(10), draws.below(1000));
    let grain = match draws.below(3) {
        0 => 1,
        1 => 16,
        _ => 0x1_0000,
    };
    let input = made(alloc, threads, count, seed)?;
    let report = solved(alloc, threads, grain, input.as_str())?;
    runs_are_legal(
        alloc,
        threads,
        draws,
        grain,
        (input.as_str(), report.as_str()),
    )
}

// Each run over inputs that are made from this seed is legal. It fails with the words of the first that is not.
fn all_are_legal<R: Threads + Wait + Send + Copy + 'static>(
    rt: R,
    alloc: Global,
    seed: u64,
) -> Result<(), Fail> {
    let mut threads = RealThreads::new(rt);
    let mut draws = Draws::new(seed);
    for _ in 0..INPUTS {
        input_is_legal(alloc, &mut threads, &mut draws)?;
    }
    Ok(())
}

#[test]
fn each_ledger_is_legal_of_the_first_part(rt: HostRuntime) -> Result<(), Fail> {
    all_are_legal(rt, rt.alloc(), 1)
}

#[test]
fn each_ledger_is_legal_of_the_second_part(rt: HostRuntime) -> Result<(), Fail> {
    all_are_legal(rt, rt.alloc(), 2)
}

#[test]
fn each_ledger_is_legal_of_the_third_part(rt: HostRuntime) -> Result<(), Fail> {
    all_are_legal(rt, rt.alloc(), 3)
}

#[test]
fn each_ledger_is_legal_of_the_fourth_part(rt: HostRuntime) -> Result<(), Fail> {
    all_are_legal(rt, rt.alloc(), 4)
}

#[test]
fn each_ledger_is_legal_of_the_fifth_part(rt: HostRuntime) -> Result<(), Fail> {
    all_are_legal(rt, rt.alloc(), 5)
}

#[test]
fn each_ledger_is_legal_of_the_sixth_part(rt: HostRuntime) -> Result<(), Fail> {
    all_are_legal(rt, rt.alloc(), 6)
}

#[test]
fn each_ledger_is_legal_of_the_seventh_part(rt: HostRuntime) -> Result<(), Fail> {
    all_are_legal(rt, rt.alloc(), 7)
}

#[test]
fn each_ledger_is_legal_of_the_eighth_part(rt: HostRuntime) -> Result<(), Fail> {
    all_are_legal(rt, rt.alloc(), 8)
}

#[test]
fn each_ledger_is_legal_of_the_ninth_part(rt: HostRuntime) -> Result<(), Fail> {
    all_are_legal(rt, rt.alloc(), 9)
}

#[test]
fn each_ledger_is_legal_of_the_tenth_part(rt: HostRuntime) -> Result<(), Fail> {
    all_are_legal(rt, rt.alloc(), 10)
}
