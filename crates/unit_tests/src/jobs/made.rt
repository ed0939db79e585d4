//! Texts that are made, by the values of another program.

use adlb_io::MemorySink;
use made_jobs::{MadeFault, made, write_made};
use std::alloc::Global;
use std::test::Fail;

/// Seeds, and the first two lines that are made of them.
const FIRST_LINES: &[(u64, &str)] = &[
    (
        1,
        "6273..5893498...7..5.27963..6.4387927931..4.8..2..7.6..386..9...14785326.7.91..4.\n\
         149..5..76378...95.25497.63..23689.4976.14.2....2.95.6.6......9753.82.41491..6..2\n",
    ),
    (
        2,
        "9756321..6.8419..2.1..58....9.3645.7.862...14347..52.6..4973.25.2.5416.97..826.3.\n\
         52.1..6...9.3...8...7.84.19.56913842..1.529..93.64875161.5.94.8.79.3.1.5..54.1.9.\n",
    ),
    (
        0xffff_ffff_ffff_ffff,
        "4..613.8961..54.7.8.3..9.61.4.1.87927963421.8.825..3.656..2.9.793.7.56.42..93.8.5\n\
         86...4723.13..8.94.746.3..14.71.2936..5.86.72.2.7.9...752.6..49..1.27568698..5..7\n",
    ),
];

/// What follows the seventh line of the seed 1.
const EIGHTH: &str =
    "5..83..168.6.....2172.965.32.73.1..496..543713..7.9.587..543.296..91.8.54..62813.\n\
     batch 5..83..168.6.....2172.965.32.73.1..496..543713..7.9.587..543.296..91.8.54..62813.\n\
     count 49 53\nsum\nmax\n";

// What is made of this many puzzles and a seed.
fn text(alloc: Global, count: u32, seed: u64) -> Result<String, Fail> {
    let bytes = made(alloc, count, seed)?;
    Ok(String::from_utf8(bytes).unwrap_or(String::new(alloc)))
}

// This is made of two puzzles and the seed.
fn is_made(alloc: Global, seed: u64, lines: &str) -> Result<bool, Fail> {
    let text = text(alloc, 2, seed)?;
    Ok(text.as_str() == lines)
}

#[test]
fn makes_what_another_program_makes(rt: HostRuntime) -> Result<(), Fail> {
    assert_eq!(rt; made(rt.alloc(), 0, 7)?.len(), 0);
    for (seed, lines) in FIRST_LINES {
        assert!(rt; is_made(rt.alloc(), *seed, lines)?, "seed {seed}");
    }
    Ok(())
}

// It has 12 lines, of which eight are puzzles of side 9 with 41 filled cells at least.
fn has_eight_puzzles(text: &str) -> bool {
    text.lines().take(8).all(is_puzzle) && text.lines().count() == 12
}

fn is_puzzle(line: &str) -> bool {
    line.len() == 81 && line.bytes().filter(|byte| *byte != b'.').count() >= 41
}

// What is made of eight puzzles has their lines, and a batch after them.
fn has_a_batch(alloc: Global) -> Result<bool, Fail> {
    let all = text(alloc, 8, 1)?;
    Ok(
        all.len() == 8 * 82 + 108
            && all.as_str().ends_with(EIGHTH)
            && has_eight_puzzles(all.as_str()),
    )
}

#[test]
fn puts_a_batch_behind_the_eighth_puzzle(rt: HostRuntime) -> Result<(), Fail> {
    assert!(rt; has_a_batch(rt.alloc())?);
    Ok(())
}

// Where the call of this number fails, the two lines of the first seed are written up to this length, and the maker answers so.
fn is_written(
    alloc: Global,
    fails: u64,
    taken: usize,
    answer: Result<(), MadeFault>,
) -> Result<bool, Fail> {
    let mut sink = MemorySink::new(alloc, 100, [fails].to_vec(alloc)?);
    let told = write_made(alloc, 2, 1, &mut sink);
    Ok(
        told == answer
            && sink.taken().len() == taken
            && FIRST_LINES[0].1.as_bytes().starts_with(sink.taken()),
    )
}

#[test]
fn writes_up_to_a_fault_of_the_sink(rt: HostRuntime) -> Result<(), Fail> {
    // Two lines of 82 bytes go in two writes of 100 at most; the third call is the flush.
    assert!(rt; is_written(rt.alloc(), 0, 164, Ok(()))?);
    assert!(rt; is_written(rt.alloc(), 2, 100, Err(MadeFault::Write))?);
    assert!(rt; is_written(rt.alloc(), 3, 164, Err(MadeFault::Write))?);
    Ok(())
}
