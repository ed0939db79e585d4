//! Ledgers that are told, texts that are refused, and faults outside.

use adlb_io::{MemorySink, MemorySource, SteadySink, SteadySource};
use ledger_command::{CheckFault, Verdict, check_ledger};
use std::alloc::Global;
use std::test::Fail;

/// What a check answers.
type Told = Result<Verdict, CheckFault>;

/// A ledger in which each of two ranks is granted the one unit.
const GRANTED_TWICE: &[u8] =
    b"ledger 2 1 64\nputting 0 0 1 0 any none 6162\naccepted 0 0.0\nasked 0 1 any\n\
      granted 0 0 1 0.0\nasked 1 0 any\ngranted 0 1 0 0.0\nend 6\n";

/// The first without its last entry.
const GRANTED_ONCE: &[u8] =
    b"ledger 2 1 64\nputting 0 0 1 0 any none 6162\naccepted 0 0.0\nasked 0 1 any\n\
      granted 0 0 1 0.0\nasked 1 0 any\nend 5\n";

/// The second with another count of entries.
const MISCOUNTED: &[u8] =
    b"ledger 2 1 64\nputting 0 0 1 0 any none 6162\naccepted 0 0.0\nasked 0 1 any\n\
      granted 0 0 1 0.0\nasked 1 0 any\nend 6\n";

// The check of these bytes answers this, and writes this.
fn tells(alloc: Global, bytes: Vec<u8>, wanted: Told, line: &str) -> Result<bool, Fail> {
    let mut input = SteadySource::new(bytes);
    let mut output = SteadySink::new(alloc);
    let told = check_ledger(alloc, &mut input, &mut output, &mut None);
    Ok(told == wanted && output.taken() == line.as_bytes())
}

// The check of the legal ledger answers and writes this. The source and the sink move at most 50 and 4 bytes at a time,
// and their calls of the numbers `read` and `write` fail.
fn tells_failing(
    alloc: Global,
    (read, write): (u64, u64),
    wanted: Told,
    line: &str,
) -> Result<bool, Fail> {
    let bytes = GRANTED_ONCE.to_vec(alloc)?;
    let mut input = MemorySource::new(bytes, 50, [read].to_vec(alloc)?);
    let mut output = MemorySink::new(alloc, 4, [write].to_vec(alloc)?);
    let told = check_ledger(alloc, &mut input, &mut output, &mut None);
    Ok(told == wanted && output.taken() == line.as_bytes())
}

/// Ledgers, and what is said of them.
const TOLD: &[(&[u8], Verdict, &str)] = &[
    (
        b"ledger 2 1 64\nend 0\n",
        Verdict::Legal { entries: 0 },
        "legal 0\n",
    ),
    (
        b"ledger 2 1 64\nexhausted\nend 1\n",
        Verdict::Illegal { place: 0 },
        "illegal 0\n",
    ),
    (GRANTED_ONCE, Verdict::Legal { entries: 5 }, "legal 5\n"),
    (GRANTED_TWICE, Verdict::Illegal { place: 5 }, "illegal 5\n"),
];

#[test]
fn tells_of_each_ledger(rt: HostRuntime) -> Result<(), Fail> {
    for (bytes, verdict, line) in TOLD {
        assert!(rt;
            tells(rt.alloc(), bytes.to_vec(rt.alloc())?, Ok(*verdict), line)?,
            "{line}"
        );
    }
    Ok(())
}

/// Texts of no ledger, and the first line that is not what is due.
const REFUSED: &[(&[u8], u64)] = &[
    (b"", 1),
    (MISCOUNTED, 7),
    (b"ledger 2 1 64\ndone 0 0\n", 3),
    (b"ledger 2 1 64\ndone 0 0\r\nend 1\n", 2),
    (b"ledger 2 1 64\ndone 0 007\nend 1\n", 2),
    (b"ledger 2 1 64\nputting 0 0 1 -0 any none -\nend 1\n", 2),
    (b"ledger 2 1 64\ndone 0 18446744073709551616\nend 1\n", 2),
    (b"ledger 2 1 64\nputting 0 0 1 0 any none 616\nend 1\n", 2),
    (b"ledger 2 1 64\nend 0\n\n", 3),
];

// The text is refused for this line, and nothing is written.
fn is_refused(alloc: Global, bytes: &[u8], line: u64) -> Result<bool, Fail> {
    tells(
        alloc,
        bytes.to_vec(alloc)?,
        Err(CheckFault::Entry { line }),
        "",
    )
}

#[test]
fn refuses_each_other_text_and_writes_nothing(rt: HostRuntime) -> Result<(), Fail> {
    for (at, (bytes, line)) in REFUSED.iter().enumerate() {
        assert!(rt; is_refused(rt.alloc(), bytes, *line)?, "row {at}");
    }
    Ok(())
}

// An input of this number of line feeds is refused so, and nothing is written.
fn feeds_are_refused(alloc: Global, size: usize, fault: CheckFault) -> Result<bool, Fail> {
    tells(alloc, vec![in alloc; b'\n'; size]?, Err(fault), "")
}

#[test]
fn an_input_has_at_most_two_to_the_26_bytes(rt: HostRuntime) -> Result<(), Fail> {
    let most = CheckFault::Entry { line: 1 };
    assert!(rt; feeds_are_refused(rt.alloc(), 0x400_0000, most)?);
    let more = CheckFault::TooLarge { taken: 0x400_0001 };
    assert!(rt; feeds_are_refused(rt.alloc(), 0x400_0001, more)?);
    Ok(())
}

/// The calls that fail, and what is answered and written. Three reads give 111 bytes in pieces of 50, and the fourth
/// finds the end. 8 bytes go in two writes of 4, and the third call is the flush.
const FAULTS: &[((u64, u64), Told, &str)] = &[
    ((0, 0), Ok(Verdict::Legal { entries: 5 }), "legal 5\n"),
    ((1, 0), Err(CheckFault::Read), ""),
    ((4, 0), Err(CheckFault::Read), ""),
    ((5, 4), Ok(Verdict::Legal { entries: 5 }), "legal 5\n"),
    ((0, 1), Err(CheckFault::Write), ""),
    ((0, 2), Err(CheckFault::Write), "lega"),
    ((0, 3), Err(CheckFault::Write), "legal 5\n"),
];

#[test]
fn tells_of_faults_outside(rt: HostRuntime) -> Result<(), Fail> {
    for (fails, wanted, line) in FAULTS {
        assert!(rt;
            tells_failing(rt.alloc(), *fails, *wanted, line)?,
            "{fails:?}"
        );
    }
    Ok(())
}
