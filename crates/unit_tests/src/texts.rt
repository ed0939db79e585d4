//! The text of a configuration and a ledger.

use adlb_unit::{Config, End, Info, Rank, Target, Types};
use bag_ledger::Entry;
use ledger_file::{LedgerFault, read_back, read_ledger, write_ledger};
use packed_ledger::Ledger;
use std::alloc::Global;
use std::test::Fail;

// Reads the text and writes what was read.
fn written_again(alloc: Global, text: &[u8]) -> Result<Vec<u8>, LedgerFault> {
    let (config, ledger) = read_ledger(alloc, text)?;
    match write_ledger(alloc, &config, &ledger) {
        Ok(bytes) => Ok(bytes),
        Err(_) => Err(LedgerFault::Memory),
    }
}

// The text is refused at this line.
fn is_refused(alloc: Global, text: &[u8], line: u64) -> bool {
    match read_ledger(alloc, text) {
        Err(LedgerFault::Refused { line: at }) => at == line,
        _ => false,
    }
}

// The entries of a run without work, in order.
fn entry(place: u32) -> Entry {
    let rank = Rank(0);
    match place {
        0 => Entry::Asked {
            rank,
            call: 0,
            types: Types::any(),
        },
        1 => Entry::Exhausted,
        2 => Entry::Over {
            rank,
            call: 0,
            end: End::Exhausted,
        },
        _ => Entry::Finished { rank, call: 1 },
    }
}

fn without_work(alloc: Global) -> Result<Ledger, Fail> {
    let mut ledger = Ledger::new(alloc);
    for place in 0..4 {
        ledger.push(entry(place))?;
    }
    Ok(ledger)
}

const WITHOUT_WORK: &[u8] =
    b"ledger 1 1 67108864\nasked 0 0 any\nexhausted\nover 0 0 exhausted\nfinished 0 1\nend 4\n";

fn is_written(alloc: Global, config: &Config, ledger: &Ledger, text: &[u8]) -> Result<bool, Fail> {
    let written = write_ledger(alloc, config, ledger)?;
    Ok(written.as_slice() == text)
}

fn is_read_back(alloc: Global, config: &Config, ledger: &Ledger) -> Result<bool, Fail> {
    let (same, entries) = read_back(alloc, config, ledger)?;
    Ok(same == *config && entries.len() == 4)
}

fn is_kept(alloc: Global, config: &Config, ledger: &Ledger) -> Result<bool, Fail> {
    Ok(is_written(alloc, config, ledger, WITHOUT_WORK)? && is_read_back(alloc, config, ledger)?)
}

fn without_work_is_kept(alloc: Global) -> Result<bool, Fail> {
    let config = Config::new(1, 1, 67108864)?;
    let ledger = without_work(alloc)?;
    is_kept(alloc, &config, &ledger)
}

#[test]
fn a_run_without_work(rt: HostRuntime) -> Result<(), Fail> {
    assert!(rt; without_work_is_kept(rt.alloc())?);
    Ok(())
}

// Each entry once, and each form of its fields.
const EACH_ENTRY: &[u8] = b"ledger 32 8 1073741824\n\
putting 0 0 4294967295 -2147483648 any none 6162\n\
putting 1 18446744073709551615 0 2147483647 only:31 0 -\n\
putting 2 1 7 0 soft:4294967295 12 00ff0a\n\
refused 7 0.0 100\n\
accepted 0 31.18446744073709551615\n\
rejected 0 9\n\
keeping 3 10 -\n\
kept 1 3.10\n\
closing 3 11\n\
closed 1 3.10\n\
freed 1 3.10\n\
asked 0 1 any\n\
tried 0 2 0,4294967295,1,2,3,4,5,6,7,8,9,10,11,12,13,14\n\
granted 0 0 1 0.0\n\
looked 0 0 2\n\
nocurrent 0 2\n\
fetching 0 3 0.0\n\
fetched 0 0 0.0\n\
commonfetched 1 0 3.10\n\
promised 1 0.0 4294967295\n\
left 0 1 0.0\n\
arrived 1 0.0\n\
withdrawn 1 0.0\n\
counting 0 4 5\n\
counted 0 0 4 0 none 0\n\
counted 0 0 4 3 -1 2\n\
done 0 5\n\
exhausted\n\
over 0 6 nomore\n\
over 0 7 exhausted\n\
finished 0 8\n\
end 31\n";

// The entries are those of the text, by three of them.
fn are_each_entry(entries: &[Entry]) -> bool {
    entries.len() == 31
        && is_put_for_any(&entries[0])
        && is_put_softly(&entries[2])
        && is_counted(&entries[25])
}

fn is_put_for_any(entry: &Entry) -> bool {
    matches!(
        entry,
        Entry::Putting {
            prio: -2147483648,
            target: Target::Any,
            answer: None,
            ..
        }
    )
}

fn is_put_softly(entry: &Entry) -> bool {
    matches!(
        entry,
        Entry::Putting {
            target: Target::Soft(_),
            answer: Some(Rank(12)),
            ..
        }
    )
}

fn is_counted(entry: &Entry) -> bool {
    matches!(
        entry,
        Entry::Counted {
            info: Info {
                free: 3,
                top: Some(-1),
                at_top: 2
            },
            ..
        }
    )
}

fn all_are_read(alloc: Global) -> Result<bool, Fail> {
    let expected = Config::new(32, 8, 1073741824)?;
    let (config, ledger) = read_ledger(alloc, EACH_ENTRY)?;
    Ok(config == expected && are_each_entry(&ledger.list(alloc)?))
}

#[test]
fn each_entry_is_read(rt: HostRuntime) -> Result<(), Fail> {
    assert!(rt; all_are_read(rt.alloc())?);
    Ok(())
}

fn all_are_written(alloc: Global) -> Result<bool, LedgerFault> {
    let written = written_again(alloc, EACH_ENTRY)?;
    Ok(written.as_slice() == EACH_ENTRY)
}

#[test]
fn each_entry_is_written(rt: HostRuntime) -> Result<(), Fail> {
    assert!(rt; all_are_written(rt.alloc())?);
    Ok(())
}

// Texts that are refused, with the line.
const BAD: &[(&[u8], u64)] = &[
    (b"", 1),
    (b"ledger 2 1 64", 1),
    (b"ledger 2 1 63\nend 0\n", 1),
    (b"ledger 33 1 64\nend 0\n", 1),
    (b"ledger 2 1 64 \nend 0\n", 1),
    (b"ledger 2 1 64\r\nend 0\n", 1),
    (b"ledger  2 1 64\nend 0\n", 1),
    (b"Ledger 2 1 64\nend 0\n", 1),
    (b"ledger 2 1 64\n", 2),
    (b"ledger 2 1 64\nend 0", 2),
    (b"ledger 2 1 64\nend 1\n", 2),
    (b"ledger 2 1 64\nend 00\n", 2),
    (b"ledger 2 1 64\nend 0\n\n", 3),
    (b"ledger 2 1 64\nend 0\nend 0\n", 3),
    (b"ledger 2 1 64\n\nend 0\n", 2),
    (b"ledger 2 1 64\ndone 0 007\nend 1\n", 2),
    (b"ledger 2 1 64\ndone 0 +7\nend 1\n", 2),
    (b"ledger 2 1 64\ndone 4294967296 0\nend 1\n", 2),
    (b"ledger 2 1 64\ndone 0 18446744073709551616\nend 1\n", 2),
    (b"ledger 2 1 64\ndone 0 0\r\nend 1\n", 2),
    (b"ledger 2 1 64\ndone 0 0 0\nend 1\n", 2),
    (b"ledger 2 1 64\ndone 0 0\nDone 0 1\nend 2\n", 3),
    (b"ledger 2 1 64\nputting 0 0 1 -0 any none -\nend 1\n", 2),
    (
        b"ledger 2 1 64\nputting 0 0 1 2147483648 any none -\nend 1\n",
        2,
    ),
    (b"ledger 2 1 64\nputting 0 0 1 0 any 1.0 -\nend 1\n", 2),
    (b"ledger 2 1 64\nputting 0 0 1 0 any none 616\nend 1\n", 2),
    (b"ledger 2 1 64\nputting 0 0 1 0 any none 6A\nend 1\n", 2),
    (b"ledger 2 1 64\nputting 0 0 1 0 any none \nend 1\n", 2),
    (b"ledger 2 1 64\nasked 0 0 1,,2\nend 1\n", 2),
    (
        b"ledger 2 1 64\nasked 0 0 0,1,2,3,4,5,6,7,8,9,10,11,12,13,14,15,16\nend 1\n",
        2,
    ),
];

#[test]
fn bad_texts_are_refused_at_their_line(rt: HostRuntime) {
    for (at, (text, line)) in BAD.iter().enumerate() {
        assert!(rt; is_refused(rt.alloc(), text, *line), "row {at}");
    }
}

// The limit and the number of the entries that the text has.
fn counted(alloc: Global, text: &[u8]) -> Result<(u64, u64), LedgerFault> {
    let (config, ledger) = read_ledger(alloc, text)?;
    Ok((config.limit, ledger.len()))
}

#[test]
fn the_end_line_counts_the_entries(rt: HostRuntime) -> Result<(), Fail> {
    let good =
        b"ledger 2 1 64\nputting 0 0 1 0 any none 6162\naccepted 0 0.0\nasked 0 1 any\ngranted 0 0 1 0.0\nasked 1 0 any\nend 5\n";
    let bad =
        b"ledger 2 1 64\nputting 0 0 1 0 any none 6162\naccepted 0 0.0\nasked 0 1 any\ngranted 0 0 1 0.0\nasked 1 0 any\nend 6\n";
    assert!(rt; counted(rt.alloc(), good)? == (64, 5));
    assert!(rt; is_refused(rt.alloc(), bad, 7));
    Ok(())
}
