//! What is said of each rule that an entry breaks.

use adlb_unit::NoMemory;
use ledger_file::{LedgerFault, read_ledger};
use ledger_rules::first_complaint;
use std::alloc::Global;
use std::test::Fail;

/// Each rule is broken once, in a run of two ranks and two servers with a limit of 64 bytes: a ledger whose last entry breaks it, and
/// after a mark what is said of that. A blank line stands between two of them.
const ROWS: &str = "\
    ledger 2 2 64\n\
    done 2 0\n\
    end 1\n\
    > done 2 0: rank 2 is not in the run\n\n\
    ledger 2 2 64\n\
    asked 0 0 any\n\
    asked 0 1 any\n\
    end 2\n\
    > asked 0 1 any: rank 0 has a call pending or has finished\n\n\
    ledger 2 2 64\n\
    asked 0 1 any\n\
    end 1\n\
    > asked 0 1 any: the next call of rank 0 is not 1\n\n\
    ledger 2 2 64\n\
    keeping 0 0 61\n\
    kept 0 0.0\n\
    keeping 0 1 61\n\
    end 3\n\
    > keeping 0 1 61: rank 0 has a batch going on\n\n\
    ledger 2 2 64\n\
    closing 0 0\n\
    end 1\n\
    > closing 0 0: rank 0 has no batch going on\n\n\
    ledger 2 2 64\n\
    rejected 0 0\n\
    end 1\n\
    > rejected 0 0: rank 0 brings nothing in call 0\n\n\
    ledger 2 2 64\n\
    putting 0 0 1 0 any none 61\n\
    accepted 2 0.0\n\
    end 2\n\
    > accepted 2 0.0: server 2 is not in the run\n\n\
    ledger 2 2 64\n\
    putting 0 0 1 0 any none 0000000000000000000000000000000000000000000000000000000000000000000000000000000000000000000000000000\
    000000000000000000000000000000\n\
    refused 0 0.0 0\n\
    refused 0 0.0 0\n\
    end 3\n\
    > refused 0 0.0 0: server 0 has declined the call of rank 0 already\n\n\
    ledger 2 2 64\n\
    putting 0 0 1 0 any none 0000000000000000000000000000000000000000000000000000000000000000000000000000000000000000000000000000\
    000000000000000000000000000000\n\
    refused 0 0.0 5\n\
    end 2\n\
    > refused 0 0.0 5: server 0 is not charged with 5 bytes\n\n\
    ledger 2 2 64\n\
    putting 0 0 1 0 any none 61\n\
    refused 0 0.0 0\n\
    end 2\n\
    > refused 0 0.0 0: what rank 0 brings fits beside 0 bytes\n\n\
    ledger 2 2 64\n\
    accepted 0 0.0\n\
    end 1\n\
    > accepted 0 0.0: unit 0.0 is not being put\n\n\
    ledger 2 2 64\n\
    putting 0 0 1 0 any none 0000000000000000000000000000000000000000000000000000000000000000000000000000000000000000000000000000\
    000000000000000000000000000000\n\
    accepted 0 0.0\n\
    end 2\n\
    > accepted 0 0.0: unit 0.0 does not fit at server 0\n\n\
    ledger 2 2 64\n\
    putting 0 0 1 0 any none 0000000000000000000000000000000000000000000000000000000000000000000000000000000000000000000000000000\
    000000000000000000000000000000\n\
    refused 0 0.0 0\n\
    rejected 0 0\n\
    end 3\n\
    > rejected 0 0: not each server has declined the call of rank 0\n\n\
    ledger 2 2 64\n\
    kept 0 0.0\n\
    end 1\n\
    > kept 0 0.0: batch 0.0 is not being begun\n\n\
    ledger 2 2 64\n\
    keeping 0 0 00000000000000000000000000000000000000000000000000000000000000000000000000000000000000000000000000000000000000000\
    00000000000000000\n\
    kept 0 0.0\n\
    end 2\n\
    > kept 0 0.0: the common part of batch 0.0 does not fit at server 0\n\n\
    ledger 2 2 64\n\
    keeping 0 0 61\n\
    kept 0 0.0\n\
    closed 0 0.0\n\
    end 3\n\
    > closed 0 0.0: batch 0.0 is not being ended\n\n\
    ledger 2 2 64\n\
    keeping 0 0 61\n\
    kept 0 0.0\n\
    closing 0 1\n\
    closed 1 0.0\n\
    end 4\n\
    > closed 1 0.0: server 1 does not keep the common part of batch 0.0\n\n\
    ledger 2 2 64\n\
    keeping 0 0 61\n\
    kept 0 0.0\n\
    freed 0 0.0\n\
    end 3\n\
    > freed 0 0.0: the common part of batch 0.0 is not due to be freed\n\n\
    ledger 2 2 64\n\
    keeping 0 0 61\n\
    kept 0 0.0\n\
    closing 0 1\n\
    closed 0 0.0\n\
    done 0 2\n\
    end 5\n\
    > done 0 2: a common part is due to be freed first\n\n\
    ledger 2 2 64\n\
    putting 0 0 1 0 any none 61\n\
    accepted 0 0.0\n\
    granted 0 0 0 0.0\n\
    end 3\n\
    > granted 0 0 0 0.0: rank 0 does not reserve or try to in call 0\n\n\
    ledger 2 2 64\n\
    asked 0 0 any\n\
    granted 1 0 0 0.0\n\
    end 2\n\
    > granted 1 0 0 0.0: unit 0.0 is not free at server 1\n\n\
    ledger 2 2 64\n\
    putting 0 0 1 0 only:0 none 61\n\
    accepted 0 0.0\n\
    asked 1 0 any\n\
    granted 0 1 0 0.0\n\
    end 4\n\
    > granted 0 1 0 0.0: unit 0.0 is not for rank 1, or of no type that it asks for\n\n\
    ledger 2 2 64\n\
    looked 0 0 0\n\
    end 1\n\
    > looked 0 0 0: rank 0 does not try to reserve in call 0\n\n\
    ledger 2 2 64\n\
    putting 0 0 1 0 any none 61\n\
    accepted 0 0.0\n\
    tried 1 0 any\n\
    looked 0 1 0\n\
    end 4\n\
    > looked 0 1 0: a unit for rank 1 is free at server 0\n\n\
    ledger 2 2 64\n\
    fetching 0 0 0.0\n\
    end 1\n\
    > fetching 0 0 0.0: unit 0.0 is not pinned to rank 0\n\n\
    ledger 2 2 64\n\
    fetched 0 0 0.0\n\
    end 1\n\
    > fetched 0 0 0.0: rank 0 does not await the own bytes of unit 0.0\n\n\
    ledger 2 2 64\n\
    putting 0 0 1 0 any none 61\n\
    accepted 0 0.0\n\
    asked 1 0 any\n\
    granted 0 1 0 0.0\n\
    fetching 1 1 0.0\n\
    fetched 1 1 0.0\n\
    end 6\n\
    > fetched 1 1 0.0: unit 0.0 is not pinned at server 1 to rank 1\n\n\
    ledger 2 2 64\n\
    commonfetched 0 0 0.0\n\
    end 1\n\
    > commonfetched 0 0 0.0: rank 0 does not await the common bytes of batch 0.0\n\n\
    ledger 2 2 64\n\
    promised 0 0.0 1\n\
    end 1\n\
    > promised 0 0.0 1: no unit 0.0 with 1 bytes was accepted\n\n\
    ledger 2 2 64\n\
    putting 0 0 1 0 any none 61\n\
    accepted 0 0.0\n\
    promised 1 0.0 1\n\
    left 0 1 0.0\n\
    withdrawn 1 0.0\n\
    end 5\n\
    > withdrawn 1 0.0: unit 0.0 travels, or was not accepted\n\n\
    ledger 2 2 64\n\
    putting 0 0 1 0 any none 61\n\
    accepted 0 0.0\n\
    promised 0 0.0 1\n\
    end 3\n\
    > promised 0 0.0 1: unit 0.0 is at server 0 already\n\n\
    ledger 2 2 64\n\
    putting 0 0 1 0 any none 61\n\
    accepted 0 0.0\n\
    promised 1 0.0 1\n\
    promised 1 0.0 1\n\
    end 4\n\
    > promised 1 0.0 1: room for unit 0.0 is promised already\n\n\
    ledger 2 2 64\n\
    putting 0 0 1 0 any none 00000000000000000000000000000000000000000000000000000000000000000000000000000000\n\
    accepted 0 0.0\n\
    putting 1 0 1 0 any none 00000000000000000000000000000000000000000000000000000000000000000000000000000000\n\
    accepted 1 1.0\n\
    promised 1 0.0 40\n\
    end 5\n\
    > promised 1 0.0 40: 40 bytes do not fit at server 1\n\n\
    ledger 2 2 64\n\
    putting 0 0 1 0 any none 61\n\
    accepted 0 0.0\n\
    left 0 1 0.0\n\
    end 3\n\
    > left 0 1 0.0: server 1 has promised no room for unit 0.0\n\n\
    ledger 2 2 64\n\
    arrived 0 0.0\n\
    end 1\n\
    > arrived 0 0.0: unit 0.0 does not travel to server 0\n\n\
    ledger 2 2 64\n\
    counted 0 0 0 0 none 0\n\
    end 1\n\
    > counted 0 0 0 0 none 0: rank 0 does not count in call 0\n\n\
    ledger 2 2 64\n\
    counting 0 0 1\n\
    counted 1 0 0 0 none 0\n\
    end 2\n\
    > counted 1 0 0 0 none 0: server 1 is not the home of rank 0\n\n\
    ledger 2 2 64\n\
    counting 0 0 1\n\
    counted 0 0 0 1 5 1\n\
    end 2\n\
    > counted 0 0 0 1 5 1: this is not what is free at server 0 of the type that rank 0 counts\n\n\
    ledger 2 2 64\n\
    exhausted\n\
    end 1\n\
    > exhausted: a rank works, room or a unit is under way, or a free unit is for a rank that waits\n\n\
    ledger 2 2 64\n\
    asked 0 0 any\n\
    asked 1 0 any\n\
    exhausted\n\
    exhausted\n\
    end 4\n\
    > exhausted: that all work is used up was found already\n\n\
    ledger 2 2 64\n\
    over 0 0 nomore\n\
    end 1\n\
    > over 0 0 nomore: rank 0 has no call 0 pending that an end answers\n\n\
    ledger 2 2 64\n\
    asked 0 0 any\n\
    over 0 0 nomore\n\
    end 2\n\
    > over 0 0 nomore: nobody has called the problem done\n\n\
    ledger 2 2 64\n\
    asked 0 0 any\n\
    over 0 0 exhausted\n\
    end 2\n\
    > over 0 0 exhausted: that all work is used up was not found";

// What is said of the ledger that has this text; nothing if it is legal.
fn said(alloc: Global, text: &[u8]) -> Result<Vec<u8>, LedgerFault> {
    let (config, ledger) = read_ledger(alloc, text)?;
    match first_complaint(alloc, &config, &ledger) {
        Ok(Some(complaint)) => or_fault(complaint.text(alloc)),
        Ok(None) => Ok(Vec::new(alloc)),
        Err(NoMemory) => Err(LedgerFault::Memory),
    }
}

fn or_fault(text: Result<Vec<u8>, NoMemory>) -> Result<Vec<u8>, LedgerFault> {
    match text {
        Ok(text) => Ok(text),
        Err(NoMemory) => Err(LedgerFault::Memory),
    }
}

fn is_said(alloc: Global, row: &str) -> Result<bool, LedgerFault> {
    let mut parts = row.split("> ");
    let text = said(alloc, parts.next().unwrap_or("").as_bytes())?;
    Ok(text.as_slice() == parts.next().unwrap_or("").as_bytes())
}

#[test]
fn each_rule_has_its_words(rt: HostRuntime) -> Result<(), Fail> {
    for row in ROWS.split("\n\n") {
        assert!(rt; is_said(rt.alloc(), row)?, "{row}");
    }
    Ok(())
}

#[test]
fn nothing_is_said_of_a_legal_run(rt: HostRuntime) -> Result<(), Fail> {
    let text = said(rt.alloc(), b"ledger 2 2 64\nasked 0 0 any\nend 1\n")?;
    assert!(rt; text.is_empty());
    Ok(())
}
