//! The reading of an input.

ghost use Rattle.std.specs.Prelude.{◌≡◌, ◌≤◌, IfOk, IfErr, OnOk};
ghost use Rattle.adlb_io.specs.Inputs.{IsAtEnd};
ghost use Rattle.ledger_file.specs.Lines.{IsText};
ghost use Rattle.ledger_command.specs.Input.{IsTextOn, IsVerdictOn};
ghost use Rattle.ledger_command.specs.inside.{Refuses, RefusesText};
ghost use Rattle.ledger_command.specs.Verdicts.{Suits};

use crate::faults::CheckFault;
use crate::verdicts::Verdict;
use adlb_io::{Source, read_up_to};
use adlb_unit::Config;
use ledger_file::read_ledger;
use ledger_rules::{Complaint, first_complaint};
use packed_ledger::Ledger;
use std::alloc::Global;

/// The most bytes of an input.
const INPUT_LIMIT: usize = 0x400_0000;

/// The configuration and the ledger whose text the input is (`IsTextOn`). `TooLarge` comes if it has more than 2^26
/// bytes, of which one more is then taken, and `Entry` if no configuration and ledger have this text. Both come only
/// if no read failed, and `Read` only if the source's count of faults rose (or has its last value). Any of these
/// yields to `Memory`.
pub fn read_text<S: Source>(alloc: Global, input: &mut S) -> Result<(Config, Ledger), CheckFault>
    ensures told { IfOk result (λ x. IsTextOn (S.left input.old) x.0 x.1) }
    ensures end { OnOk result (IsAtEnd (S.left input.new)) }
    ensures counted { OnOk result (S.faults input.new ≡ S.faults input.old) }
    ensures refused { IfErr result (Refuses (S.left input.old) (S.left input.new) (S.faults input.old) (S.faults input.new)) }
    ensures later { S.faults input.old ≤ S.faults input.new }
{
    let bytes = read_up_to(alloc, input, INPUT_LIMIT + 1)?;
    if bytes.len() > INPUT_LIMIT {
        let taken = bytes.len() as u64;
        return Err(CheckFault::TooLarge { taken });
    }
    text_of(alloc, &bytes)
}

// The configuration and the ledger whose text these bytes are.
fn text_of(alloc: Global, bytes: &[u8]) -> Result<(Config, Ledger), CheckFault>
    ensures told { IfOk result (λ x. IsText x.0 x.1 bytes.now) }
    ensures refused { IfErr result (RefusesText bytes.now) }
{
    let (config, ledger) = read_ledger(alloc, bytes)?;
    Ok((config, ledger))
}

/// The verdict on the ledger whose text the input is, and in `complaint` what is wrong with it, if anything is (`Suits`). Its errors
/// are those of `read_text`.
pub fn read_verdict<S: Source>(
    alloc: Global,
    input: &mut S,
    complaint: &mut Option<Complaint>,
) -> Result<Verdict, CheckFault>
    ensures told { IfOk result (IsVerdictOn (S.left input.old)) }
    ensures suits { IfOk result (λ verdict. Suits verdict complaint.new) }
    ensures end { OnOk result (IsAtEnd (S.left input.new)) }
    ensures counted { OnOk result (S.faults input.new ≡ S.faults input.old) }
    ensures refused { IfErr result (Refuses (S.left input.old) (S.left input.new) (S.faults input.old) (S.faults input.new)) }
    ensures later { S.faults input.old ≤ S.faults input.new }
{
    let (config, ledger) = read_text(alloc, input)?;
    let found = first_complaint(alloc, &config, &ledger)?;
    let verdict = Verdict::of(&config, &ledger, &found);
    *complaint = found;
    Ok(verdict)
}
