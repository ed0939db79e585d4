//! The command `check`, over any source and sink.

ghost use Rattle.std.specs.Prelude.{◌≡◌, ◌≤◌, ◌<◌, ◌+◌, ◌⊎◌, ℕ, List, IfOk, Some, length, MatchResult};
ghost use Rattle.adlb_unit.specs.declared.configs.Config.{Config};
ghost use Rattle.bag_ledger.specs.declared.entries.Entry.{Entry};
ghost use Rattle.adlb_io.specs.Outside.{Rises};
ghost use Rattle.ledger_file.specs.Lines.{IsFirstBad, IsText};
ghost use Rattle.ledger_command.specs.Ends.{ChecksTo};
ghost use Rattle.adlb_io.specs.Inputs.{seen};
ghost use Rattle.ledger_command.specs.Input.{input_limit};
ghost use Rattle.ledger_command.specs.Verdicts.{IsVerdict, Suits};

use crate::faults::CheckFault;
use crate::reading::read_verdict;
use crate::verdicts::Verdict;
use crate::writing::write_verdict;
use adlb_io::{Sink, Source};
use ledger_file::text_laws;
use ledger_rules::Complaint;
use std::alloc::Global;

/// Reads the input, which is to be the text of a configuration and a ledger, and writes a line of it. That has `legal`
/// and the number of its entries if it is a legal run. Otherwise it has `illegal` and the place of the first entry that
/// is no step, from 0. It takes at most 2^26 + 1 bytes of the input.
///
/// `ChecksTo` says of each end what was read and written and why it came. `Ok`: the input was read to its end, and the
/// sink took exactly the line of the verdict, and flushed. `Entry`: no configuration and ledger have this text
/// (`no_text`), and this is the first line that is not what is due (`IsFirstBad`). `TooLarge`: the input has more than
/// 2^26 bytes. Both only if no read failed. `Read` and `Write`: the count of faults of the source or of the sink rose
/// (or is at its last value). `Memory`: an allocation failed; contracts never say when. Nothing is written but at
/// `Write` and `Memory`, where a part of the line's front was taken.
///
/// In `complaint` stands what is wrong with the ledger then, if anything is (`suits`): the entry, and the rule that it breaks.
///
/// `complete`, `refused` and `overlong` say that each end that has its cause comes, or `Memory`.
pub fn check_ledger<S: Source, K: Sink>(
    alloc: Global,
    input: &mut S,
    output: &mut K,
    complaint: &mut Option<Complaint>,
) -> Result<Verdict, CheckFault>
    ensures ends { ChecksTo
        (seen (S.left input.old) (S.faults input.old) (K.taken output.old) (K.faults output.old)
        (K.all_flushed output.old))
        (seen (S.left input.new) (S.faults input.new) (K.taken output.new) (K.faults output.new)
        (K.all_flushed output.new))
        result }
    ensures suits { IfOk result (λ verdict. Suits verdict complaint.new) }
    ensures no_text { (line : ℕ) → result ≡ Err (CheckFault.Entry line) → (bytes : List ℕ) →
        S.left input.old ≡ Some bytes → (config : Config) (ledger : List Entry) → IsText config ledger bytes → ⊥ }

    // A text of a ledger is told if nothing outside failed, and any other input is refused if no read failed, unless
    // memory fails.
    ensures complete { (bytes : List ℕ) (config : Config) (ledger : List Entry) → S.left input.old ≡ Some bytes →
        length bytes ≤ input_limit → IsText config ledger bytes →
        (Rises (S.faults input.old) (S.faults input.new) → ⊥) →
        (Rises (K.faults output.old) (K.faults output.new) → ⊥) →
        MatchResult result (IsVerdict config ledger) (λ fault. fault ≡ CheckFault.Memory) }
    ensures refused { (bytes : List ℕ) (line : ℕ) → S.left input.old ≡ Some bytes → length bytes ≤ input_limit →
        IsFirstBad bytes line → (Rises (S.faults input.old) (S.faults input.new) → ⊥) →
        (result ≡ Err (CheckFault.Entry line)) ⊎ (result ≡ Err CheckFault.Memory) }
    ensures overlong { (bytes : List ℕ) → S.left input.old ≡ Some bytes → input_limit < length bytes →
        (Rises (S.faults input.old) (S.faults input.new) → ⊥) →
        (result ≡ Err (CheckFault.TooLarge (input_limit + 1))) ⊎ (result ≡ Err CheckFault.Memory) }

    ensures source { S.faults input.old ≤ S.faults input.new }
    ensures sink { K.faults output.old ≤ K.faults output.new }
{
    text_laws();
    check(alloc, input, output, complaint)
}

// Reads the input, and writes the line of its ledger.
fn check<S: Source, K: Sink>(
    alloc: Global,
    input: &mut S,
    output: &mut K,
    complaint: &mut Option<Complaint>,
) -> Result<Verdict, CheckFault>
    ensures ends { ChecksTo
        (seen (S.left input.old) (S.faults input.old) (K.taken output.old) (K.faults output.old)
        (K.all_flushed output.old))
        (seen (S.left input.new) (S.faults input.new) (K.taken output.new) (K.faults output.new)
        (K.all_flushed output.new))
        result }
    ensures suits { IfOk result (λ verdict. Suits verdict complaint.new) }
    ensures source { S.faults input.old ≤ S.faults input.new }
    ensures sink { K.faults output.old ≤ K.faults output.new }
{
    match read_verdict(alloc, input, complaint) {
        Ok(verdict) => write_verdict(alloc, output, verdict),
        Err(fault) => Err(fault),
    }
}
