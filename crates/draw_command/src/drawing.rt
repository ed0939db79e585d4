//! The command `draw`, over any source and sink.

ghost use Rattle.std.specs.Prelude.{◌≡◌, ◌≤◌, ◌<◌, ◌+◌, ◌⊎◌, ℕ, List, Some, length, MatchResult};
ghost use Rattle.adlb_unit.specs.declared.configs.Config.{Config};
ghost use Rattle.bag_ledger.specs.declared.entries.Entry.{Entry};
ghost use Rattle.adlb_io.specs.Outside.{Rises};
ghost use Rattle.adlb_io.specs.Inputs.{seen};
ghost use Rattle.ledger_file.specs.Lines.{IsFirstBad, IsText};
ghost use Rattle.ledger_command.specs.Input.{input_limit};
ghost use Rattle.ledger_picture.specs.Numbers.{IsNumbersOf};
ghost use Rattle.draw_command.specs.Ends.{DrawsTo};

use crate::reading::read_picture;
use crate::writing::write_picture;
use adlb_io::{Sink, Source};
use ledger_command::CheckFault;
use ledger_file::text_laws;
use ledger_picture::Numbers;
use std::alloc::Global;

/// Reads the input, which is to be the text of a configuration and a ledger, and writes the ledger as a picture. It
/// is an SVG with a lane for each rank and server, up to the first entry that is no step. It takes at most 2^26 + 1
/// bytes of the input.
///
/// `DrawsTo` says of each end what was read and written and why it came. `Ok`: the input was read to its end, and the
/// sink took exactly a picture with the numbers of its ledger, and flushed. `Entry`, `TooLarge`, `Read`, `Write` and
/// `Memory` come as those of `check_ledger`. Nothing is written but at `Write` and `Memory`, where a part of the
/// picture's front was taken.
///
/// `complete`, `refused` and `overlong` say that each end that has its cause comes, or `Memory`.
pub fn draw_ledger<S: Source, K: Sink>(
    alloc: Global,
    input: &mut S,
    output: &mut K,
) -> Result<Numbers, CheckFault>
    ensures ends { DrawsTo
        (seen (S.left input.old) (S.faults input.old) (K.taken output.old) (K.faults output.old)
        (K.all_flushed output.old))
        (seen (S.left input.new) (S.faults input.new) (K.taken output.new) (K.faults output.new)
        (K.all_flushed output.new))
        result }
    ensures no_text { (line : ℕ) → result ≡ Err (CheckFault.Entry line) → (bytes : List ℕ) →
        S.left input.old ≡ Some bytes → (config : Config) (ledger : List Entry) → IsText config ledger bytes → ⊥ }

    // A text of a ledger is drawn if nothing outside failed, and any other input is refused if no read failed, unless memory fails.
    ensures complete { (bytes : List ℕ) (config : Config) (ledger : List Entry) → S.left input.old ≡ Some bytes →
        length bytes ≤ input_limit → IsText config ledger bytes →
        (Rises (S.faults input.old) (S.faults input.new) → ⊥) →
        (Rises (K.faults output.old) (K.faults output.new) → ⊥) →
        MatchResult result (IsNumbersOf config ledger) (λ fault. fault ≡ CheckFault.Memory) }
    ensures refused { (bytes : List ℕ) (line : ℕ) → S.left input.old ≡ Some bytes → length bytes ≤ input_limit →
        IsFirstBad bytes line → (Rises (S.faults input.old) (S.faults input.new) → ⊥) →
        (result ≡ Err (CheckFault.Entry line)) ⊎ (result ≡ Err CheckFault.Memory) }
    ensures overlong { (bytes : List ℕ) → S.left input.old ≡ Some bytes → input_limit < length bytes →
        (Rises (S.faults input.old) (S.faults input.new) → ⊥) →
        (result ≡ Err (CheckFault.TooLarge (input_limit + 1))) ⊎ (result ≡ Err CheckFault.Memory) }

    ensures source { S.faults input.old ≤ S.faults input.new }
    ensures sink { K.faults output.old ≤ K.faults output.new }
{
    text_laws();
    draw_input(alloc, input, output)
}

// Reads the input, and writes the picture of its ledger.
fn draw_input<S: Source, K: Sink>(
    alloc: Global,
    input: &mut S,
    output: &mut K,
) -> Result<Numbers, CheckFault>
    ensures ends { DrawsTo
        (seen (S.left input.old) (S.faults input.old) (K.taken output.old) (K.faults output.old)
        (K.all_flushed output.old))
        (seen (S.left input.new) (S.faults input.new) (K.taken output.new) (K.faults output.new)
        (K.all_flushed output.new))
        result }
    ensures source { S.faults input.old ≤ S.faults input.new }
    ensures sink { K.faults output.old ≤ K.faults output.new }
{
    match read_picture(alloc, input) {
        Ok(picture) => write_picture(output, picture),
        Err(fault) => Err(fault),
    }
}
