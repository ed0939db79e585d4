//! The reading of an input, up to its picture.

ghost use Rattle.std.specs.Prelude.{◌≡◌, ◌≤◌, IfOk, IfErr, OnOk};
ghost use Rattle.adlb_io.specs.Inputs.{IsAtEnd};
ghost use Rattle.ledger_command.specs.inside.{Refuses};
ghost use Rattle.draw_command.specs.Ends.{IsPictureOn};

use adlb_io::Source;
use ledger_command::{CheckFault, read_text};
use ledger_picture::{Picture, draw};
use std::alloc::Global;

/// The picture of the ledger whose text the input is (`IsPictureOn`). Its errors are those of `read_text`.
pub(crate) fn read_picture<S: Source>(alloc: Global, input: &mut S) -> Result<Picture, CheckFault>
    ensures picture { IfOk result (λ p. IsPictureOn (S.left input.old) p.numbers p.text.items) }
    ensures end { OnOk result (IsAtEnd (S.left input.new)) }
    ensures counted { OnOk result (S.faults input.new ≡ S.faults input.old) }
    ensures refused { IfErr result (Refuses (S.left input.old) (S.left input.new) (S.faults input.old) (S.faults input.new)) }
    ensures later { S.faults input.old ≤ S.faults input.new }
{
    let (config, ledger) = read_text(alloc, input)?;
    let picture = draw(alloc, &config, &ledger)?;
    Ok(picture)
}
