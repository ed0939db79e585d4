//! The unit of a fetch.

ghost use Rattle.std.specs.Prelude.{◌≡◌, ◌<◌, ◌^◌, length, IfOk};
ghost use Rattle.adlb_unit.specs.Totals.{common_length, total_of};
ghost use Rattle.job_units.specs.Reading.{common_bytes, fetched};

use crate::units::Made;
use adlb_unit::{NoMemory, UnitNote};
use bag_ledger::Body;

/// What a fetch gave: the bytes of the common part, and the unit, if its own bytes have the form of one.
#[derive(Drop)]
pub struct Fetch<'a> {
    pub common: &'a [u8],
    pub unit: Option<Made>,
}

/// Reads the fetch of a unit of this note (`fetched`). Bytes are copied to `room` only if the two runs of the body
/// meet elsewhere than the common part and the unit's own bytes. Its only error is `NoMemory`.
pub fn read_fetch<'a>(
    note: &UnitNote,
    body: &'a Body,
    room: &'a mut Vec<u8>,
) -> Result<Fetch<'a>, NoMemory>
    requires { length body.now ≡ total_of note.now }
    ensures unit { IfOk result (λ fetch. fetch.unit ≡ fetched note.now body.now) }
    ensures common { IfOk result (λ fetch. fetch.common.now ≡ common_bytes note.now.length body.now) }
    ensures few { IfOk result (λ fetch. length fetch.common.now < 2 ^ 32) }
{
    let (common, own) = body.parted(common_count(note), room)?;
    Ok(Fetch {
        common,
        unit: Made::read(note.kind, note.answer, own),
    })
}

// How many bytes the common part has.
fn common_count(note: &UnitNote) -> usize
    ensures is { result ≡ common_length note.now.common }
    ensures few { result < 2 ^ 32 }
{
    match note.common {
        Some(part) => part.length as usize,
        None => 0,
    }
}
