//! Reading from a source until it ends or there is no more room, and writing a whole text to a sink.

ghost use Rattle.std.specs.Prelude.{◌≡◌, ◌≤◌, ◌==◌, length, take, IfOk, IfErr, OnOk, OnErr, true, false, if◌then◌else◌};
ghost use Rattle.adlb_io.specs.Outside.{Rises, Takes};
ghost use Rattle.adlb_io.specs.Whole.{Fills, IsCut, Reads};
ghost use Rattle.adlb_io.specs.inside.{Appends};

use crate::sinks::{Sink, SinkFault};
use crate::sources::{Failed, Source, SourceFault};
use adlb_unit::or_no_memory;
use std::alloc::Global;

/// Reads until the room is full or the source is at its end, and answers how many bytes were read. It takes no more
/// of the source than the room has place for. `Failed` comes only if the source's count of faults rose (or is at its
/// last value). Otherwise no read failed, and the count stays.
pub fn fill<S: Source>(source: &mut S, room: &mut [u8]) -> Result<usize, Failed>
    ensures bound { IfOk result (λ n. n ≤ length room.old) }
    ensures filled { IfOk result (λ n. Fills (S.left source.old) (S.left source.new) room.new n) }
    ensures counted { OnOk result (S.faults source.new ≡ S.faults source.old) }
    ensures later { S.faults source.old ≤ S.faults source.new }
    ensures cause { OnErr result (Rises (S.faults source.old) (S.faults source.new)) }
{
    let mut at = 0;
    while at < room.len() {
        let n = source.read(&mut room[at..])?;
        if n == 0 {
            return Ok(at);
        }
        at += n;
    }
    Ok(at)
}

/// How many bytes are read at once.
const ROOM: usize = 0x1_0000;

/// Reads until the source is at its end or `most` bytes were read (`Reads`). `Failed` comes only if the source's count of
/// faults rose (or is at its last value), and `Memory` if an allocation failed; the count stays then, and at `Ok`.
pub fn read_up_to<S: Source>(
    alloc: Global,
    source: &mut S,
    most: usize,
) -> Result<Vec<u8>, SourceFault>
    ensures read { IfOk result (λ bytes. Reads (S.left source.old) (S.left source.new) most bytes.items) }
    ensures bound { IfOk result (λ bytes. length bytes.items ≤ most) }
    ensures counted { OnOk result (S.faults source.new ≡ S.faults source.old) }
    ensures later { S.faults source.old ≤ S.faults source.new }
    ensures cause { IfErr result (λ fault. IsCut fault (S.faults source.old) (S.faults source.new)) }
{
    let mut bytes = Vec::new(alloc);
    while bytes.len() < most {
        let wanted = ROOM.min(most - bytes.len());
        if read_piece(alloc, source, wanted, &mut bytes)? < wanted {
            return Ok(bytes);
        }
    }
    Ok(bytes)
}

// Appends the next bytes, `wanted` or what is left, and answers how many they are.
fn read_piece<S: Source>(
    alloc: Global,
    source: &mut S,
    wanted: usize,
    bytes: &mut Vec<u8>,
) -> Result<usize, SourceFault>
    ensures appended { IfOk result (λ n. Appends (S.left source.old) (S.left source.new) wanted bytes.old.items bytes.new.items n) }
    ensures counted { OnOk result (S.faults source.new ≡ S.faults source.old) }
    ensures later { S.faults source.old ≤ S.faults source.new }
    ensures cause { IfErr result (λ fault. IsCut fault (S.faults source.old) (S.faults source.new)) }
{
    let mut room = or_no_memory(vec![in alloc; 0_u8; wanted])?;
    let n = fill(source, &mut room)?;
    or_no_memory(bytes.extend_from_slice(&room[..n]))?;
    Ok(n)
}

/// A text was not written whole: why, and how many of its first bytes the sink took.
#[derive(Clone, Copy, Debug, PartialEq, Eq)]
pub struct Unwritten {
    pub fault: SinkFault,
    pub taken: usize,
}

/// Writes the whole text and flushes. A refusal tells how many bytes of the text the sink took before, which are its
/// first; if it took any, they are not flushed. `Failed` comes only where the sink's count of faults rose (or is at
/// its last value).
pub fn write_all<K: Sink>(sink: &mut K, text: &[u8]) -> Result<(), Unwritten>
    ensures taken { OnOk result (Takes (K.taken sink.old) (K.taken sink.new) text.now) }
    ensures flushed { OnOk result (K.all_flushed sink.new ≡ true) }
    ensures front { IfErr result (λ e. Takes (K.taken sink.old) (K.taken sink.new) (take e.taken text.now)) }
    ensures part { IfErr result (λ e. e.taken ≤ length text.now) }
    ensures unflushed { IfErr result (λ e. K.all_flushed sink.new ≡ (if e.taken == 0 then K.all_flushed sink.old else false)) }
    ensures later { K.faults sink.old ≤ K.faults sink.new }
    ensures cause { IfErr result (λ e. e.fault ≡ SinkFault.Failed → Rises (K.faults sink.old) (K.faults sink.new)) }
{
    let mut taken = 0;
    while taken < text.len() {
        match sink.write(&text[taken..]) {
            Ok(n) => taken += n,
            Err(fault) => return Err(Unwritten { fault, taken }),
        }
    }
    match sink.flush() {
        Ok(()) => Ok(()),
        Err(fault) => Err(Unwritten { fault, taken }),
    }
}
