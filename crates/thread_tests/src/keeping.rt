//! Entries that are kept, one by one.

use adlb_unit::NoMemory;
use bag_ledger::Entry;
use packed_ledger::Kept;
use std::slice;

/// Keeps one entry more, with the stamp of its event.
pub fn keep(kept: &mut Kept, stamp: u64, entry: Entry) -> Result<(), NoMemory> {
    kept.make_room_for(slice::from_ref(&entry))?;
    kept.push_reserved(stamp, entry);
    Ok(())
}
