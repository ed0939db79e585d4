//! How much room entries take.

ghost use Rattle.std.specs.Prelude.{◌≡◌, IfSome};
ghost use Rattle.packed_ledger.specs.Sizes.{room_for, size_of};

use bag_ledger::Entry;

/// The most bytes that an entry takes with its stamp, besides the bytes that it tells.
pub const ENTRY_SIZE: usize = 160;

/// The room for these entries, if it is a number of bytes at all.
pub(crate) fn room_of(entries: &[Entry]) -> Option<usize>
    ensures { IfSome result (λ bytes. bytes ≡ room_for entries.now) }
{
    let mut bytes: usize = 0;
    for entry in entries {
        bytes = bytes.checked_add(size_of(entry)?)?;
    }
    Some(bytes)
}

/// The room for one entry, if it is a number of bytes at all.
pub(crate) fn size_of(entry: &Entry) -> Option<usize>
    ensures { IfSome result (λ bytes. bytes ≡ size_of entry.now) }
{
    match entry {
        Entry::Putting { body, .. } => ENTRY_SIZE.checked_add(body.len()),
        Entry::Keeping { common, .. } => ENTRY_SIZE.checked_add(common.len()),
        _ => Some(ENTRY_SIZE),
    }
}
