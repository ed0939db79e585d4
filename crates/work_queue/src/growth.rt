//! Room for units that are still to come.

ghost use Rattle.std.specs.Prelude.{◌≡◌, ◌≤◌, ◌+◌, OnOk, length};
ghost use Rattle.adlb_unit.specs.declared.names.UnitId.{UnitId};
ghost use Rattle.slab.specs.Slab.{HasRoomFor};
ghost use Rattle.work_queue.specs.inside.Names.{spare_in, stamp_at};

use crate::indexing::Index;
use crate::naming::Names;
use crate::parted::Parted;
use crate::placing::Placed;
use slab::Slab;
use std::alloc::AllocError;

// Makes room for `more` units, so that they come without more memory. No unit changes.
pub(crate) fn make_room(
    slots: &mut Slab<Placed>,
    order: &mut Parted<usize>,
    index: &mut Index,
    names: &mut Names,
    more: usize,
) -> Result<(), AllocError>
    ensures slots { slots.new ≡ record slots.old { capacity = slots.new.capacity } }
    ensures slots_grown { slots.old.capacity ≤ slots.new.capacity }
    ensures slots_room { OnOk result (HasRoomFor slots.new more) }
    ensures items { order.new.items ≡ order.old.items }
    ensures order_grown { order.old.capacity ≤ order.new.capacity }
    ensures entries { index.new.entries.items ≡ index.old.entries.items }
    ensures stamps { index.new.stamps.items ≡ index.old.stamps.items }
    ensures entries_grown { index.old.entries.capacity ≤ index.new.entries.capacity }
    ensures stamps_grown { index.old.stamps.capacity ≤ index.new.stamps.capacity }
    ensures entries_room { OnOk result (length index.new.entries.items + more ≤ index.new.entries.capacity) }
    ensures stamps_room { OnOk result (length index.new.stamps.items + more ≤ index.new.stamps.capacity) }
    ensures names { (q : UnitId) → stamp_at names.new q ≡ stamp_at names.old q }
    ensures names_grown { spare_in names.old ≤ spare_in names.new }
    ensures names_room { OnOk result (more ≤ spare_in names.new) }
    ensures order_room { OnOk result (length order.new.items + more ≤ order.new.capacity) }
{
    slots.reserve(more)?;
    order.reserve(more)?;
    index.reserve(more)?;
    names.reserve(more)
}
