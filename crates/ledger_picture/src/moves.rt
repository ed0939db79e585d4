//! Units that are moved between servers.

use crate::columns::Columns;
use crate::places::charge_base;
use crate::text::fill;
use adlb_unit::{NoMemory, Server, UnitId, or_no_memory};
use bag_ledger::Entry;
use std::alloc::Global;
use std::collections::BTreeMap;

/// A unit that is under way: from which server, and the entry at which it left.
#[derive(Clone, Copy)]
struct Way {
    from: Server,
    place: u64,
}

/// The units that are under way, and the arrows of those that have arrived.
pub(crate) struct Moves {
    ranks: u32,
    ways: BTreeMap<(u32, u64), Way>,
    next: u64,
    pub arrows: Vec<u8>,
}

// By hand, so that whoever holds the moves lets them go by one call.
impl Drop for Moves {
    fn drop(self) {
        let Moves {
            ranks,
            ways,
            next,
            arrows,
        } = self;
    }
}

impl Moves {
    /// No unit is under way. It takes no memory.
    pub fn new(alloc: Global, ranks: u32) -> Moves {
        Moves {
            ranks,
            ways: BTreeMap::new(alloc),
            next: 0,
            arrows: Vec::new(alloc),
        }
    }

    /// Draws what the entry at this place makes of units that are under way. Its only error is `NoMemory`.
    pub fn took(&mut self, columns: &Columns, place: u64, entry: &Entry) -> Result<(), NoMemory> {
        match entry {
            Entry::Left { server, id, .. } => self.leave(
                *id,
                Way {
                    from: *server,
                    place,
                },
            ),
            Entry::Arrived { server, id } => self.arrive(columns, *id, *server, place),
            _ => Ok(()),
        }
    }

    fn leave(&mut self, id: UnitId, way: Way) -> Result<(), NoMemory> {
        or_no_memory(self.ways.insert((id.rank.0, id.number), way))?;
        Ok(())
    }

    // Appends an arrow, unless another is too near. Its only error is `NoMemory`.
    fn arrive(
        &mut self,
        columns: &Columns,
        id: UnitId,
        to: Server,
        place: u64,
    ) -> Result<(), NoMemory> {
        let Some(way) = self.ways.remove(&(id.rank.0, id.number)) else {
            return Ok(());
        };
        let column = columns.of(place);
        if column < self.next {
            return Ok(());
        }
        self.next = column.saturating_add(columns.apart().saturating_mul(2));
        let ends = [
            columns.middle_of(way.place),
            self.level(way.from),
            columns.middle_of(place),
            self.level(to),
        ];
        fill(&mut self.arrows, b"<path class=\"m\" d=\"M~ ~L~ ~", &ends)?;
        fill(&mut self.arrows, head(way.from, to), &[])?;
        let told = [
            id.rank.0 as u64,
            id.number,
            way.from.0 as u64,
            to.0 as u64,
            way.place,
            place,
        ];
        fill(&mut self.arrows, TITLE, &told)
    }

    // Where the arrows of a server begin and end.
    fn level(&self, server: Server) -> u64 {
        charge_base(self.ranks, server.0).saturating_sub(12)
    }
}

const TITLE: &[u8] =
    b"\"><title>unit ~.~ from server ~ to server ~, entries ~ to ~</title></path>\n";

// The head of an arrow, which points down or up.
fn head(from: Server, to: Server) -> &'static [u8] {
    if from.0 < to.0 {
        b"l-3 -6h6l-3 6"
    } else {
        b"l-3 6h6l-3 -6"
    }
}
