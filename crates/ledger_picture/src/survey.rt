//! What has to be known of a ledger before it is drawn.

use crate::levels::{charge_of, free_after, keeper_of};
use adlb_unit::{NoMemory, UnitId, or_no_memory};
use bag_ledger::Entry;
use ledger_checker::{Machine, Watch};
use std::alloc::Global;

/// How many types of work a legend shows at most.
const KINDS: usize = 8;

/// The highest charge of any server, the most units that are free at one, and the first types of work that are granted.
pub(crate) struct Survey {
    pub charge: u64,
    pub free: u64,
    pub kinds: Vec<u32>,
    now: Vec<u64>,
}

// By hand, so that whoever holds a survey lets it go by one call.
impl Drop for Survey {
    fn drop(self) {
        let Survey {
            charge,
            free,
            kinds,
            now,
        } = self;
    }
}

impl Survey {
    /// Nothing is known of a ledger with this number of servers. Its only error is `NoMemory`.
    pub fn new(alloc: Global, servers: u32) -> Result<Survey, NoMemory> {
        let mut now = Vec::new(alloc);
        for _ in 0..servers {
            or_no_memory(now.push(0))?;
        }
        Ok(Survey {
            charge: 0,
            free: 0,
            kinds: Vec::new(alloc),
            now,
        })
    }

    // Looks at the server that the entry names.
    fn measure(&mut self, machine: &Machine, entry: &Entry) {
        let Some(server) = keeper_of(entry) else {
            return;
        };
        self.charge = self.charge.max(charge_of(machine, server));
        if let Some(free) = self.now.get_mut(server.0 as usize) {
            *free = free_after(*free, entry);
            self.free = self.free.max(*free);
        }
    }

    // Keeps the type of the unit that is granted, if it is one of the first.
    fn keep_kind(&mut self, kind: u32) -> Result<(), NoMemory> {
        if self.kinds.len() >= KINDS || self.kinds.contains(&kind) {
            return Ok(());
        }
        or_no_memory(self.kinds.push(kind))?;
        self.kinds.sort_unstable();
        Ok(())
    }
}

impl Watch for Survey {
    fn took(&mut self, machine: &Machine, _place: u64, entry: &Entry) -> Result<(), NoMemory> {
        self.measure(machine, entry);
        match entry {
            Entry::Granted { id, .. } => self.keep_kind(kind_of(machine, *id)),
            _ => Ok(()),
        }
    }
}

/// The type of a unit.
pub(crate) fn kind_of(machine: &Machine, id: UnitId) -> u32 {
    match machine.unit(id) {
        Some(placed) => placed.unit.kind.0,
        None => 0,
    }
}
