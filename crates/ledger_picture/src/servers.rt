//! The lane of a server.

use crate::columns::Columns;
use crate::levels::{charge_of, free_after};
use crate::text::fill;
use adlb_unit::{NoMemory, Server};
use bag_ledger::Entry;
use ledger_checker::Machine;
use std::alloc::Global;

/// A strip of a lane, in which a number is drawn as a height: from `base` upwards, `height` for the number `top`.
#[derive(Clone, Copy)]
pub(crate) struct Strip {
    pub base: u64,
    pub height: u64,
    pub top: u64,
}

impl Strip {
    /// Where the number lies.
    pub fn y(&self, n: u64) -> u64 {
        let height = n.min(self.top).saturating_mul(self.height) / self.top.max(1);
        self.base.saturating_sub(height)
    }
}

/// A number over the columns, drawn as steps: in each column the highest that it was there, and after it the last.
#[derive(Drop)]
pub(crate) struct Steps {
    strip: Strip,
    path: Vec<u8>,
    column: u64,
    most: u64,
    last: u64,
}

impl Steps {
    /// The number is 0 at first. It takes no memory.
    pub fn new(alloc: Global, strip: Strip) -> Steps {
        Steps {
            strip,
            path: Vec::new(alloc),
            column: 0,
            most: 0,
            last: 0,
        }
    }

    // The number has this value from this column on. Its only error is `NoMemory`.
    fn note(&mut self, columns: &Columns, column: u64, n: u64) -> Result<(), NoMemory> {
        if column == self.column {
            self.most = self.most.max(n);
        } else {
            self.draw(columns)?;
            self.column = column;
            self.most = n;
        }
        self.last = n;
        Ok(())
    }

    // Appends what is known of the column.
    fn draw(&mut self, columns: &Columns) -> Result<(), NoMemory> {
        let x = columns.x(self.column);
        fill(&mut self.path, b"H~V~", &[x, self.strip.y(self.most)])?;
        if self.last != self.most {
            let next = columns.x(self.column.saturating_add(1));
            fill(&mut self.path, b"H~V~", &[next, self.strip.y(self.last)])?;
        }
        Ok(())
    }

    /// Appends the steps, as a shape of this class that ends at the right. Its only error is `NoMemory`.
    pub fn finish(
        &mut self,
        text: &mut Vec<u8>,
        columns: &Columns,
        class: &[u8],
    ) -> Result<(), NoMemory> {
        self.draw(columns)?;
        fill(text, b"<path class=\"", &[])?;
        fill(text, class, &[])?;
        fill(text, b"\" d=\"M~ ~", &[columns.x(0), self.strip.base])?;
        fill(text, &self.path, &[])?;
        fill(text, b"H~V~z\"/>\n", &[columns.right(), self.strip.base])
    }
}

/// The lane of a server: its charge and its free units, over the columns.
#[derive(Drop)]
pub(crate) struct ServerLane {
    pub charge: Steps,
    pub free: Steps,
}

impl ServerLane {
    /// Draws what the entry at this place, which was a step, makes of the server. Its only error is `NoMemory`.
    pub fn took(
        &mut self,
        columns: &Columns,
        machine: &Machine,
        place: u64,
        (server, entry): (Server, &Entry),
    ) -> Result<(), NoMemory> {
        let column = columns.of(place);
        let charge = charge_of(machine, server);
        let free = free_after(self.free.last, entry);
        self.charge.note(columns, column, charge)?;
        self.free.note(columns, column, free)
    }
}
