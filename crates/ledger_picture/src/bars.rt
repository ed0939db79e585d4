//! The bars of a rank's lane.

use crate::text::fill;
use adlb_unit::{NoMemory, UnitId};

/// The unit that a rank works, and its type.
#[derive(Clone, Copy)]
pub(crate) struct Work {
    pub id: UnitId,
    pub kind: u32,
}

/// What a rank does.
#[derive(Clone, Copy)]
pub(crate) enum Doing {
    /// Nothing that is drawn.
    Other,
    /// It waits for a unit.
    Waits,
    /// It works a unit: since it was granted, and until its next call that does not fetch it.
    Works(Work),
    /// It calls, after it worked a unit and before it reserves again: it mostly brings what the unit made.
    Brings(Work),
    /// It calls, and holds no unit.
    Calls,
}

/// A bar, from the entry `first` to the entry `last`.
#[derive(Clone, Copy)]
pub(crate) struct Bar {
    pub x: u64,
    pub y: u64,
    pub width: u64,
    pub first: u64,
    pub last: u64,
    /// It shows when it is pointed at.
    pub titled: bool,
}

impl Bar {
    /// Appends the bar of a rank that does this. Its only error is `NoMemory`.
    pub fn draw(&self, text: &mut Vec<u8>, doing: Doing) -> Result<(), NoMemory> {
        if matches!(doing, Doing::Other) {
            return Ok(());
        }
        open(text, doing)?;
        fill(text, b" d=\"M~ ~h~\"", &[self.x, self.y, self.width])?;
        if self.titled {
            self.close_titled(text, doing)
        } else {
            fill(text, b"/>\n", &[])
        }
    }

    fn close_titled(&self, text: &mut Vec<u8>, doing: Doing) -> Result<(), NoMemory> {
        fill(text, b"><title>", &[])?;
        title(text, doing)?;
        if self.first == self.last {
            fill(text, b", entry ~</title></path>\n", &[self.first])
        } else {
            fill(
                text,
                b", entries ~ to ~</title></path>\n",
                &[self.first, self.last],
            )
        }
    }
}

// The beginning of a bar, with its colour.
fn open(text: &mut Vec<u8>, doing: Doing) -> Result<(), NoMemory> {
    match doing {
        Doing::Other => Ok(()),
        Doing::Waits => fill(text, b"<path class=\"w\"", &[]),
        Doing::Works(work) => fill(text, b"<path class=\"k~\"", &[colour(work.kind)]),
        Doing::Brings(work) => fill(text, b"<path class=\"k~ b\"", &[colour(work.kind)]),
        Doing::Calls => fill(text, b"<path class=\"c b\"", &[]),
    }
}

// What it shows when it is pointed at.
fn title(text: &mut Vec<u8>, doing: Doing) -> Result<(), NoMemory> {
    match doing {
        Doing::Other => Ok(()),
        Doing::Waits => fill(text, b"waits", &[]),
        Doing::Works(work) => unit(text, b"works unit ~.~ of type ~", work),
        Doing::Brings(work) => unit(text, b"calls after unit ~.~ of type ~", work),
        Doing::Calls => fill(text, b"calls", &[]),
    }
}

fn unit(text: &mut Vec<u8>, form: &[u8], work: Work) -> Result<(), NoMemory> {
    let numbers = [work.id.rank.0 as u64, work.id.number, work.kind as u64];
    fill(text, form, &numbers)
}

/// Which of the eight colours a type has.
pub(crate) fn colour(kind: u32) -> u64 {
    kind as u64 % 8
}
