//! A gate that tells what it sees.

use adlb_io::{Gate, GatePoint};
use adlb_unit::{NoMemory, Rank, or_no_memory};
use crossbeam_channel::Sender;
use std::alloc::Global;
use std::sync::Wait;

/// A gate that is always open, and tells which points were passed, by which rank, as long as there is room. Its twin goes when the
/// work of its rank has ended, or was not begun.
#[derive(Drop)]
pub struct SeenGate<R: Wait> {
    pub rt: R,
    pub seen: Sender<(u32, GatePoint), Global>,
}

impl<R: Wait + Copy> Gate for SeenGate<R> {
    fn pass(&self, rank: Rank, point: GatePoint) {
        let _ = self.seen.try_send(&self.rt, (rank.0, point));
    }

    fn twin(&self) -> Result<SeenGate<R>, NoMemory> {
        Ok(SeenGate {
            rt: self.rt,
            seen: or_no_memory(self.seen.clone())?,
        })
    }
}

/// The same, by a sender that it is lent.
#[derive(Drop)]
pub struct LentGate<'a, R: Wait> {
    pub rt: R,
    pub seen: &'a Sender<(u32, GatePoint), Global>,
}

impl<R: Wait + Copy> Gate for LentGate<'_, R> {
    fn pass(&self, rank: Rank, point: GatePoint) {
        let _ = self.seen.try_send(&self.rt, (rank.0, point));
    }

    fn twin(&self) -> Result<Self, NoMemory> {
        Ok(LentGate {
            rt: self.rt,
            seen: self.seen,
        })
    }
}
