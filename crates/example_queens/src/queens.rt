//! The queens as work: a board is a unit.

ghost use Rattle.std.specs.Prelude.{◌≡◌, ◌≤◌, [], IfOk};
ghost use Rattle.example_queens.specs.Boards.{placements};

use crate::boards::{child, count, is_safe};
use adlb::{Fault, NoMemory, Settings, Units, Work, run};
use std::alloc::Global;
use std::sync::Wait;
use std::thread::Threads;

/// The ways to place queens on a board of this side. A board that is half full is counted at once, and any other makes a unit of each
/// board with one row more.
#[derive(Clone, Copy)]
struct Queens {
    side: u8,
    ghost small: { side ≤ 15 },
}

impl Work for Queens {
    ghost worth = { λ q board. placements q.side board };

    ghost whole = { λ q. placements q.side [] };

    fn first(&self, out: &mut Units) -> Result<(), NoMemory> {
        out.push(b"")
    }

    #[tactic(auto, using(crate::proofs::Counting::split, crate::proofs::Counting::next_safe, crate::proofs::Counting::next_unsafe, std::proofs::lemmas::List::Sums::sum_by_push))]
    fn work(&self, board: &[u8], out: &mut Units) -> Result<u64, NoMemory> {
        if board.len() >= self.side as usize / 2 {
            return count(out.alloc(), self.side, board);
        }
        for column in 0..self.side {
            if is_safe(board, column) {
                out.push(child(out.alloc(), board, column)?.as_slice())?;
            }
        }
        Ok(0)
    }
}

/// How many ways there are to place queens on a board of this side, one in each row and none attacking another.
pub fn ways<R: Threads + Wait + Send + Copy + 'static>(
    alloc: Global,
    rt: R,
    side: u8,
    ranks: u32,
) -> Result<u128, Fault>
    requires small { side ≤ 15 }
    ensures total { IfOk result (λ total. total ≡ placements side []) }
{
    run(alloc, rt, Settings::new(ranks, 2), Queens { side })
}
