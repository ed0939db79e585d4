//! The lane of a rank.

use crate::bars::{Bar, Doing, Work};
use crate::columns::Columns;
use crate::places::rank_middle;
use crate::survey::kind_of;
use crate::text::fill;
use adlb_unit::{NoMemory, Rank, UnitId};
use bag_ledger::Entry;
use ledger_checker::Machine;

/// What an entry makes of what its rank does.
#[derive(Clone, Copy)]
enum Turn {
    /// It reserves.
    Asks,
    /// It is granted a unit.
    Gets(UnitId),
    /// It calls, and does not reserve or fetch.
    Calls,
    /// It has no unit and waits for none.
    Rests,
}

/// A mark in a rank's lane.
#[derive(Clone, Copy)]
enum Mark {
    /// What the rank brings was rejected.
    Rejected,
    /// The rank calls the problem done.
    Done,
    /// The rank's call was answered by an end.
    Over,
    /// The rank leaves.
    Finished,
}

// The rank whose doing the entry turns, and what it makes of it.
fn turn_of(entry: &Entry) -> Option<(Rank, Turn)> {
    match entry {
        Entry::Asked { rank, .. } => Some((*rank, Turn::Asks)),
        Entry::Tried { rank, .. } => Some((*rank, Turn::Asks)),
        Entry::Granted { rank, id, .. } => Some((*rank, Turn::Gets(*id))),
        Entry::Putting { rank, .. } => Some((*rank, Turn::Calls)),
        Entry::Keeping { rank, .. } => Some((*rank, Turn::Calls)),
        Entry::Closing { rank, .. } => Some((*rank, Turn::Calls)),
        Entry::Counting { rank, .. } => Some((*rank, Turn::Calls)),
        Entry::Done { rank, .. } => Some((*rank, Turn::Calls)),
        Entry::NoCurrent { rank, .. } => Some((*rank, Turn::Rests)),
        Entry::Over { rank, .. } => Some((*rank, Turn::Rests)),
        Entry::Finished { rank, .. } => Some((*rank, Turn::Rests)),
        _ => None,
    }
}

// The rank that the entry marks, and how.
fn mark_of(entry: &Entry) -> Option<(Rank, Mark)> {
    match entry {
        Entry::Rejected { rank, .. } => Some((*rank, Mark::Rejected)),
        Entry::Done { rank, .. } => Some((*rank, Mark::Done)),
        Entry::Over { rank, .. } => Some((*rank, Mark::Over)),
        Entry::Finished { rank, .. } => Some((*rank, Mark::Finished)),
        _ => None,
    }
}

// What a rank does after this turn.
fn after(doing: Doing, turn: Turn, machine: &Machine) -> Doing {
    match (turn, doing) {
        (Turn::Asks, _) => Doing::Waits,
        (Turn::Gets(id), _) => Doing::Works(Work {
            id,
            kind: kind_of(machine, id),
        }),
        (Turn::Calls, Doing::Works(work)) => Doing::Brings(work),
        (Turn::Calls, Doing::Brings(work)) => Doing::Brings(work),
        (Turn::Calls, _) => Doing::Calls,
        (Turn::Rests, _) => Doing::Other,
    }
}

/// The lane of a rank: what the rank does since which entry, how many columns are drawn, and from which column on a mark of each kind
/// may be drawn.
#[derive(Clone, Copy)]
pub(crate) struct RankLane {
    rank: u32,
    doing: Doing,
    since: u64,
    drawn: u64,
    rejected: u64,
    done: u64,
    over: u64,
}

impl RankLane {
    /// An empty lane.
    pub fn new(rank: u32) -> RankLane {
        RankLane {
            rank,
            doing: Doing::Other,
            since: 0,
            drawn: 0,
            rejected: 0,
            done: 0,
            over: 0,
        }
    }

    // Turns to what the rank does from the entry at this place on. Its only error is `NoMemory`.
    fn turn(
        &mut self,
        text: &mut Vec<u8>,
        columns: &Columns,
        place: u64,
        doing: Doing,
    ) -> Result<(), NoMemory> {
        if is_same(self.doing, doing) {
            return Ok(());
        }
        self.close(text, columns, place)?;
        self.doing = doing;
        self.since = place;
        Ok(())
    }

    /// Appends the bar of what the rank did before the entry at this place. Its only error is `NoMemory`.
    pub fn close(
        &mut self,
        text: &mut Vec<u8>,
        columns: &Columns,
        place: u64,
    ) -> Result<(), NoMemory> {
        let last = place.saturating_sub(1);
        let from = columns.of(self.since).max(self.drawn);
        let to = columns.of(last).saturating_add(1);
        if matches!(self.doing, Doing::Other) || from >= to || place <= self.since {
            return Ok(());
        }
        self.drawn = to;
        let count = to.saturating_sub(from);
        let bar = Bar {
            x: columns.x(from),
            y: rank_middle(self.rank),
            width: count.saturating_mul(columns.width),
            first: self.since,
            last,
            titled: columns.single() || count > 2,
        };
        bar.draw(text, self.doing)
    }

    // Appends a mark at the entry at this place, unless one of its kind is too near. Its only error is `NoMemory`.
    fn mark(
        &mut self,
        text: &mut Vec<u8>,
        columns: &Columns,
        place: u64,
        mark: Mark,
    ) -> Result<(), NoMemory> {
        let column = columns.of(place);
        if !self.has_room(mark, column, columns.apart()) {
            return Ok(());
        }
        let at = [columns.middle_of(place), rank_middle(self.rank), place];
        match mark {
            Mark::Rejected => fill(text, REJECTED, &at),
            Mark::Done => fill(text, DONE, &at),
            Mark::Over => fill(text, OVER, &at),
            Mark::Finished => fill(text, FINISHED, &at),
        }
    }

    // Whether a mark of this kind may be drawn in the column, and if so keeps the next columns free of others.
    fn has_room(&mut self, mark: Mark, column: u64, apart: u64) -> bool {
        let next = match mark {
            Mark::Rejected => &mut self.rejected,
            Mark::Done => &mut self.done,
            Mark::Over => &mut self.over,
            Mark::Finished => return true,
        };
        if column < *next {
            return false;
        }
        *next = column.saturating_add(apart);
        true
    }
}

// The rank goes on with what it does.
fn is_same(before: Doing, after: Doing) -> bool {
    match (before, after) {
        (Doing::Waits, Doing::Waits) => true,
        (Doing::Calls, Doing::Calls) => true,
        (Doing::Brings(a), Doing::Brings(b)) => a.id == b.id,
        (Doing::Other, Doing::Other) => true,
        _ => false,
    }
}

/// The forms of the marks.
pub(crate) const REJECTED: &[u8] =
    b"<path class=\"x\" d=\"M~ ~m-4 -4l8 8m0 -8l-8 8\"><title>rejected, entry ~</title></path>\n";

pub(crate) const DONE: &[u8] =
    b"<path class=\"d\" d=\"M~ ~m-5 5h10l-5 -10z\"><title>the problem is done, entry ~</title></path>\n";

pub(crate) const OVER: &[u8] =
    b"<path class=\"o\" d=\"M~ ~m-3 -3h6v6h-6z\"><title>told an end, entry ~</title></path>\n";

pub(crate) const FINISHED: &[u8] =
    b"<path class=\"f\" d=\"M~ ~m0 -9v18\"><title>finished, entry ~</title></path>\n";

/// The lanes of all ranks.
pub(crate) struct RankLanes {
    pub lanes: Vec<RankLane>,
    pub bars: Vec<u8>,
    pub marks: Vec<u8>,
}

// By hand, so that whoever holds the lanes lets them go by one call.
impl Drop for RankLanes {
    fn drop(self) {
        let RankLanes { lanes, bars, marks } = self;
    }
}

impl RankLanes {
    /// Draws what the entry at this place, which was a step, makes of a rank. Its only error is `NoMemory`.
    pub fn took(
        &mut self,
        columns: &Columns,
        machine: &Machine,
        place: u64,
        entry: &Entry,
    ) -> Result<(), NoMemory> {
        if let Some((rank, turn)) = turn_of(entry) {
            self.turn(columns, machine, place, rank, turn)?;
        }
        if let Some((rank, mark)) = mark_of(entry) {
            self.mark(columns, place, rank, mark)?;
        }
        Ok(())
    }

    fn turn(
        &mut self,
        columns: &Columns,
        machine: &Machine,
        place: u64,
        rank: Rank,
        turn: Turn,
    ) -> Result<(), NoMemory> {
        match self.lanes.get_mut(rank.0 as usize) {
            Some(lane) => {
                let doing = after(lane.doing, turn, machine);
                lane.turn(&mut self.bars, columns, place, doing)
            }
            None => Ok(()),
        }
    }

    fn mark(
        &mut self,
        columns: &Columns,
        place: u64,
        rank: Rank,
        mark: Mark,
    ) -> Result<(), NoMemory> {
        match self.lanes.get_mut(rank.0 as usize) {
            Some(lane) => lane.mark(&mut self.marks, columns, place, mark),
            None => Ok(()),
        }
    }
}
