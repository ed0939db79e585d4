//! Whoever draws a ledger while it is followed.

use crate::columns::Columns;
use crate::frame::{charge_scale, free_strip, put_axis, put_limit};
use crate::legend::put_legend;
use crate::levels::keeper_of;
use crate::moves::Moves;
use crate::numbers::Numbers;
use crate::places::{CHARGE_HEIGHT, FREE_HEIGHT, TOP, axis, charge_base};
use crate::ranks::{RankLane, RankLanes};
use crate::servers::{ServerLane, Steps, Strip};
use crate::survey::Survey;
use crate::text::{fill, put, put_escaped};
use adlb_unit::{Config, NoMemory, Server, or_no_memory};
use bag_ledger::Entry;
use ledger_checker::{Machine, Watch};
use ledger_rules::Complaint;
use std::alloc::Global;

/// The lanes of a picture that is being drawn.
pub(crate) struct Painter {
    numbers: Numbers,
    columns: Columns,
    ranks: RankLanes,
    servers: Vec<ServerLane>,
    moves: Moves,
    lines: Vec<u8>,
}

// By hand, so that whoever holds a painter lets it go by one call.
impl Drop for Painter {
    fn drop(self) {
        let Painter {
            numbers,
            columns,
            ranks,
            servers,
            moves,
            lines,
        } = self;
    }
}

impl Painter {
    /// Empty lanes. Its only error is `NoMemory`.
    pub fn new(
        alloc: Global,
        config: &Config,
        numbers: Numbers,
        survey: &Survey,
    ) -> Result<Painter, NoMemory> {
        let ranks = rank_lanes(alloc, numbers.ranks)?;
        let servers = server_lanes(alloc, config, survey)?;
        Ok(Painter {
            numbers,
            columns: Columns::new(numbers),
            ranks: RankLanes {
                lanes: ranks,
                bars: Vec::new(alloc),
                marks: Vec::new(alloc),
            },
            servers,
            moves: Moves::new(alloc, numbers.ranks),
            lines: Vec::new(alloc),
        })
    }

    // Draws what the entry at this place makes of the server that it names. Its only error is `NoMemory`.
    fn measure(&mut self, machine: &Machine, place: u64, entry: &Entry) -> Result<(), NoMemory> {
        let Some(server) = keeper_of(entry) else {
            return Ok(());
        };
        match self.servers.get_mut(server.0 as usize) {
            Some(lane) => lane.took(&self.columns, machine, place, (server, entry)),
            None => Ok(()),
        }
    }

    // Appends the line of exhaustion. Its only error is `NoMemory`.
    fn exhaust(&mut self, place: u64) -> Result<(), NoMemory> {
        let x = self.columns.middle_of(place);
        let bottom = axis(self.numbers.ranks, self.numbers.servers);
        fill(
            &mut self.lines,
            b"<path class=\"e\" d=\"M~ ~V~\"><title>all work is used up, entry ~</title></path>\n<text class=\"t\" x=\"~\" y=\"~\">used up</text>\n",
            &[x, TOP - 2, bottom, place, x, TOP - 6],
        )
    }

    /// Appends the lanes, of which those of ranks end where the drawn entries do, and the axis. Its only error is `NoMemory`.
    pub fn finish(
        &mut self,
        text: &mut Vec<u8>,
        survey: &Survey,
        config: &Config,
    ) -> Result<(), NoMemory> {
        put_legend(text, &survey.kinds)?;
        put_axis(text, self.numbers, &self.columns)?;
        self.put_servers(text, survey, config)?;
        self.put_ranks(text)
    }

    // Appends the lanes of the servers. Its only error is `NoMemory`.
    fn put_servers(
        &mut self,
        text: &mut Vec<u8>,
        survey: &Survey,
        config: &Config,
    ) -> Result<(), NoMemory> {
        for lane in self.servers.iter_mut() {
            lane.charge.finish(text, &self.columns, b"u")?;
            lane.free.finish(text, &self.columns, b"v")?;
        }
        for server in 0..config.servers {
            let charge = charge_strip(config, server, survey.charge);
            let free = free_strip(config.ranks, server, survey.free, FREE_HEIGHT);
            put_limit(text, &self.columns, charge, free, config.limit)?;
        }
        Ok(())
    }

    // Appends the lanes of the ranks, arrows, marks and lines. Its only error is `NoMemory`.
    fn put_ranks(&mut self, text: &mut Vec<u8>) -> Result<(), NoMemory> {
        let end = match self.numbers.illegal {
            Some(place) => place,
            None => self.numbers.entries,
        };
        for lane in self.ranks.lanes.iter_mut() {
            lane.close(&mut self.ranks.bars, &self.columns, end)?;
        }
        put(text, &self.ranks.bars)?;
        put(text, &self.moves.arrows)?;
        put(text, &self.ranks.marks)?;
        put(text, &self.lines)
    }

    /// Appends the mark of the first illegal entry, and what it is. Its only error is `NoMemory`.
    pub fn put_illegal(
        &self,
        alloc: Global,
        text: &mut Vec<u8>,
        illegal: Complaint,
    ) -> Result<(), NoMemory> {
        let place = illegal.place;
        let x = self.columns.middle_of(place);
        let y = axis(self.numbers.ranks, self.numbers.servers);
        fill(
            text,
            b"<path class=\"i\" d=\"M~ ~V~\"/>\n<text class=\"p\" x=\"8\" y=\"~\">entry ~ is illegal: ",
            &[x, TOP - 4, y, y.saturating_add(40), place],
        )?;
        let said = illegal.text(alloc)?;
        put_escaped(text, &said)?;
        put(text, b"</text>\n")
    }
}

impl Watch for Painter {
    fn took(&mut self, machine: &Machine, place: u64, entry: &Entry) -> Result<(), NoMemory> {
        self.ranks.took(&self.columns, machine, place, entry)?;
        self.moves.took(&self.columns, place, entry)?;
        self.measure(machine, place, entry)?;
        match entry {
            Entry::Exhausted => self.exhaust(place),
            _ => Ok(()),
        }
    }
}

fn rank_lanes(alloc: Global, count: u32) -> Result<Vec<RankLane>, NoMemory> {
    let mut lanes = Vec::new(alloc);
    for rank in 0..count {
        or_no_memory(lanes.push(RankLane::new(rank)))?;
    }
    Ok(lanes)
}

fn server_lanes(
    alloc: Global,
    config: &Config,
    survey: &Survey,
) -> Result<Vec<ServerLane>, NoMemory> {
    let mut lanes = Vec::new(alloc);
    for server in 0..config.servers {
        let charge = charge_strip(config, server, survey.charge);
        let free = free_strip(config.ranks, server, survey.free, FREE_HEIGHT);
        or_no_memory(lanes.push(ServerLane {
            charge: Steps::new(alloc, charge),
            free: Steps::new(alloc, free),
        }))?;
    }
    Ok(lanes)
}

// Where the charge of a server is drawn; the highest of any server is this.
fn charge_strip(config: &Config, server: u32, most: u64) -> Strip {
    Strip {
        base: charge_base(config.ranks, server),
        height: CHARGE_HEIGHT,
        top: charge_scale(config, most),
    }
}
