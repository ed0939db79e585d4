//! Where things are in a picture, in its units of length.

/// The left end of the lanes.
pub(crate) const LEFT: u64 = 80;

/// The right margin.
const RIGHT: u64 = 24;

/// The least width.
const LEAST_WIDTH: u64 = 780;

/// The upper end of the first rank's lane.
pub(crate) const TOP: u64 = 88;

/// The height of a rank's lane.
pub(crate) const RANK_HEIGHT: u64 = 24;

/// The height of a server's lane.
pub(crate) const SERVER_HEIGHT: u64 = 80;

/// What lies between the last rank's lane and the first server's.
const GAP: u64 = 12;

/// The height of the part of a server's lane that shows its charge.
pub(crate) const CHARGE_HEIGHT: u64 = 40;

/// The height of the part that shows its free units.
pub(crate) const FREE_HEIGHT: u64 = 18;

/// The middle of a rank's lane.
pub(crate) fn rank_middle(rank: u32) -> u64 {
    TOP + RANK_HEIGHT * rank as u64 + RANK_HEIGHT / 2
}

/// The upper end of a server's lane, below the lanes of that many ranks.
pub(crate) fn server_top(ranks: u32, server: u32) -> u64 {
    TOP + RANK_HEIGHT * ranks as u64 + GAP + SERVER_HEIGHT * server as u64
}

/// The level at which a server's charge is nothing.
pub(crate) fn charge_base(ranks: u32, server: u32) -> u64 {
    server_top(ranks, server).saturating_add(8 + CHARGE_HEIGHT)
}

/// The level at which a server has no free unit.
pub(crate) fn free_base(ranks: u32, server: u32) -> u64 {
    server_top(ranks, server).saturating_add(14 + CHARGE_HEIGHT + FREE_HEIGHT)
}

/// Where the axis lies, below all lanes.
pub(crate) fn axis(ranks: u32, servers: u32) -> u64 {
    server_top(ranks, servers).saturating_add(6)
}

/// The height of the whole picture.
pub(crate) fn height(ranks: u32, servers: u32) -> u64 {
    axis(ranks, servers).saturating_add(58)
}

/// The width of a picture whose lanes end there.
pub(crate) fn width(right: u64) -> u64 {
    right.saturating_add(RIGHT).max(LEAST_WIDTH)
}
