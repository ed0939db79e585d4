//! What is around and below the lanes: the size, the colours, the axis, and the limit of each server.

use crate::columns::Columns;
use crate::numbers::Numbers;
use crate::places::{LEFT, TOP, axis, free_base, height, rank_middle, width};
use crate::servers::Strip;
use crate::text::fill;
use adlb_unit::{Config, NoMemory};
use std::alloc::Global;

/// The colours and lines of a picture. They are for a picture alone, in a page too.
const STYLE: &[u8] = b"<style>
.ledger-picture{background:#fff;font:11px sans-serif;fill:#222}
.ledger-picture .h{font-size:14px;font-weight:bold}
.ledger-picture .g{fill:none;stroke:#e4e4e4}
.ledger-picture .t{fill:#666;text-anchor:middle}
.ledger-picture .s{fill:#666;font-size:9px;text-anchor:end}
.ledger-picture .w{fill:none;stroke:#bdbdbd;stroke-width:3}
.ledger-picture .c{fill:none;stroke:#7d8794}
.ledger-picture [class^=k]{fill:none;stroke-width:14}
.ledger-picture .k0{stroke:#0072b2}
.ledger-picture .k1{stroke:#e69f00}
.ledger-picture .k2{stroke:#009e73}
.ledger-picture .k3{stroke:#cc79a7}
.ledger-picture .k4{stroke:#56b4e9}
.ledger-picture .k5{stroke:#a65628}
.ledger-picture .k6{stroke:#7b5ea7}
.ledger-picture .k7{stroke:#7a7a00}
.ledger-picture .b{stroke-width:6}
.ledger-picture .u{fill:#cfe2f3;stroke:#3d78b0}
.ledger-picture .v{fill:#d5e8cf;stroke:#3f7f35}
.ledger-picture .l{fill:none;stroke:#c62828}
.ledger-picture .j{stroke-dasharray:6 4}
.ledger-picture .m{fill:#333;stroke:#333;stroke-width:1.2}
.ledger-picture .x{fill:none;stroke:#d50000;stroke-width:2.4}
.ledger-picture .d{fill:#6a1b9a;stroke:#fff}
.ledger-picture .o{fill:#222;stroke:#fff}
.ledger-picture .f{fill:none;stroke:#222;stroke-width:2}
.ledger-picture .e{fill:none;stroke:#6a1b9a;stroke-dasharray:3 3}
.ledger-picture .i{fill:none;stroke:#d50000;stroke-width:2}
.ledger-picture .p{fill:#b00000;font-weight:bold}
</style>
";

/// What a picture has before the names of its lanes. Its only error is `NoMemory`.
pub(crate) fn size_of(
    alloc: Global,
    numbers: Numbers,
    columns: &Columns,
    limit: u64,
) -> Result<Vec<u8>, NoMemory> {
    let mut text = Vec::new(alloc);
    open(&mut text, numbers, columns)?;
    fill(&mut text, STYLE, &[])?;
    fill(
        &mut text,
        b"<rect width=\"100%\" height=\"100%\" fill=\"#fff\"/>\n<text class=\"h\" x=\"8\" y=\"22\">",
        &[],
    )?;
    put_heading(&mut text, numbers, limit)?;
    fill(&mut text, b"</text>\n", &[])?;
    Ok(text)
}

fn open(text: &mut Vec<u8>, numbers: Numbers, columns: &Columns) -> Result<(), NoMemory> {
    let w = width(columns.right());
    let h = height(numbers.ranks, numbers.servers);
    fill(
        text,
        b" class=\"ledger-picture\" role=\"img\" width=\"~\" height=\"~\" viewBox=\"0 0 ~ ~\">\n",
        &[w, h, w, h],
    )
}

// Appends what the picture is of.
fn put_heading(text: &mut Vec<u8>, numbers: Numbers, limit: u64) -> Result<(), NoMemory> {
    let ranks = numbers.ranks as u64;
    let servers = numbers.servers as u64;
    fill(
        text,
        b"Ranks: ~. Servers: ~, with ~ bytes each. Entries: ~, ",
        &[ranks, servers, limit, numbers.entries],
    )?;
    match numbers.illegal {
        Some(place) => fill(text, b"drawn up to the first illegal one, ~", &[place]),
        None => fill(text, b"a legal run", &[]),
    }
}

/// Appends the lines of the lanes and the axis with its numbers. Its only error is `NoMemory`.
pub(crate) fn put_axis(
    text: &mut Vec<u8>,
    numbers: Numbers,
    columns: &Columns,
) -> Result<(), NoMemory> {
    for rank in 0..numbers.ranks.min(32) {
        let y = rank_middle(rank);
        fill(
            text,
            b"<path class=\"g\" d=\"M~ ~H~\"/>\n",
            &[LEFT, y, columns.right()],
        )?;
    }
    let y = axis(numbers.ranks, numbers.servers);
    let step = columns.tick();
    for tick in 0..64u64 {
        let place = tick.saturating_mul(step);
        if place < columns.entries {
            put_tick(text, columns.middle_of(place), y, place)?;
        }
    }
    fill(
        text,
        b"<path d=\"M~ ~H~\" stroke=\"#222\"/>\n<text class=\"s\" x=\"~\" y=\"~\">entry</text>\n",
        &[LEFT, y, columns.right(), LEFT - 6, y.saturating_add(16)],
    )
}

fn put_tick(text: &mut Vec<u8>, x: u64, y: u64, place: u64) -> Result<(), NoMemory> {
    fill(
        text,
        b"<path class=\"g\" d=\"M~ ~V~\"/>\n<text class=\"t\" x=\"~\" y=\"~\">~</text>\n",
        &[x, TOP, y.saturating_add(4), x, y.saturating_add(16), place],
    )
}

/// Appends the limit of a server, as a line, and the scale of its lane. A limit that is above the scale is drawn at its upper end, broken.
/// Its only error is `NoMemory`.
pub(crate) fn put_limit(
    text: &mut Vec<u8>,
    columns: &Columns,
    charge: Strip,
    free: Strip,
    limit: u64,
) -> Result<(), NoMemory> {
    let y = charge.y(limit);
    let class: &[u8] = if limit > charge.top { b"l j" } else { b"l" };
    fill(text, b"<path class=\"", &[])?;
    fill(text, class, &[])?;
    fill(
        text,
        b"\" d=\"M~ ~H~\"><title>the limit, ~ bytes</title></path>\n",
        &[LEFT, y, columns.right(), limit],
    )?;
    if limit > charge.top {
        put_far_limit(text, columns.right(), y, limit)?;
    }
    put_scale(text, charge, b"~ B")?;
    put_scale(text, free, b"~ free")
}

// Appends the number of a limit that is above the scale.
fn put_far_limit(text: &mut Vec<u8>, x: u64, y: u64, limit: u64) -> Result<(), NoMemory> {
    fill(
        text,
        b"<text class=\"s\" x=\"~\" y=\"~\">limit ~ B, above the scale</text>\n",
        &[x, y.saturating_sub(3), limit],
    )
}

// Appends the number that a strip's height stands for.
fn put_scale(text: &mut Vec<u8>, strip: Strip, form: &[u8]) -> Result<(), NoMemory> {
    let y = strip.y(strip.top).saturating_add(7);
    fill(text, b"<text class=\"s\" x=\"~\" y=\"~\">", &[LEFT - 6, y])?;
    fill(text, form, &[strip.top])?;
    fill(text, b"</text>\n", &[])
}

/// The scale of charges of which none is higher than this: up to the limit, unless that is far above, where the charges would not be seen.
pub(crate) fn charge_scale(config: &Config, most: u64) -> u64 {
    let near = most.saturating_mul(4).max(64);
    if config.limit <= near {
        config.limit
    } else {
        most.saturating_add(most / 8).max(16)
    }
}

/// Where the free units of a server are drawn; the most that are free at one are these.
pub(crate) fn free_strip(ranks: u32, server: u32, most: u64, height: u64) -> Strip {
    Strip {
        base: free_base(ranks, server),
        height,
        top: most.max(1),
    }
}
