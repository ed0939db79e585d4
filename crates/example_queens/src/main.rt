//! `example_queens SIDE RANKS` counts the ways to place queens on a board of this side so that none attacks another.
#![tactic(auto)]

mod boards;
mod queens;

use adlb::Failure;
use queens::ways;
use std::env;

fn main(rt: HostRuntime) -> Result<(), Failure> {
    let mut words = env::args(&rt)?;
    // The first is the program's name.
    words.next();
    let side = number(words.next());
    let ranks = number(words.next());
    drop(words);
    let (Some(side @ 0..=15), Some(ranks)) = (side, ranks) else {
        return Err(Failure::Reason("usage: example_queens SIDE RANKS, with a side of at most 15"));
    };
    let total = ways(rt.alloc(), rt, side as u8, ranks)?;
    println!(rt; "{total} ways to place {side} queens")?;
    Ok(())
}

fn number(word: Option<String>) -> Option<u32> {
    word?.parse().ok()
}
