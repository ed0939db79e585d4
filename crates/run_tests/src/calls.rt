//! Calls at random, each one that its rank is ready for.

use adlb_unit::{Config, Payload, Rank, Target, Types, UnitId, WorkType};
use bag_ledger::Call;
use rand_core::utils::NextWord;
use rand_pcg::Pcg32;
use std::alloc::Global;
use std::test::Fail;

/// The stream of the generator.
const STREAM: u64 = 7;

/// Numbers as a seed gives them.
#[derive(Drop)]
pub(crate) struct Words {
    generator: Pcg32,
}

impl Words {
    pub(crate) fn new(seed: u64) -> Words {
        Words {
            generator: Pcg32::new(seed, STREAM),
        }
    }

    // One of the numbers below this one, and 0 below 0.
    pub(crate) fn below(&mut self, count: u32) -> u32 {
        let word: u32 = self.generator.next_word();
        word % count.max(1)
    }

    // A place of a list of this length.
    pub(crate) fn place(&mut self, count: usize) -> usize {
        let word: u32 = self.generator.next_word();
        word as usize % count.max(1)
    }
}

/// A call of a rank whose last call was granted this unit, for which a batch is going on or not. A unit that was granted is fetched
/// at once, but for one of four. Of some hundred calls one says that the problem is done.
pub(crate) fn call(
    alloc: Global,
    words: &mut Words,
    config: Config,
    granted: Option<UnitId>,
    open: bool,
) -> Result<Call, Fail> {
    match granted {
        Some(id) if words.below(4) > 0 => Ok(Call::Fetch { id }),
        _ => other_call(alloc, words, config, open),
    }
}

// A call that fetches nothing.
fn other_call(alloc: Global, words: &mut Words, config: Config, open: bool) -> Result<Call, Fail> {
    match words.below(400) {
        0..=219 => put(alloc, words, config),
        220..=259 => reserve(words),
        260..=299 => try_once(words),
        300..=329 => Ok(Call::Count {
            kind: WorkType(words.below(3)),
        }),
        330..=397 if open => Ok(Call::EndBatch),
        330..=397 => begin_batch(alloc, words),
        _ => Ok(Call::SetDone),
    }
}

fn reserve(words: &mut Words) -> Result<Call, Fail> {
    let types = types(words)?;
    Ok(Call::Reserve { types })
}

fn try_once(words: &mut Words) -> Result<Call, Fail> {
    let types = types(words)?;
    Ok(Call::Try { types })
}

fn begin_batch(alloc: Global, words: &mut Words) -> Result<Call, Fail> {
    let common = body(alloc, words)?;
    Ok(Call::BeginBatch { common })
}

/// The last calls: the rank reserves until it is told an end, ends its batch, if one is going on, and finishes.
pub(crate) fn last_call(ended: bool, open: bool) -> Call {
    match (ended, open) {
        (false, _) => Call::Reserve {
            types: Types::any(),
        },
        (true, true) => Call::EndBatch,
        (true, false) => Call::Finish,
    }
}

// Any type, or one or two of three.
fn types(words: &mut Words) -> Result<Types, Fail> {
    let kinds = [WorkType(words.below(3)), WorkType(words.below(3))];
    if words.below(3) == 0 {
        return Ok(Types::any());
    }
    Ok(Types::list(&kinds)?)
}

fn put(alloc: Global, words: &mut Words, config: Config) -> Result<Call, Fail> {
    Ok(Call::Put {
        kind: WorkType(words.below(3)),
        prio: if words.below(2) == 0 { 0 } else { 1 },
        target: target(words, config.ranks),
        answer: None,
        body: body(alloc, words)?,
    })
}

// A target in a run with this number of ranks.
fn target(words: &mut Words, ranks: u32) -> Target {
    let rank = Rank(words.below(ranks));
    match words.below(4) {
        0 | 1 => Target::Any,
        2 => Target::Only(rank),
        _ => Target::Soft(rank),
    }
}

// Up to 59 bytes.
fn body(alloc: Global, words: &mut Words) -> Result<Payload, Fail> {
    let length = words.below(60);
    let bytes = vec![in alloc; b'x'; length as usize]?;
    Ok(Payload::from_vec(bytes))
}
