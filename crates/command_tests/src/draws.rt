//! Numbers that tests draw.

use rand_core::utils::NextWord;
use rand_pcg::Pcg32;

/// The stream of the generator.
const STREAM: u64 = 7;

/// Numbers as a seed gives them.
#[derive(Drop)]
pub struct Draws {
    generator: Pcg32,
}

impl Draws {
    /// The numbers of this seed.
    pub fn new(seed: u64) -> Draws {
        Draws {
            generator: Pcg32::new(seed, STREAM),
        }
    }

    /// One of all numbers.
    pub fn word(&mut self) -> u32 {
        self.generator.next_word()
    }

    /// One of the numbers below this one, and 0 below 0.
    pub fn below(&mut self, count: u32) -> u32 {
        self.word() % count.max(1)
    }
}
