//! Answers.

ghost use Rattle.std.specs.Prelude.{◌≡◌, ◌↔◌, length, Some, IfOk};
ghost use Rattle.job_units.specs.Bodies.{answer_body};
ghost use Rattle.job_units.specs.Forms.{IsAnswer};
ghost use Rattle.job_units.specs.Reading.{answer_of_body};
ghost use Rattle.job_units.specs.declared.answers.Answer.{Answer};

use crate::pieces::{array_of, joined, long_word, word};
use adlb_unit::{NoMemory, Payload};
use std::alloc::Global;

/// The bytes of an answer.
const BYTES: usize = 16;

/// The value that answers an item of a batch. Batches, and the items of a batch, are numbered from 1.
#[derive(Clone, Copy, PartialEq, Eq)]
pub struct Answer {
    pub batch: u32,
    pub number: u32,
    pub value: u64,
}

impl Answer {
    /// The body of the answer (`answer_body`), of 16 bytes. Its only error is `NoMemory`.
    #[tactic(auto, unfolding(crate::specs::Bodies::answer_body))]
    pub fn body(&self, alloc: Global) -> Result<Payload, NoMemory>
        ensures body { IfOk result (λ p. p ≡ answer_body self.now) }
        ensures form { IsAnswer self.now }
        ensures long { IfOk result (λ p. length p ≡ 16) }
    {
        joined(
            alloc,
            &word(self.batch),
            &word(self.number),
            &long_word(self.value),
        )
    }

    /// The answer that has this body (`answer_of_body`), if any: exactly the one of which it is the body (`exact`).
    pub fn read(body: &[u8]) -> Option<Answer>
        ensures read { result ≡ answer_of_body body.now }
        ensures exact { (a : Answer) → IsAnswer a → (result ≡ Some a) ↔ (body.now ≡ answer_body a) }
    {
        if body.len() != BYTES {
            return None;
        }
        let (batch, rest) = body.split_at(4);
        let (number, value) = rest.split_at(4);
        Some(Answer {
            batch: u32::from_be_bytes(array_of(batch)),
            number: u32::from_be_bytes(array_of(number)),
            value: u64::from_be_bytes(array_of(value)),
        })
    }
}
