//! Values of rules.

ghost use Rattle.std.specs.Prelude.{◌≡◌, IfOk};
ghost use Rattle.flow_units.specs.Bodies.{answer_body, answer_in};
ghost use Rattle.flow_units.specs.Read.{answer_read};

use crate::pieces::{append, array_of};
use adlb_unit::{NoMemory, Payload, or_no_memory};
use std::alloc::Global;

/// The bytes of an answer.
const BYTES: usize = 12;

/// The value of the rule of this number.
#[derive(Clone, Copy, Drop)]
pub struct AnswerUnit {
    pub number: u32,
    pub value: u64,
}

impl AnswerUnit {
    /// The body of the answer (`answer_body`), of 12 bytes. Its only error is `NoMemory`.
    pub fn body(&self, alloc: Global) -> Result<Payload, NoMemory>
        ensures { IfOk result (λ p. p ≡ answer_body self.now.number self.now.value) }
    {
        let mut bytes = or_no_memory(Vec::with_capacity(alloc, BYTES))?;
        append(&mut bytes, &self.number.to_be_bytes())?;
        append(&mut bytes, &self.value.to_be_bytes())?;
        Ok(Payload::from_vec(bytes))
    }

    /// The answer that is in a body (`answer_in`), if there is one.
    pub fn read(body: &[u8]) -> Option<AnswerUnit>
        ensures { answer_read result ≡ answer_in body.now }
    {
        if body.len() != BYTES {
            return None;
        }
        Some(AnswerUnit {
            number: u32::from_be_bytes(array_of(&body[..4])),
            value: u64::from_be_bytes(array_of(&body[4..12])),
        })
    }
}
