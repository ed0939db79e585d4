//! Rules with the values of their inputs.

ghost use Rattle.std.specs.Prelude.{◌≡◌, IfOk};
ghost use Rattle.flow_units.specs.Bodies.{op_byte as byte_of, op_in, rule_body, rule_in};
ghost use Rattle.flow_units.specs.Read.{rule_read};

use crate::pieces::{append, array_of};
use adlb_unit::{NoMemory, Payload, or_no_memory};
use flow_law::Op;
use std::alloc::Global;

/// The bytes of a rule.
const BYTES: usize = 21;

/// A rule that is ready: its number, what it does, and the values of its inputs.
#[derive(Clone, Copy, Drop)]
pub struct RuleUnit {
    pub number: u32,
    pub op: Op,
    pub left: u64,
    pub right: u64,
}

impl RuleUnit {
    /// The body of the rule (`rule_body`), of 21 bytes. Its only error is `NoMemory`.
    pub fn body(&self, alloc: Global) -> Result<Payload, NoMemory>
        ensures { IfOk result (λ p. p ≡ rule_body self.now.number self.now.op self.now.left self.now.right) }
    {
        let mut bytes = or_no_memory(Vec::with_capacity(alloc, BYTES))?;
        append(&mut bytes, &self.number.to_be_bytes())?;
        append(&mut bytes, &[op_byte(self.op)])?;
        append(&mut bytes, &self.left.to_be_bytes())?;
        append(&mut bytes, &self.right.to_be_bytes())?;
        Ok(Payload::from_vec(bytes))
    }

    /// The rule that is in a body (`rule_in`), if there is one.
    pub fn read(body: &[u8]) -> Option<RuleUnit>
        ensures { rule_read result ≡ rule_in body.now }
    {
        if body.len() != BYTES {
            return None;
        }
        match op_of(body[4]) {
            None => None,
            Some(op) => Some(RuleUnit {
                number: u32::from_be_bytes(array_of(&body[..4])),
                op,
                left: u64::from_be_bytes(array_of(&body[5..13])),
                right: u64::from_be_bytes(array_of(&body[13..21])),
            }),
        }
    }
}

// The byte that stands for what a rule does.
fn op_byte(op: Op) -> u8
    ensures { result ≡ byte_of op }
{
    match op {
        Op::Add => 1,
        Op::Mul => 2,
        Op::Min => 3,
        Op::Max => 4,
        Op::Xor => 5,
    }
}

// What a rule of this byte does, if there is one.
fn op_of(byte: u8) -> Option<Op>
    ensures { result ≡ op_in byte }
{
    if byte == 1 {
        Some(Op::Add)
    } else if byte == 2 {
        Some(Op::Mul)
    } else if byte == 3 {
        Some(Op::Min)
    } else if byte == 4 {
        Some(Op::Max)
    } else if byte == 5 {
        Some(Op::Xor)
    } else {
        None
    }
}
