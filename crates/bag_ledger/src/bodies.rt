//! What a fetch gives.

ghost use Rattle.std.specs.Prelude.{◌≡◌, ◌≤◌, ◌++◌, length, take, drop, IfOk};

use adlb_unit::{NoMemory, Payload, or_no_memory};
use std::alloc::Global;
use std::marker::Model;

/// The bytes that a fetch gives: those of the common part, if there is one, and then the unit's own. Each run shares its
/// bytes with whoever else has them, and the two are not copied together. It is seen as its bytes in order.
#[derive(Debug)]
pub struct Body {
    common: Option<Payload>,
    own: Payload,
}

// By hand, so that whoever holds a body lets it go by one call, and does not look at its two runs.
impl Drop for Body {
    fn drop(self) {
        let Body { common, own } = self;
    }
}

impl Model for Body {
    ghost use Rattle.std.specs.Prelude.{List, ℕ};
    ghost use Rattle.bag_ledger.specs.Bodies.{bytes_of};

    ghost Value = { List ℕ };

    ghost view = { λ body. bytes_of body.common body.own };
}

impl Body {
    /// A unit's own bytes alone. It takes no memory.
    pub fn alone(own: Payload) -> Body
        ensures { result ≡ own }
    {
        Body { common: None, own }
    }

    /// The bytes of a common part and then a unit's own. It takes no memory.
    pub fn joined(common: Payload, own: Payload) -> Body
        ensures { result ≡ common ++ own }
    {
        Body {
            common: Some(common),
            own,
        }
    }

    /// The two runs of bytes, of which the first may be empty. Nothing is copied.
    pub fn runs(&self) -> (&[u8], &[u8])
        ensures { result.0.now ++ result.1.now ≡ self.now }
    {
        match &self.common {
            Some(common) => (common.bytes(), self.own.bytes()),
            None => (b"".as_slice(), self.own.bytes()),
        }
    }

    /// The number of bytes.
    pub fn len(&self) -> usize
        ensures { result ≡ length self.now }
    {
        let (common, own) = self.runs();
        common.len() + own.len()
    }

    /// All bytes as one run. They are copied to `room` only if both runs have bytes; what is in `room` before is lost. Its
    /// only error is `NoMemory`.
    pub fn whole<'a>(&'a self, room: &'a mut Vec<u8>) -> Result<&'a [u8], NoMemory>
        ensures { IfOk result (λ bytes. bytes.now ≡ self.now) }
    {
        let (common, own) = self.runs();
        if common.is_empty() {
            return Ok(own);
        }
        if own.is_empty() {
            return Ok(common);
        }
        fill(room, common, own)?;
        Ok(room.as_slice())
    }

    /// The first `at` bytes and those after them. They are copied to `room` only if the two runs meet at another place;
    /// what is in `room` before is lost. Its only error is `NoMemory`.
    pub fn parted<'a>(
        &'a self,
        at: usize,
        room: &'a mut Vec<u8>,
    ) -> Result<(&'a [u8], &'a [u8]), NoMemory>
        requires { at ≤ length self.now }
        ensures first { IfOk result (λ parts. parts.0.now ≡ take at self.now) }
        ensures rest { IfOk result (λ parts. parts.1.now ≡ drop at self.now) }
    {
        let (common, own) = self.runs();
        if common.len() == at {
            return Ok((common, own));
        }
        if common.is_empty() {
            return Ok(own.split_at(at));
        }
        fill(room, common, own)?;
        Ok(room.as_slice().split_at(at))
    }

    /// An equal body, which shares what this one shares. Its only error is `NoMemory`.
    pub fn twin(&self, alloc: Global) -> Result<Body, NoMemory>
        ensures { IfOk result (λ body. body ≡ self.now) }
    {
        let own = self.own.twin(alloc)?;
        match &self.common {
            Some(common) => Ok(Body::joined(common.twin(alloc)?, own)),
            None => Ok(Body::alone(own)),
        }
    }
}

// The room has these two runs, one after the other.
fn fill(room: &mut Vec<u8>, first: &[u8], second: &[u8]) -> Result<(), NoMemory>
    ensures { IfOk result (λ done. room.new.items ≡ first.now ++ second.now) }
{
    room.clear();
    or_no_memory(room.extend_from_slice(first))?;
    or_no_memory(room.extend_from_slice(second))
}
