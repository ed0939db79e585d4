//! The bytes of a unit.

ghost use Rattle.std.specs.Prelude.{◌≡◌, ◌↔◌, [], IfOk, IsTrue, length};

use crate::names::NoMemory;
use crate::running_out::or_no_memory;
use std::alloc::Global;
use std::marker::Model;
use std::sync::Arc;

/// How a payload holds its bytes.
#[derive(Debug, Drop)]
enum Held {
    Own(Vec<u8>),
    Shared(Arc<Vec<u8>, Global>),
}

/// Bytes, seen as their list. Twins of a shared payload share its bytes, which no clause tells apart.
#[derive(Debug)]
pub struct Payload {
    held: Held,
}

// By hand, so that whoever holds a payload lets it go by one call, and does not look at how it holds its bytes.
impl Drop for Payload {
    fn drop(self) {
        let Payload { held } = self;
    }
}

impl Model for Payload {
    ghost use Rattle.std.specs.Prelude.{List, ℕ};
    ghost use Rattle.adlb_unit.specs.Held.{bytes_of};

    ghost Value = { List ℕ };

    ghost view = { λ p. bytes_of p.held };
}

impl Payload {
    /// A payload with a copy of these bytes, which its twins will share. Its only error is `NoMemory`.
    pub fn copy(alloc: Global, bytes: &[u8]) -> Result<Payload, NoMemory>
        ensures { IfOk result (λ p. p ≡ bytes.now) }
    {
        let held = or_no_memory(Vec::from_slice(alloc, bytes))?;
        Payload::from_vec(held).share(alloc)
    }

    /// A payload of these bytes. It takes no memory, and is not shared yet.
    pub fn from_vec(bytes: Vec<u8>) -> Payload
        ensures { result ≡ bytes.items }
    {
        Payload {
            held: Held::Own(bytes),
        }
    }

    /// This payload, whose twins will share its bytes. Its only error is `NoMemory`.
    pub fn share(self, alloc: Global) -> Result<Payload, NoMemory>
        ensures { IfOk result (λ p. p ≡ self) }
    {
        let Payload { held } = self;
        match held {
            Held::Own(bytes) => Ok(Payload {
                held: Held::Shared(or_no_memory(Arc::new(alloc, bytes))?),
            }),
            Held::Shared(arc) => Ok(Payload {
                held: Held::Shared(arc),
            }),
        }
    }

    /// The bytes.
    pub fn bytes(&self) -> &[u8]
        ensures { result.now ≡ self.now }
    {
        match &self.held {
            Held::Own(bytes) => bytes.as_slice(),
            Held::Shared(arc) => arc.as_slice(),
        }
    }

    /// How many bytes there are.
    pub fn len(&self) -> usize
        ensures { result ≡ length self.now }
    {
        self.bytes().len()
    }

    /// There are no bytes.
    pub fn is_empty(&self) -> bool
        ensures { IsTrue result ↔ (self.now ≡ []) }
    {
        self.bytes().is_empty()
    }

    /// An equal payload. Its only error is `NoMemory`.
    pub fn twin(&self, alloc: Global) -> Result<Payload, NoMemory>
        ensures { IfOk result (λ p. p ≡ self.now) }
    {
        match &self.held {
            Held::Own(bytes) => Payload::copy(alloc, bytes.as_slice()),
            Held::Shared(arc) => Ok(Payload {
                held: Held::Shared(or_no_memory(Arc::try_clone(arc))?),
            }),
        }
    }
}
