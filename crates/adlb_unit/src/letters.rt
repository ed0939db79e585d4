//! Letters, each with a place on its link.

ghost use Rattle.std.specs.Prelude.{◌≡◌, IfOk};

use crate::actors::Actor;
use crate::messages::Message;
use crate::names::NoMemory;
use std::alloc::Global;

/// A letter: the stamp of the event that sent it, its place among the letters from its sender to its receiver, from 0,
/// and what it says.
#[derive(Debug, Drop)]
pub struct Letter {
    pub stamp: u64,
    pub place: u64,
    pub message: Message,
}

/// A letter that goes to an actor.
#[derive(Debug, Drop)]
pub struct Sending {
    pub to: Actor,
    pub letter: Letter,
}

impl Letter {
    /// An equal letter. Its only error is `NoMemory`.
    pub fn twin(&self, alloc: Global) -> Result<Letter, NoMemory>
        ensures { IfOk result (λ l. l ≡ self.now) }
    {
        Ok(Letter {
            stamp: self.stamp,
            place: self.place,
            message: self.message.twin(alloc)?,
        })
    }
}
