//! What a rank holds of a unit that was granted to it.

ghost use Rattle.std.specs.Prelude.{◌≡◌};
ghost use Rattle.adlb_unit.specs.Totals.{total_of};

use crate::notes::UnitNote;
use std::marker::Model;

/// A granted unit, seen as its note. It can be neither copied nor dropped: whoever holds it has to spend it.
pub struct Handle {
    note: UnitNote,
}

impl Model for Handle {
    ghost use Rattle.adlb_unit.specs.declared.notes.UnitNote.{UnitNote};

    ghost Value = { UnitNote };

    ghost view = { λ h. h.note };
}

impl Handle {
    /// The handle of a unit with this note. For the side that grants.
    pub fn of(note: UnitNote) -> Handle
        ensures { result ≡ note }
    {
        Handle { note }
    }

    /// The note, with the handle used up. For the side that fetches the unit or leaves it.
    pub fn spend(self) -> UnitNote
        ensures { result ≡ self }
    {
        let Handle { note } = self;
        note
    }

    /// The note.
    pub fn note(&self) -> &UnitNote
        ensures { result.now ≡ self.now }
    {
        &self.note
    }

    /// How many bytes a fetch of the unit gives: those of the common part, if there is one, and its own.
    pub fn total(&self) -> u64
        ensures { result ≡ total_of self.now }
    {
        let common = match self.note.common {
            None => 0,
            Some(part) => part.length as u64,
        };
        common + self.note.length as u64
    }
}
