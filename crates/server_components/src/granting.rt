//! Granting a unit.

ghost use Rattle.std.specs.Prelude.{◌≡◌, ◌↔◌, Any, IfSome, IsSome};
ghost use Rattle.std.specs.Option.{option_map};
ghost use Rattle.work_queue.specs.Best.{IsBest, IsOffered};
ghost use Rattle.work_queue.specs.Facts.{facts_of};
ghost use Rattle.work_queue.specs.declared.placing.Placed.{Placed};
ghost use Rattle.server_components.specs.Grants.{best_for, note_of, with_grant};

use adlb_unit::{Rank, Server, Types, UnitNote};
use work_queue::{UnitFacts, WorkQueue};

// The note of a unit at this server.
pub(crate) fn note(server: Server, facts: UnitFacts) -> UnitNote
    ensures { (p : Placed) → facts ≡ facts_of p → result ≡ note_of server p.unit }
{
    UnitNote {
        id: facts.id,
        kind: facts.kind,
        prio: facts.prio,
        answer: facts.answer,
        server,
        common: facts.common,
        length: facts.length,
    }
}

// Pins the best free unit that is permitted to the rank. It gives the note of the unit; `None` exactly if no unit is permitted.
pub(crate) fn grant(
    queue: &mut WorkQueue,
    me: Server,
    rank: Rank,
    types: &Types,
) -> Option<UnitNote>
    ensures note { result ≡ option_map (λ p. note_of me p.unit) (best_for queue.old rank types.now) }
    ensures best { IfSome result (λ note. IsBest rank types.now queue.old.units note.id) }
    ensures some { IsSome result ↔ Any (IsOffered rank types.now) queue.old.units }
    ensures pinned { queue.new ≡ with_grant queue.old rank types.now }
{
    match queue.best(rank, types) {
        None => None,
        Some(id) => {
            let facts = queue.pin(id, rank);
            Some(note(me, facts))
        }
    }
}
