//! The definitions of parts and stores, and that they fit together.

ghost use Rattle.std.specs.Prelude.{◌≡◌, ◌↔◌, ℕ, IsTrue, List, Option, Some, None, option_and_then, if◌then◌else◌};
ghost use Rattle.adlb_unit.specs.Ids.{same_batch};
ghost use Rattle.adlb_unit.specs.declared.names.BatchId.{BatchId};
ghost use Rattle.server_components.specs.Store.{HasNoneDue, Store, changed, fresh, is_due, kept, part_in, with_fresh};
ghost use Rattle.server_components.specs.declared.parts.Part.{Part};

/// A part is due exactly when its batch is closed and it was fetched as often as units of the batch were accepted. A
/// part that is kept, changed or freed is that of the batch named, and the part of each other batch stays as it was. So
/// a store is a map from batches to parts. No part that is kept is ever due, so each is freed by the very call that
/// makes it due.
pub fn batch_laws()
    ensures due { (p : Part) → IsTrue (is_due p) ↔ (p.accepted ≡ Some p.fetches) }
    ensures kept { (store : Store) (batch b : BatchId) (bytes : List ℕ) →
        part_in (with_fresh store batch bytes) b ≡ (if same_batch b batch then Some (fresh bytes) else part_in store b) }
    ensures changed { (f : Part → Part) (store : Store) (batch b : BatchId) →
        part_in (changed f store batch) b ≡
        (if same_batch b batch then option_and_then (λ p. kept (f p)) (part_in store batch) else part_in store b) }
    ensures none_due_fresh { (store : Store) (batch : BatchId) (bytes : List ℕ) →
        HasNoneDue store → HasNoneDue (with_fresh store batch bytes) }
    ensures none_due { (f : Part → Part) (store : Store) (batch : BatchId) →
        HasNoneDue store → HasNoneDue (changed f store batch) }
{}
