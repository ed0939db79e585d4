//! What is left of what each actor kept while it is merged.

ghost use Rattle.std.specs.Prelude.{◌≡◌, ◌∷◌, [], IfOk, OnErr, MatchOption, map};
ghost use Rattle.packed_ledger.specs.Sizes.{first_stamp};

use adlb_unit::{NoMemory, or_no_memory};
use packed_ledger::{Kept, Stamped, Unread};
use std::alloc::Global;
use std::marker::Model;

/// What is left of what one actor kept. It is seen as its list. The stamp in front is kept beside it, since each entry that is merged is
/// compared with the fronts of all actors.
#[derive(Drop)]
pub(crate) struct Front {
    unread: Unread,
    stamp: Option<u64>,
}

impl Model for Front {
    ghost use Rattle.std.specs.Prelude.{List, ◌≡◌};
    ghost use Rattle.packed_ledger.specs.Sizes.{first_stamp};
    ghost use Rattle.packed_ledger.specs.declared.stamped.Stamped.{Stamped};

    ghost Value = { List Stamped };

    ghost view = { λ f. f.unread };

    ghost invariant = { λ f. f.stamp ≡ first_stamp f.unread };
}

impl Front {
    /// All of what was kept.
    fn new(kept: Kept) -> Front
        ensures { result ≡ kept.entries }
    {
        let unread = kept.into_unread();
        let stamp = unread.first_stamp();
        Front { unread, stamp }
    }

    /// The stamp of the next entry, if one is left.
    pub(crate) fn first_stamp(&self) -> Option<u64>
        ensures { result ≡ first_stamp self.now }
    {
        self.stamp
    }

    /// Takes the next entry off, if one is left. Its only error is `NoMemory`; then it is still to be taken.
    pub(crate) fn take_first(&mut self, alloc: Global) -> Result<Option<Stamped>, NoMemory>
        ensures first { IfOk result (λ first. MatchOption first ((self.old ≡ []) × (self.new ≡ [])) (λ x. self.old ≡ x ∷ self.new)) }
        ensures same { OnErr result (self.new ≡ self.old) }
    {
        let first = self.unread.take_first(alloc)?;
        self.stamp = self.unread.first_stamp();
        Ok(first)
    }
}

/// All that was kept, by actor. Its only error is `NoMemory`.
pub(crate) fn fronts_of(alloc: Global, kept: Vec<Kept>) -> Result<Vec<Front>, NoMemory>
    ensures { IfOk result (λ fronts. fronts.items ≡ map (λ k. k.entries) kept.items) }
{
    let mut fronts = Vec::new(alloc);
    for entries in kept {
        or_no_memory(fronts.push(Front::new(entries)))?;
    }
    Ok(fronts)
}
