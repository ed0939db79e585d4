//! The puts that a legal run enters, and those that its ranks call.
//!
//! It speaks of definitions alone and has no code. `specs/Entered.antt` says what is entered and what is called.
#![tactic(auto)]

ghost use Rattle.std.specs.Prelude.{◌≡◌, ◌<◌, List};
ghost use Rattle.adlb_unit.specs.declared.configs.Config.{Config};
ghost use Rattle.adlb_unit.specs.declared.names.Rank.{Rank};
ghost use Rattle.bag_ledger.specs.declared.entries.Entry.{Entry};
ghost use Rattle.bag_ledger.specs.Bag.{Bag, start};
ghost use Rattle.bag_ledger.specs.Runs.{IsRun, calls};
ghost use Rattle.balance_law.specs.Balanced.{AreOrderly};
ghost use Rattle.put_law.specs.Entered.{called, entered};

/// In a legal run of orderly ranks, which finish, the `Putting` entries of a rank are its puts, in order.
pub fn put_laws()
    ensures entered { (config : Config) (ledger : List Entry) (last : Bag) → 0 < config.ranks → IsRun (start config) ledger last →
        AreOrderly config ledger → (rank : Rank) → rank.0 < config.ranks → entered ledger rank ≡ called (calls config ledger rank) }
{}
