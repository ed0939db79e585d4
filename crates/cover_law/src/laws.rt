//! What ranks got was sent.

ghost use Rattle.std.specs.Prelude.{List};
ghost use Rattle.adlb_unit.specs.declared.configs.Config.{Config};
ghost use Rattle.bag_ledger.specs.declared.entries.Entry.{Entry};
ghost use Rattle.bag_ledger.specs.Bag.{Bag, start};
ghost use Rattle.bag_ledger.specs.Runs.{IsRun};
ghost use Rattle.cover_law.specs.Grants.{FetchGrants, IsCovered};

/// In a legal run of every configuration, finished or not, in which each rank fetches what it was granted. What all ranks got
/// was sent: whatever parcels weigh, what they got weighs at most what they sent.
pub fn cover_laws()
    ensures { (config : Config) (ledger : List Entry) (last : Bag) → IsRun (start config) ledger last →
        FetchGrants config ledger → IsCovered config ledger }
{}
