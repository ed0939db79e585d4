//! What a whole run of workers counts.

ghost use Rattle.std.specs.Prelude.{◌≡◌, ◌<◌, ℕ, List, length, sum_by};
ghost use Rattle.adlb_unit.specs.declared.configs.Config.{Config};
ghost use Rattle.bag_ledger.specs.declared.entries.Entry.{Entry};
ghost use Rattle.bag_ledger.specs.Bag.{Bag, start};
ghost use Rattle.bag_ledger.specs.Runs.{IsRun};
ghost use Rattle.adlb.specs.Worked.{AllHaveWorked};

use balance_law::balance_laws;

/// In a legal run of workers all ranks together count what the first units are worth, for every number of ranks and of servers.
pub fn worth_laws()
    ensures whole { (w : List ℕ → List ℕ → ℕ) (whole : ℕ) (config : Config) (ledger : List Entry) (last : Bag) (outcomes : List ℕ) →
        0 < config.ranks → IsRun (start config) ledger last → length outcomes ≡ config.ranks →
        AllHaveWorked w whole config ledger outcomes → sum_by (λ n. n) outcomes ≡ whole }
{
    balance_laws();
}
