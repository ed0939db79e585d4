//! What holds of the bag and of every legal run.

ghost use Rattle.std.specs.Prelude.{◌≡◌, ◌↔◌, ◌<◌, ◌≤◌, ◌++◌, ◌∷◌, ℕ, Bool, List, Some, None, IsTrue};
ghost use Rattle.std.specs.List.{list_any};
ghost use Rattle.adlb_unit.specs.declared.configs.Config.{Config};
ghost use Rattle.adlb_unit.specs.declared.names.Rank.{Rank};
ghost use Rattle.adlb_unit.specs.declared.names.Server.{Server};
ghost use Rattle.adlb_unit.specs.declared.notes.End.{End};
ghost use Rattle.bag_ledger.specs.declared.entries.Entry.{Entry};
ghost use Rattle.bag_ledger.specs.Bag.{Bag, start, charge, settled};
ghost use Rattle.bag_ledger.specs.Steps.{Steps};
ghost use Rattle.bag_ledger.specs.Step.{step};
ghost use Rattle.bag_ledger.specs.Runs.{IsLegal, IsRunWhere, IsFirstIllegal, first_illegal};
ghost use Rattle.bag_ledger.specs.Words.{refuses, looks, causes, IsSettled};

/// The definitions of the bag fit together. A step as a relation is the one that the function `step` makes
/// (`same_step`), and the test `settled` says what it is read to say (`settled_means`). A ledger is legal exactly if
/// `first_illegal` finds nothing (`legal_run`), and what it finds is the place of the first entry that is no step
/// (`first_place`). The beginning of a legal run is one (`beginnings`).
pub fn bag_laws()
    ensures same_step { (b next : Bag) (e : Entry) → Steps b e next ↔ (step b e ≡ Some next) }
    ensures settled_means { (b : Bag) → IsTrue (settled b) ↔ IsSettled b }
    ensures legal_run { (config : Config) (ledger : List Entry) →
        IsLegal config ledger ↔ (first_illegal (start config) 0 ledger ≡ None) }
    ensures first_place { (config : Config) (ledger : List Entry) (place : ℕ) →
        IsFirstIllegal (start config) ledger place ↔ (first_illegal (start config) 0 ledger ≡ Some place) }
    ensures beginnings { (config : Config) (ledger rest : List Entry) →
        IsLegal config (ledger ++ rest) → IsLegal config ledger }
{}

/// Whatever is asked where exhaustion is found (`found`): after every legal run each server is charged within its limit
/// (`within_limit`). Before a put or a batch beginning is rejected each server refused it (`rejected_by_all`). Before a try is
/// answered that nothing is there each server looked (`looked_by_all`). Before an end is told it was brought about
/// (`over_by_cause`). That no unit is put, accepted, granted or fetched twice is a law of `bag_law`.
pub fn run_laws()
    ensures within_limit { (found : Bag → Bool) (config : Config) (ledger : List Entry) (last : Bag) →
        IsRunWhere found (start config) ledger last → (server : Server) → charge last server ≤ config.limit }
    ensures rejected_by_all { (found : Bag → Bool) (config : Config) (ledger rest : List Entry) (last : Bag) (rank : Rank) (call : ℕ) →
        IsRunWhere found (start config) (ledger ++ Entry.Rejected rank call ∷ rest) last →
        (server : Server) → server.0 < config.servers → IsTrue (list_any (refuses server rank call) ledger) }
    ensures looked_by_all { (found : Bag → Bool) (config : Config) (ledger rest : List Entry) (last : Bag) (rank : Rank) (call : ℕ) →
        IsRunWhere found (start config) (ledger ++ Entry.NoCurrent rank call ∷ rest) last →
        (server : Server) → server.0 < config.servers → IsTrue (list_any (looks server rank call) ledger) }
    ensures over_by_cause { (found : Bag → Bool) (config : Config) (ledger rest : List Entry) (last : Bag) (rank : Rank) (call : ℕ) (end : End) →
        IsRunWhere found (start config) (ledger ++ Entry.Over rank call end ∷ rest) last → IsTrue (list_any (causes end) ledger) }
{}
