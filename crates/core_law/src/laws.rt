//! What holds of every run of all actors by letters.

ghost use Rattle.std.specs.Prelude.{◌≡◌, ◌<◌, ◌↔◌, List, Some};
ghost use Rattle.adlb_unit.specs.declared.configs.Config.{Config};
ghost use Rattle.adlb_unit.specs.declared.names.Rank.{Rank};
ghost use Rattle.adlb_unit.specs.declared.names.Server.{Server};
ghost use Rattle.bag_ledger.specs.Bag.{Bag, start as empty_bag};
ghost use Rattle.bag_ledger.specs.Runs.{IsLegal, IsRunWhere};
ghost use Rattle.server_law.specs.Agreement.{ServerAgrees};
ghost use Rattle.server_law.specs.Calm.{IsCalm, WaitOnce};
ghost use Rattle.core_run.specs.declared.events.Event.{Event};
ghost use Rattle.core_law.specs.Found.{found_in};
ghost use Rattle.core_law.specs.Others.{CallsStay, ClientsStay};
ghost use Rattle.core_law.specs.Seats.{AreBrought, IsSeated};
ghost use Rattle.core_run.specs.Runs.{NoneIsStuck, Runs, Tells, run};
ghost use Rattle.core_run.specs.World.{World, pool_of, start};

/// What an entry leaves of the ranks that it is not about. A client stands for its rank of the bag after each such step
/// (`ClientsStay`), and the entry adds nothing to the calls of that rank (`CallsStay`).
pub fn other_laws()
    ensures clients_stay { ClientsStay }
    ensures calls_stay { CallsStay }
{}

/// In every run, whatever the numbers of ranks and servers and the order of calls and letters. The ledger so far is a legal run of the bag
/// (`legal`). It is set aside what several servers find when they find that all work is used up (`found_in`). With one server nothing is
/// set aside (`legal_alone`). The bag agrees with each server (`agrees`). Each rank's transcript is what the ledger says of its calls, but
/// for the pending one (`calls`). What each actor is to the bag, is told at once by `seated`. At each server no rank waits twice, and no
/// free unit there is permitted to a rank that waits there and is idle (`calm`). Each letter of a push says what the bag has of its unit.
/// Each unit of the bag that is between servers is brought by exactly one letter under way. For each promise exactly one letter of
/// promised room is under way: the answer that there is room, the unit, or the cancel (`moving`). The front letter of each list is
/// expected, also between servers: where one asks another for a rank, is answered, or hears of a unit. So is each letter of a push, a
/// notice and a verdict. So no event is stuck while stamps are given, but for tokens (`expected`). A run as a relation is the one that the
/// function `run` makes (`same_run`).
pub fn core_run_laws()
    ensures same_run { (w last : World) (events : List Event) → Runs w events last ↔ (run w events ≡ Some last) }
    ensures legal { (config : Config) (events : List Event) (w : World) → Runs (start config) events w →
        (b : Bag) × IsRunWhere (found_in config) (empty_bag config) w.ledger b }
    ensures legal_alone { (config : Config) (events : List Event) (w : World) → config.servers ≡ 1 → Runs (start config) events w →
        IsLegal config w.ledger }
    ensures agrees { (config : Config) (events : List Event) (w : World) → Runs (start config) events w →
        (b : Bag) × IsRunWhere (found_in config) (empty_bag config) w.ledger b × ((server : Server) → server.0 < config.servers
        → ServerAgrees b (pool_of w server)) }
    ensures calls { (config : Config) (events : List Event) (w : World) (rank : Rank) →
        rank.0 < config.ranks → Runs (start config) events w → Tells w rank }
    ensures seated { (config : Config) (events : List Event) (w : World) → Runs (start config) events w → (b : Bag) × IsSeated w b }
    ensures moving { (config : Config) (events : List Event) (w : World) → Runs (start config) events w →
        (b : Bag) × IsRunWhere (found_in config) (empty_bag config) w.ledger b × AreBrought w b }
    ensures calm { (config : Config) (events : List Event) (w : World) (server : Server) →
        server.0 < config.servers → Runs (start config) events w → WaitOnce (pool_of w server) × IsCalm (pool_of w server) }
    ensures expected { (config : Config) (events : List Event) (w : World) → Runs (start config) events w → NoneIsStuck w }
{}
