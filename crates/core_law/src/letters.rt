//! What holds of letters and of each actor's own state in every run.

ghost use Rattle.std.specs.Prelude.{◌≡◌, ◌<◌, ℕ, Bool, List, IsTrue, is_some};
ghost use Rattle.adlb_unit.specs.Links.{is_within};
ghost use Rattle.adlb_unit.specs.declared.actors.Actor.{Actor};
ghost use Rattle.adlb_unit.specs.declared.configs.Config.{Config};
ghost use Rattle.adlb_unit.specs.declared.names.Rank.{Rank};
ghost use Rattle.adlb_unit.specs.declared.names.Server.{Server};
ghost use Rattle.adlb_unit.specs.declared.names.UnitId.{UnitId};
ghost use Rattle.server_components.specs.Pushes.{is_push_as, some_push};
ghost use Rattle.core_run.specs.declared.events.Event.{Event};
ghost use Rattle.core_law.specs.Letters.{finishes, kinds, numbered, one, one_letter, remotes};
ghost use Rattle.core_law.specs.Lines.{IsInLine};
ghost use Rattle.core_law.specs.Measures.{IsBalanced, links_weight, weights};
ghost use Rattle.core_law.specs.Own.{AreOwn, NoneOwes};
ghost use Rattle.core_law.specs.Pushed.{letters_of};
ghost use Rattle.core_law.specs.Pushes.{push_as, push_letter};
ghost use Rattle.core_run.specs.Runs.{Runs};
ghost use Rattle.core_run.specs.World.{World, pool_of, start};

/// In every run, of every number of ranks and servers: each letter is of a kind that its sender sends to its receiver
/// (`kinds`). Servers write to each other about the ranks of the run, the rank's home to others or others to its home, and
/// of units that are pushed. Of checks they write notices and failures to server 0, a token to the next server, and a
/// verdict from server 0. While a call of a rank is pending, exactly one letter of it is under way, also between servers,
/// or it waits at a server and is idle. Otherwise there is no such letter (`one_letter`), with the number of the call
/// (`numbered`). Between a home and another server there are as many letters about a rank's call as the rank waits there
/// with that server unanswered (`remotes`). By `one_letter` that is at most one. A Finish letter to a server, or that the
/// server handled it, is there exactly if the rank has finished (`finishes`). The letters from one actor to another are the
/// last that were sent, by consecutive places. Their stamps do not fall and are not past the sender's last event
/// (`in_line`). While a push of a server goes on, exactly one letter of it is under way, and otherwise there is no such
/// letter. It is the query for room, the answer to it, the unit or a cancel of it, or the acknowledgement (`pushes`). By
/// server, unit and whether the unit or a cancel of it was sent, there is one exactly if the push that goes on is this one.
/// Until then it is the query or its answer, from then on the unit, the cancel or the acknowledgement (`pushes_to`).
/// Between events no server owes an acknowledgement (`none_owes`). Each actor's own state is as `AreOwn` says (`own`): the
/// ranks that wait at a server have their home there, and only other servers are asked for them. The ranks whose wishes it
/// keeps have their homes elsewhere. A push goes to another server. The last notice and the last mark of a server were of
/// its activity or less. With one server no check goes round, and it is shut only where each rank has finished.
pub fn letter_laws()
    ensures kinds { (config : Config) (events : List Event) (w : World) →
        Runs (start config) events w → IsBalanced (kinds config) w }
    ensures one_letter { (config : Config) (events : List Event) (w : World) (rank : Rank) →
        Runs (start config) events w → IsBalanced (weights (one_letter rank)) w }
    ensures numbered { (config : Config) (events : List Event) (w : World) (rank : Rank) (next : ℕ) →
        Runs (start config) events w → IsBalanced (weights (numbered rank next)) w }
    ensures remotes { (config : Config) (events : List Event) (w : World) (home asked : Server) (rank : Rank) (request : ℕ) →
        Runs (start config) events w → IsBalanced (weights (remotes home asked rank request)) w }
    ensures finishes { (config : Config) (events : List Event) (w : World) (rank : Rank) (server : Server) →
        server.0 < config.servers → Runs (start config) events w → IsBalanced (finishes rank server) w }
    ensures in_line { (config : Config) (events : List Event) (w : World) (from to : Actor) →
        Runs (start config) events w → IsTrue (is_within w.config from) → IsTrue (is_within w.config to) → IsInLine w from to }
    ensures pushes { (config : Config) (events : List Event) (w : World) (a : Server) → a.0 < config.servers →
        Runs (start config) events w →
        links_weight w.config (letters_of (push_letter a)) w.links ≡ one (is_some (pool_of w a).kept.pushing.push) }
    ensures pushes_to { (config : Config) (events : List Event) (w : World) (a to : Server) (id : UnitId) (sent : Bool) →
        a.0 < config.servers → Runs (start config) events w →
        links_weight w.config (letters_of (push_as a to id sent)) w.links
        ≡ one (some_push (is_push_as to id sent) (pool_of w a).kept.pushing.push) }
    ensures none_owes { (config : Config) (events : List Event) (w : World) → Runs (start config) events w → NoneOwes w }
    ensures own { (config : Config) (events : List Event) (w : World) → Runs (start config) events w → AreOwn w }
{}
