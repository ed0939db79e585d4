//! When the journals of several actors are one run of all of them: a law, whatever their protocol.
//!
//! Actors are numbers. An event of an actor has a stamp, it may have got a letter, and it sends letters. A journal is its
//! actor's own run if its events, in order, are steps of that actor from its start, and their stamps rise. Each letter's
//! stamp is that of the event which sent it and below that of the event which got it. Journals compose where, on each
//! link, what was got is a prefix of what was sent. The law: the events of journals that compose, in the order of their
//! stamps and among equal stamps of their actors, are a run of all actors.
//!
//! It stands on nothing else of the workspace. `specs/Machines.antt` says what actors and their worlds are,
//! `specs/Journals.antt` when journals compose, `specs/Orders.antt` what their merge is, and `specs/Runs.antt` what a
//! run is. `specs/Lists.antt` has a world of lists, in which each event that may happen does.
#![tactic(auto)]

ghost use Rattle.std.specs.Prelude.{◌≡◌, ◌<◌, ℕ, List, Option};
ghost use Rattle.journal_law.specs.Orders.{IsMerged};
ghost use Rattle.journal_law.specs.Machines.{Machine};
ghost use Rattle.journal_law.specs.Journals.{Compose};
ghost use Rattle.journal_law.specs.Runs.{HasRun, IsStart};
ghost use Rattle.journal_law.specs.Lists.{Lists, GotOfActors, lists};

/// What actors do.
pub trait Protocol {
    type State;

    type Letter;

    type Event;

    ghost actors: { ℕ };

    ghost stamp: { Self.Event → ℕ };

    ghost cause: { Self.Event → Option (ℕ × Self.Letter) };

    ghost sends: { Self.Event → List (ℕ × Self.Letter) };

    ghost letter_stamp: { Self.Letter → ℕ };

    ghost start: { ℕ → Self.State };

    ghost Steps: { ℕ → Self.State → Self.Event → Self.State → Type 0 };
}

/// The events of journals that compose, by stamp and then by actor, are a run from the start. After it each actor is in
/// the state in which its journal ends, and what was sent and not got is under way.
pub fn journals_compose<P: Protocol>()
    ensures { let machine : Machine P.State P.Letter P.Event = record { actors = P.actors; stamp = P.stamp; cause = P.cause; sends = P.sends; letter_stamp = P.letter_stamp; start = P.start; Steps = P.Steps } in
        (first : P.State) (journal : ℕ → List P.Event) (final : ℕ → P.State) (events : List (ℕ × P.Event)) (w : Lists P.State P.Letter) →
        GotOfActors machine first → Compose machine journal final → IsMerged P.stamp P.actors journal events →
        IsStart machine (lists machine first) w → HasRun machine (lists machine first) w events journal final }
{}

/// There is one such order of the events.
pub fn one_order<P: Protocol>()
    ensures { (journal : ℕ → List P.Event) (xs ys : List (ℕ × P.Event)) → IsMerged P.stamp P.actors journal xs → IsMerged P.stamp P.actors journal ys → xs ≡ ys }
{}
