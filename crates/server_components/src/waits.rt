//! A rank that waits.

ghost use Rattle.std.specs.Prelude.{◌≡◌, ◌<◌, ◌&&◌, Some, None, [], find, option_copied, if◌then◌else◌};
ghost use Rattle.adlb_unit.specs.declared.names.Server.{Server};
ghost use Rattle.server_components.specs.Calls.{asking, asks_next, hears_of, step_of, taker, takes, takes_first};
ghost use Rattle.server_components.specs.Parked.{is_idle};

use crate::ring::ToAsk;
use crate::steps::ReserveStep;
use crate::wishes::{Wish, is_soft_for};
use adlb_unit::{Config, Server, Target, WorkType};

/// A rank that waits at its home.
#[derive(Drop)]
pub struct Waiting {
    /// What it wants.
    pub wish: Wish,
    /// The server that was asked for it and has not answered. While there is no such server, the rank is idle.
    pub asked: Option<Server>,
    /// The servers that are still to be asked, in order.
    pub to_ask: ToAsk,
}

impl Waiting {
    // A rank for which the first of these servers is asked.
    pub(crate) fn asking(wish: Wish, mut to_ask: ToAsk) -> Waiting
        ensures { result ≡ asking wish to_ask }
    {
        let asked = to_ask.take_first();
        Waiting {
            wish,
            asked,
            to_ask,
        }
    }

    // The next server is asked (`asks_next`).
    pub(crate) fn ask_next(&mut self) -> ReserveStep
        ensures step { result ≡ step_of self.new.asked }
        ensures asked { self.new ≡ asks_next self.old }
    {
        self.asked = self.to_ask.take_first();
        ReserveStep::of(self.asked)
    }

    // Another server has a unit that may suit the rank (`hears_of`). It is the answer if it is asked at once.
    pub(crate) fn hear_of(&mut self, config: &Config, me: Server, from: Server) -> Option<Server>
        requires ring { me.0 < config.now.servers }
        requires settled { self.old.asked ≡ None → self.old.to_ask ≡ [] }
        ensures asked { result ≡ (if is_idle self.old then Some from else None) }
        ensures heard { self.new ≡ hears_of config.now me from self.old }
    {
        if self.asked.is_none() {
            self.asked = Some(from);
            return self.asked;
        }
        self.to_ask = self.to_ask.with(config, me, from);
        None
    }

    // The rank is idle, and a unit of this type and target is permitted to it.
    fn takes(&self, kind: WorkType, target: Target) -> bool
        ensures { result ≡ takes kind target self.now }
    {
        self.asked.is_none() && self.wish.suits(kind, target)
    }
}

// The idle rank that gets a unit of this type and target (`taker`).
pub(crate) fn taker(waiting: &[Waiting], kind: WorkType, target: Target) -> Option<&Waiting>
    ensures { option_copied result ≡ taker kind target waiting.now }
{
    match first_named(waiting, kind, target) {
        Some(waits) => Some(waits),
        None => first_permitted(waiting, kind, target),
    }
}

// The idle rank that the target names before others, if the unit is permitted to it.
fn first_named(waiting: &[Waiting], kind: WorkType, target: Target) -> Option<&Waiting>
    ensures { option_copied result ≡ find (takes_first kind target) waiting.now }
{
    waiting.iter().find(|waits| waits.takes(kind, target) && is_soft_for(target, waits.wish.rank))
}

// The first idle rank to which the unit is permitted.
fn first_permitted(waiting: &[Waiting], kind: WorkType, target: Target) -> Option<&Waiting>
    ensures { option_copied result ≡ find (takes kind target) waiting.now }
{
    waiting.iter().find(|waits| waits.takes(kind, target))
}

// The first idle rank.
pub(crate) fn first_idle(waiting: &[Waiting]) -> Option<&Waiting>
    ensures { option_copied result ≡ find is_idle waiting.now }
{
    waiting.iter().find(|waits| waits.asked.is_none())
}
