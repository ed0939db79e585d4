//! Runs in which each event is chosen at random among those that are enabled.

ghost use Rattle.std.specs.Prelude.{◌≡◌, ◌<◌};

use crate::calls::{Words, call, last_call};
use adlb_unit::{Actor, Config, Rank, Server, UnitId};
use bag_ledger::{Answer, Call};
use core_run::Event;
use core_world::World;
use std::alloc::Global;
use std::test::Fail;

/// How many calls a rank makes at random. Then it reserves until it is told an end, and finishes.
const CALLS: u64 = 16;

/// More events than a run has.
const EVENTS: u32 = 20000;

// What can happen next.
#[derive(Clone, Copy)]
enum Choice {
    // The second handles the front letter of the first.
    Delivers(Actor, Actor),
    // The rank calls.
    Calls(Rank),
}

// What a rank has done, and what it was told.
#[derive(Clone, Copy)]
struct Caller {
    // How many calls it began, and how many were answered.
    begun: u64,
    answers: u64,
    // The unit that the last of them was granted.
    granted: Option<UnitId>,
    ended: bool,
    finished: bool,
}

impl Caller {
    // Nothing yet.
    fn new() -> Caller {
        Caller {
            begun: 0,
            answers: 0,
            granted: None,
            ended: false,
            finished: false,
        }
    }

    // It has heard the answer of each of its calls, and has not finished.
    fn may_call(&self) -> bool {
        self.begun == self.answers && !self.finished
    }

    // One more call is begun; it is one of those at random.
    fn begins_at_random(&mut self) -> bool {
        let made = self.begun;
        self.begun = made.saturating_add(1);
        made < CALLS && !self.ended
    }

    // One more call was answered, the last if it finishes.
    fn hear(&mut self, answer: &Answer, finishes: bool) {
        self.answers = self.answers.saturating_add(1);
        self.granted = granted(answer);
        self.ended = self.ended || matches!(answer, Answer::Ended(_));
        self.finished = finishes;
    }
}

fn granted(answer: &Answer) -> Option<UnitId> {
    match answer {
        Answer::Granted(note) => Some(note.id),
        _ => None,
    }
}

// The ranks of a run, and the numbers by which events are chosen.
#[derive(Drop)]
struct Callers {
    ranks: Vec<Caller>,
    words: Words,
}

impl Callers {
    // The rank that calls or hears of its call has its answer, if there is one.
    fn note(&mut self, number: usize, finishes: bool, answer: &Option<Answer>) {
        let Some(answer) = answer else {
            return;
        };
        if let Some(caller) = self.ranks.get_mut(number) {
            caller.hear(answer, finishes);
        }
    }
}

/// A run that goes on.
#[derive(Drop)]
pub(crate) struct GoingRun {
    pub(crate) world: World,
    pub(crate) config: Config,
    ghost run_is: { world.world.config ≡ config },
}

impl GoingRun {
    /// Carries out events that this number chooses, until nothing is enabled any more, when each server has ended.
    pub(crate) fn is_driven(&mut self, alloc: Global, number: u64) -> Result<(), Fail> {
        let mut callers = Callers {
            ranks: vec![in alloc; Caller::new(); self.config.ranks as usize]?,
            words: Words::new(number),
        };
        self.goes_to_its_end(alloc, &mut callers)
    }

    // Events until nothing is enabled, when each server has ended.
    fn goes_to_its_end(&mut self, alloc: Global, callers: &mut Callers) -> Result<(), Fail> {
        for _ in 0..EVENTS {
            if !self.goes_on(alloc, callers)? {
                return self.must_have_ended();
            }
        }
        Err("the run goes on".into())
    }

    fn must_have_ended(&self) -> Result<(), Fail> {
        if self.all_have_ended() {
            Ok(())
        } else {
            Err("a server has not ended".into())
        }
    }

    // One event more; none if nothing is enabled.
    fn goes_on(&mut self, alloc: Global, callers: &mut Callers) -> Result<bool, Fail> {
        let Some(choice) = self.chosen(alloc, callers)? else {
            return Ok(false);
        };
        let event = self.event(alloc, callers, choice)?;
        let finishes = matches!(event, Event::Call(_, Call::Finish));
        match self.world.apply(event) {
            Ok(answer) => {
                callers.note(rank_of(choice), finishes, &answer);
                Ok(true)
            }
            Err(_) => Err("an enabled event was refused".into()),
        }
    }

    fn event(&self, alloc: Global, callers: &mut Callers, choice: Choice) -> Result<Event, Fail> {
        match choice {
            Choice::Delivers(from, to) => Ok(Event::Deliver(from, to)),
            Choice::Calls(rank) => {
                let call = self.next_call(alloc, callers, rank)?;
                Ok(Event::Call(rank, call))
            }
        }
    }

    // One of the events that are enabled; `None` if there is no such event.
    fn chosen(&self, alloc: Global, callers: &mut Callers) -> Result<Option<Choice>, Fail> {
        let choices = self.choices(alloc, &callers.ranks)?;
        Ok(choices.get(callers.words.place(choices.len())).copied())
    }

    // All that can happen.
    fn choices(&self, alloc: Global, ranks: &[Caller]) -> Result<Vec<Choice>, Fail> {
        let mut choices = Vec::new(alloc);
        self.add_all(&mut choices, ranks)?;
        Ok(choices)
    }

    fn add_all(&self, choices: &mut Vec<Choice>, ranks: &[Caller]) -> Result<(), Fail> {
        self.add_deliveries(choices)?;
        add_calls(choices, ranks)
    }

    // Each list of letters gives its front.
    fn add_deliveries(&self, choices: &mut Vec<Choice>) -> Result<(), Fail> {
        let actors = self.config.ranks + self.config.servers;
        for place in 0..actors * actors {
            let from = self.actor(place / actors.max(1));
            let to = self.actor(place % actors.max(1));
            if self.world.waiting(from, to) > 0 && !self.has_ended(to) {
                choices.push(Choice::Delivers(from, to))?;
            }
        }
        Ok(())
    }

    // Each server is shut, and has handled each rank's Finish letter.
    fn all_have_ended(&self) -> bool {
        for number in 0..self.config.servers {
            if !self.has_ended(Actor::Server(Server(number))) {
                return false;
            }
        }
        true
    }

    // It is a server that handles no letter more.
    fn has_ended(&self, actor: Actor) -> bool {
        match actor {
            Actor::Rank(_) => false,
            Actor::Server(server) => {
                server.0 < self.config.servers && self.world.has_ended(server)
            }
        }
    }

    // The actor of this number, the ranks before the servers.
    fn actor(&self, number: u32) -> Actor {
        if number < self.config.ranks {
            Actor::Rank(Rank(number))
        } else {
            Actor::Server(Server(number - self.config.ranks))
        }
    }

    // The rank's next call: at random, and at the last such that it ends.
    fn next_call(&self, alloc: Global, callers: &mut Callers, rank: Rank) -> Result<Call, Fail> {
        if rank.0 >= self.config.ranks {
            return Err("no such rank".into());
        }
        let open = self.world.batch_open(rank);
        let Some(caller) = callers.ranks.get_mut(rank.0 as usize) else {
            return Err("no such rank".into());
        };
        if caller.begins_at_random() {
            call(alloc, &mut callers.words, self.config, caller.granted, open)
        } else {
            Ok(last_call(caller.ended, open))
        }
    }
}

// Each rank that awaits no answer calls.
fn add_calls(choices: &mut Vec<Choice>, ranks: &[Caller]) -> Result<(), Fail> {
    let mut number: u32 = 0;
    for caller in ranks {
        if caller.may_call() {
            choices.push(Choice::Calls(Rank(number)))?;
        }
        number = number.saturating_add(1);
    }
    Ok(())
}

// The number of the rank whose event it is, or one that no rank has.
fn rank_of(choice: Choice) -> usize {
    match choice {
        Choice::Calls(rank) | Choice::Delivers(_, Actor::Rank(rank)) => rank.0 as usize,
        Choice::Delivers(_, Actor::Server(_)) => usize::MAX,
    }
}
