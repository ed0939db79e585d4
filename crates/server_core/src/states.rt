//! What a server keeps.

ghost use Rattle.std.specs.Prelude.{◌≡◌, ◌<◌, ◌+◌, ◌*◌, ◌≤◌, ℕ, ◌↔◌, length, map, All, IfOk, IsTrue};
ghost use Rattle.adlb_unit.specs.Limits.{stamp_limit};
ghost use Rattle.server_core.specs.Left.{left_of};
ghost use Rattle.server_core.specs.Out.{event_letters, HasPlaces, HasRoom, IsWithin, Out, with_answer, with_letter};
ghost use Rattle.adlb_unit.specs.Links.{place_of};
ghost use Rattle.server_law.specs.Acts.{ServerSaying};
ghost use Rattle.server_law.specs.Carried.{counted, posted};
ghost use Rattle.server_law.specs.State.{Kept, ServerModel, is_finished, is_home, start};
ghost use Rattle.server_law.specs.Step.{ticked};

use crate::outgoing::Outgoing;
use adlb_unit::{Actor, Config, Letter, Message, NoMemory, Rank, Sending, Server, Trouble, UnitId};
use bag_ledger::Entry;
use exhaust_ring::Ring;
use server_components::{BatchStore, Parked, PushState};
use std::alloc::Global;
use std::marker::Model;
use work_queue::WorkQueue;

/// A unit that was put and not fetched, at its server, with the rank to which it is pinned, if any.
#[derive(Clone, Copy, Debug, PartialEq, Eq)]
pub struct LeftUnit {
    pub id: UnitId,
    pub server: Server,
    pub pinned: Option<Rank>,
}

/// One server of a run.
pub struct ServerState {
    pub(crate) config: Config,
    pub(crate) me: Server,
    pub(crate) queue: WorkQueue,
    // The common parts of batches. Their bytes are charged to the queue.
    pub(crate) parts: BatchStore,
    // The ranks that wait, and what was not here for ranks that wait elsewhere.
    pub(crate) parked: Parked,
    // The push of this server.
    pub(crate) pushes: PushState,
    pub(crate) finished: Vec<bool>,
    pub(crate) done: bool,
    // The checks that go round the ring of servers, and what was found by them.
    pub(crate) ring: Ring,
    // The activity of the last notice that a check is wanted.
    pub(crate) noted: Option<u64>,
    pub(crate) activity: u64,
    pub(crate) clock: u64,
    pub(crate) sent: Vec<u64>,
    pub(crate) trouble: Option<Trouble>,
    pub(crate) alloc: Global,
}

// By hand, so that whoever holds a server lets it go by one call, and does not look at what it keeps.
impl Drop for ServerState {
    fn drop(self) {
        let ServerState {
            config,
            me,
            queue,
            parts,
            parked,
            pushes,
            finished,
            done,
            ring,
            noted,
            activity,
            clock,
            sent,
            trouble,
            alloc,
        } = self;
    }
}

impl Model for ServerState {
    ghost use Rattle.server_law.specs.State.{ServerModel};

    ghost Value = { ServerModel };

    ghost use Rattle.server_core.specs.inside.{state_of, IsInside};

    ghost view = { state_of };

    ghost invariant = { IsInside };
}

impl ServerState {
    /// One of the servers of a run, at its start. Its only error is `NoMemory`.
    pub fn new(alloc: Global, config: Config, me: Server) -> Result<ServerState, NoMemory>
        requires { me.0 < config.servers }
        ensures { IfOk result (λ s. s ≡ start config me) }
    {
        let ranks = config.ranks as usize;
        let actors = ranks + config.servers as usize;
        let (Ok(parked), Ok(ring), Ok(finished), Ok(sent)) = (
            Parked::new(alloc, config, me),
            Ring::new(alloc, config, me),
            vec![in alloc; false; ranks],
            vec![in alloc; 0; actors],
        ) else {
            return Err(NoMemory);
        };
        Ok(ServerState {
            config,
            me,
            queue: WorkQueue::new(alloc, config.limit),
            parts: BatchStore::new(alloc),
            parked,
            pushes: PushState::new(config, me),
            finished,
            done: false,
            ring,
            noted: None,
            activity: 0,
            clock: 0,
            sent,
            trouble: None,
            alloc,
        })
    }

    /// What broke the server, if anything did: the first step that failed.
    pub fn broken(&self) -> Option<Trouble>
        ensures { result ≡ self.now.trouble }
    {
        self.trouble
    }

    /// The server is shut, and each rank's Finish letter was handled.
    pub fn ended(&self) -> bool
        ensures { IsTrue result ↔ (IsTrue self.now.kept.shut × All IsTrue self.now.kept.finished) }
    {
        self.ring.is_shut() && self.finished.iter().all(|finished| *finished)
    }

    /// The rank's Finish letter was handled.
    pub fn has_finished(&self, rank: Rank) -> bool
        requires { rank.0 < self.now.config.ranks }
        ensures { result ≡ is_finished self.now.kept rank }
    {
        self.finished[rank.0 as usize]
    }

    /// The units that are here, in arrival order. Its only error is `NoMemory`.
    pub fn left(&self) -> Result<Vec<LeftUnit>, NoMemory>
        ensures { IfOk result (λ left. left.items ≡ left_of self.now) }
    {
        let mut left = Vec::new(self.alloc);
        let mut place = 0;
        while let Some((id, pinned)) = self.queue.unit_at(place) {
            let unit = LeftUnit {
                id,
                server: self.me,
                pinned,
            };
            if left.push(unit).is_err() {
                return Err(NoMemory);
            }
            place += 1;
        }
        Ok(left)
    }

    // The server is the rank's home.
    pub(crate) fn is_home(&self, rank: Rank) -> bool
        ensures { result ≡ is_home self.now.config self.now.me rank }
    {
        self.config.home(rank).0 == self.me.0
    }

    // The event has this stamp. Its letter may change what is free or who waits, or may not.
    pub(crate) fn tick(&mut self, stamp: u64, up: bool)
        requires rises { self.old.clock < stamp }
        requires within { stamp < stamp_limit }
        ensures ticked { self.new ≡ ticked self.old stamp up }
        ensures fresh { self.new.kept.queue.arrivals < self.new.clock }
        ensures young { self.new.kept.ring.check < self.new.clock }
        ensures places { All (λ n. n + event_letters ≤ event_letters * self.new.clock) self.new.sent }
    {
        self.clock = stamp;
        if up {
            self.activity += 1;
        }
    }

    // The place of an actor among all: the ranks before the servers.
    fn place_of(&self, actor: Actor) -> usize
        ensures { result ≡ place_of self.now.config actor }
    {
        match actor {
            Actor::Rank(rank) => rank.0 as usize,
            Actor::Server(server) => self.config.ranks as usize + server.0 as usize,
        }
    }

    // The next letter to the actor.
    fn post(&mut self, to: Actor, message: Message) -> Sending
        requires actor { IsWithin self.old.config to }
        requires places { All (λ n. n + 1 ≤ event_letters * self.old.clock) self.old.sent }

        ensures counted { self.new ≡ counted self.old to }
        ensures posted { result ≡ posted self.old (record { to = to; message = message }) }
    {
        let at = self.place_of(to);
        let place = self.sent[at];
        self.sent[at] = place + 1;
        let letter = Letter {
            stamp: self.clock,
            place,
            message,
        };
        Sending { to, letter }
    }

    // Sends the actor a letter that says no entry.
    pub(crate) fn say(&mut self, to: Actor, message: Message, out: &mut Outgoing)
        requires actor { IsWithin self.old.config to }
        requires room { 0 < out.old.room }
        requires places { HasPlaces self.old out.old }

        ensures counted { self.new ≡ counted self.old to }
        ensures told { out.new ≡ with_letter out.old (posted self.old (record { to = to; message = message })) }
        ensures room { (more : ℕ) → HasRoom self.old out.old (more + 1) → HasRoom self.new out.new more }
    {
        let sending = self.post(to, message);
        out.say(sending);
    }

    // Sends the actor a letter, and enters what it says.
    pub(crate) fn answer(&mut self, to: Actor, message: Message, entry: Entry, out: &mut Outgoing)
        requires actor { IsWithin self.old.config to }
        requires room { 0 < out.old.room }
        requires places { HasPlaces self.old out.old }

        ensures counted { self.new ≡ counted self.old to }
        ensures told { out.new ≡ with_answer out.old (posted self.old (record { to = to; message = message })) entry }
        ensures room { (more : ℕ) → HasRoom self.old out.old (more + 1) → HasRoom self.new out.new more }
    {
        let sending = self.post(to, message);
        out.answer(sending, entry);
    }
}
