//! The state of one server as the sender of pushes.

ghost use Rattle.std.specs.Prelude.{◌≡◌, ◌↔◌, ◌<◌, ℕ, Any, IfSome, IsSome, IsTrue, None, Some, is_some};
ghost use Rattle.std.specs.Option.{option_map};
ghost use Rattle.work_queue.specs.Push.{IsFirstToPush, IsMovable};
ghost use Rattle.server_components.specs.Pushes.{Asks, HasSent, IsOther, IsPressed, IsPushModel, IsSending, asks, asks_room, begun, begun_if, has_sent, is_query, is_under_way, may_push, next_to, no_push, query_of, query_to, sent_to, shown, with_push, with_pushing};

use crate::standing::StandingPush;
use adlb_unit::{Config, Server, Unit, UnitId};
use std::marker::Model;
use work_queue::WorkQueue;

/// What a server asks of another: room for its unit of this id, whose body has `length` bytes.
#[derive(Clone, Copy)]
pub struct PushQuery {
    pub to: Server,
    pub id: UnitId,
    pub length: u32,
}

/// What goes to a server that promised room.
#[derive(Drop)]
pub enum Push {
    /// The unit, which is taken out of the queue.
    Go(Server, Unit),
    /// A cancel, since the unit of this id is free no longer.
    Cancel(Server, UnitId),
}

/// One server as the sender of pushes. At most one push of it stands: first as a query, from the answer on as sent,
/// until it is acknowledged. Contracts see it as a `PushModel` of `specs/Pushes.antt`. No call takes memory.
#[derive(Drop)]
pub struct PushState {
    pub(crate) config: Config,
    pub(crate) me: Server,
    pub(crate) push: Option<StandingPush>,
    // How many pushes were begun.
    pub(crate) pushes: u64,
}

impl Model for PushState {
    ghost use Rattle.server_components.specs.Pushes.{PushModel};

    ghost Value = { PushModel };

    ghost use Rattle.server_components.specs.inside.Pushing.{IsInside, pushes_of};

    ghost view = { pushes_of };

    ghost invariant = { IsInside };
}

impl PushState {
    /// This server of a run, which has begun no push.
    pub fn new(config: Config, me: Server) -> PushState
        requires { me.0 < config.servers }
        ensures { result ≡ no_push config me }
    {
        PushState {
            config,
            me,
            push: None,
            pushes: 0,
        }
    }

    /// Begins a push exactly if there are several servers, this one has no push, its queue is pressed, and some free
    /// unit has target any (`IsMovable`). A queue is pressed if its charge is above the run's limit less an eighth
    /// (`IsPressed`). The answer is the query: of the unit that goes first (`IsFirstToPush`), to the other servers
    /// in turn (`next_to`). The push then stands as this query. With `None` nothing changes.
    pub fn pressure(&mut self, queue: &WorkQueue) -> Option<PushQuery>
        ensures begins { IsSome result ↔
            ((1 < self.old.config.servers) × (self.old.pushing.push ≡ None) × IsPressed self.old.config queue.now
            × Any IsMovable queue.now.units) }
        ensures first { IfSome result (λ q. IsFirstToPush queue.now.units (q.id, q.length)) }
        ensures turn { IfSome result (λ q. q.to ≡ next_to self.old.config self.old.me self.old.pushing.pushes) }
        ensures other { IfSome result (λ q. IsOther self.old.config self.old.me q.to) }
        ensures query { result ≡ query_of self.old.config self.old.me self.old.pushing queue.now }
        ensures stands { self.new ≡ with_pushing self.old (begun_if self.old.pushing result) }
    {
        if !self.may_push(queue) {
            return None;
        }
        match queue.first_to_push() {
            None => None,
            Some((id, length)) => Some(self.begin(id, length)),
        }
    }

    // A push begins if some unit can be moved.
    fn may_push(&self, queue: &WorkQueue) -> bool
        ensures { result ≡ may_push self.now.config self.now.pushing queue.now }
    {
        let limit = self.config.limit;
        self.config.servers > 1 && self.push.is_none() && queue.charge() > limit - limit / 8
    }

    // The push of this unit begins.
    fn begin(&mut self, id: UnitId, length: u32) -> PushQuery
        requires { 1 < self.old.config.servers }
        ensures query { result ≡ query_to self.old.config self.old.me self.old.pushing (id, length) }
        ensures stands { self.new ≡ with_pushing self.old (begun self.old.pushing result) }
    {
        let places = (self.pushes % u64::from(self.config.servers - 1)) as u32 + 1;
        let to = Server((self.me.0 + places) % self.config.servers);
        self.push = Some(StandingPush {
            to,
            id,
            length,
            sent: false,
        });
        self.pushes = self.pushes.saturating_add(1);
        PushQuery { to, id, length }
    }

    /// The server that was asked promises room: the unit goes there if it is still free, otherwise a cancel goes
    /// (`IsSending`). Either was then sent, and the push stands until it is acknowledged.
    pub fn push_yes(&mut self, queue: &mut WorkQueue) -> Push
        requires { IsTrue (is_query self.old.pushing) }

        ensures sending { (to : Server) (id : UnitId) (n : ℕ) → self.old.pushing.push ≡ Some (asks_room to id n) →
            IsSending queue.old to id result queue.new }
        ensures stands { (to : Server) (id : UnitId) (n : ℕ) → self.old.pushing.push ≡ Some (asks_room to id n) →
            self.new ≡ with_pushing self.old (with_push self.old.pushing (Some (has_sent to id n))) }
    {
        let Some(push) = &mut self.push else {
            unreachable!()
        };
        push.sent = true;
        let (to, id) = (push.to, push.id);
        if queue.is_free(id) {
            Push::Go(to, queue.remove_free(id))
        } else {
            Push::Cancel(to, id)
        }
    }

    /// The server that was asked has no room: the push has ended.
    pub fn push_no(&mut self)
        requires { IsTrue (is_query self.old.pushing) }
        ensures { self.new ≡ with_pushing self.old (with_push self.old.pushing None) }
    {
        self.push = None;
    }

    /// The unit that was sent has come, or the cancel has: the push has ended.
    pub fn push_ack(&mut self)
        requires { IsTrue (is_under_way self.old.pushing) }
        ensures { self.new ≡ with_pushing self.old (with_push self.old.pushing None) }
    {
        self.push = None;
    }

    /// A push of this server stands. Besides, it tells what is so of each state: the server is in the run, and its push
    /// goes to another one (`IsPushModel`).
    pub fn going(&self) -> bool
        ensures stands { result ≡ is_some self.now.pushing.push }
        ensures sound { IsPushModel self.now }
    {
        self.push.is_some()
    }

    /// The push that stands: the server to which it goes, its unit, and whether that unit or a cancel of it was sent.
    /// `None` exactly when no push stands.
    pub fn stands(&self) -> Option<(Server, UnitId, bool)>
        ensures { result ≡ option_map shown self.now.pushing.push }
    {
        match self.push {
            Some(push) => Some((push.to, push.id, push.sent)),
            None => None,
        }
    }

    /// The push of this server is a query of this unit to that server (`Asks`, and as a test `asks`): it expects the
    /// answer of that server.
    pub fn asks(&self, to: Server, id: UnitId) -> bool
        ensures query { IsTrue result ↔ Asks self.now.pushing to id }
        ensures test { result ≡ asks self.now.pushing to id }
    {
        match self.push {
            Some(push) => push.is_as(to, id, false),
            None => false,
        }
    }

    /// The push of this server has sent this unit, or a cancel of it, to that server (`HasSent`, and as a test
    /// `sent_to`): it expects the acknowledgement of that server.
    pub fn has_sent(&self, to: Server, id: UnitId) -> bool
        ensures sent { IsTrue result ↔ HasSent self.now.pushing to id }
        ensures test { result ≡ sent_to self.now.pushing to id }
    {
        match self.push {
            Some(push) => push.is_as(to, id, true),
            None => false,
        }
    }
}
