//! Which letters a server expects.

ghost use Rattle.std.specs.Prelude.{◌≡◌, ◌<◌, ◌↔◌, IsTrue, IsSome, None, length};
ghost use Rattle.server_components.specs.Store.{CanClose, CanFetch, Keeps, part_in};
ghost use Rattle.server_law.specs.Acts.{batch_of};
ghost use Rattle.server_law.specs.Expected.{IsAwaited, IsAwaitedFrom, IsExpected, IsNew};
ghost use Rattle.server_law.specs.State.{Kept, ServerModel, runs_at_home};
ghost use Rattle.server_law.specs.Step.{serve};
ghost use Rattle.work_queue.specs.Queue.{HasNoPromise, HasNoUnit, HasPinned, HasPromise, HasRoom};

use crate::states::ServerState;
use adlb_unit::{
    Actor, BODY_LIMIT, BatchId, Letter, Message, Rank, STAMP_LIMIT, Server, Unit, UnitId,
};

impl ServerState {
    /// The letter is expected (`IsExpected`): it comes from a rank or another server of the run, its stamp is below
    /// `2^48`, and the row of what it says holds here. Exactly such a letter has a step (`serve`). It takes no memory.
    pub fn expects(&self, from: Actor, letter: &Letter) -> bool
        ensures expected { IsTrue result ↔ IsExpected self.now from letter.now }
        ensures served { IsTrue result ↔ IsSome (serve self.now from letter.now) }
    {
        self.is_expected(from, letter)
    }

    // The letter is expected.
    fn is_expected(&self, from: Actor, letter: &Letter) -> bool
        ensures { IsTrue result ↔ IsExpected self.now from letter.now }
    {
        match from {
            Actor::Rank(from) => {
                from.0 < self.config.ranks
                    && letter.stamp < STAMP_LIMIT
                    && self.awaits(from, &letter.message)
            }
            Actor::Server(from) => {
                from.0 < self.config.servers
                    && from.0 != self.me.0
                    && letter.stamp < STAMP_LIMIT
                    && self.awaits_from(from, &letter.message)
            }
        }
    }

    // A letter of the other server that says this is awaited.
    fn awaits_from(&self, from: Server, message: &Message) -> bool
        ensures { IsTrue result ↔ IsAwaitedFrom self.now from message.now }
    {
        match message {
            Message::Ask { rank, .. } => {
                rank.0 < self.config.ranks && self.config.home(*rank).0 == from.0
            }
            Message::AskGrant { rank, request, .. } => self.is_unanswered(from, *rank, *request),
            Message::AskNone { rank, request } => self.is_unanswered(from, *rank, *request),
            Message::Hint { rank, .. } => rank.0 < self.config.ranks && self.is_home(*rank),
            Message::PushQuery { id, .. } => self.is_unknown(*id),
            Message::PushYes { id } => self.pushes.asks(from, *id),
            Message::PushNo { id } => self.pushes.asks(from, *id),
            Message::PushUnit { unit } => self.has_room_for(unit),
            Message::PushCancel { id } => self.has_promised(*id),
            Message::PushAck { id } => self.pushes.has_sent(from, *id),
            Message::Notice => self.me.0 == 0,
            Message::Token { token } => self.ring.expects(from, token),
            Message::Failed { token, .. } => self.ring.expects_failed(token),
            Message::Exhaust => from.0 == 0,
            Message::Shutdown => from.0 == 0,
            _ => false,
        }
    }

    // A letter of the rank that says this is awaited.
    fn awaits(&self, from: Rank, message: &Message) -> bool
        requires { from.0 < self.now.config.ranks }
        ensures { IsTrue result ↔ IsAwaited self.now from message.now }
    {
        match message {
            Message::Put { unit } => self.is_new(from, unit),
            Message::Reserve { .. } => self.runs_at_home(from),
            Message::Try { .. } => true,
            Message::Fetch { id, .. } => self.is_pinned(*id, from),
            Message::KeepCommon { request, common } => {
                self.keeps_none(from, *request) && common.len() <= BODY_LIMIT
            }
            Message::CloseBatch {
                batch,
                accepted,
                ..
            } => batch.rank.0 == from.0 && self.can_close(*batch, *accepted),
            Message::FetchCommon { batch, .. } => self.can_share(*batch),
            Message::Count { .. } => self.runs_at_home(from),
            Message::Done { .. } => true,
            Message::Finish => self.runs(from),
            _ => false,
        }
    }

    // The rank's home is here, and it runs.
    fn runs_at_home(&self, rank: Rank) -> bool
        requires { rank.0 < self.now.config.ranks }
        ensures { result ≡ runs_at_home self.now rank }
    {
        self.is_home(rank) && self.runs(rank)
    }

    // The rank may put the unit here.
    fn is_new(&self, from: Rank, unit: &Unit) -> bool
        ensures { IsTrue result ↔ IsNew self.now from unit.now }
    {
        unit.id.rank.0 == from.0
            && self.is_unknown(unit.id)
            && unit.body.len() <= BODY_LIMIT
            && self.config.has_target(unit.target)
    }

    // No unit and no promise of the id is here.
    fn is_unknown(&self, id: UnitId) -> bool
        ensures { IsTrue result ↔ (HasNoUnit id self.now.kept.queue.units × HasNoPromise id self.now.kept.queue.promises) }
    {
        !self.queue.has_unit(id) && self.queue.promised(id).is_none()
    }

    // Room was promised to the unit of this id.
    fn has_promised(&self, id: UnitId) -> bool
        ensures { IsTrue result ↔ HasPromise id self.now.kept.queue.promises }
    {
        self.queue.promised(id).is_some()
    }

    // The unit is not here, and room of its length was promised to it.
    fn has_room_for(&self, unit: &Unit) -> bool
        ensures { IsTrue result ↔ (HasNoUnit unit.now.id self.now.kept.queue.units
            × HasRoom unit.now.id (length unit.now.body) self.now.kept.queue.promises × (self.now.kept.owed ≡ None)) }
    {
        match self.queue.promised(unit.id) {
            Some(length) => !self.queue.has_unit(unit.id) && length as usize == unit.body.len(),
            None => false,
        }
    }

    // The unit is here and pinned to the rank.
    fn is_pinned(&self, id: UnitId, rank: Rank) -> bool
        ensures { IsTrue result ↔ HasPinned id rank self.now.kept.queue.units }
    {
        self.queue.pinned_to(id) == Some(rank)
    }

    // Nothing is kept of the batch that begins in the rank's call of this number.
    fn keeps_none(&self, rank: Rank, request: u64) -> bool
        ensures { IsTrue result ↔ (part_in self.now.kept.parts (batch_of rank request) ≡ None) }
    {
        let batch = BatchId {
            rank,
            number: request,
        };
        self.parts.part(batch).is_none()
    }

    // The part of the batch is here, open, and was fetched at most `accepted` times.
    fn can_close(&self, batch: BatchId, accepted: u64) -> bool
        ensures { IsTrue result ↔ Keeps self.now.kept.parts batch self.now.kept.queue.common (CanClose accepted) }
    {
        match self.parts.part(batch) {
            Some((fetches, None)) => fetches <= accepted,
            _ => false,
        }
    }

    // The part of the batch is here, and, if closed, was fetched fewer times than units of the batch were accepted.
    fn can_share(&self, batch: BatchId) -> bool
        ensures { IsTrue result ↔ Keeps self.now.kept.parts batch self.now.kept.queue.common CanFetch }
    {
        match self.parts.part(batch) {
            Some((fetches, Some(accepted))) => fetches < accepted,
            Some((_, None)) => true,
            None => false,
        }
    }
}
