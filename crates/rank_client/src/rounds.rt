//! What goes to one server after the other, in ring order.

ghost use Rattle.std.specs.Prelude.{◌≡◌, ◌<◌, ◌≤◌, ◌+◌, ◌∷◌, ◌++◌, [], ℕ, List, All, false, nat_lt, Some, IfOk, IfSome, is_some};
ghost use Rattle.std.specs.Vec.{vec_len};
ghost use Rattle.adlb_unit.specs.Ring.{behind};
ghost use Rattle.adlb_unit.specs.Targets.{home};
ghost use Rattle.bag_ledger.specs.declared.entries.Answer.{Answer};
ghost use Rattle.bag_ledger.specs.declared.entries.Entry.{Entry};
ghost use Rattle.rank_client.specs.inside.{Fits, HasFirst, HasRoom, IsOffer, IsShort, Starts, later, message_of, passed, pending_at, response_of, response_to};
ghost use Rattle.rank_client.specs.Rules.{asks, ends, looks_at};
ghost use Rattle.rank_client.specs.State.{ClientModel};
ghost use Rattle.rank_client.specs.declared.rooms.Room.{Room};

use crate::clients::{ClientCore, behind};
use crate::openings::First;
use crate::outcomes::{Change, Outcome, Place, ends};
use crate::pendings::Pending;
use crate::puts::put_call;
use crate::rooms::Room;
use adlb_unit::{Config, Message, NoMemory, Payload, Rank, Server, Types, Unit};
use bag_ledger::{Answer, Call, Entry};

// How far a call has come round the servers: `tried` of them, from `first` on in ring order, have refused, found nothing or heard it,
// and the next one is being asked.
#[derive(Clone, Copy)]
pub(crate) struct Round {
    pub(crate) first: Server,
    pub(crate) tried: u32,
}

impl Round {
    // From the rank's home on.
    pub(crate) fn from_home(config: &Config, me: Rank, tried: u32) -> Round
        ensures first { result.first ≡ home config.now me }
        ensures tried { result.tried ≡ tried }
        ensures there { result.first.0 < config.now.servers }
    {
        Round {
            first: config.home(me),
            tried,
        }
    }

    // The server that is being asked.
    pub(crate) fn server(self, config: &Config) -> Server
        requires first { self.first.0 < config.now.servers }
        ensures server { result ≡ behind config.now self.first self.tried }
        ensures there { result.0 < config.now.servers }
    {
        behind(config, self.first, self.tried as u64)
    }

    // The server that is being asked has refused: the round goes on at the next one, with the bytes that it is offered, if one is left.
    fn offer_next(self, config: &Config, room: &mut Room) -> Option<(Round, Payload)>
        requires room { vec_len room.old.tries + self.tried + 1 ≡ config.now.servers }
        ensures more { is_some result ≡ nat_lt (self.tried + 1) config.now.servers }
        ensures round { IfSome result (λ next. next.0 ≡ later self) }
        ensures offer { IfSome result (λ next. room.old.tries.items ≡ room.new.tries.items ++ next.1 ∷ []) }
        ensures bodies { (body : List ℕ) → All (λ b. b ≡ body) room.old.tries.items → All (λ b. b ≡ body) room.new.tries.items }
        ensures room { IfSome result (λ next. vec_len room.new.tries + (self.tried + 1) + 1 ≡ config.now.servers) }
        ensures others { room.new ≡ record room.old { tries = room.new.tries } }
    {
        let body = room.tries.pop()?;
        let next = Round {
            first: self.first,
            tried: self.tried + 1,
        };
        Some((next, body))
    }
}

// What each server of a round is asked.
#[derive(Drop)]
pub(crate) enum Errand {
    // To take the unit.
    Put(Unit),
    // To keep the common part of a batch.
    Keep { request: u64, common: Payload },
    // To look for a unit of these types.
    Try { request: u64, types: Types },
    // To hear that the problem is done.
    SetDone { request: u64 },
}

impl Errand {
    // What is pending while the round is there.
    fn pending(self, round: Round) -> Pending
        ensures { result ≡ pending_at round self }
    {
        let Round { first, tried } = round;
        match self {
            Errand::Put(unit) => Pending::Put { unit, first, tried },
            Errand::Keep { request, common } => Pending::Keep {
                request,
                common,
                first,
                tried,
            },
            Errand::Try { request, types } => Pending::Try {
                request,
                types,
                tried,
            },
            Errand::SetDone { request } => Pending::SetDone { request, tried },
        }
    }

    // The letter that asks one server, with the bytes that it is offered.
    fn message(&self, body: Payload) -> Message
        requires offer { IsOffer self.now body }
        ensures { result ≡ message_of self.now }
    {
        match self {
            Errand::Put(unit) => Message::Put {
                unit: unit_with(unit, body),
            },
            Errand::Keep { request, .. } => Message::KeepCommon {
                request: *request,
                common: body,
            },
            Errand::Try { request, types } => Message::Try {
                request: *request,
                types: types.twin(),
            },
            Errand::SetDone { request } => Message::Done { request: *request },
        }
    }

    // The server that is being asked has refused, found nothing or heard it: the next one is asked, and the call ends if there is no
    // further one.
    pub(crate) fn offer_next(self, place: &Place, round: Round, room: &mut Room) -> Outcome
        requires round { Starts place.now round self }
        requires room { HasRoom place.now.config room.old (pending_at round self) }
        ensures response { (s : ClientModel) → s.config ≡ place.now.config → s.me ≡ place.now.me →
            response_of s result ≡ Some (passed s round self (nat_lt (round.tried + 1) s.config.servers)) }
        ensures fits { Fits place.now.config room.new result }
    {
        match round.offer_next(&place.config, room) {
            Some((next, body)) => Outcome::Waits {
                to: next.server(&place.config),
                message: self.message(body),
                pending: self.pending(next),
            },
            None => self.run_out(place, round, room),
        }
    }

    // Each server has refused, found nothing or heard it: the call has its answer.
    fn run_out(self, place: &Place, round: Round, room: &Room) -> Outcome
        ensures response { (s : ClientModel) → s.me ≡ place.now.me → response_of s result ≡ Some (passed s round self false) }
        ensures fits { Fits place.now.config room.now result }
    {
        match self {
            Errand::Put(unit) => rejected(place, unit.id.number, put_call(unit)),
            Errand::Keep { request, common } => {
                rejected(place, request, Call::BeginBatch { common })
            }
            Errand::Try { request, types } => {
                let entry = Entry::NoCurrent {
                    rank: place.me,
                    call: request,
                };
                ends(
                    Change::Keeps,
                    Some(entry),
                    Call::Try { types },
                    Answer::NoCurrent,
                )
            }
            Errand::SetDone { .. } => ends(Change::Keeps, None, Call::SetDone, Answer::Fine),
        }
    }
}

impl ClientCore {
    // Begins a round: the first server is asked, and there is room to ask the others. Each is offered these bytes.
    pub(crate) fn go_round(
        &self,
        errand: Errand,
        body: Payload,
        first: Server,
        to: Server,
    ) -> Result<First, NoMemory>
        requires offer { IsOffer errand body }
        requires short { IsShort errand }
        requires first { first.0 < self.now.config.servers }
        requires to { to.0 < self.now.config.servers }
        ensures ok { IfOk result (λ f. (s : ClientModel) (entry : Entry) →
            response_to s entry f ≡ asks s entry to (message_of errand) (pending_at (record { first = first; tried = 0 }) errand)) }
        ensures has { IfOk result (λ f. HasFirst self.now.config f) }
    {
        let room = self.offer_room(&body)?;
        Ok(First::Asks {
            to,
            message: errand.message(body),
            pending: errand.pending(Round { first, tried: 0 }),
            room,
        })
    }

    // Begins a round at the home, in which no bytes are offered.
    pub(crate) fn from_home(&self, errand: Errand) -> Result<First, NoMemory>
        requires offer { IsOffer errand [] }
        requires short { IsShort errand }
        ensures ok { IfOk result (λ f. (s : ClientModel) (entry : Entry) → response_to s entry f
            ≡ asks s entry (looks_at self.now 0) (message_of errand) (pending_at (record { first = home self.now.config self.now.me; tried = 0 }) errand)) }
        ensures has { IfOk result (λ f. HasFirst self.now.config f) }
    {
        let nothing = Payload::from_vec(Vec::new(self.alloc));
        let round = Round::from_home(&self.config, self.me, 0);
        let to = round.server(&self.config);
        self.go_round(errand, nothing, round.first, to)
    }
}

// The call is rejected.
fn rejected(place: &Place, number: u64, call: Call) -> Outcome
    ensures response { (s : ClientModel) → s.me ≡ place.now.me →
        response_of s result ≡ Some (ends s (Entry.Rejected s.me number ∷ []) call Answer.Rejected) }
    ensures fits { (room : Room) → Fits place.now.config room result }
{
    let entry = Entry::Rejected {
        rank: place.me,
        call: number,
    };
    ends(Change::Keeps, Some(entry), call, Answer::Rejected)
}

// The unit with these bytes.
fn unit_with(unit: &Unit, body: Payload) -> Unit
    ensures { result ≡ record unit.now { body = body } }
{
    Unit {
        id: unit.id,
        kind: unit.kind,
        prio: unit.prio,
        target: unit.target,
        answer: unit.answer,
        common: unit.common,
        body,
    }
}
