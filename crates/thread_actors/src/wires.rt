//! A rank's client with its desk.

ghost use Rattle.std.specs.Prelude.{◌≡◌, ◌<◌, ◌≤◌, ◌+◌, ◌∷◌, ◌++◌, ◌↔◌, ℕ, List, [], false, None, Some, IfOk, IfErr, IfNone, IfSome, IsSome, OnErr, OnOk};
ghost use Rattle.adlb_unit.specs.declared.actors.Actor.{Actor};
ghost use Rattle.adlb_unit.specs.declared.names.Server.{Server};
ghost use Rattle.adlb_unit.specs.declared.notes.Trouble.{Trouble};
ghost use Rattle.bag_ledger.specs.declared.entries.Answer.{Answer};
ghost use Rattle.bag_ledger.specs.declared.entries.Call.{Call};
ghost use Rattle.merge_history.specs.declared.causes.Cause.{Cause};
ghost use Rattle.merge_history.specs.Own.{letters_to};
ghost use Rattle.rank_client.specs.Answers.{troubled};
ghost use Rattle.rank_client.specs.Calls.{has_finished};
ghost use Rattle.rank_client.specs.Says.{Says, Waits};
ghost use Rattle.rank_client.specs.Step.{hear, told_trouble};
ghost use Rattle.actor_desk.specs.Desks.{IsEntered, Tallies, received, sent_at, with_room};
ghost use Rattle.actor_desk.specs.World.{actors};
ghost use Rattle.rank_mail.specs.declared.posted.Posted.{Posted};
ghost use Rattle.packed_ledger.specs.Sizes.{room_for};
ghost use Rattle.thread_actors.specs.inside.Rooms.{room_of};
ghost use Rattle.thread_actors.specs.RankJobs.{IsUnexpected, last_words, was_told};
ghost use Rattle.thread_actors.specs.inside.Wires.{CanBegin, HasCome, HasFailed, IsCut, IsDone, IsRecorded, IsUpTo, Knows, MeetsLimit, MovesOn, Rests, Stops, event_of};

use crate::faults::ActorFault;
use actor_desk::{Desk, Mailing, called, got};
use adlb_unit::{Actor, Config, Letter, Message, NoMemory, Server, Trouble};
use bag_ledger::{Answer, Call};
use merge_history::Cause;
use packed_ledger::ENTRY_SIZE;
use rank_client::{ClientCore, ClientStep};
use std::mem;
use std::snapshot::Snapshot;
use std::sync::Wait;

// The room for the entries of a rank's event, besides the bytes that its call brings: there are two at most.
const ENTRIES: usize = 2 * ENTRY_SIZE;

// A rank's client with its desk: what the client gave last, which it is lent again, who sent a letter that it did not expect, if
// one came, and whether a server told that it has failed.
#[derive(Drop)]
pub struct Wire<R: Wait, M: Mailing> {
    pub(crate) rt: R,
    pub(crate) config: Config,
    pub(crate) core: ClientCore,
    pub(crate) step: ClientStep,
    pub(crate) desk: Desk<M>,
    pub(crate) unexpected: Option<u32>,
    pub(crate) told: bool,
    ghost run_is: { core.config ≡ config },
    ghost desk_is: { (desk.config ≡ config) × (desk.number ≡ core.me.0) },
}

impl<R: Wait + Copy, M: Mailing> Wire<R, M> {
    // One call, from its beginning to its answer. A client that has failed answers each call the same.
    pub(crate) fn call(&mut self, call: Call) -> Result<Answer, Trouble>
        requires rests { Rests self.old.core }
        requires running { has_finished self.old.core.transcript ≡ false }
        requires can { self.old.core.trouble ≡ None → CanBegin self.old.core call }
        requires recorded { IsRecorded self.old.desk [] self.old.core }
        requires cut { IsCut self.old.desk self.old.core self.old.unexpected }
        requires begun { IsUpTo self.old.desk self.old.core }
        requires limit { self.old.told ≡ false → MeetsLimit self.old.desk self.old.core }
        requires told { self.old.told ≡ was_told self.old.desk.got }
        ensures came { HasCome self.old.core call result self.new.core }
        ensures recorded { IsRecorded self.new.desk [] self.new.core }
        ensures cut { IsCut self.new.desk self.new.core self.new.unexpected }
        ensures begun { IsUpTo self.new.desk self.new.core }
        ensures limit { self.new.told ≡ false → MeetsLimit self.new.desk self.new.core }
        ensures told { self.new.told ≡ was_told self.new.desk.got }
        ensures config { self.new.config ≡ self.old.config }
        ensures me { self.new.core.me ≡ self.old.core.me }
    {
        match self.core.failed() {
            Some(trouble) => Err(trouble),
            None => self.exchange(call),
        }
    }

    // One call of a client that has not failed. It waits for letters; Finish waits for none.
    fn exchange(&mut self, call: Call) -> Result<Answer, Trouble>
        requires whole { self.old.core.trouble ≡ None }
        requires rests { Rests self.old.core }
        requires running { has_finished self.old.core.transcript ≡ false }
        requires can { CanBegin self.old.core call }
        requires recorded { IsRecorded self.old.desk [] self.old.core }
        requires expected { self.old.unexpected ≡ None }
        requires told { self.old.told ≡ was_told self.old.desk.got }
        ensures answered { IfOk result (λ a. IsDone self.old.core.transcript call a self.new.core) }
        ensures failed { IfErr result (λ t. HasFailed self.old.core.transcript call t self.new.core) }
        ensures rests { Rests self.new.core }
        ensures recorded { IsRecorded self.new.desk [] self.new.core }
        ensures cut { IsCut self.new.desk self.new.core self.new.unexpected }
        ensures begun { OnErr result (IsUpTo self.new.desk self.new.core) }
        ensures limit { OnErr result (self.new.told ≡ false → MeetsLimit self.new.desk self.new.core) }
        ensures told { self.new.told ≡ was_told self.new.desk.got }
        ensures config { self.new.config ≡ self.old.config }
        ensures me { self.new.core.me ≡ self.old.core.me }
    {
        let begun = Snapshot::of(&call);
        match self.begin(call)? {
            Some(answer) => Ok(answer),
            None => self.wait(begun),
        }
    }

    // Waits until the call that was begun is answered.
    fn wait(&mut self, begun: Snapshot<Call>) -> Result<Answer, Trouble>
        requires whole { self.old.core.trouble ≡ None }
        requires knows { Knows self.old.core }
        requires waits { Waits self.old.core.transcript begun.value self.old.core }
        requires recorded { IsRecorded self.old.desk [] self.old.core }
        requires expected { self.old.unexpected ≡ None }
        requires told { self.old.told ≡ was_told self.old.desk.got }
        ensures answered { IfOk result (λ a. IsDone self.old.core.transcript begun.value a self.new.core) }
        ensures failed { IfErr result (λ t. HasFailed self.old.core.transcript begun.value t self.new.core) }
        ensures rests { Rests self.new.core }
        ensures recorded { IsRecorded self.new.desk [] self.new.core }
        ensures cut { IsCut self.new.desk self.new.core self.new.unexpected }
        ensures begun { OnErr result (IsUpTo self.new.desk self.new.core) }
        ensures limit { OnErr result (self.new.told ≡ false → MeetsLimit self.new.desk self.new.core) }
        ensures told { self.new.told ≡ was_told self.new.desk.got }
        ensures config { self.new.config ≡ self.old.config }
        ensures me { self.new.core.me ≡ self.old.core.me }
    {
        let rt = self.rt;
        for _ in rt.forever() {
            let (from, letter) = self.desk.receive(&rt);
            if let Some(answer) = self.hear(from, letter)? {
                return Ok(answer);
            }
        }
        unreachable!()
    }

    // Begins a call. If there is no memory the client fails, and the call was not begun, or is pending.
    fn begin(&mut self, call: Call) -> Result<Option<Answer>, Trouble>
        requires whole { self.old.core.trouble ≡ None }
        requires rests { Rests self.old.core }
        requires running { has_finished self.old.core.transcript ≡ false }
        requires can { CanBegin self.old.core call }
        requires recorded { IsRecorded self.old.desk [] self.old.core }
        ensures says { IfOk result (λ answer. Says self.old.core.transcript call answer self.new.core) }
        ensures whole { OnOk result (self.new.core.trouble ≡ None) }
        ensures failed { IfErr result (λ t. HasFailed self.old.core.transcript call t self.new.core) }
        ensures knows { Knows self.new.core }
        ensures recorded { IsRecorded self.new.desk [] self.new.core }
        ensures expected { self.new.unexpected ≡ self.old.unexpected }
        ensures begun { OnErr result (IsUpTo self.new.desk self.new.core) }
        ensures limit { OnErr result (MeetsLimit self.new.desk self.new.core) }
        ensures told { self.new.told ≡ self.old.told }
        ensures got { self.new.desk.got ≡ self.old.desk.got }
        ensures config { self.new.config ≡ self.old.config }
        ensures me { self.new.core.me ≡ self.old.core.me }
    {
        if let Err(NoMemory) = make_room_for(&mut self.desk, &call) {
            return Err(self.core.fail(Trouble::Memory));
        }
        let (cause, call) = called(call);
        self.core.begin(&mut self.step, call)?;
        Ok(enter(&mut self.desk, self.rt, cause, &mut self.step))
    }

    // Hears a letter of a server. One that is not expected is dropped, and the client fails by it.
    fn hear(&mut self, from: u32, letter: Letter) -> Result<Option<Answer>, Trouble>
        requires whole { self.old.core.trouble ≡ None }
        requires knows { Knows self.old.core }
        requires recorded { IsRecorded self.old.desk (record { from = from; letter = letter } ∷ []) self.old.core }
        requires expected { self.old.unexpected ≡ None }
        requires came { (before : List Posted) × (self.old.desk.got ≡ before ++ record { from = from; letter = letter } ∷ []) ×
            (self.old.told ≡ was_told before) }
        ensures says { IfOk result (λ answer. MovesOn self.old.core answer self.new.core) }
        ensures whole { OnOk result (self.new.core.trouble ≡ None) }
        ensures failed { IfErr result (λ t. Stops self.old.core t self.new.core) }
        ensures knows { Knows self.new.core }
        ensures recorded { IsRecorded self.new.desk [] self.new.core }
        ensures unexpected { (n : ℕ) → (self.new.unexpected ≡ Some n) ↔ ((n ≡ from) × IsUnexpected self.old.config self.old.core from letter) }
        ensures expected { OnOk result (self.new.unexpected ≡ None) }
        ensures cut { IsCut self.new.desk self.new.core self.new.unexpected }
        ensures begun { OnErr result (IsUpTo self.new.desk self.new.core) }
        ensures limit { OnErr result (self.new.told ≡ false → MeetsLimit self.new.desk self.new.core) }
        ensures told { self.new.told ≡ was_told self.new.desk.got }
        ensures config { self.new.config ≡ self.old.config }
        ensures me { self.new.core.me ≡ self.old.core.me }
    {
        if let Message::Broken { trouble } = letter.message {
            self.told = true;
            return Err(self.core.fail(ActorFault::of(trouble).told()));
        }
        match self.expecting(from, &letter) {
            Some(server) => self.take_in(server, letter),
            None => {
                self.unexpected = Some(from);
                Err(self.core.fail(ActorFault::Unexpected { from }.told()))
            }
        }
    }

    // Hears a letter that is expected, and tells no trouble.
    fn take_in(&mut self, from: Server, letter: Letter) -> Result<Option<Answer>, Trouble>
        requires whole { self.old.core.trouble ≡ None }
        requires knows { Knows self.old.core }
        requires expected { IsSome (hear self.old.core from letter) }
        requires untold { told_trouble letter.message ≡ None }
        requires server { from.0 < self.old.desk.config.servers }
        requires recorded { IsRecorded self.old.desk (received self.old.desk.config (Cause.Got (Actor.Server from) letter)) self.old.core }
        ensures says { IfOk result (λ answer. MovesOn self.old.core answer self.new.core) }
        ensures whole { OnOk result (self.new.core.trouble ≡ None) }
        ensures failed { IfErr result (λ t. Stops self.old.core t self.new.core) }
        ensures knows { Knows self.new.core }
        ensures recorded { IsRecorded self.new.desk [] self.new.core }
        ensures expected { self.new.unexpected ≡ self.old.unexpected }
        ensures begun { OnErr result (IsUpTo self.new.desk self.new.core) }
        ensures limit { OnErr result (MeetsLimit self.new.desk self.new.core) }
        ensures told { self.new.told ≡ self.old.told }
        ensures got { self.new.desk.got ≡ self.old.desk.got }
        ensures config { self.new.config ≡ self.old.config }
        ensures me { self.new.core.me ≡ self.old.core.me }
    {
        if let Err(NoMemory) = self.desk.make_room(ENTRIES) {
            return Err(self.core.fail(Trouble::Memory));
        }
        let (cause, letter) = got(Actor::Server(from), letter);
        self.core.hear(&mut self.step, from, letter)?;
        Ok(enter(&mut self.desk, self.rt, cause, &mut self.step))
    }

    // The server of this number, if it is one and the client expects its letter.
    fn expecting(&self, number: u32, letter: &Letter) -> Option<Server>
        ensures server { IfSome result (λ s. (s.0 < self.now.config.servers) × (self.now.config.ranks + s.0 ≡ number)) }
        ensures heard { IfSome result (λ s. IsSome (hear self.now.core s letter.now)) }
        ensures unheard { IfNone result ((s : Server) → s.0 < self.now.config.servers → self.now.config.ranks + s.0 ≡ number
            → hear self.now.core s letter.now ≡ None) }
    {
        let server = Server(number.checked_sub(self.config.ranks)?);
        if server.0 < self.config.servers && self.core.expects(server, letter) {
            return Some(server);
        }
        None
    }
}

// Enters the event of a step at the desk, which came about in this way, and sends its letters. The step keeps the room of its lists.
// It takes no memory.
fn enter<R: Wait + Copy, M: Mailing>(
    desk: &mut Desk<M>,
    rt: R,
    cause: Snapshot<Cause>,
    step: &mut ClientStep,
) -> Option<Answer>
    requires room { room_for step.old.entries.items ≤ desk.old.room }
    ensures answer { result ≡ step.old.answer }
    ensures entered { IsEntered desk.old (event_of cause.value step.old) desk.new }
    ensures tallies { Tallies desk.old (received desk.old.config cause.value) → Tallies desk.new [] }
{
    desk.enter(&rt, step.stamp, cause, &mut step.sends, &mut step.entries);
    mem::replace(&mut step.answer, None)
}

// Makes room for the entries that this call makes as it begins. Its only error is `NoMemory`; then nothing has changed.
fn make_room_for<M: Mailing>(desk: &mut Desk<M>, call: &Call) -> Result<(), NoMemory>
    ensures same { with_room desk.new 0 ≡ with_room desk.old 0 }
    ensures room { OnOk result (room_of call.now ≤ desk.new.room) }
    ensures refused { OnErr result (desk.new ≡ desk.old) }
{
    match room_of(call) {
        Some(bytes) => desk.make_room(bytes),
        None => Err(NoMemory),
    }
}

// The room for the entries that this call makes as it begins, if it is a number of bytes at all.
fn room_of(call: &Call) -> Option<usize>
    ensures { IfSome result (λ bytes. bytes ≡ room_of call.now) }
{
    match call {
        Call::Put { body, .. } => ENTRIES.checked_add(body.len()),
        Call::BeginBatch { common } => ENTRIES.checked_add(common.len()),
        _ => Some(ENTRIES),
    }
}

// Tells each server that the rank has failed, if its last call did. No event sends these letters, and they take no memory.
pub(crate) fn tell_gone<R: Wait + Copy, M: Mailing>(
    desk: &mut Desk<M>,
    rt: R,
    config: Config,
    came: &Result<Answer, Trouble>,
)
    requires config { desk.old.config ≡ config }
    ensures desk { desk.new ≡ record desk.old { sent = desk.new.sent } }
    ensures fine { OnOk came.now (desk.new ≡ desk.old) }
    ensures told { (n : ℕ) → n < actors config → sent_at desk.new n ≡ sent_at desk.old n ++ letters_to config n (last_words config (troubled came.now)) }
{
    let Err(trouble) = came else {
        return;
    };
    for number in 0..config.servers {
        let message = Message::Gone { trouble: *trouble };
        desk.tell(&rt, Actor::Server(Server(number)), message);
    }
}
