//! What a client does with a letter.

ghost use Rattle.std.specs.Prelude.{◌≡◌, ◌⊎◌, ◌<◌, ◌≤◌, ◌+◌, [], false, None, Some, IsSome, IfOk, IfErr, OnOk};
ghost use Rattle.std.specs.Option.{option_map};
ghost use Rattle.std.specs.Vec.{vec_capacity};
ghost use Rattle.adlb_unit.specs.Limits.{stamp_limit};
ghost use Rattle.rank_client.specs.inside.{HasRoom, Hears, IsFresh, entered, gives};
ghost use Rattle.rank_client.specs.Rules.{answer_call};
ghost use Rattle.rank_client.specs.Step.{hear, letter_stamp, letter_trouble, made, told_trouble};

use crate::batches::{hear_close, hear_keep};
use crate::clients::{ClientCore, write};
use crate::counts::hear_count;
use crate::dones::hear_done;
use crate::fetches::{hear_common, hear_fetch};
use crate::looks::{hear_look, hear_reserve};
use crate::outcomes::{Outcome, Place, make_change};
use crate::pendings::Pending;
use crate::puts::hear_put;
use crate::rooms::Room;
use crate::rounds::Round;
use crate::steps::ClientStep;
use adlb_unit::{Letter, Message, STAMP_LIMIT, Server, Trouble};
use bag_ledger::{Answer, Entry, Said};
use std::mem;

impl ClientCore {
    /// Hears a letter, as `hear` says: the pending call awaits it, or it says that its server has failed. What it gives is in the
    /// step that it is lent. It takes no memory. A client that has failed gives its trouble again; otherwise it fails with the
    /// trouble that the letter tells, or with `TooLong` if the event's stamp would reach `2^48` (`letter_trouble`). After a failure
    /// nothing else of the client has changed.
    pub fn hear(
        &mut self,
        step: &mut ClientStep,
        from: Server,
        letter: Letter,
    ) -> Result<(), Trouble>
        requires expected { IsSome (told_trouble letter.message) ⊎ IsSome (hear self.old from letter) }

        ensures heard { OnOk result (hear self.old from letter ≡ Some (gives self.new step.new)) }
        ensures stamp { OnOk result (step.new.stamp ≡ self.new.clock) }

        // When it fails, and what is left then.
        ensures whole { OnOk result (letter_trouble self.old letter ≡ None) }
        ensures troubled { IfErr result (λ t. letter_trouble self.old letter ≡ Some t) }
        ensures failed { IfErr result (λ t. self.new ≡ record self.old { trouble = Some t }) }
    {
        match self.letter_stamp(&letter) {
            Ok(stamp) => {
                self.clock = stamp;
                Ok(self.take_in(step, from, letter.message))
            }
            Err(trouble) => Err(self.fail(trouble)),
        }
    }

    // The stamp of this letter's event, or the trouble that there is instead.
    fn letter_stamp(&self, letter: &Letter) -> Result<u64, Trouble>
        requires given { told_trouble letter.now.message ≡ None → letter.now.stamp < stamp_limit }
        ensures stamp { IfOk result (λ stamp. stamp ≡ letter_stamp self.now letter.now) }
        ensures untold { OnOk result (told_trouble letter.now.message ≡ None) }
        ensures whole { OnOk result (letter_trouble self.now letter.now ≡ None) }
        ensures troubled { IfErr result (λ t. letter_trouble self.now letter.now ≡ Some t) }
    {
        if let Some(trouble) = self.trouble {
            return Err(trouble);
        }
        if let Some(trouble) = told(&letter.message) {
            return Err(trouble);
        }
        let stamp = self.clock.max(letter.stamp) + 1;
        if stamp >= STAMP_LIMIT {
            return Err(Trouble::TooLong { stamp });
        }
        Ok(stamp)
    }

    // Hears what the letter says in an event that has its stamp.
    fn take_in(&mut self, step: &mut ClientStep, from: Server, message: Message)
        requires going { self.old.finished ≡ false }
        requires fresh { IsFresh self.old }
        requires expected { IsSome (answer_call self.old self.old.pending from message) }
        ensures ok { option_map made (answer_call self.old self.old.pending from message) ≡ Some (gives self.new step.new) }
        ensures stamp { step.new.stamp ≡ self.new.clock }
    {
        let place = Place {
            config: self.config,
            me: self.me,
        };
        step.empty(self.clock);
        let pending = mem::replace(&mut self.pending, Pending::Nothing);
        match heard(&place, pending, &mut self.room, message) {
            Outcome::Ends {
                change,
                entry,
                said,
            } => {
                make_change(
                    &mut self.batch,
                    &mut self.accepted,
                    &mut self.end,
                    &mut self.handles,
                    change,
                );
                self.said.add(&said);
                enter(&mut step.entries, entry);
                drop(mem::replace(&mut step.answer, Some(answer_of(said))));
            }
            Outcome::Waits {
                pending,
                to,
                message,
            } => {
                step.sends
                    .push_reserved(write(&mut self.sent, self.clock, to, message));
                drop(mem::replace(&mut self.pending, pending));
            }
            Outcome::Strange => unreachable!(),
        }
    }
}

// Enters this entry, if it is one, in a list that has none and has room.
fn enter(entries: &mut Vec<Entry>, entry: Option<Entry>)
    requires none { entries.old.items ≡ [] }
    requires room { 1 ≤ vec_capacity entries.old }
    ensures entered { entries.new.items ≡ entered entry }
    ensures room { vec_capacity entries.new ≡ vec_capacity entries.old }
{
    if let Some(entry) = entry {
        entries.push_reserved(entry);
    }
}

// What the letter makes of the pending call.
fn heard(place: &Place, pending: Pending, room: &mut Room, message: Message) -> Outcome
    requires me { place.now.me.0 < place.now.config.ranks }
    requires room { HasRoom place.now.config room.old pending }
    ensures { Hears place.now pending message room.new result }
{
    match pending {
        Pending::Nothing => Outcome::Strange,
        Pending::Put { unit, first, tried } => {
            hear_put(place, unit, Round { first, tried }, room, &message)
        }
        Pending::Reserve { request, types } => hear_reserve(place, request, types, room, &message),
        Pending::Try {
            request,
            types,
            tried,
        } => hear_look(place, request, types, tried, room, &message),
        Pending::Fetch { request, note } => hear_fetch(place, request, note, room, message),
        Pending::Common {
            request,
            note,
            common,
            own,
        } => hear_common(place, request, note, common, own, room, message),
        Pending::Keep {
            request,
            common,
            first,
            tried,
        } => {
            hear_keep(
                place,
                request,
                common,
                Round { first, tried },
                room,
                &message,
            )
        }
        Pending::Close { request, batch } => hear_close(place, request, batch, room, &message),
        Pending::Count { request, kind } => hear_count(place, request, kind, room, &message),
        Pending::SetDone { request, tried } => hear_done(place, request, tried, room, &message),
    }
}

// The answer, with the call let go of.
fn answer_of(said: Said) -> Answer
    ensures { result ≡ said.answer }
{
    said.answer
}

// The trouble of a server that has failed and says so.
fn told(message: &Message) -> Option<Trouble>
    ensures { result ≡ told_trouble message.now }
{
    match message {
        Message::Broken { trouble } => Some(*trouble),
        _ => None,
    }
}
