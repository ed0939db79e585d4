//! What a client does with a call.

ghost use Rattle.std.specs.Prelude.{◌≡◌, ◌⊎◌, ◌<◌, ◌≤◌, ◌+◌, ◌^◌, ◌↔◌, ◌∷◌, ◌++◌, [], ℕ, true, false, length, map, find, All, Some, None, Err, IsSome, IsTrue, IfOk, IfErr, IfSome, is_some, not, OnOk, OnErr, is_none, nat_le, slice_index_or};
ghost use Rattle.std.specs.Option.{option_map};
ghost use Rattle.std.specs.List.{range_with_len};
ghost use Rattle.std.specs.Vec.{vec_capacity, vec_len};
ghost use Rattle.adlb_unit.specs.declared.notes.Trouble.{Trouble};
ghost use Rattle.rank_client.specs.Calls.{is_finish};
ghost use Rattle.rank_client.specs.inside.{IsFresh, Opens, gives, opened};
ghost use Rattle.rank_client.specs.Rules.{farewell, finish, held, is_free, open_call, reserve};
ghost use Rattle.rank_client.specs.State.{ClientModel};
ghost use Rattle.rank_client.specs.Step.{Made, begin, call_stamp, call_trouble, made, post, ticked};

use crate::clients::{ClientCore, write};
use crate::fetches::spend;
use crate::openings::{First, Opening};
use crate::pendings::Pending;
use crate::rooms::Room;
use crate::said::Transcript;
use crate::steps::ClientStep;
use adlb_unit::{
    BODY_LIMIT, Message, NoMemory, STAMP_LIMIT, Sending, Server, Trouble, Types, UnitId, UnitNote,
    or_no_memory,
};
use bag_ledger::{Answer, Call, Entry, Said};
use std::mem;

// The ids of a call's units have room among those of the transcript, and a unit that is granted among those that are held.
fn asking(said: &mut Transcript, handles: &mut Vec<UnitNote>) -> Result<(), NoMemory>
    ensures said { said.new.items ≡ said.old.items }
    ensures ids { OnOk result (4 ≤ said.new.ids) }
    ensures no_fewer_ids { said.old.ids ≤ said.new.ids }
    ensures handles { handles.new.items ≡ handles.old.items }
    ensures held { OnOk result (vec_len handles.new + 1 ≤ vec_capacity handles.new) }
    ensures no_less { vec_capacity handles.old ≤ vec_capacity handles.new }
{
    said.make_room()?;
    or_no_memory(handles.reserve(1))
}

// Writes a Finish letter to each server, from 0 on.
fn farewells(sent: &mut Vec<u64>, stamp: u64, servers: u32, sends: Vec<Sending>) -> Vec<Sending>
    requires room { servers ≤ vec_capacity sends }
    requires none { sends.items ≡ [] }
    requires servers { length sent.old.items ≡ servers }
    requires first { All (λ n. n < stamp) sent.old.items }
    ensures told { (x : Made) → x.state.sent ≡ sent.old.items → x.state.clock ≡ stamp → x.sends ≡ [] →
        post x (map farewell (range_with_len 0 servers)) ≡ record x { state = record x.state { sent = sent.new.items }; sends = result.items } }
    ensures counts { All (λ n. n ≤ stamp) sent.new.items }
    ensures len { length sent.new.items ≡ servers }
    ensures room { servers ≤ vec_capacity result }
{
    let mut sends = sends;
    for server in 0..servers {
        sends.push_reserved(write(sent, stamp, Server(server), Message::Finish));
    }
    sends
}

impl ClientCore {
    /// The rank is ready for this call: no call is pending, it has not finished, and the call's own conditions hold.
    /// The body of a put has at most `2^20` bytes, and a rank that its target names is one of the run. A unit that is
    /// fetched is held. No batch is going on when one begins, whose common part has at most `2^20` bytes, nor at
    /// Finish. One is going on when it ends. A reserve, a try, a count and that the problem is done have no such
    /// condition.
    pub fn ready(&self, call: &Call) -> bool
        ensures { IsTrue result ↔ IsSome (begin self.now call.now) }
    {
        if !matches!(self.pending, Pending::Nothing) || self.finished {
            return false;
        }
        match call {
            Call::Put { target, body, .. } => body.len() <= BODY_LIMIT
                && self.config.has_target(*target),
            Call::Reserve { .. } | Call::Try { .. } | Call::Count { .. } | Call::SetDone => true,
            Call::Fetch { id } => self.held(*id).is_some(),
            Call::BeginBatch { common } => self.batch.is_none() && common.len() <= BODY_LIMIT,
            Call::EndBatch => self.batch.is_some(),
            Call::Finish => self.batch.is_none(),
        }
    }

    // The note of this unit, where the rank holds it.
    fn held(&self, id: UnitId) -> Option<UnitNote>
        ensures { result ≡ held self.now id }
    {
        self.handles.iter().copied().find(|note| note.id == id)
    }
}

impl ClientCore {
    // The call begins.
    fn open(&mut self, step: &mut ClientStep, opening: Opening) -> Result<(), NoMemory>
        requires free { is_free self.old ≡ true }
        requires fresh { IsFresh self.old }
        requires opens { Opens self.old opening }
        ensures ok { OnOk result (made (opened self.old opening) ≡ gives self.new step.new) }
        ensures stamp { OnOk result (step.new.stamp ≡ self.new.clock) }
        ensures err { OnErr result (self.new ≡ self.old) }
    {
        asking(&mut self.said, &mut self.handles)?;
        let Opening {
            puts,
            spent,
            entry,
            first,
        } = opening;
        step.empty(self.clock);
        step.entries.push_reserved(entry);
        spend(&mut self.handles, spent);
        self.puts = puts;
        match first {
            First::Asks {
                to,
                message,
                pending,
                room,
            } => {
                step.sends
                    .push_reserved(write(&mut self.sent, self.clock, to, message));
                self.next += 1;
                drop(mem::replace(&mut self.pending, pending));
                drop(mem::replace(&mut self.room, room));
            }
            First::Over { call, end } => {
                step.entries.push_reserved(Entry::Over {
                    rank: self.me,
                    call: self.next,
                    end,
                });
                self.next += 1;
                let answer = Answer::Ended(end);
                self.said.add(&Said { call, answer });
                drop(mem::replace(&mut step.answer, Some(Answer::Ended(end))));
            }
        }
        Ok(())
    }

    // Asks the home for a unit.
    fn reserve(&self, types: Types) -> Opening
        ensures ok { opened self.now result ≡ reserve self.now types self.now.end }
        ensures opens { Opens self.now result }
    {
        let request = self.next;
        let entry = Entry::Asked {
            rank: self.me,
            call: request,
            types: types.twin(),
        };
        let first = if let Some(end) = self.end {
            First::Over {
                call: Call::Reserve { types },
                end,
            }
        } else {
            First::Asks {
                to: self.config.home(self.me),
                message: Message::Reserve {
                    request,
                    types: types.twin(),
                },
                pending: Pending::Reserve { request, types },
                room: Room::none(self.alloc),
            }
        };
        Opening {
            puts: self.puts,
            spent: None,
            entry,
            first,
        }
    }

    // Tells each server that the rank has finished. It takes no memory.
    fn finish(&mut self, step: &mut ClientStep)
        requires free { is_free self.old ≡ true }
        requires fresh { IsFresh self.old }
        ensures ok { made (finish self.old) ≡ gives self.new step.new }
        ensures stamp { step.new.stamp ≡ self.new.clock }
    {
        step.empty(self.clock);
        step.entries.push_reserved(Entry::Finished {
            rank: self.me,
            call: self.next,
        });
        self.next += 1;
        self.finished = true;
        self.said.add(&Said {
            call: Call::Finish,
            answer: Answer::Fine,
        });
        let sends = mem::replace(&mut self.farewell, Vec::new(self.alloc));
        let sends = farewells(&mut self.sent, self.clock, self.config.servers, sends);
        drop(mem::replace(&mut step.sends, sends));
        drop(mem::replace(&mut step.answer, Some(Answer::Fine)));
    }
}

impl ClientCore {
    /// Begins a call for which the rank is ready, as `begin` says. What it gives is in the step that it is lent. All growth of the
    /// whole call is made here. A client that has failed gives its trouble again; otherwise `TooLong` comes exactly when the event's
    /// stamp would reach `2^48`. The only other error is `Memory`, and never at Finish, which takes none. After a failure nothing
    /// else of the client has changed.
    pub fn begin(&mut self, step: &mut ClientStep, call: Call) -> Result<(), Trouble>
        requires ready { IsSome (begin self.old call) }

        ensures begun { OnOk result (begin self.old call ≡ Some (gives self.new step.new)) }
        ensures stamp { OnOk result (step.new.stamp ≡ self.new.clock) }

        // When it fails, and what is left then.
        ensures whole { OnOk result (call_trouble self.old ≡ None) }
        ensures troubled { (t : Trouble) → call_trouble self.old ≡ Some t → result ≡ Err t }
        ensures memory { call_trouble self.old ≡ None → IfErr result (λ t. (t ≡ Trouble.Memory) × (is_finish call ≡ false)) }
        ensures failed { IfErr result (λ t. self.new ≡ record self.old { trouble = Some t }) }
    {
        let before = self.clock;
        match self.call_stamp() {
            Ok(stamp) => self.clock = stamp,
            Err(trouble) => return Err(self.fail(trouble)),
        }
        match self.carry_out(step, call) {
            Ok(()) => Ok(()),
            Err(NoMemory) => {
                self.clock = before;
                Err(self.fail(Trouble::Memory))
            }
        }
    }

    // The stamp of the event of a call, or the trouble that there is instead.
    fn call_stamp(&self) -> Result<u64, Trouble>
        ensures stamp { IfOk result (λ stamp. stamp ≡ call_stamp self.now) }
        ensures whole { OnOk result (call_trouble self.now ≡ None) }
        ensures troubled { IfErr result (λ t. call_trouble self.now ≡ Some t) }
    {
        if let Some(trouble) = self.trouble {
            return Err(trouble);
        }
        let stamp = self.clock + 1;
        if stamp >= STAMP_LIMIT {
            return Err(Trouble::TooLong { stamp });
        }
        Ok(stamp)
    }

    // Begins the call in an event that has its stamp.
    fn carry_out(&mut self, step: &mut ClientStep, call: Call) -> Result<(), NoMemory>
        requires free { is_free self.old ≡ true }
        requires fresh { IsFresh self.old }
        requires ready { IsSome (open_call self.old call) }
        ensures ok { OnOk result (option_map made (open_call self.old call) ≡ Some (gives self.new step.new)) }
        ensures stamp { OnOk result (step.new.stamp ≡ self.new.clock) }
        ensures err { OnErr result (self.new ≡ self.old) }
        ensures finish { OnErr result (is_finish call ≡ false) }
    {
        match self.opening(call)? {
            Some(opening) => self.open(step, opening),
            None => Ok(self.finish(step)),
        }
    }

    // What begins the call; nothing at Finish, which takes no memory.
    fn opening(&self, call: Call) -> Result<Option<Opening>, NoMemory>
        requires fresh { IsFresh self.now }
        requires ready { IsSome (open_call self.now call) }
        ensures ok { IfOk result (λ o. IfSome o (λ x. open_call self.now call ≡ Some (opened self.now x))) }
        ensures opens { IfOk result (λ o. IfSome o (λ x. Opens self.now x)) }
        ensures finish { IfOk result (λ o. is_some o ≡ not (is_finish call)) }
        ensures err { OnErr result (is_finish call ≡ false) }
    {
        match call {
            Call::Put {
                kind,
                prio,
                target,
                answer,
                body,
            } => {
                let unit = self.unit(kind, prio, target, answer, body)?;
                Ok(Some(self.put(unit)?))
            }
            Call::Reserve { types } => Ok(Some(self.reserve(types))),
            Call::Try { types } => Ok(Some(self.look(types)?)),
            Call::Fetch { id } => match self.held(id) {
                Some(note) => Ok(Some(self.fetch(id, note))),
                None => Ok(None),
            },
            Call::BeginBatch { common } => Ok(Some(self.keep(common)?)),
            Call::EndBatch => match self.batch {
                Some(batch) => Ok(Some(self.close(batch))),
                None => Ok(None),
            },
            Call::Count { kind } => Ok(Some(self.count(kind))),
            Call::SetDone => Ok(Some(self.set_done()?)),
            Call::Finish => Ok(None),
        }
    }
}
