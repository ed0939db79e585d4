//! The letters of pushes: a unit moves to another server where there is room. PushQuery asks for room; PushYes promises
//! it, and PushNo ends the push. PushUnit brings the unit, or PushCancel takes the promise back; PushAck ends the push.

ghost use Rattle.std.specs.Prelude.{◌≡◌, ◌<◌, ℕ, IsTrue, OnErr, OnOk, Some};
ghost use Rattle.server_components.specs.Pushes.{Asks, asks_room, has_sent, is_query, is_under_way};
ghost use Rattle.server_core.specs.Out.{HasRoom, Out, going_on, made, planned};
ghost use Rattle.server_law.specs.Acts.{Act, Ends_push, Stops_push};
ghost use Rattle.server_law.specs.Carried.{done};
ghost use Rattle.server_law.specs.Expected.{IsAwaitedFrom};
ghost use Rattle.server_law.specs.Plan.{Plan};
ghost use Rattle.server_law.specs.Presses.{presses};
ghost use Rattle.server_law.specs.Pushes.{cancel_rule, query_rule, unit_rule, yes_rule};
ghost use Rattle.server_law.specs.State.{Kept, ServerModel};
ghost use Rattle.work_queue.specs.Queue.{HasPromise};

use crate::outgoing::Outgoing;
use crate::states::ServerState;
use adlb_unit::{Actor, Message, NoMemory, Server, Unit, UnitId};
use bag_ledger::Entry;
use server_components::{Push, push_query};

impl ServerState {
    // If a unit was taken, the queue is pressed, no push stands and a unit may move, the next of the other servers is asked
    // for room.
    pub(crate) fn press(&mut self, taken: bool, out: &mut Outgoing)
        requires { HasRoom self.old out.old 2 }
        ensures made { made self.new out.new ≡ going_on out.old (presses taken self.old) self.old }
        ensures room { HasRoom self.new out.new 1 }
    {
        if !taken {
            return;
        }
        if let Some(query) = self.pushes.pressure(&self.queue) {
            let asks = Message::PushQuery {
                id: query.id,
                length: query.length,
            };
            self.say(Actor::Server(query.to), asks, out);
        }
    }

    // The other server asks for room of `length` bytes: it is promised if it is within the limit.
    pub(crate) fn hear_query(
        &mut self,
        from: Server,
        id: UnitId,
        length: u32,
        out: &mut Outgoing,
    ) -> Result<(), NoMemory>
        requires server { from.0 < self.old.config.servers }
        requires awaited { IsAwaitedFrom self.old from (Message.PushQuery id length) }
        requires room { HasRoom self.old out.old 3 }

        ensures ok { OnOk result ((p : Plan) → query_rule self.old from id length ≡ Some p →
            made self.new out.new ≡ planned out.old p self.old) }
        ensures room { OnOk result (HasRoom self.new out.new 1) }
        ensures err { OnErr result (self.new ≡ self.old) }
    {
        if push_query(&mut self.queue, id, length)? {
            let promised = Entry::Promised {
                server: self.me,
                id,
                length,
            };
            self.answer(Actor::Server(from), Message::PushYes { id }, promised, out);
        } else {
            self.say(Actor::Server(from), Message::PushNo { id }, out);
        }
        Ok(())
    }

    // The other server has promised room: the unit goes there if it is still free, otherwise a cancel.
    pub(crate) fn hear_yes(&mut self, from: Server, id: UnitId, out: &mut Outgoing)
        requires server { from.0 < self.old.config.servers }
        requires awaited { Asks self.old.kept.pushing from id }
        requires room { HasRoom self.old out.old 3 }

        ensures made { (p : Plan) → yes_rule self.old from id ≡ Some p →
            made self.new out.new ≡ planned out.old p self.old }
        ensures room { HasRoom self.new out.new 1 }
    {
        match self.pushes.push_yes(&mut self.queue) {
            Push::Go(_, unit) => {
                let left = Entry::Left {
                    server: self.me,
                    to: from,
                    id: unit.id,
                };
                self.answer(Actor::Server(from), Message::PushUnit { unit }, left, out);
            }
            Push::Cancel(..) => self.say(Actor::Server(from), Message::PushCancel { id }, out),
        }
    }

    // The other server has no room: the push has ended.
    pub(crate) fn hear_no(&mut self)
        requires { IsTrue (is_query self.old.kept.pushing) }
        ensures { (from : Server) (id : UnitId) (n : ℕ) → self.old.kept.pushing.push ≡ Some (asks_room from id n) →
            self.new ≡ done (Stops_push from id n) self.old }
    {
        self.pushes.push_no();
    }

    // The unit comes into the room that was promised to it and is settled, and then its coming is acknowledged.
    pub(crate) fn hear_unit(&mut self, from: Server, unit: Unit, out: &mut Outgoing)
        requires server { from.0 < self.old.config.servers }
        requires awaited { IsAwaitedFrom self.old from (Message.PushUnit unit) }
        requires fresh { self.old.kept.queue.arrivals < self.old.clock }
        requires room { HasRoom self.old out.old 3 }

        ensures made { (p : Plan) → unit_rule self.old from unit ≡ Some p →
            made self.new out.new ≡ planned out.old p self.old }
        ensures room { HasRoom self.new out.new 1 }
    {
        let id = unit.id;
        self.queue.arrive(unit);
        out.enter(Entry::Arrived {
            server: self.me,
            id,
        });
        self.settle(id, out);
        self.say(Actor::Server(from), Message::PushAck { id }, out);
    }

    // The other server takes the promise back, which is acknowledged.
    pub(crate) fn hear_cancel(&mut self, from: Server, id: UnitId, out: &mut Outgoing)
        requires server { from.0 < self.old.config.servers }
        requires awaited { HasPromise id self.old.kept.queue.promises }
        requires room { HasRoom self.old out.old 3 }

        ensures made { (p : Plan) → cancel_rule self.old from id ≡ Some p →
            made self.new out.new ≡ planned out.old p self.old }
        ensures room { HasRoom self.new out.new 1 }
    {
        self.queue.withdraw(id);
        let withdrawn = Entry::Withdrawn {
            server: self.me,
            id,
        };
        self.answer(Actor::Server(from), Message::PushAck { id }, withdrawn, out);
    }

    // The other server has the unit, or has taken its promise back: the push has ended.
    pub(crate) fn hear_ack(&mut self)
        requires { IsTrue (is_under_way self.old.kept.pushing) }
        ensures { (from : Server) (id : UnitId) (n : ℕ) → self.old.kept.pushing.push ≡ Some (has_sent from id n) →
            self.new ≡ done (Ends_push from id n) self.old }
    {
        self.pushes.push_ack();
    }
}
