//! The letter Put, and what comes of a free unit.

ghost use Rattle.std.specs.Prelude.{◌≡◌, ◌<◌, ◌∷◌, [], IfOk, OnErr, OnOk, Some, false, find, length};
ghost use Rattle.std.specs.Option.{option_map};
ghost use Rattle.server_core.specs.Out.{HasRoom, Out, going_on, made, planned};
ghost use Rattle.server_law.specs.Expected.{IsNew};
ghost use Rattle.server_law.specs.Finding.{is_free_as};
ghost use Rattle.server_law.specs.Plan.{Plan};
ghost use Rattle.server_law.specs.Puts.{is_taken, put_now, put_rule, settles};
ghost use Rattle.server_law.specs.State.{Kept, ServerModel};

use crate::outgoing::Outgoing;
use crate::states::ServerState;
use adlb_unit::{Actor, End, Message, NoMemory, Rank, Target, Unit, UnitId, WorkType};
use bag_ledger::Entry;
use server_components::{PutStep, put};

impl ServerState {
    // The unit is taken, if there is room, and goes to a rank that waits for it; and then a push may begin.
    pub(crate) fn put(&mut self, from: Rank, unit: Unit, out: &mut Outgoing) -> Result<(), NoMemory>
        requires rank { from.0 < self.old.config.ranks }
        requires awaited { IsNew self.old from unit }
        requires fresh { self.old.kept.queue.arrivals < self.old.clock }
        requires room { HasRoom self.old out.old 3 }

        ensures ok { OnOk result ((p : Plan) → put_rule self.old from unit ≡ Some p →
            made self.new out.new ≡ planned out.old p self.old) }
        ensures room { OnOk result (HasRoom self.new out.new 1) }
        ensures err { OnErr result (self.new ≡ self.old) }
    {
        let id = unit.id;
        let taken = self.answer_put(from, unit, out)?;
        self.settle(id, out);
        self.press(taken, out);
        Ok(())
    }

    // The put is answered: whether it is accepted.
    fn answer_put(&mut self, from: Rank, unit: Unit, out: &mut Outgoing) -> Result<bool, NoMemory>
        requires rank { from.0 < self.old.config.ranks }
        requires awaited { IsNew self.old from unit }
        requires fresh { self.old.kept.queue.arrivals < self.old.clock }
        requires room { HasRoom self.old out.old 3 }

        ensures taken { IfOk result (λ taken. taken ≡ is_taken self.old.kept unit) }
        ensures ok { OnOk result (made self.new out.new ≡ going_on out.old (put_now self.old.kept unit ∷ []) self.old) }
        ensures room { OnOk result (HasRoom self.new out.new 2) }
        ensures err { OnErr result (self.new ≡ self.old) }
    {
        let id = unit.id;
        let request = id.number;
        let server = self.me;
        if self.done {
            self.end_call(from, request, End::NoMoreWork, out);
            return Ok(false);
        }
        match put(&mut self.queue, unit)? {
            PutStep::Accepted => {
                let accepted = Entry::Accepted { server, id };
                self.answer(
                    Actor::Rank(from),
                    Message::Accepted { request },
                    accepted,
                    out,
                );
                Ok(true)
            }
            PutStep::Full { charge } => {
                let refused = Entry::Refused {
                    server,
                    id,
                    used: charge,
                };
                self.answer(
                    Actor::Rank(from),
                    Message::Full { request, charge },
                    refused,
                    out,
                );
                Ok(false)
            }
        }
    }

    // A free unit of this id, if one is here, goes to a rank that waits for it. If no rank here does, the homes of
    // ranks that wait elsewhere are told.
    pub(crate) fn settle(&mut self, id: UnitId, out: &mut Outgoing)
        requires { HasRoom self.old out.old 2 }
        ensures made { made self.new out.new ≡ going_on out.old (settles id self.old) self.old }
        ensures room { HasRoom self.new out.new 2 }
    {
        if !self.is_looked_for() {
            return;
        }
        let Some((kind, target)) = self.free_unit(id) else {
            return;
        };
        match self.offer(id) {
            Some((rank, request, note)) => self.grant(rank, request, note, out),
            None => self.hint_homes(kind, target, out),
        }
    }

    // A rank waits here, or a wish is kept.
    fn is_looked_for(&self) -> bool
        ensures { result ≡ false → (length self.now.kept.parked.waiting ≡ 0) × (length self.now.kept.parked.wishes ≡ 0) }
    {
        let (waiting, wishes) = self.parked.counts();
        waiting > 0 || wishes > 0
    }

    // The type and the target of the free unit of this id, if there is one.
    fn free_unit(&self, id: UnitId) -> Option<(WorkType, Target)>
        ensures { result ≡ option_map (λ p. (p.unit.kind, p.unit.target)) (find (is_free_as id) self.now.kept.queue.units) }
    {
        if !self.queue.is_free(id) {
            return None;
        }
        let (facts, target) = self.queue.facts(id);
        Some((facts.kind, target))
    }
}
