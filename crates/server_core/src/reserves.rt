//! The letter Reserve, and how calls are answered by a unit or an end.

ghost use Rattle.std.specs.Prelude.{◌≡◌, ◌<◌, ◌+◌, ℕ, Some, IsTrue};
ghost use Rattle.adlb_unit.specs.declared.names.Server.{Server};
ghost use Rattle.server_components.specs.Parked.{entry_of};
ghost use Rattle.server_components.specs.declared.waits.Waiting.{Waiting};
ghost use Rattle.server_components.specs.declared.wishes.Wish.{Wish};
ghost use Rattle.server_core.specs.Out.{HasPlaces, HasRoom, Out, made, planned, with_answer};
ghost use Rattle.server_core.specs.inside.{parked_of};
ghost use Rattle.server_core.specs.Waits.{told_step};
ghost use Rattle.server_law.specs.Acts.{to_rank};
ghost use Rattle.server_law.specs.Carried.{counted, posted};
ghost use Rattle.server_law.specs.Expected.{IsHome, Runs};
ghost use Rattle.server_law.specs.Plan.{Plan};
ghost use Rattle.server_law.specs.Reserves.{reserve_rule};
ghost use Rattle.server_law.specs.State.{Kept, ServerModel, is_waiting};

use crate::outgoing::Outgoing;
use crate::states::ServerState;
use adlb_unit::{Actor, End, Message, Rank, Types, UnitNote};
use bag_ledger::Entry;
use server_components::ReserveStep;

impl ServerState {
    // The rank gets the best free unit; otherwise it waits, and the first of the other servers is asked.
    pub(crate) fn reserve(&mut self, from: Rank, request: u64, types: &Types, out: &mut Outgoing)
        requires rank { from.0 < self.old.config.ranks }
        requires awaited { IsHome self.old from × Runs self.old from }
        requires room { HasRoom self.old out.old 3 }

        ensures made { (p : Plan) →
            reserve_rule self.old (record { rank = from; request = request; types = types.now }) ≡ Some p →
            made self.new out.new ≡ planned out.old p self.old }
        ensures room { HasRoom self.new out.new 1 }
    {
        match self.over() {
            Some(end) => self.end_call(from, request, end, out),
            None => {
                let step = self.seek(from, request, types);
                self.tell_sought(from, request, step, out);
            }
        }
    }

    // What a rank that seeks a unit has come to: the unit is granted to it, or the next server is asked for it, or it
    // is idle.
    pub(crate) fn tell_sought(
        &mut self,
        rank: Rank,
        request: u64,
        step: ReserveStep,
        out: &mut Outgoing,
    )
        requires rank { rank.0 < self.old.config.ranks }
        requires asked { (to : Server) → step ≡ ReserveStep.Ask to →
            (to.0 < self.old.config.servers) × IsTrue (is_waiting self.old.kept rank) }
        requires room { HasRoom self.old out.old 2 }

        ensures made { (e : Waiting) →
            ((to : Server) → step ≡ ReserveStep.Ask to → entry_of (parked_of self.old) rank ≡ Some e) →
            made self.new out.new ≡ told_step step rank request e.wish.types out.old self.old }
        ensures room { HasRoom self.new out.new 1 }
    {
        match step {
            ReserveStep::Granted(note) => self.grant(rank, request, note, out),
            ReserveStep::Ask(to) => self.ask(to, rank, request, out),
            ReserveStep::Idle => {}
        }
    }

    // The rank is told which unit was pinned to it here.
    pub(crate) fn grant(&mut self, rank: Rank, request: u64, note: UnitNote, out: &mut Outgoing)
        requires rank { rank.0 < self.old.config.ranks }
        requires room { 0 < out.old.room }
        requires places { HasPlaces self.old out.old }

        ensures counted { self.new ≡ counted self.old (Actor.Rank rank) }
        ensures told { out.new ≡ with_answer out.old (posted self.old (to_rank rank (Message.Grant request note))) (Entry.Granted self.old.me rank request note.id) }
        ensures room { (more : ℕ) → HasRoom self.old out.old (more + 1) → HasRoom self.new out.new more }
    {
        let granted = Entry::Granted {
            server: self.me,
            rank,
            call: request,
            id: note.id,
        };
        self.answer(
            Actor::Rank(rank),
            Message::Grant { request, note },
            granted,
            out,
        );
    }

    // The rank's call is answered by an end.
    pub(crate) fn end_call(&mut self, rank: Rank, request: u64, end: End, out: &mut Outgoing)
        requires rank { rank.0 < self.old.config.ranks }
        requires room { 0 < out.old.room }
        requires places { HasPlaces self.old out.old }

        ensures counted { self.new ≡ counted self.old (Actor.Rank rank) }
        ensures told { out.new ≡ with_answer out.old (posted self.old (to_rank rank (Message.Ended request end))) (Entry.Over rank request end) }
        ensures room { (more : ℕ) → HasRoom self.old out.old (more + 1) → HasRoom self.new out.new more }
    {
        let over = Entry::Over {
            rank,
            call: request,
            end,
        };
        self.answer(
            Actor::Rank(rank),
            Message::Ended { request, end },
            over,
            out,
        );
    }
}
