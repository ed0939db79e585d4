//! One event after another.

ghost use Rattle.std.specs.Prelude.{◌≡◌, ◌≢◌, ◌<◌, ◌∷◌, ◌++◌, [], List, IfOk, IfErr, OnOk, IsSome, None, Some};
ghost use Rattle.std.specs.Vec.{vec_capacity};
ghost use Rattle.adlb_unit.specs.Limits.{stamp_limit};
ghost use Rattle.adlb_unit.specs.Links.{place_of};
ghost use Rattle.adlb_unit.specs.declared.letters.Letter.{Letter};
ghost use Rattle.adlb_unit.specs.declared.notes.Trouble.{Trouble};
ghost use Rattle.core_run.specs.World.{client_of, happens, pool_of, post, taken};
ghost use Rattle.core_world.specs.Applied.{Causes, IsBetween, IsEnabled, IsHalf, Stops, event_answer, event_stamp};
ghost use Rattle.core_world.specs.Seen.{under_way};
ghost use Rattle.core_world.specs.Stage.{IsWhole, with_client, with_server};
ghost use Rattle.rank_client.specs.inside.{gives};
ghost use Rattle.rank_client.specs.State.{ClientModel};
ghost use Rattle.rank_client.specs.Step.{begin, call_stamp, hear, letter_stamp};
ghost use Rattle.server_law.specs.State.{ServerModel};
ghost use Rattle.server_law.specs.Step.{next_stamp, serve};

use crate::links::place_of;
use crate::stages::Stage;
use adlb_unit::{Actor, Letter, NoMemory, Rank, Sending, Server, Trouble};
use bag_ledger::{Answer, Call, Entry};
use core_run::Event;
use packed_ledger::Ledger;
use rank_client::ClientStep;
use server_core::Step;
use std::mem;

impl Stage {
    // Carries out an event that is enabled, and tells the answer of the call that it answers, if there is one. The step is lent
    // to the client of a rank.
    pub(crate) fn carry_out(
        &mut self,
        step: &mut ClientStep,
        event: Event,
    ) -> Result<Option<Answer>, Trouble>
        requires enabled { IsEnabled self.old event }
        requires whole { IsWhole self.old }
        ensures happened { OnOk result (happens self.old event ≡ Some self.new) }
        ensures told { IfOk result (λ answer. answer ≡ event_answer self.old event) }
        ensures stamp { OnOk result (event_stamp self.old event < stamp_limit) }
        ensures whole { OnOk result (IsWhole self.new) }
        ensures stops { IfErr result (λ trouble. Stops self.old event trouble self.new) }
    {
        match event {
            Event::Call(rank, call) => self.begin(step, rank, call),
            Event::Deliver(from, to) => self.deliver(step, from, to),
        }
    }

    // An actor handles the front letter of another.
    fn deliver(
        &mut self,
        step: &mut ClientStep,
        from: Actor,
        to: Actor,
    ) -> Result<Option<Answer>, Trouble>
        requires enabled { IsEnabled self.old (Event.Deliver from to) }
        requires whole { IsWhole self.old }
        ensures happened { OnOk result (happens self.old (Event.Deliver from to) ≡ Some self.new) }
        ensures told { IfOk result (λ answer. answer ≡ event_answer self.old (Event.Deliver from to)) }
        ensures stamp { OnOk result (event_stamp self.old (Event.Deliver from to) < stamp_limit) }
        ensures whole { OnOk result (IsWhole self.new) }
        ensures stops { IfErr result (λ trouble. Stops self.old (Event.Deliver from to) trouble self.new) }
    {
        match to {
            Actor::Server(to) => self.serve(from, to),
            Actor::Rank(to) => match from {
                Actor::Server(from) => self.hear(step, from, to),
                Actor::Rank(_) => unreachable!(),
            },
        }
    }

    // A rank begins a call.
    fn begin(
        &mut self,
        step: &mut ClientStep,
        rank: Rank,
        call: Call,
    ) -> Result<Option<Answer>, Trouble>
        requires enabled { IsEnabled self.old (Event.Call rank call) }
        requires whole { IsWhole self.old }
        ensures happened { OnOk result (happens self.old (Event.Call rank call) ≡ Some self.new) }
        ensures told { IfOk result (λ answer. answer ≡ event_answer self.old (Event.Call rank call)) }
        ensures stamp { OnOk result (event_stamp self.old (Event.Call rank call) < stamp_limit) }
        ensures whole { OnOk result (IsWhole self.new) }
        ensures stops { IfErr result (λ trouble. Stops self.old (Event.Call rank call) trouble self.new) }
    {
        self.client_begins(step, rank, call)?;
        self.give(Actor::Rank(rank), &mut step.sends, &mut step.entries)?;
        Ok(mem::replace(&mut step.answer, None))
    }

    // A rank hears the front letter of a server.
    fn hear(
        &mut self,
        step: &mut ClientStep,
        from: Server,
        to: Rank,
    ) -> Result<Option<Answer>, Trouble>
        requires enabled { IsEnabled self.old (Event.Deliver (Actor.Server from) (Actor.Rank to)) }
        requires whole { IsWhole self.old }
        ensures happened { OnOk result (happens self.old (Event.Deliver (Actor.Server from) (Actor.Rank to)) ≡ Some self.new) }
        ensures told { IfOk result (λ answer. answer ≡ event_answer self.old (Event.Deliver (Actor.Server from) (Actor.Rank to))) }
        ensures stamp { OnOk result (event_stamp self.old (Event.Deliver (Actor.Server from) (Actor.Rank to)) < stamp_limit) }
        ensures whole { OnOk result (IsWhole self.new) }
        ensures stops { IfErr result (λ trouble. Stops self.old (Event.Deliver (Actor.Server from) (Actor.Rank to)) trouble self.new) }
    {
        let letter = self.take(Actor::Server(from), Actor::Rank(to));
        self.client_hears(step, to, from, letter)?;
        self.give(Actor::Rank(to), &mut step.sends, &mut step.entries)?;
        Ok(mem::replace(&mut step.answer, None))
    }

    // A server handles the front letter of an actor.
    fn serve(&mut self, from: Actor, to: Server) -> Result<Option<Answer>, Trouble>
        requires enabled { IsEnabled self.old (Event.Deliver from (Actor.Server to)) }
        requires whole { IsWhole self.old }
        ensures happened { OnOk result (happens self.old (Event.Deliver from (Actor.Server to)) ≡ Some self.new) }
        ensures told { IfOk result (λ answer. answer ≡ event_answer self.old (Event.Deliver from (Actor.Server to))) }
        ensures stamp { OnOk result (event_stamp self.old (Event.Deliver from (Actor.Server to)) < stamp_limit) }
        ensures whole { OnOk result (IsWhole self.new) }
        ensures stops { IfErr result (λ trouble. Stops self.old (Event.Deliver from (Actor.Server to)) trouble self.new) }
    {
        let letter = self.take(from, Actor::Server(to));
        let Step { sends, entries, .. } = self.server_steps(to, from, letter)?;
        self.give_and_keep(Actor::Server(to), sends, entries)?;
        Ok(None)
    }
}

impl Stage {
    // The client of the rank begins the call.
    fn client_begins(
        &mut self,
        step: &mut ClientStep,
        rank: Rank,
        call: Call,
    ) -> Result<(), Trouble>
        requires there { rank.0 < self.old.config.ranks }
        requires whole { (client_of self.old rank).trouble ≡ None }
        requires ready { IsSome (begin (client_of self.old rank) call) }
        ensures begun { OnOk result ((s : ClientModel) × (begin (client_of self.old rank) call ≡ Some (gives s step.new))
            × (self.new ≡ with_client self.old rank s)) }
        ensures stamp { OnOk result (call_stamp (client_of self.old rank) < stamp_limit) }
        ensures cause { IfErr result (Causes (call_stamp (client_of self.old rank))) }
        ensures failed { IfErr result (λ trouble. self.new ≡ with_client self.old rank (record (client_of self.old rank) { trouble = Some trouble })) }
    {
        let client = &mut self.ranks[rank.0 as usize];
        client.begin(step, call)
    }

    // The client of the rank hears the letter.
    fn client_hears(
        &mut self,
        step: &mut ClientStep,
        rank: Rank,
        from: Server,
        letter: Letter,
    ) -> Result<(), Trouble>
        requires there { rank.0 < self.old.config.ranks }
        requires whole { (client_of self.old rank).trouble ≡ None }
        requires expected { IsSome (hear (client_of self.old rank) from letter) }
        ensures heard { OnOk result ((s : ClientModel) × (hear (client_of self.old rank) from letter ≡ Some (gives s step.new))
            × (self.new ≡ with_client self.old rank s)) }
        ensures stamp { OnOk result (letter_stamp (client_of self.old rank) letter < stamp_limit) }
        ensures cause { IfErr result (Causes (letter_stamp (client_of self.old rank) letter)) }
        ensures failed { IfErr result (λ trouble. self.new ≡ with_client self.old rank (record (client_of self.old rank) { trouble = Some trouble })) }
    {
        let client = &mut self.ranks[rank.0 as usize];
        client.hear(step, from, letter)
    }

    // The server handles the letter.
    fn server_steps(&mut self, server: Server, from: Actor, letter: Letter) -> Result<Step, Trouble>
        requires there { server.0 < self.old.config.servers }
        requires whole { (pool_of self.old server).trouble ≡ None }
        requires expected { IsSome (serve (pool_of self.old server) from letter) }
        ensures served { IfOk result (λ x. (s : ServerModel)
            × (serve (pool_of self.old server) from letter ≡ Some (record { state = s; sends = x.sends.items; entries = x.entries.items }))
            × (self.new ≡ with_server self.old server s)) }
        ensures stamp { OnOk result (next_stamp (pool_of self.old server) letter < stamp_limit) }
        ensures cause { IfErr result (Causes (next_stamp (pool_of self.old server) letter)) }
        ensures failed { IfErr result (λ trouble. (s : ServerModel) × (self.new ≡ with_server self.old server s)) }
    {
        let spare = self.spare.lend();
        let server = &mut self.servers[server.0 as usize];
        server.step(spare, from, letter)
    }

    // The front letter of the list, which has one.
    fn take(&mut self, from: Actor, to: Actor) -> Letter
        requires { under_way self.old from to ≢ [] }
        ensures { (rest : List Letter) × (under_way self.old from to ≡ result ∷ rest)
            × (self.new ≡ record self.old { links = taken self.old from to rest }) }
    {
        let from = place_of(&self.config, from);
        let to = place_of(&self.config, to);
        match self.links.pop(from, to) {
            Some(letter) => letter,
            None => unreachable!(),
        }
    }

    // Sends the letters of an event of the actor, and then enters its entries. Both lists keep their room.
    fn give(
        &mut self,
        from: Actor,
        sends: &mut Vec<Sending>,
        entries: &mut Vec<Entry>,
    ) -> Result<(), Trouble>
        ensures given { OnOk result (self.new ≡ record self.old {
          links = post self.old.config self.old.links (place_of self.old.config from) sends.old.items;
          ledger = self.old.ledger ++ entries.old.items;
        }) }
        ensures cut { IfErr result (λ trouble. (trouble ≡ Trouble.Memory) × IsHalf self.old entries.old.items self.new) }
        ensures rooms { (vec_capacity sends.new ≡ vec_capacity sends.old) × (vec_capacity entries.new ≡ vec_capacity entries.old) }
    {
        let place = place_of(&self.config, from);
        if self.links.post(&self.config, place, sends).is_err() {
            return Err(Trouble::Memory);
        }
        if let Err(NoMemory) = enter(&mut self.ledger, entries) {
            return Err(Trouble::Memory);
        }
        Ok(())
    }

    // The same, of lists that are then kept for a server's next step.
    fn give_and_keep(
        &mut self,
        from: Actor,
        sends: Vec<Sending>,
        entries: Vec<Entry>,
    ) -> Result<(), Trouble>
        ensures given { OnOk result (self.new ≡ record self.old {
          links = post self.old.config self.old.links (place_of self.old.config from) sends.items;
          ledger = self.old.ledger ++ entries.items;
        }) }
        ensures cut { IfErr result (λ trouble. (trouble ≡ Trouble.Memory) × IsHalf self.old entries.items self.new) }
    {
        let (mut sends, mut entries) = (sends, entries);
        self.give(from, &mut sends, &mut entries)?;
        self.spare.keep(sends, entries);
        Ok(())
    }
}

// Enters what an event gave, in order, as far as there is memory, and takes it off its list, which keeps its room.
fn enter(ledger: &mut Ledger, entries: &mut Vec<Entry>) -> Result<(), NoMemory>
    ensures entered { OnOk result (ledger.new ≡ ledger.old ++ entries.old.items) }
    ensures cut { IsBetween ledger.old ledger.new (ledger.old ++ entries.old.items) }
    ensures room { vec_capacity entries.new ≡ vec_capacity entries.old }
{
    for entry in entries.drain(..) {
        ledger.push(entry)?;
    }
    Ok(())
}
