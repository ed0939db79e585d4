//! A server with its desk, while it handles letters.

ghost use Rattle.std.specs.Prelude.{◌≡◌, ◌<◌, ◌+◌, ◌∷◌, ◌↔◌, ℕ, [], false, true, None, Some};
ghost use Rattle.std.specs.Prelude.{IfErr, IfNone, IfOk, IfSome, IsSome, OnErr, OnOk};
ghost use Rattle.adlb_unit.specs.Links.{is_within, place_of};
ghost use Rattle.adlb_unit.specs.declared.actors.Actor.{Actor};
ghost use Rattle.adlb_unit.specs.declared.notes.Trouble.{Trouble};
ghost use Rattle.actor_desk.specs.Desks.{IsNew, with_room};
ghost use Rattle.thread_actors.specs.World.{has_ended};
ghost use Rattle.server_law.specs.Step.{next_stamp, serve};
ghost use Rattle.thread_actors.specs.Faults.{IsLateFault};
ghost use Rattle.thread_actors.specs.declared.faults.ActorFault.{ActorFault};
ghost use Rattle.thread_actors.specs.inside.Serving.{Follows, IsCut};
ghost use Rattle.thread_actors.specs.ServerJobs.{BreaksBy, EndsAs, IsUnexpected, trouble_told};

use crate::broken::{Break, break_down};
use crate::faults::ActorFault;
use crate::rolls::Roll;
use crate::server_jobs::ServerEnd;
use actor_desk::{Desk, Mailing, got};
use adlb_unit::{Actor, Config, Letter, Message, NoMemory, Rank, Server, Trouble};
use server_core::{ServerState, Spare, Step};
use std::alloc::Global;
use std::sync::Wait;

// One server with its desk. It is not broken.
#[derive(Drop)]
pub struct Serving<R: Wait, M: Mailing> {
    pub(crate) rt: R,
    pub(crate) alloc: Global,
    pub(crate) config: Config,
    pub(crate) me: Server,
    pub(crate) state: ServerState,
    pub(crate) desk: Desk<M>,
    // The lists of what the last step gave.
    pub(crate) spare: Spare,
    ghost run_is: { (state.config ≡ config) × (state.me ≡ me) },
    ghost desk_is: { (desk.config ≡ config) × (desk.number ≡ config.ranks + me.0) },
}

impl<R: Wait + Copy, M: Mailing> Serving<R, M> {
    // The server at the start.
    pub(crate) fn new(
        alloc: Global,
        rt: R,
        config: Config,
        me: Server,
        desk: Desk<M>,
    ) -> Result<Serving<R, M>, NoMemory>
        requires server { me.0 < config.servers }
        requires desk { IsNew config (config.ranks + me.0) desk }
        ensures config { IfOk result (λ s. s.config ≡ config) }
        ensures me { IfOk result (λ s. s.me ≡ me) }
        ensures follows { IfOk result (λ s. Follows s.desk [] s.state) }
    {
        let state = ServerState::new(alloc, config, me)?;
        Ok(Serving {
            rt,
            alloc,
            config,
            me,
            state,
            desk,
            spare: Spare::new(alloc),
        })
    }

    // Handles letters until it has ended, or until one breaks it.
    pub(crate) fn serve_all(&mut self) -> Option<Break>
        requires follows { Follows self.old.desk [] self.old.state }
        ensures follows { IfNone result (Follows self.new.desk [] self.new.state) }
        ensures ended { IfNone result (has_ended self.new.state ≡ true) }
        ensures cut { IfSome result (λ b. IsCut self.new.me self.new.desk b.roll.waits b.roll.over b.fault b.own) }
        ensures config { self.new.config ≡ self.old.config }
        ensures me { self.new.me ≡ self.old.me }
    {
        let rt = self.rt;
        for _ in rt.forever() {
            if self.state.ended() {
                return None;
            }
            let (from, letter) = self.desk.receive(&rt);
            if let Some(broken) = self.take(from, letter) {
                return Some(broken);
            }
        }
        unreachable!()
    }

    // Takes a letter of the actor of this number, the last that was received. Who waits for the server and who is over is noted before,
    // since nothing is known of that after a step.
    fn take(&mut self, from: u32, letter: Letter) -> Option<Break>
        requires going { has_ended self.old.state ≡ false }
        requires follows { Follows self.old.desk (record { from = from; letter = letter } ∷ []) self.old.state }
        ensures follows { IfNone result (Follows self.new.desk [] self.new.state) }
        ensures cut { IfSome result (λ b. IsCut self.new.me self.new.desk b.roll.waits b.roll.over b.fault b.own) }
        ensures config { self.new.config ≡ self.old.config }
        ensures me { self.new.me ≡ self.old.me }
    {
        let roll = Roll::at(&self.state, &self.config, from, &letter);
        let (fault, own) = self.handle(from, letter)?;
        Some(Break { fault, own, roll })
    }

    // Handles a letter. If it breaks the server, it says why, and whether a step of its own failed. A letter that is not expected is
    // dropped.
    fn handle(&mut self, from: u32, letter: Letter) -> Option<(ActorFault, bool)>
        requires going { has_ended self.old.state ≡ false }
        requires follows { Follows self.old.desk (record { from = from; letter = letter } ∷ []) self.old.state }
        ensures follows { IfNone result (Follows self.new.desk [] self.new.state) }
        ensures breaks { IfSome result (λ f. BreaksBy self.old.config self.old.state (record { from = from; letter = letter }) f.0 f.1) }
        ensures late { IfSome result (λ f. IsLateFault f.0) }
        ensures unsent { IfSome result (λ f. with_room self.new.desk 0 ≡ with_room self.old.desk 0) }
        ensures unexpected { (n : ℕ) → (result ≡ Some (ActorFault.Unexpected n, false)) ↔ ((n ≡ from)
            × IsUnexpected self.old.config self.old.state from letter × (trouble_told self.old.config from letter.message ≡ None)) }
        ensures config { self.new.config ≡ self.old.config }
        ensures me { self.new.me ≡ self.old.me }
    {
        if let Some(trouble) = told_by(&self.config, from, &letter.message) {
            return Some((ActorFault::of(trouble), false));
        }
        let Some(actor) = self.expecting(from, &letter) else {
            return Some((ActorFault::Unexpected { from }, false));
        };
        match self.serve(actor, letter) {
            Ok(()) => None,
            Err(trouble) => Some((ActorFault::of(trouble), true)),
        }
    }

    // Handles a letter that is expected, and enters its event before the event's letters are sent; if there is no memory for its
    // entries, none is sent.
    fn serve(&mut self, from: Actor, letter: Letter) -> Result<(), Trouble>
        requires whole { self.old.state.trouble ≡ None }
        requires going { has_ended self.old.state ≡ false }
        requires within { is_within self.old.config from ≡ true }
        requires expected { IsSome (serve self.old.state from letter) }
        requires follows { Follows self.old.desk (record { from = place_of self.old.config from; letter = letter } ∷ []) self.old.state }
        ensures follows { OnOk result (Follows self.new.desk [] self.new.state) }
        ensures unsent { OnErr result (with_room self.new.desk 0 ≡ with_room self.old.desk 0) }
        ensures stamp { IfErr result (λ trouble. (n : ℕ) → trouble ≡ Trouble.TooLong n → n ≡ next_stamp self.old.state letter) }
        ensures config { self.new.config ≡ self.old.config }
        ensures me { self.new.me ≡ self.old.me }
    {
        let (cause, letter) = got(from, letter);
        let spare = self.spare.lend();
        let Step {
            stamp,
            mut sends,
            mut entries,
        } = self.state.step(spare, from, letter)?;
        if let Err(NoMemory) = self.desk.make_room_for(&entries) {
            return Err(Trouble::Memory);
        }
        let rt = self.rt;
        self.desk.enter(&rt, stamp, cause, &mut sends, &mut entries);
        self.spare.keep(sends, entries);
        Ok(())
    }

    // The rank or the server of this number, if it is one and its letter is expected.
    fn expecting(&self, number: u32, letter: &Letter) -> Option<Actor>
        ensures within { IfSome result (λ a. (is_within self.now.config a ≡ true) × (place_of self.now.config a ≡ number)) }
        ensures served { IfSome result (λ a. IsSome (serve self.now.state a letter.now)) }
        ensures unserved { IfNone result ((a : Actor) → is_within self.now.config a ≡ true → place_of self.now.config a ≡ number
            → serve self.now.state a letter.now ≡ None) }
    {
        let actor = self.actor(number)?;
        if self.state.expects(actor, letter) {
            return Some(actor);
        }
        None
    }

    // The rank or the server of this number, if it is one.
    fn actor(&self, number: u32) -> Option<Actor>
        ensures { (a : Actor) → (result ≡ Some a) ↔ ((is_within self.now.config a ≡ true) × (place_of self.now.config a ≡ number)) }
    {
        match number.checked_sub(self.config.ranks) {
            None => Some(Actor::Rank(Rank(number))),
            Some(server) if server < self.config.servers => Some(Actor::Server(Server(server))),
            Some(_) => None,
        }
    }

    // What is given back at its end.
    pub(crate) fn end(self) -> ServerEnd<M>
        requires follows { Follows self.desk [] self.state }
        requires ended { has_ended self.state ≡ true }
        ensures { EndsAs self.config self.me result }
    {
        let (left, fault) = match self.state.left() {
            Ok(left) => (left, None),
            Err(NoMemory) => (Vec::new(self.alloc), Some(ActorFault::Memory)),
        };
        ServerEnd {
            left,
            fault,
            own: false,
            desk: self.desk,
        }
    }

    // What is given back after a letter broke it, when each rank is over.
    pub(crate) fn end_broken(self, broken: Break) -> ServerEnd<M>
        requires cut { IsCut self.me self.desk broken.roll.waits broken.roll.over broken.fault broken.own }
        ensures { EndsAs self.config self.me result }
    {
        let Serving {
            rt,
            alloc,
            config,
            me,
            mut desk,
            ..
        } = self;
        let (fault, own) = (broken.fault, broken.own);
        break_down(&rt, &mut desk, &config, me, broken);
        ServerEnd {
            left: Vec::new(alloc),
            fault: Some(fault),
            own,
            desk,
        }
    }
}

// The trouble that a letter of the actor of this number tells: that a rank is gone, or by Abort that a server broke or a thread
// was not started. Where a rank says Abort, it is a letter that is not expected.
fn told_by(config: &Config, from: u32, message: &Message) -> Option<Trouble>
    ensures { result ≡ trouble_told config.now from message.now }
{
    match message {
        Message::Gone { trouble } => Some(*trouble),
        Message::Abort { trouble, .. } => (from >= config.ranks).then_some(*trouble),
        _ => None,
    }
}
