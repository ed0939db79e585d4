//! Events, applied one by one.

ghost use Rattle.std.specs.Prelude.{◌≡◌, ◌<◌, ◌≤◌, ◌^◌, ◌↔◌, ℕ, None, Some, Err, IfErr, IfOk, OnOk, length};
ghost use Rattle.adlb_unit.specs.Limits.{stamp_limit};
ghost use Rattle.adlb_unit.specs.declared.notes.Trouble.{Trouble};
ghost use Rattle.core_progress_law.specs.Bounds.{calls_begun};
ghost use Rattle.core_run.specs.declared.events.Event.{Event};
ghost use Rattle.core_run.specs.Runs.{run};
ghost use Rattle.core_run.specs.World.{happens};
ghost use Rattle.core_world.specs.Applied.{Applies, HasNone, IsEnabled, Refuses, Stops, StopsAt, event_answer, event_stamp, fault_of};

use crate::faults::ApplyFault;
use crate::worlds::World;
use adlb_unit::Trouble;
use bag_ledger::Answer;
use core_run::Event;

impl World {
    /// Carries out an event, as `happens` says: a rank begins a call, or an actor handles the front letter of a list.
    /// It tells the answer of the call that the event answers, if there is one (`event_answer`). If there is no such
    /// event now, it answers `NotEnabled` with the event, and nothing has changed; this is tested first. That is so
    /// exactly if a rank or actor is not in the run, the rank is not ready, no letter is under way, or its receiver
    /// has ended (`HasNone`). Every other front letter is expected, since a run leads to the world. It answers
    /// `TooLong` exactly when the event is enabled and its stamp would reach `2^48`, which is so only after `2^34`
    /// calls; the only other error is `Memory`. After one of these two the world has failed, and answers the same to
    /// every event; what is left is said by `Stops`.
    pub fn apply(&mut self, event: Event) -> Result<Option<Answer>, ApplyFault>
        ensures told { IfOk result (λ answer. answer ≡ event_answer self.old.world event) }
        ensures applied { OnOk result (Applies self.old event self.new) }
        ensures refused { IfErr result (λ fault. Refuses self.old event fault self.new) }

        // When each refusal comes.
        ensures not_enabled { (given : Event) → (result ≡ Err (ApplyFault.NotEnabled given)) ↔
            ((self.old.trouble ≡ None) × (happens self.old.world event ≡ None) × (given ≡ event)) }
        ensures none_now { (given : Event) → (result ≡ Err (ApplyFault.NotEnabled given)) ↔
            ((self.old.trouble ≡ None) × HasNone self.old.world event × (given ≡ event)) }
        ensures too_long { self.old.trouble ≡ None → (stamp : ℕ) → (result ≡ Err (ApplyFault.TooLong stamp)) ↔
            (IsEnabled self.old.world event × (stamp_limit ≤ stamp) × (stamp ≡ event_stamp self.old.world event)) }
        ensures many { self.old.trouble ≡ None → (stamp : ℕ) → result ≡ Err (ApplyFault.TooLong stamp) →
            2 ^ 34 ≤ calls_begun self.old.world }
        ensures failed { (trouble : Trouble) → self.old.trouble ≡ Some trouble → result ≡ Err (fault_of trouble) }

        ensures config { self.new.world.config ≡ self.old.world.config }
    {
        if let Some(trouble) = self.trouble {
            return Err(ApplyFault::of(trouble));
        }
        if !self.stage.enables(&event) {
            return Err(ApplyFault::NotEnabled { event });
        }
        match self.carry_out(event) {
            Ok(told) => Ok(told),
            Err(trouble) => Err(ApplyFault::of(trouble)),
        }
    }

    /// Carries out an event that is enabled, in a world that has not failed, and tells the answer of the call that it answers, if
    /// there is one (`event_answer`). It is for callers that know that there is such an event: unlike `apply` it does not look. It
    /// answers `TooLong` exactly when the event's stamp would reach `2^48`; its only other error is `Memory`. Then the world
    /// has failed, and what is left is said by `Stops`.
    pub fn carry_out(&mut self, event: Event) -> Result<Option<Answer>, Trouble>
        requires whole { self.old.trouble ≡ None }
        requires enabled { IsEnabled self.old.world event }
        ensures happened { OnOk result (happens self.old.world event ≡ Some self.new.world) }
        ensures told { IfOk result (λ answer. answer ≡ event_answer self.old.world event) }
        ensures stamp { OnOk result (event_stamp self.old.world event < stamp_limit) }
        ensures goes_on { OnOk result (self.new.trouble ≡ None) }
        ensures failed { IfErr result (λ trouble. self.new.trouble ≡ Some trouble) }
        ensures stops { IfErr result (λ trouble. Stops self.old.world event trouble self.new.world) }
        ensures config { self.new.world.config ≡ self.old.world.config }
    {
        match self.stage.carry_out(&mut self.step, event) {
            Ok(answer) => Ok(answer),
            Err(trouble) => {
                self.trouble = Some(trouble);
                Err(trouble)
            }
        }
    }

    /// Applies the events in order, as `run` says, and tells how many there were. At the first refusal it stops. The number says
    /// how many were applied before, and the fault is that of the event of this number, from 0, as `apply` answers it.
    pub fn run_events(&mut self, events: Vec<Event>) -> Result<u64, (u64, ApplyFault)>
        ensures number { IfOk result (λ n. n ≡ length events.items) }
        ensures ran { OnOk result (run self.old.world events.items ≡ Some self.new.world) }
        ensures goes_on { OnOk result (self.new.trouble ≡ self.old.trouble) }
        ensures refused { IfErr result (λ e. StopsAt self.old events.items e.0 e.1 self.new) }
        ensures config { self.new.world.config ≡ self.old.world.config }
    {
        let mut applied = 0;
        for event in events {
            match self.apply(event) {
                Ok(told) => {
                    drop(told);
                    applied += 1;
                }
                Err(fault) => return Err((applied, fault)),
            }
        }
        Ok(applied)
    }
}
