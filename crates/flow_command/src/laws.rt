//! What follows from how a run over a flow ends.

ghost use Rattle.std.specs.Prelude.{◌≡◌, ◌⊎◌, ◌≤◌, ◌<◌, ◌+◌, ◌^◌, ◌∷◌, ◌++◌, ℕ, List, Option, Some, None, true, length};
ghost use Rattle.adlb_io.specs.Outside.{Rises};
ghost use Rattle.bag_ledger.specs.declared.entries.Answer.{Answer as Reply};
ghost use Rattle.bag_ledger.specs.declared.entries.Said.{Said};
ghost use Rattle.bag_ledger.specs.Runs.{calls};
ghost use Rattle.run_command.specs.Ends.{IsFine, Scene, input_limit};
ghost use Rattle.run_command.specs.declared.faults.Fault.{Fault};
ghost use Rattle.run_command.specs.Kept.{IsKept, Kept};
ghost use Rattle.work_law.specs.Books.{said_of};
ghost use Rattle.work_law.specs.Work.{put_of};
ghost use Rattle.flow_law.specs.Flows.{AreDistinct};
ghost use Rattle.flow_bound_law.specs.Most.{most_calls};
ghost use Rattle.flow_law.specs.declared.Definition.{Definition};
ghost use Rattle.flow_law.specs.declared.Op.{Op};
ghost use Rattle.flow_app.specs.Reading.{flow_refused, input_flow};
ghost use Rattle.flow_app.specs.declared.faults.FlowWhy.{FlowWhy};
ghost use Rattle.flow_app.specs.declared.finishing.FlowOutcome.{FlowOutcome};
ghost use Rattle.flow_run_law.specs.Puts.{AreTaken, IsOfKnown};
ghost use Rattle.flow_run_law.specs.Units.{Rule, flows};
ghost use Rattle.flow_entry_law.specs.Entries.{AreAllEntered, AreEntered};
ghost use Rattle.flow_units.specs.Bodies.{forms, unit_fits};
ghost use Rattle.flow_command.specs.Ends.{EndsWith};
ghost use Rattle.flow_command.specs.Flows.{ArePrograms, FollowsFlow};

use values_law::value_laws;

/// What follows of a source that tells its bytes, if no read failed. An accepted input is answered, if no write
/// failed and no start was refused either (`complete`). A refused one is refused at its first such line (`refused`).
/// One that is too long is told as such (`overlong`). Memory may fail each time. Besides, only the stamps can end, and only if
/// all ranks together may begin 2^34 calls over the flow (`short`).
/// The ledger that is kept enters each rule once at most, by rank 0, with the values of its inputs (`entered`). Each
/// of these was known to rank 0 in its calls before (`known`). It enters each rule that has a value, if no put of an
/// answer was rejected on another rank (`all_entered`).
pub fn flow_laws()
    ensures complete { (ranks : ℕ) (before after : Scene) (fault : Option (Fault FlowWhy)) (kept : Option (Kept FlowOutcome)) (bytes : List ℕ) →
        EndsWith ranks before after fault kept → before.left ≡ Some bytes → (Rises before.reads after.reads → ⊥) →
        length bytes ≤ input_limit → flow_refused bytes ≡ None →
        (Rises before.writes after.writes → ⊥) → (Rises before.refused after.refused → ⊥) → IsFine fault }
    ensures refused { (ranks : ℕ) (before after : Scene) (fault : Option (Fault FlowWhy)) (kept : Option (Kept FlowOutcome)) (bytes : List ℕ) →
        EndsWith ranks before after fault kept → before.left ≡ Some bytes → (Rises before.reads after.reads → ⊥) →
        (line : ℕ) (why : FlowWhy) → length bytes ≤ input_limit → flow_refused bytes ≡ Some (line, why) →
        (fault ≡ Some (Fault.Input line why)) ⊎ (fault ≡ Some Fault.Memory) }
    ensures overlong { (ranks : ℕ) (before after : Scene) (fault : Option (Fault FlowWhy)) (kept : Option (Kept FlowOutcome)) (bytes : List ℕ) →
        EndsWith ranks before after fault kept → before.left ≡ Some bytes → (Rises before.reads after.reads → ⊥) →
        input_limit < length bytes → (fault ≡ Some (Fault.TooLarge (input_limit + 1))) ⊎ (fault ≡ Some Fault.Memory) }
    ensures short { (ranks : ℕ) (before after : Scene) (fault : Option (Fault FlowWhy)) (kept : Option (Kept FlowOutcome)) (bytes : List ℕ) →
        EndsWith ranks before after fault kept → before.left ≡ Some bytes → most_calls ranks (input_flow bytes) < 2 ^ 34 →
        IsFine fault → (fault ≡ None) ⊎ (fault ≡ Some Fault.Memory) }
    ensures entered { (flow : List Definition) (k : Kept FlowOutcome) → IsKept ArePrograms FollowsFlow flow k →
        AreEntered (forms k.report.config.ranks) k.report.config k.report.ledger flow }
    ensures known { (flow : List Definition) (k : Kept FlowOutcome) → IsKept ArePrograms FollowsFlow flow k →
        (front : List Said) (s : Said) (back : List Said) (i : ℕ) (op : Op) (a b : ℕ) (x : Reply) → unit_fits (Rule i op a b) ≡ true →
        s ≡ said_of (put_of (flows (forms k.report.config.ranks)) (Rule i op a b)) x →
        calls k.report.config k.report.ledger (record { 0 = 0 }) ≡ front ++ s ∷ back →
        IsOfKnown (forms k.report.config.ranks) flow front i }
    ensures all_entered { (flow : List Definition) (k : Kept FlowOutcome) → IsKept ArePrograms FollowsFlow flow k → AreDistinct flow →
        AreTaken (forms k.report.config.ranks) k.report.config k.report.ledger →
        AreAllEntered (forms k.report.config.ranks) k.report.ledger flow }
{
    value_laws();
}
