//! How the values of a flow follow from the ledger of a run of flow programs.
//!
//! It speaks of definitions alone and has no code. `specs/Units.antt` says what units are (how they are put and read
//! is a parameter), `specs/Desk.antt` which call a rank makes next, and `specs/Run.antt` what a run is.
//! `specs/Learned.antt` says what rank 0 learned in its calls, and `specs/Puts.antt` which rules it puts.
#![tactic(auto)]

ghost use Rattle.std.specs.Prelude.{◌≡◌, ◌<◌, ◌∷◌, ◌++◌, ℕ, List, Contains, true};
ghost use Rattle.adlb_unit.specs.declared.configs.Config.{Config};
ghost use Rattle.adlb_unit.specs.declared.names.Rank.{Rank};
ghost use Rattle.bag_ledger.specs.declared.entries.Answer.{Answer as Reply};
ghost use Rattle.bag_ledger.specs.declared.entries.Entry.{Entry};
ghost use Rattle.bag_ledger.specs.declared.entries.Said.{Said};
ghost use Rattle.bag_ledger.specs.Bag.{Bag, start};
ghost use Rattle.bag_ledger.specs.Runs.{IsRun, calls};
ghost use Rattle.balance_law.specs.Balanced.{AreOrderly};
ghost use Rattle.flow_law.specs.Flows.{AreDistinct, HasValue, Name};
ghost use Rattle.flow_law.specs.declared.Definition.{Definition};
ghost use Rattle.flow_law.specs.declared.Op.{Op};
ghost use Rattle.work_law.specs.Work.{put_of};
ghost use Rattle.work_law.specs.Books.{said_of};
ghost use Rattle.flow_run_law.specs.Units.{AreForms, Forms, HasTypes, IsGoodRule, IsRule, Rule, flows};
ghost use Rattle.flow_run_law.specs.Puts.{AreTaken, IsFlowRun, IsOfKnown, IsOnce, IsRightDesk, rules_in};

/// Of a legal run in which each rank ran the flow program and then finished. The ranks are orderly, and what a rank
/// has stored, owes or keeps at its end are the values of their rules. Rank 0 puts each rule at most once. Each input
/// of a rule that it puts was known to it in the calls before, and the unit carries the values of the inputs. If no
/// put of an answer was rejected on another rank, it puts each rule that has a value.
pub fn flow_run_laws()
    ensures orderly { (F : Forms) (config : Config) (ledger : List Entry) → 0 < config.ranks → AreForms config.ranks F →
        (flow : List Definition) → IsFlowRun F config ledger flow → AreOrderly config ledger }
    ensures right { (F : Forms) (config : Config) (ledger : List Entry) → 0 < config.ranks → AreForms config.ranks F →
        (flow : List Definition) → (each : IsFlowRun F config ledger flow) → (last : Bag) → IsRun (start config) ledger last →
        (rank : Rank) (below : rank.0 < config.ranks) → IsRightDesk flow (each rank below).last }
    ensures once { (F : Forms) (config : Config) (ledger : List Entry) → 0 < config.ranks → AreForms config.ranks F →
        (flow : List Definition) → IsFlowRun F config ledger flow → (last : Bag) → IsRun (start config) ledger last →
        IsOnce (rules_in F (calls config ledger (record { 0 = 0 }))) }
    ensures known { (F : Forms) (config : Config) (ledger : List Entry) → 0 < config.ranks → AreForms config.ranks F →
        (flow : List Definition) → IsFlowRun F config ledger flow → (last : Bag) → IsRun (start config) ledger last →
        (front : List Said) (s : Said) (back : List Said) (i : ℕ) (op : Op) (a b : ℕ) (x : Reply) → F.fits (Rule i op a b) ≡ true →
        s ≡ said_of (put_of (flows F) (Rule i op a b)) x → calls config ledger (record { 0 = 0 }) ≡ front ++ s ∷ back →
        IsOfKnown F flow front i }
    ensures values { (F : Forms) (config : Config) (ledger : List Entry) → 0 < config.ranks → AreForms config.ranks F →
        (flow : List Definition) → IsFlowRun F config ledger flow → (last : Bag) → IsRun (start config) ledger last →
        (front : List Said) (s : Said) (back : List Said) (i : ℕ) (op : Op) (a b : ℕ) (x : Reply) → F.fits (Rule i op a b) ≡ true →
        s ≡ said_of (put_of (flows F) (Rule i op a b)) x → calls config ledger (record { 0 = 0 }) ≡ front ++ s ∷ back →
        IsGoodRule flow i op a b }
    ensures complete { (F : Forms) (config : Config) (ledger : List Entry) → 0 < config.ranks → AreForms config.ranks F →
        (flow : List Definition) → IsFlowRun F config ledger flow → (last : Bag) → IsRun (start config) ledger last →
        HasTypes F → AreDistinct flow → AreTaken F config ledger →
        (i : ℕ) (name : Name) (op : Op) (left right : Name) (v : ℕ) → IsRule flow i name op left right → HasValue flow name v →
        Contains (rules_in F (calls config ledger (record { 0 = 0 }))) i }
{}
