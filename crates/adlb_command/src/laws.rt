//! What follows from how a command ends.

ghost use Rattle.std.specs.Prelude.{◌≡◌, ◌⊎◌, ◌≤◌, ◌<◌, ◌+◌, ◌^◌, ℕ, Bool, List, Option, Some, None, Ok, Err, length};
ghost use Rattle.adlb_io.specs.Outside.{Rises};
ghost use Rattle.adlb_unit.specs.declared.configs.Config.{Config};
ghost use Rattle.bag_ledger.specs.declared.entries.Entry.{Entry};
ghost use Rattle.command_words.specs.declared.commands.Command.{Command};
ghost use Rattle.command_words.specs.declared.commands.RunOptions.{RunOptions};
ghost use Rattle.command_words.specs.declared.commands.RunWords.{RunWords};
ghost use Rattle.command_words.specs.declared.commands.SolveWords.{SolveWords};
ghost use Rattle.flow_app.specs.Reading.{flow_refused, input_flow};
ghost use Rattle.flow_app.specs.declared.faults.FlowWhy.{FlowWhy};
ghost use Rattle.flow_app.specs.declared.finishing.FlowOutcome.{FlowOutcome};
ghost use Rattle.flow_bound_law.specs.Most.{most_calls as flow_calls};
ghost use Rattle.flow_command.specs.Flows.{ArePrograms, FollowsFlow};
ghost use Rattle.job_text.specs.declared.faults.LineWhy as of_jobs;
ghost use Rattle.job_text.specs.Jobs.{input_jobs, input_refused};
ghost use Rattle.ledger_command.specs.Input.{input_limit as ledger_limit};
ghost use Rattle.ledger_file.specs.Lines.{IsFirstBad, IsText};
ghost use Rattle.made_jobs.specs.Made.{made_text};
ghost use Rattle.run_command.specs.Ends.{Scene, input_limit};
ghost use Rattle.run_command.specs.Kept.{IsKept, Kept};
ghost use Rattle.spending_law.specs.Most.{most_calls};
ghost use Rattle.tour_search.specs.Cities.{CitiesModel};
ghost use Rattle.tour_search.specs.Reading.{input_cities};
ghost use Rattle.tour_search.specs.declared.faults.CitiesWhy.{CitiesWhy};
ghost use Rattle.command_ends.specs.declared.ends.AnyKept.{AnyKept};
ghost use Rattle.command_ends.specs.declared.reasons.LineWhy.{LineWhy};
ghost use Rattle.command_ends.specs.declared.faults.RunFault.{RunFault};
ghost use Rattle.command_ends.specs.Ends.{IsFine, why_of, why_of_cities, why_of_flow};
ghost use Rattle.adlb_command.specs.Top.{EndsAs};
ghost use Rattle.adlb_command.specs.Words.{ranks_of, told_or_not};

use ledger_file::text_laws;
use made_jobs::made_laws;
use made_law::made_is_accepted;

/// What follows from how a command ended (`EndsAs`). It ends with `Usage` only if the words say none (`usage`), and if they say none, with
/// that or `Memory` (`unsaid`).
///
/// It ends in the same ways whether or not its progress is to be said (`told`, `drill_told`, `tour_told`,
/// `flow_told`).
///
/// What follows of a source that tells its bytes, if no read failed. `solve`: an accepted input is answered, if no
/// write failed and no start was refused either (`complete`). A refused one is refused at its first such line
/// (`refused`), and one that is too long is told as such (`overlong`). In each case memory may fail, and in the first
/// the stamps may end. They do so only if all ranks together may begin 2^34 calls for the jobs of the input (`short`),
/// or for those that are made (`drilled_short`). So it is of `flow` (`flow_complete`, `flow_refused`, `flow_overlong`,
/// `flow_short`), and of `tour` but for the last (`tour_complete`, `tour_refused`, `tour_overlong`). What is kept of
/// `flow` is of a run over the flow of the input, of which `flow_laws` says which rules its ledger enters (`flow_kept`).
///
/// `check`: a text of a ledger is told (`checked`), and any other input is refused at its first
/// line that is not what is due (`bad`). One that is too long is told as such (`long`). In each case memory may fail.
/// So it is of `draw` (`drawn`, `undrawn`, `longer`). `make`: if no write failed, the whole text was written, unless
/// memory fails (`made`). `drill`: if no write failed and no start was refused, the summary was written, but for the
/// ends that `complete` leaves (`drilled`).
pub fn end_laws()
    ensures usage { (said : Option Command) (before after : Scene) (kept : Option AnyKept) →
        EndsAs said before after (Some RunFault.Usage) kept → said ≡ None }
    ensures unsaid { (before after : Scene) (fault : Option RunFault) (kept : Option AnyKept) →
        EndsAs None before after fault kept → (fault ≡ Some RunFault.Usage) ⊎ (fault ≡ Some RunFault.Memory) }
    ensures complete { (words : SolveWords) (before after : Scene) (fault : Option RunFault) (kept : Option AnyKept) (bytes : List ℕ) →
        EndsAs (Some (Command.Solve words)) before after fault kept → before.left ≡ Some bytes → (Rises before.reads after.reads → ⊥) →
        length bytes ≤ input_limit → input_refused bytes ≡ None →
        (Rises before.writes after.writes → ⊥) → (Rises before.refused after.refused → ⊥) → IsFine fault }
    ensures refused { (words : SolveWords) (before after : Scene) (fault : Option RunFault) (kept : Option AnyKept) (bytes : List ℕ) →
        EndsAs (Some (Command.Solve words)) before after fault kept → before.left ≡ Some bytes → (Rises before.reads after.reads → ⊥) →
        (line : ℕ) (why : of_jobs.LineWhy) → length bytes ≤ input_limit → input_refused bytes ≡ Some (line, why) →
        (fault ≡ Some (RunFault.Input line (why_of why))) ⊎ (fault ≡ Some RunFault.Memory) }
    ensures overlong { (words : SolveWords) (before after : Scene) (fault : Option RunFault) (kept : Option AnyKept) (bytes : List ℕ) →
        EndsAs (Some (Command.Solve words)) before after fault kept → before.left ≡ Some bytes → (Rises before.reads after.reads → ⊥) →
        input_limit < length bytes → (fault ≡ Some (RunFault.TooLarge (input_limit + 1))) ⊎ (fault ≡ Some RunFault.Memory) }
    ensures told { (words : SolveWords) (told : Bool) (before after : Scene) (fault : Option RunFault) (kept : Option AnyKept) →
        EndsAs (Some (Command.Solve words)) before after fault kept →
        EndsAs (Some (Command.Solve (record words { options = told_or_not told words.options }))) before after fault kept }
    ensures drill_told { (count seed : ℕ) (options : RunOptions) (told : Bool) (before after : Scene) (fault : Option RunFault) (kept : Option AnyKept) →
        EndsAs (Some (Command.Drill count seed options)) before after fault kept →
        EndsAs (Some (Command.Drill count seed (told_or_not told options))) before after fault kept }
    ensures tour_complete { (words : RunWords) (before after : Scene) (fault : Option RunFault) (kept : Option AnyKept) (bytes : List ℕ) →
        EndsAs (Some (Command.Tour words)) before after fault kept → before.left ≡ Some bytes → (Rises before.reads after.reads → ⊥) →
        (cities : CitiesModel) → length bytes ≤ input_limit → input_cities bytes ≡ Ok cities →
        (Rises before.writes after.writes → ⊥) → (Rises before.refused after.refused → ⊥) → IsFine fault }
    ensures tour_refused { (words : RunWords) (before after : Scene) (fault : Option RunFault) (kept : Option AnyKept) (bytes : List ℕ) →
        EndsAs (Some (Command.Tour words)) before after fault kept → before.left ≡ Some bytes → (Rises before.reads after.reads → ⊥) →
        (line : ℕ) (why : CitiesWhy) → length bytes ≤ input_limit → input_cities bytes ≡ Err (line, why) →
        (fault ≡ Some (RunFault.Input line (why_of_cities why))) ⊎ (fault ≡ Some RunFault.Memory) }
    ensures tour_overlong { (words : RunWords) (before after : Scene) (fault : Option RunFault) (kept : Option AnyKept) (bytes : List ℕ) →
        EndsAs (Some (Command.Tour words)) before after fault kept → before.left ≡ Some bytes → (Rises before.reads after.reads → ⊥) →
        input_limit < length bytes → (fault ≡ Some (RunFault.TooLarge (input_limit + 1))) ⊎ (fault ≡ Some RunFault.Memory) }
    ensures tour_told { (words : RunWords) (told : Bool) (before after : Scene) (fault : Option RunFault) (kept : Option AnyKept) →
        EndsAs (Some (Command.Tour words)) before after fault kept →
        EndsAs (Some (Command.Tour (record words { progress = told }))) before after fault kept }
    ensures flow_complete { (words : RunWords) (before after : Scene) (fault : Option RunFault) (kept : Option AnyKept) (bytes : List ℕ) →
        EndsAs (Some (Command.Flow words)) before after fault kept → before.left ≡ Some bytes → (Rises before.reads after.reads → ⊥) →
        length bytes ≤ input_limit → flow_refused bytes ≡ None →
        (Rises before.writes after.writes → ⊥) → (Rises before.refused after.refused → ⊥) → IsFine fault }
    ensures flow_refused { (words : RunWords) (before after : Scene) (fault : Option RunFault) (kept : Option AnyKept) (bytes : List ℕ) →
        EndsAs (Some (Command.Flow words)) before after fault kept → before.left ≡ Some bytes → (Rises before.reads after.reads → ⊥) →
        (line : ℕ) (why : FlowWhy) → length bytes ≤ input_limit → flow_refused bytes ≡ Some (line, why) →
        (fault ≡ Some (RunFault.Input line (why_of_flow why))) ⊎ (fault ≡ Some RunFault.Memory) }
    ensures flow_overlong { (words : RunWords) (before after : Scene) (fault : Option RunFault) (kept : Option AnyKept) (bytes : List ℕ) →
        EndsAs (Some (Command.Flow words)) before after fault kept → before.left ≡ Some bytes → (Rises before.reads after.reads → ⊥) →
        input_limit < length bytes → (fault ≡ Some (RunFault.TooLarge (input_limit + 1))) ⊎ (fault ≡ Some RunFault.Memory) }
    ensures flow_kept { (words : RunWords) (before after : Scene) (fault : Option RunFault) (k : Kept FlowOutcome) (bytes : List ℕ) →
        EndsAs (Some (Command.Flow words)) before after fault (Some (AnyKept.Flows k)) → before.left ≡ Some bytes →
        IsKept ArePrograms FollowsFlow (input_flow bytes) k }
    ensures flow_told { (words : RunWords) (told : Bool) (before after : Scene) (fault : Option RunFault) (kept : Option AnyKept) →
        EndsAs (Some (Command.Flow words)) before after fault kept →
        EndsAs (Some (Command.Flow (record words { progress = told }))) before after fault kept }
    ensures checked { (before after : Scene) (fault : Option RunFault) (kept : Option AnyKept) (bytes : List ℕ) →
        EndsAs (Some Command.Check) before after fault kept → before.left ≡ Some bytes → (Rises before.reads after.reads → ⊥) →
        (config : Config) (ledger : List Entry) → length bytes ≤ ledger_limit → IsText config ledger bytes →
        (Rises before.writes after.writes → ⊥) → (fault ≡ None) ⊎ (fault ≡ Some RunFault.Memory) }
    ensures bad { (before after : Scene) (fault : Option RunFault) (kept : Option AnyKept) (bytes : List ℕ) →
        EndsAs (Some Command.Check) before after fault kept → before.left ≡ Some bytes → (Rises before.reads after.reads → ⊥) →
        (line : ℕ) → length bytes ≤ ledger_limit → IsFirstBad bytes line →
        (fault ≡ Some (RunFault.Input line LineWhy.Entry)) ⊎ (fault ≡ Some RunFault.Memory) }
    ensures long { (before after : Scene) (fault : Option RunFault) (kept : Option AnyKept) (bytes : List ℕ) →
        EndsAs (Some Command.Check) before after fault kept → before.left ≡ Some bytes → (Rises before.reads after.reads → ⊥) →
        ledger_limit < length bytes → (fault ≡ Some (RunFault.TooLarge (ledger_limit + 1))) ⊎ (fault ≡ Some RunFault.Memory) }
    ensures drawn { (before after : Scene) (fault : Option RunFault) (kept : Option AnyKept) (bytes : List ℕ) →
        EndsAs (Some Command.Draw) before after fault kept → before.left ≡ Some bytes → (Rises before.reads after.reads → ⊥) →
        (config : Config) (ledger : List Entry) → length bytes ≤ ledger_limit → IsText config ledger bytes →
        (Rises before.writes after.writes → ⊥) → (fault ≡ None) ⊎ (fault ≡ Some RunFault.Memory) }
    ensures undrawn { (before after : Scene) (fault : Option RunFault) (kept : Option AnyKept) (bytes : List ℕ) →
        EndsAs (Some Command.Draw) before after fault kept → before.left ≡ Some bytes → (Rises before.reads after.reads → ⊥) →
        (line : ℕ) → length bytes ≤ ledger_limit → IsFirstBad bytes line →
        (fault ≡ Some (RunFault.Input line LineWhy.Entry)) ⊎ (fault ≡ Some RunFault.Memory) }
    ensures longer { (before after : Scene) (fault : Option RunFault) (kept : Option AnyKept) (bytes : List ℕ) →
        EndsAs (Some Command.Draw) before after fault kept → before.left ≡ Some bytes → (Rises before.reads after.reads → ⊥) →
        ledger_limit < length bytes → (fault ≡ Some (RunFault.TooLarge (ledger_limit + 1))) ⊎ (fault ≡ Some RunFault.Memory) }
    ensures drilled { (count seed : ℕ) (options : RunOptions) (before after : Scene) (fault : Option RunFault) (kept : Option AnyKept) →
        EndsAs (Some (Command.Drill count seed options)) before after fault kept → count ≤ 100000 →
        (Rises before.writes after.writes → ⊥) → (Rises before.refused after.refused → ⊥) → IsFine fault }
    ensures short { (words : SolveWords) (before after : Scene) (fault : Option RunFault) (kept : Option AnyKept) (bytes : List ℕ) →
        EndsAs (Some (Command.Solve words)) before after fault kept → before.left ≡ Some bytes →
        most_calls words.options.budget words.options.grain (ranks_of words.options.sizes words.options.inline) (input_jobs bytes) < 2 ^ 34 →
        IsFine fault → (fault ≡ None) ⊎ (fault ≡ Some RunFault.Memory) }
    ensures drilled_short { (count seed : ℕ) (options : RunOptions) (before after : Scene) (fault : Option RunFault) (kept : Option AnyKept) →
        EndsAs (Some (Command.Drill count seed options)) before after fault kept →
        most_calls options.budget options.grain (ranks_of options.sizes options.inline) (input_jobs (made_text count seed)) < 2 ^ 34 →
        IsFine fault → (fault ≡ None) ⊎ (fault ≡ Some RunFault.Memory) }
    ensures flow_short { (words : RunWords) (before after : Scene) (fault : Option RunFault) (kept : Option AnyKept) (bytes : List ℕ) →
        EndsAs (Some (Command.Flow words)) before after fault kept → before.left ≡ Some bytes →
        flow_calls words.sizes.ranks (input_flow bytes) < 2 ^ 34 →
        IsFine fault → (fault ≡ None) ⊎ (fault ≡ Some RunFault.Memory) }
    ensures made { (count seed : ℕ) (before after : Scene) (fault : Option RunFault) (kept : Option AnyKept) →
        EndsAs (Some (Command.Make count seed)) before after fault kept → (Rises before.writes after.writes → ⊥) →
        (fault ≡ None) ⊎ (fault ≡ Some RunFault.Memory) }
{
    text_laws();
    made_laws();
    made_is_accepted();
}
