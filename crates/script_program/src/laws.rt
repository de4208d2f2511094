ghost use Rattle.std.specs.Prelude.{◌≡◌, ◌≢◌, ◌++◌, ℕ, Bool, false, List, [], Option, Some};
ghost use Rattle.pg_values.specs.declared.fault.Fault.{Fault};
ghost use Rattle.schedule.specs.Run.{World, Reaches, Anything};
ghost use Rattle.spec_reader.specs.Specs.{IsScript};
ghost use Rattle.spec_reader.specs.declared.spec.Spec.{Spec};
ghost use Rattle.script_program.specs.Checks.{checked};
ghost use Rattle.script_program.specs.Outcomes.{Outcome};
ghost use Rattle.script_program.specs.Program.{Answers, Begins, WorkBegins, WorkEnds};
ghost use Rattle.script_program.specs.Reading.{Reading, Unread, Whole};
ghost use Rattle.script_program.specs.Seeded.{SeedEnds};
ghost use Rattle.script_program.specs.Texts.{RunEnds, beginning};
ghost use Rattle.script_program.specs.Work.{work_by};
ghost use Rattle.script_program.specs.declared.work.Work.TheVariants as works;

use crate::ended::Ended;
use schedule::Database;

/// A call has one outcome, by its words and by what it reads of its input.
pub fn calls_have_one_outcome<D: Database>()
    ensures { (opened : Bool → Spec → D.State) (refused : List ℕ → Option Fault) (words : List (List ℕ)) (r : Reading) (a b : Outcome) →
        Answers (WorkEnds D.rules Anything opened refused) words r a → Answers (WorkEnds D.rules Anything opened refused) words r b → a ≡ b }
{}

/// What was written at some point is the beginning of what the outcome has.
pub fn outcomes_begin_so<D: Database>()
    ensures { (opened : Bool → Spec → D.State) (refused : List ℕ → Option Fault) (words : List (List ℕ)) (r : Reading) (bytes : List ℕ) (o : Outcome) →
        Begins (WorkBegins D.rules Anything opened refused) words r bytes → Answers (WorkEnds D.rules Anything opened refused) words r o → (rest : List ℕ) × (bytes ++ rest ≡ o.out) }
{}

/// An outcome over good worlds is one over any, of which the other laws speak.
pub fn good_outcomes_are_outcomes<D: Database>()
    ensures ends { (opened : Bool → Spec → D.State) (refused : List ℕ → Option Fault) (words : List (List ℕ)) (r : Reading) (o : Outcome) →
        Answers (WorkEnds D.rules D.good opened refused) words r o → Answers (WorkEnds D.rules Anything opened refused) words r o }
    ensures begins { (opened : Bool → Spec → D.State) (refused : List ℕ → Option Fault) (words : List (List ℕ)) (r : Reading) (bytes : List ℕ) →
        Begins (WorkBegins D.rules D.good opened refused) words r bytes → Begins (WorkBegins D.rules Anything opened refused) words r bytes }
{}

/// Where the words ask for a run, the outcome of a script is that of its run; and each world that this run reaches is
/// good, where the outcome is one over good worlds.
pub fn scripts_are_run<D: Database>()
    ensures run { (opened : Bool → Spec → D.State) (trail : Bool) (refused : List ℕ → Option Fault) (words : List (List ℕ)) (text : List ℕ) (spec : Spec) (o : Outcome) → work_by words ≡ Some (works.Run trail) → IsScript text spec →
        Answers (WorkEnds D.rules Anything opened refused) words (Whole text) o → RunEnds D.rules Anything (opened trail spec) spec o }
    ensures good { (opened : Bool → Spec → D.State) (trail : Bool) (refused : List ℕ → Option Fault) (words : List (List ℕ)) (text : List ℕ) (spec : Spec) (o : Outcome) (lines : List ℕ) (w : World D.State) → work_by words ≡ Some (works.Run trail) → IsScript text spec →
        Answers (WorkEnds D.rules D.good opened refused) words (Whole text) o → Reaches D.rules (beginning D.rules (opened trail spec) spec) lines w → D.good w.db }
{}

/// Where they ask for a check, the blocks that are refused are told, and the script is counted.
pub fn scripts_are_checked<D: Database>()
    ensures { (opened : Bool → Spec → D.State) (refused : List ℕ → Option Fault) (words : List (List ℕ)) (text : List ℕ) (spec : Spec) (o : Outcome) → work_by words ≡ Some works.Check → IsScript text spec →
        Answers (WorkEnds D.rules Anything opened refused) words (Whole text) o → o ≡ record { ended = Ended.Done; out = checked D.rules refused spec; err = [] } }
{}

/// Where they ask for the load of a seed, no input is read, and the outcome is what is counted of the run of its script.
pub fn seeds_are_counted<D: Database>()
    ensures { (opened : Bool → Spec → D.State) (refused : List ℕ → Option Fault) (words : List (List ℕ)) (r : Reading) (seed : ℕ) (o : Outcome) → work_by words ≡ Some (works.Load seed) →
        Answers (WorkEnds D.rules Anything opened refused) words r o → (r ≡ Unread) × SeedEnds D.rules Anything (opened false) seed o }
{}

/// No outcome is `WriteFault` or `NoMemory`: a call that answers so has not written its outcome.
pub fn outcomes_are_no_faults<D: Database>()
    ensures { (opened : Bool → Spec → D.State) (refused : List ℕ → Option Fault) (words : List (List ℕ)) (r : Reading) (o : Outcome) → Answers (WorkEnds D.rules Anything opened refused) words r o → (o.ended ≢ Ended.WriteFault) × (o.ended ≢ Ended.NoMemory) }
{}
