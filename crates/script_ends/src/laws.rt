ghost use Rattle.std.specs.Prelude.{◌≡◌, ℕ, Bool, List, Some};
ghost use Rattle.script_program.specs.LoadScript.{load};
ghost use Rattle.run_ends.specs.Ending.{ComesToEnd};
ghost use Rattle.spec_reader.specs.Specs.{IsScript};
ghost use Rattle.spec_reader.specs.declared.spec.Spec.{Spec};
ghost use Rattle.script_program.specs.Checks.{checked};
ghost use Rattle.script_program.specs.Program.{Begins, Calls, WorkBegins, WorkEnds};
ghost use Rattle.script_program.specs.Reading.{Unread, Whole};
ghost use Rattle.script_program.specs.Texts.{beginning};
ghost use Rattle.script_program.specs.Work.{work_by};
ghost use Rattle.script_program.specs.declared.work.Work.TheVariants as works;
ghost use Rattle.script_ends.specs.Complete.{IsDone, IsUnhindered, IsWholeRun, NoneFails};
ghost use Rattle.script_ends.specs.Outcomes.{HasOutcome, HasOutcomeBehind};
ghost use Rattle.step_engine.specs.Run as run;

use pg_values::{Sink, Source};
use run_ends::runs_of_statements_come_to_an_end;
use script_program::Ended;

/// The run of every script comes to its end, with trails and without.
pub fn scripts_come_to_an_end()
    ensures { (trail : Bool) (text : List ℕ) (script : Spec) → IsScript text script → ComesToEnd run.rules (beginning run.rules (run.opened trail script) script) }
{
    runs_of_statements_come_to_an_end();
}

/// So a call that is to run a script has an outcome.
pub fn scripts_have_an_outcome()
    ensures { (words : List (List ℕ)) (trail : Bool) (text : List ℕ) (script : Spec) → work_by words ≡ Some (works.Run trail) → IsScript text script → HasOutcome words (Whole text) }
{
    scripts_come_to_an_end();
}

/// And so has a call that is to run the script of a seed.
pub fn seeds_have_an_outcome()
    ensures { (words : List (List ℕ)) (seed : ℕ) (script : Spec) → work_by words ≡ Some (works.Load seed) → IsScript (load seed) script → HasOutcome words Unread }
{
    scripts_come_to_an_end();
}

/// What a call that is to run a script has come to write at some point is the beginning of what its outcome has.
pub fn what_was_written_begins_it()
    ensures { (words : List (List ℕ)) (trail : Bool) (text : List ℕ) (script : Spec) (bytes : List ℕ) → work_by words ≡ Some (works.Run trail) → IsScript text script →
        Begins (WorkBegins run.rules run.HoldsThroughout run.opened run.refused) words (Whole text) bytes → HasOutcomeBehind words (Whole text) bytes }
{
    scripts_have_an_outcome();
}

/// A call that is to run a script, within the limit, is done with the whole of it, or memory runs out: where no read and no write
/// fails, and no setup, and no teardown of the control session.
pub fn unhindered_runs_are_done<S: Source, K: Sink, E: Sink>()
    ensures { (words : List (List ℕ)) (trail : Bool) (text : List ℕ) (script : Spec) (input input' : S) (out out' : K) (err err' : E) (ended : Ended) → work_by words ≡ Some (works.Run trail) → IsScript text script →
        NoneFails trail script → IsUnhindered S.Source K.Sink E.Sink text input input' out out' err err' →
        Calls S.Source K.Sink E.Sink (WorkEnds run.rules run.HoldsThroughout run.opened run.refused) (WorkBegins run.rules run.HoldsThroughout run.opened run.refused) words input input' out out' err err' ended →
        IsDone K.Sink E.Sink (IsWholeRun trail script) out out' err err' ended }
{}

/// A call that is to check a script likewise: it tells each block that is refused, and the counts.
pub fn unhindered_checks_are_done<S: Source, K: Sink, E: Sink>()
    ensures { (words : List (List ℕ)) (text : List ℕ) (script : Spec) (input input' : S) (out out' : K) (err err' : E) (ended : Ended) → work_by words ≡ Some works.Check → IsScript text script →
        IsUnhindered S.Source K.Sink E.Sink text input input' out out' err err' →
        Calls S.Source K.Sink E.Sink (WorkEnds run.rules run.HoldsThroughout run.opened run.refused) (WorkBegins run.rules run.HoldsThroughout run.opened run.refused) words input input' out out' err err' ended →
        IsDone K.Sink E.Sink (λ bytes. bytes ≡ checked run.rules run.refused script) out out' err err' ended }
{}
