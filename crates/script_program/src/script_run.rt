ghost use Rattle.std.specs.Prelude.{◌≡◌, ◌+◌, [], length, MatchResult};
ghost use Rattle.spec_reader.specs.declared.spec.Spec.{Spec};
ghost use Rattle.script_program.specs.Outcomes.{Ends, IsTold, Takes, refusal};
ghost use Rattle.script_program.specs.Texts.{OpensAs, RunBegins, RunEnds, TextBegins, TextEnds};

use crate::ended::Ended;
use crate::line::{fault_line, setup_line, teardown_line};
use crate::opener::Opener;
use crate::output::answer;
use crate::run_script;
use pg_values::{NoMemory, Sink};
use schedule::{Database, RunEnd, RunRefused};
use spec_reader::{Spec, read_spec};
use std::alloc::Global;

/// Answers that the script is refused, with this line, if there was memory for it.
pub(crate) fn refuse<E: Sink>(err: &mut E, line: Result<Vec<u8>, NoMemory>) -> Ended
    ensures { MatchResult line (λ l. IsTold E.Sink err.old err.new (refusal Ended.ScriptRefused l.items) result) (λ _. (result ≡ Ended.NoMemory) × Takes E.Sink err.old err.new []) }
{
    match line {
        Ok(line) => answer(err, &line, Ended::ScriptRefused),
        Err(NoMemory) => Ended::NoMemory,
    }
}

// Runs a script over fresh databases like this one. A failed setup, or a failed teardown of the control
// session, is told.
fn run_over<D: Database, K: Sink, E: Sink>(
    alloc: Global,
    db: D,
    script: &Spec,
    out: &mut K,
    err: &mut E,
) -> Ended
    requires { D.count db ≡ length script.now.sessions + 1 }
    ensures { (v : D.State) → D.stands db v → Ends K.Sink E.Sink (RunEnds D.rules D.good v script.now) (RunBegins D.rules D.good v script.now) out.old out.new err.old err.new result }
{
    match run_script(alloc, db, script, out) {
        Ok(RunEnd::All) => Ended::Done,
        Ok(RunEnd::SetupFailed { session, fault }) => {
            let sessions = script.sessions.as_slice();
            refuse(err, setup_line::<D>(alloc, sessions, session, &fault))
        }
        Ok(RunEnd::TeardownFailed { fault }) => refuse(err, teardown_line::<D>(alloc, &fault)),
        Err(RunRefused::Write) => Ended::WriteFault,
        Err(RunRefused::NoMemory) => Ended::NoMemory,
    }
}

/// Runs the script that the text is, with trails or without, or tells why it is none.
pub(crate) fn run_text<O: Opener, K: Sink, E: Sink>(
    alloc: Global,
    trail: bool,
    text: &[u8],
    out: &mut K,
    err: &mut E,
) -> Ended
    ensures { (opened : Spec → O.Db.State) → OpensAs (O.opens trail) O.Db.stands opened → Ends K.Sink E.Sink (TextEnds O.Db.rules O.Db.good opened text.now) (TextBegins O.Db.rules O.Db.good opened text.now) out.old out.new err.old err.new result }
{
    match read_spec(alloc, text) {
        Ok(script) => match O::open(alloc, &script, trail) {
            Ok(db) => run_over(alloc, db, &script, out, err),
            Err(NoMemory) => Ended::NoMemory,
        },
        Err(fault) => refuse(err, fault_line(alloc, &fault)),
    }
}
