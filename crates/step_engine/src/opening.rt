ghost use Rattle.std.specs.Prelude.{◌≡◌, IfOk, map, string_bytes};
ghost use Rattle.script_program.specs.Program.{Calls, WorkBegins, WorkEnds};
ghost use Rattle.step_engine.specs.Run as run;

use pg_values::{Fault, NoMemory, PgText, Refusal, Sink, Source};
use script_program::{Ended, Opener, run_program};
use sessions::{Executor, Sessions};
use spec_reader::Spec;
use statement_runs::{Options, StoreExecutor, read_block};
use statement_steps::SessionNames;
use std::alloc::Global;
use std::marker::PhantomData;

fn session_names(alloc: Global, script: &Spec) -> Result<SessionNames, NoMemory>
    ensures { IfOk result (λ names. names ≡ run.session_names script.now) }
{
    let mut names = SessionNames::new(alloc);
    names.push(PgText::from_bytes(alloc, b"control")?)?;
    for session in script.sessions.as_slice() {
        names.push(session.name.copy(alloc)?)?;
    }
    Ok(names)
}

/// Opens the stores of a run with the sessions of a script, whose blocks are SQL.
struct OpensStores<T> {
    of: PhantomData<T>,
}

impl<T> Opener for OpensStores<T> {
    ghost use Rattle.sessions.specs.Whole.{StandsFor};
    ghost use Rattle.step_engine.specs.Run.{opened, refused};

    type Db = Sessions<StoreExecutor>;

    ghost opens = { λ trail script d. StandsFor ⟦<StoreExecutor as Executor>⟧ d (opened trail script) };

    ghost refused = { refused };

    fn open(
        alloc: Global,
        script: &Spec,
        trail: bool,
    ) -> Result<Sessions<StoreExecutor>, NoMemory> {
        let names = session_names(alloc, script)?;
        let options = Options { names, trail };
        let executor = StoreExecutor::new(alloc, options, script.sessions.len() + 1)?;
        Sessions::new(alloc, executor)
    }

    fn refusal(alloc: Global, block: &[u8]) -> Result<Option<Fault>, NoMemory> {
        match read_block(alloc, block) {
            Ok(_) => Ok(None),
            Err(Refusal::Sql(fault)) => Ok(Some(fault)),
            Err(Refusal::NoMemory) => Err(NoMemory),
        }
    }
}

/// Judges the words behind the program's name, reads the whole of `input`, and does what the words ask for with the
/// script that it is: runs it, with the trails of its statements or without, or tells which of its blocks are refused.
/// Or it reads no input, runs the script of a seed, and tells what is counted of the run. A run is written to `out` as
/// it happens, the one line of a refusal to `err`.
pub fn partscript_run<S: Source, K: Sink, E: Sink>(
    alloc: Global,
    words: &[String],
    input: &mut S,
    out: &mut K,
    err: &mut E,
) -> Ended
    ensures { Calls S.Source K.Sink E.Sink (WorkEnds run.rules run.HoldsThroughout run.opened run.refused) (WorkBegins run.rules run.HoldsThroughout run.opened run.refused) (map string_bytes words.now) input.old input.new out.old out.new err.old err.new result }
{
    run_program::<OpensStores<()>, S, K, E>(alloc, words, input, out, err)
}
