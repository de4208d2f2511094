ghost use Rattle.std.specs.Prelude.{◌≡◌, ◌++◌, OnOk, IfOk, decimal, map};
ghost use Rattle.std.specs.List.{flat_map};
ghost use Rattle.script_program.specs.Checks as spec;
ghost use Rattle.script_program.specs.Checks.{CheckBegins, CheckEnds};
ghost use Rattle.script_program.specs.Outcomes.{Ends};

use crate::ended::Ended;
use crate::line::fault_line;
use crate::opener::Opener;
use crate::output::answer;
use crate::script_run::refuse;
use pg_values::{NoMemory, PgText, Sink};
use schedule::Database;
use spec_reader::{SessionSpec, Spec, StepSpec, read_spec};
use std::alloc::Global;

// Writes the error of a block that is refused, and nothing of another.
fn write_block<O: Opener>(
    alloc: Global,
    name: &[u8],
    text: &PgText,
    out: &mut Vec<u8>,
) -> Result<(), NoMemory>
    ensures { OnOk result (out.new.items ≡ out.old.items ++ spec.block_line O.Db.rules O.refused (record { name = name.now; text = text.now })) }
{
    if let Some(fault) = O::refusal(alloc, text.as_bytes())? {
        out.extend_from_slice(name)?;
        out.extend_from_slice(b": ")?;
        out.extend_from_slice(b"ERROR:  ")?;
        O::Db::write_fault(alloc, &fault, out)?;
        out.extend_from_slice(b"\n")?;
    }
    Ok(())
}

fn write_if_there<O: Opener>(
    alloc: Global,
    name: &[u8],
    text: &Option<PgText>,
    out: &mut Vec<u8>,
) -> Result<(), NoMemory>
    ensures { OnOk result (out.new.items ≡ out.old.items ++ spec.block_lines O.Db.rules O.refused (map (λ text. record { name = name.now; text = text }) (spec.if_there text.now))) }
{
    match text {
        Some(text) => write_block::<O>(alloc, name, text, out),
        None => Ok(()),
    }
}

fn write_setups<O: Opener>(
    alloc: Global,
    setups: &[PgText],
    out: &mut Vec<u8>,
) -> Result<(), NoMemory>
    ensures { OnOk result (out.new.items ≡ out.old.items ++ flat_map (λ text. spec.block_line O.Db.rules O.refused (spec.setup_block text)) setups.now) }
{
    for setup in setups {
        write_block::<O>(alloc, b"setup", setup, out)?;
    }
    Ok(())
}

fn write_steps<O: Opener>(
    alloc: Global,
    steps: &[StepSpec],
    out: &mut Vec<u8>,
) -> Result<(), NoMemory>
    ensures { OnOk result (out.new.items ≡ out.old.items ++ flat_map (λ step. spec.block_line O.Db.rules O.refused (spec.step_block step)) steps.now) }
{
    for step in steps {
        write_block::<O>(alloc, step.name.as_bytes(), &step.block, out)?;
    }
    Ok(())
}

fn write_session<O: Opener>(
    alloc: Global,
    session: &SessionSpec,
    out: &mut Vec<u8>,
) -> Result<(), NoMemory>
    ensures { OnOk result (out.new.items ≡ out.old.items ++ spec.block_lines O.Db.rules O.refused (spec.session_blocks session.now)) }
{
    write_if_there::<O>(alloc, b"setup", &session.setup, out)?;
    write_steps::<O>(alloc, session.steps.as_slice(), out)?;
    write_if_there::<O>(alloc, b"teardown", &session.teardown, out)
}

fn write_sessions<O: Opener>(
    alloc: Global,
    sessions: &[SessionSpec],
    out: &mut Vec<u8>,
) -> Result<(), NoMemory>
    ensures { OnOk result (out.new.items ≡ out.old.items ++ flat_map (λ session. spec.block_lines O.Db.rules O.refused (spec.session_blocks session)) sessions.now) }
{
    for session in sessions {
        write_session::<O>(alloc, session, out)?;
    }
    Ok(())
}

fn write_blocks<O: Opener>(alloc: Global, script: &Spec, out: &mut Vec<u8>) -> Result<(), NoMemory>
    ensures { OnOk result (out.new.items ≡ out.old.items ++ spec.block_lines O.Db.rules O.refused (spec.blocks_of script.now)) }
{
    write_setups::<O>(alloc, script.setups.as_slice(), out)?;
    write_if_there::<O>(alloc, b"teardown", &script.teardown, out)?;
    write_sessions::<O>(alloc, script.sessions.as_slice(), out)
}

// So many fit: there are fewer than 2^64 sessions, each with fewer steps.
fn step_count(sessions: &[SessionSpec]) -> u128
    ensures { result ≡ spec.step_count sessions.now }
{
    let mut count = 0;
    for session in sessions {
        count += session.steps.len() as u128;
    }
    count
}

fn write_count(count: u128, out: &mut Vec<u8>) -> Result<(), NoMemory>
    ensures { OnOk result (out.new.items ≡ out.old.items ++ decimal count) }
{
    let mut digits = itoa::Buffer::new();
    out.extend_from_slice(digits.format(count).as_bytes())?;
    Ok(())
}

fn write_counts(script: &Spec, out: &mut Vec<u8>) -> Result<(), NoMemory>
    ensures { OnOk result (out.new.items ≡ out.old.items ++ spec.counts_line script.now) }
{
    out.extend_from_slice(b"checked ")?;
    write_count(script.sessions.len() as u128, out)?;
    out.extend_from_slice(b" sessions, ")?;
    write_count(step_count(script.sessions.as_slice()), out)?;
    out.extend_from_slice(b" steps, ")?;
    write_count(script.permutations.len() as u128, out)?;
    out.extend_from_slice(b" permutations\n")?;
    Ok(())
}

fn checked<O: Opener>(alloc: Global, script: &Spec) -> Result<Vec<u8>, NoMemory>
    ensures { IfOk result (λ text. text.items ≡ spec.checked O.Db.rules O.refused script.now) }
{
    let mut text = Vec::new(alloc);
    write_blocks::<O>(alloc, script, &mut text)?;
    write_counts(script, &mut text)?;
    Ok(text)
}

/// Reads the blocks of the script that the text is, and tells those that are refused; or tells why the text is none.
pub(crate) fn check_text<O: Opener, K: Sink, E: Sink>(
    alloc: Global,
    text: &[u8],
    out: &mut K,
    err: &mut E,
) -> Ended
    ensures { Ends K.Sink E.Sink (CheckEnds O.Db.rules O.refused text.now) (CheckBegins O.Db.rules O.refused text.now) out.old out.new err.old err.new result }
{
    match read_spec(alloc, text) {
        Ok(script) => match checked::<O>(alloc, &script) {
            Ok(lines) => answer(out, &lines, Ended::Done),
            Err(NoMemory) => Ended::NoMemory,
        },
        Err(fault) => refuse(err, fault_line(alloc, &fault)),
    }
}
