ghost use Rattle.std.specs.Prelude.{◌≡◌, ◌≢◌, ◌++◌, IfOk, OnOk};
ghost use Rattle.script_program.specs.Lines as spec;

use pg_values::{Fault, NoMemory};
use schedule::Database;
use spec_reader::{SessionSpec, SpecFault};
use std::alloc::Global;

// A text with what stands before and behind it.
fn between(alloc: Global, before: &[u8], text: &[u8], behind: &[u8]) -> Result<Vec<u8>, NoMemory>
    ensures { IfOk result (λ line. line.items ≡ before.now ++ text.now ++ behind.now) }
{
    let mut line = Vec::from_slice(alloc, before)?;
    line.extend_from_slice(text)?;
    line.extend_from_slice(behind)?;
    Ok(line)
}

/// Why a text is no script. Of want of memory no line tells.
pub(crate) fn fault_line(alloc: Global, fault: &SpecFault) -> Result<Vec<u8>, NoMemory>
    ensures line { IfOk result (λ line. line.items ≡ spec.fault_line fault.now) }
    ensures known { OnOk result (fault.now ≢ SpecFault.NoMemory) }
{
    match fault {
        SpecFault::BadToken { line } => {
            let mut digits = itoa::Buffer::new();
            let number = digits.format(*line).as_bytes();
            between(alloc, b"line ", number, b": unexpected token\n")
        }
        SpecFault::Limit { which } => between(alloc, b"too many ", which.word(), b"\n"),
        SpecFault::DoubleName { name } => {
            between(alloc, b"name ", name.as_bytes(), b" is used twice\n")
        }
        SpecFault::NoPermutation => Ok(Vec::from_slice(alloc, b"no permutation line\n")?),
        SpecFault::UnknownStep { name } => between(alloc, b"unknown step ", name.as_bytes(), b"\n"),
        SpecFault::UnknownMarker { name } => {
            between(alloc, b"unknown marker ", name.as_bytes(), b"\n")
        }
        SpecFault::NoMemory => Err(NoMemory),
    }
}

/// What a session is called.
fn session_name(sessions: &[SessionSpec], session: usize) -> &[u8]
    ensures { result.now ≡ spec.session_name sessions.now session }
{
    if session == 0 {
        return b"control";
    }
    match sessions.get(session - 1) {
        None => b"",
        Some(session) => session.name.as_bytes(),
    }
}

/// Why a setup has ended the run.
pub(crate) fn setup_line<D: Database>(
    alloc: Global,
    sessions: &[SessionSpec],
    session: usize,
    fault: &Fault,
) -> Result<Vec<u8>, NoMemory>
    ensures { IfOk result (λ line. line.items ≡ spec.setup_line D.rules sessions.now session fault.now) }
{
    let mut line = between(
        alloc,
        b"setup of ",
        session_name(sessions, session),
        b" failed: ",
    )?;
    D::write_fault(alloc, fault, &mut line)?;
    line.extend_from_slice(b"\n")?;
    Ok(line)
}

/// Why the control session's teardown has ended the run.
pub(crate) fn teardown_line<D: Database>(alloc: Global, fault: &Fault) -> Result<Vec<u8>, NoMemory>
    ensures { IfOk result (λ line. line.items ≡ spec.teardown_line D.rules fault.now) }
{
    let mut line = Vec::from_slice(alloc, b"teardown of control failed: ")?;
    D::write_fault(alloc, fault, &mut line)?;
    line.extend_from_slice(b"\n")?;
    Ok(line)
}
