ghost use Rattle.std.specs.Prelude.{◌≡◌, ◌++◌, Some, IfOk, OnOk};
ghost use Rattle.spec_reader.specs.Faults as faults;
ghost use Rattle.spec_reader.specs.Finds.{Finds, Found};
ghost use Rattle.spec_reader.specs.declared.fault.SpecFault.TheVariants.{DoubleName};

use crate::fault::SpecFault;
use crate::spec::{SessionSpec, StepSpec};
use crate::step_names::StepNames;
use pg_values::PgText;
use std::alloc::Global;

/// Whether a session is called so.
fn is_session(name: &[u8], sessions: &[SessionSpec]) -> bool
    ensures { result ≡ faults.is_session name.now sessions.now }
{
    for session in sessions {
        if name == session.name.as_bytes() {
            return true;
        }
    }
    false
}

fn double(alloc: Global, name: &PgText) -> SpecFault
    ensures { Found result (Some (DoubleName name.now)) }
{
    match name.copy(alloc) {
        Ok(name) => SpecFault::DoubleName { name },
        Err(_) => SpecFault::NoMemory,
    }
}

/// Notes the steps of a session, up to the first whose name is there already.
fn add_steps<'a>(
    alloc: Global,
    names: &mut StepNames<'a>,
    session: usize,
    steps: &'a [StepSpec],
) -> Result<(), SpecFault>
    ensures found { Finds result (faults.first_told (faults.double_step names.old session) steps.now) }
    ensures noted { OnOk result (names.new ≡ names.old ++ faults.numbered session steps.now) }
{
    for i in 0..steps.len() {
        let step = &steps[i];
        if !names.add(step.name.as_bytes(), session)? {
            return Err(double(alloc, &step.name));
        }
    }
    Ok(())
}

/// The steps of all sessions, where no name is used twice.
pub fn step_names<'a>(
    alloc: Global,
    sessions: &'a [SessionSpec],
) -> Result<StepNames<'a>, SpecFault>
    ensures found { Finds result (faults.first_told faults.double_name sessions.now) }
    ensures noted { IfOk result (λ names. names ≡ faults.steps_of sessions.now) }
{
    let mut names = StepNames::new(alloc);
    for i in 0..sessions.len() {
        let session = &sessions[i];
        if is_session(session.name.as_bytes(), &sessions[..i]) {
            return Err(double(alloc, &session.name));
        }
        add_steps(alloc, &mut names, i, session.steps.as_slice())?;
    }
    Ok(names)
}
