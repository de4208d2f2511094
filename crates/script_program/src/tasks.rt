ghost use Rattle.std.specs.Prelude.{◌≡◌, ◌++◌, [], ◌∷◌, map, length, codes, OnOk, IfOk, option_copied};
ghost use Rattle.std.specs.List.{flat_map, list_any, range_with_len};
ghost use Rattle.schedule.specs.declared.task.Task.TheVariants.{RollBack};
ghost use Rattle.schedule.specs.declared.block.BlockKind.{BlockKind};
ghost use Rattle.script_program.specs.Steps.{numbered};
ghost use Rattle.script_program.specs.Tasks as spec;

use crate::step::Steps;
use pg_values::{NoMemory, PgText};
use schedule::{Block, BlockKind, Permutation, Task};
use spec_reader::{Marker, SessionSpec, StepUse};
use std::alloc::Global;

fn push_plain<'s>(
    alloc: Global,
    kind: BlockKind,
    session: usize,
    name: &'s [u8],
    text: &'s PgText,
    out: &mut Permutation<'s>,
) -> Result<(), NoMemory>
    ensures { OnOk result (out.new ≡ out.old ++ spec.plain kind session name.now text.now ∷ []) }
{
    out.push(Task::Launch {
        block: Block::plain(alloc, kind, session, name, text.as_bytes()),
    })
}

// A block that is no step, where there is one.
pub(crate) fn push_plain_if<'s>(
    alloc: Global,
    kind: BlockKind,
    session: usize,
    name: &'s [u8],
    text: &'s Option<PgText>,
    out: &mut Permutation<'s>,
) -> Result<(), NoMemory>
    ensures { OnOk result (out.new ≡ out.old ++ spec.plain_if kind session name.now text.now) }
{
    match text {
        None => Ok(()),
        Some(text) => push_plain(alloc, kind, session, name, text, out),
    }
}

/// The setups of the control session.
pub(crate) fn push_control_setups<'s>(
    alloc: Global,
    setups: &'s [PgText],
    out: &mut Permutation<'s>,
) -> Result<(), NoMemory>
    ensures { OnOk result (out.new ≡ out.old ++ map (spec.plain BlockKind.Setup 0 (codes "control")) setups.now) }
{
    for text in setups {
        push_plain(alloc, BlockKind::Setup, 0, b"control", text, out)?;
    }
    Ok(())
}

/// The setup of each session.
pub(crate) fn push_setups<'s>(
    alloc: Global,
    sessions: &'s [SessionSpec],
    out: &mut Permutation<'s>,
) -> Result<(), NoMemory>
    ensures { OnOk result (out.new ≡ out.old ++ numbered spec.setup_in 1 sessions.now) }
{
    for i in 0..sessions.len() {
        let session = &sessions[i];
        push_plain_if(
            alloc,
            BlockKind::Setup,
            i + 1,
            session.name.as_bytes(),
            &session.setup,
            out,
        )?;
    }
    Ok(())
}

/// The teardown of each session.
pub(crate) fn push_teardowns<'s>(
    alloc: Global,
    sessions: &'s [SessionSpec],
    out: &mut Permutation<'s>,
) -> Result<(), NoMemory>
    ensures { OnOk result (out.new ≡ out.old ++ numbered spec.teardown_in 1 sessions.now) }
{
    for i in 0..sessions.len() {
        let session = &sessions[i];
        push_plain_if(
            alloc,
            BlockKind::Teardown,
            i + 1,
            session.name.as_bytes(),
            &session.teardown,
            out,
        )?;
    }
    Ok(())
}

/// The rollback of each session.
pub(crate) fn push_rollbacks(count: usize, out: &mut Permutation<'_>) -> Result<(), NoMemory>
    ensures { OnOk result (out.new ≡ out.old ++ map RollBack (range_with_len 0 count)) }
{
    for session in 0..count {
        out.push(Task::RollBack { session })?;
    }
    Ok(())
}

fn is_waiting(marker: &Marker) -> bool
    ensures { result ≡ spec.is_waiting marker.now }
{
    match marker {
        Marker::Waiting => true,
        Marker::After(_) => false,
    }
}

fn is_starred(markers: &[Marker]) -> bool
    ensures { result ≡ list_any spec.is_waiting markers.now }
{
    for marker in markers {
        if is_waiting(marker) {
            return true;
        }
    }
    false
}

fn push_behind(steps: &Steps<'_>, marker: &Marker, out: &mut Vec<usize>) -> Result<(), NoMemory>
    ensures { OnOk result (out.new.items ≡ out.old.items ++ spec.behind_marker steps.now marker.now) }
{
    if let Marker::After(name) = marker {
        if let Some(number) = steps.number_of(name.as_bytes()) {
            out.push(number)?;
        }
    }
    Ok(())
}

fn behind_of(alloc: Global, steps: &Steps<'_>, markers: &[Marker]) -> Result<Vec<usize>, NoMemory>
    ensures { IfOk result (λ behind. behind.items ≡ flat_map (spec.behind_marker steps.now) markers.now) }
{
    let mut behind = Vec::new(alloc);
    for marker in markers {
        push_behind(steps, marker, &mut behind)?;
    }
    Ok(behind)
}

fn push_use<'s>(
    alloc: Global,
    steps: &Steps<'s>,
    one: &'s StepUse,
    out: &mut Permutation<'s>,
) -> Result<(), NoMemory>
    ensures { OnOk result (out.new ≡ out.old ++ spec.use_in steps.now one.now) }
{
    match steps.number_of(one.step.as_bytes()) {
        None => Ok(()),
        Some(number) => {
            let step = steps.step(number);
            let markers = one.markers.as_slice();
            let behind = behind_of(alloc, steps, markers)?;
            out.push(Task::Launch {
                block: Block::step(
                    step.session(),
                    number,
                    one.step.as_bytes(),
                    step.text(),
                    is_starred(markers),
                    behind,
                ),
            })
        }
    }
}

/// The uses of steps.
pub(crate) fn push_uses<'s>(
    alloc: Global,
    steps: &Steps<'s>,
    uses: &'s [StepUse],
    out: &mut Permutation<'s>,
) -> Result<(), NoMemory>
    ensures { OnOk result (out.new ≡ out.old ++ flat_map (spec.use_in steps.now) uses.now) }
{
    for one in uses {
        push_use(alloc, steps, one, out)?;
    }
    Ok(())
}
