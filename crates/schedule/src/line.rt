ghost use Rattle.std.specs.Prelude.{◌≡◌, ◌++◌, [], codes, IfOk, OnOk, option_copied};
ghost use Rattle.std.specs.List.{flat_map};
ghost use Rattle.schedule.specs.Lines as lines;

use crate::block::BlockKind;
use crate::database::Database;
use crate::seat::Seat;
use crate::task::Task;
use pg_values::{Fault, NoMemory};
use std::alloc::Global;

/// The first line, with the number of sessions beside the control session.
pub(crate) fn heading(alloc: Global, sessions: usize) -> Result<Vec<u8>, NoMemory>
    ensures { IfOk result (λ text. text.items ≡ lines.heading sessions) }
{
    let mut digits = itoa::Buffer::new();
    let mut text = Vec::from_slice(alloc, b"Parsed test spec with ")?;
    text.extend_from_slice(digits.format(sessions.saturating_sub(1)).as_bytes())?;
    text.extend_from_slice(b" sessions\n")?;
    Ok(text)
}

// Appends the name of a launched step.
fn write_step_name(task: &Task<'_>, out: &mut Vec<u8>) -> Result<(), NoMemory>
    ensures { OnOk result (out.new.items ≡ out.old.items ++ lines.name_of_step task.now) }
{
    if let Task::Launch { block } = task {
        if block.kind() == BlockKind::Step {
            out.extend_from_slice(b" ")?;
            out.extend_from_slice(block.name())?;
        }
    }
    Ok(())
}

/// An empty line, and the names of the steps that are launched.
pub(crate) fn permutation_lines(alloc: Global, tasks: &[Task<'_>]) -> Result<Vec<u8>, NoMemory>
    ensures { IfOk result (λ text. text.items ≡ lines.permutation_lines tasks.now) }
{
    let mut text = Vec::from_slice(alloc, b"\nstarting permutation:")?;
    for task in tasks {
        write_step_name(task, &mut text)?;
    }
    text.extend_from_slice(b"\n")?;
    Ok(text)
}

/// A line of a step, of two parts.
fn step_line(
    alloc: Global,
    seat: &Seat<'_>,
    line: &[u8],
    behind: &[u8],
) -> Result<Vec<u8>, NoMemory>
    ensures { IfOk result (λ text. text.items ≡ lines.step_line seat.now (line.now ++ behind.now)) }
{
    let mut text = Vec::from_slice(alloc, b"step ")?;
    text.extend_from_slice(seat.name())?;
    text.extend_from_slice(b": ")?;
    text.extend_from_slice(line)?;
    text.extend_from_slice(behind)?;
    text.extend_from_slice(b"\n")?;
    Ok(text)
}

/// That the step waits.
pub(crate) fn waiting_line(alloc: Global, seat: &Seat<'_>) -> Result<Vec<u8>, NoMemory>
    ensures { IfOk result (λ text. text.items ≡ lines.waiting_line seat.now) }
{
    step_line(alloc, seat, seat.text(), b" <waiting ...>")
}

/// That it has ended.
pub(crate) fn end_line(alloc: Global, seat: &Seat<'_>) -> Result<Vec<u8>, NoMemory>
    ensures { IfOk result (λ text. text.items ≡ lines.end_line seat.now) }
{
    if seat.waited() {
        step_line(alloc, seat, b"<... completed>", b"")
    } else {
        step_line(alloc, seat, seat.text(), b"")
    }
}

/// What stands before the error of a session's teardown.
pub(crate) fn teardown_of(alloc: Global, seat: &Seat<'_>) -> Result<Vec<u8>, NoMemory>
    ensures { IfOk result (λ text. text.items ≡ codes "teardown of " ++ seat.now.name ++ codes ": ") }
{
    let mut text = Vec::from_slice(alloc, b"teardown of ")?;
    text.extend_from_slice(seat.name())?;
    text.extend_from_slice(b": ")?;
    Ok(text)
}

/// The line of an error, with what stands before it; nothing where there is none.
pub(crate) fn error_line<D: Database>(
    alloc: Global,
    before: &[u8],
    fault: Option<&Fault>,
) -> Result<Vec<u8>, NoMemory>
    ensures { IfOk result (λ text. text.items ≡ lines.error_line D.rules before.now (option_copied fault.entry)) }
{
    let mut text = Vec::new(alloc);
    if let Some(fault) = fault {
        text.extend_from_slice(before)?;
        text.extend_from_slice(b"ERROR:  ")?;
        D::write_fault(alloc, fault, &mut text)?;
        text.extend_from_slice(b"\n")?;
    }
    Ok(text)
}
