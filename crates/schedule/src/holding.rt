ghost use Rattle.std.specs.Prelude.{◌≡◌, ◌<◌, ◌≤◌, ℕ, true, All, length, IfSome};
ghost use Rattle.schedule.specs.Lists.{is_in, any_of, without};
ghost use Rattle.schedule.specs.Blocks.{seat_at};
ghost use Rattle.schedule.specs.Run.{is_open_at, is_held_back, markers_hold, tellable};

use crate::seat::{Seat, is_step};
use crate::task::Task;

// Whether a use of the step was launched and its end was not printed.
fn is_open_at(seats: &[Seat<'_>], step: usize) -> bool
    ensures { result ≡ is_open_at seats.now step }
{
    for seat in seats {
        if seat.is_open_step(step) {
            return true;
        }
    }
    false
}

// Whether one of the steps is such.
fn is_any_open(seats: &[Seat<'_>], steps: &[usize]) -> bool
    ensures { result ≡ any_of (is_open_at seats.now) steps.now }
{
    for step in steps {
        if is_open_at(seats, *step) {
            return true;
        }
    }
    false
}

/// Whether a marker holds the session's report back.
pub(crate) fn is_held_back(seats: &[Seat<'_>], last: usize, session: usize) -> bool
    requires { session < length seats.now }
    ensures { result ≡ is_held_back seats.now last session (seat_at seats.now session) }
{
    let seat = &seats[session];
    (seat.starred() && last == session) || is_any_open(seats, seat.behind())
}

// Whether the steps have not ended yet.
fn markers_hold(tasks: &[Task<'_>]) -> bool
    ensures { result ≡ markers_hold tasks.now }
{
    match tasks.split_first() {
        Some((Task::Launch { block }, _)) => is_step(block.kind()),
        Some((Task::Settle, _)) => true,
        Some((Task::RollBack { .. }, _)) | None => false,
    }
}

/// The first end whose report no marker holds back.
pub(crate) fn tellable(
    tasks: &[Task<'_>],
    seats: &[Seat<'_>],
    last: usize,
    held: &[usize],
) -> Option<usize>
    requires { All (λ s. s < length seats.now) held.now }
    ensures is { result ≡ tellable tasks.now seats.now last held.now }
    ensures held { IfSome result (λ s. is_in s held.now ≡ true) }
    ensures known { IfSome result (λ s. s < length seats.now) }
{
    let holds = markers_hold(tasks);
    for session in held {
        if !(holds && is_held_back(seats, last, *session)) {
            return Some(*session);
        }
    }
    None
}

/// Whether the session's report is held back.
pub(crate) fn is_in(session: usize, held: &[usize]) -> bool
    ensures { result ≡ is_in session held.now }
{
    for other in held {
        if *other == session {
            return true;
        }
    }
    false
}

/// The session leaves the list.
pub fn leave(session: usize, held: &mut Vec<usize>)
    ensures is { held.new.items ≡ without session held.old.items }
    ensures known { (n : ℕ) → All (λ s. s < n) held.old.items → All (λ s. s < n) held.new.items }
    ensures no_longer { length held.new.items ≤ length held.old.items }
    ensures shorter { is_in session held.old.items ≡ true → length held.new.items < length held.old.items }
{
    held.retain(|other| *other != session);
}
