//! A row that another transaction is changing.

ghost use Rattle.std.specs.Prelude.{◌≡◌, ◌≢◌, ◌<◌, All, Err, length};
ghost use Rattle.statement_steps.specs.Attempts.{MayAttempt};
ghost use Rattle.statement_steps.specs.Gathered.{CanBeCounted, found_of};
ghost use Rattle.statement_steps.specs.Steps.{IsPart};
ghost use Rattle.change_statement.specs.Changed as changed_spec;
ghost use Rattle.change_statement.specs.Running.{IsRun, IsTargetIn, MayRun};
ghost use Rattle.change_statement.specs.Standing as standing_spec;

use crate::standing::copied;
use history::WaitOn;
use pg_values::SessionSet;
use statement_steps::{Attempt, Caller, Gathered, RestOfRows, Stop, TargetRow, hold, wait_for_row};
use stores::Stores;

fn only(session: u32) -> SessionSet
    requires { session < 128 }
    ensures { result ≡ changed_spec.only session }
{
    SessionSet::empty().with(session)
}

// The session holds the snapshot that it reads under, and waits for the end of the other's transaction; it goes on
// where the rest says.
fn wait_for_end(
    attempt: &Attempt<'_>,
    stores: &mut Stores,
    other: u32,
    rest: RestOfRows,
) -> Result<(), Stop>
    requires may { MayAttempt stores.old attempt.now.caller }
    requires another { other ≢ attempt.now.caller.session }
    requires known { other < 128 }
    ensures { IsPart (λ u. u) result stores.old stores.new attempt.now.caller attempt.now.caller.cmd (changed_spec.held_up attempt.now.names.now attempt.now.caller other rest) }
{
    hold(attempt, stores)?;
    let what = WaitOn::Ends(only(other));
    wait_for_row(attempt, stores, what, rest)
}

/// The statement waits for the end of the other session's transaction before it goes on with these rows, by what
/// it has gathered.
pub(crate) fn pause(
    attempt: &Attempt<'_>,
    stores: &mut Stores,
    other: u32,
    gathered: Gathered,
    left: &[TargetRow],
    changed: u64,
) -> Stop
    requires may { MayRun (found_of gathered) stores.old attempt.now.caller }
    requires another { other ≢ attempt.now.caller.session }
    requires known { other < 128 }
    requires left { All (IsTargetIn stores.old.rows (found_of gathered)) left.now }
    requires few { CanBeCounted changed (length left.now) }
    ensures { IsRun (found_of gathered) (λ u. u) (Err result) stores.old stores.new attempt.now.caller (λ h. changed_spec.paused attempt.now.names.now attempt.now.caller other (standing_spec.standing h attempt.now.caller (found_of gathered) left.now changed) h) }
{
    let cmd = attempt.caller.cmd + 1;
    let Some(by) = stores.txs.open_of(attempt.caller.session) else {
        unreachable!()
    };
    let Ok(rows) = copied(attempt.alloc, left) else {
        return Stop::NoMemory;
    };
    let rest = RestOfRows::new(by, gathered, rows, changed);
    let next = Attempt {
        caller: Caller {
            cmd,
            ..attempt.caller
        },
        ..*attempt
    };
    match wait_for_end(&next, stores, other, rest) {
        Ok(()) => unreachable!(),
        Err(stop) => stop,
    }
}
