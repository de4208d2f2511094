ghost use Rattle.std.specs.Prelude.{◌≡◌, ◌<◌, ℕ, true, false, All, List, Some, Ok, map};
ghost use Rattle.lock_table.specs.Stands as stands;
ghost use Rattle.statement_steps.specs.Attempts.{MayAttempt, NoRows};
ghost use Rattle.statement_steps.specs.Asks as asks;
ghost use Rattle.statement_steps.specs.Known.{IsKnownTo};
ghost use Rattle.statement_steps.specs.declared.rest.Rest.TheVariants.{Rows};
ghost use Rattle.statement_steps.specs.Steps.{IsPart, IsStep};

use crate::faults::deadlock_of;
use crate::{Attempt, Caller, Rest, RestOfRows, Stop};
use history::WaitOn;
use lock_table::{Asked, answer_is_told};
use pg_values::{LockMode, TableNo};
use stores::Stores;

/// The session asks for a lock on a table: it gets it, has to wait, or would close a cycle, 40P01.
#[inline(never)]
pub fn lock_table(
    attempt: &Attempt<'_>,
    stores: &mut Stores,
    table: TableNo,
    mode: LockMode,
) -> Result<(), Stop>
    requires may { MayAttempt stores.old attempt.now.caller }
    requires known { table.number < 4096 }
    requires there { IsKnownTo stores.old attempt.now.caller.session table.number }
    ensures step { IsStep (λ u. u) result stores.old stores.new attempt.now.caller attempt.now.caller.cmd (asks.locked attempt.now.names.now attempt.now.caller.session table.number mode) }
    ensures rest { stores.new ≡ record stores.old { locks = stores.new.locks } }
{
    let answer = stores.request(attempt.caller.session, table, mode);
    answer_is_told(&answer);
    match answer {
        Asked::Granted => Ok(()),
        Asked::Waits { .. } => Err(Stop::Waits(None)),
        Asked::Deadlock { cycle } => Err(Stop::Refused(deadlock_of(attempt, cycle)?)),
    }
}

/// The session asks to go on when others have given something up: it need not wait, has to, and then
/// goes on where the rest says, or would close a cycle, 40P01.
pub fn wait_for(
    attempt: &Attempt<'_>,
    stores: &mut Stores,
    what: WaitOn,
    rest: Option<Rest>,
) -> Result<(), Stop>
    requires may { MayAttempt stores.old attempt.now.caller }
    requires others { stands.names what attempt.now.caller.session ≡ false }
    requires left { NoRows rest }
    ensures step { IsStep (λ u. u) result stores.old stores.new attempt.now.caller attempt.now.caller.cmd (asks.waited attempt.now.names.now attempt.now.caller.session what rest) }
    ensures rest { stores.new ≡ record stores.old { locks = stores.new.locks } }
{
    let answer = stores.wait_on(attempt.caller.session, what);
    answer_is_told(&answer);
    match answer {
        Asked::Granted => Ok(()),
        Asked::Waits { .. } => Err(Stop::Waits(rest)),
        Asked::Deadlock { cycle } => Err(Stop::Refused(deadlock_of(attempt, cycle)?)),
    }
}

/// The same of a session that waits before a row, and goes on with that and those that are left.
pub fn wait_for_row(
    attempt: &Attempt<'_>,
    stores: &mut Stores,
    what: WaitOn,
    rest: RestOfRows,
) -> Result<(), Stop>
    requires may { MayAttempt stores.old attempt.now.caller }
    requires others { stands.names what attempt.now.caller.session ≡ false }
    ensures part { IsPart (λ u. u) result stores.old stores.new attempt.now.caller attempt.now.caller.cmd (asks.waited attempt.now.names.now attempt.now.caller.session what (Some (Rows rest))) }
    ensures rest { stores.new ≡ record stores.old { locks = stores.new.locks } }
{
    let answer = stores.wait_on(attempt.caller.session, what);
    answer_is_told(&answer);
    match answer {
        Asked::Granted => Ok(()),
        Asked::Waits { .. } => Err(Stop::Waits(Some(Rest::Rows(rest)))),
        Asked::Deadlock { cycle } => Err(Stop::Refused(deadlock_of(attempt, cycle)?)),
    }
}

// The session gets a lock at once, where nobody waits and nobody holds a mode on the table that conflicts.
#[inline(always)]
fn take_unopposed(stores: &mut Stores, caller: Caller, table: TableNo, mode: LockMode) -> bool
    requires may { MayAttempt stores.old caller }
    requires known { table.number < 4096 }
    requires there { IsKnownTo stores.old caller.session table.number }
    ensures step { result ≡ true → (names : List (List ℕ)) →
        IsStep (λ (u : Unit {0}). u) (Ok tt) stores.old stores.new caller caller.cmd (asks.locked names caller.session table.number mode) }
    ensures same { result ≡ false → stores.new ≡ stores.old }
    ensures rest { stores.new ≡ record stores.old { locks = stores.new.locks } }
{
    stores.take_unopposed(caller.session, table, mode)
}

/// It asks for locks in one mode on tables, one after the other.
pub fn lock_tables(
    attempt: &Attempt<'_>,
    stores: &mut Stores,
    tables: &[TableNo],
    mode: LockMode,
) -> Result<(), Stop>
    requires may { MayAttempt stores.old attempt.now.caller }
    requires known { All (λ t. t.number < 4096) tables.now }
    requires there { All (λ t. IsKnownTo stores.old attempt.now.caller.session t.number) tables.now }
    ensures step { IsStep (λ u. u) result stores.old stores.new attempt.now.caller attempt.now.caller.cmd (asks.all_locked attempt.now.names.now attempt.now.caller.session mode (map (λ t. t.number) tables.now)) }
    ensures rest { stores.new ≡ record stores.old { locks = stores.new.locks } }
{
    let mut left = tables;
    while let Some((table, others)) = left.split_first() {
        if !take_unopposed(stores, attempt.caller, *table, mode) {
            lock_table(attempt, stores, *table, mode)?;
        }
        left = others;
    }
    Ok(())
}
