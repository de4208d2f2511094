ghost use Rattle.std.specs.Prelude.{◌+◌, ◌≤◌, length};
ghost use Rattle.statement_steps.specs.Attempts.{MayAttempt};
ghost use Rattle.statement_steps.specs.Steps.{IsStep};
ghost use Rattle.table_statements.specs.Locked as locked;

use crate::named::lock_all;
use crate::under::lock_all_below;
use pg_values::LockMode;
use sql_ast::LockedTable;
use statement_steps::{Attempt, Stop};
use stores::Stores;

/// LOCK TABLE. Each named table is found (42P01) and locked in the mode that is written, one after the other;
/// then the tables under those without ONLY are.
pub fn lock(
    attempt: &Attempt<'_>,
    stores: &mut Stores,
    tables: &[LockedTable],
    mode: LockMode,
) -> Result<(), Stop>
    requires may { MayAttempt stores.old attempt.now.caller }
    requires few { length stores.old.catalog.tables ≤ 4096 }
    ensures { IsStep (λ u. u) result stores.old stores.new attempt.now.caller (attempt.now.caller.cmd + 1) (locked.locked attempt.now.names.now attempt.now.caller.session tables.now mode) }
{
    let whole = lock_all(attempt, stores, tables, mode)?;
    lock_all_below(attempt, stores, &whole, mode)
}
