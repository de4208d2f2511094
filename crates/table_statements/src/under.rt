ghost use Rattle.std.specs.Prelude.{◌≡◌, ◌≤◌, All, length, map};
ghost use Rattle.statement_steps.specs.Attempts.{MayAttempt};
ghost use Rattle.statement_steps.specs.Known.{IsKnownTo};
ghost use Rattle.statement_steps.specs.Steps.{IsStep};
ghost use Rattle.table_statements.specs.Locked as locked;

use part_ddl::tables_below;
use pg_values::{LockMode, TableNo};
use statement_steps::{Attempt, Stop, lock_tables};
use stores::Stores;

// A part: the tables under one are locked.
fn lock_below(
    attempt: &Attempt<'_>,
    stores: &mut Stores,
    table: TableNo,
    mode: LockMode,
) -> Result<(), Stop>
    requires may { MayAttempt stores.old attempt.now.caller }
    requires few { length stores.old.catalog.tables ≤ 4096 }
    requires known { IsKnownTo stores.old attempt.now.caller.session table.number }
    ensures step { IsStep (λ u. u) result stores.old stores.new attempt.now.caller attempt.now.caller.cmd (locked.one_under attempt.now.names.now attempt.now.caller.session mode table.number) }
    ensures rest { stores.new ≡ record stores.old { locks = stores.new.locks } }
{
    let session = attempt.caller.session;
    let tables = tables_below(attempt.alloc, &stores.catalog, &stores.txs, table, session)?;
    lock_tables(attempt, stores, &tables, mode)
}

/// The tables under each of these are locked, in their order.
pub(crate) fn lock_all_below(
    attempt: &Attempt<'_>,
    stores: &mut Stores,
    tables: &[TableNo],
    mode: LockMode,
) -> Result<(), Stop>
    requires may { MayAttempt stores.old attempt.now.caller }
    requires few { length stores.old.catalog.tables ≤ 4096 }
    requires known { All (λ t. IsKnownTo stores.old attempt.now.caller.session t.number) tables.now }
    ensures { IsStep (λ u. u) result stores.old stores.new attempt.now.caller attempt.now.caller.cmd (locked.all_under attempt.now.names.now attempt.now.caller.session mode (map (λ t. t.number) tables.now)) }
{
    let mut left = tables;
    while let Some((table, others)) = left.split_first() {
        lock_below(attempt, stores, *table, mode)?;
        left = others;
    }
    Ok(())
}
