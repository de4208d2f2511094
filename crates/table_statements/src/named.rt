ghost use Rattle.std.specs.Prelude.{◌≡◌, ◌≤◌, ◌++◌, All, IfOk, IfSome, OnOk, length};
ghost use Rattle.std.specs.Option.{option_to_list};
ghost use Rattle.statement_steps.specs.Attempts.{MayAttempt};
ghost use Rattle.statement_steps.specs.Known.{IsKnownTo};
ghost use Rattle.statement_steps.specs.Steps.{IsStep};
ghost use Rattle.table_statements.specs.Locked as locked;
ghost use Rattle.table_statements.specs.SeenLocks.{one_or_none, numbers};

use pg_values::{LockMode, NoMemory, TableNo};
use sql_ast::LockedTable;
use statement_steps::{Attempt, Stop, lock_named};
use stores::Stores;

fn push_if_some(tables: &mut Vec<TableNo>, table: Option<TableNo>) -> Result<(), NoMemory>
    ensures { OnOk result (tables.new.items ≡ tables.old.items ++ option_to_list table) }
{
    match table {
        Some(table) => {
            tables.push(table)?;
            Ok(())
        }
        None => Ok(()),
    }
}

// The table, unless ONLY leaves out those under it.
fn unless_only(table: TableNo, only: bool) -> Option<TableNo>
    ensures told { one_or_none result ≡ locked.whole only table.number }
    ensures same { IfSome result (λ t. t ≡ table) }
{
    if only { None } else { Some(table) }
}

// A part: a named table is found and locked, and told where those under it are to be locked too.
fn lock_one(
    attempt: &Attempt<'_>,
    stores: &mut Stores,
    table: &LockedTable,
    mode: LockMode,
) -> Result<Option<TableNo>, Stop>
    requires may { MayAttempt stores.old attempt.now.caller }
    requires few { length stores.old.catalog.tables ≤ 4096 }
    ensures step { IsStep one_or_none result stores.old stores.new attempt.now.caller attempt.now.caller.cmd (locked.one_named attempt.now.names.now attempt.now.caller.session mode table.now) }
    ensures known { IfOk result (λ found. IfSome found (λ t. IsKnownTo stores.new attempt.now.caller.session t.number)) }
    ensures rest { stores.new ≡ record stores.old { locks = stores.new.locks } }
{
    let found = lock_named(attempt, stores, table.name.as_bytes(), mode)?;
    Ok(unless_only(found, table.only))
}

/// The named tables are found and locked, in their order. Those without ONLY are told.
pub(crate) fn lock_all(
    attempt: &Attempt<'_>,
    stores: &mut Stores,
    tables: &[LockedTable],
    mode: LockMode,
) -> Result<Vec<TableNo>, Stop>
    requires may { MayAttempt stores.old attempt.now.caller }
    requires few { length stores.old.catalog.tables ≤ 4096 }
    ensures step { IsStep numbers result stores.old stores.new attempt.now.caller attempt.now.caller.cmd (locked.all_named attempt.now.names.now attempt.now.caller.session mode tables.now) }
    ensures known { IfOk result (λ found. All (λ t. IsKnownTo stores.new attempt.now.caller.session t.number) found.items) }
    ensures rest { stores.new ≡ record stores.old { locks = stores.new.locks } }
{
    let mut whole = Vec::new(attempt.alloc);
    let mut left = tables;
    while let Some((table, others)) = left.split_first() {
        let found = lock_one(attempt, stores, table, mode)?;
        push_if_some(&mut whole, found)?;
        left = others;
    }
    Ok(whole)
}
