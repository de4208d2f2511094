//! The first stage of DETACH CONCURRENTLY.

ghost use Rattle.std.specs.Prelude.{◌≡◌, ◌+◌, ◌<◌, ◌≤◌, Ok, IfOk, length};
ghost use Rattle.pg_values.specs.Refusals.{IsAnswer};
ghost use Rattle.history.specs.History.{History};
ghost use Rattle.tx_table.specs.Stands.{TableStands};
ghost use Rattle.part_catalog.specs.Answers.{AreTogether};
ghost use Rattle.part_catalog.specs.Stands.{CatalogueStands};
ghost use Rattle.statement_steps.specs.Attempts.{MayAttempt};
ghost use Rattle.statement_steps.specs.Steps.{IsStep};
ghost use Rattle.alter_table.specs.AskedOfDetached.{HasGuarded, MayBeMarked};
ghost use Rattle.alter_table.specs.Concurrent as concurrent;

use crate::detach_checks::is_table;
use ddl_steps::sessions_are_low;
use legal_statements::{listed_is_there, mark_may_follow, nobody_else_marks};
use part_catalog::Catalog;
use part_ddl::{default_of, parent_level};
use pg_values::{LockMode, Refusal, TableNo};
use refusals::{has_default_partition, not_a_partition, partition_is_pending};
use statement_steps::{Attempt, Caller, RestOfDetach, Stop, lock_named};
use std::alloc::Global;
use stores::{Stores, trees_are_together};
use tx_table::TxTable;

// No partition of the parent is the default (55000) or pending (55000).
fn check_siblings(
    alloc: Global,
    catalog: &Catalog,
    txs: &TxTable,
    session: u32,
    parent: TableNo,
) -> Result<(), Refusal>
    requires parent { parent.number < length catalog.now.tables }
    requires siblings { AreTogether txs.now catalog.now session }
    ensures { (h : History) → TableStands txs.now h → CatalogueStands catalog.now h → IsAnswer result (concurrent.none_beside h session parent.number) }
{
    let above = catalog.name_of(parent);
    if let Some(default) = default_of(catalog, txs, parent, session) {
        let name = catalog.name_of(default);
        return Err(Refusal::Sql(has_default_partition(alloc, above, name)?));
    }
    if let Some(table) = catalog.pending_of(txs, session, parent) {
        let name = catalog.name_of(table);
        return Err(Refusal::Sql(partition_is_pending(alloc, name, above)?));
    }
    Ok(())
}

// The parent is partitioned (42809), the table is a partition of it (42P01), and none is the default or
// pending.
fn check_partition(
    alloc: Global,
    catalog: &Catalog,
    txs: &TxTable,
    session: u32,
    parent: TableNo,
    table: TableNo,
) -> Result<(), Refusal>
    requires parent { parent.number < length catalog.now.tables }
    requires table { table.number < length catalog.now.tables }
    requires siblings { AreTogether txs.now catalog.now session }
    ensures { (h : History) → TableStands txs.now h → CatalogueStands catalog.now h → IsAnswer result (concurrent.markable h session parent.number table.number) }
{
    parent_level(alloc, catalog, parent)?;
    if !is_table(catalog.parent_of(txs, session, table), parent) {
        let name = catalog.name_of(table);
        let above = catalog.name_of(parent);
        return Err(Refusal::Sql(not_a_partition(alloc, name, above)?));
    }
    check_siblings(alloc, catalog, txs, session, parent)
}

// A part: nothing stands against it.
fn check(
    attempt: &Attempt<'_>,
    stores: &Stores,
    parent: TableNo,
    table: TableNo,
) -> Result<(), Stop>
    requires may { MayAttempt stores.now attempt.now.caller }
    requires parent { parent.number < length stores.now.catalog.tables }
    requires table { table.number < length stores.now.catalog.tables }
    ensures step { IsStep (λ u. u) result stores.now stores.now attempt.now.caller attempt.now.caller.cmd (concurrent.judged attempt.now.caller.session parent.number table.number) }
    ensures markable { IfOk result (λ u. MayBeMarked stores.now attempt.now.caller.session parent.number table.number) }
{
    let session = attempt.caller.session;
    trees_are_together();
    let Stores { txs, catalog, .. } = stores;
    check_partition(attempt.alloc, catalog, txs, session, parent, table)?;
    Ok(())
}

// The entry is marked pending. All who hold a lock on the parent are to be waited for.
fn mark(stores: &mut Stores, caller: Caller, parent: TableNo, table: TableNo) -> RestOfDetach
    requires may { MayAttempt stores.old caller }
    requires guarded { HasGuarded stores.old caller.session parent.number }
    requires markable { MayBeMarked stores.old caller.session parent.number table.number }
    ensures { IsStep (λ d. d) (Ok result) stores.old stores.new caller (caller.cmd + 1) (concurrent.place_marked caller parent.number table.number) }
{
    listed_is_there();
    nobody_else_marks();
    mark_may_follow();
    let Some(by) = stores.txs.open_of(caller.session) else {
        unreachable!()
    };
    let Stores {
        txs,
        catalog,
        locks,
        ..
    } = stores;
    let behind = locks.holders(parent);
    sessions_are_low(behind);
    catalog.mark_pending(txs, parent, table, by, caller.cmd);
    RestOfDetach {
        parent,
        table,
        by,
        behind,
    }
}

/// Stage 1: the parent is locked, then the table, and its entry is marked.
pub(crate) fn run_first_stage(
    attempt: &Attempt<'_>,
    stores: &mut Stores,
    parent: &[u8],
    name: &[u8],
) -> Result<RestOfDetach, Stop>
    requires may { MayAttempt stores.old attempt.now.caller }
    requires few { length stores.old.catalog.tables ≤ 4096 }
    ensures { IsStep (λ d. d) result stores.old stores.new attempt.now.caller (attempt.now.caller.cmd + 1) (concurrent.first_stage attempt.now.names.now attempt.now.caller parent.now name.now) }
{
    let mode = LockMode::ShareUpdateExclusive;
    let parent = lock_named(attempt, stores, parent, mode)?;
    let table = lock_named(attempt, stores, name, mode)?;
    check(attempt, stores, parent, table)?;
    Ok(mark(stores, attempt.caller, parent, table))
}
