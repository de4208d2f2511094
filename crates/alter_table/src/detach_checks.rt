//! Whether the table may be detached.

ghost use Rattle.std.specs.Prelude.{◌≡◌, ◌<◌, IfOk, length};
ghost use Rattle.pg_values.specs.Refusals.{IsAnswer};
ghost use Rattle.history.specs.History.{History};
ghost use Rattle.tx_table.specs.Stands.{TableStands};
ghost use Rattle.part_catalog.specs.Stands.{CatalogueStands};
ghost use Rattle.statement_steps.specs.Attempts.{MayAttempt};
ghost use Rattle.statement_steps.specs.Steps.{IsStep};
ghost use Rattle.alter_table.specs.AskedOfDetached.{IsPartition};
ghost use Rattle.alter_table.specs.Detached as detached;

use part_catalog::Catalog;
use part_ddl::parent_level;
use pg_values::{Refusal, TableNo};
use refusals::{not_a_partition, partition_is_pending};
use statement_steps::{Attempt, Stop};
use std::alloc::Global;
use stores::Stores;
use tx_table::TxTable;

pub(crate) fn is_table(found: Option<TableNo>, table: TableNo) -> bool
    ensures { result ≡ detached.is_table found table.number }
{
    match found {
        None => false,
        Some(found) => found.number == table.number,
    }
}

// The parent is partitioned (42809), the table is a partition of it (42P01), and is not its pending one
// (55000).
fn check_partition(
    alloc: Global,
    catalog: &Catalog,
    txs: &TxTable,
    session: u32,
    parent: TableNo,
    table: TableNo,
) -> Result<(), Refusal>
    requires parent { parent.number < length catalog.now.tables }
    requires table { table.number < length catalog.now.tables }
    ensures { (h : History) → TableStands txs.now h → CatalogueStands catalog.now h → IsAnswer result (detached.detachable h session parent.number table.number) }
{
    parent_level(alloc, catalog, parent)?;
    let name = catalog.name_of(table);
    let above = catalog.name_of(parent);
    if !is_table(catalog.parent_of(txs, session, table), parent) {
        return Err(Refusal::Sql(not_a_partition(alloc, name, above)?));
    }
    if is_table(catalog.pending_of(txs, session, parent), table) {
        return Err(Refusal::Sql(partition_is_pending(alloc, name, above)?));
    }
    Ok(())
}

/// A part: nothing stands against it.
pub(crate) fn check(
    attempt: &Attempt<'_>,
    stores: &Stores,
    parent: TableNo,
    table: TableNo,
) -> Result<(), Stop>
    requires may { MayAttempt stores.now attempt.now.caller }
    requires parent { parent.number < length stores.now.catalog.tables }
    requires table { table.number < length stores.now.catalog.tables }
    ensures step { IsStep (λ u. u) result stores.now stores.now attempt.now.caller attempt.now.caller.cmd (detached.checked attempt.now.caller.session parent.number table.number) }
    ensures partition { IfOk result (λ u. IsPartition stores.now attempt.now.caller.session parent table.number) }
{
    let session = attempt.caller.session;
    let Stores { txs, catalog, .. } = stores;
    check_partition(attempt.alloc, catalog, txs, session, parent, table)?;
    Ok(())
}
