//! The default partition beside a place: it and the tables under it are locked.

ghost use Rattle.std.specs.Prelude.{◌≡◌, ◌<◌, ◌≤◌, IfOk, length};
ghost use Rattle.history.specs.History.{History};
ghost use Rattle.tx_table.specs.Stands.{TableStands};
ghost use Rattle.part_catalog.specs.Answers.{AreTogether};
ghost use Rattle.part_catalog.specs.Stands.{CatalogueStands};
ghost use Rattle.part_ddl.specs.Below as below;
ghost use Rattle.statement_steps.specs.Attempts.{MayAttempt};
ghost use Rattle.statement_steps.specs.Steps.{IsStep};
ghost use Rattle.ddl_steps.specs.Families.{family_of};
ghost use Rattle.ddl_steps.specs.Locks as locks;
ghost use Rattle.ddl_steps.specs.Locks.{HasDefaultLocked};

use legal_statements::{listed_is_there, there_is_known, tree_is_whole};
use part_catalog::Catalog;
use part_ddl::{default_of, tables_below};
use pg_values::{LockMode, NoMemory, TableNo};
use soundness::legal_keeps_all;
use statement_steps::{Attempt, Stop, lock_tables};
use std::alloc::Global;
use stores::{Stores, trees_are_together};
use tx_table::TxTable;

/// A table and those under it.
pub fn tables_from(
    alloc: Global,
    catalog: &Catalog,
    txs: &TxTable,
    table: TableNo,
    session: u32,
) -> Result<Vec<TableNo>, NoMemory>
    requires known { table.number < length catalog.now.tables }
    requires siblings { AreTogether txs.now catalog.now session }
    ensures { IfOk result (λ tables. (h : History) → TableStands txs.now h → CatalogueStands catalog.now h → tables.items ≡ below.tables_from h session table.number) }
{
    let under = tables_below(alloc, catalog, txs, table, session)?;
    let mut tables = Vec::new(alloc);
    tables.push(table)?;
    tables.extend_from_slice(&under)?;
    Ok(tables)
}

// The default partition of the parent, and the tables under it.
fn default_tables(
    alloc: Global,
    catalog: &Catalog,
    txs: &TxTable,
    parent: TableNo,
    session: u32,
) -> Result<Vec<TableNo>, NoMemory>
    requires known { parent.number < length catalog.now.tables }
    requires siblings { AreTogether txs.now catalog.now session }
    ensures { IfOk result (λ tables. (h : History) → TableStands txs.now h → CatalogueStands catalog.now h →
        tables.items ≡ family_of h session (below.default_of h session parent.number)) }
{
    match default_of(catalog, txs, parent, session) {
        None => Ok(Vec::new(alloc)),
        Some(table) => tables_from(alloc, catalog, txs, table, session),
    }
}

/// A part: the default partition of the parent and the tables under it are locked.
pub fn lock_default(attempt: &Attempt<'_>, stores: &mut Stores, parent: TableNo) -> Result<(), Stop>
    requires may { MayAttempt stores.old attempt.now.caller }
    requires few { length stores.old.catalog.tables ≤ 4096 }
    requires known { parent.number < length stores.old.catalog.tables }
    ensures step { IsStep (λ u. u) result stores.old stores.new attempt.now.caller attempt.now.caller.cmd (locks.default_locked attempt.now.names.now attempt.now.caller.session parent.number) }
    ensures locked { IfOk result (λ u. HasDefaultLocked stores.new attempt.now.caller.session parent.number) }
    ensures rest { stores.new ≡ record stores.old { locks = stores.new.locks } }
{
    let session = attempt.caller.session;
    trees_are_together();
    listed_is_there();
    there_is_known();
    tree_is_whole();
    legal_keeps_all();
    let tables = default_tables(attempt.alloc, &stores.catalog, &stores.txs, parent, session)?;
    lock_tables(attempt, stores, &tables, LockMode::AccessExclusive)
}
