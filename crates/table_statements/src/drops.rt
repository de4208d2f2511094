ghost use Rattle.std.specs.Prelude.{◌≡◌, ◌+◌, ◌<◌, ◌≤◌, ◌&&◌, false, ◌++◌, Some, is_none, All, IfOk, IfSome, OnOk, length, map};
ghost use Rattle.std.specs.Option.{option_to_list};
ghost use Rattle.history.specs.History.{History};
ghost use Rattle.tx_table.specs.Stands.{TableStands};
ghost use Rattle.part_catalog.specs.Answers.{AreTogether};
ghost use Rattle.part_catalog.specs.Found.{resolved};
ghost use Rattle.part_catalog.specs.Stands.{CatalogueStands};
ghost use Rattle.statement_steps.specs.Known.{IsKnownTo};
ghost use Rattle.stores.specs.Stand.{Stands};
ghost use Rattle.statement_steps.specs.Attempts.{MayAttempt};
ghost use Rattle.statement_steps.specs.Steps.{IsStep};
ghost use Rattle.table_statements.specs.Asked.{IsGoing, MayDropTable, MayGo, one_or_none, numbers, to_lock};
ghost use Rattle.table_statements.specs.Drops as drops;
ghost use Rattle.table_statements.specs.Drops.{dropped};

use crate::laws::locked_tables_may_go;
use ddl_steps::tables_from;
use history::TxId;
use legal_statements::{
    listed_is_there, named_is_there, table_drop_may_follow, there_is_known, tree_is_whole,
};
use part_catalog::Catalog;
use part_ddl::{default_of, drop_table};
use pg_values::{LockMode, NoMemory, PgText, TableNo};
use soundness::legal_keeps_all;
use statement_steps::{Attempt, Stop, find_table, hold_if_repeatable, lock_tables};
use std::alloc::Global;
use stores::{Stores, trees_are_together};
use tx_table::TxTable;

// The default partition beside a table with that parent.
fn default_beside(
    catalog: &Catalog,
    txs: &TxTable,
    parent: Option<TableNo>,
    session: u32,
) -> Option<TableNo>
    requires known { IfSome parent (λ p. p.number < length catalog.now.tables) }
    requires siblings { AreTogether txs.now catalog.now session }
    ensures { (h : History) → TableStands txs.now h → CatalogueStands catalog.now h → result ≡ drops.default_beside h session parent }
{
    match parent {
        Some(parent) => default_of(catalog, txs, parent, session),
        None => None,
    }
}

fn push_if_some(tables: &mut Vec<TableNo>, table: Option<TableNo>) -> Result<(), NoMemory>
    ensures { OnOk result (tables.new.items ≡ tables.old.items ++ option_to_list table) }
{
    match table {
        Some(table) => {
            tables.push(table)?;
            Ok(())
        }
        None => Ok(()),
    }
}

// The table above, the table and those under it, and the default partition beside it.
fn tables_to_lock(
    alloc: Global,
    catalog: &Catalog,
    txs: &TxTable,
    session: u32,
    table: TableNo,
) -> Result<Vec<TableNo>, NoMemory>
    requires known { table.number < length catalog.now.tables }
    requires siblings { AreTogether txs.now catalog.now session }
    ensures { IfOk result (λ tables. (h : History) → TableStands txs.now h → CatalogueStands catalog.now h → tables.items ≡ to_lock h session table.number) }
{
    let parent = catalog.parent_of(txs, session, table);
    let default = default_beside(catalog, txs, parent, session);
    let from = tables_from(alloc, catalog, txs, table, session)?;
    let mut tables = Vec::new(alloc);
    push_if_some(&mut tables, parent)?;
    tables.extend_from_slice(&from)?;
    push_if_some(&mut tables, default)?;
    Ok(tables)
}

// What the drop of a table needs is locked.
fn lock_for(attempt: &Attempt<'_>, stores: &mut Stores, table: TableNo) -> Result<(), Stop>
    requires may { MayAttempt stores.old attempt.now.caller }
    requires few { length stores.old.catalog.tables ≤ 4096 }
    requires known { IsKnownTo stores.old attempt.now.caller.session table.number }
    ensures step { IsStep (λ u. u) result stores.old stores.new attempt.now.caller attempt.now.caller.cmd (drops.drop_locked attempt.now.names.now attempt.now.caller.session table.number) }
    ensures drop { IfOk result (λ u. MayDropTable stores.new attempt.now.caller.session table) }
    ensures rest { stores.new ≡ record stores.old { locks = stores.new.locks } }
{
    let session = attempt.caller.session;
    trees_are_together();
    listed_is_there();
    there_is_known();
    tree_is_whole();
    legal_keeps_all();
    let tables = tables_to_lock(attempt.alloc, &stores.catalog, &stores.txs, session, table)?;
    lock_tables(attempt, stores, &tables, LockMode::AccessExclusive)
}

// A part: a named table, where it is there, and what its drop needs is locked.
fn lock_to_drop(
    attempt: &Attempt<'_>,
    stores: &mut Stores,
    name: &[u8],
) -> Result<Option<TableNo>, Stop>
    requires may { MayAttempt stores.old attempt.now.caller }
    requires few { length stores.old.catalog.tables ≤ 4096 }
    ensures step { IsStep one_or_none result stores.old stores.new attempt.now.caller attempt.now.caller.cmd (drops.found_one attempt.now.names.now attempt.now.caller.session false name.now) }
    ensures drop { IfOk result (λ found. (t : TableNo) → found ≡ Some t → MayDropTable stores.new attempt.now.caller.session t) }
    ensures rest { stores.new ≡ record stores.old { locks = stores.new.locks } }
{
    let table = find_table(attempt, stores, name)?;
    lock_for(attempt, stores, table)?;
    Ok(Some(table))
}

// Whether the table is passed over: it is absent, and IF EXISTS is written.
fn is_passed_over(
    catalog: &Catalog,
    txs: &TxTable,
    session: u32,
    if_there: bool,
    name: &[u8],
) -> bool
    ensures { (h : History) → TableStands txs.now h → CatalogueStands catalog.now h → result ≡ if_there && is_none (resolved h session name.now) }
{
    if_there && catalog.resolve(txs, session, name).is_none()
}

// The same, where an absent one is passed over.
fn lock_if_there(
    attempt: &Attempt<'_>,
    stores: &mut Stores,
    if_there: bool,
    name: &[u8],
) -> Result<Option<TableNo>, Stop>
    requires may { MayAttempt stores.old attempt.now.caller }
    requires few { length stores.old.catalog.tables ≤ 4096 }
    ensures step { IsStep one_or_none result stores.old stores.new attempt.now.caller attempt.now.caller.cmd (drops.found_one attempt.now.names.now attempt.now.caller.session if_there name.now) }
    ensures drop { IfOk result (λ found. (t : TableNo) → found ≡ Some t → MayDropTable stores.new attempt.now.caller.session t) }
    ensures rest { stores.new ≡ record stores.old { locks = stores.new.locks } }
{
    let session = attempt.caller.session;
    if is_passed_over(&stores.catalog, &stores.txs, session, if_there, name) {
        return Ok(None);
    }
    lock_to_drop(attempt, stores, name)
}

// A part: all named tables.
fn lock_all_to_drop(
    attempt: &Attempt<'_>,
    stores: &mut Stores,
    if_there: bool,
    tables: &[PgText],
) -> Result<Vec<TableNo>, Stop>
    requires may { MayAttempt stores.old attempt.now.caller }
    requires few { length stores.old.catalog.tables ≤ 4096 }
    ensures step { IsStep numbers result stores.old stores.new attempt.now.caller attempt.now.caller.cmd (drops.found_all attempt.now.names.now attempt.now.caller.session if_there tables.now) }
    ensures drop { IfOk result (λ found. All (MayDropTable stores.new attempt.now.caller.session) found.items) }
{
    let mut found = Vec::new(attempt.alloc);
    let mut left = tables;
    while let Some((name, others)) = left.split_first() {
        let table = lock_if_there(attempt, stores, if_there, name.as_bytes())?;
        push_if_some(&mut found, table)?;
        left = others;
    }
    Ok(found)
}

// Whether it is still the table of its name: it has not gone with another one before.
fn is_left(catalog: &Catalog, txs: &TxTable, session: u32, table: TableNo) -> bool
    requires { table.number < length catalog.now.tables }
    ensures { (h : History) → TableStands txs.now h → CatalogueStands catalog.now h → result ≡ drops.is_left h session table.number }
{
    match catalog.resolve(txs, session, catalog.name_of(table)) {
        None => false,
        Some(found) => found.number == table.number,
    }
}

// One table goes with those under it, unless it has gone with another one before.
fn drop_one(
    attempt: &Attempt<'_>,
    stores: &mut Stores,
    by: TxId,
    table: TableNo,
) -> Result<(), NoMemory>
    requires { MayGo stores.old attempt.now.caller by table.number }
    ensures ok { OnOk result ((h : History) → Stands stores.old h → IsGoing h attempt.now.caller by table.number → Stands stores.new ((drops.dropped_one attempt.now.caller table.number h).events ++ h)) }
    ensures rest { stores.new ≡ record stores.old { catalog = stores.new.catalog } }
{
    named_is_there();
    tree_is_whole();
    table_drop_may_follow();
    locked_tables_may_go();
    let Stores { txs, catalog, .. } = stores;
    if !is_left(catalog, txs, attempt.caller.session, table) {
        return Ok(());
    }
    drop_table(attempt.alloc, catalog, txs, table, by, attempt.caller.cmd)
}

// The last part: the tables go, one after the other.
fn drop_all(attempt: &Attempt<'_>, stores: &mut Stores, tables: &[TableNo]) -> Result<(), Stop>
    requires may { MayAttempt stores.old attempt.now.caller }
    requires drops { All (MayDropTable stores.old attempt.now.caller.session) tables.now }
    ensures { IsStep (λ u. u) result stores.old stores.new attempt.now.caller (attempt.now.caller.cmd + 1) (drops.dropped_all attempt.now.caller (map (λ t. t.number) tables.now)) }
{
    tree_is_whole();
    let Some(by) = stores.txs.open_of(attempt.caller.session) else {
        unreachable!()
    };
    let mut left = tables;
    while let Some((table, others)) = left.split_first() {
        drop_one(attempt, stores, by, *table)?;
        left = others;
    }
    Ok(())
}

/// DROP TABLE. Each named table is found (42P01; with IF EXISTS an absent one is passed over) and locked in
/// ACCESS EXCLUSIVE mode with the table above it, those under it and the default partition beside it. Then
/// they go, each with the tables under it.
pub fn drop_tables(
    attempt: &Attempt<'_>,
    stores: &mut Stores,
    if_there: bool,
    tables: &[PgText],
) -> Result<(), Stop>
    requires may { MayAttempt stores.old attempt.now.caller }
    requires few { length stores.old.catalog.tables ≤ 4096 }
    ensures { IsStep (λ u. u) result stores.old stores.new attempt.now.caller (attempt.now.caller.cmd + 1) (dropped attempt.now.names.now attempt.now.caller if_there tables.now) }
{
    hold_if_repeatable(attempt, stores)?;
    let found = lock_all_to_drop(attempt, stores, if_there, tables)?;
    drop_all(attempt, stores, &found)
}
