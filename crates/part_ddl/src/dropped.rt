//! Tables that go, with their places.

ghost use Rattle.std.specs.Prelude.{◌≡◌, ◌<◌, ◌++◌, All, OnOk, OnErr, length};
ghost use Rattle.history.specs.Transactions.{session_of};
ghost use Rattle.history.specs.History.{History, tx_events};
ghost use Rattle.tx_table.specs.Stands.{TableStands, IsOpen};
ghost use Rattle.part_catalog.specs.Stands.{CatalogueStands};
ghost use Rattle.part_ddl.specs.Dropped.{place_ended, places_ended, tables_dropped, drop_events, MayDrop, MayEnd, MayEndAll, MayDropAll};

use crate::below::push_tables;
use history::TxId;
use part_catalog::Catalog;
use pg_values::{NoMemory, TableNo};
use std::alloc::Global;
use tx_table::TxTable;

// Ends the entry by which a table is a partition, if there is one.
fn end_place(catalog: &mut Catalog, txs: &TxTable, table: TableNo, by: TxId, cmd: u32)
    requires { MayEnd txs.now catalog.old by table }
    ensures { (h : History) → TableStands txs.now h → CatalogueStands catalog.old h →
        CatalogueStands catalog.new (place_ended (session_of (tx_events h) by.number) (record { by = by; cmd = cmd }) h table ++ h) }
{
    let session = txs.session_of(by);
    if let Some(parent) = catalog.parent_of(txs, session, table) {
        catalog.end_entry(txs, parent, table, by, cmd);
    }
}

// Ends the entries of these tables.
fn end_places(catalog: &mut Catalog, txs: &TxTable, tables: &[TableNo], by: TxId, cmd: u32)
    requires runs { IsOpen txs.now by.number }
    requires ends { MayEndAll txs.now catalog.old by tables.now }
    ensures { (h : History) → TableStands txs.now h → CatalogueStands catalog.old h →
        CatalogueStands catalog.new (places_ended (session_of (tx_events h) by.number) (record { by = by; cmd = cmd }) h tables.now ++ h) }
{
    for table in tables {
        end_place(catalog, txs, *table, by, cmd);
    }
}

// Drops these tables.
fn end_tables(catalog: &mut Catalog, txs: &TxTable, tables: &[TableNo], by: TxId, cmd: u32)
    requires { MayDropAll txs.now catalog.old tables.now }
    ensures { (h : History) → TableStands txs.now h → CatalogueStands catalog.old h →
        CatalogueStands catalog.new (tables_dropped (record { by = by; cmd = cmd }) tables.now ++ h) }
{
    for table in tables {
        catalog.end_table(txs, *table, by, cmd);
    }
}

/// Drops a table and all tables below it, pending partitions among them: first the entry of each that
/// is a partition is ended, then the tables are dropped.
pub fn drop_table(
    alloc: Global,
    catalog: &mut Catalog,
    txs: &TxTable,
    table: TableNo,
    by: TxId,
    cmd: u32,
) -> Result<(), NoMemory>
    requires known { table.number < length catalog.old.tables }
    requires runs { IsOpen txs.now by.number }
    requires free { MayDrop txs.now catalog.old table.number by }
    ensures ok { OnOk result ((h : History) → TableStands txs.now h → CatalogueStands catalog.old h →
        CatalogueStands catalog.new (drop_events h (session_of (tx_events h) by.number) table.number (record { by = by; cmd = cmd }) ++ h)) }
    ensures err { OnErr result (catalog.new ≡ catalog.old) }
{
    let tree = catalog.ddl_tree(alloc, txs, table, txs.session_of(by))?;
    let mut tables = Vec::new(alloc);
    push_tables(&tree, &mut tables)?;
    end_places(catalog, txs, &tables, by, cmd);
    end_tables(catalog, txs, &tables, by, cmd);
    Ok(())
}
