ghost use Rattle.std.specs.Prelude.{◌≡◌};
ghost use Rattle.history.specs.History.{History};
ghost use Rattle.tx_table.specs.Stands.{TableStands};
ghost use Rattle.row_store.specs.Stands.{StoreStands};
ghost use Rattle.part_catalog.specs.Stands.{CatalogueStands};
ghost use Rattle.part_ddl.specs.Made.{IsMade};
ghost use Rattle.part_ddl.specs.Partitions.{MayMake, made_partition};

use crate::make_table;
use bound_forms::{Bound, Level};
use history::TxId;
use part_catalog::{Catalog, CatalogRefused};
use pg_values::{PgText, Refusal, TableNo};
use row_store::RowStore;
use std::alloc::Global;
use tx_table::TxTable;

/// Makes a table with the columns of its parent, NOT NULL where those are, and its place below the
/// parent, which `check_place` has passed; 54000 where there are 4,096 tables already.
pub fn make_partition(
    alloc: Global,
    catalog: &mut Catalog,
    rows: &mut RowStore,
    txs: &TxTable,
    name: PgText,
    parent: TableNo,
    bound: Bound,
    level: Option<Level>,
    by: TxId,
    cmd: u32,
) -> Result<TableNo, Refusal>
    requires { MayMake txs.now catalog.old rows.old parent.number bound level by }
    ensures { (h : History) → TableStands txs.now h → CatalogueStands catalog.old h → StoreStands rows.old h →
        IsMade result catalog.new rows.new h (made_partition h name parent.number bound level by cmd) }
{
    let columns = catalog.table(parent).columns.copy(alloc)?;
    let table = make_table(alloc, catalog, rows, name, columns, level, by, cmd)?;
    match catalog.add_entry(txs, parent, table, bound, by, cmd) {
        Ok(()) => Ok(table),
        Err(CatalogRefused::NoMemory) => Err(Refusal::NoMemory),
        Err(CatalogRefused::Full { .. }) => unreachable!(),
    }
}
