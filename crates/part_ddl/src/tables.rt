ghost use Rattle.std.specs.Prelude.{◌≡◌, ◌<◌, ◌≤◌, ◌++◌, List, IfOk, length};
ghost use Rattle.pg_values.specs.Refusals.{IsAnswer, or_first};
ghost use Rattle.history.specs.declared.catalogue.Column.{Column as OneColumn};
ghost use Rattle.history.specs.History.{History};
ghost use Rattle.history.specs.Places.{KeysLieIn};
ghost use Rattle.row_store.specs.Stands.{StoreStands};
ghost use Rattle.part_catalog.specs.Stands.{CatalogueStands};
ghost use Rattle.part_ddl.specs.Made.{IsMade};
ghost use Rattle.part_ddl.specs.Tables.{KeysFit, shape_of, leaf_events, made_table, count_faults};

use bound_forms::Level;
use history::{Columns, TableShape, TxId};
use part_catalog::{Catalog, CatalogRefused, NewTable, TABLE_LIMIT};
use pg_values::{NoMemory, PgText, Refusal, TableNo, Which};
use refusals::too_many;
use row_store::RowStore;
use std::alloc::Global;

// The level of a partitioned table, or a leaf for the rows of one that is not.
fn shape_for(rows: &mut RowStore, level: Option<Level>) -> Result<TableShape, NoMemory>
    requires { rows.old.leaves < 4294967296 }
    ensures made { IfOk result (λ shape. (h : History) → StoreStands rows.old h →
        (shape ≡ shape_of h level) × StoreStands rows.new (leaf_events h level ++ h)) }
    ensures keys { IfOk result (λ shape. (columns : List OneColumn) → KeysFit columns level → KeysLieIn columns shape) }
{
    match level {
        Some(level) => Ok(TableShape::Level(level)),
        None => {
            let leaf = rows.add_leaf()?;
            Ok(TableShape::Leaf(leaf))
        }
    }
}

/// Whether another table may be made: 54000 where there are 4,096, dropped ones too.
pub fn check_count(alloc: Global, catalog: &Catalog) -> Result<(), Refusal>
    ensures { (h : History) → CatalogueStands catalog.now h → IsAnswer result (or_first (count_faults h) tt) }
{
    if (catalog.table_count() as usize) < TABLE_LIMIT {
        return Ok(());
    }
    Err(Refusal::Sql(too_many(alloc, Which::Tables)?))
}

/// Makes a table of its own, with a leaf for its rows unless it is partitioned; 54000 where there are
/// 4,096 tables already. Its name is one that `check_name` has passed, and of which
/// `Catalog::name_taken_by` tells nobody.
pub fn make_table(
    alloc: Global,
    catalog: &mut Catalog,
    rows: &mut RowStore,
    name: PgText,
    columns: Columns,
    level: Option<Level>,
    by: TxId,
    cmd: u32,
) -> Result<TableNo, Refusal>
    requires keys { KeysFit columns level }
    requires leaves { rows.old.leaves ≤ length catalog.old.tables }
    ensures { (h : History) → CatalogueStands catalog.old h → StoreStands rows.old h →
        IsMade result catalog.new rows.new h (made_table h name columns level by cmd) }
{
    if catalog.table_count() as usize >= TABLE_LIMIT {
        return Err(Refusal::Sql(too_many(alloc, Which::Tables)?));
    }
    let shape = shape_for(rows, level)?;
    let table = NewTable {
        name,
        columns,
        shape,
    };
    match catalog.add_table(table, by, cmd) {
        Ok(table) => Ok(table),
        Err(CatalogRefused::NoMemory) => Err(Refusal::NoMemory),
        Err(CatalogRefused::Full { .. }) => unreachable!(),
    }
}
