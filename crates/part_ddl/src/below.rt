ghost use Rattle.std.specs.Prelude.{◌≡◌, ◌<◌, ◌++◌, ◌∷◌, [], ℕ, IfOk, OnOk, length, map};
ghost use Rattle.history.specs.History.{History};
ghost use Rattle.history.specs.Places.{AreCatalogueSound};
ghost use Rattle.tx_table.specs.Stands.{TableStands};
ghost use Rattle.row_router.specs.Histories.{ddl_tree};
ghost use Rattle.row_router.specs.Seen.{seen};
ghost use Rattle.part_catalog.specs.Answers.{AreTogether};
ghost use Rattle.part_catalog.specs.Stands.{CatalogueStands};
ghost use Rattle.part_ddl.specs.Below as below;

use bound_forms::Bound;
use history::Entry;
use part_bounds::default_child;
use part_catalog::Catalog;
use pg_values::{NoMemory, TableNo};
use row_router::{Shape, Tree};
use std::alloc::Global;
use tx_table::TxTable;

/// Puts the tables of a tree behind the list, in plain order, each before those below it.
pub fn push_tables(tree: &Tree, out: &mut Vec<TableNo>) -> Result<(), NoMemory>
    ensures { OnOk result (out.new.items ≡ out.old.items ++ below.tables_in (seen tree.now)) }
{
    out.push(tree.node.table)?;
    match &tree.shape {
        Shape::Leaf(_) => Ok(()),
        Shape::Level(_, _, children) => {
            for child in children.as_slice() {
                push_tables(child, out)?;
            }
            Ok(())
        }
    }
}

// Puts all but its topmost table behind the list.
fn push_below(tree: &Tree, out: &mut Vec<TableNo>) -> Result<(), NoMemory>
    ensures { OnOk result (out.new.items ≡ out.old.items ++ below.below_top (seen tree.now)) }
{
    match &tree.shape {
        Shape::Leaf(_) => Ok(()),
        Shape::Level(_, _, children) => {
            for child in children.as_slice() {
                push_tables(child, out)?;
            }
            Ok(())
        }
    }
}

/// The tables below a table for the session, pending partitions among them: in plain order, each
/// before those below it.
pub fn tables_below(
    alloc: Global,
    catalog: &Catalog,
    txs: &TxTable,
    table: TableNo,
    session: u32,
) -> Result<Vec<TableNo>, NoMemory>
    requires known { table.number < length catalog.now.tables }
    requires siblings { AreTogether txs.now catalog.now session }
    ensures { IfOk result (λ tables. (h : History) → TableStands txs.now h → CatalogueStands catalog.now h →
        tables.items ≡ below.tables_under h session table.number) }
{
    let tree = catalog.ddl_tree(alloc, txs, table, session)?;
    let mut tables = Vec::new(alloc);
    push_below(&tree, &mut tables)?;
    Ok(tables)
}

/// The default partition of a table, told from the table's tree.
pub fn default_in(tree: &Tree) -> Option<TableNo>
    requires { below.IsDdlTree (seen tree.now) }
    ensures { (h : History) (session table : ℕ) → AreCatalogueSound h → seen tree.now ≡ ddl_tree h session table → result ≡ below.default_of h session table }
{
    match &tree.shape {
        Shape::Leaf(_) => None,
        Shape::Level(_, bounds, children) => match default_child(bounds) {
            Some(at) => Some(children.at(at).node.table),
            None => None,
        },
    }
}

// The default partition among those of a table.
pub(crate) fn default_among(partitions: &[&Entry]) -> Option<TableNo>
    ensures { result ≡ below.default_among (map (λ e. e.now) partitions.now) }
{
    for entry in partitions {
        if matches!(entry.bound, Bound::Default) {
            return Some(entry.child);
        }
    }
    None
}

// The partition of the last entry, where it is the default.
fn default_told(last: &Entry) -> Option<TableNo>
    ensures { result ≡ below.default_among (last.now ∷ []) }
{
    if matches!(last.bound, Bound::Default) {
        Some(last.child)
    } else {
        None
    }
}

/// The default partition of a table for the session: it stands last among those below the table.
pub fn default_of(catalog: &Catalog, txs: &TxTable, table: TableNo, session: u32) -> Option<TableNo>
    requires known { table.number < length catalog.now.tables }
    requires siblings { AreTogether txs.now catalog.now session }
    ensures { (h : History) → TableStands txs.now h → CatalogueStands catalog.now h →
        result ≡ below.default_of h session table.number }
{
    match catalog.last_partition(txs, table, session) {
        Some(last) => default_told(last),
        None => None,
    }
}
