//! A row that a transaction which the snapshot does not see has changed or moved: 40001.

ghost use Rattle.std.specs.Prelude.{◌≡◌, ◌<◌, IfOk, length};
ghost use Rattle.history.specs.History.{History};
ghost use Rattle.part_catalog.specs.Stands.{CatalogueStands};
ghost use Rattle.row_change.specs.Ways.{root, way_to, AllTables};
ghost use Rattle.row_router.specs.Seen.{seen};
ghost use Rattle.row_change.specs.Targets as targets;
ghost use Rattle.change_statement.specs.Changed as changed;

use crate::{Conflict, could_not_serialize};
use part_catalog::Catalog;
use pg_values::{Fault, LeafId, NoMemory, TableNo};
use row_change::leaf_way;
use row_router::Tree;
use statement_steps::{Attempt, session_name};
use std::alloc::Global;

fn last_or(first: TableNo, way: &[TableNo]) -> TableNo
    ensures { result ≡ targets.last_table first way.now }
{
    let mut table = first;
    for below in way {
        table = *below;
    }
    table
}

fn root_of(tree: &Tree) -> TableNo
    ensures { result ≡ root (seen tree.now) }
{
    tree.node.table
}

// The table of the tree that has the leaf.
fn holder(alloc: Global, tree: &Tree, leaf: LeafId) -> Result<TableNo, NoMemory>
    ensures { IfOk result (λ table. table ≡ targets.holder (seen tree.now) leaf) }
{
    match leaf_way(alloc, tree, leaf)? {
        Some(way) => Ok(last_or(root_of(tree), &way)),
        None => Ok(root_of(tree)),
    }
}

fn fault_for(
    attempt: &Attempt<'_>,
    catalog: &Catalog,
    table: TableNo,
    conflict: Conflict,
) -> Result<Fault, NoMemory>
    requires { table.number < length catalog.now.tables }
    ensures { IfOk result (λ f. (h : History) → CatalogueStands catalog.now h → f ≡ changed.fault_in attempt.now.names.now table conflict h) }
{
    let alloc = attempt.alloc;
    let session = session_name(attempt, conflict.session())?;
    could_not_serialize(alloc, conflict, catalog.name_of(table), session.as_bytes())
}

/// The fault, by the names of the table that has the leaf and of the session that was there before.
pub(crate) fn conflict_fault(
    attempt: &Attempt<'_>,
    catalog: &Catalog,
    tree: &Tree,
    leaf: LeafId,
    conflict: Conflict,
) -> Result<Fault, NoMemory>
    requires { AllTables (λ t. t.number < length catalog.now.tables) (seen tree.now) }
    ensures { IfOk result (λ f. (h : History) → CatalogueStands catalog.now h → f ≡ changed.conflict_fault attempt.now.names.now (seen tree.now) leaf conflict h) }
{
    let table = holder(attempt.alloc, tree, leaf)?;
    fault_for(attempt, catalog, table, conflict)
}
