//! Rows into a partitioned table.

ghost use Rattle.std.specs.Prelude.{◌≡◌, ◌+◌, ◌<◌, ◌≤◌, IfOk, length};
ghost use Rattle.bound_forms.specs.declared.level.Level.{Level as OneLevel};
ghost use Rattle.history.specs.declared.catalogue.TableShape.TheVariants.{Level};
ghost use Rattle.history.specs.History.{History};
ghost use Rattle.part_catalog.specs.Found.{made_at};
ghost use Rattle.part_catalog.specs.Stands.{CatalogueStands};
ghost use Rattle.row_router.specs.Seen.{seen};
ghost use Rattle.row_change.specs.Ways.{ways_below};
ghost use Rattle.statement_steps.specs.Attempts.{MayAttempt};
ghost use Rattle.statement_steps.specs.Known.{IsKnownTo};
ghost use Rattle.statement_steps.specs.Steps.{IsStep};
ghost use Rattle.insert_statement.specs.Inserted as inserted;
ghost use Rattle.insert_statement.specs.Asked.{ArePlaced};
ghost use Rattle.row_change.specs.Laws.{AreRowsOf};
ghost use Rattle.statement_steps.specs.Rights.{IsReadOf, MayWrite};

use crate::storing::put_rows;
use pg_values::{LeafId, LockMode, NoMemory, Row, TableNo};
use row_change::{leaf_targets, leaves_and_ways};
use row_router::{PathPart, Tree};
use statement_steps::{Attempt, Stop, lock_tables};
use stores::{Stores, trees_are_together};

// Each row into the leaf where it was placed; the tables on the ways are locked.
fn store_in_leaves(
    attempt: &Attempt<'_>,
    stores: &mut Stores,
    tree: &Tree,
    leaves: &[LeafId],
    rows: Vec<Row>,
) -> Result<(), Stop>
    requires may { MayAttempt stores.old attempt.now.caller }
    requires placed { ArePlaced stores.old.txs stores.old.catalog attempt.now.caller (seen tree.now) leaves.now rows.items }
    requires locked { MayWrite stores.old attempt.now.caller.session (ways_below (seen tree.now) rows.items) }
    ensures { IsStep (λ u. u) result stores.old stores.new attempt.now.caller (attempt.now.caller.cmd + 1) (inserted.into_leaves attempt.now.caller (seen tree.now) leaves.now rows.items) }
{
    let session = attempt.caller.session;
    trees_are_together();
    let Stores { txs, catalog, .. } = &*stores;
    let targets = leaf_targets(attempt.alloc, catalog, txs, session, tree, leaves)?;
    put_rows(attempt, stores, &targets, leaves, rows)
}

// The tree that the session's command reads of a table, which is kept for the statements that come, and the path above it.
fn kept_tree_and_path(
    attempt: &Attempt<'_>,
    stores: &mut Stores,
    table: TableNo,
) -> Result<(Tree, Vec<PathPart>), NoMemory>
    requires may { MayAttempt stores.old attempt.now.caller }
    requires known { table.number < length stores.old.catalog.tables }
    ensures read { IfOk result (λ found. IsReadOf stores.old.txs stores.old.catalog attempt.now.caller table (seen found.0) found.1.items) }
    ensures same { stores.new ≡ stores.old }
{
    trees_are_together();
    let session = attempt.caller.session;
    let look = stores.look(attempt.alloc, session, attempt.caller.cmd)?;
    let Stores { txs, catalog, .. } = stores;
    let path = catalog.path(attempt.alloc, txs, table, session)?;
    let tree = catalog.keep_tree(txs, table, session, &look)?;
    Ok((tree, path))
}

// The rows are placed below a partitioned table, by the tree that the session's command reads; the tables on
// their ways are locked, and the rows are stored.
fn store_by_tree(
    attempt: &Attempt<'_>,
    stores: &mut Stores,
    table: TableNo,
    tree: Tree,
    path: Vec<PathPart>,
    rows: Vec<Row>,
) -> Result<(), Stop>
    requires may { MayAttempt stores.old attempt.now.caller }
    requires there { IsKnownTo stores.old attempt.now.caller.session table.number }
    requires few { length stores.old.catalog.tables ≤ 4096 }
    requires level { (h : History) → CatalogueStands stores.old.catalog h → (level : OneLevel) × ((made_at h table.number).shape ≡ Level level) }
    requires rows { AreRowsOf stores.old.catalog table rows.items }
    requires read { IsReadOf stores.old.txs stores.old.catalog attempt.now.caller table (seen tree) path.items }
    ensures { IsStep (λ u. u) result stores.old stores.new attempt.now.caller (attempt.now.caller.cmd + 1) (inserted.into_partitions attempt.now.names.now attempt.now.caller table.number rows.items) }
{
    let alloc = attempt.alloc;
    let mut ways = Vec::new(alloc);
    let leaves = leaves_and_ways(alloc, &stores.catalog, &tree, &path, &rows, &mut ways)?;
    lock_tables(attempt, stores, &ways, LockMode::RowExclusive)?;
    store_in_leaves(attempt, stores, &tree, leaves.as_slice(), rows)
}

/// The rows are placed below a partitioned table and stored, by a tree that is kept.
pub(crate) fn store_below(
    attempt: &Attempt<'_>,
    stores: &mut Stores,
    table: TableNo,
    rows: Vec<Row>,
) -> Result<(), Stop>
    requires may { MayAttempt stores.old attempt.now.caller }
    requires there { IsKnownTo stores.old attempt.now.caller.session table.number }
    requires few { length stores.old.catalog.tables ≤ 4096 }
    requires level { (h : History) → CatalogueStands stores.old.catalog h → (level : OneLevel) × ((made_at h table.number).shape ≡ Level level) }
    requires rows { AreRowsOf stores.old.catalog table rows.items }
    ensures { IsStep (λ u. u) result stores.old stores.new attempt.now.caller (attempt.now.caller.cmd + 1) (inserted.into_partitions attempt.now.names.now attempt.now.caller table.number rows.items) }
{
    let (tree, path) = kept_tree_and_path(attempt, stores, table)?;
    store_by_tree(attempt, stores, table, tree, path, rows)
}
