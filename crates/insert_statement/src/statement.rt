ghost use Rattle.std.specs.Prelude.{◌≡◌, ◌+◌, ◌<◌, ◌≤◌, [], ◌∷◌, Some, None, map, length};
ghost use Rattle.history.specs.declared.catalogue.TableShape.TheVariants.{Leaf, Level};
ghost use Rattle.bound_forms.specs.declared.level.Level.{Level as OneLevel};
ghost use Rattle.history.specs.History.{History};
ghost use Rattle.part_catalog.specs.Stands.{CatalogueStands};
ghost use Rattle.sql_ast.specs.Expressions.{trees};
ghost use Rattle.statement_steps.specs.Attempts.{MayAttempt};
ghost use Rattle.statement_steps.specs.Known.{IsKnownTo};
ghost use Rattle.statement_steps.specs.Steps.{IsStep};
ghost use Rattle.insert_statement.specs.Inserted as inserted_spec;
ghost use Rattle.part_catalog.specs.Found.{made_at};
ghost use Rattle.insert_statement.specs.Inserted.{inserted};
ghost use Rattle.row_change.specs.Laws.{AreRowsOf};
ghost use Rattle.statement_steps.specs.Rights.{MayWrite};

use crate::leaf::store_in_leaf;
use crate::partitions::store_below;
use crate::rows::rows_meant;
use expression_binder::Param;
use history::TableShape;
use part_catalog::Catalog;
use pg_values::{LeafId, LockMode, Row, TableNo};
use sql_ast::Insert;
use statement_steps::{Attempt, Stop, hold_if_repeatable, lock_named};
use stores::Stores;

// The leaf of a table that holds rows itself.
fn leaf_of(catalog: &Catalog, table: TableNo) -> Option<LeafId>
    requires { table.number < length catalog.now.tables }
    ensures leaf { (leaf : LeafId) → result ≡ Some leaf → (h : History) → CatalogueStands catalog.now h → (made_at h table.number).shape ≡ Leaf leaf }
    ensures level { result ≡ None → (h : History) → CatalogueStands catalog.now h → (level : OneLevel) × ((made_at h table.number).shape ≡ Level level) }
{
    match &catalog.table(table).shape {
        TableShape::Leaf(leaf) => Some(*leaf),
        TableShape::Level(_) => None,
    }
}

// The rows go into the table, which is locked.
fn store_into(
    attempt: &Attempt<'_>,
    stores: &mut Stores,
    table: TableNo,
    rows: Vec<Row>,
) -> Result<(), Stop>
    requires may { MayAttempt stores.old attempt.now.caller }
    requires there { IsKnownTo stores.old attempt.now.caller.session table.number }
    requires few { length stores.old.catalog.tables ≤ 4096 }
    requires rows { AreRowsOf stores.old.catalog table rows.items }
    requires locked { MayWrite stores.old attempt.now.caller.session (table ∷ []) }
    ensures { IsStep (λ u. u) result stores.old stores.new attempt.now.caller (attempt.now.caller.cmd + 1) (inserted_spec.into attempt.now.names.now attempt.now.caller table.number rows.items) }
{
    match leaf_of(&stores.catalog, table) {
        Some(leaf) => store_in_leaf(attempt, stores, table, leaf, rows),
        None => store_below(attempt, stores, table, rows),
    }
}

/// The INSERT of a session, with the arguments of its parameters. The table is found (42P01) and locked in
/// ROW EXCLUSIVE mode; the values are computed, or the first fault among them is told. Of a partitioned
/// table each row is placed (23514), the tables on the ways of the rows are locked in the same mode, and
/// the rows are stored (23502, 23514, 54000).
pub fn insert(
    attempt: &Attempt<'_>,
    stores: &mut Stores,
    params: &[Param],
    statement: &Insert,
) -> Result<(), Stop>
    requires may { MayAttempt stores.old attempt.now.caller }
    requires few { length stores.old.catalog.tables ≤ 4096 }
    ensures { IsStep (λ u. u) result stores.old stores.new attempt.now.caller (attempt.now.caller.cmd + 1) (inserted attempt.now.names.now params.now attempt.now.caller statement.now.table statement.now.columns (map trees statement.now.rows)) }
{
    hold_if_repeatable(attempt, stores)?;
    let name = statement.table.as_bytes();
    let table = lock_named(attempt, stores, name, LockMode::RowExclusive)?;
    let rows = rows_meant(attempt, stores, params, table, statement)?;
    store_into(attempt, stores, table, rows)
}
