//! The tests of a row before it is stored.

ghost use Rattle.std.specs.Prelude.{◌≡◌, ◌<◌, ◌&&◌, not, All, IfOk, length};
ghost use Rattle.pg_values.specs.Refusals.{IsAnswer, or_first, unless};
ghost use Rattle.refusals.specs.Refusals as refusals;
ghost use Rattle.bound_forms.specs.Points as points;
ghost use Rattle.history.specs.Catalogue.{tables_made};
ghost use Rattle.history.specs.History.{History, catalogue_events};
ghost use Rattle.row_router.specs.Paths.{PartFits};
ghost use Rattle.part_catalog.specs.Stands.{CatalogueStands};
ghost use Rattle.row_change.specs.Placing.{name_at, IsPartNumbered};
ghost use Rattle.row_change.specs.Storing.{null_faults, own_null_faults, check_faults, named_faults, target_faults, IsTargetNumbered};

use crate::Target;
use crate::placing::check_bounds;
use history::Column;
use part_catalog::Catalog;
use pg_values::{Fault, NoMemory, PgText, Refusal, Row, TableNo, Value};
use refusals::{kept_check, null_column};
use row_router::{PathPart, PathTest, fits_path};
use std::alloc::Global;

fn is_null(value: &Value) -> bool
    ensures { result ≡ points.is_null value.now }
{
    matches!(value, Value::Null)
}

fn check_null(alloc: Global, leaf: &PgText, column: &Column, value: &Value) -> Result<(), Refusal>
    ensures { IsAnswer result (or_first (unless (not (column.now.not_null && points.is_null value.now)) (refusals.null_column column.now.name leaf.now)) tt) }
{
    if column.not_null && is_null(value) {
        Err(Refusal::Sql(null_column(alloc, column.name.as_bytes(), leaf.as_bytes())?))
    } else {
        Ok(())
    }
}

// The first column that is NOT NULL and has null: 23502.
fn check_nulls(
    alloc: Global,
    leaf: &PgText,
    columns: &[Column],
    row: &[Value],
) -> Result<(), Refusal>
    ensures { IsAnswer result (or_first (null_faults leaf.now columns.now row.now) tt) }
{
    let mut rest = row;
    for column in columns {
        match rest.split_first() {
            None => return Ok(()),
            Some((value, others)) => {
                check_null(alloc, leaf, column, value)?;
                rest = others;
            }
        }
    }
    Ok(())
}

fn check_own_nulls(
    alloc: Global,
    catalog: &Catalog,
    table: TableNo,
    row: &Row,
) -> Result<(), Refusal>
    requires { table.number < length catalog.now.tables }
    ensures { (h : History) → CatalogueStands catalog.now h →
        IsAnswer result (or_first (own_null_faults (tables_made (catalogue_events h)) table row.now) tt) }
{
    let table = catalog.table(table);
    check_nulls(alloc, &table.name, table.columns.as_slice(), row.as_slice())
}

fn refused_by_check(
    alloc: Global,
    catalog: &Catalog,
    table: TableNo,
    row: &Row,
) -> Result<Fault, NoMemory>
    requires { table.number < length catalog.now.tables }
    ensures { IfOk result (λ f. (h : History) → CatalogueStands catalog.now h →
        f ≡ refusals.kept_check (name_at (tables_made (catalogue_events h)) table) row.now) }
{
    kept_check(alloc, catalog.name_of(table), row)
}

/// The nearest table of the path that has a kept CHECK which refuses the row: 23514.
pub fn check_kept(
    alloc: Global,
    catalog: &Catalog,
    path: &[PathPart],
    row: &Row,
) -> Result<(), Refusal>
    requires fits { All (PartFits row.now) path.now }
    requires known { All (IsPartNumbered (length catalog.now.tables)) path.now }
    ensures { (h : History) → CatalogueStands catalog.now h →
        IsAnswer result (or_first (check_faults (tables_made (catalogue_events h)) path.now row.now) tt) }
{
    if let [] = path {
        return Ok(());
    }
    match fits_path(path, row, PathTest::Checks) {
        None => Ok(()),
        Some(table) => Err(Refusal::Sql(refused_by_check(alloc, catalog, table, row)?)),
    }
}

fn check_named(alloc: Global, catalog: &Catalog, target: &Target, row: &Row) -> Result<(), Refusal>
    requires fits { All (PartFits row.now) target.now.path }
    requires known { IsTargetNumbered (length catalog.now.tables) target.now }
    ensures { (h : History) → CatalogueStands catalog.now h →
        IsAnswer result (or_first (named_faults (tables_made (catalogue_events h)) target.now row.now) tt) }
{
    if target.is_named {
        check_bounds(alloc, catalog, target.path.as_slice(), row)
    } else {
        Ok(())
    }
}

/// NOT NULL of the leaf's own table, then the kept CHECKs along its path, then the bounds where the leaf is
/// named itself.
pub fn check_row(
    alloc: Global,
    catalog: &Catalog,
    target: &Target,
    row: &Row,
) -> Result<(), Refusal>
    requires fits { All (PartFits row.now) target.now.path }
    requires known { IsTargetNumbered (length catalog.now.tables) target.now }
    ensures { (h : History) → CatalogueStands catalog.now h →
        IsAnswer result (or_first (target_faults (tables_made (catalogue_events h)) target.now row.now) tt) }
{
    check_own_nulls(alloc, catalog, target.table, row)?;
    check_kept(alloc, catalog, target.path.as_slice(), row)?;
    check_named(alloc, catalog, target, row)
}
