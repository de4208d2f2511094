//! Whether the rows of the table need not be judged.

ghost use Rattle.std.specs.Prelude.{◌≡◌, ◌<◌, ◌==◌, ℕ, IfOk, length};
ghost use Rattle.history.specs.History.{History};
ghost use Rattle.history.specs.Places.{TakesBound};
ghost use Rattle.tx_table.specs.Stands.{TableStands};
ghost use Rattle.row_router.specs.Histories.{path_of};
ghost use Rattle.part_catalog.specs.Answers.{AreTogether};
ghost use Rattle.part_catalog.specs.Found.{made_at};
ghost use Rattle.part_catalog.specs.Stands.{CatalogueStands};
ghost use Rattle.part_ddl.specs.Placing.{level_at};
ghost use Rattle.alter_table.specs.Skipped as skipped;

use crate::attach_checks::is_there;
use bound_forms::Bound;
use ddl_steps::is_implied;
use part_catalog::Catalog;
use part_ddl::parent_level;
use pg_values::{NoMemory, Refusal, TableNo};
use row_router::PathPart;
use std::alloc::Global;
use tx_table::TxTable;

// No CHECK is kept for the first table of the path.
fn is_unchecked(path: &[PathPart]) -> bool
    ensures { (h : History) (s t : ℕ) → path.now ≡ path_of h s t → result ≡ (length (skipped.kept_for h s t) == 0) }
{
    match path.first() {
        None => false,
        Some(part) => part.checks.as_slice().is_empty(),
    }
}

// The table, whose path is given, is no partition and keeps no CHECK.
fn asks_nothing(
    catalog: &Catalog,
    txs: &TxTable,
    session: u32,
    table: TableNo,
    path: &[PathPart],
) -> bool
    requires path { (h : History) → TableStands txs.now h → CatalogueStands catalog.now h → path.now ≡ path_of h session table.number }
    ensures { (h : History) → TableStands txs.now h → CatalogueStands catalog.now h → result ≡ skipped.asks_nothing h session table.number }
{
    if is_there(catalog.parent_of(txs, session, table)) {
        false
    } else {
        is_unchecked(path)
    }
}

// A CHECK of the table says all that the bound does, below the parent.
fn is_said(
    alloc: Global,
    catalog: &Catalog,
    txs: &TxTable,
    session: u32,
    parent: TableNo,
    table: TableNo,
    bound: &Bound,
) -> Result<bool, NoMemory>
    requires parent { parent.number < length catalog.now.tables }
    requires table { table.number < length catalog.now.tables }
    requires siblings { AreTogether txs.now catalog.now session }
    requires takes { (h : History) → CatalogueStands catalog.now h → TakesBound (made_at h parent.number).shape bound.now }
    ensures { IfOk result (λ is. (h : History) → TableStands txs.now h → CatalogueStands catalog.now h →
        is ≡ skipped.is_implied (level_at h parent.number) bound.now (skipped.kept_for h session table.number)) }
{
    match parent_level(alloc, catalog, parent) {
        Ok(level) => is_implied(alloc, catalog, txs, session, table, level, bound),
        Err(Refusal::Sql(_)) => Ok(false),
        Err(Refusal::NoMemory) => Err(NoMemory),
    }
}

/// Whether a CHECK of the table says all that its place below the parent asks, whose path is given.
pub(crate) fn is_skipped(
    alloc: Global,
    catalog: &Catalog,
    txs: &TxTable,
    session: u32,
    parent: TableNo,
    path: &[PathPart],
    table: TableNo,
    bound: &Bound,
) -> Result<bool, NoMemory>
    requires parent { parent.number < length catalog.now.tables }
    requires table { table.number < length catalog.now.tables }
    requires siblings { AreTogether txs.now catalog.now session }
    requires path { (h : History) → TableStands txs.now h → CatalogueStands catalog.now h → path.now ≡ path_of h session parent.number }
    requires takes { (h : History) → CatalogueStands catalog.now h → TakesBound (made_at h parent.number).shape bound.now }
    ensures { IfOk result (λ is. (h : History) → TableStands txs.now h → CatalogueStands catalog.now h →
        is ≡ skipped.is_skipped h session parent.number table.number bound.now) }
{
    if asks_nothing(catalog, txs, session, parent, path) {
        is_said(alloc, catalog, txs, session, parent, table, bound)
    } else {
        Ok(false)
    }
}
