//! Whether the table may be attached.

ghost use Rattle.std.specs.Prelude.{◌≡◌, ◌==◌, ◌<◌, ◌+◌, IfOk, is_some, length, nat_le};
ghost use Rattle.std.specs.List.{list_any};
ghost use Rattle.pg_values.specs.Refusals.{IsAnswer, or_first, unless};
ghost use Rattle.pg_values.specs.declared.which.Which.TheVariants.{Levels};
ghost use Rattle.refusals.specs.Refusals as refusals;
ghost use Rattle.history.specs.History.{History};
ghost use Rattle.tx_table.specs.Stands.{TableStands};
ghost use Rattle.row_router.specs.Seen.{seen};
ghost use Rattle.row_router.specs.Trees.{height};
ghost use Rattle.part_catalog.specs.Answers.{AreTogether};
ghost use Rattle.part_catalog.specs.Stands.{CatalogueStands};
ghost use Rattle.part_ddl.specs.Below as below;
ghost use Rattle.sql_ast.specs.Commands.{bound_tree};
ghost use Rattle.statement_steps.specs.Attempts.{MayAttempt};
ghost use Rattle.statement_steps.specs.Steps.{IsStep};
ghost use Rattle.alter_table.specs.AskedOfAttached.{AreFrom, HasPlace, IsPathOf};
ghost use Rattle.alter_table.specs.Attached as attached;
ghost use Rattle.alter_table.specs.Places.{attach_place, table_faults};

use crate::columns::check_columns;
use bound_forms::Bound;
use part_catalog::{Catalog, LEVEL_LIMIT};
use part_ddl::{check_place, parent_level};
use pg_values::{Refusal, TableNo, Which};
use refusals::{already_a_partition, is_above, too_many};
use row_router::{PathPart, Tree, height_up_to};
use sql_ast::BoundText;
use statement_steps::{Attempt, Stop};
use std::alloc::Global;
use stores::{Stores, trees_are_together};
use table_binder::bind_bound;
use tx_table::TxTable;

pub(crate) fn is_there(found: Option<TableNo>) -> bool
    ensures { result ≡ is_some found }
{
    found.is_some()
}

fn is_among(table: TableNo, tables: &[TableNo]) -> bool
    ensures { result ≡ list_any (λ x. x.number == table.number) tables.now }
{
    tables.iter().any(|x| x.number == table.number)
}

// The table is no partition (42809), is not the parent or above it (42P17), and has its columns (42804).
fn check_table(
    alloc: Global,
    catalog: &Catalog,
    txs: &TxTable,
    session: u32,
    parent: TableNo,
    table: TableNo,
    tables: &[TableNo],
) -> Result<(), Refusal>
    requires parent { parent.number < length catalog.now.tables }
    requires table { table.number < length catalog.now.tables }
    requires tables { (h : History) → TableStands txs.now h → CatalogueStands catalog.now h → tables.now ≡ below.tables_from h session table.number }
    ensures { (h : History) → TableStands txs.now h → CatalogueStands catalog.now h → IsAnswer result (or_first (table_faults h session parent.number table.number) tt) }
{
    let name = catalog.name_of(table);
    if is_there(catalog.parent_of(txs, session, table)) {
        return Err(Refusal::Sql(already_a_partition(alloc, name)?));
    }
    if is_among(parent, tables) {
        let above = catalog.name_of(parent);
        return Err(Refusal::Sql(is_above(alloc, name, above)?));
    }
    let own = catalog.table(table).columns.as_slice();
    check_columns(alloc, name, catalog.table(parent).columns.as_slice(), own)
}

// A path has 8 tables at most.
fn check_levels(alloc: Global, above: usize, own: &Tree) -> Result<(), Refusal>
    requires { above < 9 }
    ensures { IsAnswer result (or_first (unless (nat_le (above + height (seen own.now)) 8) (refusals.too_many Levels)) tt) }
{
    if above + height_up_to(own, LEVEL_LIMIT + 1) > LEVEL_LIMIT {
        return Err(Refusal::Sql(too_many(alloc, Which::Levels)?));
    }
    Ok(())
}

// The bound of the table below the parent, or the first refusal. The path of the parent is given, and of the other one its
// tree and the tables from it down.
fn place_of(
    alloc: Global,
    stores: &Stores,
    session: u32,
    parent: TableNo,
    path: &[PathPart],
    table: TableNo,
    own: &Tree,
    tables: &[TableNo],
    bound: &BoundText,
) -> Result<Bound, Refusal>
    requires siblings { AreTogether stores.now.txs stores.now.catalog session }
    requires parent { parent.number < length stores.now.catalog.tables }
    requires table { table.number < length stores.now.catalog.tables }
    requires path { IsPathOf stores.now session parent.number path.now }
    requires own { below.IsTreeOf stores.now.txs stores.now.catalog session table.number (seen own.now) }
    requires tables { AreFrom stores.now session table.number tables.now }
    ensures answer { (h : History) → TableStands stores.now.txs h → CatalogueStands stores.now.catalog h → IsAnswer result (attach_place h session parent.number table.number (bound_tree bound.now)) }
    ensures place { IfOk result (λ b. HasPlace stores.now session parent.number table.number b) }
{
    let Stores { txs, catalog, .. } = stores;
    let level = parent_level(alloc, catalog, parent)?;
    check_table(alloc, catalog, txs, session, parent, table, tables)?;
    let bound = bind_bound(alloc, bound, level)?;
    check_place(alloc, catalog, txs, parent, &bound, session)?;
    check_levels(alloc, path.len(), own)?;
    Ok(bound)
}

/// A part: the bound of the table below the parent.
pub(crate) fn place_found(
    attempt: &Attempt<'_>,
    stores: &Stores,
    parent: TableNo,
    path: &[PathPart],
    table: TableNo,
    own: &Tree,
    tables: &[TableNo],
    bound: &BoundText,
) -> Result<Bound, Stop>
    requires may { MayAttempt stores.now attempt.now.caller }
    requires parent { parent.number < length stores.now.catalog.tables }
    requires table { table.number < length stores.now.catalog.tables }
    requires path { IsPathOf stores.now attempt.now.caller.session parent.number path.now }
    requires own { below.IsTreeOf stores.now.txs stores.now.catalog attempt.now.caller.session table.number (seen own.now) }
    requires tables { AreFrom stores.now attempt.now.caller.session table.number tables.now }
    ensures step { IsStep (λ b. b) result stores.now stores.now attempt.now.caller attempt.now.caller.cmd (attached.place_found attempt.now.caller.session parent.number table.number (bound_tree bound.now)) }
    ensures place { IfOk result (λ b. HasPlace stores.now attempt.now.caller.session parent.number table.number b) }
{
    let alloc = attempt.alloc;
    trees_are_together();
    let session = attempt.caller.session;
    let bound = place_of(
        alloc, stores, session, parent, path, table, own, tables, bound,
    )?;
    Ok(bound)
}
