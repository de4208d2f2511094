//! A row version that is followed by another one.

ghost use Rattle.std.specs.Prelude.{◌≡◌, ◌<◌, ◌∷◌, [], IfOk, OnOk, length};
ghost use Rattle.pg_values.specs.Refusals.{IsAnswer, or_first};
ghost use Rattle.history.specs.History.{History};
ghost use Rattle.row_router.specs.Seen.{seen};
ghost use Rattle.row_store.specs.Kept.{stored_at};
ghost use Rattle.row_change.specs.Succession.{KeepsVersions};
ghost use Rattle.row_change.specs.Targets.{HasWay, holder_faults};
ghost use Rattle.part_catalog.specs.Found.{made_at};
ghost use Rattle.part_catalog.specs.Stands.{CatalogueStands};
ghost use Rattle.change_statement.specs.Housed.{IsHousing};
ghost use Rattle.change_statement.specs.NewRows.{new_row};
ghost use Rattle.cond_logic.specs.Asked.{change_meant};
ghost use Rattle.stores.specs.Stand.{Stands};
ghost use Rattle.row_change.specs.Laws.{AreRowsOf};
ghost use Rattle.row_change.specs.Placing.{tables_of};
ghost use Rattle.change_statement.specs.Running.{Agree, IsPlacedIn, IsRun, IsTakenIn, MayEndIn, MayRun, Takes};
ghost use Rattle.statement_steps.specs.Gathered.{found_of};
ghost use Rattle.change_statement.specs.Updated as updated;

use crate::housing::{Housing, keep_target};
use crate::new_row;
use part_catalog::Catalog;
use pg_values::{LeafId, Refusal, Row, RowId};
use row_change::{check_bounds, check_kept, check_leaf, leaves_of, succeed_row};
use statement_steps::{Attempt, Gathered, Stop};
use std::alloc::Global;
use std::slice::from_ref;
use stores::Stores;

// ---- the new row

/// The row, which is one of the table's columns, with the values that the statement sets in it.
pub(crate) fn renew(
    alloc: Global,
    catalog: &Catalog,
    gathered: &Gathered,
    row: &Row,
) -> Result<Row, Refusal>
    requires known { gathered.now.table.number < length catalog.now.tables }
    requires of { AreRowsOf catalog.now gathered.now.table (row.now ∷ []) }
    ensures is { (h : History) → CatalogueStands catalog.now h → IsAnswer result (new_row (made_at h gathered.now.table.number).columns (change_meant gathered.now.ask).settings row.now) }
    ensures of { IfOk result (λ new. AreRowsOf catalog.now gathered.now.table (new ∷ [])) }
{
    let columns = catalog.table(gathered.table).columns.as_slice();
    new_row(alloc, columns, gathered.ask.settings.as_slice(), row)
}

// ---- its leaf

// Where rows may move the leaf of the row below the named table, else its own, where the bounds above take it.
fn house(
    alloc: Global,
    stores: &Stores,
    gathered: &Gathered,
    from: LeafId,
    row: &Row,
) -> Result<LeafId, Refusal>
    requires sound { (h : History) × CatalogueStands stores.now.catalog h }
    requires takes { Takes (length stores.now.catalog.tables) (found_of gathered.now) row.now }
    requires own { HasWay (found_of gathered.now).tree from }
    ensures is { (h : History) → CatalogueStands stores.now.catalog h → IsAnswer result (updated.housed gathered.now.moves (tables_of h) (seen gathered.now.tree) gathered.now.path from row.now) }
    ensures way { IfOk result (λ leaf. HasWay (found_of gathered.now).tree leaf) }
{
    let catalog = &stores.catalog;
    let path = gathered.path.as_slice();
    if !gathered.moves {
        check_bounds(alloc, catalog, path, row)?;
        return Ok(from);
    }
    let leaves = leaves_of(alloc, catalog, &gathered.tree, path, from_ref(row))?;
    match leaves.as_slice().split_first() {
        Some((leaf, _)) => Ok(*leaf),
        None => unreachable!(),
    }
}

// NOT NULL and the kept CHECKs of the table that has the leaf.
fn check_holder(
    attempt: &Attempt<'_>,
    stores: &Stores,
    gathered: &Gathered,
    housing: &mut Housing,
    leaf: LeafId,
    row: &Row,
) -> Result<(), Refusal>
    requires may { MayRun (found_of gathered.now) stores.now attempt.now.caller }
    requires housing { IsHousing stores.now attempt.now.caller.session (found_of gathered.now).tree housing.old }
    requires of { AreRowsOf stores.now.catalog (found_of gathered.now).table (row.now ∷ []) }
    requires way { HasWay (found_of gathered.now).tree leaf }
    ensures told { (h : History) → Stands stores.now h → IsAnswer result (or_first (holder_faults h attempt.now.caller.session (seen gathered.now.tree) leaf row.now) tt) }
    ensures housing { OnOk result (IsHousing stores.now attempt.now.caller.session (found_of gathered.now).tree housing.new) }
{
    keep_target(attempt, stores, gathered, housing, leaf)?;
    match &housing.last {
        Some(target) => check_leaf(attempt.alloc, &stores.catalog, from_ref(target), leaf, row),
        None => unreachable!(),
    }
}

// And those that were gathered of the named table and of those above it, which others may have cut off since.
fn check(
    attempt: &Attempt<'_>,
    stores: &Stores,
    gathered: &Gathered,
    housing: &mut Housing,
    leaf: LeafId,
    row: &Row,
) -> Result<(), Refusal>
    requires may { MayRun (found_of gathered.now) stores.now attempt.now.caller }
    requires housing { IsHousing stores.now attempt.now.caller.session (found_of gathered.now).tree housing.old }
    requires of { AreRowsOf stores.now.catalog (found_of gathered.now).table (row.now ∷ []) }
    requires way { HasWay (found_of gathered.now).tree leaf }
    ensures told { (h : History) → Stands stores.now h → IsAnswer result (or_first (updated.against h attempt.now.caller.session (found_of gathered.now) leaf row.now) tt) }
    ensures housing { OnOk result (IsHousing stores.now attempt.now.caller.session (found_of gathered.now).tree housing.new) }
{
    let alloc = attempt.alloc;
    check_holder(attempt, stores, gathered, housing, leaf, row)?;
    check_kept(alloc, &stores.catalog, gathered.path.as_slice(), row)
}

// ---- its version

// The row takes the place of the version.
fn succeed(
    attempt: &Attempt<'_>,
    stores: &mut Stores,
    gathered: &Gathered,
    from: LeafId,
    id: RowId,
    leaf: LeafId,
    row: Row,
) -> Result<(), Stop>
    requires may { MayRun (found_of gathered.now) stores.old attempt.now.caller }
    requires version { MayEndIn (found_of gathered.now) stores.old attempt.now.caller id }
    requires own { (stored_at stores.old.rows.stored id).version.leaf ≡ from }
    requires keys { Agree (change_meant gathered.now.ask).settings (stored_at stores.old.rows.stored id).version.row row }
    requires of { AreRowsOf stores.old.catalog (found_of gathered.now).table (row ∷ []) }
    requires placed { IsPlacedIn stores.old (found_of gathered.now) from leaf row }
    requires taken { IsTakenIn stores.old attempt.now.caller (found_of gathered.now) leaf row }
    ensures run { IsRun (found_of gathered.now) (λ u. u) result stores.old stores.new attempt.now.caller (updated.succeeded attempt.now.caller from id leaf row) }
    ensures rest { stores.new ≡ record stores.old { rows = stores.new.rows } }
    ensures keeps { KeepsVersions stores.old.rows stores.new.rows }
{
    let cmd = attempt.caller.cmd;
    let Some(by) = stores.txs.open_of(attempt.caller.session) else {
        unreachable!()
    };
    let Stores { txs, rows, .. } = stores;
    succeed_row(attempt.alloc, txs, rows, from, id, leaf, row, by, cmd)?;
    Ok(())
}

/// The row takes the place of the version, in the leaf where it belongs: where no row may move, in that of the
/// version. What is known of the tree's leaves is kept.
pub(crate) fn store(
    attempt: &Attempt<'_>,
    stores: &mut Stores,
    gathered: &Gathered,
    housing: &mut Housing,
    from: LeafId,
    id: RowId,
    row: Row,
) -> Result<(), Stop>
    requires may { MayRun (found_of gathered.now) stores.old attempt.now.caller }
    requires housing { IsHousing stores.old attempt.now.caller.session (found_of gathered.now).tree housing.old }
    requires version { MayEndIn (found_of gathered.now) stores.old attempt.now.caller id }
    requires own { (stored_at stores.old.rows.stored id).version.leaf ≡ from }
    requires keys { Agree (change_meant gathered.now.ask).settings (stored_at stores.old.rows.stored id).version.row row }
    requires of { AreRowsOf stores.old.catalog (found_of gathered.now).table (row ∷ []) }
    ensures run { IsRun (found_of gathered.now) (λ u. u) result stores.old stores.new attempt.now.caller (updated.stored attempt.now.caller (found_of gathered.now) from id row) }
    ensures rest { stores.new ≡ record stores.old { rows = stores.new.rows } }
    ensures keeps { KeepsVersions stores.old.rows stores.new.rows }
    ensures housing { OnOk result (IsHousing stores.old attempt.now.caller.session (found_of gathered.now).tree housing.new) }
{
    let leaf = house(attempt.alloc, stores, gathered, from, &row)?;
    check(attempt, stores, gathered, housing, leaf, &row)?;
    succeed(attempt, stores, gathered, from, id, leaf, row)
}
