//! The leaf of each row.

ghost use Rattle.std.specs.Prelude.{◌≡◌, ◌<◌, ◌++◌, All, IfOk, OnOk, length};
ghost use Rattle.pg_values.specs.Refusals.{IsAnswer};
ghost use Rattle.pg_values.specs.Refusals.{or_first};
ghost use Rattle.refusals.specs.Refusals as refusals;
ghost use Rattle.history.specs.Catalogue.{tables_made};
ghost use Rattle.history.specs.History.{History, catalogue_events};
ghost use Rattle.history.specs.Places.{table_at};
ghost use Rattle.row_router.specs.Seen.{seen};
ghost use Rattle.row_router.specs.Trees.{routed, Fits};
ghost use Rattle.row_router.specs.Paths as paths;
ghost use Rattle.row_router.specs.Paths.{PartFits};
ghost use Rattle.row_router.specs.declared.path.PathTest.TheVariants.{Bounds};
ghost use Rattle.part_catalog.specs.Stands.{CatalogueStands};
ghost use Rattle.row_change.specs.Placing as placing;
ghost use Rattle.row_change.specs.Placing.{name_at, all_placed, bounds_faults, way_told, CanBePlaced, IsNumbered, IsPartNumbered};
ghost use Rattle.row_change.specs.Targets.{HasWay};
ghost use Rattle.row_change.specs.Ways.{way_below, ways_below};

use crate::LeafList;
use crate::keys::{key_above, key_in};
use crate::way::push_way;
use part_catalog::Catalog;
use pg_values::{Fault, LeafId, NoMemory, Refusal, Row, Steps, TableNo};
use refusals::{does_not_accept, no_partition};
use row_router::{PathPart, PathTest, Tree, fits_path};
use std::alloc::Global;
use std::slice::from_ref;
use std::sync::ledger::Ledger;

// ---- the bounds above

fn does_refuse(part: &PathPart, row: &Row) -> bool
    requires { PartFits row.now part.now }
    ensures { result ≡ paths.refuses Bounds row.now part.now }
{
    fits_path(from_ref(part), row, PathTest::Bounds).is_some()
}

fn refused_by(
    alloc: Global,
    catalog: &Catalog,
    part: &PathPart,
    row: &Row,
) -> Result<Fault, NoMemory>
    requires { IsPartNumbered (length catalog.now.tables) part.now }
    ensures { IfOk result (λ f. (h : History) → CatalogueStands catalog.now h →
        f ≡ refusals.does_not_accept (name_at (tables_made (catalogue_events h)) part.now.table) (placing.key_above part.now.place row.now)) }
{
    let key = key_above(alloc, &part.place, row.as_slice())?;
    does_not_accept(alloc, catalog.name_of(part.table), &key)
}

/// The nearest table of the path that does not accept the row refuses it: 23514.
pub fn check_bounds(
    alloc: Global,
    catalog: &Catalog,
    path: &[PathPart],
    row: &Row,
) -> Result<(), Refusal>
    requires fits { All (PartFits row.now) path.now }
    requires known { All (IsPartNumbered (length catalog.now.tables)) path.now }
    ensures { (h : History) → CatalogueStands catalog.now h →
        IsAnswer result (or_first (bounds_faults (tables_made (catalogue_events h)) path.now row.now) tt) }
{
    for part in path {
        if does_refuse(part, row) {
            return Err(Refusal::Sql(refused_by(alloc, catalog, part, row)?));
        }
    }
    Ok(())
}

// ---- the way down

fn lost_at(alloc: Global, catalog: &Catalog, table: TableNo, row: &Row) -> Result<Fault, NoMemory>
    requires { table.number < length catalog.now.tables }
    ensures { IfOk result (λ f. (h : History) → CatalogueStands catalog.now h →
        f ≡ refusals.no_partition (name_at (tables_made (catalogue_events h)) table) (placing.key_in (table_at (tables_made (catalogue_events h)) table.number).shape row.now)) }
{
    let key = key_in(alloc, &catalog.table(table).shape, row.as_slice())?;
    no_partition(alloc, catalog.name_of(table), &key)
}

#[tactic(auto, using(crate::proofs::Targets::way_of_routed))]
fn leaf_of<L: Ledger>(
    alloc: Global,
    catalog: &Catalog,
    tree: &Tree,
    row: &Row,
    ways: &mut Vec<TableNo>,
    steps: &mut Steps<L>,
) -> Result<LeafId, Refusal>
    requires fits { Fits row.now (seen tree.now) }
    requires known { IsNumbered (length catalog.now.tables) (seen tree.now) }
    ensures told { (h : History) → CatalogueStands catalog.now h →
        IsAnswer result (way_told (tables_made (catalogue_events h)) row.now (routed row.now (seen tree.now))) }
    ensures way { IfOk result (λ leaf. HasWay (seen tree.now) leaf) }
    ensures tables { OnOk result (ways.new.items ≡ ways.old.items ++ way_below row.now (seen tree.now)) }
{
    match push_way(tree, row, steps, ways)? {
        Ok(leaf) => Ok(leaf),
        Err(lost) => Err(Refusal::Sql(lost_at(alloc, catalog, lost.table, row)?)),
    }
}

// ---- rows

fn place_row<L: Ledger>(
    alloc: Global,
    catalog: &Catalog,
    tree: &Tree,
    path: &[PathPart],
    row: &Row,
    ways: &mut Vec<TableNo>,
    steps: &mut Steps<L>,
) -> Result<LeafId, Refusal>
    requires fits { CanBePlaced (seen tree.now) path.now row.now }
    requires path { All (IsPartNumbered (length catalog.now.tables)) path.now }
    requires known { IsNumbered (length catalog.now.tables) (seen tree.now) }
    ensures told { (h : History) → CatalogueStands catalog.now h →
        IsAnswer result (placing.placed (tables_made (catalogue_events h)) (seen tree.now) path.now row.now) }
    ensures way { IfOk result (λ leaf. HasWay (seen tree.now) leaf) }
    ensures tables { OnOk result (ways.new.items ≡ ways.old.items ++ way_below row.now (seen tree.now)) }
{
    check_bounds(alloc, catalog, path, row)?;
    leaf_of(alloc, catalog, tree, row, ways, steps)
}

/// The leaf of each row below the table of the tree, or the first refusal: 23514. Each row is asked of the
/// bounds along the path, which is that of the table, before it goes down. The tables on the ways of the rows are put
/// behind the list, in the order of the rows.
#[tactic(auto, using(crate::proofs::Placed::next_placed, crate::proofs::Placed::none_placed, crate::proofs::Placed::refused_here, crate::proofs::Placed::all_have, crate::proofs::Targets::one_more_of))]
pub fn place_rows<L: Ledger>(
    alloc: Global,
    catalog: &Catalog,
    tree: &Tree,
    path: &[PathPart],
    rows: &[Row],
    ways: &mut Vec<TableNo>,
    steps: &mut Steps<L>,
) -> Result<LeafList, Refusal>
    requires fits { All (CanBePlaced (seen tree.now) path.now) rows.now }
    requires path { All (IsPartNumbered (length catalog.now.tables)) path.now }
    requires known { IsNumbered (length catalog.now.tables) (seen tree.now) }
    ensures told { (h : History) → CatalogueStands catalog.now h →
        IsAnswer result (all_placed (tables_made (catalogue_events h)) (seen tree.now) path.now rows.now) }
    ensures ways { IfOk result (λ leaves. All (HasWay (seen tree.now)) leaves) }
    ensures tables { OnOk result (ways.new.items ≡ ways.old.items ++ ways_below (seen tree.now) rows.now) }
{
    let mut leaves = LeafList::new(alloc);
    for row in rows {
        let leaf = place_row(alloc, catalog, tree, path, row, ways, steps)?;
        leaves.push(leaf)?;
    }
    Ok(leaves)
}
