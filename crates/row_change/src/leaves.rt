//! The leaf of each row below a partitioned table.

ghost use Rattle.std.specs.Prelude.{◌≡◌, ◌<◌, ◌++◌, All, IfOk, OnOk, OnErr, length};
ghost use Rattle.pg_values.specs.Refusals.{IsAnswer};
ghost use Rattle.history.specs.History.{History};
ghost use Rattle.part_catalog.specs.Stands.{CatalogueStands};
ghost use Rattle.row_router.specs.Seen.{seen};
ghost use Rattle.row_change.specs.Placing.{all_placed, tables_of, CanBePlaced, IsNumbered, IsPartNumbered};
ghost use Rattle.row_change.specs.Targets.{HasWay};
ghost use Rattle.row_change.specs.Ways.{ways_below};

use crate::leaf_list::LeafList;
use crate::placing::place_rows;
use part_catalog::Catalog;
use pg_values::{NoMemory, Refusal, Row, Steps, TableNo};
use row_router::{PathPart, Tree};
use std::alloc::Global;
use std::marker::Brand;
use std::sync::ledger::{Blank, Ledger};

fn place_from<L: Ledger>(
    alloc: Global,
    catalog: &Catalog,
    tree: &Tree,
    path: &[PathPart],
    rows: &[Row],
    ways: &mut Vec<TableNo>,
    blank: Blank,
) -> Result<LeafList, Refusal>
    requires fits { All (CanBePlaced (seen tree.now) path.now) rows.now }
    requires path { All (IsPartNumbered (length catalog.now.tables)) path.now }
    requires known { IsNumbered (length catalog.now.tables) (seen tree.now) }
    requires name { blank.name ≡ L.name }
    requires parts { blank.parts ≡ L.parts }
    requires some { 0 < blank.parts }
    ensures told { (h : History) → CatalogueStands catalog.now h → IsAnswer result (all_placed (tables_of h) (seen tree.now) path.now rows.now) }
    ensures ways { IfOk result (λ leaves. All (HasWay (seen tree.now)) leaves) }
    ensures tables { OnOk result (ways.new.items ≡ ways.old.items ++ ways_below (seen tree.now) rows.now) }
{
    let mut steps = Steps::<L>::new(blank);
    place_rows(alloc, catalog, tree, path, rows, ways, &mut steps)
}

fn put_behind(found: &[TableNo], ways: &mut Vec<TableNo>) -> Result<(), NoMemory>
    ensures ok { OnOk result (ways.new.items ≡ ways.old.items ++ found.now) }
    ensures err { OnErr result (ways.new.items ≡ ways.old.items) }
{
    ways.extend_from_slice(found)?;
    Ok(())
}

/// The leaf of each row, or the first refusal; the tables on the ways of the rows are put behind the list.
pub fn leaves_and_ways(
    alloc: Global,
    catalog: &Catalog,
    tree: &Tree,
    path: &[PathPart],
    rows: &[Row],
    ways: &mut Vec<TableNo>,
) -> Result<LeafList, Refusal>
    requires fits { All (CanBePlaced (seen tree.now) path.now) rows.now }
    requires path { All (IsPartNumbered (length catalog.now.tables)) path.now }
    requires known { IsNumbered (length catalog.now.tables) (seen tree.now) }
    ensures told { (h : History) → CatalogueStands catalog.now h → IsAnswer result (all_placed (tables_of h) (seen tree.now) path.now rows.now) }
    ensures ways { IfOk result (λ leaves. All (HasWay (seen tree.now)) leaves) }
    ensures tables { OnOk result (ways.new.items ≡ ways.old.items ++ ways_below (seen tree.now) rows.now) }
    ensures err { OnErr result (ways.new.items ≡ ways.old.items) }
{
    let mut found = Vec::new(alloc);
    let leaves = place_from::<Brand>(alloc, catalog, tree, path, rows, &mut found, Blank::new(1))?;
    put_behind(&found, ways)?;
    Ok(leaves)
}

/// The leaf of each row, or the first refusal.
pub fn leaves_of(
    alloc: Global,
    catalog: &Catalog,
    tree: &Tree,
    path: &[PathPart],
    rows: &[Row],
) -> Result<LeafList, Refusal>
    requires fits { All (CanBePlaced (seen tree.now) path.now) rows.now }
    requires path { All (IsPartNumbered (length catalog.now.tables)) path.now }
    requires known { IsNumbered (length catalog.now.tables) (seen tree.now) }
    ensures told { (h : History) → CatalogueStands catalog.now h → IsAnswer result (all_placed (tables_of h) (seen tree.now) path.now rows.now) }
    ensures ways { IfOk result (λ leaves. All (HasWay (seen tree.now)) leaves) }
{
    let mut ways = Vec::new(alloc);
    leaves_and_ways(alloc, catalog, tree, path, rows, &mut ways)
}
