//! Rows into the store.

ghost use Rattle.std.specs.Prelude.{◌≡◌, ◌<◌, [], ◌∷◌, All, IfOk, find, length};
ghost use Rattle.pg_values.specs.Refusals.{IsAnswer, or_first};
ghost use Rattle.history.specs.Rows.{RowBorn};
ghost use Rattle.history.specs.Catalogue.{tables_made};
ghost use Rattle.history.specs.History.{History, RowChange, catalogue_events};
ghost use Rattle.tx_table.specs.Stands.{TableStands, IsOpen};
ghost use Rattle.row_store.specs.Stands.{StoreStands, newborn};
ghost use Rattle.part_catalog.specs.Stands.{CatalogueStands};
ghost use Rattle.row_change.specs.Places.{ArePlaces};
ghost use Rattle.row_change.specs.Storing as storing;
ghost use Rattle.row_change.specs.Storing.{all_stored, full_faults, is_into, leaf_faults, made_by, stored, FitsTargets, IsLeafKnown, IsMade, IsTargetNumbered};
ghost use Rattle.row_change.specs.Targets.{HasTarget};

use crate::Target;
use crate::by_leaf::ByLeaf;
use crate::testing::check_row;
use history::TxId;
use part_catalog::Catalog;
use pg_values::{LeafId, NoMemory, Refusal, Row};
use refusals::too_many;
use row_store::{PutCause, RowStore};
use std::alloc::Global;
use tx_table::TxTable;

// What the refusal of the store is to the statement.
pub(crate) fn refused(alloc: Global, cause: PutCause) -> Refusal
    ensures { storing.IsRefusal result cause }
{
    match cause {
        PutCause::NoMemory => Refusal::NoMemory,
        PutCause::Full { which } => match too_many(alloc, which) {
            Ok(fault) => Refusal::Sql(fault),
            Err(NoMemory) => Refusal::NoMemory,
        },
    }
}

#[tactic(auto, using(crate::proofs::Full::has_room, crate::proofs::Full::is_full))]
fn put_row(
    alloc: Global,
    txs: &TxTable,
    store: &mut RowStore,
    leaf: LeafId,
    row: Row,
    by: TxId,
    cmd: u32,
) -> Result<(), Refusal>
    requires known { leaf.number < store.old.leaves }
    requires runs { IsOpen txs.now by.number }
    ensures made { (h : History) → TableStands txs.now h → StoreStands store.old h →
        IsMade result store.new h (made_by (full_faults h row) (RowChange (RowBorn (newborn h leaf row by cmd)) ∷ [])) }
    ensures leaves { store.new.leaves ≡ store.old.leaves }
{
    match store.put(txs, leaf, row, by, cmd) {
        Ok(()) => Ok(()),
        Err(back) => Err(refused(alloc, back.cause)),
    }
}

// Of each leaf the place of its target.
fn places_of(alloc: Global, targets: &[Target]) -> Result<ByLeaf<usize>, NoMemory>
    ensures { IfOk result (λ places. ArePlaces places targets.now) }
{
    let mut places = ByLeaf::new(alloc);
    for place in 0..targets.len() {
        places.note(targets[place].leaf, place)?;
    }
    Ok(places)
}

/// The tests of a row that goes into the leaf, as its target says.
pub fn check_leaf(
    alloc: Global,
    catalog: &Catalog,
    targets: &[Target],
    leaf: LeafId,
    row: &Row,
) -> Result<(), Refusal>
    requires fits { FitsTargets targets.now row.now }
    requires known { All (IsTargetNumbered (length catalog.now.tables)) targets.now }
    ensures { (h : History) → CatalogueStands catalog.now h →
        IsAnswer result (or_first (leaf_faults (tables_made (catalogue_events h)) (find (is_into leaf) targets.now) row.now) tt) }
{
    for target in targets {
        if target.leaf.number == leaf.number {
            return check_row(alloc, catalog, target, row);
        }
    }
    Ok(())
}

// The same where the places of the targets are known.
#[tactic(auto, using(crate::proofs::Places::target_there, crate::proofs::Places::no_target_there))]
fn check_placed(
    alloc: Global,
    catalog: &Catalog,
    targets: &[Target],
    places: &ByLeaf<usize>,
    leaf: LeafId,
    row: &Row,
) -> Result<(), Refusal>
    requires fits { FitsTargets targets.now row.now }
    requires known { All (IsTargetNumbered (length catalog.now.tables)) targets.now }
    requires places { ArePlaces places.now targets.now }
    ensures { (h : History) → CatalogueStands catalog.now h →
        IsAnswer result (or_first (leaf_faults (tables_made (catalogue_events h)) (find (is_into leaf) targets.now) row.now) tt) }
{
    match places.of(leaf) {
        Some(place) => check_row(alloc, catalog, &targets[place], row),
        None => Ok(()),
    }
}

fn store_row(
    alloc: Global,
    catalog: &Catalog,
    txs: &TxTable,
    store: &mut RowStore,
    targets: &[Target],
    places: &ByLeaf<usize>,
    leaf: LeafId,
    row: Row,
    by: TxId,
    cmd: u32,
) -> Result<(), Refusal>
    requires fits { FitsTargets targets.now row }
    requires targets { All (IsTargetNumbered (length catalog.now.tables)) targets.now }
    requires places { ArePlaces places.now targets.now }
    requires leaf { leaf.number < store.old.leaves }
    requires runs { IsOpen txs.now by.number }
    ensures made { (h : History) → TableStands txs.now h → CatalogueStands catalog.now h → StoreStands store.old h →
        IsMade result store.new h (stored h (leaf_faults (tables_made (catalogue_events h)) (find (is_into leaf) targets.now) row) leaf row by cmd) }
    ensures leaves { store.new.leaves ≡ store.old.leaves }
{
    check_placed(alloc, catalog, targets, places, leaf, &row)?;
    put_row(alloc, txs, store, leaf, row, by, cmd)
}

/// Stores each row in its leaf, made by a transaction that runs. The targets are those of all leaves: each row is
/// tested as its leaf's target says, and needs room in the store, 54000. A refusal ends it, and leaves the rows
/// before it stored.
pub fn store_rows(
    alloc: Global,
    catalog: &Catalog,
    txs: &TxTable,
    store: &mut RowStore,
    targets: &[Target],
    leaves: &[LeafId],
    rows: Vec<Row>,
    by: TxId,
    cmd: u32,
) -> Result<(), Refusal>
    requires fits { All (FitsTargets targets.now) rows.items }
    requires targets { All (IsTargetNumbered (length catalog.now.tables)) targets.now }
    requires leaves { All (IsLeafKnown store.old.leaves) leaves.now }
    requires told { All (HasTarget targets.now) leaves.now }
    requires runs { IsOpen txs.now by.number }
    ensures made { (h : History) → TableStands txs.now h → CatalogueStands catalog.now h → StoreStands store.old h →
        IsMade result store.new h (all_stored targets.now by cmd h leaves.now rows.items) }
    ensures leaves { store.new.leaves ≡ store.old.leaves }
{
    let places = places_of(alloc, targets)?;
    let mut left = leaves;
    for row in rows {
        match left.split_first() {
            None => return Ok(()),
            Some((leaf, others)) => {
                store_row(
                    alloc, catalog, txs, store, targets, &places, *leaf, row, by, cmd,
                )?;
                left = others;
            }
        }
    }
    Ok(())
}
