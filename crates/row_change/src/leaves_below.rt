//! What a statement that names a table knows of the leaves below it.

ghost use Rattle.std.specs.Prelude.{◌≡◌, ◌<◌, Some, All, IfOk, OnOk, length};
ghost use Rattle.pg_values.specs.declared.ids.LeafId.{LeafId};
ghost use Rattle.history.specs.History.{History};
ghost use Rattle.tx_table.specs.Stands.{TableStands};
ghost use Rattle.row_router.specs.Histories.{path_of};
ghost use Rattle.row_router.specs.Seen.{seen};
ghost use Rattle.row_router.specs.Trees.{TableTree};
ghost use Rattle.part_catalog.specs.Answers.{AreTogether};
ghost use Rattle.part_catalog.specs.Stands.{CatalogueStands};
ghost use Rattle.row_change.specs.Placing.{IsNumbered};
ghost use Rattle.row_change.specs.Places.{ArePlaces};
ghost use Rattle.row_change.specs.Targets.{holder_in, AreHolders, HasChecksOf, HasTarget, HasWay, IsTargetOf};

use crate::Target;
use crate::by_leaf::ByLeaf;
use crate::holders::{Holders, holders_of};
use part_catalog::Catalog;
use pg_values::{LeafId, ListOf, NoMemory, TableNo};
use row_router::{PathPart, Tree};
use std::alloc::Global;
use tx_table::TxTable;

// The path of a table, as far as rows from above are asked of it: its CHECKs, and where none was ever kept, nothing.
fn path_for(
    alloc: Global,
    catalog: &Catalog,
    txs: &TxTable,
    session: u32,
    table: TableNo,
) -> Result<Vec<PathPart>, NoMemory>
    requires known { table.number < length catalog.now.tables }
    requires siblings { AreTogether txs.now catalog.now session }
    ensures { IfOk result (λ parts. (h : History) → TableStands txs.now h → CatalogueStands catalog.now h → HasChecksOf (path_of h session table.number) parts.items) }
{
    if catalog.check_count() == 0 {
        return Ok(Vec::new(alloc));
    }
    let path = catalog.check_path(alloc, txs, table, session)?;
    Ok(path)
}

/// The target of a leaf whose table this is.
pub fn target_of(
    alloc: Global,
    catalog: &Catalog,
    txs: &TxTable,
    session: u32,
    leaf: LeafId,
    table: TableNo,
) -> Result<Target, NoMemory>
    requires known { table.number < length catalog.now.tables }
    requires siblings { AreTogether txs.now catalog.now session }
    ensures leaf { IfOk result (λ target. target.leaf ≡ leaf) }
    ensures target { IfOk result (λ target. (tree : TableTree) (h : History) → holder_in tree leaf ≡ Some table → TableStands txs.now h → CatalogueStands catalog.now h → IsTargetOf h session tree target) }
{
    let path = path_for(alloc, catalog, txs, session, table)?;
    Ok(Target {
        leaf,
        table,
        path: ListOf::from_vec(path),
        is_named: false,
    })
}

// Puts the target of a leaf behind the others, unless it is there or no table of the tree has the leaf.
#[tactic(auto, using(crate::proofs::Targets::still_has, crate::proofs::Targets::now_has, crate::proofs::Targets::one_more_of, crate::proofs::Places::has_place, crate::proofs::TablesByLeaf::no_holder, crate::proofs::TablesByLeaf::holder_is_made, crate::proofs::Places::places_more))]
fn add_target(
    alloc: Global,
    catalog: &Catalog,
    txs: &TxTable,
    session: u32,
    _tree: &Tree,
    holders: &Holders,
    leaf: LeafId,
    targets: &mut Vec<Target>,
    places: &mut ByLeaf<usize>,
) -> Result<(), NoMemory>
    requires known { IsNumbered (length catalog.now.tables) (seen _tree.now) }
    requires siblings { AreTogether txs.now catalog.now session }
    requires holders { AreHolders holders.now (seen _tree.now) }
    requires places { ArePlaces places.old targets.old.items }
    ensures leaf { OnOk result (HasWay (seen _tree.now) leaf → HasTarget targets.new.items leaf) }
    ensures others { OnOk result ((l : LeafId) → HasTarget targets.old.items l → HasTarget targets.new.items l) }
    ensures targets { OnOk result ((h : History) → TableStands txs.now h → CatalogueStands catalog.now h →
        All (IsTargetOf h session (seen _tree.now)) targets.old.items → All (IsTargetOf h session (seen _tree.now)) targets.new.items) }
    ensures places { OnOk result (ArePlaces places.new targets.new.items) }
{
    match places.of(leaf) {
        Some(_) => Ok(()),
        None => match holders.of(leaf) {
            None => Ok(()),
            Some(table) => {
                let target = target_of(alloc, catalog, txs, session, leaf, table)?;
                places.note(leaf, targets.len())?;
                targets.push(target)?;
                Ok(())
            }
        },
    }
}

/// The targets of the leaves that tables of the tree have, each leaf's once. The tree is that of a table which
/// the statement names.
pub fn leaf_targets(
    alloc: Global,
    catalog: &Catalog,
    txs: &TxTable,
    session: u32,
    tree: &Tree,
    leaves: &[LeafId],
) -> Result<Vec<Target>, NoMemory>
    requires known { IsNumbered (length catalog.now.tables) (seen tree.now) }
    requires siblings { AreTogether txs.now catalog.now session }
    ensures each { IfOk result (λ targets. All (λ leaf. HasWay (seen tree.now) leaf → HasTarget targets.items leaf) leaves.now) }
    ensures targets { IfOk result (λ targets. (h : History) → TableStands txs.now h → CatalogueStands catalog.now h → All (IsTargetOf h session (seen tree.now)) targets.items) }
{
    let holders = holders_of(alloc, tree)?;
    let mut targets = Vec::new(alloc);
    let mut places = ByLeaf::new(alloc);
    for leaf in leaves {
        add_target(
            alloc,
            catalog,
            txs,
            session,
            tree,
            &holders,
            *leaf,
            &mut targets,
            &mut places,
        )?;
    }
    Ok(targets)
}
