//! Trees that are kept for the statements that come.

ghost use Rattle.std.specs.Prelude.{◌≡◌, ◌<◌, true, List, [], All, IfOk, IfSome, length, map, filter};
ghost use Rattle.history.specs.declared.catalogue.Table.{Table as OneTable};
ghost use Rattle.history.specs.declared.catalogue.Entry.{Entry as OneEntry};
ghost use Rattle.history.specs.Transactions.{IsPast};
ghost use Rattle.history.specs.Snapshots.{TakenSnapshot};
ghost use Rattle.history.specs.History.{History, tx_events};
ghost use Rattle.tx_table.specs.Stands.{TableStands, SnapshotStands};
ghost use Rattle.row_router.specs.Seen.{seen};
ghost use Rattle.row_router.specs.Histories.{bound_of, children, tree_within, tree_of};
ghost use Rattle.part_catalog.specs.Answers.{AreTogether};
ghost use Rattle.part_catalog.specs.Kept.{table_in, by_place};
ghost use Rattle.part_catalog.specs.Stands.{CatalogueStands, is_flagged};
ghost use Rattle.part_catalog.specs.Groves.{IsGrove, IsLevel, IsGrownFrom, grown_for};

use crate::below::Below;
use crate::grow::{grow, set_below};
use crate::stored::{StoredEntry, StoredTable};
use crate::{Catalog, see};
use history::TableShape;
use part_bounds::{BoundSet, copy_set};
use pg_values::{NoMemory, TableNo, ValueKey};
use row_router::{Shape, Tree};
use std::alloc::Global;
use tx_table::{Snapshot, TxTable};

// How many trees are kept at most.
const KEPT_LIMIT: usize = 16;

/// The tree of a table, as it was grown for the entries of these flags.
#[derive(Drop)]
pub struct KeptTree {
    pub table: TableNo,
    pub flags: Vec<bool>,
    pub tree: Tree,
}

fn are_same(a: &[bool], b: &[bool]) -> bool
    ensures { result ≡ true → a.now ≡ b.now }
{
    a == b
}

fn is_for(kept: &KeptTree, table: TableNo, flags: &[bool]) -> bool
    ensures { result ≡ true → (kept.now.table.number ≡ table.number) × (kept.now.flags.items ≡ flags.now) }
{
    kept.table.number == table.number && are_same(&kept.flags, flags)
}

// The tree of the table that was grown for these flags.
fn find_kept<'k>(kept: &'k [KeptTree], table: TableNo, flags: &[bool]) -> Option<&'k Tree>
    ensures { IfSome result (λ tree. (tables : List OneTable) (entries : List OneEntry) → All (IsGrownFrom tables entries) kept.now →
        seen tree.now ≡ grown_for tables entries flags.now table.number) }
{
    for k in kept {
        if is_for(k, table, flags) {
            return Some(&k.tree);
        }
    }
    None
}

/// The tree of a table with the entries of these flags: one that is kept is shared, else it is grown.
pub fn grow_or_share(
    alloc: Global,
    tables: &[StoredTable],
    entries: &[StoredEntry],
    below: &[Below],
    flags: &[bool],
    table: TableNo,
    kept: &[KeptTree],
) -> Result<Tree, NoMemory>
    requires grove { IsGrove tables.now entries.now below.now flags.now }
    requires known { table.number < length tables.now }
    requires kept { All (IsGrownFrom (map table_in tables.now) (by_place entries.now)) kept.now }
    ensures { IfOk result (λ t. seen t ≡ tree_within 7 (map table_in tables.now)
        (filter (is_flagged flags.now) (by_place entries.now)) table.number table.number) }
{
    match find_kept(kept, table, flags) {
        Some(tree) => {
            let shared = tree.share(alloc)?;
            Ok(shared)
        }
        None => {
            let grown = grow(alloc, tables, entries, below, flags, table, table, 7)?;
            Ok(grown)
        }
    }
}

/// The bounds of the shown entries below a table: those of its kept tree are shared, else a set is made.
pub fn share_set(
    alloc: Global,
    _tables: &[StoredTable],
    entries: &[StoredEntry],
    below: &Below,
    flags: &[bool],
    table: TableNo,
    kept: &[KeptTree],
) -> Result<BoundSet<ValueKey>, NoMemory>
    requires level { IsLevel entries.now below.now flags.now table.number }
    requires kept { All (IsGrownFrom (map table_in _tables.now) (by_place entries.now)) kept.now }
    ensures { IfOk result (λ set. set ≡ map bound_of (filter (is_flagged flags.now) (children (by_place entries.now) table.number))) }
{
    if let Some(tree) = find_kept(kept, table, flags) {
        if let Shape::Level(_, bounds, _) = &tree.shape {
            let shared = copy_set(bounds)?;
            return Ok(shared);
        }
    }
    let made = set_below(alloc, entries, below, flags, table)?;
    Ok(made)
}

/// No tree is kept any more.
pub fn forget(kept: &mut Vec<KeptTree>)
    ensures { kept.new.items ≡ [] }
{
    kept.clear();
}

// Where there are too many, the others are dropped.
fn put(kept: &mut Vec<KeptTree>, new: KeptTree) -> Result<(), NoMemory>
    ensures { (tables : List OneTable) (entries : List OneEntry) → All (IsGrownFrom tables entries) kept.old.items → IsGrownFrom tables entries new →
        All (IsGrownFrom tables entries) kept.new.items }
{
    if kept.len() >= KEPT_LIMIT {
        forget(kept);
        kept.push(new)?;
        return Ok(());
    }
    kept.push(new)?;
    Ok(())
}

impl Catalog {
    /// The tree of a table that a statement of the session reads under its snapshot (as `tree` answers it), which is kept
    /// for the statements that come where the table is partitioned. Nothing else changes.
    pub fn keep_tree(
        &mut self,
        txs: &TxTable,
        table: TableNo,
        session: u32,
        snap: &Snapshot,
    ) -> Result<Tree, NoMemory>
        requires known { table.number < length self.old.tables }
        requires siblings { AreTogether txs.now self.old session }
        ensures tree { IfOk result (λ t. (h : History) (s : TakenSnapshot) → TableStands txs.now h → CatalogueStands self.old h →
            IsPast s.past (tx_events h) → SnapshotStands snap.now s → seen t ≡ tree_of h session table.number s) }
        ensures same { self.new ≡ self.old }
    {
        if let TableShape::Leaf(_) = self.tables[table.number as usize].table.shape {
            return self.tree(self.alloc, txs, table, session, snap);
        }
        let flags = see::shown_flags(self.alloc, &self.entries, txs, session, snap)?;
        if let Some(kept) = find_kept(&self.trees, table, &flags) {
            let shared = kept.share(self.alloc)?;
            return Ok(shared);
        }
        let tree = grow(
            self.alloc,
            &self.tables,
            &self.entries,
            &self.below,
            &flags,
            table,
            table,
            7,
        )?;
        let shared = tree.share(self.alloc)?;
        put(&mut self.trees, KeptTree { table, flags, tree })?;
        Ok(shared)
    }
}
