ghost use Rattle.std.specs.Prelude.{◌≡◌, ◌<◌, ◌≤◌, ℕ, [], map, Some, None, IfOk, IfSome, length, option_copied, option_map, slice_index_or};
ghost use Rattle.std.specs.List.{last_or};
ghost use Rattle.history.specs.Transactions.{IsPast};
ghost use Rattle.history.specs.Snapshots.{TakenSnapshot};
ghost use Rattle.history.specs.Catalogue.{tables_made, entries_added, checks_kept};
ghost use Rattle.history.specs.History.{History, tx_events, catalogue_events};
ghost use Rattle.history.specs.Places.{table_at};
ghost use Rattle.history.specs.Presence.{entries_present};
ghost use Rattle.tx_table.specs.Stands.{TableStands, SnapshotStands};
ghost use Rattle.row_router.specs.Seen.{seen};
ghost use Rattle.row_router.specs.Siblings.{AreSiblings};
ghost use Rattle.row_router.specs.Histories.{tree_of, ddl_tree, above, children, parent_in};
ghost use Rattle.part_catalog.specs.Stands.{CatalogueStands};
ghost use Rattle.part_catalog.specs.Answers.{parent_told, child_told, marker_told, pending_entry, AreTogether};

use crate::below::Below;
use crate::keep::{KeptTree, grow_or_share};
use crate::names::Names;
use crate::stored::{StoredEntry, StoredTable};
use crate::{grow, see};
use history::{Check, Entry, Stamp, Table, TableShape, TxId};
use pg_values::{NoMemory, TableNo};
use row_router::Tree;
use std::alloc::Global;
use std::marker::Model;
use tx_table::{Snapshot, TxTable};

/// All tables and kept CHECKs of a run, and the entries that somebody may still see.
#[derive(Drop)]
pub struct Catalog {
    pub(crate) tables: Vec<StoredTable>,
    pub(crate) entries: Vec<StoredEntry>,
    pub(crate) checks: Vec<Check>,
    pub(crate) below: Vec<Below>,
    pub(crate) names: Names,
    pub(crate) trees: Vec<KeptTree>,
    pub(crate) added: u64,
    pub(crate) left: usize,
    pub(crate) alloc: Global,
}

impl Model for Catalog {
    ghost use Rattle.std.specs.Prelude.{All, map};
    ghost use Rattle.part_catalog.specs.Kept.{KeptCatalogue, IsKept, table_in, by_place};
    ghost use Rattle.part_catalog.specs.Groves.{IsGrownFrom};

    ghost Value = { KeptCatalogue };

    ghost view = { λ c. record { tables = c.tables.items; entries = c.entries.items; added = c.added; checks = c.checks.items } };

    ghost invariant = { λ c. IsKept c.tables.items c.entries.items c.below.items c.names × All (IsGrownFrom (map table_in c.tables.items) (by_place c.entries.items)) c.trees.items };
}

impl Catalog {
    /// No table.
    pub fn new(alloc: Global) -> Self
        ensures { CatalogueStands result [] }
    {
        Catalog {
            tables: Vec::new(alloc),
            entries: Vec::new(alloc),
            checks: Vec::new(alloc),
            below: Vec::new(alloc),
            names: Names::new(alloc),
            trees: Vec::new(alloc),
            added: 0,
            left: 0,
            alloc,
        }
    }

    /// How many tables were made, dropped ones too. Their numbers are below it.
    pub fn table_count(&self) -> u32
        ensures kept { result ≡ length self.now.tables }
        ensures is { (h : History) → CatalogueStands self.now h → result ≡ length (tables_made (catalogue_events h)) }
    {
        self.tables.len() as u32
    }

    /// A table as it was made, by its number: its name, its columns, and whether it holds rows or is
    /// a level of partitions.
    pub fn table(&self, table: TableNo) -> &Table
        requires { table.number < length self.now.tables }
        ensures { (h : History) → CatalogueStands self.now h → result.now ≡ table_at (tables_made (catalogue_events h)) table.number }
    {
        &self.tables[table.number as usize].table
    }

    /// The name of a table.
    pub fn name_of(&self, table: TableNo) -> &[u8]
        requires { table.number < length self.now.tables }
        ensures { (h : History) → CatalogueStands self.now h → result.now ≡ (table_at (tables_made (catalogue_events h)) table.number).name }
    {
        self.table(table).name.as_bytes()
    }

    /// How many CHECKs were kept, for all tables.
    pub fn check_count(&self) -> usize
        ensures kept { result ≡ length self.now.checks }
        ensures is { (h : History) → CatalogueStands self.now h → result ≡ length (checks_kept (catalogue_events h)) }
    {
        self.checks.len()
    }

    /// How many entries were added, those that are gone too.
    pub fn entry_count(&self) -> u64
        ensures kept { result ≡ self.now.added }
        ensures is { (h : History) → CatalogueStands self.now h → result ≡ length (entries_added (catalogue_events h)) }
    {
        self.added
    }

    /// The tree of a table that a statement of the session reads under its snapshot: the table with
    /// its present entries, but for the pending ones whose mark the snapshot sees, and so on below.
    pub fn tree(
        &self,
        alloc: Global,
        txs: &TxTable,
        table: TableNo,
        session: u32,
        snap: &Snapshot,
    ) -> Result<Tree, NoMemory>
        requires known { table.number < length self.now.tables }
        requires siblings { AreTogether txs.now self.now session }
        ensures { IfOk result (λ t. (h : History) (s : TakenSnapshot) → TableStands txs.now h → CatalogueStands self.now h →
            IsPast s.past (tx_events h) → SnapshotStands snap.now s → seen t ≡ tree_of h session table.number s) }
    {
        let flags = see::shown_flags(alloc, &self.entries, txs, session, snap)?;
        let tree = grow_or_share(
            alloc,
            &self.tables,
            &self.entries,
            &self.below,
            &flags,
            table,
            &self.trees,
        )?;
        Ok(tree)
    }

    /// The table with all its present entries, pending ones too, and so on below.
    pub fn ddl_tree(
        &self,
        alloc: Global,
        txs: &TxTable,
        table: TableNo,
        session: u32,
    ) -> Result<Tree, NoMemory>
        requires known { table.number < length self.now.tables }
        requires siblings { AreTogether txs.now self.now session }
        ensures { IfOk result (λ t. (h : History) → TableStands txs.now h → CatalogueStands self.now h →
            seen t ≡ ddl_tree h session table.number) }
    {
        if let TableShape::Leaf(leaf) = &self.tables[table.number as usize].table.shape {
            let tree = grow::leaf(alloc, &self.tables, table, *leaf)?;
            return Ok(tree);
        }
        let flags = see::present_flags(alloc, &self.entries, txs, session)?;
        let tree = grow_or_share(
            alloc,
            &self.tables,
            &self.entries,
            &self.below,
            &flags,
            table,
            &self.trees,
        )?;
        Ok(tree)
    }

    /// The entries below a table that are present for the session, pending ones too, in plain order.
    pub fn partitions(
        &self,
        alloc: Global,
        txs: &TxTable,
        table: TableNo,
        session: u32,
    ) -> Result<Vec<&Entry>, NoMemory>
        requires { table.number < length self.now.tables }
        ensures { IfOk result (λ found. (h : History) → TableStands txs.now h → CatalogueStands self.now h →
            map (λ e. e.now) found.items ≡ children (entries_present h session) table.number) }
    {
        let numbers = self.below[table.number as usize].numbers();
        let found = see::present_among(alloc, &self.entries, numbers, txs, session)?;
        Ok(found)
    }

    /// The last of the entries below a table, in plain order, that is present for the session.
    pub fn last_partition(&self, txs: &TxTable, table: TableNo, session: u32) -> Option<&Entry>
        requires { table.number < length self.now.tables }
        ensures { (h : History) → TableStands txs.now h → CatalogueStands self.now h →
            option_copied result ≡ last_or None (children (entries_present h session) table.number) }
    {
        let numbers = self.below[table.number as usize].numbers();
        see::last_present(&self.entries, numbers, txs, session)
    }

    /// The table of which a table is a partition.
    pub fn parent_of(&self, txs: &TxTable, session: u32, child: TableNo) -> Option<TableNo>
        ensures { (h : History) → TableStands txs.now h → CatalogueStands self.now h →
            result ≡ parent_told (above (entries_present h session) child.number) }
    {
        match see::above(&self.entries, txs, session, child.number) {
            Some(x) => Some(x.entry.parent),
            None => None,
        }
    }

    /// The pending partition of a table.
    pub fn pending_of(&self, txs: &TxTable, session: u32, parent: TableNo) -> Option<TableNo>
        ensures { (h : History) → TableStands txs.now h → CatalogueStands self.now h →
            result ≡ child_told (pending_entry h session parent.number) }
    {
        match see::pending(&self.entries, txs, session, parent.number) {
            Some(x) => Some(x.entry.child),
            None => None,
        }
    }

    /// The transaction that marked the pending partition of a table.
    pub fn mark_of(&self, txs: &TxTable, session: u32, parent: TableNo) -> Option<TxId>
        ensures { (h : History) → TableStands txs.now h → CatalogueStands self.now h →
            result ≡ marker_told h (pending_entry h session parent.number) }
    {
        match see::pending(&self.entries, txs, session, parent.number) {
            Some(x) => by_of(x.marked),
            None => None,
        }
    }
}

fn by_of(stamp: Option<Stamp>) -> Option<TxId>
    ensures { result ≡ option_map (λ s. s.by) stamp }
{
    match stamp {
        Some(stamp) => Some(stamp.by),
        None => None,
    }
}
