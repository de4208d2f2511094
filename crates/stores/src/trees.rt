ghost use Rattle.std.specs.Prelude.{◌≡◌, ◌<◌, IfOk, length};
ghost use Rattle.history.specs.Transactions.{IsPast};
ghost use Rattle.history.specs.Snapshots.{TakenSnapshot};
ghost use Rattle.history.specs.History.{History, tx_events};
ghost use Rattle.tx_table.specs.Stands.{SnapshotStands};
ghost use Rattle.row_router.specs.Seen.{seen};
ghost use Rattle.row_router.specs.Histories.{tree_of, ddl_tree, path_of};
ghost use Rattle.stores.specs.Stand.{AllStand, IsSound};

use crate::{Stores, trees_are_together};
use pg_values::{NoMemory, TableNo};
use row_router::{PathPart, Tree};
use std::alloc::Global;
use tx_table::Snapshot;

impl Stores {
    /// The tree of a table that a statement of the session reads under its snapshot.
    pub fn tree(
        &self,
        alloc: Global,
        table: TableNo,
        session: u32,
        snap: &Snapshot,
    ) -> Result<Tree, NoMemory>
        requires known { table.number < length self.now.catalog.tables }
        requires sound { IsSound self.now }
        ensures { IfOk result (λ t. (h : History) (s : TakenSnapshot) → AllStand self.now h → IsPast s.past (tx_events h) →
            SnapshotStands snap.now s → seen t ≡ tree_of h session table.number s) }
    {
        trees_are_together();
        self.catalog.tree(alloc, &self.txs, table, session, snap)
    }

    /// The table with all its present entries, pending ones too, and so on below.
    pub fn ddl_tree(&self, alloc: Global, table: TableNo, session: u32) -> Result<Tree, NoMemory>
        requires known { table.number < length self.now.catalog.tables }
        requires sound { IsSound self.now }
        ensures { IfOk result (λ t. (h : History) → AllStand self.now h → seen t ≡ ddl_tree h session table.number) }
    {
        trees_are_together();
        self.catalog.ddl_tree(alloc, &self.txs, table, session)
    }

    /// The tree of a table that a statement of the session reads under its snapshot (as `tree` answers it), which is kept
    /// for the statements that come where the table is partitioned. Nothing else changes.
    pub fn keep_tree(
        &mut self,
        table: TableNo,
        session: u32,
        snap: &Snapshot,
    ) -> Result<Tree, NoMemory>
        requires known { table.number < length self.old.catalog.tables }
        requires sound { IsSound self.old }
        ensures tree { IfOk result (λ t. (h : History) (s : TakenSnapshot) → AllStand self.old h → IsPast s.past (tx_events h) →
            SnapshotStands snap.now s → seen t ≡ tree_of h session table.number s) }
        ensures same { self.new ≡ self.old }
    {
        trees_are_together();
        self.catalog.keep_tree(&self.txs, table, session, snap)
    }

    /// A table and those above it, upwards, with the CHECKs kept for each and its place where it is a
    /// partition.
    pub fn path(
        &self,
        alloc: Global,
        table: TableNo,
        session: u32,
    ) -> Result<Vec<PathPart>, NoMemory>
        requires known { table.number < length self.now.catalog.tables }
        requires sound { IsSound self.now }
        ensures { IfOk result (λ parts. (h : History) → AllStand self.now h → parts.items ≡ path_of h session table.number) }
    {
        trees_are_together();
        self.catalog.path(alloc, &self.txs, table, session)
    }
}
