//! Tables, entries and CHECKs that are added.

ghost use Rattle.std.specs.Prelude.{◌≡◌, ◌<◌, ℕ, ◌∷◌, IfOk, OnOk, OnErr, MatchResult, length, slice_index_or};
ghost use Rattle.history.specs.Catalogue.{TableMade, EntryAdded, CheckKept};
ghost use Rattle.history.specs.History.{History, CatalogueChange, tx_events};
ghost use Rattle.history.specs.Places.{IsCatalogueSound, KeysLieIn};
ghost use Rattle.history.specs.Transactions.{session_of};
ghost use Rattle.tx_table.specs.Stands.{TableStands};
ghost use Rattle.part_catalog.specs.declared.TheConstants.{ENTRY_LIMIT};
ghost use Rattle.part_catalog.specs.Kept.{with_table, with_entry, next_entry, fresh, no_entry, IsBetween};
ghost use Rattle.part_catalog.specs.Stands.{CatalogueStands};
ghost use Rattle.part_catalog.specs.Full.{TableRefused, EntryRefused, HasPlace, MayAdd};
ghost use Rattle.part_catalog.specs.Ordered.{HaveAnOrder};

use crate::below::Below;
use crate::keep::forget;
use crate::room::place_in;
use crate::stored::{StoredEntry, StoredTable};
use crate::{Catalog, CatalogRefused, ENTRY_LIMIT, LEVEL_LIMIT, NewTable, TABLE_LIMIT};
use bound_forms::Bound;
use history::{Check, Entry, EntryId, KeptCheck, Table, TxId};
use pg_values::{NoMemory, TableNo, Which};
use row_router::height_up_to;
use tx_table::TxTable;

impl Catalog {
    /// Makes a table, under the next number. Its name is one that no table has which is there for the
    /// session of the transaction, and that `name_taken_by` tells nobody of.
    pub fn add_table(&mut self, t: NewTable, by: TxId, cmd: u32) -> Result<TableNo, CatalogRefused>
        requires { KeysLieIn t.columns t.shape }
        ensures added { IfOk result (λ no. (h : History) → CatalogueStands self.old h → CatalogueStands self.new
            (CatalogueChange (TableMade (record { id = no; name = t.name; columns = t.columns; shape = t.shape; by = by; cmd = cmd })) ∷ h)) }
        ensures number { IfOk result (λ no. no.number ≡ length self.old.tables) }
        ensures cause { MatchResult result (λ _. length self.old.tables < 4096) (λ e. TableRefused (length self.old.tables) e) }
        ensures err { OnErr result (self.new ≡ self.old) }
    {
        if self.tables.len() >= TABLE_LIMIT {
            return Err(CatalogRefused::Full {
                which: Which::Tables,
            });
        }
        let id = TableNo {
            number: self.tables.len() as u32,
        };
        let table = Table {
            id,
            name: t.name,
            columns: t.columns,
            shape: t.shape,
            by,
            cmd,
        };
        match self.push_table(table) {
            Ok(()) => Ok(id),
            Err(NoMemory) => Err(CatalogRefused::NoMemory),
        }
    }

    fn push_table(&mut self, table: Table) -> Result<(), NoMemory>
        requires few { length self.old.tables < 4096 }
        requires numbered { table.id.number ≡ length self.old.tables }
        ensures ok { OnOk result (self.new ≡ with_table self.old table) }
        ensures err { OnErr result (self.new ≡ self.old) }
    {
        let name = Vec::from_slice(self.alloc, table.name.as_bytes())?;
        self.tables.reserve(1)?;
        self.below.reserve(1)?;
        self.names.add(name, table.id.number)?;
        let Ok(()) = self.below.push(Below::new(self.alloc)) else {
            unreachable!()
        };
        let Ok(()) = self.tables.push(StoredTable {
            table,
            dropped: None,
        })
        else {
            unreachable!()
        };
        forget(&mut self.trees);
        Ok(())
    }

    /// Adds an entry, under the next number: a table becomes a partition of another, under a bound that
    /// this one takes. The caller sees that no sibling stands in its way (`siblings_are_kept`).
    pub fn add_entry(
        &mut self,
        txs: &TxTable,
        parent: TableNo,
        child: TableNo,
        bound: Bound,
        by: TxId,
        cmd: u32,
    ) -> Result<(), CatalogRefused>
        requires { MayAdd txs.now self.old (next_entry self.old parent child bound by cmd) }
        ensures added { OnOk result ((h : History) → TableStands txs.now h → CatalogueStands self.old h → CatalogueStands self.new
            (CatalogueChange (EntryAdded (next_entry self.old parent child bound by cmd)) ∷ h)) }
        ensures cause { (h : History) → TableStands txs.now h → CatalogueStands self.old h →
            MatchResult result (λ _. HasPlace h (session_of (tx_events h) by.number) parent.number child.number)
            (λ e. EntryRefused h (session_of (tx_events h) by.number) parent.number child.number e) }
        ensures err { OnErr result (self.new ≡ self.old) }
    {
        let session = txs.session_of(by);
        let below = match self.ddl_tree(self.alloc, txs, child, session) {
            Ok(tree) => tree,
            Err(NoMemory) => return Err(CatalogRefused::NoMemory),
        };
        if self.added >= ENTRY_LIMIT {
            return Err(CatalogRefused::Full {
                which: Which::Partitions,
            });
        }
        if self.is_full(txs, parent, session) {
            return Err(CatalogRefused::Full {
                which: Which::Partitions,
            });
        }
        let levels = self.levels_up(txs, parent, session);
        if levels + height_up_to(&below, LEVEL_LIMIT + 1) > LEVEL_LIMIT {
            return Err(CatalogRefused::Full {
                which: Which::Levels,
            });
        }
        let id = EntryId { number: self.added };
        let entry = Entry {
            id,
            parent,
            child,
            bound,
            by,
            cmd,
        };
        match self.push_entry(entry) {
            Ok(()) => {
                self.forget_gone(txs);
                Ok(())
            }
            Err(NoMemory) => Err(CatalogRefused::NoMemory),
        }
    }

    fn push_entry(&mut self, entry: Entry) -> Result<(), NoMemory>
        requires few { self.old.added < ENTRY_LIMIT }
        requires between { IsBetween self.old.tables (fresh entry) }
        requires beside { (k : ℕ) → k < length self.old.entries → (slice_index_or self.old.entries k no_entry).entry.parent ≡ entry.parent →
            HaveAnOrder (slice_index_or self.old.entries k no_entry).entry.bound entry.bound }
        ensures ok { OnOk result (self.new ≡ with_entry self.old entry) }
        ensures err { OnErr result (self.new ≡ self.old) }
    {
        let place = self.entries.len() as u64;
        let parent = entry.parent.number as usize;
        let at = place_in(&self.entries, self.below[parent].numbers(), &entry);
        self.entries.reserve(1)?;
        let list = &mut self.below[parent];
        list.insert(at, place)?;
        let Ok(()) = self.entries.push(StoredEntry {
            entry,
            ended: None,
            marked: None,
        })
        else {
            unreachable!()
        };
        self.added += 1;
        forget(&mut self.trees);
        Ok(())
    }

    /// Keeps a CHECK for a table.
    pub fn keep_check(
        &mut self,
        table: TableNo,
        kept: KeptCheck,
        by: TxId,
        cmd: u32,
    ) -> Result<(), NoMemory>
        requires { (h : History) → CatalogueStands self.old h → IsCatalogueSound (CheckKept (record { table = table; kept = kept; by = by; cmd = cmd })) h }
        ensures added { OnOk result ((h : History) → CatalogueStands self.old h → CatalogueStands self.new
            (CatalogueChange (CheckKept (record { table = table; kept = kept; by = by; cmd = cmd })) ∷ h)) }
        ensures err { OnErr result (self.new ≡ self.old) }
    {
        self.checks.push(Check {
            table,
            kept,
            by,
            cmd,
        })?;
        Ok(())
    }
}
