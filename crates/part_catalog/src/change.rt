//! Tables that are dropped, and entries that are ended or marked pending.

ghost use Rattle.std.specs.Prelude.{◌≡◌, ◌<◌, ◌∷◌, Some, None, IfSome, length, position};
ghost use Rattle.history.specs.Transactions.{session_of};
ghost use Rattle.history.specs.Catalogue.{TableDropped, EntryEnded, EntryMarked, drops, counted_of};
ghost use Rattle.history.specs.History.{History, CatalogueChange, tx_events, catalogue_events};
ghost use Rattle.history.specs.declared.catalogue.Entry.{Entry as OneEntry};
ghost use Rattle.tx_table.specs.Stands.{TableStands};
ghost use Rattle.part_catalog.specs.Answers.{entry_between, IsStanding, IsUnmarked};
ghost use Rattle.part_catalog.specs.Stands.{CatalogueStands, between_by};

use crate::stored::StoredEntry;
use crate::{Catalog, see};
use history::{Stamp, TxId};
use pg_values::TableNo;
use tx_table::TxTable;

impl Catalog {
    /// Drops a table, of which no drop counts.
    pub fn end_table(&mut self, txs: &TxTable, table: TableNo, by: TxId, cmd: u32)
        requires known { table.number < length self.old.tables }
        requires standing { (h : History) → TableStands txs.now h → CatalogueStands self.old h →
            counted_of (tx_events h) (drops (catalogue_events h)) table.number ≡ None }
        ensures added { (h : History) → TableStands txs.now h → CatalogueStands self.old h →
            CatalogueStands self.new (CatalogueChange (TableDropped table.number (record { by = by; cmd = cmd })) ∷ h) }
    {
        let _ = txs;
        let stored = &mut self.tables[table.number as usize];
        stored.dropped = Some(Stamp { by, cmd });
    }

    /// Ends the entry by which a table is a partition of another for the session of the transaction,
    /// and of which no end counts.
    pub fn end_entry(&mut self, txs: &TxTable, parent: TableNo, child: TableNo, by: TxId, cmd: u32)
        requires { (h : History) → TableStands txs.now h → CatalogueStands self.old h →
            IsStanding h (session_of (tx_events h) by.number) parent.number child.number }
        ensures added { (h : History) (e : OneEntry) → TableStands txs.now h → CatalogueStands self.old h →
            entry_between h (session_of (tx_events h) by.number) parent.number child.number ≡ Some e →
            CatalogueStands self.new (CatalogueChange (EntryEnded e.id.number (record { by = by; cmd = cmd })) ∷ h) }
    {
        let session = txs.session_of(by);
        if let Some(at) = find_between(&self.entries, txs, session, parent, child) {
            let stored = &mut self.entries[at];
            stored.ended = Some(Stamp { by, cmd });
        }
    }

    /// Marks the entry by which a table is a partition of another as pending. No mark of it counts.
    pub fn mark_pending(
        &mut self,
        txs: &TxTable,
        parent: TableNo,
        child: TableNo,
        by: TxId,
        cmd: u32,
    )
        requires { (h : History) → TableStands txs.now h → CatalogueStands self.old h →
            IsUnmarked h (session_of (tx_events h) by.number) parent.number child.number }
        ensures added { (h : History) (e : OneEntry) → TableStands txs.now h → CatalogueStands self.old h →
            entry_between h (session_of (tx_events h) by.number) parent.number child.number ≡ Some e →
            CatalogueStands self.new (CatalogueChange (EntryMarked e.id.number (record { by = by; cmd = cmd })) ∷ h) }
    {
        let session = txs.session_of(by);
        if let Some(at) = find_between(&self.entries, txs, session, parent, child) {
            let stored = &mut self.entries[at];
            stored.marked = Some(Stamp { by, cmd });
        }
    }
}

// Where the present entry stands by which the one table is a partition of the other.
fn find_between(
    entries: &[StoredEntry],
    txs: &TxTable,
    session: u32,
    parent: TableNo,
    child: TableNo,
) -> Option<usize>
    ensures is { (h : History) → TableStands txs.now h →
        result ≡ position (between_by (tx_events h) session parent.number child.number) entries.now }
    ensures within { IfSome result (λ at. at < length entries.now) }
{
    for (at, x) in entries.iter().enumerate() {
        if is_between(txs, session, parent, child, x) {
            return Some(at);
        }
    }
    None
}

fn is_between(txs: &TxTable, session: u32, parent: TableNo, child: TableNo, x: &StoredEntry) -> bool
    ensures { (h : History) → TableStands txs.now h →
        result ≡ between_by (tx_events h) session parent.number child.number x.now }
{
    x.entry.parent.number == parent.number
        && x.entry.child.number == child.number
        && see::is_present(txs, session, x)
}
