//! What the limits ask, and the place of a further entry.

ghost use Rattle.std.specs.Prelude.{◌≡◌, ◌<◌, ◌≤◌, nat_le, length};
ghost use Rattle.std.specs.List.{All, position_or_len};
ghost use Rattle.history.specs.History.{History};
ghost use Rattle.history.specs.Presence.{entries_present};
ghost use Rattle.tx_table.specs.Stands.{TableStands};
ghost use Rattle.row_router.specs.Histories.{above};
ghost use Rattle.part_catalog.specs.Stands.{CatalogueStands};
ghost use Rattle.part_catalog.specs.Full.{partitions, tables_above};
ghost use Rattle.part_catalog.specs.Ordered.{AreInOrder, CanPlace, stands_behind};

use crate::stored::StoredEntry;
use crate::{Catalog, PARTITION_LIMIT, see};
use bound_forms::comes_after;
use history::Entry;
use pg_values::{TableNo, ValueKey};
use tx_table::TxTable;

impl Catalog {
    /// Whether a table has as many partitions as it may have. Few entries are not gone through.
    pub(crate) fn is_full(&self, txs: &TxTable, table: TableNo, session: u32) -> bool
        requires { table.number < length self.now.tables }
        ensures { (h : History) → TableStands txs.now h → CatalogueStands self.now h →
            result ≡ nat_le 1024 (partitions h session table.number) }
    {
        let numbers = self.below[table.number as usize].numbers();
        if numbers.len() < PARTITION_LIMIT {
            return false;
        }
        see::count_present(&self.entries, numbers, txs, session) >= PARTITION_LIMIT
    }

    /// How many tables stand on the path from a table upwards, up to eight.
    #[tactic(auto, unfolding(crate::specs::Full::tables_above))]
    pub fn levels_up(&self, txs: &TxTable, table: TableNo, session: u32) -> usize
        ensures is { (h : History) → TableStands txs.now h → CatalogueStands self.now h →
            result ≡ tables_above (above (entries_present h session)) table.number }
        ensures few { result ≤ 8 }
    {
        let mut count = 0;
        let mut next = Some(table);
        for step in 0..8_usize {
            let Some(table) = next else {
                return count;
            };
            count += 1;
            next = self.parent_of(txs, session, table);
        }
        count
    }
}

/// The place of a further entry below its table, whose entries stand in plain order: before the first
/// entry whose bound comes after its own. It is looked for from behind.
pub fn place_in(entries: &[StoredEntry], numbers: &[u64], entry: &Entry) -> usize
    requires orders { All (CanPlace entries.now entry.now) numbers.now }
    requires sorted { AreInOrder entries.now numbers.now }
    ensures is { result ≡ position_or_len (stands_behind entries.now entry.now.bound) numbers.now }
    ensures within { result ≤ length numbers.now }
{
    for i in (0..numbers.len()).rev() {
        let x = &entries[numbers[i] as usize];
        if !comes_after(&ValueKey, &x.entry.bound, &entry.bound) {
            return i + 1;
        }
    }
    0
}
