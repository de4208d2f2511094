//! Entries that nobody can see any more.

ghost use Rattle.std.specs.Prelude.{◌≡◌, IfOk, map};
ghost use Rattle.history.specs.History.{History};
ghost use Rattle.tx_table.specs.Stands.{TableStands};
ghost use Rattle.part_catalog.specs.Moved as spec;
ghost use Rattle.part_catalog.specs.Stands.{CatalogueStands, gone_by, over_by, stays_by};

use crate::Catalog;
use crate::below::Below;
use crate::keep::forget;
use crate::stored::StoredEntry;
use history::{Fate, Stamp};
use pg_values::NoMemory;
use std::alloc::Global;
use tx_table::TxTable;

// Fewer entries are not gone through.
const FEW: usize = 8;

impl Catalog {
    /// Forgets the entries whose birth was aborted or whose end is committed, once there are more than
    /// twice as many entries as were left the last time. Where memory runs out, they are kept.
    pub(crate) fn forget_gone(&mut self, txs: &TxTable)
        ensures { (h : History) → TableStands txs.now h → CatalogueStands self.old h → CatalogueStands self.new h }
    {
        if self.entries.len() < FEW || self.entries.len() / 2 <= self.left {
            return;
        }
        let Ok(places) = places_left(self.alloc, &self.entries, txs) else {
            return;
        };
        let Ok(below) = all_moved(self.alloc, &self.below, &places) else {
            return;
        };
        self.entries.retain(|x| !is_gone(txs, x));
        self.below = below;
        forget(&mut self.trees);
        self.left = self.entries.len();
    }
}

fn is_over(txs: &TxTable, end: Option<Stamp>) -> bool
    ensures { result ≡ over_by txs.now end }
{
    match end {
        Some(stamp) => txs.fate(stamp.by) == Fate::Committed,
        None => false,
    }
}

fn is_gone(txs: &TxTable, x: &StoredEntry) -> bool
    ensures { result ≡ gone_by txs.now x.now }
{
    txs.fate(x.entry.by) == Fate::Aborted || is_over(txs, x.ended)
}

// The new place of each entry once those that are gone are taken out.
fn places_left(
    alloc: Global,
    entries: &[StoredEntry],
    txs: &TxTable,
) -> Result<Vec<Option<u64>>, NoMemory>
    ensures { IfOk result (λ places. places.items ≡ spec.places_left (stays_by txs.now) 0 entries.now) }
{
    let mut places = Vec::with_capacity(alloc, entries.len())?;
    let mut next = 0;
    for x in entries {
        if is_gone(txs, x) {
            places.push(None)?;
        } else {
            places.push(Some(next))?;
            next += 1;
        }
    }
    Ok(places)
}

fn all_moved(alloc: Global, below: &[Below], places: &[Option<u64>]) -> Result<Vec<Below>, NoMemory>
    ensures { IfOk result (λ lists. lists.items ≡ map (spec.moved places.now) below.now) }
{
    let mut lists = Vec::with_capacity(alloc, below.len())?;
    for list in below {
        lists.push(list.moved(alloc, places)?)?;
    }
    Ok(lists)
}
