//! What is there for a session, and what a snapshot is shown.

ghost use Rattle.std.specs.Prelude.{◌≡◌, ◌<◌, ◌==◌, ◌&&◌, ℕ, true, false, None, All, map, filter, IfOk, length, option_map, option_copied, find, slice_index_or};
ghost use Rattle.std.specs.List.{last_or};
ghost use Rattle.history.specs.Transactions.{IsPast};
ghost use Rattle.history.specs.Snapshots.{TakenSnapshot};
ghost use Rattle.history.specs.Catalogue.{standing};
ghost use Rattle.history.specs.History.{History, tx_events};
ghost use Rattle.history.specs.Presence as presence;
ghost use Rattle.tx_table.specs.Stands.{TableStands, SnapshotStands};
ghost use Rattle.part_catalog.specs.Kept.{no_entry, entry_in, stored_at};
ghost use Rattle.part_catalog.specs.Stands.{there_by, present_by, pending_by, shown_by, above_by, pending_below};

use crate::stored::{StoredEntry, StoredTable};
use history::{Entry, Fate, Stamp, TxId};
use pg_values::NoMemory;
use std::alloc::Global;
use tx_table::{Snapshot, TxTable};

// Whether the transaction is the open one.
pub fn is_own(current: Option<TxId>, tx: TxId) -> bool
    ensures { result ≡ presence.is_own (option_map (λ t. t.number) current) tx.number }
{
    match current {
        Some(own) => own.number == tx.number,
        None => false,
    }
}

// Whether what the transaction did counts for the session.
pub fn counts(txs: &TxTable, session: u32, tx: TxId) -> bool
    ensures { (h : History) → TableStands txs.now h → result ≡ presence.counts (tx_events h) session tx.number }
{
    txs.fate(tx) == Fate::Committed || is_own(txs.open_of(session), tx)
}

// Whether a drop, an end or a mark counts for the session.
fn stamp_counts(txs: &TxTable, session: u32, stamp: Option<Stamp>) -> bool
    ensures { (h : History) → TableStands txs.now h → result ≡ presence.stamp_counts (tx_events h) session (standing (tx_events h) stamp) }
{
    match stamp {
        Some(stamp) => txs.fate(stamp.by) != Fate::Aborted && counts(txs, session, stamp.by),
        None => false,
    }
}

pub fn is_there(txs: &TxTable, session: u32, x: &StoredTable) -> bool
    ensures { (h : History) → TableStands txs.now h → result ≡ there_by (tx_events h) session x.now }
{
    counts(txs, session, x.table.by) && !stamp_counts(txs, session, x.dropped)
}

pub fn is_present(txs: &TxTable, session: u32, x: &StoredEntry) -> bool
    ensures { (h : History) → TableStands txs.now h → result ≡ present_by (tx_events h) session x.now }
{
    counts(txs, session, x.entry.by) && !stamp_counts(txs, session, x.ended)
}

pub fn is_pending(txs: &TxTable, session: u32, x: &StoredEntry) -> bool
    ensures { (h : History) → TableStands txs.now h → result ≡ pending_by (tx_events h) session x.now }
{
    stamp_counts(txs, session, x.marked) && is_present(txs, session, x)
}

// Whether the snapshot sees a mark.
fn sees_stamp(txs: &TxTable, snap: &Snapshot, stamp: Option<Stamp>) -> bool
    ensures { (h : History) (s : TakenSnapshot) → TableStands txs.now h → IsPast s.past (tx_events h) → SnapshotStands snap.now s →
        result ≡ presence.sees_stamp (tx_events h) s (standing (tx_events h) stamp) }
{
    match stamp {
        Some(stamp) => txs.fate(stamp.by) != Fate::Aborted && txs.sees(snap, stamp.by, stamp.cmd),
        None => false,
    }
}

pub fn is_shown(txs: &TxTable, session: u32, snap: &Snapshot, x: &StoredEntry) -> bool
    ensures part { (h : History) → TableStands txs.now h → result ≡ true → present_by (tx_events h) session x.now ≡ true }
    ensures is { (h : History) (s : TakenSnapshot) → TableStands txs.now h → IsPast s.past (tx_events h) → SnapshotStands snap.now s →
        result ≡ shown_by (tx_events h) session s x.now }
{
    is_present(txs, session, x) && !sees_stamp(txs, snap, x.marked)
}

/// For each entry, whether it is present for the session.
pub fn present_flags(
    alloc: Global,
    entries: &[StoredEntry],
    txs: &TxTable,
    session: u32,
) -> Result<Vec<bool>, NoMemory>
    ensures count { IfOk result (λ flags. length flags.items ≡ length entries.now) }
    ensures is { IfOk result (λ flags. (h : History) → TableStands txs.now h →
        flags.items ≡ map (present_by (tx_events h) session) entries.now) }
{
    let mut flags = Vec::with_capacity(alloc, entries.len())?;
    for x in entries {
        flags.push(is_present(txs, session, x))?;
    }
    Ok(flags)
}

/// For each entry, whether it is shown to the session's snapshot.
pub fn shown_flags(
    alloc: Global,
    entries: &[StoredEntry],
    txs: &TxTable,
    session: u32,
    snap: &Snapshot,
) -> Result<Vec<bool>, NoMemory>
    ensures count { IfOk result (λ flags. length flags.items ≡ length entries.now) }
    ensures part { IfOk result (λ flags. (h : History) → TableStands txs.now h → (k : ℕ) →
        slice_index_or flags.items k false ≡ true → present_by (tx_events h) session (slice_index_or entries.now k no_entry) ≡ true) }
    ensures is { IfOk result (λ flags. (h : History) (s : TakenSnapshot) → TableStands txs.now h → IsPast s.past (tx_events h) → SnapshotStands snap.now s →
        flags.items ≡ map (shown_by (tx_events h) session s) entries.now) }
{
    let mut flags = Vec::with_capacity(alloc, entries.len())?;
    for x in entries {
        flags.push(is_shown(txs, session, snap, x))?;
    }
    Ok(flags)
}

/// The entries of these numbers that are present for the session.
pub fn present_among<'c>(
    alloc: Global,
    entries: &'c [StoredEntry],
    numbers: &[u64],
    txs: &TxTable,
    session: u32,
) -> Result<Vec<&'c Entry>, NoMemory>
    requires { All (λ k. k < length entries.now) numbers.now }
    ensures { IfOk result (λ found. (h : History) → TableStands txs.now h →
        map (λ e. e.now) found.items ≡ map entry_in (filter (present_by (tx_events h) session) (map (stored_at entries.now) numbers.now))) }
{
    let mut found = Vec::with_capacity(alloc, numbers.len())?;
    for number in numbers {
        let x = &entries[*number as usize];
        if is_present(txs, session, x) {
            found.push(&x.entry)?;
        }
    }
    Ok(found)
}

/// How many of the entries of these numbers are present for the session.
pub fn count_present(entries: &[StoredEntry], numbers: &[u64], txs: &TxTable, session: u32) -> usize
    requires { All (λ k. k < length entries.now) numbers.now }
    ensures { (h : History) → TableStands txs.now h →
        result ≡ length (filter (present_by (tx_events h) session) (map (stored_at entries.now) numbers.now)) }
{
    let mut count = 0;
    for number in numbers {
        if is_present(txs, session, &entries[*number as usize]) {
            count += 1;
        }
    }
    count
}

/// The last entry of these numbers that is present for the session.
pub fn last_present<'c>(
    entries: &'c [StoredEntry],
    numbers: &[u64],
    txs: &TxTable,
    session: u32,
) -> Option<&'c Entry>
    requires { All (λ k. k < length entries.now) numbers.now }
    ensures { (h : History) → TableStands txs.now h →
        option_copied result ≡ last_or None (map entry_in (filter (present_by (tx_events h) session) (map (stored_at entries.now) numbers.now))) }
{
    for i in (0..numbers.len()).rev() {
        let x = &entries[numbers[i] as usize];
        if is_present(txs, session, x) {
            return Some(&x.entry);
        }
    }
    None
}

/// The first present entry by which the table is a partition.
pub fn above<'c>(
    entries: &'c [StoredEntry],
    txs: &TxTable,
    session: u32,
    child: u32,
) -> Option<&'c StoredEntry>
    ensures { (h : History) → TableStands txs.now h →
        option_copied result ≡ find (above_by (tx_events h) session child) entries.now }
{
    for x in entries {
        if x.entry.child.number == child && is_present(txs, session, x) {
            return Some(x);
        }
    }
    None
}

/// The first pending entry below the table.
pub fn pending<'c>(
    entries: &'c [StoredEntry],
    txs: &TxTable,
    session: u32,
    parent: u32,
) -> Option<&'c StoredEntry>
    ensures { (h : History) → TableStands txs.now h →
        option_copied result ≡ find (pending_below (tx_events h) session parent) entries.now }
{
    for x in entries {
        if x.entry.parent.number == parent && is_pending(txs, session, x) {
            return Some(x);
        }
    }
    None
}
