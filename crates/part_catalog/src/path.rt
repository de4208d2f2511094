//! The way from a table upwards.

ghost use Rattle.std.specs.Prelude.{◌≡◌, ◌<◌, All, map, filter, length, IfOk, IfSome, option_map};
ghost use Rattle.std.specs.List.{position_or_len};
ghost use Rattle.history.specs.History.{History, tx_events};
ghost use Rattle.history.specs.Presence as presence;
ghost use Rattle.history.specs.Presence.{is_check_of};
ghost use Rattle.tx_table.specs.Stands.{TableStands};
ghost use Rattle.row_router.specs.Histories as spec;
ghost use Rattle.row_router.specs.Histories.{above, kept_of, path_of};
ghost use Rattle.part_catalog.specs.Answers.{parent_told, without_place, AreTogether};
ghost use Rattle.part_catalog.specs.Groves.{IsGrove, IsGrownFrom};
ghost use Rattle.part_catalog.specs.Kept.{table_in, by_place, stored_at, with_place};
ghost use Rattle.part_catalog.specs.Stands.{CatalogueStands, is_flagged, flagged_above, is_number, flagged_number};

use crate::below::Below;
use crate::keep::{KeptTree, share_set};
use crate::stored::{StoredEntry, StoredTable};
use crate::{Catalog, see};
use bound_forms::copy_bound;
use history::{Check, KeptCheck, TableShape};
use pg_values::{NoMemory, TableNo};
use row_router::{KeptChecks, PathPart, Place, copy_level};
use std::alloc::Global;
use tx_table::TxTable;

impl Catalog {
    /// A table and those above it, upwards: the CHECKs kept for each, and its place where it is a
    /// partition. Pending entries count.
    #[tactic(auto, unfolding(row_router::specs::Histories::path_of))]
    pub fn path(
        &self,
        alloc: Global,
        txs: &TxTable,
        table: TableNo,
        session: u32,
    ) -> Result<Vec<PathPart>, NoMemory>
        requires known { table.number < length self.now.tables }
        requires siblings { AreTogether txs.now self.now session }
        ensures { IfOk result (λ parts. (h : History) → TableStands txs.now h → CatalogueStands self.now h →
            parts.items ≡ path_of h session table.number) }
    {
        let flags = see::present_flags(alloc, &self.entries, txs, session)?;
        let mut parts = Vec::new(alloc);
        let mut next = Some(table);
        for step in 0..8_usize {
            let Some(table) = next else {
                return Ok(parts);
            };
            let checks = checks_of(alloc, &self.checks, txs, session, table)?;
            let place = place_of(
                alloc,
                &self.tables,
                &self.entries,
                &self.below,
                &flags,
                table,
                &self.trees,
            )?;
            parts.push(PathPart {
                table,
                checks,
                place,
            })?;
            next = parent_in(&self.entries, &flags, table);
        }
        Ok(parts)
    }

    /// A table and those above it, upwards, as far as rows that come from above are asked of them: the CHECKs kept for
    /// each, and no place. Pending entries count.
    #[tactic(auto, using(crate::proofs::Upwards::path_checked))]
    pub fn check_path(
        &self,
        alloc: Global,
        txs: &TxTable,
        table: TableNo,
        session: u32,
    ) -> Result<Vec<PathPart>, NoMemory>
        ensures { IfOk result (λ parts. (h : History) → TableStands txs.now h → CatalogueStands self.now h →
            parts.items ≡ map without_place (path_of h session table.number)) }
    {
        let mut parts = Vec::new(alloc);
        let mut next = Some(table);
        for step in 0..8_usize {
            let Some(table) = next else {
                return Ok(parts);
            };
            let checks = checks_of(alloc, &self.checks, txs, session, table)?;
            parts.push(PathPart {
                table,
                checks,
                place: None,
            })?;
            next = self.parent_of(txs, session, table);
        }
        Ok(parts)
    }

    /// The CHECKs kept for a table that count for the session.
    pub fn kept_checks(
        &self,
        alloc: Global,
        txs: &TxTable,
        table: TableNo,
        session: u32,
    ) -> Result<KeptChecks, NoMemory>
        ensures { IfOk result (λ kept. (h : History) → TableStands txs.now h → CatalogueStands self.now h →
            kept ≡ map kept_of (presence.checks_of h session table.number)) }
    {
        let checks = checks_of(alloc, &self.checks, txs, session, table)?;
        Ok(checks)
    }
}

fn copy_kept(alloc: Global, kept: &KeptCheck) -> Result<KeptCheck, NoMemory>
    ensures { IfOk result (λ copy. copy ≡ kept.now) }
{
    let level = copy_level(alloc, &kept.level)?;
    let bound = copy_bound(alloc, &kept.bound)?;
    Ok(KeptCheck { level, bound })
}

// The CHECKs of a table that count for the session.
fn checks_of(
    alloc: Global,
    checks: &[Check],
    txs: &TxTable,
    session: u32,
    table: TableNo,
) -> Result<KeptChecks, NoMemory>
    ensures { IfOk result (λ kept. (h : History) → TableStands txs.now h →
        kept ≡ map kept_of (filter (is_check_of (tx_events h) session table.number) checks.now)) }
{
    let mut found = KeptChecks::new(alloc);
    for check in checks {
        if check.table.number == table.number && see::counts(txs, session, check.by) {
            found.push(copy_kept(alloc, &check.kept)?)?;
        }
    }
    Ok(found)
}

// Where the first shown entry stands by which the table is a partition.
fn above_shown(entries: &[StoredEntry], flags: &[bool], table: TableNo) -> Option<usize>
    ensures is { option_map (λ k. with_place k (stored_at entries.now k).entry) result ≡ above (filter (is_flagged flags.now) (by_place entries.now)) table.number }
    ensures within { IfSome result (λ k. k < length entries.now) }
{
    for (at, x) in entries.iter().enumerate() {
        if is_above(flags, at, table, x) {
            return Some(at);
        }
    }
    None
}

fn is_above(flags: &[bool], at: usize, table: TableNo, x: &StoredEntry) -> bool
    ensures { result ≡ flagged_above flags.now table.number (with_place at x.now.entry) }
{
    x.entry.child.number == table.number && is_set(flags, at as u64)
}

pub fn parent_in(entries: &[StoredEntry], flags: &[bool], table: TableNo) -> Option<TableNo>
    ensures { result ≡ parent_told (above (filter (is_flagged flags.now) (by_place entries.now)) table.number) }
{
    match above_shown(entries, flags, table) {
        Some(at) => Some(entries[at].entry.parent),
        None => None,
    }
}

// Which of the shown entries of a list it is: so many stand before it.
fn place_among(numbers: &[u64], flags: &[bool], number: u64) -> usize
    ensures { result ≡ position_or_len (is_number number) (filter (flagged_number flags.now) numbers.now) }
{
    let mut at = 0;
    for n in numbers {
        if is_set(flags, *n) {
            if *n == number {
                return at;
            }
            at += 1;
        }
    }
    at
}

pub fn is_set(flags: &[bool], number: u64) -> bool
    ensures { result ≡ flagged_number flags.now number }
{
    match flags.get(number as usize) {
        Some(flag) => *flag,
        None => false,
    }
}

// The place of a table as a partition.
fn place_of(
    alloc: Global,
    tables: &[StoredTable],
    entries: &[StoredEntry],
    below: &[Below],
    flags: &[bool],
    table: TableNo,
    kept: &[KeptTree],
) -> Result<Option<Place>, NoMemory>
    requires grove { IsGrove tables.now entries.now below.now flags.now }
    requires kept { All (IsGrownFrom (map table_in tables.now) (by_place entries.now)) kept.now }
    ensures { IfOk result (λ place. place ≡ spec.place_of (map table_in tables.now) (filter (is_flagged flags.now) (by_place entries.now))
        (above (filter (is_flagged flags.now) (by_place entries.now)) table.number)) }
{
    let Some(at) = above_shown(entries, flags, table) else {
        return Ok(None);
    };
    let parent = entries[at].entry.parent;
    match &tables[parent.number as usize].table.shape {
        TableShape::Leaf(_) => Ok(None),
        TableShape::Level(level) => {
            let level = copy_level(alloc, level)?;
            let list = &below[parent.number as usize];
            let bounds = share_set(alloc, tables, entries, list, flags, parent, kept)?;
            let child = place_among(list.numbers(), flags, at as u64);
            Ok(Some(Place {
                level,
                bounds,
                child,
            }))
        }
    }
}
