ghost use Rattle.std.specs.Prelude.{◌≡◌, ◌<◌, ◌≤◌, [], ◌∷◌, true, IfSome, MatchOption, length};
ghost use Rattle.std.specs.Iterator.{YieldsFirstBy, item_count};
ghost use Rattle.row_store.specs.Told.{shown_row};
ghost use Rattle.row_store.specs.Kept.{AreBelow, stored_at};
ghost use Rattle.row_store.specs.Stands.{sees_end_by, shows_by, rows_left, shown_stored};
ghost use Rattle.tx_table.specs.Stands.{sees_by};

use crate::slot::{ShortId, Slot};
use history::{End, Fate, TxId};
use pg_values::{Row, RowId};
use std::marker::Model;
use tx_table::{Snapshot, TxTable};

/// A row that a scan lends, and the number of its version.
#[derive(Clone, Copy, Debug)]
pub struct SeenRow<'s> {
    pub id: RowId,
    pub row: &'s Row,
}

/// The transaction and the command that made a version.
#[derive(Clone, Copy, Debug)]
pub(crate) struct Maker {
    by: TxId,
    cmd: u32,
}

/// The rows of a scan that are left, in order of birth. Contracts see their list. Rows that follow one
/// another mostly have one maker, so the last one that the snapshot was found to see is kept.
#[derive(Drop)]
pub struct Scan<'s> {
    pub(crate) ids: &'s [ShortId],
    pub(crate) versions: &'s [Slot],
    pub(crate) txs: &'s TxTable,
    pub(crate) snap: &'s Snapshot,
    pub(crate) seen: Option<Maker>,
}

impl<'s> Model for Scan<'s> {
    ghost use Rattle.std.specs.Prelude.{◌≡◌, List, true, IfSome};
    ghost use Rattle.pg_values.specs.declared.value.Value.{Value as OneValue};
    ghost use Rattle.pg_values.specs.declared.ids.RowId.{RowId};
    ghost use Rattle.tx_table.specs.Stands.{sees_by};
    ghost use Rattle.row_store.specs.Kept.{AreBelow};
    ghost use Rattle.row_store.specs.Stands.{rows_left};

    ghost Value = { List (RowId × List OneValue) };

    ghost view = { λ s. rows_left s.txs.now s.snap.now s.versions.now s.ids.now };

    ghost invariant = { λ s. AreBelow s.ids.now s.versions.now × IfSome s.seen (λ maker. sees_by s.txs.now s.snap.now maker.by.number maker.cmd ≡ true) };
}

impl<'s> Scan<'s> {
    /// So many rows are left at most.
    pub fn rows_at_most(&self) -> usize
        ensures { length self.now ≤ result }
    {
        self.ids.len()
    }
}

impl<'s> Iterator for Scan<'s> {
    type Item = SeenRow<'s>;

    ghost next_gives = { YieldsFirstBy shown_row (λ rest. rest) };

    ghost remaining = { item_count (λ rest. rest) };

    #[inline(always)]
    fn next(&mut self) -> Option<SeenRow<'s>> {
        let step = next_shown(self.txs, self.snap, self.versions, self.ids, self.seen);
        self.ids = step.rest;
        self.seen = step.seen;
        step.found
    }
}

// The first row that is shown, the numbers behind it, and a maker that is seen.
#[derive(Drop)]
struct Step<'s> {
    found: Option<SeenRow<'s>>,
    rest: &'s [ShortId],
    seen: Option<Maker>,
}

#[inline(always)]
fn next_shown<'s>(
    txs: &TxTable,
    snap: &Snapshot,
    versions: &'s [Slot],
    ids: &'s [ShortId],
    seen: Option<Maker>,
) -> Step<'s>
    requires below { AreBelow ids.now versions.now }
    requires seen { IfSome seen (λ maker. sees_by txs.now snap.now maker.by.number maker.cmd ≡ true) }
    ensures below { AreBelow result.rest.now versions.now }
    ensures seen { IfSome result.seen (λ maker. sees_by txs.now snap.now maker.by.number maker.cmd ≡ true) }
    ensures found { MatchOption result.found ((rows_left txs.now snap.now versions.now ids.now ≡ []) × (rows_left txs.now snap.now versions.now result.rest.now ≡ []))
        (λ row. rows_left txs.now snap.now versions.now ids.now ≡ shown_row row ∷ rows_left txs.now snap.now versions.now result.rest.now) }
{
    let mut rest = ids;
    let mut seen = seen;
    while let Some((first, others)) = rest.split_first() {
        rest = others;
        let stored = version_at(versions, *first);
        if sees_birth(txs, snap, seen, stored) {
            seen = Some(Maker {
                by: stored.by(),
                cmd: stored.cmd(),
            });
            if !sees_last_end(txs, snap, stored) {
                return Step {
                    found: Some(lend(stored)),
                    rest,
                    seen,
                };
            }
        }
    }
    Step {
        found: None,
        rest,
        seen,
    }
}

// Whether the snapshot sees the birth of the version. A maker that it is known to see is not asked about.
#[inline]
fn sees_birth(txs: &TxTable, snap: &Snapshot, seen: Option<Maker>, stored: &Slot) -> bool
    requires { IfSome seen (λ maker. sees_by txs.now snap.now maker.by.number maker.cmd ≡ true) }
    ensures { result ≡ sees_by txs.now snap.now stored.now.version.by.number stored.now.version.cmd }
{
    match seen {
        Some(maker) if maker.by == stored.by() && maker.cmd == stored.cmd() => true,
        _ => sees_maker(txs, snap, stored),
    }
}

#[inline(never)]
fn sees_maker(txs: &TxTable, snap: &Snapshot, stored: &Slot) -> bool
    ensures { result ≡ sees_by txs.now snap.now stored.now.version.by.number stored.now.version.cmd }
{
    txs.sees(snap, stored.by(), stored.cmd())
}

// Whether the snapshot sees the last end of the version. Most versions have none.
#[inline]
fn sees_last_end(txs: &TxTable, snap: &Snapshot, stored: &Slot) -> bool
    ensures { result ≡ sees_end_by txs.now snap.now stored.now.ended }
{
    match stored.ended() {
        Some(_) => sees_kept_end(txs, snap, stored),
        None => false,
    }
}

#[inline(never)]
fn sees_kept_end(txs: &TxTable, snap: &Snapshot, stored: &Slot) -> bool
    ensures { result ≡ sees_end_by txs.now snap.now stored.now.ended }
{
    sees_end(txs, snap, stored.ended())
}

#[inline]
pub(crate) fn version_at(versions: &[Slot], id: ShortId) -> &Slot
    requires { id.number < length versions.now }
    ensures { result.now ≡ stored_at versions.now id }
{
    &versions[id.long().number as usize]
}

#[inline]
fn lend(stored: &Slot) -> SeenRow<'_>
    ensures { shown_row result ≡ shown_stored stored.now }
{
    SeenRow {
        id: stored.id(),
        row: stored.row(),
    }
}

// Whether a scan with the snapshot shows the version.
#[inline]
pub(crate) fn is_shown(txs: &TxTable, snap: &Snapshot, stored: &Slot) -> bool
    ensures { result ≡ shows_by txs.now snap.now stored.now }
{
    txs.sees(snap, stored.by(), stored.cmd()) && !sees_end(txs, snap, stored.ended())
}

// Whether the snapshot sees the end, where it counts.
#[inline]
pub(crate) fn sees_end(txs: &TxTable, snap: &Snapshot, ended: Option<End>) -> bool
    ensures { result ≡ sees_end_by txs.now snap.now ended }
{
    match ended {
        Some(end) => match txs.fate(end.by) {
            Fate::Aborted => false,
            _ => txs.sees(snap, end.by, end.cmd),
        },
        None => false,
    }
}
