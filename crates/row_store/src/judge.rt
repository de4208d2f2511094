ghost use Rattle.std.specs.Prelude.{◌≡◌, ◌<◌, ◌==◌, ◌&&◌, not, ℕ, true, false, Some, None, MatchOption, MatchResult, IfOk, IfSome, All, length, map, slice_index_or};
ghost use Rattle.std.specs.List.{Contains};
ghost use Rattle.pg_values.specs.Sets.{has};
ghost use Rattle.history.specs.declared.version.Version.{Version};
ghost use Rattle.row_store.specs.declared.stored.Stored.{Stored};
ghost use Rattle.row_store.specs.Kept.{AreBelow, AreListed, no_id, stored_at, version_of};
ghost use Rattle.row_store.specs.Judged.{IsFound, is_live_by, is_held_shown, refuses_by, all_listed_in, refusing_by, seeing_by};

use crate::leaf::Leaf;
use crate::scan::{is_shown, version_at};
use crate::slot::{ShortId, Slot};
use history::{Fate, TxId};
use pg_values::{LeafId, Row, SessionSet};
use tx_table::TxTable;

/// A test of rows.
pub trait RowTest {
    ghost use Rattle.std.specs.Prelude.{List, Bool};
    ghost use Rattle.pg_values.specs.declared.value.Value.{Value as OneValue};

    /// What the test needs of a row.
    ghost suits: { Self → List OneValue → Type 0 };

    /// The row breaks what is tested.
    ghost broken: { Self → List OneValue → Bool };

    fn breaks(&self, row: &Row) -> bool
        requires { suits self.now row.now }
        ensures { result ≡ broken self.now row.now };
}

/// What is found of the rows that break a test: no session may come to see one; or the row that
/// refuses; or other sessions may, as long as they hold their snapshots.
#[derive(Debug, Drop)]
pub enum Verdict<'s> {
    Clean,
    Violator(&'s Row),
    Seen(SessionSet),
}

// Judges the versions of the leaves, leaf by leaf: the first that breaks the test and refuses, or the
// other sessions whose held snapshots see one that breaks it.
pub(crate) fn judge_leaves<'s, T: RowTest>(
    versions: &'s [Slot],
    lists: &[Leaf],
    leaves: &[LeafId],
    txs: &TxTable,
    session: u32,
    me: TxId,
    test: &T,
) -> Result<SessionSet, &'s Row>
    requires known { All (λ leaf. leaf.number < length lists.now) leaves.now }
    requires listed { AreListed versions.now lists.now }
    requires suited { (v : Version) → Contains (map version_of versions.now) v → Contains leaves.now v.leaf → T.suits test.now v.row }
    ensures refusing { MatchResult result (λ _. refusing_by txs.now session me.number (T.broken test.now) (all_listed_in versions.now lists.now leaves.now) ≡ None)
        (λ row. (x : Stored) × (refusing_by txs.now session me.number (T.broken test.now) (all_listed_in versions.now lists.now leaves.now) ≡ Some x) × (row.now ≡ x.version.row)) }
    ensures seen { IfOk result (λ others. (r : ℕ) → has others r ≡ seeing_by txs.now session (T.broken test.now) (all_listed_in versions.now lists.now leaves.now) r) }
{
    let mut others = SessionSet::empty();
    for leaf in leaves {
        let ids = lists[leaf.number as usize].ids();
        match judge_versions(versions, ids, txs, session, me, test) {
            Ok(seen) => others = others.union(seen),
            Err(row) => return Err(row),
        }
    }
    Ok(others)
}

// The verdict where no row refuses.
pub(crate) fn verdict_of<'s>(others: SessionSet) -> Verdict<'s>
    ensures { IsFound others result }
{
    if others.is_empty() {
        Verdict::Clean
    } else {
        Verdict::Seen(others)
    }
}

// Judges the versions one after the other: the first that breaks the test and refuses, or the other
// sessions whose held snapshots see one that breaks it.
pub(crate) fn judge_versions<'s, T: RowTest>(
    versions: &'s [Slot],
    ids: &[ShortId],
    txs: &TxTable,
    session: u32,
    me: TxId,
    test: &T,
) -> Result<SessionSet, &'s Row>
    requires below { AreBelow ids.now versions.now }
    requires suited { (k : ℕ) → k < length ids.now → T.suits test.now (stored_at versions.now (slice_index_or ids.now k no_id)).version.row }
    ensures refusing { MatchResult result (λ _. refusing_by txs.now session me.number (T.broken test.now) (map (stored_at versions.now) ids.now) ≡ None)
        (λ row. (x : Stored) × (refusing_by txs.now session me.number (T.broken test.now) (map (stored_at versions.now) ids.now) ≡ Some x) × (row.now ≡ x.version.row)) }
    ensures seen { IfOk result (λ others. (r : ℕ) → has others r ≡ seeing_by txs.now session (T.broken test.now) (map (stored_at versions.now) ids.now) r) }
{
    let mut seen = SessionSet::empty();
    for id in ids {
        let stored = version_at(versions, *id);
        match judge_version(stored, txs, session, me, test) {
            Some(others) => seen = seen.union(others),
            None => return Err(stored.row()),
        }
    }
    Ok(seen)
}

// None where the version breaks the test and refuses, else the other sessions that see it break it.
fn judge_version<T: RowTest>(
    stored: &Slot,
    txs: &TxTable,
    session: u32,
    me: TxId,
    test: &T,
) -> Option<SessionSet>
    requires { T.suits test.now stored.now.version.row }
    ensures refuses { MatchOption result ((T.broken test.now stored.now.version.row && refuses_by txs.now session me.number stored.now) ≡ true)
        (λ _. (T.broken test.now stored.now.version.row && refuses_by txs.now session me.number stored.now) ≡ false) }
    ensures seen { IfSome result (λ others. (r : ℕ) → has others r ≡ (not (r == session) && (T.broken test.now stored.now.version.row && is_held_shown txs.now r stored.now))) }
{
    if !test.breaks(stored.row()) {
        Some(SessionSet::empty())
    } else if is_live(txs, me, stored) || is_shown_to(txs, session, stored) {
        None
    } else {
        Some(others_shown(txs, session, stored))
    }
}

// Whether the version is live for a scan by the transaction.
fn is_live(txs: &TxTable, me: TxId, stored: &Slot) -> bool
    ensures { result ≡ is_live_by txs.now me.number stored.now }
{
    let by = stored.by();
    if txs.fate(by) != Fate::Committed && by != me {
        return false;
    }
    match stored.ended() {
        Some(end) => match txs.fate(end.by) {
            Fate::Committed => false,
            Fate::Running => end.by != me || by != me,
            Fate::Aborted => true,
        },
        None => true,
    }
}

// Whether the session holds a snapshot that shows the version.
fn is_shown_to(txs: &TxTable, session: u32, stored: &Slot) -> bool
    ensures { result ≡ is_held_shown txs.now session stored.now }
{
    match txs.held(session) {
        Some(snap) => is_shown(txs, snap, stored),
        None => false,
    }
}

// The other sessions that hold a snapshot that shows the version.
fn others_shown(txs: &TxTable, session: u32, stored: &Slot) -> SessionSet
    ensures { (r : ℕ) → has result r ≡ (not (r == session) && is_held_shown txs.now r stored.now) }
{
    let mut others = SessionSet::empty();
    for r in 0..txs.sessions() {
        others = others.union(other_shown(txs, session, r, stored));
    }
    others
}

// The session, where it is another one and holds a snapshot that shows the version.
fn other_shown(txs: &TxTable, session: u32, r: u32, stored: &Slot) -> SessionSet
    requires { r < 128 }
    ensures { (k : ℕ) → has result k ≡ ((k == r) && (not (r == session) && is_held_shown txs.now r stored.now)) }
{
    if r != session && is_shown_to(txs, r, stored) {
        SessionSet::empty().with(r)
    } else {
        SessionSet::empty()
    }
}
