//! Dead versions: those that nobody can see any more.

ghost use Rattle.std.specs.Prelude.{◌≡◌, None, slice_index_or};
ghost use Rattle.row_store.specs.Dead.{dead_at, dead_by, any_shown_by, over_by};
ghost use Rattle.row_store.specs.Judged.{shows_if_held};

use crate::scan::sees_end;
use crate::slot::{ShortId, Slot};
use history::{End, Fate};
use tx_table::TxTable;

/// Whether the number is that of a dead version.
pub fn is_dead_at(txs: &TxTable, versions: &[Slot], id: ShortId) -> bool
    ensures { result ≡ dead_at txs.now versions.now id }
{
    match versions.get(id.long().number as usize) {
        Some(stored) => is_dead(txs, stored),
        None => false,
    }
}

// Whether the version's birth was aborted, or its birth and its end are committed, and no snapshot that is held
// shows it.
fn is_dead(txs: &TxTable, stored: &Slot) -> bool
    ensures { result ≡ dead_by txs.now stored.now }
{
    match txs.fate(stored.by()) {
        Fate::Running => false,
        Fate::Aborted => !is_any_shown(txs, stored, None),
        Fate::Committed => {
            let ended = stored.ended();
            is_over(txs, ended) && !is_any_shown(txs, stored, ended)
        }
    }
}

fn is_over(txs: &TxTable, ended: Option<End>) -> bool
    ensures { result ≡ over_by txs.now ended }
{
    match ended {
        Some(end) => txs.fate(end.by) == Fate::Committed,
        None => false,
    }
}

// Whether some session holds a snapshot that shows the version, with that end.
fn is_any_shown(txs: &TxTable, stored: &Slot, ended: Option<End>) -> bool
    ensures { result ≡ any_shown_by txs.now (record { version = stored.now.version; ended = ended }) }
{
    for r in 0..txs.sessions() {
        if is_held_shown(txs, r, stored, ended) {
            return true;
        }
    }
    false
}

fn is_held_shown(txs: &TxTable, session: u32, stored: &Slot, ended: Option<End>) -> bool
    ensures { result ≡ shows_if_held txs.now (slice_index_or txs.now.held session None) (record { version = stored.now.version; ended = ended }) }
{
    match txs.held(session) {
        Some(snap) => txs.sees(snap, stored.by(), stored.cmd()) && !sees_end(txs, snap, ended),
        None => false,
    }
}
