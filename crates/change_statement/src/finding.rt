ghost use Rattle.std.specs.Prelude.{◌≡◌, ◌<◌, [], ◌∷◌, ◌++◌, All, IfOk, OnOk, map, length};
ghost use Rattle.history.specs.History.{History, seen};
ghost use Rattle.history.specs.Dead.{MayRead};
ghost use Rattle.history.specs.Snapshots.{TakenSnapshot};
ghost use Rattle.tx_table.specs.Stands.{TableStands, SnapshotStands};
ghost use Rattle.row_store.specs.Stands.{StoreStands, shown_version};
ghost use Rattle.row_store.specs.Told.{shown_row};
ghost use Rattle.cond_logic.specs.Asked.{maybe_cond};
ghost use Rattle.change_statement.specs.Targets.{IsTargetThere, taken, targets, targets_in};

use crate::condition::takes;
use cond_logic::Cond;
use pg_values::{LeafId, NoMemory};
use row_store::{RowStore, Scan, SeenRow, Trail, TrailRefused};
use statement_steps::TargetRow;
use std::alloc::Global;
use tx_table::{Snapshot, TxTable};

// The rows of a leaf that the snapshot sees, lent.
fn scan_leaf<'s>(
    alloc: Global,
    store: &'s RowStore,
    txs: &'s TxTable,
    leaf: LeafId,
    snap: &'s Snapshot,
) -> Result<Scan<'s>, NoMemory>
    requires { leaf.number < store.now.leaves }
    ensures rows { IfOk result (λ scan. (h : History) (s : TakenSnapshot) → TableStands txs.now h → StoreStands store.now h →
        MayRead s h → SnapshotStands snap.now s → scan ≡ map shown_version (seen h leaf.number s)) }
    ensures ids { IfOk result (λ scan. All (λ r. r.0.number < length store.now.stored) scan) }
{
    let mut trail = Trail::new(alloc)?;
    match trail.reserve(1) {
        Ok(()) => Ok(store.scan(txs, leaf, snap, &mut trail)),
        Err(TrailRefused::NoMemory) => Err(NoMemory),
        Err(TrailRefused::Full) => unreachable!(),
    }
}

fn push_taken(
    leaf: LeafId,
    seen: SeenRow<'_>,
    condition: &Option<Cond>,
    found: &mut Vec<TargetRow>,
) -> Result<(), NoMemory>
    ensures { OnOk result (found.new.items ≡ found.old.items ++ taken (maybe_cond condition.now) leaf (shown_row seen.entry ∷ [])) }
{
    if takes(condition, seen.row) {
        found.push(TargetRow { leaf, id: seen.id })?;
    }
    Ok(())
}

// Those rows of a leaf that the condition takes, behind the others.
fn push_all_taken(
    leaf: LeafId,
    scan: Scan<'_>,
    condition: &Option<Cond>,
    found: &mut Vec<TargetRow>,
) -> Result<(), NoMemory>
    ensures { OnOk result (found.new.items ≡ found.old.items ++ taken (maybe_cond condition.now) leaf scan.entry) }
{
    for seen in scan {
        push_taken(leaf, seen, condition, found)?;
    }
    Ok(())
}

fn push_targets(
    alloc: Global,
    store: &RowStore,
    txs: &TxTable,
    leaf: LeafId,
    snap: &Snapshot,
    condition: &Option<Cond>,
    found: &mut Vec<TargetRow>,
) -> Result<(), NoMemory>
    requires { leaf.number < store.now.leaves }
    ensures are { OnOk result ((h : History) (s : TakenSnapshot) → TableStands txs.now h → StoreStands store.now h →
        MayRead s h → SnapshotStands snap.now s → found.new.items ≡ found.old.items ++ targets_in h s (maybe_cond condition.now) leaf) }
    ensures there { OnOk result (All (IsTargetThere store.now) found.old.items → All (IsTargetThere store.now) found.new.items) }
{
    let scan = scan_leaf(alloc, store, txs, leaf, snap)?;
    push_all_taken(leaf, scan, condition, found)
}

/// The rows of the leaves that the snapshot sees and that the condition takes: leaf after leaf, and in
/// each in order of birth.
pub fn find_targets(
    alloc: Global,
    store: &RowStore,
    txs: &TxTable,
    leaves: &[LeafId],
    snap: &Snapshot,
    condition: &Option<Cond>,
) -> Result<Vec<TargetRow>, NoMemory>
    requires { All (λ l. l.number < store.now.leaves) leaves.now }
    ensures are { IfOk result (λ found. (h : History) (s : TakenSnapshot) → TableStands txs.now h → StoreStands store.now h →
        MayRead s h → SnapshotStands snap.now s → found.items ≡ targets h s (maybe_cond condition.now) leaves.now) }
    ensures there { IfOk result (λ found. All (IsTargetThere store.now) found.items) }
{
    let mut found = Vec::new(alloc);
    for leaf in leaves {
        push_targets(alloc, store, txs, *leaf, snap, condition, &mut found)?;
    }
    Ok(found)
}
