//! A row version that is followed by another one.

ghost use Rattle.std.specs.Prelude.{◌≡◌, ◌≢◌, ◌<◌, true, length, OnErr};
ghost use Rattle.history.specs.History.{History};
ghost use Rattle.tx_table.specs.Stands.{TableStands, IsOpen, sees_now_by};
ghost use Rattle.row_store.specs.Kept.{stored_at};
ghost use Rattle.row_store.specs.Stands.{StoreStands, stands_kept};
ghost use Rattle.row_change.specs.Storing.{IsMade};
ghost use Rattle.row_change.specs.Succession.{succeeded, KeepsVersions};

use crate::storing::refused;
use history::TxId;
use pg_values::{LeafId, Refusal, Row, RowId};
use row_store::RowStore;
use std::alloc::Global;
use tx_table::TxTable;

// In its leaf.
fn replace_row(
    alloc: Global,
    txs: &TxTable,
    store: &mut RowStore,
    leaf: LeafId,
    id: RowId,
    row: Row,
    by: TxId,
    cmd: u32,
) -> Result<(), Refusal>
    requires known { id.number < length store.old.stored }
    requires runs { IsOpen txs.now by.number }
    requires standing { stands_kept txs.now (stored_at store.old.stored id).ended ≡ true }
    requires seen { sees_now_by txs.now by.number (stored_at store.old.stored id).version.by.number ≡ true }
    requires own { (stored_at store.old.stored id).version.leaf ≡ leaf }
    ensures made { (h : History) → TableStands txs.now h → StoreStands store.old h → IsMade result store.new h (succeeded h leaf id leaf row by cmd) }
    ensures keeps { KeepsVersions store.old store.new }
    ensures err { OnErr result (store.new ≡ store.old) }
{
    match store.replace(txs, id, row, by, cmd) {
        Ok(()) => Ok(()),
        Err(back) => Err(refused(alloc, back.cause)),
    }
}

// In another one.
fn move_row(
    alloc: Global,
    txs: &TxTable,
    store: &mut RowStore,
    from: LeafId,
    id: RowId,
    leaf: LeafId,
    row: Row,
    by: TxId,
    cmd: u32,
) -> Result<(), Refusal>
    requires known { id.number < length store.old.stored }
    requires runs { IsOpen txs.now by.number }
    requires standing { stands_kept txs.now (stored_at store.old.stored id).ended ≡ true }
    requires seen { sees_now_by txs.now by.number (stored_at store.old.stored id).version.by.number ≡ true }
    requires other { from.number ≢ leaf.number }
    requires leaf { leaf.number < store.old.leaves }
    ensures made { (h : History) → TableStands txs.now h → StoreStands store.old h → IsMade result store.new h (succeeded h from id leaf row by cmd) }
    ensures keeps { KeepsVersions store.old store.new }
    ensures err { OnErr result (store.new ≡ store.old) }
{
    match store.put(txs, leaf, row, by, cmd) {
        Ok(()) => {
            store.end_version(txs, id, by, cmd, Some(leaf));
            Ok(())
        }
        Err(back) => Err(refused(alloc, back.cause)),
    }
}

/// Puts a row in the place of a version that stands, of which the transaction sees the birth. In its own leaf it
/// replaces the version; in another one a version is born there, to which the row was moved. It needs room in
/// the store, 54000.
pub fn succeed_row(
    alloc: Global,
    txs: &TxTable,
    store: &mut RowStore,
    from: LeafId,
    id: RowId,
    leaf: LeafId,
    row: Row,
    by: TxId,
    cmd: u32,
) -> Result<(), Refusal>
    requires known { id.number < length store.old.stored }
    requires runs { IsOpen txs.now by.number }
    requires standing { stands_kept txs.now (stored_at store.old.stored id).ended ≡ true }
    requires seen { sees_now_by txs.now by.number (stored_at store.old.stored id).version.by.number ≡ true }
    requires own { (stored_at store.old.stored id).version.leaf ≡ from }
    requires leaf { leaf.number < store.old.leaves }
    ensures made { (h : History) → TableStands txs.now h → StoreStands store.old h → IsMade result store.new h (succeeded h from id leaf row by cmd) }
    ensures keeps { KeepsVersions store.old store.new }
    ensures err { OnErr result (store.new ≡ store.old) }
{
    if from.number == leaf.number {
        replace_row(alloc, txs, store, from, id, row, by, cmd)
    } else {
        move_row(alloc, txs, store, from, id, leaf, row, by, cmd)
    }
}
