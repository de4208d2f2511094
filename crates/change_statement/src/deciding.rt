ghost use Rattle.std.specs.Prelude.{◌≡◌, ℕ, ◌<◌, true, Some, length, slice_get};
ghost use Rattle.pg_values.specs.declared.ids.RowId.{RowId as RowNumber};
ghost use Rattle.history.specs.Transactions.{session_of, open_of};
ghost use Rattle.history.specs.History.{History, tx_events, versions, outcome};
ghost use Rattle.tx_table.specs.Kept.{KeptTable};
ghost use Rattle.tx_table.specs.Stands.{TableStands, sees_now_by};
ghost use Rattle.row_store.specs.Kept.{KeptRows, stored_at};
ghost use Rattle.row_store.specs.Stands.{StoreStands};
ghost use Rattle.change_statement.specs.Steps.{step_told, IsLater, IsStepFit};
ghost use Rattle.change_statement.specs.Verdicts as verdicts;
ghost use Rattle.change_statement.specs.Verdicts.{by_outcome, decided, unless_repeats, updater_meant, verdict_told, Decision, PassesBy, IfChange, IfWait, MayEnd, MayWaitFor};

use crate::condition::takes;
use crate::step::Step;
use crate::{Conflict, Updater, Verdict};
use history::TxId;
use pg_values::{Row, RowId};
use row_store::{Newest, RowStore, SeenRow};
use tx_table::TxTable;

// Whether there is such a version, and the transaction sees its birth now.
fn is_born(store: &RowStore, txs: &TxTable, tx: TxId, id: RowId) -> bool
    ensures is { (h : History) → TableStands txs.now h → StoreStands store.now h → result ≡ verdicts.is_born h tx.number (slice_get (versions h) id.number) }
    ensures known { result ≡ true → id.number < length store.now.stored }
    ensures seen { result ≡ true → sees_now_by txs.now tx.number (stored_at store.now.stored id).version.by.number ≡ true }
{
    if id.number < store.version_count() as u64 {
        store.sees_birth(txs, id, tx)
    } else {
        false
    }
}

// A version that stands: the target, or a later version, which is tested again.
fn if_taken<'s>(updater: &Updater<'_>, again: bool, id: RowId, row: &'s Row) -> Verdict<'s>
    ensures is { verdict_told result ≡ verdicts.if_taken (updater_meant updater.now) again id row.now }
    ensures change { IfChange result (λ seen. (seen.id ≡ id) × (seen.row.now ≡ row.now)) }
    ensures wait { IfWait result (λ session. ⊥) }
{
    if again && !takes(updater.condition, row) {
        Verdict::Pass
    } else {
        Verdict::Change(SeenRow { id, row })
    }
}

// A version that a transaction has ended which still runs.
fn wait_for<'s>(txs: &TxTable, own: u32, tx: TxId) -> Verdict<'s>
    ensures is { (h : History) → TableStands txs.now h → open_of (tx_events h) (session_of (tx_events h) tx.number) ≡ Some tx.number →
        verdict_told result ≡ verdicts.if_another own (session_of (tx_events h) tx.number) }
    ensures change { IfChange result (λ seen. ⊥) }
    ensures wait { IfWait result (MayWaitFor txs.now own) }
{
    let session = txs.session_of(tx);
    if session == own {
        return Verdict::Pass;
    }
    match txs.open_of(session) {
        Some(_) => Verdict::Wait(session),
        None => Verdict::Pass,
    }
}

// A row that a committed transaction has deleted.
fn if_deleted<'s>(txs: &TxTable, repeats: bool, tx: TxId) -> Verdict<'s>
    ensures is { (h : History) → TableStands txs.now h → verdict_told result ≡ unless_repeats repeats (session_of (tx_events h) tx.number) PassesBy }
    ensures change { IfChange result (λ seen. ⊥) }
    ensures wait { IfWait result (λ session. ⊥) }
{
    if repeats {
        Verdict::Refuse(Conflict::Changed(txs.session_of(tx)))
    } else {
        Verdict::Pass
    }
}

// A version that a committed transaction has replaced.
fn if_replaced<'s>(txs: &TxTable, repeats: bool, tx: TxId, new: RowId) -> Step<'s>
    ensures is { (h : History) (next : RowNumber → Decision) → TableStands txs.now h → step_told next result ≡ unless_repeats repeats (session_of (tx_events h) tx.number) (next new) }
    ensures fit { (table : KeptTable) (kept : KeptRows) (me own : ℕ) (id : RowNumber) → IsLater table kept me id new → IsStepFit table kept me own id result }
{
    if repeats {
        Step::Done(Verdict::Refuse(Conflict::Changed(txs.session_of(tx))))
    } else {
        Step::Follow(new)
    }
}

fn step<'s>(
    store: &'s RowStore,
    txs: &TxTable,
    updater: &Updater<'_>,
    again: bool,
    id: RowId,
) -> Step<'s>
    requires known { id.number < length store.now.stored }
    requires born { sees_now_by txs.now updater.now.tx.number (stored_at store.now.stored id).version.by.number ≡ true }
    ensures is { (h : History) (next : RowNumber → Decision) → TableStands txs.now h → StoreStands store.now h →
        step_told next result ≡ by_outcome next h (updater_meant updater.now) again id (outcome h id.number) }
    ensures fit { IsStepFit txs.now store.now updater.now.tx.number updater.now.session id result }
{
    match store.newest(txs, id, updater.tx) {
        Newest::Stands(row) => Step::Done(if_taken(updater, again, id, row)),
        Newest::EndedBy(tx) => Step::Done(wait_for(txs, updater.session, tx)),
        Newest::Gone(tx) => Step::Done(if_deleted(txs, updater.repeats, tx)),
        Newest::Moved(tx, _) => Step::Done(Verdict::Refuse(Conflict::Moved(txs.session_of(tx)))),
        Newest::Replaced(tx, new) => if_replaced(txs, updater.repeats, tx, new),
    }
}

/// What is done with a target, by what became of its version and of those that replaced it.
pub fn decide<'s>(
    store: &'s RowStore,
    txs: &TxTable,
    updater: &Updater<'_>,
    id: RowId,
) -> Verdict<'s>
    ensures is { (h : History) → TableStands txs.now h → StoreStands store.now h → verdict_told result ≡ decided h (updater_meant updater.now) id }
    ensures change { IfChange result (MayEnd txs.now store.now updater.now.tx.number id) }
    ensures wait { IfWait result (MayWaitFor txs.now updater.now.session) }
{
    if !is_born(store, txs, updater.tx, id) {
        return Verdict::Pass;
    }
    let mut version = id;
    let mut again = false;
    loop {
        match step(store, txs, updater, again, version) {
            Step::Done(verdict) => return verdict,
            Step::Follow(new) => {
                version = new;
                again = true;
            }
        }
    }
}
