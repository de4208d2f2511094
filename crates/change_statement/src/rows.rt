//! The rows of an UPDATE or a DELETE, one after the other.

ghost use Rattle.std.specs.Prelude.{◌≡◌, All, IfOk, OnOk, Some, None, length, slice_index_or};
ghost use Rattle.history.specs.History.{History};
ghost use Rattle.tx_table.specs.Stands.{TableStands};
ghost use Rattle.change_statement.specs.Verdicts.{updater_meant};
ghost use Rattle.cond_logic.specs.Asked.{change_meant};
ghost use Rattle.change_statement.specs.Targets.{targets};
ghost use Rattle.stores.specs.Events.{look_of};
ghost use Rattle.stores.specs.Stand.{Stands};
ghost use Rattle.statement_steps.specs.Attempts.{MayAttempt};
ghost use Rattle.statement_steps.specs.Ended.{giving};
ghost use Rattle.change_statement.specs.Changed as changed_spec;
ghost use Rattle.change_statement.specs.Changing.{changing};
ghost use Rattle.change_statement.specs.Housed.{IsHousing};
ghost use Rattle.statement_steps.specs.Gathered.{CanBeCounted, found_of};
ghost use Rattle.change_statement.specs.Running.{IsGathered, IsRun, IsTargetIn, MayRun};
ghost use Rattle.change_statement.specs.Turns.{IsTurn};

use crate::asking::Change;
use crate::conflicts::conflict_fault;
use crate::deleting::end_row;
use crate::housing::Housing;
use crate::turn::Turn;
use crate::updating::{renew, store};
use crate::waiting::pause;
use crate::{ChangedRows, Updater, Verdict, decide, find_targets};
use pg_values::{Isolation, NoMemory};
use row_change::holders_of;
use statement_steps::{Attempt, Caller, Gathered, Stop, TargetRow};
use stores::Stores;

fn repeats(caller: Caller) -> bool
    ensures { result ≡ changed_spec.repeats_at caller.level }
{
    match caller.level {
        Isolation::RepeatableRead => true,
        Isolation::ReadCommitted | Isolation::ReadUncommitted => false,
    }
}

// Who changes the rows.
fn updater<'c>(stores: &Stores, caller: Caller, gathered: &'c Gathered) -> Updater<'c>
    requires { MayRun (found_of gathered.now) stores.now caller }
    ensures is { (h : History) → TableStands stores.now.txs h → updater_meant result ≡ changed_spec.updater caller (found_of gathered.now) h }
    ensures own { Some result.tx.number ≡ slice_index_or stores.now.txs.current caller.session None }
    ensures session { result.session ≡ caller.session }
{
    let Some(tx) = stores.txs.open_of(caller.session) else {
        unreachable!()
    };
    Updater {
        session: caller.session,
        tx,
        repeats: repeats(caller),
        condition: &gathered.ask.condition,
    }
}

// The first of the rows that are left: it is changed or passed over, or it has to be waited for, or the statement
// stops there.
fn change_row(
    attempt: &Attempt<'_>,
    stores: &mut Stores,
    gathered: &Gathered,
    housing: &mut Housing,
    change: Change<'_>,
    target: TargetRow,
    changed: u64,
) -> Result<Turn, Stop>
    requires may { MayRun (found_of gathered.now) stores.old attempt.now.caller }
    requires housing { IsHousing stores.old attempt.now.caller.session (found_of gathered.now).tree housing.old }
    requires target { IsTargetIn stores.old.rows (found_of gathered.now) target }
    requires few { CanBeCounted changed 1 }
    ensures turn { IsTurn (changing change.entry attempt.now.caller (found_of gathered.now)) attempt.now.names.now result stores.old stores.new attempt.now.caller (found_of gathered.now) target changed }
    ensures housing { OnOk result (IsHousing stores.old attempt.now.caller.session (found_of gathered.now).tree housing.new) }
{
    let updater = updater(stores, attempt.caller, gathered);
    match decide(&stores.rows, &stores.txs, &updater, target.id) {
        Verdict::Change(seen) => {
            let id = seen.id;
            match change {
                Change::Update(_) => {
                    let row = renew(attempt.alloc, &stores.catalog, gathered, seen.row)?;
                    store(attempt, stores, gathered, housing, target.leaf, id, row)?;
                    Ok(Turn::Counted(changed + 1))
                }
                Change::Delete(_) => {
                    end_row(stores, attempt.caller, gathered, id);
                    Ok(Turn::Counted(changed + 1))
                }
            }
        }
        Verdict::Pass => Ok(Turn::Counted(changed)),
        Verdict::Wait(other) => Ok(Turn::Waits(other)),
        Verdict::Refuse(conflict) => {
            let tree = &gathered.tree;
            let catalog = &stores.catalog;
            let fault = conflict_fault(attempt, catalog, tree, target.leaf, conflict)?;
            Err(Stop::Refused(fault))
        }
    }
}

/// The rows are changed, one after the other. Where one has to be waited for, what was gathered is kept for it and
/// those behind it. It is told how many are changed, with those before, and which leaves were read.
pub(crate) fn change_rows(
    attempt: &Attempt<'_>,
    stores: &mut Stores,
    gathered: Gathered,
    change: Change<'_>,
    targets: &[TargetRow],
    changed: u64,
) -> Result<ChangedRows, Stop>
    requires may { MayRun (found_of gathered) stores.old attempt.now.caller }
    requires targets { All (IsTargetIn stores.old.rows (found_of gathered)) targets.now }
    requires few { CanBeCounted changed (length targets.now) }
    ensures { IsRun (found_of gathered) changed_spec.told_by result stores.old stores.new attempt.now.caller (λ h. giving (changed_spec.told_of (found_of gathered)) (changed_spec.all_changed (changing change.entry attempt.now.caller (found_of gathered)) attempt.now.names.now attempt.now.caller (found_of gathered) targets.now changed h)) }
{
    let holders = holders_of(attempt.alloc, &gathered.tree)?;
    let mut housing = Housing {
        holders,
        last: None,
    };
    let mut left = targets;
    let mut changed = changed;
    while let Some((target, others)) = left.split_first() {
        let turn = change_row(
            attempt,
            stores,
            &gathered,
            &mut housing,
            change,
            *target,
            changed,
        )?;
        match turn {
            Turn::Counted(next) => {
                changed = next;
                left = others;
            }
            Turn::Waits(other) => {
                return Err(pause(attempt, stores, other, gathered, left, changed));
            }
        }
    }
    Ok(ChangedRows {
        count: changed,
        reads: gathered.leaves,
    })
}

/// The rows of the leaves that are read which the command sees and which pass.
pub(crate) fn find(
    attempt: &Attempt<'_>,
    stores: &Stores,
    gathered: &Gathered,
) -> Result<Vec<TargetRow>, NoMemory>
    requires may { MayAttempt stores.now attempt.now.caller }
    requires gathered { IsGathered stores.now attempt.now.caller (found_of gathered.now) }
    ensures are { IfOk result (λ found. (h : History) → Stands stores.now h → found.items ≡ targets h (look_of h attempt.now.caller.session attempt.now.caller.cmd) (found_of gathered.now).asked.condition (found_of gathered.now).leaves) }
    ensures there { IfOk result (λ found. All (IsTargetIn stores.now.rows (found_of gathered.now)) found.items) }
{
    let alloc = attempt.alloc;
    let snap = stores.look(alloc, attempt.caller.session, attempt.caller.cmd)?;
    find_targets(
        alloc,
        &stores.rows,
        &stores.txs,
        gathered.leaves.as_slice(),
        &snap,
        &gathered.ask.condition,
    )
}
