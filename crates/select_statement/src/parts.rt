ghost use Rattle.std.specs.Prelude.{◌≡◌, ◌+◌, All, IfOk, length};
ghost use Rattle.history.specs.History.{History};
ghost use Rattle.sql_ast.specs.Queries.{select_tree};
ghost use Rattle.cond_logic.specs.Asked.{select_meant};
ghost use Rattle.expression_binder.specs.Firsts.{IsAnswerBy};
ghost use Rattle.plan_tree.specs.Counts.{answered_with, counted};
ghost use Rattle.plan_tree.specs.Laws.{shown};
ghost use Rattle.plan_tree.specs.Plans.{CanRead, all_items, planned};
ghost use Rattle.select_answer.specs.Happenings.{happenings};
ghost use Rattle.sql_binder.specs.Values.{custom_select};
ghost use Rattle.stores.specs.Events.{look_of};
ghost use Rattle.stores.specs.Stand.{Stands};
ghost use Rattle.statement_steps.specs.Attempts.{MayAttempt};
ghost use Rattle.statement_steps.specs.Steps.{IsStep};
ghost use Rattle.select_statement.specs.Lent.{IsLookFor, MayLock};
ghost use Rattle.select_statement.specs.Selected as selected;

use crate::Answered;
use cond_logic::SelectAsk;
use expression_binder::{Param, ScopeItem};
use pg_values::{LockMode, NoMemory, Refusal, TableNo, Value};
use plan_tree::{Plan, PlanCounts, Planning};
use row_store::Trail;
use select_answer::run_select;
use sql_ast::Select;
use sql_binder::{bind_select, put_values, values_of};
use statement_steps::{Attempt, Stop, lock_tables};
use std::alloc::Global;
use stores::Stores;
use tx_table::Snapshot;

/// The SELECT by places and values, with the values of its parameters in their places; or its first fault.
pub(crate) fn bind_custom(
    alloc: Global,
    select: &Select,
    items: &[ScopeItem],
    params: &[Param],
    session: u32,
) -> Result<SelectAsk, Refusal>
    ensures { IsAnswerBy select_meant result (custom_select items.now params.now session (select_tree select.now)) }
{
    let ask = bind_select(alloc, select, items, params, session)?;
    Ok(put_values(alloc, ask, params)?)
}

// The SELECT that the plan is made of.
fn bind_by(
    alloc: Global,
    how: Planning,
    select: &Select,
    items: &[ScopeItem],
    params: &[Param],
    session: u32,
) -> Result<SelectAsk, Refusal>
    ensures { IsAnswerBy select_meant result (selected.asked_by how items.now params.now session (select_tree select.now)) }
{
    if how.is_generic {
        bind_select(alloc, select, items, params, session)
    } else {
        bind_custom(alloc, select, items, params, session)
    }
}

/// Names and kinds are bound and constants evaluated; for a custom plan the values of parameters are put in their
/// places.
pub(crate) fn bind(
    attempt: &Attempt<'_>,
    stores: &Stores,
    how: Planning,
    params: &[Param],
    select: &Select,
    items: &[ScopeItem],
) -> Result<SelectAsk, Stop>
    requires { MayAttempt stores.now attempt.now.caller }
    ensures { IsStep select_meant result stores.now stores.now attempt.now.caller attempt.now.caller.cmd (selected.meant how params.now attempt.now.caller (select_tree select.now) items.now) }
{
    let session = attempt.caller.session;
    let ask = bind_by(attempt.alloc, how, select, items, params, session)?;
    Ok(ask)
}

/// The values of parameters that start a generic plan; a custom one has them in its conditions.
pub(crate) fn values_by(
    alloc: Global,
    how: Planning,
    params: &[Param],
) -> Result<Vec<Value>, NoMemory>
    ensures { IfOk result (λ vs. vs.items ≡ selected.values_by how params.now) }
{
    values_of(alloc, how.apart(params))
}

/// The tables are locked, one after the other.
pub(crate) fn lock_below(
    attempt: &Attempt<'_>,
    stores: &mut Stores,
    tables: &[TableNo],
) -> Result<(), Stop>
    requires may { MayAttempt stores.old attempt.now.caller }
    requires locks { All (MayLock stores.old attempt.now.caller) tables.now }
    ensures step { IsStep (λ u. u) result stores.old stores.new attempt.now.caller attempt.now.caller.cmd (selected.locked_below attempt.now.names.now attempt.now.caller tables.now) }
    ensures rest { stores.new ≡ record stores.old { locks = stores.new.locks } }
{
    lock_tables(attempt, stores, tables, LockMode::AccessShare)
}

/// The answer by the plan, with these values of parameters, for the rows that the snapshot shows; and what happens at the
/// nodes of the plan is counted.
pub(crate) fn answer_counted(
    attempt: &Attempt<'_>,
    stores: &Stores,
    args: &[Value],
    ask: &SelectAsk,
    plan: &Plan<'_>,
    snap: &Snapshot,
    counts: &mut PlanCounts,
) -> Result<Answered, Stop>
    requires may { MayAttempt stores.now attempt.now.caller }
    requires reads { All (CanRead stores.now.rows.leaves) (all_items (planned plan.now)) }
    requires look { IsLookFor stores.now attempt.now.caller snap.now }
    ensures step { IsStep selected.told_by result stores.now stores.now attempt.now.caller (attempt.now.caller.cmd + 1) (selected.answered attempt.now.caller args.now (select_meant ask.now) (planned plan.now)) }
    ensures counts { (h : History) → Stands stores.now h → IfOk result (λ a. counts.new ≡ answered_with (length a.answer.rows)
        (counted counts.old (happenings args.now (shown h (look_of h attempt.now.caller.session attempt.now.caller.cmd)) (planned plan.now)))) }
{
    let alloc = attempt.alloc;
    let sessions = attempt.caller.sessions - 1;
    let Stores { txs, rows, .. } = stores;
    let mut trail = Trail::new(alloc)?;
    let answer = run_select(
        alloc, ask, args, sessions, plan, rows, txs, snap, &mut trail, counts,
    )?;
    Ok(Answered { answer, trail })
}

/// The answer by the plan, with these values of parameters, for the rows that the snapshot shows.
pub(crate) fn answer(
    attempt: &Attempt<'_>,
    stores: &Stores,
    args: &[Value],
    ask: &SelectAsk,
    plan: &Plan<'_>,
    snap: &Snapshot,
) -> Result<Answered, Stop>
    requires may { MayAttempt stores.now attempt.now.caller }
    requires reads { All (CanRead stores.now.rows.leaves) (all_items (planned plan.now)) }
    requires look { IsLookFor stores.now attempt.now.caller snap.now }
    ensures { IsStep selected.told_by result stores.now stores.now attempt.now.caller (attempt.now.caller.cmd + 1) (selected.answered attempt.now.caller args.now (select_meant ask.now) (planned plan.now)) }
{
    let mut counts = PlanCounts::none(attempt.alloc);
    answer_counted(attempt, stores, args, ask, plan, snap, &mut counts)
}
