ghost use Rattle.std.specs.Prelude.{◌+◌, ◌≤◌, length};
ghost use Rattle.sql_ast.specs.Queries.{select_tree};
ghost use Rattle.statement_steps.specs.Attempts.{MayAttempt};
ghost use Rattle.statement_steps.specs.Steps.{IsStep, follow};
ghost use Rattle.select_statement.specs.Selected as selected;

use crate::Answered;
use crate::gathering::{gather, gather_bare, plan_under};
use crate::parts::{answer, values_by};
use expression_binder::Param;
use plan_tree::{Planning, make_plan};
use sql_ast::Select;
use statement_steps::{Attempt, Stop, hold_if_repeatable};
use stores::Stores;

// ---- without FROM

fn select_bare(
    attempt: &Attempt<'_>,
    stores: &mut Stores,
    params: &[Param],
    select: &Select,
) -> Result<Answered, Stop>
    requires { MayAttempt stores.old attempt.now.caller }
    ensures { IsStep selected.told_by result stores.old stores.new attempt.now.caller (attempt.now.caller.cmd + 1)
        (follow (selected.begins attempt.now.caller) (λ u. selected.bare params.now attempt.now.caller (select_tree select.now))) }
{
    let alloc = attempt.alloc;
    hold_if_repeatable(attempt, stores)?;
    let found = gather_bare(attempt, stores, params, select)?;
    let plan = make_plan(
        alloc,
        Planning::without_from(),
        found.ask.conditions.as_slice(),
        found.trees.as_slice(),
    )?;
    answer(attempt, stores, &[], &found.ask, &plan, &found.snap)
}

// ---- of tables

fn select_tables(
    attempt: &Attempt<'_>,
    stores: &mut Stores,
    params: &[Param],
    how: Planning,
    select: &Select,
) -> Result<Answered, Stop>
    requires may { MayAttempt stores.old attempt.now.caller }
    requires few { length stores.old.catalog.tables ≤ 4096 }
    ensures { IsStep selected.told_by result stores.old stores.new attempt.now.caller (attempt.now.caller.cmd + 1)
        (follow (selected.begins attempt.now.caller) (λ u. selected.of_named how attempt.now.names.now params.now attempt.now.caller (select_tree select.now))) }
{
    hold_if_repeatable(attempt, stores)?;
    let found = gather(attempt, stores, how, params, select)?;
    let args = values_by(attempt.alloc, how, params)?;
    let plan = plan_under(attempt, stores, how, &args, &found)?;
    answer(attempt, stores, &args, &found.ask, &plan, &found.snap)
}

/// A SELECT of a session, with the arguments of its parameters: its answer with the leaves that it has read, or why
/// it stops. It locks and reads what its conditions keep, or all where the session prunes nothing. Where the plan is
/// generic it locks what it keeps without the values of parameters, and reads what they keep of it.
pub fn select(
    attempt: &Attempt<'_>,
    stores: &mut Stores,
    params: &[Param],
    how: Planning,
    select: &Select,
) -> Result<Answered, Stop>
    requires may { MayAttempt stores.old attempt.now.caller }
    requires few { length stores.old.catalog.tables ≤ 4096 }
    ensures { IsStep selected.told_by result stores.old stores.new attempt.now.caller (attempt.now.caller.cmd + 1) (selected.selected how attempt.now.names.now params.now attempt.now.caller (select_tree select.now)) }
{
    if select.from.as_slice().is_empty() {
        select_bare(attempt, stores, params, select)
    } else {
        select_tables(attempt, stores, params, how, select)
    }
}
