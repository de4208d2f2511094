//! EXPLAIN ANALYZE of a SELECT.

ghost use Rattle.std.specs.Prelude.{◌≡◌, ◌+◌, ◌≤◌, [], All, length};
ghost use Rattle.sql_ast.specs.Queries.{select_tree};
ghost use Rattle.sql_binder.specs.Selects.{from_of};
ghost use Rattle.plan_tree.specs.Plans.{CanRead, all_items, planned};
ghost use Rattle.statement_steps.specs.Attempts.{MayAttempt};
ghost use Rattle.statement_steps.specs.Steps.{IsStep};
ghost use Rattle.select_statement.specs.Explained.{AnalyzesRunTheirSelect};
ghost use Rattle.select_statement.specs.Explained as explained;
ghost use Rattle.select_statement.specs.Gathered.{found_by};
ghost use Rattle.select_statement.specs.Lent.{IsLookFor};

use crate::Gathered;
use crate::explaining::plan_table;
use crate::gathering::{gather, gather_bare, plan_under};
use crate::parts::{answer_counted, values_by};
use expression_binder::Param;
use pg_values::{Answer, Value};
use plan_tree::{Plan, PlanCounts, Planning, make_plan};
use sql_ast::Select;
use statement_steps::{Attempt, Stop, hold_if_repeatable};
use stores::Stores;

/// An EXPLAIN ANALYZE does what its SELECT does, and waits and is refused where that is.
pub fn analyzes_run_their_select()
    ensures { AnalyzesRunTheirSelect }
{}

// The plan is run, and printed with what was counted of its nodes.
fn run_counted(
    attempt: &Attempt<'_>,
    stores: &Stores,
    args: &[Value],
    select: &Select,
    found: &Gathered,
    plan: &Plan<'_>,
) -> Result<Answer, Stop>
    requires may { MayAttempt stores.now attempt.now.caller }
    requires each { length found.now.trees ≡ length (from_of (select_tree select.now)) }
    requires few { length (planned plan.now).items ≤ 4 }
    requires reads { All (CanRead stores.now.rows.leaves) (all_items (planned plan.now)) }
    requires look { IsLookFor stores.now attempt.now.caller found.now.snap }
    ensures { IsStep (λ a. a) result stores.now stores.now attempt.now.caller (attempt.now.caller.cmd + 1) (explained.run_counted attempt.now.caller args.now (select_tree select.now) (found_by found.now) (planned plan.now)) }
{
    let mut counts = PlanCounts::new(attempt.alloc, plan)?;
    answer_counted(
        attempt,
        stores,
        args,
        &found.ask,
        plan,
        &found.snap,
        &mut counts,
    )?;
    let table = plan_table(attempt.alloc, select, found, plan, Some(&counts))?;
    Ok(table)
}

fn analyze_bare(
    attempt: &Attempt<'_>,
    stores: &Stores,
    params: &[Param],
    select: &Select,
) -> Result<Answer, Stop>
    requires may { MayAttempt stores.now attempt.now.caller }
    requires bare { from_of (select_tree select.now) ≡ [] }
    ensures { IsStep (λ a. a) result stores.now stores.now attempt.now.caller (attempt.now.caller.cmd + 1) (explained.analyzed_bare params.now attempt.now.caller (select_tree select.now)) }
{
    let alloc = attempt.alloc;
    let found = gather_bare(attempt, stores, params, select)?;
    let plan = make_plan(
        alloc,
        Planning::without_from(),
        found.ask.conditions.as_slice(),
        found.trees.as_slice(),
    )?;
    run_counted(attempt, stores, &[], select, &found, &plan)
}

fn analyze_tables(
    attempt: &Attempt<'_>,
    stores: &mut Stores,
    params: &[Param],
    how: Planning,
    select: &Select,
) -> Result<Answer, Stop>
    requires may { MayAttempt stores.old attempt.now.caller }
    requires few { length stores.old.catalog.tables ≤ 4096 }
    ensures { IsStep (λ a. a) result stores.old stores.new attempt.now.caller (attempt.now.caller.cmd + 1) (explained.analyzed_tables how attempt.now.names.now params.now attempt.now.caller (select_tree select.now)) }
{
    let found = gather(attempt, stores, how, params, select)?;
    let args = values_by(attempt.alloc, how, params)?;
    let plan = plan_under(attempt, stores, how, &args, &found)?;
    run_counted(attempt, stores, &args, select, &found, &plan)
}

/// An EXPLAIN ANALYZE of a SELECT of a session, with the arguments of its parameters: the SELECT is run, and its plan is
/// answered, each node with what it gave; or why it stops.
pub(crate) fn analyze_select(
    attempt: &Attempt<'_>,
    stores: &mut Stores,
    params: &[Param],
    how: Planning,
    select: &Select,
) -> Result<Answer, Stop>
    requires may { MayAttempt stores.old attempt.now.caller }
    requires few { length stores.old.catalog.tables ≤ 4096 }
    ensures { IsStep (λ a. a) result stores.old stores.new attempt.now.caller (attempt.now.caller.cmd + 1) (explained.analyzed how attempt.now.names.now params.now attempt.now.caller (select_tree select.now)) }
{
    hold_if_repeatable(attempt, stores)?;
    if select.from.as_slice().is_empty() {
        analyze_bare(attempt, stores, params, select)
    } else {
        analyze_tables(attempt, stores, params, how, select)
    }
}
