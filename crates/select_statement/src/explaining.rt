//! EXPLAIN of a SELECT.

ghost use Rattle.std.specs.Prelude.{◌≡◌, ◌+◌, ◌≤◌, IfOk, length, map};
ghost use Rattle.row_router.specs.Seen.{seen};
ghost use Rattle.sql_ast.specs.Queries.{joined_tree, select_tree};
ghost use Rattle.sql_binder.specs.Selects.{from_of};
ghost use Rattle.cond_logic.specs.Asked.{select_meant};
ghost use Rattle.cond_logic.specs.Tuples.{lent};
ghost use Rattle.plan_tree.specs.Plans.{planned};
ghost use Rattle.statement_steps.specs.Attempts.{MayAttempt};
ghost use Rattle.statement_steps.specs.Steps.{IsStep};
ghost use Rattle.select_statement.specs.Explained.{OneTableReadsItsScans, SelectsRunTheirPlan};
ghost use Rattle.select_statement.specs.Explained as explained;
ghost use Rattle.select_statement.specs.Gathered.{found_by};
ghost use Rattle.select_statement.specs.Joins.{JoinsReadTheirScans, ReachedScansAreRead, ReadsAreScanned};
ghost use Rattle.select_statement.specs.Named.{ColumnsAreNamedAsAsked, ItemsAreNamedAsAsked};

use crate::Gathered;
use crate::analyzing::analyze_select;
use crate::gathering::{gather, plan_under};
use crate::items::{item_name, node_of};
use crate::parts::values_by;
use cond_logic::SelectAsk;
use expression_binder::Param;
use history::Column;
use pg_values::{Answer, NameList, NoMemory, PgText};
use plan_text::{NamedItem, write_plan};
use plan_tree::{Plan, PlanCounts, Planning};
use row_router::Tree;
use select_answer::one_item_is_read_once;
use sql_ast::{FromItem, Select};
use statement_steps::{Attempt, Stop, hold_if_repeatable};
use std::alloc::Global;
use stores::Stores;

/// A SELECT of tables reads by the plan that its EXPLAIN prints: both gather and plan alike.
pub fn selects_run_their_plan()
    ensures { SelectsRunTheirPlan }
{}

/// A SELECT of one table reads the leaves under the scans of its plan, each once, in order.
pub fn one_table_reads_its_scans()
    ensures { OneTableReadsItsScans }
{
    one_item_is_read_once();
}

/// A SELECT of several tables reads, but for the order, what stands under the scans of its plan: each scan once
/// for each tuple to its left beside which its leaf is kept. So it reads no leaf that is not printed, and all that
/// are, where no left side comes out empty and none is pruned beside it.
pub fn joins_read_their_scans()
    ensures scans { JoinsReadTheirScans }
    ensures printed { ReadsAreScanned }
    ensures reached { ReachedScansAreRead }
{}

// ---- names

/// A column is printed by the name by which the statement asks for it, and so is its item.
pub fn names_are_as_asked()
    ensures columns { ColumnsAreNamedAsAsked }
    ensures items { ItemsAreNamedAsAsked }
{}

fn names_of(alloc: Global, columns: &[Column]) -> Result<NameList, NoMemory>
    ensures { IfOk result (λ names. names ≡ map explained.column_name columns.now) }
{
    let mut names = NameList::new(alloc);
    for column in columns {
        names.push(column.name.copy(alloc)?)?;
    }
    Ok(names)
}

fn named_item(alloc: Global, item: &FromItem, tree: &Tree) -> Result<NamedItem, NoMemory>
    ensures { IfOk result (λ i. i ≡ explained.named_item (joined_tree item.now) (seen tree.now)) }
{
    Ok(NamedItem {
        name: PgText::from_bytes(alloc, item_name(item))?,
        is_alias: item.table.alias.is_some(),
        columns: names_of(alloc, node_of(tree).columns.as_slice())?,
    })
}

fn named_items(
    alloc: Global,
    from_items: &[FromItem],
    trees: &[Tree],
) -> Result<Vec<NamedItem>, NoMemory>
    requires { length from_items.now ≡ length trees.now }
    ensures { IfOk result (λ named. named.items ≡ explained.named_items (map joined_tree from_items.now) (map seen trees.now)) }
{
    let mut named = Vec::new(alloc);
    for (place, item) in from_items.iter().enumerate() {
        named.push(named_item(alloc, item, &trees[place])?)?;
    }
    Ok(named)
}

fn is_cut(select: &Select, ask: &SelectAsk) -> bool
    ensures { result ≡ explained.is_cut (select_tree select.now) (select_meant ask.now) }
{
    select.offset.is_some() || ask.limit.is_some()
}

// ---- the statement

/// The plan as it is printed, with what was counted of its nodes if it was run.
pub(crate) fn plan_table(
    alloc: Global,
    select: &Select,
    found: &Gathered,
    plan: &Plan<'_>,
    counts: Option<&PlanCounts>,
) -> Result<Answer, NoMemory>
    requires each { length found.now.trees ≡ length (from_of (select_tree select.now)) }
    requires few { length (planned plan.now).items ≤ 4 }
    ensures { IfOk result (λ a. a ≡ explained.told (select_tree select.now) (found_by found.now) (lent counts.entry) (planned plan.now)) }
{
    let named = named_items(alloc, select.from.as_slice(), found.trees.as_slice())?;
    let is_cut = is_cut(select, &found.ask);
    write_plan(alloc, &named, counts, is_cut, &found.ask, plan)
}

// The plan is printed, and not run.
fn explain_plan(
    attempt: &Attempt<'_>,
    stores: &mut Stores,
    params: &[Param],
    how: Planning,
    select: &Select,
) -> Result<Answer, Stop>
    requires may { MayAttempt stores.old attempt.now.caller }
    requires few { length stores.old.catalog.tables ≤ 4096 }
    ensures { IsStep (λ a. a) result stores.old stores.new attempt.now.caller (attempt.now.caller.cmd + 1) (explained.explained how attempt.now.names.now params.now attempt.now.caller (select_tree select.now)) }
{
    hold_if_repeatable(attempt, stores)?;
    let found = gather(attempt, stores, how, params, select)?;
    let args = values_by(attempt.alloc, how, params)?;
    let plan = plan_under(attempt, stores, how, &args, &found)?;
    let table = plan_table(attempt.alloc, select, &found, &plan, None)?;
    Ok(table)
}

/// An EXPLAIN of a SELECT of a session, with the arguments of its parameters: its plan, or why it stops. It locks what
/// the SELECT locks, and is refused where that is refused before it reads. With ANALYZE it runs the SELECT, and each node
/// of the plan tells what it gave; else it reads nothing.
pub fn explain(
    attempt: &Attempt<'_>,
    stores: &mut Stores,
    params: &[Param],
    how: Planning,
    analyze: bool,
    select: &Select,
) -> Result<Answer, Stop>
    requires may { MayAttempt stores.old attempt.now.caller }
    requires few { length stores.old.catalog.tables ≤ 4096 }
    ensures { IsStep (λ a. a) result stores.old stores.new attempt.now.caller (attempt.now.caller.cmd + 1) (explained.explains analyze how attempt.now.names.now params.now attempt.now.caller (select_tree select.now)) }
{
    if analyze {
        analyze_select(attempt, stores, params, how, select)
    } else {
        explain_plan(attempt, stores, params, how, select)
    }
}
