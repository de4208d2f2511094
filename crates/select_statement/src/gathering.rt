//! What a SELECT does before it reads, and an EXPLAIN of it too.

ghost use Rattle.std.specs.Prelude.{◌≡◌, ◌≤◌, [], All, IfOk, length, map};
ghost use Rattle.history.specs.History.{History};
ghost use Rattle.row_router.specs.Seen.{seen};
ghost use Rattle.sql_ast.specs.Queries.{select_tree};
ghost use Rattle.sql_binder.specs.Selects.{from_of};
ghost use Rattle.cond_logic.specs.Asked.{select_meant};
ghost use Rattle.plan_tree.specs.Plans.{CanRead, all_items, planned, started_by};
ghost use Rattle.plan_tree.specs.Prunable.{CanPrune};
ghost use Rattle.stores.specs.Stand.{Stands};
ghost use Rattle.statement_steps.specs.Attempts.{MayAttempt};
ghost use Rattle.statement_steps.specs.Known.{IsKnownTo};
ghost use Rattle.statement_steps.specs.Steps.{IsStep};
ghost use Rattle.statement_steps.specs.Below.{number_of};
ghost use Rattle.select_statement.specs.Gathered.{found_by};
ghost use Rattle.select_statement.specs.Gathered as gathered;
ghost use Rattle.select_statement.specs.Items.{items_of as scope_of};
ghost use Rattle.select_statement.specs.Lent.{IsTreeFor, IsLookFor};
ghost use Rattle.select_statement.specs.Selected as selected;

use crate::Gathered;
use crate::cancels::cancels_itself;
use crate::items::items_of;
use crate::parts::{bind, lock_below};
use crate::tables::{lock_items, read_trees};
use cond_logic::SelectAsk;
use expression_binder::Param;
use pg_values::{ListOf, NoMemory, TableNo, Value};
use plan_tree::{Plan, Planning, make_plan};
use refusals::statement_cancelled;
use row_router::Tree;
use sql_ast::Select;
use statement_steps::{Attempt, Stop};
use std::alloc::Global;
use stores::Stores;
use tx_table::Snapshot;

// ---- what the statement stands for

/// The snapshot of the command.
pub(crate) fn look(attempt: &Attempt<'_>, stores: &Stores) -> Result<Snapshot, NoMemory>
    requires { MayAttempt stores.now attempt.now.caller }
    ensures { IfOk result (λ snap. IsLookFor stores.now attempt.now.caller snap) }
{
    stores.look(attempt.alloc, attempt.caller.session, attempt.caller.cmd)
}

// The names of the statement stand for the tables of the trees, where these are not too many.
fn bind_over(
    attempt: &Attempt<'_>,
    stores: &Stores,
    how: Planning,
    params: &[Param],
    select: &Select,
    trees: &[Tree],
) -> Result<SelectAsk, Stop>
    requires may { MayAttempt stores.now attempt.now.caller }
    requires each { length trees.now ≡ length (from_of (select_tree select.now)) }
    ensures step { IsStep select_meant result stores.now stores.now attempt.now.caller attempt.now.caller.cmd (selected.meant how params.now attempt.now.caller (select_tree select.now) (scope_of 0 (from_of (select_tree select.now)) (map seen trees.now))) }
    ensures few { IfOk result (λ ask. length trees.now ≤ 4) }
{
    if trees.len() > 4 {
        return bind(attempt, stores, how, params, select, &[]);
    }
    let items = items_of(attempt.alloc, select.from.as_slice(), trees)?;
    bind(attempt, stores, how, params, select, &items)
}

// The trees of the tables are read, and names and kinds bound over them.
fn find(
    attempt: &Attempt<'_>,
    stores: &mut Stores,
    how: Planning,
    params: &[Param],
    select: &Select,
    tables: &[TableNo],
) -> Result<Gathered, Stop>
    requires may { MayAttempt stores.old attempt.now.caller }
    requires few { length stores.old.catalog.tables ≤ 4096 }
    requires each { length tables.now ≡ length (from_of (select_tree select.now)) }
    requires known { All (λ t. IsKnownTo stores.old attempt.now.caller.session t.number) tables.now }
    ensures step { IsStep found_by result stores.old stores.old attempt.now.caller attempt.now.caller.cmd (gathered.found_in how params.now attempt.now.caller (select_tree select.now) (map number_of tables.now)) }
    ensures few { IfOk result (λ g. length g.trees ≤ 4) }
    ensures each { IfOk result (λ g. length g.trees ≡ length (from_of (select_tree select.now))) }
    ensures trees { IfOk result (λ g. All (λ t. IsTreeFor stores.old attempt.now.caller (seen t)) g.trees) }
    ensures look { IfOk result (λ g. IsLookFor stores.old attempt.now.caller g.snap) }
    ensures same { stores.new ≡ stores.old }
{
    let snap = look(attempt, stores)?;
    let trees = read_trees(attempt, stores, tables, &snap)?;
    let ask = bind_over(attempt, stores, how, params, select, trees.as_slice())?;
    Ok(Gathered { ask, trees, snap })
}

/// The tables of FROM are found and locked, their trees read under the snapshot of the command, names and kinds
/// bound, and constants evaluated; for a custom plan the values of parameters are put in their places.
pub(crate) fn gather(
    attempt: &Attempt<'_>,
    stores: &mut Stores,
    how: Planning,
    params: &[Param],
    select: &Select,
) -> Result<Gathered, Stop>
    requires may { MayAttempt stores.old attempt.now.caller }
    requires few { length stores.old.catalog.tables ≤ 4096 }
    ensures step { IsStep found_by result stores.old stores.new attempt.now.caller attempt.now.caller.cmd (gathered.gathered how attempt.now.names.now params.now attempt.now.caller (select_tree select.now)) }
    ensures few { IfOk result (λ g. length g.trees ≤ 4) }
    ensures each { IfOk result (λ g. length g.trees ≡ length (from_of (select_tree select.now))) }
    ensures trees { IfOk result (λ g. All (λ t. IsTreeFor stores.new attempt.now.caller (seen t)) g.trees) }
    ensures look { IfOk result (λ g. IsLookFor stores.new attempt.now.caller g.snap) }
{
    let tables = lock_items(attempt, stores, select.from.as_slice())?;
    find(attempt, stores, how, params, select, &tables)
}

/// What a SELECT without FROM stands for; refused where it cancels itself.
pub(crate) fn gather_bare(
    attempt: &Attempt<'_>,
    stores: &Stores,
    params: &[Param],
    select: &Select,
) -> Result<Gathered, Stop>
    requires { MayAttempt stores.now attempt.now.caller }
    ensures step { IsStep found_by result stores.now stores.now attempt.now.caller attempt.now.caller.cmd (gathered.gathered_bare params.now attempt.now.caller (select_tree select.now)) }
    ensures trees { IfOk result (λ g. g.trees ≡ []) }
    ensures look { IfOk result (λ g. IsLookFor stores.now attempt.now.caller g.snap) }
{
    let session = attempt.caller.session;
    let snap = look(attempt, stores)?;
    let how = Planning::without_from();
    let ask = bind(attempt, stores, how, params, select, &[])?;
    let is_cancelled = cancels_itself(attempt.alloc, &ask, session, attempt.caller.sessions - 1)?;
    if is_cancelled {
        return Err(Stop::Refused(statement_cancelled(attempt.alloc)));
    }
    let trees = ListOf::from_vec(Vec::new(attempt.alloc));
    Ok(Gathered { ask, trees, snap })
}

// ---- the plan

// A generic plan is started.
fn start_by<'t>(alloc: Global, how: Planning, args: &'t [Value], plan: Plan<'t>) -> Plan<'t>
    requires { All (λ i. CanPrune i.tree) (all_items (planned plan)) }
    ensures { planned result ≡ started_by how args.now (planned plan.entry) }
{
    if how.is_generic {
        plan.start(alloc, args)
    } else {
        plan
    }
}

/// The plan is made, what it keeps is locked, and it is started with these values of parameters.
pub(crate) fn plan_under<'t>(
    attempt: &Attempt<'_>,
    stores: &mut Stores,
    how: Planning,
    args: &'t [Value],
    found: &'t Gathered,
) -> Result<Plan<'t>, Stop>
    requires may { MayAttempt stores.old attempt.now.caller }
    requires few { length found.now.trees ≤ 4 }
    requires trees { All (λ t. IsTreeFor stores.old attempt.now.caller (seen t)) found.now.trees }
    ensures step { IsStep planned result stores.old stores.new attempt.now.caller attempt.now.caller.cmd (gathered.planned_under how attempt.now.names.now attempt.now.caller args.now (found_by found.now)) }
    ensures reads { IfOk result (λ p. All (CanRead stores.new.rows.leaves) (all_items (planned p))) }
    ensures few { IfOk result (λ p. length (planned p).items ≤ 4) }
    ensures rest { stores.new ≡ record stores.old { locks = stores.new.locks } }
{
    let conditions = found.ask.conditions.as_slice();
    let plan = make_plan(attempt.alloc, how, conditions, found.trees.as_slice())?;
    let tables = plan.tables(attempt.alloc)?;
    lock_below(attempt, stores, &tables)?;
    let started = start_by(attempt.alloc, how, args, plan);
    Ok(started)
}
