//! What is gathered before the rows are looked at.

ghost use Rattle.std.specs.Prelude.{◌≡◌, ◌≤◌, IfOk, length};
ghost use Rattle.cond_logic.specs.Asked.{change_meant};
ghost use Rattle.plan_tree.specs.Plans.{apart};
ghost use Rattle.sql_binder.specs.Values as values_in;
ghost use Rattle.statement_steps.specs.Attempts.{MayAttempt};
ghost use Rattle.statement_steps.specs.Steps.{IsStep};
ghost use Rattle.change_statement.specs.Gathered as gathered;
ghost use Rattle.statement_steps.specs.Gathered.{found_of};
ghost use Rattle.change_statement.specs.Running.{IsGathered};

use crate::asking::{Change, bind, table_named};
use crate::keeping::keep;
use cond_logic::ChangeAsk;
use expression_binder::Param;
use pg_values::{ListOf, LockMode, NoMemory};
use plan_tree::{Planning, trees_can_be_pruned};
use sql_binder::{put_change_values, values_of};
use statement_steps::{Attempt, Gathered, Stop, lock_named, lock_tables, tree_and_path};
use std::alloc::Global;
use stores::Stores;

// A generic plan is started: the values of parameters are put in their places.
fn put_apart(
    alloc: Global,
    how: Planning,
    params: &[Param],
    ask: ChangeAsk,
) -> Result<ChangeAsk, NoMemory>
    ensures { IfOk result (λ put. change_meant put ≡ gathered.asked_with how (values_in.values_of (apart how params.now)) (change_meant ask)) }
{
    put_change_values(alloc, ask, how.apart(params))
}

/// The named table is found and locked, names and kinds are bound, and the tables under it that are needed
/// are locked. A generic plan is started then.
pub(crate) fn gather(
    attempt: &Attempt<'_>,
    stores: &mut Stores,
    params: &[Param],
    how: Planning,
    change: Change<'_>,
) -> Result<Gathered, Stop>
    requires may { MayAttempt stores.old attempt.now.caller }
    requires few { length stores.old.catalog.tables ≤ 4096 }
    ensures step { IsStep found_of result stores.old stores.new attempt.now.caller attempt.now.caller.cmd (gathered.gathered_for how attempt.now.names.now params.now attempt.now.caller change.entry) }
    ensures found { IfOk result (λ g. IsGathered stores.new attempt.now.caller (found_of g)) }
    ensures rest { stores.new ≡ record stores.old { locks = stores.new.locks } }
{
    trees_can_be_pruned();
    let name = table_named(change).name.as_bytes();
    let table = lock_named(attempt, stores, name, LockMode::RowExclusive)?;
    let (tree, path) = tree_and_path(attempt, stores, table)?;
    let ask = bind(attempt, stores, how, params, change, table)?;
    let args = values_of(attempt.alloc, how.apart(params))?;
    let kept = keep(attempt.alloc, how, &args, &ask, &tree)?;
    let ask = put_apart(attempt.alloc, how, params, ask)?;
    lock_tables(attempt, stores, &kept.tables, LockMode::RowExclusive)?;
    Ok(Gathered {
        table,
        tree,
        path: ListOf::from_vec(path),
        ask,
        leaves: ListOf::from_vec(kept.leaves),
        moves: kept.moves,
    })
}
