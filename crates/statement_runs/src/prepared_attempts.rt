ghost use Rattle.std.specs.Prelude.{◌≡◌, ◌+◌, ℕ, [], Err, List, OnErr, Option, Result};
ghost use Rattle.pg_values.specs.declared.fault.Fault.{Fault as OneFault};
ghost use Rattle.pg_values.specs.declared.fault.Refusal.TheVariants.{Sql};
ghost use Rattle.history.specs.History.{History};
ghost use Rattle.sql_ast.specs.Expressions.{trees};
ghost use Rattle.sql_ast.specs.Queries.{row_tree};
ghost use Rattle.expression_binder.specs.Firsts.{IsAnswerBy};
ghost use Rattle.prepared_statements.specs.Kept.{listed};
ghost use Rattle.prepared_statements.specs.Prepared.{Prepared, deallocated, prepared as prepared_with};
ghost use Rattle.statement_steps.specs.Attempts.{MayAttempt, MayGoOn};
ghost use Rattle.statement_steps.specs.Ended.{Ended, ended};
ghost use Rattle.statement_steps.specs.Made.{Made, Refused, halted};
ghost use Rattle.stores.specs.Stand.{Stands};
ghost use Rattle.statement_steps.specs.declared.rest.Rest.{Rest as Left};
ghost use Rattle.statement_runs.specs.Attempted as attempted;
ghost use Rattle.statement_runs.specs.Executions as executions;
ghost use Rattle.statement_runs.specs.Given as given;
ghost use Rattle.statement_runs.specs.Printed.{IsKept, IsStatement, IsTallied};
ghost use Rattle.schedule.specs.declared.tally.Tally.{Tally as OneTally};
ghost use Rattle.statement_runs.specs.Tallies.{Grows, added};
ghost use Rattle.statement_steps.specs.Steps.{IsStep};

use crate::executing::{executed, explained_by};
use crate::left_out::omit;
use crate::row_attempts::{attempt_explain, attempt_rows};
use expression_binder::Param;
use pg_values::{PgText, Refusal};
use plan_tree::Planning;
use prepared_statements::PreparedList;
use schedule::Tally;
use sql_ast::{ExprList, NameList, RowStatement};
use statement_steps::{Attempt, Caller, Rest, Stop, hold_if_repeatable};
use std::rc::Rc;
use stores::Stores;

// What is prepared has changed, or is refused to.
fn list(stores: &Stores, caller: Caller, done: Result<(), Refusal>) -> Result<(), Stop>
    requires { MayAttempt stores.now caller }
    ensures is { (ps : List Prepared) (told : Result (List Prepared) OneFault) → IsAnswerBy (λ u. ps) done told → IsStep (λ u. u) result stores.now stores.now caller (caller.cmd + 1) (attempted.taken told) }
    ensures kept { (old new : List Prepared) (told : Result (List Prepared) OneFault) → IsAnswerBy (λ u. new) done told → OnErr done (new ≡ old) → IsKept (ended result) old new (executions.listed_after old told) }
{
    match done {
        Ok(()) => Ok(()),
        Err(Refusal::Sql(fault)) => Err(Stop::Refused(fault)),
        Err(Refusal::NoMemory) => Err(Stop::NoMemory),
    }
}

/// The statement is prepared, or refused.
pub(crate) fn attempt_prepare(
    attempt: &Attempt<'_>,
    stores: &mut Stores,
    prepared: &mut PreparedList,
    name: &PgText,
    types: &NameList,
    statement: &Rc<RowStatement>,
) -> Result<(), Stop>
    requires { MayAttempt stores.old attempt.now.caller }
    ensures is { IsStep (λ u. u) result stores.old stores.new attempt.now.caller (attempt.now.caller.cmd + 1) (attempted.listing attempt.now.caller (prepared_with (listed prepared.old) name.now types.now (row_tree statement.now.value))) }
    ensures kept { IsKept (ended result) (listed prepared.old) (listed prepared.new) (executions.listed_after (listed prepared.old) (prepared_with (listed prepared.old) name.now types.now (row_tree statement.now.value))) }
{
    hold_if_repeatable(attempt, stores)?;
    let done = prepared.prepare(attempt.alloc, name, types, statement);
    list(stores, attempt.caller, done)
}

/// The statement of that name is forgotten.
pub(crate) fn attempt_deallocate(
    attempt: &Attempt<'_>,
    stores: &mut Stores,
    prepared: &mut PreparedList,
    name: &PgText,
) -> Result<(), Stop>
    requires { MayAttempt stores.old attempt.now.caller }
    ensures is { IsStep (λ u. u) result stores.old stores.new attempt.now.caller (attempt.now.caller.cmd + 1) (attempted.listing attempt.now.caller (deallocated (listed prepared.old) name.now)) }
    ensures kept { IsKept (ended result) (listed prepared.old) (listed prepared.new) (executions.listed_after (listed prepared.old) (deallocated (listed prepared.old) name.now)) }
{
    hold_if_repeatable(attempt, stores)?;
    let done = prepared.deallocate(attempt.alloc, name.as_bytes());
    list(stores, attempt.caller, done)
}

/// All of them are.
pub(crate) fn attempt_deallocate_all(
    attempt: &Attempt<'_>,
    stores: &mut Stores,
    prepared: &mut PreparedList,
) -> Result<(), Stop>
    requires { MayAttempt stores.old attempt.now.caller }
    ensures is { IsStep (λ u. u) result stores.old stores.new attempt.now.caller (attempt.now.caller.cmd + 1) (attempted.listing attempt.now.caller (Ok [])) }
    ensures kept { IsKept (ended result) (listed prepared.old) (listed prepared.new) [] }
{
    hold_if_repeatable(attempt, stores)?;
    prepared.deallocate_all();
    list(stores, attempt.caller, Ok(()))
}

// It is refused before it does anything.
fn stop_for(stores: &Stores, caller: Caller, refusal: Refusal) -> Stop
    requires { MayAttempt stores.now caller }
    ensures is { (left : Option Left) (before : List ℕ) (f : History → Made Ended) →
        ((h : History) → Stands stores.now h → (fault : OneFault) → refusal ≡ Sql fault → f h ≡ halted [] (Refused fault)) →
        IsStatement left (Err result) stores.now stores.now before before caller f }
    ensures tally { (before more : OneTally) → ((fault : OneFault) → refusal ≡ Sql fault → before ≡ added before more) → Grows {X = Unit {0}} (Err result) before before more }
{
    match refusal {
        Refusal::Sql(fault) => Stop::Refused(fault),
        Refusal::NoMemory => Stop::NoMemory,
    }
}

pub(crate) fn attempt_execute(
    attempt: &Attempt<'_>,
    stores: &mut Stores,
    how: Planning,
    trailed: bool,
    rest: Option<Rest>,
    prepared: &PreparedList,
    name: &[u8],
    arguments: &ExprList,
    tally: &mut Tally,
    out: &mut Vec<u8>,
) -> Result<(), Stop>
    requires may { MayAttempt stores.old attempt.now.caller }
    requires rest { MayGoOn stores.old attempt.now.caller rest }
    ensures tally { IsTallied rest result stores.old tally.old tally.new attempt.now.caller (λ h. given.execution_given how attempt.now.names.now attempt.now.caller rest (executions.executed h attempt.now.caller.session rest (listed prepared.now) name.now (trees arguments.now)) h) }
    ensures is { IsStatement rest (ended result) stores.old stores.new out.old.items out.new.items attempt.now.caller (λ h. attempted.execute_attempted trailed how attempt.now.names.now attempt.now.caller rest (executions.executed h attempt.now.caller.session rest (listed prepared.now) name.now (trees arguments.now)) h) }
{
    match executed(attempt, stores, &rest, prepared, name, arguments) {
        Ok(execution) => attempt_rows(
            attempt,
            stores,
            &execution.params,
            how,
            trailed,
            rest,
            &execution.statement,
            tally,
            out,
        ),
        Err(refusal) => Err(stop_for(stores, attempt.caller, refusal)),
    }
}

// The plan of a SELECT that was prepared. No other statement comes here.
fn plan_execution(
    attempt: &Attempt<'_>,
    stores: &mut Stores,
    params: &[Param],
    how: Planning,
    analyze: bool,
    statement: &RowStatement,
    out: &mut Vec<u8>,
) -> Result<(), Stop>
    requires { MayAttempt stores.old attempt.now.caller }
    ensures { (left : Option Left) → IsStatement left (ended result) stores.old stores.new out.old.items out.new.items attempt.now.caller (attempted.plan_of_execution how attempt.now.names.now params.now attempt.now.caller analyze (row_tree statement.now)) }
{
    match statement {
        RowStatement::Select(s) => {
            attempt_explain(attempt, stores, params, how, analyze, s, out)
        }
        RowStatement::Insert(_) => omit(attempt, stores, b"INSERT"),
        RowStatement::Update(_) => omit(attempt, stores, b"UPDATE"),
        RowStatement::Delete(_) => omit(attempt, stores, b"DELETE"),
    }
}

pub(crate) fn attempt_explain_execute(
    attempt: &Attempt<'_>,
    stores: &mut Stores,
    how: Planning,
    prepared: &PreparedList,
    analyze: bool,
    name: &[u8],
    arguments: &ExprList,
    out: &mut Vec<u8>,
) -> Result<(), Stop>
    requires { MayAttempt stores.old attempt.now.caller }
    ensures { (left : Option Left) → IsStatement left (ended result) stores.old stores.new out.old.items out.new.items attempt.now.caller (attempted.explain_execute_attempted how attempt.now.names.now attempt.now.caller (listed prepared.now) analyze name.now (trees arguments.now)) }
{
    match explained_by(attempt, stores, prepared, name, arguments) {
        Ok(execution) => plan_execution(
            attempt,
            stores,
            &execution.params,
            how,
            analyze,
            &execution.statement,
            out,
        ),
        Err(refusal) => Err(stop_for(stores, attempt.caller, refusal)),
    }
}
