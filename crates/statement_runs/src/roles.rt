ghost use Rattle.std.specs.Prelude.{◌≡◌, [], IfOk};
ghost use Rattle.sql_ast.specs.Expressions.{trees};
ghost use Rattle.sessions.specs.Answers.{IsAnswerBy};
ghost use Rattle.sql_ast.specs.Queries.{row_tree};
ghost use Rattle.sql_ast.specs.Statements.{statement_tree};
ghost use Rattle.prepared_statements.specs.Kept.{listed};
ghost use Rattle.statement_runs.specs.Executions.{executed_over};
ghost use Rattle.statement_runs.specs.Roles as roles;

use crate::executing::executed_bare;
use crate::{reset, set};
use alter_table::detach_misplaced;
use expression_binder::Param;
use pg_values::{Fault, NoMemory, Refusal};
use prepared_statements::PreparedList;
use select_statement::cancelled;
use sessions::{Place, Role, Settings};
use sql_ast::{Command, Detachment, ExprList, Query, RowStatement, Statement};
use std::alloc::Global;
use table_statements::lock_misplaced;

/// What the statement is in the course of its session.
pub fn role_of(statement: &Statement) -> Role
    ensures { result ≡ roles.role_of (statement_tree statement.now) }
{
    match statement {
        Statement::Command(Command::Begin(level)) => Role::Begin(*level),
        Statement::Command(Command::Commit) => Role::Commit,
        Statement::Command(Command::Rollback) => Role::Rollback,
        Statement::Command(Command::Set(_, _) | Command::Reset(_)) => Role::Set,
        _ => Role::Query,
    }
}

/// Whether the statement takes a snapshot.
pub fn looks(statement: &Statement) -> bool
    ensures { result ≡ roles.looks (statement_tree statement.now) }
{
    match statement {
        Statement::Command(
            Command::Begin(_)
            | Command::Commit
            | Command::Rollback
            | Command::Set(_, _)
            | Command::Reset(_)
            | Command::Lock(_, _),
        ) => false,
        _ => true,
    }
}

/// The settings after the statement: SET and RESET change them, or are refused with 42704 or 22023.
pub fn changed_settings(
    alloc: Global,
    settings: Settings,
    statement: &Statement,
) -> Result<Settings, Refusal>
    ensures { IsAnswerBy (λ g. g) result (roles.changed settings (statement_tree statement.now)) }
{
    match statement {
        Statement::Command(Command::Set(name, value)) => {
            set(alloc, settings, name.as_bytes(), value)
        }
        Statement::Command(Command::Reset(name)) => reset(alloc, settings, name.as_bytes()),
        _ => Ok(settings),
    }
}

/// Why the statement may not stand there.
pub(crate) fn misplaced(
    alloc: Global,
    place: Place,
    statement: &Statement,
) -> Result<Option<Fault>, NoMemory>
    ensures { IfOk result (λ f. f ≡ roles.misplaced place (statement_tree statement.now)) }
{
    match statement {
        Statement::Command(Command::Lock(_, _)) => {
            Ok(lock_misplaced(alloc, place.alone, place.explicit))
        }
        Statement::Command(Command::Detach(_, _, Detachment::Concurrently)) => {
            detach_misplaced(alloc, place.alone, place.explicit)
        }
        _ => Ok(None),
    }
}

fn cancelled_by_rows(
    alloc: Global,
    session: u32,
    sessions: u32,
    params: &[Param],
    statement: &RowStatement,
) -> Result<Vec<usize>, NoMemory>
    ensures { IfOk result (λ cut. cut.items ≡ roles.row_cancelled params.now session sessions (row_tree statement.now)) }
{
    match statement {
        RowStatement::Select(select) => cancelled(alloc, select, params, session, sessions),
        _ => Ok(Vec::new(alloc)),
    }
}

fn cancelled_by_execution(
    alloc: Global,
    session: u32,
    sessions: u32,
    prepared: &PreparedList,
    name: &[u8],
    arguments: &ExprList,
) -> Result<Vec<usize>, NoMemory>
    ensures { IfOk result (λ cut. cut.items ≡ roles.execution_cancelled session sessions (executed_over [] (listed prepared.now) name.now (trees arguments.now))) }
{
    match executed_bare(alloc, prepared, name, arguments) {
        Ok(execution) => {
            let params = &execution.params;
            cancelled_by_rows(alloc, session, sessions, params, &execution.statement)
        }
        Err(Refusal::Sql(_)) => Ok(Vec::new(alloc)),
        Err(Refusal::NoMemory) => Err(NoMemory),
    }
}

/// The sessions whose waits the statement of that session cancels, one after the other.
pub(crate) fn cancelled_by(
    alloc: Global,
    session: u32,
    sessions: u32,
    prepared: &PreparedList,
    statement: &Statement,
) -> Result<Vec<usize>, NoMemory>
    ensures { IfOk result (λ cut. cut.items ≡ roles.cancelled_by session sessions (listed prepared.now) (statement_tree statement.now)) }
{
    let others = sessions.saturating_sub(1);
    match statement {
        Statement::Query(Query::Rows(statement)) => {
            cancelled_by_rows(alloc, session, others, &[], statement)
        }
        Statement::Query(Query::ExplainSelect(true, select)) => {
            cancelled(alloc, select, &[], session, others)
        }
        Statement::Query(
            Query::Execute(name, arguments) | Query::ExplainExecute(true, name, arguments),
        ) => cancelled_by_execution(alloc, session, others, prepared, name.as_bytes(), arguments),
        _ => Ok(Vec::new(alloc)),
    }
}
