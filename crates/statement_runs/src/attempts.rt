ghost use Rattle.std.specs.Prelude.{◌≡◌, ℕ, List, Option, Result};
ghost use Rattle.sql_ast.specs.Commands.{attaches, bound_tree, command_tree, detaches, drops, locks, makes_partition, makes_table};
ghost use Rattle.sql_ast.specs.Queries.{query_tree};
ghost use Rattle.sql_ast.specs.Statements.{statement_tree};
ghost use Rattle.prepared_statements.specs.Kept.{listed};
ghost use Rattle.prepared_statements.specs.Prepared.{Prepared};
ghost use Rattle.statement_steps.specs.declared.rest.Rest.{Rest as OneRest};
ghost use Rattle.statement_steps.specs.Attempts.{MayAttempt, MayGoOn};
ghost use Rattle.statement_steps.specs.Ended.{ended};
ghost use Rattle.statement_runs.specs.Attempted as attempted;
ghost use Rattle.statement_runs.specs.Executions as executions;
ghost use Rattle.statement_runs.specs.Given as given;
ghost use Rattle.statement_runs.specs.OtherCommands.{AltersNoTable, MakesNoTable};
ghost use Rattle.statement_runs.specs.Printed.{IsKept, IsStatement, IsTallied};

use crate::Options;
use crate::left_out::{command_word, omit};
use crate::prepared_attempts::{
    attempt_deallocate, attempt_deallocate_all, attempt_execute, attempt_explain_execute,
    attempt_prepare,
};
use crate::room::check_room;
use crate::row_attempts::{attempt_explain, attempt_rows, is_trailed};
use alter_table::{attach, detach, detach_concurrently, finalize};
use pg_values::{LockMode, PgText};
use plan_tree::Planning;
use prepared_statements::PreparedList;
use schedule::Tally;
use sessions::{PlanCacheMode, Settings};
use sql_ast::{
    BoundText, ColumnList, Command, Detachment, LockedTableList, NameList, Partitioning, Query,
    Statement,
};
use statement_steps::{Attempt, Caller, Ending, Rest, Stop, ended};
use std::alloc::Global;
use stores::Stores;
use table_statements::{create_partition, create_table, drop_tables, lock};

fn attempt_attach(
    attempt: &Attempt<'_>,
    stores: &mut Stores,
    parent: &PgText,
    name: &PgText,
    bound: &BoundText,
) -> Result<Ending, Stop>
    requires { MayAttempt stores.old attempt.now.caller }
    ensures { (rest : Option OneRest) (ps : List Prepared) (out : List ℕ) → IsStatement rest result stores.old stores.new out out attempt.now.caller (attempted.command_attempted attempt.now.names.now attempt.now.caller rest ps (attaches parent.now name.now (bound_tree bound.now))) }
{
    check_room(stores, attempt.caller);
    let above = parent.as_bytes();
    let table = name.as_bytes();
    ended(attach(attempt, stores, above, table, bound))
}

fn attempt_detach(
    attempt: &Attempt<'_>,
    stores: &mut Stores,
    rest: Option<Rest>,
    parent: &PgText,
    name: &PgText,
    how: &Detachment,
) -> Result<Ending, Stop>
    requires { MayAttempt stores.old attempt.now.caller }
    ensures { (ps : List Prepared) (out : List ℕ) → IsStatement rest result stores.old stores.new out out attempt.now.caller (attempted.command_attempted attempt.now.names.now attempt.now.caller rest ps (detaches parent.now name.now how.now)) }
{
    check_room(stores, attempt.caller);
    let above = parent.as_bytes();
    let table = name.as_bytes();
    match how {
        Detachment::AtOnce => ended(detach(attempt, stores, above, table)),
        Detachment::Concurrently => detach_concurrently(attempt, stores, rest, above, table),
        Detachment::Finalize => ended(finalize(attempt, stores, above, table)),
    }
}

fn attempt_create_table(
    attempt: &Attempt<'_>,
    stores: &mut Stores,
    name: &PgText,
    columns: &ColumnList,
    by: &Option<Partitioning>,
) -> Result<Ending, Stop>
    requires { MayAttempt stores.old attempt.now.caller }
    ensures { (rest : Option OneRest) (ps : List Prepared) (out : List ℕ) → IsStatement rest result stores.old stores.new out out attempt.now.caller (attempted.command_attempted attempt.now.names.now attempt.now.caller rest ps (makes_table name.now columns.now by.now)) }
{
    ended(create_table(attempt, stores, name, columns, by))
}

fn attempt_create_partition(
    attempt: &Attempt<'_>,
    stores: &mut Stores,
    name: &PgText,
    parent: &PgText,
    bound: &BoundText,
    by: &Option<Partitioning>,
) -> Result<Ending, Stop>
    requires { MayAttempt stores.old attempt.now.caller }
    ensures { (rest : Option OneRest) (ps : List Prepared) (out : List ℕ) → IsStatement rest result stores.old stores.new out out attempt.now.caller (attempted.command_attempted attempt.now.names.now attempt.now.caller rest ps (makes_partition name.now parent.now (bound_tree bound.now) by.now)) }
{
    check_room(stores, attempt.caller);
    ended(create_partition(attempt, stores, name, parent, bound, by))
}

fn attempt_drop(
    attempt: &Attempt<'_>,
    stores: &mut Stores,
    if_there: bool,
    tables: &NameList,
) -> Result<Ending, Stop>
    requires { MayAttempt stores.old attempt.now.caller }
    ensures { (rest : Option OneRest) (ps : List Prepared) (out : List ℕ) → IsStatement rest result stores.old stores.new out out attempt.now.caller (attempted.command_attempted attempt.now.names.now attempt.now.caller rest ps (drops if_there tables.now)) }
{
    check_room(stores, attempt.caller);
    ended(drop_tables(attempt, stores, if_there, tables.as_slice()))
}

fn attempt_lock(
    attempt: &Attempt<'_>,
    stores: &mut Stores,
    tables: &LockedTableList,
    mode: LockMode,
) -> Result<Ending, Stop>
    requires { MayAttempt stores.old attempt.now.caller }
    ensures { (rest : Option OneRest) (ps : List Prepared) (out : List ℕ) → IsStatement rest result stores.old stores.new out out attempt.now.caller (attempted.command_attempted attempt.now.names.now attempt.now.caller rest ps (locks tables.now mode)) }
{
    check_room(stores, attempt.caller);
    ended(lock(attempt, stores, tables.as_slice(), mode))
}

// LOCK and DEALLOCATE. What has no case is left out.
fn attempt_other(
    attempt: &Attempt<'_>,
    stores: &mut Stores,
    prepared: &mut PreparedList,
    command: &Command,
) -> Result<Ending, Stop>
    requires may { MayAttempt stores.old attempt.now.caller }
    requires made { MakesNoTable command.now }
    requires altered { AltersNoTable command.now }
    ensures is { (rest : Option OneRest) (out : List ℕ) → IsStatement rest result stores.old stores.new out out attempt.now.caller (attempted.command_attempted attempt.now.names.now attempt.now.caller rest (listed prepared.old) (command_tree command.now)) }
    ensures kept { IsKept result (listed prepared.old) (listed prepared.new) (executions.command_kept (listed prepared.old) (command_tree command.now)) }
{
    match command {
        Command::Lock(tables, mode) => attempt_lock(attempt, stores, tables, *mode),
        Command::Deallocate(name) => ended(attempt_deallocate(attempt, stores, prepared, name)),
        Command::DeallocateAll => ended(attempt_deallocate_all(attempt, stores, prepared)),
        _ => ended(omit(attempt, stores, command_word(command))),
    }
}

// ALTER TABLE, and what is none.
fn attempt_alter(
    attempt: &Attempt<'_>,
    stores: &mut Stores,
    rest: Option<Rest>,
    prepared: &mut PreparedList,
    command: &Command,
) -> Result<Ending, Stop>
    requires may { MayAttempt stores.old attempt.now.caller }
    requires made { MakesNoTable command.now }
    ensures is { (out : List ℕ) → IsStatement rest result stores.old stores.new out out attempt.now.caller (attempted.command_attempted attempt.now.names.now attempt.now.caller rest (listed prepared.old) (command_tree command.now)) }
    ensures kept { IsKept result (listed prepared.old) (listed prepared.new) (executions.command_kept (listed prepared.old) (command_tree command.now)) }
{
    match command {
        Command::Attach(parent, name, bound) => {
            attempt_attach(attempt, stores, parent, name, bound)
        }
        Command::Detach(parent, name, how) => {
            attempt_detach(attempt, stores, rest, parent, name, how)
        }
        _ => attempt_other(attempt, stores, prepared, command),
    }
}

fn attempt_command(
    attempt: &Attempt<'_>,
    stores: &mut Stores,
    rest: Option<Rest>,
    prepared: &mut PreparedList,
    command: &Command,
) -> Result<Ending, Stop>
    requires { MayAttempt stores.old attempt.now.caller }
    ensures is { (out : List ℕ) → IsStatement rest result stores.old stores.new out out attempt.now.caller (attempted.command_attempted attempt.now.names.now attempt.now.caller rest (listed prepared.old) (command_tree command.now)) }
    ensures kept { IsKept result (listed prepared.old) (listed prepared.new) (executions.command_kept (listed prepared.old) (command_tree command.now)) }
{
    match command {
        Command::CreateTable(name, columns, by) => {
            attempt_create_table(attempt, stores, name, columns, by)
        }
        Command::CreatePartition(name, parent, bound, by) => {
            attempt_create_partition(attempt, stores, name, parent, bound, by)
        }
        Command::DropTables(if_there, tables) => {
            attempt_drop(attempt, stores, *if_there, tables)
        }
        _ => attempt_alter(attempt, stores, rest, prepared, command),
    }
}

fn attempt_query(
    attempt: &Attempt<'_>,
    stores: &mut Stores,
    how: Planning,
    trailed: bool,
    rest: Option<Rest>,
    prepared: &mut PreparedList,
    query: &Query,
    tally: &mut Tally,
    out: &mut Vec<u8>,
) -> Result<(), Stop>
    requires may { MayAttempt stores.old attempt.now.caller }
    requires rest { MayGoOn stores.old attempt.now.caller rest }
    ensures tally { IsTallied rest result stores.old tally.old tally.new attempt.now.caller (given.query_given how attempt.now.names.now attempt.now.caller rest (listed prepared.old) (query_tree query.now)) }
    ensures is { IsStatement rest (ended result) stores.old stores.new out.old.items out.new.items attempt.now.caller (attempted.query_attempted trailed how attempt.now.names.now attempt.now.caller rest (listed prepared.old) (query_tree query.now)) }
    ensures kept { IsKept (ended result) (listed prepared.old) (listed prepared.new) (executions.query_kept (listed prepared.old) (query_tree query.now)) }
{
    match query {
        Query::Rows(s) => attempt_rows(attempt, stores, &[], how, trailed, rest, s, tally, out),
        Query::Prepare(name, types, s) => {
            attempt_prepare(attempt, stores, prepared, name, types, s)
        }
        Query::Execute(name, arguments) => {
            let name = name.as_bytes();
            attempt_execute(
                attempt, stores, how, trailed, rest, prepared, name, arguments, tally, out,
            )
        }
        Query::ExplainSelect(analyze, s) => {
            attempt_explain(attempt, stores, &[], how, *analyze, s, out)
        }
        Query::ExplainExecute(analyze, name, arguments) => {
            let name = name.as_bytes();
            attempt_explain_execute(
                attempt, stores, how, prepared, *analyze, name, arguments, out,
            )
        }
    }
}

// How the session plans.
fn planning_of(settings: Settings) -> Planning
    ensures { result ≡ attempted.planning_of settings }
{
    Planning {
        prunes: settings.enable_partition_pruning,
        hashes: settings.enable_hashjoin,
        pairs: settings.enable_partitionwise_join,
        is_generic: matches!(settings.plan_cache_mode, PlanCacheMode::ForceGenericPlan),
    }
}

/// A statement from its beginning, or from where it stood, up to its end or to a wait. Where it is done it
/// prints its answer, if it has one, and its trail, where that is asked for; what it gives and reads is counted.
/// PREPARE and DEALLOCATE change what its session has prepared.
pub(crate) fn attempt(
    alloc: Global,
    stores: &mut Stores,
    options: &Options,
    caller: Caller,
    rest: Option<Rest>,
    settings: Settings,
    prepared: &mut PreparedList,
    statement: &Statement,
    tally: &mut Tally,
    out: &mut Vec<u8>,
) -> Result<Ending, Stop>
    requires may { MayAttempt stores.old caller }
    requires rest { MayGoOn stores.old caller rest }
    ensures tally { IsTallied rest result stores.old tally.old tally.new caller (given.statement_given options.now caller rest settings (listed prepared.old) (statement_tree statement.now)) }
    ensures is { IsStatement rest result stores.old stores.new out.old.items out.new.items caller (attempted.attempted options.now caller rest settings (listed prepared.old) (statement_tree statement.now)) }
    ensures kept { IsKept result (listed prepared.old) (listed prepared.new) (executions.kept (listed prepared.old) (statement_tree statement.now)) }
{
    let attempt = Attempt {
        alloc,
        names: &options.names,
        caller,
    };
    match statement {
        Statement::Command(command) => {
            attempt_command(&attempt, stores, rest, prepared, command)
        }
        Statement::Query(query) => {
            let how = planning_of(settings);
            let trailed = is_trailed(options.trail, caller);
            let done = attempt_query(
                &attempt, stores, how, trailed, rest, prepared, query, tally, out,
            );
            ended(done)
        }
    }
}
