ghost use Rattle.std.specs.Prelude.{◌≡◌, ◌&&◌, ◌++◌, Err, OnOk, Option, Result, codes, length, map};
ghost use Rattle.history.specs.History.{History};
ghost use Rattle.part_catalog.specs.Stands.{CatalogueStands};
ghost use Rattle.stores.specs.declared.stores.Stores.{Stores as OneStores};
ghost use Rattle.sql_ast.specs.Expressions.{trees};
ghost use Rattle.sql_ast.specs.Queries.{maybe_tree, row_tree, select_tree, setting};
ghost use Rattle.statement_steps.specs.Attempts.{MayAttempt, MayGoOn};
ghost use Rattle.statement_steps.specs.Ended.{ended};
ghost use Rattle.statement_steps.specs.Made.{Made};
ghost use Rattle.statement_steps.specs.declared.caller.Caller.{Caller as OneCaller};
ghost use Rattle.statement_steps.specs.declared.rest.Rest.{Rest as Left};
ghost use Rattle.select_statement.specs.Selected as selected;
ghost use Rattle.insert_statement.specs.Inserted.{inserted};
ghost use Rattle.change_statement.specs.Changed.{Told, told_by};
ghost use Rattle.change_statement.specs.Deleted.{deleted};
ghost use Rattle.change_statement.specs.Running.{IsCommand};
ghost use Rattle.change_statement.specs.Updated.{updated};
ghost use Rattle.statement_runs.specs.Attempted as attempted;
ghost use Rattle.statement_runs.specs.Given as given;
ghost use Rattle.statement_runs.specs.Printed.{IsStatement, IsTallied};
ghost use Rattle.statement_runs.specs.Tallies.{added};

use crate::room::check_room;
use crate::tallies::count;
use crate::trails::write_trail;
use change_statement::{ChangedRows, delete, update};
use expression_binder::Param;
use insert_statement::insert;
use out_text::write_table;
use part_catalog::Catalog;
use pg_values::NoMemory;
use plan_tree::Planning;
use schedule::{BlockKind, Tally};
use select_statement::{Answered, explain, select};
use sql_ast::{Delete, Insert, RowStatement, Select, Update};
use statement_steps::{Attempt, Caller, Rest, Stop};
use std::alloc::Global;
use stores::Stores;

fn is_step(kind: BlockKind) -> bool
    ensures { result ≡ attempted.is_step kind }
{
    match kind {
        BlockKind::Step => true,
        BlockKind::Setup | BlockKind::Teardown | BlockKind::ControlTeardown => false,
    }
}

// The trail of a statement of a step is printed where the run is asked for it.
pub(crate) fn is_trailed(trail: bool, caller: Caller) -> bool
    ensures { result ≡ (trail && attempted.is_step caller.kind) }
{
    trail && is_step(caller.kind)
}

// The answer is counted, and printed as a table, and the trail behind it.
fn print_answer(
    alloc: Global,
    catalog: &Catalog,
    trailed: bool,
    answered: &Answered,
    tally: &mut Tally,
    out: &mut Vec<u8>,
) -> Result<(), NoMemory>
    ensures tally { OnOk result (tally.new ≡ added tally.old (given.of_select (selected.told_by answered.now))) }
    ensures text { OnOk result ((h : History) → CatalogueStands catalog.now h → out.new.items ≡ out.old.items ++ attempted.answer_text trailed h (selected.told_by answered.now)) }
{
    let rows = answered.answer.rows.len() as u64;
    count(tally, rows, answered.trail.leaves().len() as u64);
    write_table(alloc, &answered.answer, out)?;
    write_trail(
        alloc,
        catalog,
        trailed,
        b"SELECT",
        rows,
        answered.trail.leaves(),
        out,
    )
}

fn attempt_select(
    attempt: &Attempt<'_>,
    stores: &mut Stores,
    params: &[Param],
    how: Planning,
    trailed: bool,
    statement: &Select,
    tally: &mut Tally,
    out: &mut Vec<u8>,
) -> Result<(), Stop>
    requires { MayAttempt stores.old attempt.now.caller }
    ensures tally { (left : Option Left) → IsTallied left result stores.old tally.old tally.new attempt.now.caller (given.select_given how attempt.now.names.now params.now attempt.now.caller (select_tree statement.now)) }
    ensures is { (left : Option Left) → IsStatement left (ended result) stores.old stores.new out.old.items out.new.items attempt.now.caller (attempted.select_attempted trailed how attempt.now.names.now params.now attempt.now.caller (select_tree statement.now)) }
{
    let alloc = attempt.alloc;
    check_room(stores, attempt.caller);
    match select(attempt, stores, params, how, statement) {
        Ok(answered) => {
            match print_answer(alloc, &stores.catalog, trailed, &answered, tally, out) {
                Ok(()) => Ok(()),
                Err(NoMemory) => Err(Stop::NoMemory),
            }
        }
        Err(stop) => Err(stop),
    }
}

fn attempt_insert(
    attempt: &Attempt<'_>,
    stores: &mut Stores,
    params: &[Param],
    trailed: bool,
    statement: &Insert,
    out: &mut Vec<u8>,
) -> Result<(), Stop>
    requires { MayAttempt stores.old attempt.now.caller }
    ensures { (left : Option Left) → IsStatement left (ended result) stores.old stores.new out.old.items out.new.items attempt.now.caller
        (attempted.printed (attempted.inserted_text trailed (length (map trees statement.now.rows))) (inserted attempt.now.names.now params.now attempt.now.caller statement.now.table statement.now.columns (map trees statement.now.rows))) }
{
    let alloc = attempt.alloc;
    check_room(stores, attempt.caller);
    let rows = statement.rows.as_slice().len() as u64;
    match insert(attempt, stores, params, statement) {
        Ok(()) => match write_trail(alloc, &stores.catalog, trailed, b"INSERT", rows, &[], out) {
            Ok(()) => Ok(()),
            Err(NoMemory) => Err(Stop::NoMemory),
        },
        Err(stop) => Err(stop),
    }
}

// What an UPDATE or a DELETE has read is counted, and its trail is printed.
fn print_changes(
    alloc: Global,
    catalog: &Catalog,
    trailed: bool,
    word: &[u8],
    changes: &ChangedRows,
    tally: &mut Tally,
    out: &mut Vec<u8>,
) -> Result<(), NoMemory>
    ensures tally { OnOk result (tally.new ≡ added tally.old (given.of_change (told_by changes.now))) }
    ensures text { OnOk result ((h : History) → CatalogueStands catalog.now h → out.new.items ≡ out.old.items ++ attempted.changed_text trailed word.now h (told_by changes.now)) }
{
    count(tally, 0, changes.reads.as_slice().len() as u64);
    write_trail(
        alloc,
        catalog,
        trailed,
        word,
        changes.count,
        changes.reads.as_slice(),
        out,
    )
}

// An UPDATE or a DELETE that is done is counted, and its trail is printed; the stop of one that is not is handed on.
fn finish_changes(
    alloc: Global,
    stores: &Stores,
    trailed: bool,
    word: &[u8],
    done: Result<ChangedRows, Stop>,
    tally: &mut Tally,
    out: &mut Vec<u8>,
) -> Result<(), Stop>
    ensures tally { (left : Option Left) (old : OneStores) (caller : OneCaller) (f : History → Made Told) → IsCommand left told_by done old stores.now caller f →
        IsTallied left result old tally.old tally.new caller (λ h. given.given given.of_change (f h).told) }
    ensures is { (left : Option Left) (old : OneStores) (caller : OneCaller) (f : History → Made Told) → IsCommand left told_by done old stores.now caller f →
        IsStatement left (ended result) old stores.now out.old.items out.new.items caller (attempted.printed (attempted.changed_text trailed word.now) f) }
{
    match done {
        Ok(changes) => {
            match print_changes(alloc, &stores.catalog, trailed, word, &changes, tally, out) {
                Ok(()) => Ok(()),
                Err(NoMemory) => Err(Stop::NoMemory),
            }
        }
        Err(stop) => Err(stop),
    }
}

fn attempt_update(
    attempt: &Attempt<'_>,
    stores: &mut Stores,
    params: &[Param],
    how: Planning,
    trailed: bool,
    rest: Option<Rest>,
    statement: &Update,
    tally: &mut Tally,
    out: &mut Vec<u8>,
) -> Result<(), Stop>
    requires may { MayAttempt stores.old attempt.now.caller }
    requires rest { MayGoOn stores.old attempt.now.caller rest }
    ensures tally { IsTallied rest result stores.old tally.old tally.new attempt.now.caller (λ h. given.given given.of_change (updated how attempt.now.names.now params.now attempt.now.caller rest statement.now.table (map setting statement.now.assignments) (maybe_tree statement.now.condition) h).told) }
    ensures is { IsStatement rest (ended result) stores.old stores.new out.old.items out.new.items attempt.now.caller
        (attempted.printed (attempted.changed_text trailed (codes "UPDATE")) (updated how attempt.now.names.now params.now attempt.now.caller rest statement.now.table (map setting statement.now.assignments) (maybe_tree statement.now.condition))) }
{
    check_room(stores, attempt.caller);
    let done = update(attempt, stores, params, how, rest, statement);
    finish_changes(attempt.alloc, stores, trailed, b"UPDATE", done, tally, out)
}

fn attempt_delete(
    attempt: &Attempt<'_>,
    stores: &mut Stores,
    params: &[Param],
    how: Planning,
    trailed: bool,
    rest: Option<Rest>,
    statement: &Delete,
    tally: &mut Tally,
    out: &mut Vec<u8>,
) -> Result<(), Stop>
    requires may { MayAttempt stores.old attempt.now.caller }
    requires rest { MayGoOn stores.old attempt.now.caller rest }
    ensures tally { IsTallied rest result stores.old tally.old tally.new attempt.now.caller (λ h. given.given given.of_change (deleted how attempt.now.names.now params.now attempt.now.caller rest statement.now.table (maybe_tree statement.now.condition) h).told) }
    ensures is { IsStatement rest (ended result) stores.old stores.new out.old.items out.new.items attempt.now.caller
        (attempted.printed (attempted.changed_text trailed (codes "DELETE")) (deleted how attempt.now.names.now params.now attempt.now.caller rest statement.now.table (maybe_tree statement.now.condition))) }
{
    check_room(stores, attempt.caller);
    let done = delete(attempt, stores, params, how, rest, statement);
    finish_changes(attempt.alloc, stores, trailed, b"DELETE", done, tally, out)
}

pub(crate) fn attempt_rows(
    attempt: &Attempt<'_>,
    stores: &mut Stores,
    params: &[Param],
    how: Planning,
    trailed: bool,
    rest: Option<Rest>,
    statement: &RowStatement,
    tally: &mut Tally,
    out: &mut Vec<u8>,
) -> Result<(), Stop>
    requires may { MayAttempt stores.old attempt.now.caller }
    requires rest { MayGoOn stores.old attempt.now.caller rest }
    ensures tally { IsTallied rest result stores.old tally.old tally.new attempt.now.caller (given.row_given how attempt.now.names.now params.now attempt.now.caller rest (row_tree statement.now)) }
    ensures is { IsStatement rest (ended result) stores.old stores.new out.old.items out.new.items attempt.now.caller (attempted.row_attempted trailed how attempt.now.names.now params.now attempt.now.caller rest (row_tree statement.now)) }
{
    match statement {
        RowStatement::Select(s) => {
            attempt_select(attempt, stores, params, how, trailed, s, tally, out)
        }
        RowStatement::Insert(s) => attempt_insert(attempt, stores, params, trailed, s, out),
        RowStatement::Update(s) => attempt_update(
            attempt, stores, params, how, trailed, rest, s, tally, out,
        ),
        RowStatement::Delete(s) => attempt_delete(
            attempt, stores, params, how, trailed, rest, s, tally, out,
        ),
    }
}

/// The plan is printed as a table. With ANALYZE the SELECT is run too; nothing of that is counted.
pub(crate) fn attempt_explain(
    attempt: &Attempt<'_>,
    stores: &mut Stores,
    params: &[Param],
    how: Planning,
    analyze: bool,
    statement: &Select,
    out: &mut Vec<u8>,
) -> Result<(), Stop>
    requires { MayAttempt stores.old attempt.now.caller }
    ensures { (left : Option Left) → IsStatement left (ended result) stores.old stores.new out.old.items out.new.items attempt.now.caller (attempted.plan_attempted how attempt.now.names.now params.now attempt.now.caller analyze (select_tree statement.now)) }
{
    check_room(stores, attempt.caller);
    match explain(attempt, stores, params, how, analyze, statement) {
        Ok(answer) => match write_table(attempt.alloc, &answer, out) {
            Ok(()) => Ok(()),
            Err(NoMemory) => Err(Stop::NoMemory),
        },
        Err(stop) => Err(stop),
    }
}
