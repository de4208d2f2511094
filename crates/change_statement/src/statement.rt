ghost use Rattle.std.specs.Prelude.{◌≡◌, ◌<◌, ◌≤◌, None, Some, length, map};
ghost use Rattle.sql_ast.specs.Queries.{maybe_tree, setting};
ghost use Rattle.statement_steps.specs.Attempts.{MayAttempt, MayGoOn};
ghost use Rattle.statement_steps.specs.Ended.{giving};
ghost use Rattle.statement_steps.specs.declared.rest.Rest.TheVariants.{Rows};
ghost use Rattle.change_statement.specs.Changed.{changed_by, changed_on, told_by, told_of};
ghost use Rattle.change_statement.specs.Changing.{begun, changing};
ghost use Rattle.change_statement.specs.Deleted.{deleted};
ghost use Rattle.change_statement.specs.Running.{IsCommand, IsOwnRun};
ghost use Rattle.change_statement.specs.Updated.{updated};

use crate::ChangedRows;
use crate::asking::Change;
use crate::gathering::gather;
use crate::rows::{change_rows, find};
use crate::standing::left_of;
use expression_binder::Param;
use plan_tree::Planning;
use sql_ast::{Delete, Update};
use statement_steps::{Attempt, Rest, RestOfRows, Stop, hold_if_repeatable};
use stores::Stores;

// From its beginning. A transaction at REPEATABLE READ takes its snapshot first; what is asked is gathered, and the
// rows that it finds are changed.
fn begin(
    attempt: &Attempt<'_>,
    stores: &mut Stores,
    params: &[Param],
    how: Planning,
    change: Change<'_>,
) -> Result<ChangedRows, Stop>
    requires may { MayAttempt stores.old attempt.now.caller }
    requires next { attempt.now.caller.cmd < 4294967294 }
    requires few { length stores.old.catalog.tables ≤ 4096 }
    ensures { IsCommand None told_by result stores.old stores.new attempt.now.caller (begun how attempt.now.names.now params.now attempt.now.caller change.entry) }
{
    hold_if_repeatable(attempt, stores)?;
    let gathered = gather(attempt, stores, params, how, change)?;
    let targets = find(attempt, stores, &gathered)?;
    change_rows(attempt, stores, gathered, change, &targets, 0)
}

// From where it stood. The rows that are left are changed, by what was gathered before the wait.
fn go_on(
    attempt: &Attempt<'_>,
    stores: &mut Stores,
    change: Change<'_>,
    rest: RestOfRows,
) -> Result<ChangedRows, Stop>
    requires may { MayAttempt stores.old attempt.now.caller }
    requires next { attempt.now.caller.cmd < 4294967294 }
    requires own { IsOwnRun stores.old attempt.now.caller rest }
    ensures { IsCommand (Some (Rows rest)) told_by result stores.old stores.new attempt.now.caller (λ h. giving (told_of rest.found) (changed_on (λ g. changing change.entry attempt.now.caller g) attempt.now.names.now attempt.now.caller rest h)) }
{
    let (gathered, left, changed) = rest.into_parts();
    change_rows(attempt, stores, gathered, change, &left, changed)
}

fn change_from(
    attempt: &Attempt<'_>,
    stores: &mut Stores,
    params: &[Param],
    how: Planning,
    rest: Option<Rest>,
    change: Change<'_>,
) -> Result<ChangedRows, Stop>
    requires may { MayAttempt stores.old attempt.now.caller }
    requires rest { MayGoOn stores.old attempt.now.caller rest }
    requires few { length stores.old.catalog.tables ≤ 4096 }
    ensures { IsCommand rest told_by result stores.old stores.new attempt.now.caller (changed_by (λ g. changing change.entry attempt.now.caller g) attempt.now.names.now attempt.now.caller rest (begun how attempt.now.names.now params.now attempt.now.caller change.entry)) }
{
    match left_of(stores, attempt.caller, rest) {
        Some(rest) => go_on(attempt, stores, change, rest),
        None => begin(attempt, stores, params, how, change),
    }
}

/// The DELETE of a session, with the arguments of its parameters, from its beginning or from where it
/// stood. The table is found (42P01), the statement is bound (its first fault), and the table and those under
/// it are locked in ROW EXCLUSIVE mode. The rows that the snapshot sees and that pass are taken one after the
/// other: one that a transaction which is still open has changed is waited for (40P01); one that was changed
/// since is tested again at READ COMMITTED, and refused at REPEATABLE READ (40001), as is one that was moved
/// to another leaf at both; else its version ends. It tells how many rows it has changed, and what it has read.
pub fn delete(
    attempt: &Attempt<'_>,
    stores: &mut Stores,
    params: &[Param],
    how: Planning,
    rest: Option<Rest>,
    statement: &Delete,
) -> Result<ChangedRows, Stop>
    requires may { MayAttempt stores.old attempt.now.caller }
    requires rest { MayGoOn stores.old attempt.now.caller rest }
    requires few { length stores.old.catalog.tables ≤ 4096 }
    ensures { IsCommand rest told_by result stores.old stores.new attempt.now.caller (deleted how attempt.now.names.now params.now attempt.now.caller rest statement.now.table (maybe_tree statement.now.condition)) }
{
    let change = Change::Delete(statement);
    change_from(attempt, stores, params, how, rest, change)
}

/// The UPDATE of a session, likewise. A version that is changed is followed by one with the row that the settings
/// make of its row: where the bounds of the named table and above take it and a partition below is there for it
/// (23514), NOT NULL (23502) and the kept CHECKs (23514) of the leaf's table and above let it in, and there is room
/// for it (54000). In its own leaf it replaces the version; else the row moves.
pub fn update(
    attempt: &Attempt<'_>,
    stores: &mut Stores,
    params: &[Param],
    how: Planning,
    rest: Option<Rest>,
    statement: &Update,
) -> Result<ChangedRows, Stop>
    requires may { MayAttempt stores.old attempt.now.caller }
    requires rest { MayGoOn stores.old attempt.now.caller rest }
    requires few { length stores.old.catalog.tables ≤ 4096 }
    ensures { IsCommand rest told_by result stores.old stores.new attempt.now.caller (updated how attempt.now.names.now params.now attempt.now.caller rest statement.now.table (map setting statement.now.assignments) (maybe_tree statement.now.condition)) }
{
    let change = Change::Update(statement);
    change_from(attempt, stores, params, how, rest, change)
}
