ghost use Rattle.std.specs.Prelude.{◌≡◌, ◌<◌, ◌≤◌, ◌+◌, ◌∷◌, [], ℕ, IfOk, length};
ghost use Rattle.pg_values.specs.Sets.{has};
ghost use Rattle.pg_values.specs.Refusals.{IsAnswer};
ghost use Rattle.history.specs.History.{History};
ghost use Rattle.row_router.specs.Seen.{seen};
ghost use Rattle.part_ddl.specs.Below.{IsTreeOf};
ghost use Rattle.ddl_steps.specs.Places.{place_scan};
ghost use Rattle.ddl_steps.specs.Scans.{judged, watches};
ghost use Rattle.sql_ast.specs.Commands.{bound_tree};
ghost use Rattle.statement_steps.specs.Attempts.{MayAttempt};
ghost use Rattle.statement_steps.specs.Known.{IsKnownTo};
ghost use Rattle.statement_steps.specs.Steps.{IsStep};
ghost use Rattle.ddl_steps.specs.Locks.{IsLockedNamed};
ghost use Rattle.alter_table.specs.AskedOfAttached.{AreFrom, AreRowsClean, HasFamilyLocked, HasLockedAll, HasPlace, IsGuardedNamed, IsJudgedIn, IsPathOf};
ghost use Rattle.alter_table.specs.Attached as attached;

use crate::attach_checks::place_found;
use crate::laws::skipped_is_clean;
use crate::skipping::is_skipped;
use bound_forms::Bound;
use ddl_steps::{
    judge_default, judge_table, lock_default, sessions_are_low, tables_from, wait_for_snapshots,
};
use legal_statements::{
    attach_may_follow, listed_is_there, named_is_there, none_breaks, there_is_known, tree_is_whole,
};
use part_catalog::CatalogRefused;
use part_ddl::passed_have_places;
use pg_values::{LockMode, Refusal, SessionSet, TableNo};
use row_router::{PathPart, Tree};
use soundness::{legal_keeps_all, sessions_have_siblings};
use sql_ast::BoundText;
use statement_steps::{Attempt, Caller, Stop, hold_if_repeatable, lock_named, lock_tables};
use stores::{Stores, trees_are_together};

// The last part: the table becomes a partition.
fn add_entry(
    stores: &mut Stores,
    caller: Caller,
    parent: TableNo,
    table: TableNo,
    bound: Bound,
) -> Result<(), Stop>
    requires may { MayAttempt stores.old caller }
    requires locked { HasLockedAll stores.old caller.session parent.number table.number }
    requires place { HasPlace stores.old caller.session parent.number table.number bound }
    requires clean { AreRowsClean stores.old caller.session parent.number table.number bound }
    ensures { IsStep (λ u. u) result stores.old stores.new caller (caller.cmd + 1) (attached.entry_added caller parent.number table.number bound) }
{
    attach_may_follow();
    named_is_there();
    none_breaks();
    passed_have_places();
    sessions_have_siblings();
    let Some(by) = stores.txs.open_of(caller.session) else {
        unreachable!()
    };
    let Stores { txs, catalog, .. } = stores;
    match catalog.add_entry(txs, parent, table, bound, by, caller.cmd) {
        Ok(()) => Ok(()),
        Err(CatalogRefused::NoMemory) => Err(Stop::NoMemory),
        Err(CatalogRefused::Full { .. }) => unreachable!(),
    }
}

// The rows of the table are judged. Where a CHECK says what would be asked of them they are not looked at.
fn judge_own(
    attempt: &Attempt<'_>,
    stores: &Stores,
    parent: TableNo,
    tree: &Tree,
    path: &[PathPart],
    table: TableNo,
    bound: &Bound,
) -> Result<SessionSet, Refusal>
    requires may { MayAttempt stores.now attempt.now.caller }
    requires parent { parent.number < length stores.now.catalog.tables }
    requires table { table.number < length stores.now.catalog.tables }
    requires tree { IsTreeOf stores.now.txs stores.now.catalog attempt.now.caller.session parent.number (seen tree.now) }
    requires path { IsPathOf stores.now attempt.now.caller.session parent.number path.now }
    requires place { HasPlace stores.now attempt.now.caller.session parent.number table.number bound.now }
    ensures answer { (h : History) → IsJudgedIn stores.now attempt.now.caller.session table.number h → IsAnswer result (judged h attempt.now.caller.session (place_scan h attempt.now.caller.session parent.number table.number bound.now ∷ [])) }
    ensures all { IfOk result (λ others. (h : History) → IsJudgedIn stores.now attempt.now.caller.session table.number h → (r : ℕ) → has others r ≡ watches h attempt.now.caller.session (place_scan h attempt.now.caller.session parent.number table.number bound.now ∷ []) r) }
{
    let alloc = attempt.alloc;
    skipped_is_clean();
    trees_are_together();
    let Stores { txs, catalog, .. } = stores;
    let session = attempt.caller.session;
    let known = is_skipped(alloc, catalog, txs, session, parent, path, table, bound)?;
    if known {
        Ok(SessionSet::empty())
    } else {
        judge_table(attempt, stores, parent, tree, path, bound, table)
    }
}

// The rows of the table and those of the default partition are judged.
fn judge_rows(
    attempt: &Attempt<'_>,
    stores: &Stores,
    parent: TableNo,
    tree: &Tree,
    path: &[PathPart],
    table: TableNo,
    bound: &Bound,
) -> Result<SessionSet, Refusal>
    requires may { MayAttempt stores.now attempt.now.caller }
    requires parent { parent.number < length stores.now.catalog.tables }
    requires table { table.number < length stores.now.catalog.tables }
    requires tree { IsTreeOf stores.now.txs stores.now.catalog attempt.now.caller.session parent.number (seen tree.now) }
    requires path { IsPathOf stores.now attempt.now.caller.session parent.number path.now }
    requires place { HasPlace stores.now attempt.now.caller.session parent.number table.number bound.now }
    ensures answer { (h : History) → IsJudgedIn stores.now attempt.now.caller.session table.number h → IsAnswer result (judged h attempt.now.caller.session (attached.scans attempt.now.caller.session parent.number table.number bound.now h)) }
    ensures all { IfOk result (λ others. (h : History) → IsJudgedIn stores.now attempt.now.caller.session table.number h → (r : ℕ) → has others r ≡ watches h attempt.now.caller.session (attached.scans attempt.now.caller.session parent.number table.number bound.now h) r) }
{
    let of_table = judge_own(attempt, stores, parent, tree, path, table, bound)?;
    let name = stores.catalog.name_of(table);
    let of_default = judge_default(attempt, stores, parent, tree, bound, name)?;
    let others = of_table.union(of_default);
    sessions_are_low(others);
    Ok(others)
}

// A part: the table and those under it, which are listed, are locked.
fn lock_family(
    attempt: &Attempt<'_>,
    stores: &mut Stores,
    table: TableNo,
    tables: &[TableNo],
) -> Result<(), Stop>
    requires may { MayAttempt stores.old attempt.now.caller }
    requires few { length stores.old.catalog.tables ≤ 4096 }
    requires known { IsKnownTo stores.old attempt.now.caller.session table.number }
    requires tables { AreFrom stores.old attempt.now.caller.session table.number tables.now }
    ensures step { IsStep (λ u. u) result stores.old stores.new attempt.now.caller attempt.now.caller.cmd (attached.family_locked attempt.now.names.now attempt.now.caller.session table.number) }
    ensures locked { IfOk result (λ u. HasFamilyLocked stores.new attempt.now.caller.session table.number) }
    ensures rest { stores.new ≡ record stores.old { locks = stores.new.locks } }
{
    listed_is_there();
    there_is_known();
    tree_is_whole();
    legal_keeps_all();
    let mode = LockMode::AccessExclusive;
    lock_tables(attempt, stores, tables, mode)
}

// Behind these locks the trees of both tables and the path of the parent are read, once for all that is asked of
// them. The default partition of the parent is locked; then come the refusals, the rows are judged, and the table
// becomes a partition.
fn attach_below(
    attempt: &Attempt<'_>,
    stores: &mut Stores,
    parent: TableNo,
    table: TableNo,
    tables: &[TableNo],
    bound: &BoundText,
) -> Result<(), Stop>
    requires may { MayAttempt stores.old attempt.now.caller }
    requires few { length stores.old.catalog.tables ≤ 4096 }
    requires parent { IsGuardedNamed stores.old attempt.now.caller.session parent.number }
    requires table { IsLockedNamed stores.old attempt.now.caller.session table.number }
    requires family { HasFamilyLocked stores.old attempt.now.caller.session table.number }
    requires tables { AreFrom stores.old attempt.now.caller.session table.number tables.now }
    ensures { IsStep (λ u. u) result stores.old stores.new attempt.now.caller (attempt.now.caller.cmd + 1) (attached.attached_beside attempt.now.names.now attempt.now.caller parent.number table.number (bound_tree bound.now)) }
{
    trees_are_together();
    let Stores { txs, catalog, .. } = &*stores;
    let tree = catalog.ddl_tree(attempt.alloc, txs, parent, attempt.caller.session)?;
    let path = catalog.path(attempt.alloc, txs, parent, attempt.caller.session)?;
    let own = catalog.ddl_tree(attempt.alloc, txs, table, attempt.caller.session)?;
    lock_default(attempt, stores, parent)?;
    let bound = place_found(attempt, stores, parent, &path, table, &own, tables, bound)?;
    let judged = judge_rows(attempt, stores, parent, &tree, &path, table, &bound);
    wait_for_snapshots(attempt, stores, judged)?;
    add_entry(stores, attempt.caller, parent, table, bound)
}

/// ALTER TABLE, ATTACH PARTITION. The parent is found (42P01) and locked in SHARE UPDATE EXCLUSIVE mode, then the
/// table and those under it in ACCESS EXCLUSIVE mode, then the default partition of the parent and those under it. It
/// is refused where the parent is not partitioned (42809), where the table is a partition already (42809) or is the
/// parent or above it (42P17), for its columns (42804), for its bound and the place of that one, and with a row of the
/// table or of the default partition that does not suit (23514). Where only the open snapshots of other sessions see
/// such a row it waits until they have gone.
pub fn attach(
    attempt: &Attempt<'_>,
    stores: &mut Stores,
    parent: &[u8],
    name: &[u8],
    bound: &BoundText,
) -> Result<(), Stop>
    requires may { MayAttempt stores.old attempt.now.caller }
    requires few { length stores.old.catalog.tables ≤ 4096 }
    ensures { IsStep (λ u. u) result stores.old stores.new attempt.now.caller (attempt.now.caller.cmd + 1) (attached.attached attempt.now.names.now attempt.now.caller parent.now name.now (bound_tree bound.now)) }
{
    let session = attempt.caller.session;
    trees_are_together();
    let guards = LockMode::ShareUpdateExclusive;
    let owns = LockMode::AccessExclusive;
    hold_if_repeatable(attempt, stores)?;
    let parent = lock_named(attempt, stores, parent, guards)?;
    let table = lock_named(attempt, stores, name, owns)?;
    let tables = tables_from(attempt.alloc, &stores.catalog, &stores.txs, table, session)?;
    lock_family(attempt, stores, table, &tables)?;
    attach_below(attempt, stores, parent, table, &tables, bound)
}
