ghost use Rattle.std.specs.Prelude.{◌≡◌, ◌+◌, ◌<◌, ◌≤◌, ℕ, [], IfOk, length};
ghost use Rattle.pg_values.specs.Sets.{has};
ghost use Rattle.pg_values.specs.Refusals.{IsAnswer};
ghost use Rattle.history.specs.History.{History};
ghost use Rattle.tx_table.specs.Stands.{TableStands};
ghost use Rattle.part_catalog.specs.Answers.{AreTogether};
ghost use Rattle.part_catalog.specs.Stands.{CatalogueStands};
ghost use Rattle.expression_binder.specs.Firsts.{IsAnswerBy};
ghost use Rattle.part_ddl.specs.Below as below;
ghost use Rattle.part_ddl.specs.Tables.{count_faults};
ghost use Rattle.sql_ast.specs.Commands.{bound_tree};
ghost use Rattle.ddl_steps.specs.Data.{DataStand};
ghost use Rattle.ddl_steps.specs.Places.{default_scan};
ghost use Rattle.ddl_steps.specs.Scans.{judged, watches};
ghost use Rattle.statement_steps.specs.Attempts.{MayAttempt};
ghost use Rattle.statement_steps.specs.Steps.{IsStep};
ghost use Rattle.table_statements.specs.Partitions as partitions;
ghost use Rattle.table_statements.specs.Partitions.{partitioned, partition_place};
ghost use Rattle.table_statements.specs.Asked.{HasDefaultClean, MayBeMade, MayBePlaced};
ghost use Rattle.ddl_steps.specs.Locks.{IsLockedNamed, HasDefaultLocked};
ghost use Rattle.ddl_steps.specs.Families.{family_of};
ghost use Rattle.history.specs.Places.{TakesBound};
ghost use Rattle.part_catalog.specs.Found.{made_at};
ghost use Rattle.table_statements.specs.Seen.{seen_place};

use crate::claims::claim_name;
use crate::tables::level_by;
use bound_forms::{Bound, Level};
use ddl_steps::{judge_default, lock_default, wait_for_snapshots};
use legal_statements::{
    named_is_there, new_leaf_may_follow, new_level_may_follow, new_partition_may_follow,
    none_breaks,
};
use part_catalog::Catalog;
use part_ddl::{
    check_count, check_place, default_of, make_partition, parent_level, passed_have_places,
};
use pg_values::{LockMode, PgText, Refusal, SessionSet, TableNo};
use soundness::sessions_have_siblings;
use sql_ast::{BoundText, Partitioning};
use statement_steps::{Attempt, Stop, hold_if_repeatable, lock_named};
use std::alloc::Global;
use stores::{Stores, leaves_are_housed, trees_are_together};
use table_binder::bind_bound;
use tx_table::TxTable;

/// The bound of a partition, and its own level where it is partitioned.
#[derive(Drop)]
struct Place {
    bound: Bound,
    level: Option<Level>,
}

// The place of the partition, or the first refusal.
fn place_of(
    alloc: Global,
    catalog: &Catalog,
    txs: &TxTable,
    session: u32,
    parent: TableNo,
    bound: &BoundText,
    by: &Option<Partitioning>,
) -> Result<Place, Refusal>
    requires known { parent.number < length catalog.now.tables }
    requires siblings { AreTogether txs.now catalog.now session }
    ensures answer { (h : History) → TableStands txs.now h → CatalogueStands catalog.now h →
        IsAnswerBy seen_place result (partition_place h session parent.number (bound_tree bound.now) by.now) }
    ensures few { IfOk result (λ place. (h : History) → CatalogueStands catalog.now h → count_faults h ≡ []) }
    ensures may { IfOk result (λ place. (h : History) → TableStands txs.now h → CatalogueStands catalog.now h → MayBePlaced h session parent.number place.bound place.level) }
{
    let above = parent_level(alloc, catalog, parent)?;
    check_count(alloc, catalog)?;
    let bound = bind_bound(alloc, bound, above)?;
    check_place(alloc, catalog, txs, parent, &bound, session)?;
    let level = level_by(alloc, catalog.table(parent).columns.as_slice(), by)?;
    Ok(Place { bound, level })
}

// A part: the place of the partition.
fn place_found(
    attempt: &Attempt<'_>,
    stores: &Stores,
    parent: TableNo,
    bound: &BoundText,
    by: &Option<Partitioning>,
) -> Result<Place, Stop>
    requires may { MayAttempt stores.now attempt.now.caller }
    requires known { parent.number < length stores.now.catalog.tables }
    ensures step { IsStep seen_place result stores.now stores.now attempt.now.caller attempt.now.caller.cmd (partitions.place_found attempt.now.caller.session parent.number (bound_tree bound.now) by.now) }
    ensures few { IfOk result (λ place. (h : History) → CatalogueStands stores.now.catalog h → count_faults h ≡ []) }
    ensures may { IfOk result (λ place. (h : History) → TableStands stores.now.txs h → CatalogueStands stores.now.catalog h → MayBePlaced h attempt.now.caller.session parent.number place.bound place.level) }
{
    let session = attempt.caller.session;
    trees_are_together();
    let Stores { txs, catalog, .. } = stores;
    let place = place_of(attempt.alloc, catalog, txs, session, parent, bound, by)?;
    Ok(place)
}

// The last part: the table is made, and gets its place.
fn make_placed(
    attempt: &Attempt<'_>,
    stores: &mut Stores,
    name: PgText,
    parent: TableNo,
    place: Place,
) -> Result<(), Stop>
    requires may { MayAttempt stores.old attempt.now.caller }
    requires parent { IsLockedNamed stores.old attempt.now.caller.session parent.number }
    requires default { HasDefaultLocked stores.old attempt.now.caller.session parent.number }
    requires clean { HasDefaultClean stores.old attempt.now.caller.session parent.number place.bound name }
    requires free { (h : History) → TableStands stores.old.txs h → CatalogueStands stores.old.catalog h → MayBeMade h attempt.now.caller.session name }
    requires placed { (h : History) → TableStands stores.old.txs h → CatalogueStands stores.old.catalog h → MayBePlaced h attempt.now.caller.session parent.number place.bound place.level }
    ensures { IsStep (λ u. u) result stores.old stores.new attempt.now.caller (attempt.now.caller.cmd + 1) (partitions.partition_made attempt.now.caller name parent.number (seen_place place)) }
{
    let alloc = attempt.alloc;
    let cmd = attempt.caller.cmd;
    new_leaf_may_follow();
    new_level_may_follow();
    leaves_are_housed();
    new_partition_may_follow();
    passed_have_places();
    named_is_there();
    sessions_have_siblings();
    none_breaks();
    let Some(by) = stores.txs.open_of(attempt.caller.session) else {
        unreachable!()
    };
    let Place { bound, level } = place;
    let Stores {
        txs,
        rows,
        catalog,
        ..
    } = stores;
    make_partition(
        alloc, catalog, rows, txs, name, parent, bound, level, by, cmd,
    )?;
    Ok(())
}

// The rows of the default partition are judged. The tree of the parent is built only where there is one.
fn judge_beside(
    attempt: &Attempt<'_>,
    stores: &Stores,
    parent: TableNo,
    bound: &Bound,
    name: &[u8],
) -> Result<SessionSet, Refusal>
    requires may { MayAttempt stores.now attempt.now.caller }
    requires known { parent.number < length stores.now.catalog.tables }
    requires takes { (h : History) → CatalogueStands stores.now.catalog h → TakesBound (made_at h parent.number).shape bound.now }
    ensures answer { (h : History) → DataStand stores.now h → IsAnswer result (judged h attempt.now.caller.session (default_scan h attempt.now.caller.session parent.number bound.now name.now (below.default_of h attempt.now.caller.session parent.number))) }
    ensures all { IfOk result (λ others. (h : History) → DataStand stores.now h → (r : ℕ) → has others r ≡ watches h attempt.now.caller.session (default_scan h attempt.now.caller.session parent.number bound.now name.now (below.default_of h attempt.now.caller.session parent.number)) r) }
{
    trees_are_together();
    let Stores { txs, catalog, .. } = stores;
    match default_of(catalog, txs, parent, attempt.caller.session) {
        None => Ok(SessionSet::empty()),
        Some(_) => {
            let tree = catalog.ddl_tree(attempt.alloc, txs, parent, attempt.caller.session)?;
            judge_default(attempt, stores, parent, &tree, bound, name)
        }
    }
}

// A part: no row of the default partition belongs to the new one.
fn scan_default(
    attempt: &Attempt<'_>,
    stores: &mut Stores,
    name: &[u8],
    parent: TableNo,
    place: &Place,
) -> Result<(), Stop>
    requires may { MayAttempt stores.old attempt.now.caller }
    requires known { parent.number < length stores.old.catalog.tables }
    requires takes { (h : History) → CatalogueStands stores.old.catalog h → TakesBound (made_at h parent.number).shape place.now.bound }
    ensures step { IsStep (λ u. u) result stores.old stores.new attempt.now.caller attempt.now.caller.cmd (partitions.default_scanned attempt.now.names.now attempt.now.caller.session parent.number place.now.bound name.now) }
    ensures clean { IfOk result (λ u. HasDefaultClean stores.new attempt.now.caller.session parent.number place.now.bound name.now) }
    ensures rest { stores.new ≡ record stores.old { locks = stores.new.locks } }
{
    let judged = judge_beside(attempt, stores, parent, &place.bound, name);
    wait_for_snapshots(attempt, stores, judged)
}

// A part: the parent is partitioned.
fn check_parent(attempt: &Attempt<'_>, stores: &Stores, parent: TableNo) -> Result<(), Stop>
    requires may { MayAttempt stores.now attempt.now.caller }
    requires known { parent.number < length stores.now.catalog.tables }
    ensures { IsStep (λ u. u) result stores.now stores.now attempt.now.caller attempt.now.caller.cmd (partitions.parent_tested parent.number) }
{
    parent_level(attempt.alloc, &stores.catalog, parent)?;
    Ok(())
}

/// CREATE TABLE, PARTITION OF. The parent is found (42P01) and locked in ACCESS EXCLUSIVE mode, and so are
/// its default partition and the tables under that one. It is refused where the parent is not partitioned
/// (42809) and with 42P07, waits where another open transaction has made a table of the name, and is then
/// refused with 54000 for tables, for its bound, for its own key, and with a row of the default partition that
/// belongs to it. Where only the open snapshots of other sessions see such a row it waits until they have gone.
pub fn create_partition(
    attempt: &Attempt<'_>,
    stores: &mut Stores,
    name: &PgText,
    parent: &PgText,
    bound: &BoundText,
    by: &Option<Partitioning>,
) -> Result<(), Stop>
    requires may { MayAttempt stores.old attempt.now.caller }
    requires few { length stores.old.catalog.tables ≤ 4096 }
    ensures { IsStep (λ u. u) result stores.old stores.new attempt.now.caller (attempt.now.caller.cmd + 1) (partitioned attempt.now.names.now attempt.now.caller name.now parent.now (bound_tree bound.now) by.now) }
{
    let mode = LockMode::AccessExclusive;
    let text = name.as_bytes();
    hold_if_repeatable(attempt, stores)?;
    let parent = lock_named(attempt, stores, parent.as_bytes(), mode)?;
    lock_default(attempt, stores, parent)?;
    check_parent(attempt, stores, parent)?;
    claim_name(attempt, stores, text)?;
    let place = place_found(attempt, stores, parent, bound, by)?;
    scan_default(attempt, stores, text, parent, &place)?;
    let copy = name.copy(attempt.alloc)?;
    make_placed(attempt, stores, copy, parent, place)
}
