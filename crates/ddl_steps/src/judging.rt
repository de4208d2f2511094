ghost use Rattle.std.specs.Prelude.{◌≡◌, ◌<◌, ◌∷◌, ℕ, [], None, Some, IfOk, MatchResult, All, length};
ghost use Rattle.pg_values.specs.Sets.{has};
ghost use Rattle.pg_values.specs.Refusals.{IsAnswer};
ghost use Rattle.history.specs.History.{History};
ghost use Rattle.bound_forms.specs.Levels.{IsOfLevel};
ghost use Rattle.history.specs.Places.{HasColumnsOf, LiesIn, TakesBound};
ghost use Rattle.part_catalog.specs.Found.{made_at};
ghost use Rattle.part_catalog.specs.Stands.{CatalogueStands};
ghost use Rattle.part_ddl.specs.Below.{IsTreeOf, default_of};
ghost use Rattle.part_ddl.specs.Placing.{place_faults};
ghost use Rattle.row_router.specs.Seen.{seen};
ghost use Rattle.statement_steps.specs.Attempts.{MayAttempt};
ghost use Rattle.history.specs.declared.catalogue.TableShape.TheVariants.{Level as Levels};
ghost use Rattle.row_store.specs.Judged.{AreSuited};
ghost use Rattle.row_router.specs.Histories.{ddl_tree, path_of};
ghost use Rattle.row_router.specs.Trees.{leaves};
ghost use Rattle.tx_table.specs.Stands.{TableStands};
ghost use Rattle.part_ddl.specs.Placing.{bounds_below};
ghost use Rattle.ddl_steps.specs.Data.{DataStand};
ghost use Rattle.ddl_steps.specs.Places.{place_scan, default_scan};
ghost use Rattle.ddl_steps.specs.Scans.{judged, watches, IsPassed, IsRefused};

use crate::default_rows::DefaultRows;
use crate::low::sessions_are_low;
use crate::new_rows::NewRows;
use bound_forms::{Bound, Level};
use part_bounds::BoundSet;
use part_ddl::default_in;
use pg_values::{LeafId, NoMemory, Refusal, Row, SessionSet, TableNo, ValueKey};
use refusals::{default_has_row, outside_new_bounds};
use row_change::rows_fit_paths;
use row_router::{PathPart, Shape, Tree, push_leaves};
use row_store::{RowTest, Verdict};
use soundness::sessions_have_siblings;
use statement_steps::{Attempt, Caller};
use stores::{Stores, leaves_are_housed, trees_are_together};

// The leaves of a table and of those below it.
fn leaves_of(
    attempt: &Attempt<'_>,
    stores: &Stores,
    table: TableNo,
) -> Result<Vec<LeafId>, NoMemory>
    requires may { MayAttempt stores.now attempt.now.caller }
    requires known { table.number < length stores.now.catalog.tables }
    ensures is { IfOk result (λ v. (h : History) → TableStands stores.now.txs h → CatalogueStands stores.now.catalog h → v.items ≡ leaves (ddl_tree h attempt.now.caller.session table.number)) }
    ensures there { IfOk result (λ v. All (λ leaf. leaf.number < stores.now.rows.leaves) v.items) }
{
    trees_are_together();
    leaves_are_housed();
    let Stores { txs, catalog, .. } = stores;
    let tree = catalog.ddl_tree(attempt.alloc, txs, table, attempt.caller.session)?;
    let mut leaves = Vec::new(attempt.alloc);
    push_leaves(&tree, &mut leaves)?;
    Ok(leaves)
}

// The other sessions whose open snapshots see a row that breaks the test, or the row that refuses.
fn judge<'s, T: RowTest>(
    stores: &'s Stores,
    caller: Caller,
    leaves: &[LeafId],
    test: &T,
) -> Result<SessionSet, &'s Row>
    requires may { MayAttempt stores.now caller }
    requires known { All (λ leaf. leaf.number < stores.now.rows.leaves) leaves.now }
    requires suited { AreSuited stores.now.rows leaves.now (T.suits test.now) }
    ensures { (h : History) → DataStand stores.now h → MatchResult result
        (λ others. IsPassed h caller.session leaves.now (T.broken test.now) others)
        (λ row. IsRefused h caller.session leaves.now (T.broken test.now) row.now) }
{
    let Some(me) = stores.txs.open_of(caller.session) else {
        unreachable!()
    };
    match stores
        .rows
        .judge(&stores.txs, leaves, caller.session, me, test)
    {
        Verdict::Clean => Ok(SessionSet::empty()),
        Verdict::Seen(others) => {
            sessions_are_low(others);
            Ok(others)
        }
        Verdict::Violator(row) => Err(row),
    }
}

fn judge_default_of(
    attempt: &Attempt<'_>,
    stores: &Stores,
    parent: TableNo,
    level: &Level,
    bound: &Bound,
    name: &[u8],
    default: TableNo,
) -> Result<SessionSet, Refusal>
    requires may { MayAttempt stores.now attempt.now.caller }
    requires parent { parent.number < length stores.now.catalog.tables }
    requires default { default.number < length stores.now.catalog.tables }
    requires columns { (h : History) → CatalogueStands stores.now.catalog h → HasColumnsOf (made_at h parent.number).columns (made_at h default.number).columns }
    requires level { (h : History) → TableStands stores.now.txs h → CatalogueStands stores.now.catalog h → (made_at h parent.number).shape ≡ Levels level.now }
    requires keys { (h : History) × CatalogueStands stores.now.catalog h × All (LiesIn (made_at h parent.number).columns) level.now.columns }
    requires mine { IsOfLevel level.now bound.now }
    ensures answer { (h : History) → DataStand stores.now h → IsAnswer result (judged h attempt.now.caller.session (default_scan h attempt.now.caller.session parent.number bound.now name.now (Some default))) }
    ensures all { IfOk result (λ others. (h : History) → DataStand stores.now h → (r : ℕ) → has others r ≡ watches h attempt.now.caller.session (default_scan h attempt.now.caller.session parent.number bound.now name.now (Some default)) r) }
{
    let leaves = leaves_of(attempt, stores, default)?;
    let test = DefaultRows { level, bound };
    match judge(stores, attempt.caller, &leaves, &test) {
        Ok(others) => Ok(others),
        Err(row) => {
            let default = stores.catalog.name_of(default);
            Err(Refusal::Sql(default_has_row(attempt.alloc, default, row, name)?))
        }
    }
}

/// Judges the rows of the default partition of the parent, whose tree is given, beside a new partition of that
/// name and bound: 23514 for the first that it would accept, or else the other sessions whose open snapshots see
/// such a row.
pub fn judge_default(
    attempt: &Attempt<'_>,
    stores: &Stores,
    parent: TableNo,
    tree: &Tree,
    bound: &Bound,
    name: &[u8],
) -> Result<SessionSet, Refusal>
    requires may { MayAttempt stores.now attempt.now.caller }
    requires known { parent.number < length stores.now.catalog.tables }
    requires takes { (h : History) → CatalogueStands stores.now.catalog h → TakesBound (made_at h parent.number).shape bound.now }
    requires tree { IsTreeOf stores.now.txs stores.now.catalog attempt.now.caller.session parent.number (seen tree.now) }
    ensures answer { (h : History) → DataStand stores.now h → IsAnswer result (judged h attempt.now.caller.session (default_scan h attempt.now.caller.session parent.number bound.now name.now (default_of h attempt.now.caller.session parent.number))) }
    ensures all { IfOk result (λ others. (h : History) → DataStand stores.now h → (r : ℕ) → has others r ≡ watches h attempt.now.caller.session (default_scan h attempt.now.caller.session parent.number bound.now name.now (default_of h attempt.now.caller.session parent.number)) r) }
{
    trees_are_together();
    match &tree.shape {
        Shape::Leaf(_) => unreachable!(),
        Shape::Level(level, _, _) => match default_in(tree) {
            None => Ok(SessionSet::empty()),
            Some(default) => judge_default_of(attempt, stores, parent, level, bound, name, default),
        },
    }
}

fn judge_below(
    attempt: &Attempt<'_>,
    stores: &Stores,
    parent: TableNo,
    level: &Level,
    siblings: &BoundSet<ValueKey>,
    path: &[PathPart],
    bound: &Bound,
    table: TableNo,
) -> Result<SessionSet, Refusal>
    requires may { MayAttempt stores.now attempt.now.caller }
    requires parent { parent.number < length stores.now.catalog.tables }
    requires table { table.number < length stores.now.catalog.tables }
    requires columns { (h : History) → CatalogueStands stores.now.catalog h → HasColumnsOf (made_at h parent.number).columns (made_at h table.number).columns }
    requires level { (h : History) → TableStands stores.now.txs h → CatalogueStands stores.now.catalog h → (made_at h parent.number).shape ≡ Levels level.now }
    requires siblings { (h : History) → TableStands stores.now.txs h → CatalogueStands stores.now.catalog h → siblings.now ≡ bounds_below h attempt.now.caller.session parent.number }
    requires path { (h : History) → TableStands stores.now.txs h → CatalogueStands stores.now.catalog h → path.now ≡ path_of h attempt.now.caller.session parent.number }
    requires keys { (h : History) × CatalogueStands stores.now.catalog h × All (LiesIn (made_at h parent.number).columns) level.now.columns }
    requires mine { IsOfLevel level.now bound.now }
    requires theirs { All (IsOfLevel level.now) siblings.now }
    requires place { (h : History) → TableStands stores.now.txs h → CatalogueStands stores.now.catalog h → (height : ℕ) × (place_faults h attempt.now.caller.session parent.number bound.now height ≡ []) }
    ensures answer { (h : History) → DataStand stores.now h → IsAnswer result (judged h attempt.now.caller.session (place_scan h attempt.now.caller.session parent.number table.number bound.now ∷ [])) }
    ensures all { IfOk result (λ others. (h : History) → DataStand stores.now h → (r : ℕ) → has others r ≡ watches h attempt.now.caller.session (place_scan h attempt.now.caller.session parent.number table.number bound.now ∷ []) r) }
{
    rows_fit_paths();
    sessions_have_siblings();
    let leaves = leaves_of(attempt, stores, table)?;
    let test = NewRows {
        level,
        siblings,
        bound,
        path,
    };
    match judge(stores, attempt.caller, &leaves, &test) {
        Ok(others) => Ok(others),
        Err(row) => {
            let table = stores.catalog.name_of(table);
            Err(Refusal::Sql(outside_new_bounds(attempt.alloc, table, row)?))
        }
    }
}

/// Judges the rows of a table that becomes a partition of the parent, whose columns it has and whose tree and
/// path are given, with that bound: 23514 for the first that does not suit the new place, or else the other sessions whose open snapshots
/// see such a row.
pub fn judge_table(
    attempt: &Attempt<'_>,
    stores: &Stores,
    parent: TableNo,
    tree: &Tree,
    path: &[PathPart],
    bound: &Bound,
    table: TableNo,
) -> Result<SessionSet, Refusal>
    requires may { MayAttempt stores.now attempt.now.caller }
    requires parent { parent.number < length stores.now.catalog.tables }
    requires table { table.number < length stores.now.catalog.tables }
    requires columns { (h : History) → CatalogueStands stores.now.catalog h → HasColumnsOf (made_at h parent.number).columns (made_at h table.number).columns }
    requires tree { IsTreeOf stores.now.txs stores.now.catalog attempt.now.caller.session parent.number (seen tree.now) }
    requires path { (h : History) → TableStands stores.now.txs h → CatalogueStands stores.now.catalog h → path.now ≡ path_of h attempt.now.caller.session parent.number }
    requires takes { (h : History) → CatalogueStands stores.now.catalog h → TakesBound (made_at h parent.number).shape bound.now }
    requires place { (h : History) → TableStands stores.now.txs h → CatalogueStands stores.now.catalog h → (height : ℕ) × (place_faults h attempt.now.caller.session parent.number bound.now height ≡ []) }
    ensures answer { (h : History) → DataStand stores.now h → IsAnswer result (judged h attempt.now.caller.session (place_scan h attempt.now.caller.session parent.number table.number bound.now ∷ [])) }
    ensures all { IfOk result (λ others. (h : History) → DataStand stores.now h → (r : ℕ) → has others r ≡ watches h attempt.now.caller.session (place_scan h attempt.now.caller.session parent.number table.number bound.now ∷ []) r) }
{
    trees_are_together();
    match &tree.shape {
        Shape::Leaf(_) => unreachable!(),
        Shape::Level(level, siblings, _) => judge_below(
            attempt, stores, parent, level, siblings, path, bound, table,
        ),
    }
}
