//! What is read and locked of the tables under the named one.

ghost use Rattle.std.specs.Prelude.{◌≡◌, IfOk, map};
ghost use Rattle.std.specs.List.{list_any};
ghost use Rattle.row_router.specs.Seen.{seen};
ghost use Rattle.plan_tree.specs.Kept.{id_of, kept_leaves, kept_tables};
ghost use Rattle.plan_tree.specs.Prunable.{CanPrune};
ghost use Rattle.cond_logic.specs.Trees.{cond_tree};
ghost use Rattle.cond_logic.specs.Asked.{change_meant, maybe_cond, setting_meant};
ghost use Rattle.change_statement.specs.Kept as kept_spec;
ghost use Rattle.change_statement.specs.Kept.{keeps_for, keeps_started};
ghost use Rattle.statement_steps.specs.Gathered.{is_set, sets_key};

use bound_forms::KeyColumn;
use cond_logic::{ChangeAsk, Cond, NamedLeaf, Setting, bind_params};
use pg_values::{LeafId, NoMemory, TableNo, Value};
use plan_tree::{KeptParts, Planning, all_hold, copy_cond, prune_item, prune_tree};
use row_router::{Shape, Tree};
use statement_steps::tables_below;
use std::alloc::Global;

/// What a statement needs of a tree.
#[derive(Drop)]
pub(crate) struct Kept {
    /// The tables under the named one that it locks.
    pub tables: Vec<TableNo>,
    /// The leaves that it reads.
    pub leaves: Vec<LeafId>,
    /// Whether rows of these may move to others.
    pub moves: bool,
}

fn is_set(settings: &[Setting], column: &KeyColumn) -> bool
    ensures { result ≡ is_set (map setting_meant settings.now) column.now }
{
    for setting in settings {
        if setting.column == column.position {
            return true;
        }
    }
    false
}

fn is_one_set(settings: &[Setting], columns: &[KeyColumn]) -> bool
    ensures { result ≡ list_any (is_set (map setting_meant settings.now)) columns.now }
{
    for column in columns {
        if is_set(settings, column) {
            return true;
        }
    }
    false
}

// Whether SET names a key column of a table of the tree.
fn sets_key(settings: &[Setting], tree: &Tree) -> bool
    ensures { result ≡ sets_key (map setting_meant settings.now) (seen tree.now) }
{
    match &tree.shape {
        Shape::Leaf(_) => false,
        Shape::Level(level, _, children) => {
            if is_one_set(settings, level.columns.as_slice()) {
                return true;
            }
            for child in children.as_slice() {
                if sets_key(settings, child) {
                    return true;
                }
            }
            false
        }
    }
}

fn ids_of(alloc: Global, leaves: &[NamedLeaf<'_>]) -> Result<Vec<LeafId>, NoMemory>
    ensures { IfOk result (λ ids. ids.items ≡ map id_of leaves.now) }
{
    let mut ids = Vec::new(alloc);
    for leaf in leaves {
        ids.push(leaf.id)?;
    }
    Ok(ids)
}

// What the condition keeps of the tree; all where there is none.
fn prune<'t>(
    alloc: Global,
    prunes: bool,
    condition: &Option<Cond>,
    tree: &'t Tree,
) -> Result<KeptParts<'t>, NoMemory>
    requires { CanPrune (seen tree.now) }
    ensures tables { IfOk result (λ k. k.tables ≡ kept_tables (keeps_for prunes (maybe_cond condition.now)) (seen tree.now)) }
    ensures leaves { IfOk result (λ k. k.leaves ≡ kept_leaves (keeps_for prunes (maybe_cond condition.now)) (seen tree.now)) }
{
    match condition {
        Some(cond) => prune_tree(alloc, prunes, cond, tree),
        None => prune_tree(alloc, prunes, &all_hold(alloc, &[])?, tree),
    }
}

// The leaves that the condition keeps, and those that it keeps with these values of parameters too.
fn prune_with(
    alloc: Global,
    prunes: bool,
    cond: &Cond,
    args: &[Value],
    tree: &Tree,
) -> Result<Vec<LeafId>, NoMemory>
    requires { CanPrune (seen tree.now) }
    ensures { IfOk result (λ ls. ls.items ≡ kept_spec.leaves_read (kept_spec.keeps_with prunes args.now (cond_tree cond.now)) (seen tree.now)) }
{
    let mut conds = Vec::new(alloc);
    conds.push(copy_cond(alloc, cond)?)?;
    conds.push(bind_params(alloc, cond, args)?)?;
    let kept = prune_item(alloc, prunes, 0, &conds, tree)?;
    ids_of(alloc, kept.leaves.as_slice())
}

// The leaves that are read.
fn start(
    alloc: Global,
    how: Planning,
    args: &[Value],
    condition: &Option<Cond>,
    kept: &[NamedLeaf<'_>],
    tree: &Tree,
) -> Result<Vec<LeafId>, NoMemory>
    requires tree { CanPrune (seen tree.now) }
    requires kept { kept.now ≡ kept_leaves (keeps_for how.prunes (maybe_cond condition.now)) (seen tree.now) }
    ensures { IfOk result (λ ls. ls.items ≡ kept_spec.leaves_read (keeps_started how args.now (maybe_cond condition.now)) (seen tree.now)) }
{
    if !how.is_generic {
        return ids_of(alloc, kept);
    }
    match condition {
        Some(cond) => prune_with(alloc, how.prunes, cond, args, tree),
        None => prune_with(alloc, how.prunes, &all_hold(alloc, &[])?, args, tree),
    }
}

/// The tables under the named one that lead to leaves which the condition keeps, and where rows may move from such
/// leaves, all tables under it. Of these leaves those are read that the values of parameters keep too.
pub(crate) fn keep(
    alloc: Global,
    how: Planning,
    args: &[Value],
    ask: &ChangeAsk,
    tree: &Tree,
) -> Result<Kept, NoMemory>
    requires { CanPrune (seen tree.now) }
    ensures tables { IfOk result (λ k. k.tables.items ≡ kept_spec.tables_locked (keeps_for how.prunes (change_meant ask.now).condition) (change_meant ask.now).settings (seen tree.now)) }
    ensures leaves { IfOk result (λ k. k.leaves.items ≡ kept_spec.leaves_read (keeps_started how args.now (change_meant ask.now).condition) (seen tree.now)) }
    ensures moves { IfOk result (λ k. k.moves ≡ kept_spec.moves (keeps_for how.prunes (change_meant ask.now).condition) (change_meant ask.now).settings (seen tree.now)) }
{
    let kept = prune(alloc, how.prunes, &ask.condition, tree)?;
    let under = kept.leaves.as_slice();
    let leaves = start(alloc, how, args, &ask.condition, under, tree)?;
    let moves = !under.is_empty() && sets_key(ask.settings.as_slice(), tree);
    let tables = if moves {
        tables_below(alloc, tree)?
    } else {
        kept.tables.into_vec()
    };
    Ok(Kept {
        tables,
        leaves,
        moves,
    })
}
