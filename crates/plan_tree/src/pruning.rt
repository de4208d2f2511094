//! The kept leaves of a tree, and the tables that lead to them.

ghost use Rattle.std.specs.Prelude.{◌≡◌, ◌++◌, ◌∷◌, [], IfOk, OnOk, if◌then◌else◌, is_some, map};
ghost use Rattle.cond_logic.specs.Trees.{cond_tree};
ghost use Rattle.row_router.specs.Seen.{seen};
ghost use Rattle.plan_tree.specs.Asks.{AreStepsOf, keeps_alone};
ghost use Rattle.plan_tree.specs.Kept as kept_spec;
ghost use Rattle.plan_tree.specs.Kept.{is_plain, keeps_by, keeps_for, led, leaves_below, node_of};
ghost use Rattle.plan_tree.specs.Parts.{in_partition, partitions};
ghost use Rattle.plan_tree.specs.Prunable.{CanPrune};

use crate::PlainSet;
use crate::asking::{is_plain_kept, kept_alone};
use crate::asks::Asks;
use crate::plain_bounds::plain_of;
use cond_logic::{Binding, Cond, NamedLeaf};
use pg_values::{ListOf, NoMemory, TableNo};
use prune_steps::Pruning;
use row_router::{Shape, Tree};
use std::alloc::Global;

/// The kept leaves of a tree, and the tables under it that lead to them.
#[derive(Debug, Drop)]
pub struct KeptParts<'t> {
    pub tables: ListOf<TableNo>,
    pub leaves: ListOf<NamedLeaf<'t>>,
}

pub(crate) fn kept_parts<'t>(tables: Vec<TableNo>, leaves: Vec<NamedLeaf<'t>>) -> KeptParts<'t>
    ensures tables { result.tables ≡ tables.items }
    ensures leaves { result.leaves ≡ leaves.entry.items }
{
    KeptParts {
        tables: ListOf::from_vec(tables),
        leaves: ListOf::from_vec(leaves),
    }
}

/// The pruning steps of a condition over the columns of the FROM item.
pub(crate) fn steps_of(alloc: Global, cond: &Cond, item: u32) -> Result<Vec<Pruning>, NoMemory>
    ensures { IfOk result (λ ps. AreStepsOf ps.items item (cond_tree cond.now ∷ [])) }
{
    let mut steps = Vec::new(alloc);
    steps.push(Pruning::new(alloc, cond, item)?)?;
    Ok(steps)
}

/// They are asked where the session prunes.
pub(crate) fn steps_for(prunes: bool, steps: &[Pruning]) -> &[Pruning]
    ensures { result.now ≡ (if prunes then steps.now else []) }
{
    if prunes { steps } else { &[] }
}

// Those of each of the conditions.
fn all_steps_of(alloc: Global, conds: &[Cond], item: u32) -> Result<Vec<Pruning>, NoMemory>
    ensures { IfOk result (λ ps. AreStepsOf ps.items item (map cond_tree conds.now)) }
{
    let mut all = Vec::new(alloc);
    for cond in conds {
        all.push(Pruning::new(alloc, cond, item)?)?;
    }
    Ok(all)
}

// Puts the kept leaves of a tree behind the one list, and the tables below it that lead to them behind the
// other.
#[cycle(pruning)]
fn push_below<'t>(
    alloc: Global,
    steps: &[Pruning],
    tree: &'t Tree,
    tables: &mut Vec<TableNo>,
    leaves: &mut Vec<NamedLeaf<'t>>,
) -> Result<(), NoMemory>
    requires { CanPrune (seen tree.now) }
    ensures tables { OnOk result (tables.new.items ≡ tables.old.items ++ kept_spec.kept_tables (keeps_alone steps.now) (seen tree.now)) }
    ensures leaves { OnOk result (leaves.new.items ≡ leaves.old.items ++ leaves_below (keeps_alone steps.now) (seen tree.now)) }
{
    match &tree.shape {
        Shape::Leaf(leaf) => {
            leaves.push(NamedLeaf {
                id: *leaf,
                name: &tree.node.name,
            })?;
            Ok(())
        }
        Shape::Level(level, set, children) => {
            let kept = kept_alone(steps, level, set);
            let mut from = 0;
            while let Some(k) = kept.first_from(from) {
                if k >= children.len() {
                    break;
                }
                push_led(alloc, steps, children.at(k), tables, leaves)?;
                from = k + 1;
            }
            Ok(())
        }
    }
}

// The same for a table that is kept; it goes before those below it, where it leads to a leaf.
#[inline(always)]
#[cycle(pruning)]
fn push_led<'t>(
    alloc: Global,
    steps: &[Pruning],
    tree: &'t Tree,
    tables: &mut Vec<TableNo>,
    leaves: &mut Vec<NamedLeaf<'t>>,
) -> Result<(), NoMemory>
    requires { CanPrune (seen tree.now) }
    ensures tables { OnOk result (tables.new.items ≡ tables.old.items ++ led (leaves_below (keeps_alone steps.now) (seen tree.now)) (node_of (seen tree.now)).table
        (kept_spec.kept_tables (keeps_alone steps.now) (seen tree.now))) }
    ensures leaves { OnOk result (leaves.new.items ≡ leaves.old.items ++ leaves_below (keeps_alone steps.now) (seen tree.now)) }
{
    if let Shape::Leaf(leaf) = &tree.shape {
        tables.push(tree.node.table)?;
        leaves.push(NamedLeaf {
            id: *leaf,
            name: &tree.node.name,
        })?;
        return Ok(());
    }
    let before = tables.len();
    let count = leaves.len();
    tables.push(tree.node.table)?;
    push_below(alloc, steps, tree, tables, leaves)?;
    if leaves.len() == count {
        tables.truncate(before);
    }
    Ok(())
}

// The leaves that all of the steps keep, where nothing is known, of a table that is kept, and the tables that lead to them.
fn prune_kept<'t>(
    alloc: Global,
    steps: &[Pruning],
    tree: &'t Tree,
) -> Result<KeptParts<'t>, NoMemory>
    requires { CanPrune (seen tree.now) }
    ensures tables { IfOk result (λ k. k.tables ≡ kept_spec.kept_tables (keeps_alone steps.now) (seen tree.now)) }
    ensures leaves { IfOk result (λ k. k.leaves ≡ leaves_below (keeps_alone steps.now) (seen tree.now)) }
{
    let mut tables = Vec::new(alloc);
    let mut leaves = Vec::new(alloc);
    push_below(alloc, steps, tree, &mut tables, &mut leaves)?;
    Ok(kept_parts(tables, leaves))
}

/// The leaves of the tree of a FROM item that all of the steps keep, where nothing is known, and the tables under it that
/// lead to them. A plain table has its own bounds.
pub(crate) fn prune_by<'t>(
    alloc: Global,
    steps: &[Pruning],
    plain: &Option<PlainSet>,
    tree: &'t Tree,
) -> Result<KeptParts<'t>, NoMemory>
    requires can { CanPrune (seen tree.now) }
    requires plain { is_plain (seen tree.now) ≡ is_some plain.now }
    ensures tables { IfOk result (λ k. k.tables ≡ kept_spec.kept_tables (keeps_alone steps.now) (seen tree.now)) }
    ensures leaves { IfOk result (λ k. k.leaves ≡ kept_spec.kept_leaves (keeps_alone steps.now) (seen tree.now)) }
{
    match plain {
        None => prune_kept(alloc, steps, tree),
        Some(plain) => {
            let nothing = Binding::new(&[]);
            if !is_plain_kept(alloc, steps, Asks::Alone, &nothing, plain) {
                return Ok(kept_parts(Vec::new(alloc), Vec::new(alloc)));
            }
            prune_kept(alloc, steps, tree)
        }
    }
}

// Those of a partition, where it is kept.
fn prune_child<'t>(
    alloc: Global,
    is_kept: bool,
    steps: &[Pruning],
    child: &'t Tree,
) -> Result<KeptParts<'t>, NoMemory>
    requires { CanPrune (seen child.now) }
    ensures tables { IfOk result (λ k. k.tables ≡ (if is_kept then led (leaves_below (keeps_alone steps.now) (seen child.now)) (node_of (seen child.now)).table
        (kept_spec.kept_tables (keeps_alone steps.now) (seen child.now)) else [])) }
    ensures leaves { IfOk result (λ k. k.leaves ≡ (if is_kept then leaves_below (keeps_alone steps.now) (seen child.now) else [])) }
{
    let mut tables = Vec::new(alloc);
    let mut leaves = Vec::new(alloc);
    if !is_kept {
        return Ok(kept_parts(tables, leaves));
    }
    push_led(alloc, steps, child, &mut tables, &mut leaves)?;
    Ok(kept_parts(tables, leaves))
}

/// The same of an item over each of the partitions alone.
pub(crate) fn partitions_by<'t>(
    alloc: Global,
    steps: &[Pruning],
    tree: &'t Tree,
) -> Result<Vec<KeptParts<'t>>, NoMemory>
    requires { CanPrune (seen tree.now) }
    ensures tables { IfOk result (λ ks. map (λ k. k.tables) ks.items ≡ map (λ n. kept_spec.kept_tables (keeps_alone steps.now) (in_partition n (seen tree.now))) (partitions (seen tree.now))) }
    ensures leaves { IfOk result (λ ks. map (λ k. k.leaves) ks.items ≡ map (λ n. kept_spec.kept_leaves (keeps_alone steps.now) (in_partition n (seen tree.now))) (partitions (seen tree.now))) }
{
    match &tree.shape {
        Shape::Leaf(_) => Ok(Vec::new(alloc)),
        Shape::Level(level, set, children) => {
            let kept = kept_alone(steps, level, set);
            let mut parts = Vec::new(alloc);
            for (k, child) in children.as_slice().iter().enumerate() {
                parts.push(prune_child(alloc, kept.keeps(k), steps, child)?)?;
            }
            Ok(parts)
        }
    }
}

/// The leaves of the tree of a FROM item that each of the conditions keeps, and the tables under it that lead
/// to them; all of them where nothing is pruned. Fails only for want of memory.
pub fn prune_item<'t>(
    alloc: Global,
    prunes: bool,
    item: u32,
    conds: &[Cond],
    tree: &'t Tree,
) -> Result<KeptParts<'t>, NoMemory>
    requires { CanPrune (seen tree.now) }
    ensures tables { IfOk result (λ k. k.tables ≡ kept_spec.kept_tables (keeps_for prunes item (map cond_tree conds.now)) (seen tree.now)) }
    ensures leaves { IfOk result (λ k. k.leaves ≡ kept_spec.kept_leaves (keeps_for prunes item (map cond_tree conds.now)) (seen tree.now)) }
{
    let plain = plain_of(alloc, tree)?;
    if !prunes {
        return prune_by(alloc, &[], &plain, tree);
    }
    let steps = all_steps_of(alloc, conds, item)?;
    prune_by(alloc, &steps, &plain, tree)
}

/// The same by one condition, of the only FROM item.
pub fn prune_tree<'t>(
    alloc: Global,
    prunes: bool,
    cond: &Cond,
    tree: &'t Tree,
) -> Result<KeptParts<'t>, NoMemory>
    requires { CanPrune (seen tree.now) }
    ensures tables { IfOk result (λ k. k.tables ≡ kept_spec.kept_tables (keeps_by prunes (cond_tree cond.now)) (seen tree.now)) }
    ensures leaves { IfOk result (λ k. k.leaves ≡ kept_spec.kept_leaves (keeps_by prunes (cond_tree cond.now)) (seen tree.now)) }
{
    let steps = steps_of(alloc, cond, 0)?;
    let plain = plain_of(alloc, tree)?;
    prune_by(alloc, steps_for(prunes, &steps), &plain, tree)
}
