//! The leaves of a tree that pruning steps keep with what is known, in a list that has room for them.

ghost use Rattle.std.specs.Prelude.{◌≡◌, ◌+◌, ◌≤◌, ◌++◌, is_some, length, vec_capacity};
ghost use Rattle.row_router.specs.Seen.{seen};
ghost use Rattle.plan_tree.specs.Asks.{keeps_asked};
ghost use Rattle.plan_tree.specs.Kept.{is_plain, kept_leaves, leaves_below};
ghost use Rattle.plan_tree.specs.Parts.{in_part};
ghost use Rattle.plan_tree.specs.Prunable.{CanPrune};

use crate::PlainSet;
use crate::asking::{is_plain_kept, kept_of};
use crate::asks::Asks;
use cond_logic::{Binding, NamedLeaf};
use prune_steps::Pruning;
use row_router::{Shape, Tree};
use std::alloc::Global;

// Puts those of a tree that is kept behind the list.
fn keep_below<'t>(
    steps: &[Pruning],
    asks: Asks,
    known: &Binding<'_>,
    tree: &'t Tree,
    leaves: &mut Vec<NamedLeaf<'t>>,
)
    requires can { CanPrune (seen tree.now) }
    requires room { length leaves.old.items + length (leaves_below (keeps_asked asks known.now steps.now) (seen tree.now)) ≤ vec_capacity leaves.old }
    ensures leaves { leaves.new.items ≡ leaves.old.items ++ leaves_below (keeps_asked asks known.now steps.now) (seen tree.now) }
    ensures room { vec_capacity leaves.old ≤ vec_capacity leaves.new }
{
    match &tree.shape {
        Shape::Leaf(leaf) => {
            leaves
                .push(NamedLeaf {
                    id: *leaf,
                    name: &tree.node.name,
                })
                .unwrap();
        }
        Shape::Level(level, set, children) => {
            let kept = kept_of(steps, asks, known, level, set);
            let mut from = 0;
            while let Some(k) = kept.first_from(from) {
                if k >= children.len() {
                    break;
                }
                keep_below(steps, asks, known, children.at(k), leaves);
                from = k + 1;
            }
        }
    }
}

/// Puts those of the whole table, or of one of its partitions, behind the list. A plain table has its own bounds. Takes no
/// memory.
pub(crate) fn keep_leaves<'t>(
    alloc: Global,
    steps: &[Pruning],
    asks: Asks,
    known: &Binding<'_>,
    tree: &'t Tree,
    part: Option<usize>,
    plain: &Option<PlainSet>,
    leaves: &mut Vec<NamedLeaf<'t>>,
)
    requires can { CanPrune (in_part part (seen tree.now)) }
    requires plain { is_plain (seen tree.now) ≡ is_some plain.now }
    requires room { length leaves.old.items + length (kept_leaves (keeps_asked asks known.now steps.now) (in_part part (seen tree.now))) ≤ vec_capacity leaves.old }
    ensures { leaves.new.items ≡ leaves.old.items ++ kept_leaves (keeps_asked asks known.now steps.now) (in_part part (seen tree.now)) }
{
    match &tree.shape {
        Shape::Leaf(_) => {
            if let Some(plain) = plain {
                if is_plain_kept(alloc, steps, asks, known, plain) {
                    keep_below(steps, asks, known, tree, leaves);
                }
            }
        }
        Shape::Level(level, set, children) => match part {
            None => keep_below(steps, asks, known, tree, leaves),
            Some(part) => {
                if part < children.len() {
                    let kept = kept_of(steps, asks, known, level, set);
                    if kept.keeps(part) {
                        keep_below(steps, asks, known, children.at(part), leaves);
                    }
                }
            }
        },
    }
}
