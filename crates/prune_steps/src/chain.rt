//! The chain of a comparison at a level by range.

ghost use Rattle.std.specs.Prelude.{◌≡◌, ◌<◌, ◌≤◌, ◌+◌, ◌-◌, ◌*◌, ◌^◌, ℕ, false, true, length, slice_index_or};
ghost use Rattle.bound_forms.specs.declared.partition_bound.Bound.TheVariants.{Default as ByDefault};
ghost use Rattle.part_bounds.specs.Stored.{stored, width, IsRangeLevel, RangesFit};
ghost use Rattle.prune_steps.specs.Bits.{AreBits};
ghost use Rattle.prune_steps.specs.Chains.{chain_keeps, Chain};
ghost use Rattle.prune_steps.specs.Runs as runs;
ghost use Rattle.prune_steps.specs.Runs.{ends_of, from_count, from_fill, to_count, to_fill, CanAsk, Ends, GapIn, NoGapIn};

use crate::KeptSet;
use crate::marks::add_default;
use bound_forms::{Fill, Key};
use cond_logic::CompareOp;
use part_bounds::{BoundSet, points_below, ranges_stand_in_row, touches};
use pg_values::{KeyKind, Steps};
use std::sync::ledger::Ledger;

/// A comparison that gives a chain.
#[derive(Clone, Copy, Debug, PartialEq, Eq)]
pub(crate) enum ChainOp {
    Eq,
    Lt,
    Le,
    Gt,
    Ge,
}

/// The chain of a comparison; an unequal one gives none.
pub(crate) fn chain_op(op: CompareOp) -> Option<ChainOp>
    ensures { result ≡ runs.chain_op op }
{
    match op {
        CompareOp::Eq => Some(ChainOp::Eq),
        CompareOp::Ne => None,
        CompareOp::Lt => Some(ChainOp::Lt),
        CompareOp::Le => Some(ChainOp::Le),
        CompareOp::Gt => Some(ChainOp::Gt),
        CompareOp::Ge => Some(ChainOp::Ge),
    }
}

fn start_of(op: ChainOp, j: usize) -> (usize, Fill)
    requires { 0 < j }
    ensures count { result.0 ≡ from_count op j }
    ensures fill { result.1 ≡ from_fill op }
{
    match op {
        ChainOp::Eq => (j, Fill::Min),
        ChainOp::Lt => (j - 1, Fill::Min),
        ChainOp::Le => (j - 1, Fill::Min),
        ChainOp::Gt => (j, Fill::Max),
        ChainOp::Ge => (j, Fill::Min),
    }
}

fn end_of(op: ChainOp, j: usize) -> (usize, Fill)
    requires { 0 < j }
    ensures count { result.0 ≡ to_count op j }
    ensures fill { result.1 ≡ to_fill op }
{
    match op {
        ChainOp::Eq => (j, Fill::Max),
        ChainOp::Lt => (j, Fill::Min),
        ChainOp::Le => (j, Fill::Max),
        ChainOp::Gt => (j - 1, Fill::Max),
        ChainOp::Ge => (j - 1, Fill::Max),
    }
}

// Whether the upper point of a range of the run lies in no sibling.
fn has_gap<K: KeyKind>(set: &BoundSet<K>, from: usize, to: usize) -> bool
    requires ranges { IsRangeLevel set.now }
    requires fit { RangesFit set.now }
    requires run { 2 * to ≤ length (stored set.now) }
    ensures some { result ≡ true → GapIn set.now from to }
    ensures none { result ≡ false → NoGapIn set.now from to }
{
    ranges_stand_in_row(set);
    for i in from..to {
        if !touches(set, i) {
            return true;
        }
    }
    false
}

// Whether the chain keeps the default, by the numbers of the stored points before its ends.
fn keeps_default<K: KeyKind>(set: &BoundSet<K>, short: bool, start: usize, end: usize) -> bool
    requires ranges { IsRangeLevel set.now }
    requires fit { RangesFit set.now }
    requires within { end ≤ length (stored set.now) }
    ensures { (c : Chain) → Ends set.now c start end → result ≡ chain_keeps set.now short c ByDefault }
{
    ranges_stand_in_row(set);
    if short {
        return true;
    }
    if start % 2 == 0 {
        return true;
    }
    has_gap(set, start / 2, end / 2)
}

/// The children that the chain of a comparison keeps: a run of ranges, and perhaps the default.
pub(crate) fn keep_chain<K: KeyKind, Q: Key, L: Ledger>(
    set: &BoundSet<K>,
    key: &Q,
    op: ChainOp,
    short: bool,
    kept: &mut KeptSet,
    steps: &mut Steps<L>,
)
    requires ranges { IsRangeLevel set.now }
    requires fit { RangesFit set.now }
    requires small { length set.now ≤ 1024 }
    requires chain { CanAsk set.now op (Q.values key.now) }
    ensures kept { (w : ℕ) → (0 < length (stored set.now) → width set.now ≡ w) → AreBits (length set.now) kept.new (λ k. chain_keeps set.now short (ends_of w op (Q.values key.now)) (slice_index_or set.now k ByDefault)) }
    ensures later { steps.old ≤ steps.new }
    ensures counted { (d : ℕ) → 2 ^ d ≤ length (stored set.now) + 1 → steps.old + 2 * d ≤ steps.new }
    ensures cost { (d : ℕ) → 2 * length (stored set.now) + 2 < 2 ^ (d + 1) → steps.new ≤ steps.old + 2 * d }
{
    ranges_stand_in_row(set);
    let j = key.len();
    let (from, from_fill) = start_of(op, j);
    let start = points_below(set, key, from, from_fill, true, steps);
    let (to, to_fill) = end_of(op, j);
    let end = points_below(set, key, to, to_fill, false, steps);
    kept.set_run(start / 2, (end + 1) / 2);
    let keeps = keeps_default(set, short, start, end);
    add_default(set, keeps, kept);
}
