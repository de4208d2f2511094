//! Comparisons at a level by list.

ghost use Rattle.std.specs.Prelude.{◌≡◌, ◌<◌, ◌≤◌, ◌+◌, ◌*◌, ◌^◌, ℕ, length, slice_index_or};
ghost use Rattle.bound_forms.specs.declared.partition_bound.Bound.TheVariants.{Default as ByDefault};
ghost use Rattle.bound_forms.specs.Listed.{only};
ghost use Rattle.part_bounds.specs.Stored.{stored, IsListLevel};
ghost use Rattle.cond_logic.specs.declared.cond.CompareOp.{CompareOp as Comparison};
ghost use Rattle.cond_logic.specs.declared.cond.CompareOp.TheVariants.{Eq, Lt, Le};
ghost use Rattle.prune_steps.specs.Bits.{AreBits};
ghost use Rattle.prune_steps.specs.Kept.{list_keeps};
ghost use Rattle.prune_steps.specs.Lists as spec;
ghost use Rattle.prune_steps.specs.Lists.{CanAskList};

use crate::KeptSet;
use crate::counts::{add_counted, counts_in};
use crate::marks::{Mark, add_default, add_marked, any_marked};
use bound_forms::{Fill, Key};
use cond_logic::CompareOp;
use part_bounds::{BoundSet, points_below};
use pg_values::{KeyKind, Steps};
use std::sync::ledger::Ledger;

// The stored points of a value.
fn equal_run<K: KeyKind, Q: Key, L: Ledger>(
    set: &BoundSet<K>,
    key: &Q,
    steps: &mut Steps<L>,
) -> (usize, usize)
    requires level { IsListLevel set.now }
    requires fits { CanAskList set.now (Q.values key.now) }
    ensures run { (op : Comparison) → spec.looked_for op ≡ Eq → spec.RunOf set.now op (only (Q.values key.now)) result.0 result.1 }
    ensures counted { (d : ℕ) → 2 ^ d ≤ length (stored set.now) + 1 → steps.old + 2 * d ≤ steps.new }
    ensures cost { (d : ℕ) → 2 * length (stored set.now) + 2 < 2 ^ (d + 1) → steps.new ≤ steps.old + 2 * d }
{
    let from = points_below(set, key, 1, Fill::Min, false, steps);
    let to = points_below(set, key, 1, Fill::Min, true, steps);
    (from, to)
}

// How many stored points are below a value.
fn below<K: KeyKind, Q: Key, L: Ledger>(set: &BoundSet<K>, key: &Q, steps: &mut Steps<L>) -> usize
    requires level { IsListLevel set.now }
    requires fits { CanAskList set.now (Q.values key.now) }
    ensures run { (op : Comparison) → spec.looked_for op ≡ Lt → spec.RunOf set.now op (only (Q.values key.now)) 0 result }
    ensures counted { (d : ℕ) → 2 ^ d ≤ length (stored set.now) + 1 → steps.old + d ≤ steps.new }
    ensures cost { (d : ℕ) → 2 * length (stored set.now) + 2 < 2 ^ (d + 1) → steps.new ≤ steps.old + 2 * d }
{
    points_below(set, key, 1, Fill::Min, false, steps)
}

// How many stored points are not above a value.
fn up_to<K: KeyKind, Q: Key, L: Ledger>(set: &BoundSet<K>, key: &Q, steps: &mut Steps<L>) -> usize
    requires level { IsListLevel set.now }
    requires fits { CanAskList set.now (Q.values key.now) }
    ensures run { (op : Comparison) → spec.looked_for op ≡ Le → spec.RunOf set.now op (only (Q.values key.now)) 0 result }
    ensures counted { (d : ℕ) → 2 ^ d ≤ length (stored set.now) + 1 → steps.old + d ≤ steps.new }
    ensures cost { (d : ℕ) → 2 * length (stored set.now) + 2 < 2 ^ (d + 1) → steps.new ≤ steps.old + 2 * d }
{
    points_below(set, key, 1, Fill::Min, true, steps)
}

// The run of stored points that pass, or of those that fail.
fn run_of<K: KeyKind, Q: Key, L: Ledger>(
    set: &BoundSet<K>,
    op: CompareOp,
    key: &Q,
    steps: &mut Steps<L>,
) -> (usize, usize)
    requires level { IsListLevel set.now }
    requires fits { CanAskList set.now (Q.values key.now) }
    ensures run { spec.RunOf set.now op (only (Q.values key.now)) result.0 result.1 }
    ensures counted { (d : ℕ) → 2 ^ d ≤ length (stored set.now) + 1 → steps.old + d ≤ steps.new }
    ensures cost { (d : ℕ) → 2 * length (stored set.now) + 2 < 2 ^ (d + 1) → steps.new ≤ steps.old + 2 * d }
{
    match op {
        CompareOp::Eq => equal_run(set, key, steps),
        CompareOp::Ne => equal_run(set, key, steps),
        CompareOp::Lt => (0, below(set, key, steps)),
        CompareOp::Ge => (0, below(set, key, steps)),
        CompareOp::Le => (0, up_to(set, key, steps)),
        CompareOp::Gt => (0, up_to(set, key, steps)),
    }
}

// Whether the values of the run pass, or those outside of it.
fn passes_inside(op: CompareOp) -> bool
    ensures { result ≡ spec.passes_inside op }
{
    match op {
        CompareOp::Eq => true,
        CompareOp::Ne => false,
        CompareOp::Lt => true,
        CompareOp::Le => true,
        CompareOp::Gt => false,
        CompareOp::Ge => false,
    }
}

// The default has what is not listed: under = nothing that passes, where a child lists the value.
fn keeps_default(op: CompareOp, from: usize, to: usize) -> bool
    ensures { result ≡ spec.keeps_default op from to }
{
    match op {
        CompareOp::Eq => from == to,
        _ => true,
    }
}

/// The children that a comparison with a listed value keeps.
pub(crate) fn keep_listed<K: KeyKind, Q: Key, L: Ledger>(
    set: &BoundSet<K>,
    op: CompareOp,
    key: &Q,
    kept: &mut KeptSet,
    steps: &mut Steps<L>,
)
    requires level { IsListLevel set.now }
    requires small { length set.now ≤ 1024 }
    requires fits { CanAskList set.now (Q.values key.now) }
    ensures kept { AreBits (length set.now) kept.new (λ k. list_keeps set.now op (only (Q.values key.now)) (slice_index_or set.now k ByDefault)) }
    ensures counted { (d : ℕ) → 2 ^ d ≤ length (stored set.now) + 1 → steps.old + d ≤ steps.new }
    ensures cost { (d : ℕ) → 2 * length (stored set.now) + 2 < 2 ^ (d + 1) → steps.new ≤ steps.old + 2 * d }
{
    let (from, to) = run_of(set, op, key, steps);
    let counts = counts_in(set, from, to);
    kept.fill(false);
    add_counted(set, &counts, passes_inside(op), kept);
    add_default(set, keeps_default(op, from, to), kept);
}

/// The children that IS NULL keeps.
pub(crate) fn keep_null<K: KeyKind>(set: &BoundSet<K>, kept: &mut KeptSet)
    requires small { length set.now ≤ 1024 }
    ensures { AreBits (length set.now) kept.new (λ k. spec.null_listed set.now (slice_index_or set.now k ByDefault)) }
{
    kept.fill(false);
    add_marked(set, Mark::Null, kept);
    let none = !any_marked(set, Mark::Null);
    add_default(set, none, kept);
}

/// The children that IS NOT NULL keeps.
pub(crate) fn keep_not_null<K: KeyKind>(set: &BoundSet<K>, kept: &mut KeptSet)
    requires small { length set.now ≤ 1024 }
    ensures { AreBits (length set.now) kept.new (λ k. spec.value_listed (slice_index_or set.now k ByDefault)) }
{
    kept.fill(false);
    add_marked(set, Mark::Value, kept);
    add_marked(set, Mark::Default, kept);
}
