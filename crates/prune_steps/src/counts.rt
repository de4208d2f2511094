//! How many listed values of each child stand in a run of the sorted array.

ghost use Rattle.std.specs.Prelude.{◌≡◌, ◌<◌, ◌≤◌, ◌||◌, ℕ, length, slice_index_or, not};
ghost use Rattle.bound_forms.specs.declared.partition_bound.Bound.TheVariants.{Default as ByDefault};
ghost use Rattle.bound_forms.specs.Points as points;
ghost use Rattle.part_bounds.specs.Listings.{values_of};
ghost use Rattle.part_bounds.specs.Stored.{stored, owners, HasPoints};
ghost use Rattle.prune_steps.specs.Bits.{bit, AreBits};
ghost use Rattle.prune_steps.specs.Lists as spec;
ghost use Rattle.prune_steps.specs.Lists.{count_at, owned_by};
ghost use Rattle.prune_steps.specs.Tallies.{one, tally};

use crate::KeptSet;
use crate::child_counts::Counts;
use bound_forms::Bound;
use part_bounds::{BoundSet, bound, len, owner_of};
use pg_values::{KeyKind, Row, Value};

fn one_if_not_null(value: &Value) -> usize
    ensures { result ≡ one (not (points.is_null value.now)) }
{
    match value {
        Value::Null => 0,
        _ => 1,
    }
}

// How many values are not null.
fn value_count(values: &Row) -> usize
    ensures { result ≡ tally (λ v. not (points.is_null v)) values.now }
{
    let mut count = 0;
    for i in 0..values.len() {
        count += one_if_not_null(values.value(i));
    }
    count
}

fn bound_count(b: &Bound) -> usize
    ensures { result ≡ tally (λ v. not (points.is_null v)) (values_of b.now) }
{
    match b {
        Bound::List { values } => value_count(values),
        _ => 0,
    }
}

/// How many stored points of a run each child has.
pub(crate) fn counts_in<K: KeyKind>(set: &BoundSet<K>, from: usize, to: usize) -> Counts
    requires level { HasPoints set.now }
    requires small { length set.now ≤ 1024 }
    requires run { to ≤ length (stored set.now) }
    ensures { (k : ℕ) → k < 1024 → count_at result k ≡ owned_by (owners set.now) from to to k }
{
    let mut counts = Counts::new();
    for i in from..to {
        counts.count(owner_of(set, i));
    }
    counts
}

/// Adds the children that have a value in the run, or one outside of it.
pub(crate) fn add_counted<K: KeyKind>(
    set: &BoundSet<K>,
    counts: &Counts,
    inside: bool,
    kept: &mut KeptSet,
)
    requires small { length set.now ≤ 1024 }
    ensures { AreBits (length set.now) kept.new (λ k. bit kept.old k || spec.is_counted inside (count_at counts.now k) (slice_index_or set.now k ByDefault)) }
{
    for k in 0..len(set) {
        let yes = is_counted(inside, counts.of(k), bound(set, k));
        kept.add_if(k, yes);
    }
}

fn is_counted(inside: bool, count: usize, b: &Bound) -> bool
    ensures { result ≡ spec.is_counted inside count b.now }
{
    if inside {
        count > 0
    } else {
        count < bound_count(b)
    }
}
