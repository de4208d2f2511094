//! Children that are marked by what their bounds are, without a comparison.

ghost use Rattle.std.specs.Prelude.{◌≡◌, ◌≤◌, ◌&&◌, ◌||◌, length, slice_index_or};
ghost use Rattle.std.specs.List.{list_any};
ghost use Rattle.bound_forms.specs.declared.partition_bound.Bound.TheVariants.{Default as ByDefault};
ghost use Rattle.bound_forms.specs.Accepts.{is_default};
ghost use Rattle.bound_forms.specs.Points as points;
ghost use Rattle.part_bounds.specs.Listings as listings;
ghost use Rattle.prune_steps.specs.Bits.{bit, AreBits};
ghost use Rattle.prune_steps.specs.Lists as spec;

use crate::KeptSet;
use bound_forms::Bound;
use part_bounds::{BoundSet, bound, len};
use pg_values::{KeyKind, Row, Value};

/// What a bound is marked for.
#[derive(Clone, Copy, Debug)]
pub(crate) enum Mark {
    Default,
    Null,
    Value,
}

fn lists(values: &Row, null: bool) -> bool
    ensures { result ≡ list_any (spec.is_null_or_not null) values.now }
{
    values
        .as_slice()
        .iter()
        .any(|v| matches!(v, Value::Null) == null)
}

// Whether the bound is DEFAULT, lists NULL, or lists a value.
fn is_marked(mark: Mark, b: &Bound) -> bool
    ensures { result ≡ spec.is_marked mark b.now }
{
    match (mark, b) {
        (Mark::Default, Bound::Default) => true,
        (Mark::Null, Bound::List { values }) => lists(values, true),
        (Mark::Value, Bound::List { values }) => lists(values, false),
        _ => false,
    }
}

/// Adds the marked children.
pub(crate) fn add_marked<K: KeyKind>(set: &BoundSet<K>, mark: Mark, kept: &mut KeptSet)
    requires small { length set.now ≤ 1024 }
    ensures { AreBits (length set.now) kept.new (λ k. bit kept.old k || spec.is_marked mark (slice_index_or set.now k ByDefault)) }
{
    for k in 0..len(set) {
        let yes = is_marked(mark, bound(set, k));
        kept.add_if(k, yes);
    }
}

/// Whether a child is marked.
pub(crate) fn any_marked<K: KeyKind>(set: &BoundSet<K>, mark: Mark) -> bool
    ensures { result ≡ list_any (spec.is_marked mark) set.now }
{
    for k in 0..len(set) {
        if is_marked(mark, bound(set, k)) {
            return true;
        }
    }
    false
}

/// Adds the default, where there is one and it is kept.
pub(crate) fn add_default<K: KeyKind>(set: &BoundSet<K>, keeps: bool, kept: &mut KeptSet)
    requires small { length set.now ≤ 1024 }
    ensures { AreBits (length set.now) kept.new (λ k. bit kept.old k || (is_default (slice_index_or set.now k ByDefault) && keeps)) }
{
    if keeps {
        add_marked(set, Mark::Default, kept);
    }
}
