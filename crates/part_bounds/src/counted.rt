//! Comparisons of points and of listed values that are counted.

ghost use Rattle.std.specs.Prelude.{◌≡◌, ◌+◌, All};
ghost use Rattle.bound_forms.specs.Points.{point_order, EdgeOfKind, PointsFit};
ghost use Rattle.bound_forms.specs.Listed as listed;
ghost use Rattle.bound_forms.specs.Listed.{lists, share_value, ValuesFit, ListsFit, ValueOfKind};

use bound_forms::{Point, cmp_points, is_same};
use pg_values::{KeyKind, Row, Steps, Value};
use std::cmp::Ordering;
use std::sync::ledger::Ledger;

// The order that a comparison of two points gave, counted.
#[inline(always)]
pub(crate) fn counted<L: Ledger>(order: Ordering, steps: &mut Steps<L>) -> Ordering
    ensures order { result ≡ order }
    ensures cost { steps.new ≡ steps.old + 1 }
{
    steps.tick();
    order
}

// The order of two points, counted.
pub(crate) fn count_points<K: KeyKind, L: Ledger>(
    kind: &K,
    a: &Point,
    b: &Point,
    steps: &mut Steps<L>,
) -> Ordering
    requires fit { PointsFit a.now b.now }
    requires of_kind { All (EdgeOfKind (K.admits kind.now)) a.now }
    ensures order { result ≡ point_order a.now b.now }
    ensures cost { steps.new ≡ steps.old + 1 }
{
    counted(cmp_points(kind, a, b), steps)
}

// Whether the two are equal, or both null. Counted.
fn count_same<K: KeyKind, L: Ledger>(kind: &K, v: &Value, w: &Value, steps: &mut Steps<L>) -> bool
    requires fit { ValuesFit v.now w.now }
    requires of_kind { ValueOfKind (K.admits kind.now) v.now }
    ensures same { result ≡ listed.is_same v.now w.now }
    ensures cost { steps.new ≡ steps.old + 1 }
{
    steps.tick();
    is_same(kind, v, w)
}

// Whether the value is among those listed. Counted.
fn count_lists<K: KeyKind, L: Ledger>(
    kind: &K,
    values: &Row,
    v: &Value,
    steps: &mut Steps<L>,
) -> bool
    requires fit { All (λ w. ValuesFit w v.now) values.now }
    requires of_kind { All (ValueOfKind (K.admits kind.now)) values.now }
    ensures { result ≡ lists values.now v.now }
{
    for i in 0..values.len() {
        if count_same(kind, values.value(i), v, steps) {
            return true;
        }
    }
    false
}

// Whether one of the values is among the others. Counted.
pub(crate) fn count_share<K: KeyKind, L: Ledger>(
    kind: &K,
    values: &Row,
    others: &Row,
    steps: &mut Steps<L>,
) -> bool
    requires fit { ListsFit others.now values.now }
    requires of_kind { All (ValueOfKind (K.admits kind.now)) others.now }
    ensures { result ≡ share_value values.now others.now }
{
    for i in 0..values.len() {
        if count_lists(kind, others, values.value(i), steps) {
            return true;
        }
    }
    false
}
