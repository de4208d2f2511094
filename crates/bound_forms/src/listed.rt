ghost use Rattle.std.specs.Prelude.{◌≡◌, ◌<◌, All, length, slice_index_or};
ghost use Rattle.pg_values.specs.declared.value.Value.TheVariants.{Null};
ghost use Rattle.bound_forms.specs.Points.{edge_order};
ghost use Rattle.bound_forms.specs.Listed as listed;
ghost use Rattle.bound_forms.specs.Listed.{listed_edge, ValuesFit, ListsFit, ValueOfKind};

use crate::key::is_null;
use pg_values::{KeyKind, Row, Value};
use std::cmp::Ordering;

// The order of two listed values; NULL stands behind all others.
fn cmp_listed<K: KeyKind>(kind: &K, v: &Value, w: &Value) -> Ordering
    requires fit { ValuesFit v.now w.now }
    requires of_kind { ValueOfKind (K.admits kind.now) v.now }
    ensures { result ≡ edge_order (listed_edge v.now) (listed_edge w.now) }
{
    match (is_null(v), is_null(w)) {
        (true, true) => Ordering::Equal,
        (true, false) => Ordering::Greater,
        (false, true) => Ordering::Less,
        (false, false) => kind.compare(v, w),
    }
}

/// Whether two listed values are equal, or both null.
pub fn is_same<K: KeyKind>(kind: &K, v: &Value, w: &Value) -> bool
    requires fit { ValuesFit v.now w.now }
    requires of_kind { ValueOfKind (K.admits kind.now) v.now }
    ensures { result ≡ listed.is_same v.now w.now }
{
    cmp_listed(kind, v, w).is_eq()
}

/// Whether the value is among those listed.
pub fn lists<K: KeyKind>(kind: &K, values: &Row, v: &Value) -> bool
    requires fit { All (λ w. ValuesFit w v.now) values.now }
    requires of_kind { All (ValueOfKind (K.admits kind.now)) values.now }
    ensures { result ≡ listed.lists values.now v.now }
{
    for i in 0..values.len() {
        if is_same(kind, values.value(i), v) {
            return true;
        }
    }
    false
}

// The place of the least listed value.
fn least_at<K: KeyKind>(kind: &K, values: &Row) -> usize
    requires some { 0 < length values.now }
    requires fit { ListsFit values.now values.now }
    requires of_kind { All (ValueOfKind (K.admits kind.now)) values.now }
    ensures within { result < length values.now }
    ensures least { slice_index_or values.now result Null ≡ listed.least values.now }
{
    let mut at = 0;
    for i in 1..values.len() {
        if cmp_listed(kind, values.value(at), values.value(i)).is_gt() {
            at = i;
        }
    }
    at
}

/// The order of the least values of two lists.
pub fn cmp_least<K: KeyKind>(kind: &K, values: &Row, others: &Row) -> Ordering
    requires some { 0 < length values.now }
    requires other_some { 0 < length others.now }
    requires fit { ListsFit values.now values.now }
    requires other_fit { ListsFit others.now others.now }
    requires together { ListsFit values.now others.now }
    requires of_kind { All (ValueOfKind (K.admits kind.now)) values.now }
    requires other_of_kind { All (ValueOfKind (K.admits kind.now)) others.now }
    ensures { result ≡ edge_order (listed_edge (listed.least values.now)) (listed_edge (listed.least others.now)) }
{
    let v = values.value(least_at(kind, values));
    let w = others.value(least_at(kind, others));
    cmp_listed(kind, v, w)
}
