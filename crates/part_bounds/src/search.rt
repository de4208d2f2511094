ghost use Rattle.std.specs.Prelude.{true, ◌≡◌, ◌<◌, ◌+◌, ◌-◌, ◌*◌, ◌^◌, ◌≤◌, All, length, position, IfSome, slice_get};
ghost use Rattle.bound_forms.specs.Bounds as bounds_spec;
ghost use Rattle.bound_forms.specs.Bounds.{BoundOfKind, BoundsFit, greater, is_below, is_filled, lesser};
ghost use Rattle.bound_forms.specs.Points.{EdgeOfKind, PointsFit};
ghost use Rattle.bound_forms.specs.Accepts as accepts_spec;
ghost use Rattle.bound_forms.specs.Accepts.{accepts_among, FitsBound, FitsSet};
ghost use Rattle.part_bounds.specs.Stored.{stored, IsRangeLevel, IsListLevel, IsHashLevel};

use crate::counted::{count_points, count_share};
use crate::level_kind::{is_hash_level, is_range_level};
use crate::remainder::remainder_child;
use crate::stored::search_points;
use crate::{BoundSet, default_child, points_below};
use bound_forms::{
    Bound, Fill, Key, Point, bound_accepts, has_null, is_default, remainders_meet, row_hash,
};
use pg_values::{KeyKind, Steps};
use std::marker::Brand;
use std::sync::ledger::{Blank, Ledger};

// Whether two ranges that are not empty overlap: each begins before the other ends.
fn ranges_overlap<K: KeyKind, L: Ledger>(
    kind: &K,
    lower: &Point,
    upper: &Point,
    from: &Point,
    to: &Point,
    steps: &mut Steps<L>,
) -> bool
    requires begin { PointsFit lower.now to.now }
    requires end { PointsFit upper.now from.now }
    requires lower_of_kind { All (EdgeOfKind (K.admits kind.now)) lower.now }
    requires upper_of_kind { All (EdgeOfKind (K.admits kind.now)) upper.now }
    requires filled { is_below lower.now upper.now ≡ true }
    requires other_filled { is_below from.now to.now ≡ true }
    ensures { result ≡ is_below (greater from.now lower.now) (lesser to.now upper.now) }
{
    count_points(kind, lower, to, steps).is_lt() && count_points(kind, upper, from, steps).is_gt()
}

// Whether two bounds overlap.
fn overlap_each_other<K: KeyKind, L: Ledger>(
    kind: &K,
    a: &Bound,
    b: &Bound,
    steps: &mut Steps<L>,
) -> bool
    requires fit { BoundsFit a.now b.now }
    requires of_kind { BoundOfKind (K.admits kind.now) a.now }
    requires filled { is_filled b.now ≡ true }
    ensures { result ≡ bounds_spec.overlaps b.now a.now }
{
    match (a, b) {
        (
            Bound::Range { lower, upper },
            Bound::Range {
                lower: from,
                upper: to,
            },
        ) => { ranges_overlap(kind, lower, upper, from, to, steps) }
        (Bound::List { values: others }, Bound::List { values }) => {
            count_share(kind, values, others, steps)
        }
        (
            Bound::Hash {
                modulus: other,
                remainder: rest,
            },
            Bound::Hash { modulus, remainder },
        ) => remainders_meet(*modulus, *remainder, *other, *rest),
        (Bound::Default, Bound::Default) => true,
        _ => false,
    }
}

/// The first sibling in plain order that overlaps the bound.
pub fn overlap<K: KeyKind, L: Ledger>(
    set: &BoundSet<K>,
    b: &Bound,
    steps: &mut Steps<L>,
) -> Option<usize>
    requires fit { All (λ a. BoundsFit a b.now) set.now }
    requires filled { is_filled b.now ≡ true }
    ensures { result ≡ position (bounds_spec.overlaps b.now) set.now }
{
    for (at, other) in set.bounds.iter().enumerate() {
        if overlap_each_other(&set.kind, other, b, steps) {
            return Some(at);
        }
    }
    None
}

// The range that accepts the key, by halves.
fn range_child<K: KeyKind, Q: Key, L: Ledger>(
    set: &BoundSet<K>,
    key: &Q,
    steps: &mut Steps<L>,
) -> Option<usize>
    requires ranges { IsRangeLevel set.now }
    requires fits { FitsSet set.now (Q.values key.now) }
    ensures child { result ≡ position (accepts_spec.accepts (Q.values key.now)) set.now }
    ensures later { steps.old ≤ steps.new }
    ensures cost { 2 ^ (steps.new - steps.old) ≤ 2 * length (stored set.now) + 2 }
{
    let _bounds = &set.bounds;
    if has_null(key) {
        return None;
    }
    let n = points_below(set, key, key.len(), Fill::Min, true, steps);
    if n % 2 == 1 {
        return Some(n / 2);
    }
    None
}

// The list that has the key's value: the search by halves learns it from its last point that is not above the value, so
// it compares nothing more.
fn list_child<K: KeyKind, Q: Key, L: Ledger>(
    set: &BoundSet<K>,
    key: &Q,
    steps: &mut Steps<L>,
) -> Option<usize>
    requires lists { IsListLevel set.now }
    requires one { length (Q.values key.now) ≡ 1 }
    requires fits { FitsSet set.now (Q.values key.now) }
    ensures child { result ≡ position (accepts_spec.accepts (Q.values key.now)) set.now }
    ensures later { steps.old ≤ steps.new }
    ensures cost { 2 ^ (steps.new - steps.old) ≤ 2 * length (stored set.now) + 2 }
{
    if has_null(key) {
        return set.null_child;
    }
    let found = search_points(set, key, key.len(), Fill::Min, true, steps);
    if found.equal {
        return Some(set.listings[found.below - 1].child);
    }
    None
}

// The remainder that the key's hash leaves. It compares no values.
fn hash_child<K: KeyKind, Q: Key>(set: &BoundSet<K>, key: &Q) -> Option<usize>
    requires { IsHashLevel set.now }
    ensures { result ≡ position (accepts_spec.accepts (Q.values key.now)) set.now }
{
    remainder_child(&set.bounds, row_hash(key))
}

// The partition whose bound by itself accepts the key.
fn own_child<K: KeyKind, Q: Key, L: Ledger>(
    set: &BoundSet<K>,
    key: &Q,
    steps: &mut Steps<L>,
) -> Option<usize>
    requires { FitsSet set.now (Q.values key.now) }
    ensures child { result ≡ position (accepts_spec.accepts (Q.values key.now)) set.now }
    ensures later { steps.old ≤ steps.new }
    ensures cost { 2 ^ (steps.new - steps.old) ≤ 2 * length (stored set.now) + 2 }
    ensures hash { IsHashLevel set.now → steps.new ≡ steps.old }
{
    if is_hash_level(set) {
        return hash_child(set, key);
    }
    if is_range_level(set) {
        return range_child(set, key, steps);
    }
    list_child(set, key, steps)
}

/// The partition that accepts the key: the one whose bound does, or else the default.
pub fn find_child<K: KeyKind, Q: Key, L: Ledger>(
    set: &BoundSet<K>,
    key: &Q,
    steps: &mut Steps<L>,
) -> Option<usize>
    requires { FitsSet set.now (Q.values key.now) }
    ensures child { result ≡ position (accepts_among set.now (Q.values key.now)) set.now }
    ensures later { steps.old ≤ steps.new }
    ensures cost { 2 ^ (steps.new - steps.old) ≤ 2 * length (stored set.now) + 2 }
    ensures hash { IsHashLevel set.now → steps.new ≡ steps.old }
{
    match own_child(set, key, steps) {
        Some(child) => Some(child),
        None => default_child(set),
    }
}

// The searches with a counter made for them.
fn find_from<K: KeyKind, Q: Key, L: Ledger>(
    set: &BoundSet<K>,
    key: &Q,
    blank: Blank,
) -> Option<usize>
    requires fits { FitsSet set.now (Q.values key.now) }
    requires name { blank.name ≡ L.name }
    requires parts { blank.parts ≡ L.parts }
    requires some { 0 < blank.parts }
    ensures { result ≡ position (accepts_among set.now (Q.values key.now)) set.now }
{
    let mut steps = Steps::<L>::new(blank);
    find_child(set, key, &mut steps)
}

fn overlap_from<K: KeyKind, L: Ledger>(set: &BoundSet<K>, b: &Bound, blank: Blank) -> Option<usize>
    requires fit { All (λ a. BoundsFit a b.now) set.now }
    requires filled { is_filled b.now ≡ true }
    requires name { blank.name ≡ L.name }
    requires parts { blank.parts ≡ L.parts }
    requires some { 0 < blank.parts }
    ensures { result ≡ position (bounds_spec.overlaps b.now) set.now }
{
    let mut steps = Steps::<L>::new(blank);
    overlap(set, b, &mut steps)
}

/// The same as `find_child`, for a caller that does not count.
pub fn find_child_uncounted<K: KeyKind, Q: Key>(set: &BoundSet<K>, key: &Q) -> Option<usize>
    requires { FitsSet set.now (Q.values key.now) }
    ensures { result ≡ position (accepts_among set.now (Q.values key.now)) set.now }
{
    find_from::<K, Q, Brand>(set, key, Blank::new(1))
}

/// The same as `overlap`, for a caller that does not count.
pub fn overlap_uncounted<K: KeyKind>(set: &BoundSet<K>, b: &Bound) -> Option<usize>
    requires fit { All (λ a. BoundsFit a b.now) set.now }
    requires filled { is_filled b.now ≡ true }
    ensures { result ≡ position (bounds_spec.overlaps b.now) set.now }
{
    overlap_from::<K, Brand>(set, b, Blank::new(1))
}

fn own_from<K: KeyKind, Q: Key, L: Ledger>(
    set: &BoundSet<K>,
    key: &Q,
    blank: Blank,
) -> Option<usize>
    requires fits { FitsSet set.now (Q.values key.now) }
    requires name { blank.name ≡ L.name }
    requires parts { blank.parts ≡ L.parts }
    requires some { 0 < blank.parts }
    ensures { result ≡ position (accepts_spec.accepts (Q.values key.now)) set.now }
{
    let mut steps = Steps::<L>::new(blank);
    own_child(set, key, &mut steps)
}

// Whether a bound of the set accepts the key.
fn child_accepts<K: KeyKind, Q: Key>(set: &BoundSet<K>, kind: &K, b: &Bound, key: &Q) -> bool
    requires all { FitsSet set.now (Q.values key.now) }
    requires fits { FitsBound (Q.values key.now) b.now }
    requires of_kind { BoundOfKind (K.admits kind.now) b.now }
    ensures { result ≡ accepts_among set.now (Q.values key.now) b.now }
{
    if is_default(b) {
        own_from::<K, Q, Brand>(set, key, Blank::new(1)).is_none()
    } else {
        bound_accepts(kind, b, key)
    }
}

/// Whether a partition, named by its place, accepts the key: the default does where no sibling
/// does.
pub fn accepts<K: KeyKind, Q: Key>(set: &BoundSet<K>, child: usize, key: &Q) -> bool
    requires child { child < length set.now }
    requires fits { FitsSet set.now (Q.values key.now) }
    ensures { IfSome (slice_get set.now child) (λ b. result ≡ accepts_among set.now (Q.values key.now) b) }
{
    child_accepts(set, &set.kind, &set.bounds[child], key)
}
