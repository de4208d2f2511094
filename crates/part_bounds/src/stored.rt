ghost use Rattle.std.specs.Prelude.{◌≡◌, ◌+◌, ◌-◌, ◌*◌, ◌/◌, ◌^◌, ◌<◌, ◌≤◌, [], length, All, false, slice_index_or, if◌then◌else◌};
ghost use Rattle.std.specs.List.{count_by};
ghost use Rattle.bound_forms.specs.Accepts as accepts;
ghost use Rattle.bound_forms.specs.declared.partition_bound.Bound.TheVariants.{Default as ByDefault};
ghost use Rattle.bound_forms.specs.Points.{EdgeOfKind, point_order, end_of};
ghost use Rattle.std.specs.Ordering.{is_eq, is_le as order_is_le, is_lt as order_is_lt};
ghost use Rattle.part_bounds.specs.Leads as leads;
ghost use Rattle.part_bounds.specs.Stored as spec;
ghost use Rattle.part_bounds.specs.Stored.{CanBegin, InRow, stored, range_points, width, passes, owners, in_sibling, upper_of, HasPoints, IsRangeLevel, TellsEqual, RangesFit, FitsEnd, Splits};

use crate::BoundSet;
use crate::counted::counted;
use crate::lead::end_lead;
use crate::level_kind::is_range_level;
use crate::listing::cmp_listed_end;
use bound_forms::{Bound, Fill, Key, Point, cmp_end, cmp_points};
use pg_values::{KeyKind, Steps};
use std::cmp::Ordering;
use std::sync::ledger::Ledger;

// The stored point of this number.
fn stored_point<K: KeyKind>(set: &BoundSet<K>, i: usize) -> &Point
    requires ranges { IsRangeLevel set.now }
    requires there { i < length (stored set.now) }
    ensures { result.now ≡ slice_index_or (stored set.now) i [] }
{
    match &set.bounds[i / 2] {
        Bound::Range { lower, upper } => { if i % 2 == 0 { lower } else { upper } }
        _ => unreachable!(),
    }
}

// The order of the stored point of this number and the point of the key's first values, filled up. Counted.
#[inline(never)]
fn count_point<K: KeyKind, Q: Key, L: Ledger>(
    set: &BoundSet<K>,
    i: usize,
    key: &Q,
    n: usize,
    fill: Fill,
    steps: &mut Steps<L>,
) -> Ordering
    requires level { HasPoints set.now }
    requires there { n ≤ length (Q.values key.now) }
    requires fits { FitsEnd set.now n fill (Q.values key.now) }
    requires is_point { i < length (stored set.now) }
    ensures order { result ≡ point_order (slice_index_or (stored set.now) i []) (end_of (width set.now) n fill (Q.values key.now)) }
    ensures cost { steps.new ≡ steps.old + 1 }
{
    let _bounds = &set.bounds;
    if is_range_level(set) {
        counted(
            cmp_end(&set.kind, stored_point(set, i), key, n, fill),
            steps,
        )
    } else {
        counted(
            cmp_listed_end(&set.bounds, set.listings[i], key, n, fill),
            steps,
        )
    }
}

#[inline(always)]
fn is_before(order: Ordering, or_equal: bool) -> bool
    ensures { result ≡ if or_equal then order_is_le order else order_is_lt order }
{
    if or_equal {
        order.is_le()
    } else {
        order.is_lt()
    }
}

// What a test of a stored point tells: whether it lies before the point that is searched for, and whether it is equal to it.
#[derive(Clone, Copy, Debug)]
struct Tested {
    before: bool,
    equal: bool,
}

// Tests the stored point of this number, whose lead is `own`, against the point of the key's first values, filled up, whose lead
// is `lead`. Leads that differ tell without going to the point. Counted.
#[inline(always)]
fn test_point<K: KeyKind, Q: Key, L: Ledger>(
    set: &BoundSet<K>,
    i: usize,
    own: i64,
    lead: i64,
    key: &Q,
    n: usize,
    fill: Fill,
    or_equal: bool,
    steps: &mut Steps<L>,
) -> Tested
    requires level { HasPoints set.now }
    requires there { n ≤ length (Q.values key.now) }
    requires fits { FitsEnd set.now n fill (Q.values key.now) }
    requires is_point { i < length (stored set.now) }
    requires own { own ≡ leads.lead (slice_index_or (stored set.now) i []) }
    requires lead { lead ≡ leads.lead (end_of (width set.now) n fill (Q.values key.now)) }
    ensures before { result.before ≡ passes or_equal (end_of (width set.now) n fill (Q.values key.now)) (slice_index_or (stored set.now) i []) }
    ensures equal { result.equal ≡ is_eq (point_order (slice_index_or (stored set.now) i []) (end_of (width set.now) n fill (Q.values key.now))) }
    ensures cost { steps.new ≡ steps.old + 1 }
{
    if own != lead {
        steps.tick();
        return Tested {
            before: own < lead,
            equal: false,
        };
    }
    let order = count_point(set, i, key, n, fill, steps);
    Tested {
        before: is_before(order, or_equal),
        equal: order.is_eq(),
    }
}

// What a search finds: how many stored points lie before the point, and whether the last of them is equal to it.
#[derive(Clone, Copy, Debug)]
pub(crate) struct Found {
    pub(crate) below: usize,
    pub(crate) equal: bool,
}

// The search by halves for the point of the key's first `n` values, filled up.
pub(crate) fn search_points<K: KeyKind, Q: Key, L: Ledger>(
    set: &BoundSet<K>,
    key: &Q,
    n: usize,
    fill: Fill,
    or_equal: bool,
    steps: &mut Steps<L>,
) -> Found
    requires level { HasPoints set.now }
    requires there { n ≤ length (Q.values key.now) }
    requires fits { FitsEnd set.now n fill (Q.values key.now) }
    ensures points { Splits (passes or_equal (end_of (width set.now) n fill (Q.values key.now))) (stored set.now) result.below }
    ensures equal { TellsEqual (stored set.now) (end_of (width set.now) n fill (Q.values key.now)) result.below result.equal }
    ensures later { steps.old ≤ steps.new }
    ensures counted { length (stored set.now) + 2 ≤ 2 * 2 ^ (steps.new - steps.old) }
    ensures cost { 2 ^ (steps.new - steps.old) ≤ 2 * length (stored set.now) + 2 }
{
    let leads: &Vec<i64> = &set.leads;
    let lead = end_lead(key, n, fill);
    let mut low = 0;
    let mut high = leads.len();
    let mut equal = false;
    while low < high {
        let middle = low + (high - low) / 2;
        let tested = test_point(
            set,
            middle,
            leads[middle],
            lead,
            key,
            n,
            fill,
            or_equal,
            steps,
        );
        if tested.before {
            low = middle + 1;
            equal = tested.equal;
        } else {
            high = middle;
        }
    }
    Found { below: low, equal }
}

/// How many stored points of a level by range or list are below the point of the key's first `n`
/// values filled up with `fill`, and with `or_equal` how many are not above it.
pub fn points_below<K: KeyKind, Q: Key, L: Ledger>(
    set: &BoundSet<K>,
    key: &Q,
    n: usize,
    fill: Fill,
    or_equal: bool,
    steps: &mut Steps<L>,
) -> usize
    requires level { HasPoints set.now }
    requires there { n ≤ length (Q.values key.now) }
    requires fits { FitsEnd set.now n fill (Q.values key.now) }
    ensures points { Splits (passes or_equal (end_of (width set.now) n fill (Q.values key.now))) (stored set.now) result }
    ensures count { result ≡ count_by (passes or_equal (end_of (width set.now) n fill (Q.values key.now))) (stored set.now) }
    ensures later { steps.old ≤ steps.new }
    ensures counted { length (stored set.now) + 2 ≤ 2 * 2 ^ (steps.new - steps.old) }
    ensures cost { 2 ^ (steps.new - steps.old) ≤ 2 * length (stored set.now) + 2 }
{
    search_points(set, key, n, fill, or_equal, steps).below
}

/// The child whose bound has the stored point of this number.
pub fn owner_of<K: KeyKind>(set: &BoundSet<K>, i: usize) -> usize
    requires level { HasPoints set.now }
    requires there { i < length (stored set.now) }
    ensures { result ≡ slice_index_or (owners set.now) i 0 }
{
    let _bounds = &set.bounds;
    if is_range_level(set) {
        i / 2
    } else {
        set.listings[i].child
    }
}

// Whether the bound is a range that begins at the point or below it.
fn begins_up_to<K: KeyKind>(kind: &K, b: &Bound, p: &Point) -> bool
    requires fit { CanBegin p.now b.now }
    requires of_kind { All (EdgeOfKind (K.admits kind.now)) p.now }
    ensures { result ≡ spec.begins_up_to p.now b.now }
{
    match b {
        Bound::Range { lower, .. } => !cmp_points(kind, p, lower).is_lt(),
        _ => false,
    }
}

/// Whether the upper point of a range lies in a sibling.
pub fn touches<K: KeyKind>(set: &BoundSet<K>, child: usize) -> bool
    requires ranges { IsRangeLevel set.now }
    requires fit { RangesFit set.now }
    requires child { child < length set.now }
    requires is_range { accepts.is_default (slice_index_or set.now child ByDefault) ≡ false }
    ensures { result ≡ in_sibling set.now (upper_of (slice_index_or set.now child ByDefault)) }
{
    if child >= set.bounds.len() - 1 {
        return false;
    }
    match &set.bounds[child] {
        Bound::Range { upper, .. } => begins_up_to(&set.kind, &set.bounds[child + 1], upper),
        _ => unreachable!(),
    }
}

/// The ranges of a level stand in a row: none is empty, and each ends before the later ones begin. Its stored points
/// are those of its ranges, one after the other.
pub fn ranges_stand_in_row<K: KeyKind>(set: &BoundSet<K>)
    requires { IsRangeLevel set.now }
    ensures row { InRow set.now }
    ensures points { stored set.now ≡ range_points set.now }
{
    let _bounds = &set.bounds;
}
