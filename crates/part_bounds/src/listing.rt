//! The sorted array of a list level: where each listed value that is not null stands, ascending. It names the values by
//! their places, so it holds none of them.

ghost use Rattle.std.specs.List.{list_any};
ghost use Rattle.std.specs.Prelude.{◌≡◌, ◌≤◌, ◌++◌, ◌∷◌, [], length, position, slice_index_or, IfOk, OnOk};
ghost use Rattle.pg_values.specs.declared.value.Value.TheVariants.{Null};
ghost use Rattle.bound_forms.specs.Points.{point_order, point_of, edge_order, end_of, fill_edge};
ghost use Rattle.part_bounds.specs.Sorted.{sorted};
ghost use Rattle.bound_forms.specs.Points as points;
ghost use Rattle.part_bounds.specs.Listings as listings;
ghost use Rattle.part_bounds.specs.Stored.{IsRangeLevel};
ghost use Rattle.part_bounds.specs.Listings.{AValue, values_of, mark_at, value_at, one_place, places_from, listings_from, listing_less, StandsFor};

use bound_forms::{Bound, Edge, Fill, Key, cmp_fill, is_null};
use pg_values::{NoMemory, Row, Value, cmp_any};
use std::alloc::Global;
use std::cmp::Ordering;

/// Where a value is listed: its child, and its place in the list.
#[derive(Clone, Copy, Debug)]
pub struct Listing {
    pub child: usize,
    pub place: usize,
}

fn add_place(
    value: &Value,
    child: usize,
    place: usize,
    listings: &mut Vec<Listing>,
) -> Result<(), NoMemory>
    ensures { OnOk result (listings.new.items ≡ listings.old.items ++ one_place child place value.now) }
{
    if is_null(value) {
        return Ok(());
    }
    listings.push(Listing { child, place })?;
    Ok(())
}

fn add_places(values: &Row, child: usize, listings: &mut Vec<Listing>) -> Result<(), NoMemory>
    ensures { OnOk result (listings.new.items ≡ listings.old.items ++ places_from child 0 values.now) }
{
    for place in 0..values.len() {
        add_place(values.value(place), child, place, listings)?;
    }
    Ok(())
}

fn add_child(b: &Bound, child: usize, listings: &mut Vec<Listing>) -> Result<(), NoMemory>
    ensures { OnOk result (listings.new.items ≡ listings.old.items ++ places_from child 0 (values_of b.now)) }
{
    match b {
        Bound::List { values } => add_places(values, child, listings),
        _ => Ok(()),
    }
}

// The value that is listed there, or the null that is passed.
pub(crate) fn listed_at<'a>(bounds: &'a [Bound], s: Listing, none: &'a Value) -> &'a Value
    requires { none.now ≡ Null }
    ensures { result.now ≡ value_at bounds.now s }
{
    if s.child < bounds.len() {
        value_in(&bounds[s.child], s.place, none)
    } else {
        none
    }
}

fn value_in<'a>(b: &'a Bound, place: usize, none: &'a Value) -> &'a Value
    requires { none.now ≡ Null }
    ensures { result.now ≡ slice_index_or (values_of b.now) place Null }
{
    match b {
        Bound::List { values } => {
            if place < values.len() {
                values.value(place)
            } else {
                none
            }
        }
        _ => none,
    }
}

fn cmp_listings(bounds: &[Bound], a: Listing, b: Listing) -> Ordering
    ensures { result ≡ point_order (mark_at bounds.now a).point (mark_at bounds.now b).point }
{
    let none = Value::Null;
    cmp_any(listed_at(bounds, a, &none), listed_at(bounds, b, &none))
}

// The order of a listed value, filled up with MIN, and the point of the key's first values, filled up.
pub(crate) fn cmp_listed_end<Q: Key>(
    bounds: &[Bound],
    s: Listing,
    key: &Q,
    n: usize,
    fill: Fill,
) -> Ordering
    requires { n ≤ length (Q.values key.now) }
    ensures { result ≡ point_order (mark_at bounds.now s).point (end_of 2 n fill (Q.values key.now)) }
{
    let none = Value::Null;
    cmp_value_end(listed_at(bounds, s, &none), key, n, fill)
}

fn cmp_value_end<Q: Key>(value: &Value, key: &Q, n: usize, fill: Fill) -> Ordering
    requires { n ≤ length (Q.values key.now) }
    ensures { result ≡ point_order (point_of (value.now ∷ [])) (end_of 2 n fill (Q.values key.now)) }
{
    if n == 0 {
        return cmp_filled(fill);
    }
    let first = cmp_any(value, key.value(0));
    if n == 1 {
        return first.then(cmp_fill(&Edge::Min, fill));
    }
    first.then(Ordering::Less)
}

// The order of a value and MIN or MAX.
fn cmp_filled(fill: Fill) -> Ordering
    ensures { (v : AValue) → result ≡ edge_order (Edge.At v) (fill_edge fill) }
{
    match fill {
        Fill::Min => Ordering::Greater,
        Fill::Max => Ordering::Less,
    }
}

fn sort_listings(bounds: &[Bound], listings: &mut Vec<Listing>) -> Result<(), NoMemory>
    ensures { OnOk result (listings.new.items ≡ sorted (listing_less bounds.now) listings.old.items) }
{
    listings.sort_by(|a, b| cmp_listings(bounds, *a, *b))?;
    Ok(())
}

/// The sorted array of a level. A level by range has none.
pub(crate) fn listings_of(alloc: Global, bounds: &[Bound]) -> Result<Vec<Listing>, NoMemory>
    ensures stands { IfOk result (λ listings. StandsFor bounds.now listings.items) }
    ensures none { IfOk result (λ listings. IsRangeLevel bounds.now → listings.items ≡ []) }
{
    let mut listings = Vec::new(alloc);
    for (child, b) in bounds.iter().enumerate() {
        add_child(b, child, &mut listings)?;
    }
    sort_listings(bounds, &mut listings)?;
    Ok(listings)
}

// Whether the list has NULL.
fn has_null(values: &Row) -> bool
    ensures { result ≡ list_any points.is_null values.now }
{
    for i in 0..values.len() {
        if is_null(values.value(i)) {
            return true;
        }
    }
    false
}

// Whether the bound lists NULL.
fn lists_null(b: &Bound) -> bool
    ensures { result ≡ listings.lists_null b.now }
{
    match b {
        Bound::List { values } => has_null(values),
        _ => false,
    }
}

/// The child that lists NULL.
pub(crate) fn null_child(bounds: &[Bound]) -> Option<usize>
    ensures { result ≡ position listings.lists_null bounds.now }
{
    bounds.iter().position(|b| lists_null(b))
}
