//! Leads: a number for each stored point, by which a search tells its order in most cases without going to the point.

ghost use Rattle.std.specs.Prelude.{◌≡◌, ◌<◌, ◌≤◌, ◌++◌, ℕ, length, map, IfOk, OnOk};
ghost use Rattle.bound_forms.specs.Points.{end_of, fill_edge};
ghost use Rattle.part_bounds.specs.Stored.{points_of_range, range_points};
ghost use Rattle.part_bounds.specs.Leads as leads;
ghost use Rattle.part_bounds.specs.Leads.{lead, listed_lead};

use crate::listing::{Listing, listed_at};
use bound_forms::{Bound, Edge, Fill, Key, Point};
use pg_values::{NoMemory, Value};
use std::alloc::Global;

#[inline(always)]
fn value_lead(value: &Value) -> i64
    ensures { result ≡ leads.value_lead value.now }
{
    match value {
        Value::Int4(n) => *n as i64,
        Value::Int8(n) => *n,
        Value::Day(day) => *day as i64,
        _ => 0,
    }
}

fn edge_lead(edge: &Edge) -> i64
    ensures { result ≡ leads.edge_lead edge.now }
{
    match edge {
        Edge::Min => i64::MIN,
        Edge::At(value) => value_lead(value),
        Edge::Max => i64::MAX,
    }
}

fn point_lead(point: &Point) -> i64
    ensures { result ≡ lead point.now }
{
    match point.as_slice() {
        [first, ..] => edge_lead(first),
        [] => 0,
    }
}

fn fill_lead(fill: Fill) -> i64
    ensures { result ≡ leads.edge_lead (fill_edge fill) }
{
    match fill {
        Fill::Min => i64::MIN,
        Fill::Max => i64::MAX,
    }
}

/// The lead of the point of the key's first `n` values, filled up.
#[inline(always)]
pub(crate) fn end_lead<Q: Key>(key: &Q, n: usize, fill: Fill) -> i64
    requires { n ≤ length (Q.values key.now) }
    ensures { (w : ℕ) → 0 < w → result ≡ lead (end_of w n fill (Q.values key.now)) }
{
    if n == 0 {
        fill_lead(fill)
    } else {
        value_lead(key.value(0))
    }
}

// The leads of the points of a range.
fn add_range(b: &Bound, leads: &mut Vec<i64>) -> Result<(), NoMemory>
    ensures { OnOk result (leads.new.items ≡ leads.old.items ++ map lead (points_of_range b.now)) }
{
    match b {
        Bound::Range { lower, upper } => {
            leads.push(point_lead(lower))?;
            leads.push(point_lead(upper))?;
            Ok(())
        }
        _ => Ok(()),
    }
}

fn add_ranges(bounds: &[Bound], leads: &mut Vec<i64>) -> Result<(), NoMemory>
    ensures { OnOk result (leads.new.items ≡ leads.old.items ++ map lead (range_points bounds.now)) }
{
    for b in bounds {
        add_range(b, leads)?;
    }
    Ok(())
}

fn lead_at(bounds: &[Bound], s: &Listing) -> i64
    ensures { result ≡ listed_lead bounds.now s.now }
{
    let none = Value::Null;
    value_lead(listed_at(bounds, *s, &none))
}

fn add_listed(bounds: &[Bound], listings: &[Listing], leads: &mut Vec<i64>) -> Result<(), NoMemory>
    ensures { OnOk result (leads.new.items ≡ leads.old.items ++ map (listed_lead bounds.now) listings.now) }
{
    for s in listings {
        leads.push(lead_at(bounds, s))?;
    }
    Ok(())
}

/// The leads of the stored points of a level by range or list.
pub(crate) fn leads_of(
    alloc: Global,
    bounds: &[Bound],
    listings: &[Listing],
) -> Result<Vec<i64>, NoMemory>
    ensures { IfOk result (λ all. all.items ≡ leads.leads_of bounds.now listings.now) }
{
    let mut all = Vec::new(alloc);
    add_ranges(bounds, &mut all)?;
    add_listed(bounds, listings, &mut all)?;
    Ok(all)
}
