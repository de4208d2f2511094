ghost use Rattle.std.specs.Prelude.{◌≡◌, IfOk, All, ◌<◌, ◌≤◌, length, slice_index_or};
ghost use Rattle.bound_forms.specs.Points.{fill_edge, end_edge, end_of, edge_order, point_order, point_of, EdgesFit, PointsFit, EdgeOfKind};

use crate::Key;
use pg_values::{KeyKind, NoMemory, Value};
use std::alloc::Global;
use std::cmp::Ordering;
use std::marker::Model;
use std::rc::Rc;

/// One place of a point: MINVALUE, a value or MAXVALUE.
#[derive(Debug, Drop)]
pub enum Edge {
    Min,
    At(Value),
    Max,
}

/// What the point of a key's first values is filled up with.
#[derive(Clone, Copy, Debug, PartialEq, Eq)]
pub enum Fill {
    Min,
    Max,
}

/// A point, seen as the list of its edges, which its copies share.
#[derive(Debug, Drop)]
pub struct Point {
    edges: Rc<Vec<Edge>>,
}

impl Model for Point {
    ghost use Rattle.std.specs.Prelude.{List};
    ghost use Rattle.bound_forms.specs.declared.point.Edge.{Edge};

    ghost Value = { List Edge };

    ghost view = { λ p. p.edges.value.items };
}

impl Point {
    pub fn new(alloc: Global, edges: Vec<Edge>) -> Result<Self, NoMemory>
        ensures { IfOk result (λ p. p ≡ edges.items) }
    {
        Ok(Point {
            edges: Rc::new(alloc, edges)?,
        })
    }

    pub fn as_slice(&self) -> &[Edge]
        ensures { result.now ≡ self.now }
    {
        &self.edges
    }
}

pub(crate) fn copy_point(point: &Point) -> Result<Point, NoMemory>
    ensures { IfOk result (λ copy. copy ≡ point.now) }
{
    Ok(Point {
        edges: point.edges.clone()?,
    })
}

// The order of two edges.
fn cmp_edges<K: KeyKind>(kind: &K, a: &Edge, b: &Edge) -> Ordering
    requires fit { EdgesFit a.now b.now }
    requires of_kind { EdgeOfKind (K.admits kind.now) a.now }
    ensures { result ≡ edge_order a.now b.now }
{
    match (a, b) {
        (Edge::Min, Edge::Min) => Ordering::Equal,
        (Edge::Min, _) => Ordering::Less,
        (Edge::At(_), Edge::Min) => Ordering::Greater,
        (Edge::At(v), Edge::At(w)) => kind.compare(v, w),
        (Edge::At(_), Edge::Max) => Ordering::Less,
        (Edge::Max, Edge::Max) => Ordering::Equal,
        (Edge::Max, _) => Ordering::Greater,
    }
}

// The order of an edge and the edge of a value.
fn cmp_value<K: KeyKind>(kind: &K, edge: &Edge, value: &Value) -> Ordering
    requires fit { EdgesFit edge.now (Edge.At value.now) }
    requires of_kind { EdgeOfKind (K.admits kind.now) edge.now }
    ensures { result ≡ edge_order edge.now (Edge.At value.now) }
{
    match edge {
        Edge::Min => Ordering::Less,
        Edge::At(own) => kind.compare(own, value),
        Edge::Max => Ordering::Greater,
    }
}

// The order of an edge and MIN.
fn cmp_min(edge: &Edge) -> Ordering
    ensures { result ≡ edge_order edge.now Edge.Min }
{
    match edge {
        Edge::Min => Ordering::Equal,
        Edge::At(_) => Ordering::Greater,
        Edge::Max => Ordering::Greater,
    }
}

// The order of an edge and the edge of the key's point at a place.
fn cmp_place<K: KeyKind, Q: Key>(kind: &K, edge: &Edge, key: &Q, i: usize) -> Ordering
    requires fit { EdgesFit edge.now (slice_index_or (point_of (Q.values key.now)) i Edge.Min) }
    requires of_kind { EdgeOfKind (K.admits kind.now) edge.now }
    ensures { result ≡ edge_order edge.now (slice_index_or (point_of (Q.values key.now)) i Edge.Min) }
{
    if i < key.len() {
        cmp_value(kind, edge, key.value(i))
    } else {
        cmp_min(edge)
    }
}

/// The order of two points.
pub fn cmp_points<K: KeyKind>(kind: &K, a: &Point, b: &Point) -> Ordering
    requires fit { PointsFit a.now b.now }
    requires of_kind { All (EdgeOfKind (K.admits kind.now)) a.now }
    ensures { result ≡ point_order a.now b.now }
{
    for (i, edge) in a.as_slice().iter().enumerate() {
        let order = cmp_edges(kind, edge, &b.as_slice()[i]);
        if order != Ordering::Equal {
            return order;
        }
    }
    Ordering::Equal
}

// The order of a point and the key's point.
pub(crate) fn cmp_key<K: KeyKind, Q: Key>(kind: &K, point: &Point, key: &Q) -> Ordering
    requires fit { PointsFit point.now (point_of (Q.values key.now)) }
    requires of_kind { All (EdgeOfKind (K.admits kind.now)) point.now }
    ensures { result ≡ point_order point.now (point_of (Q.values key.now)) }
{
    for (i, edge) in point.as_slice().iter().enumerate() {
        let order = cmp_place(kind, edge, key, i);
        if order != Ordering::Equal {
            return order;
        }
    }
    Ordering::Equal
}

/// The order of an edge and MIN or MAX.
pub fn cmp_fill(edge: &Edge, fill: Fill) -> Ordering
    ensures { result ≡ edge_order edge.now (fill_edge fill) }
{
    match (edge, fill) {
        (Edge::Min, Fill::Min) => Ordering::Equal,
        (Edge::Min, Fill::Max) => Ordering::Less,
        (Edge::At(_), Fill::Min) => Ordering::Greater,
        (Edge::At(_), Fill::Max) => Ordering::Less,
        (Edge::Max, Fill::Min) => Ordering::Greater,
        (Edge::Max, Fill::Max) => Ordering::Equal,
    }
}

// The order of an edge and the edge of the filled key at a place.
fn cmp_end_place<K: KeyKind, Q: Key>(
    kind: &K,
    edge: &Edge,
    key: &Q,
    n: usize,
    fill: Fill,
    i: usize,
) -> Ordering
    requires there { n ≤ length (Q.values key.now) }
    requires fit { EdgesFit edge.now (end_edge n fill (Q.values key.now) i) }
    requires of_kind { EdgeOfKind (K.admits kind.now) edge.now }
    ensures { result ≡ edge_order edge.now (end_edge n fill (Q.values key.now) i) }
{
    if i < n {
        cmp_value(kind, edge, key.value(i))
    } else {
        cmp_fill(edge, fill)
    }
}

/// The order of a point and the point of the key's first values, filled up.
pub fn cmp_end<K: KeyKind, Q: Key>(
    kind: &K,
    point: &Point,
    key: &Q,
    n: usize,
    fill: Fill,
) -> Ordering
    requires there { n ≤ length (Q.values key.now) }
    requires fit { PointsFit point.now (end_of (length point.now) n fill (Q.values key.now)) }
    requires of_kind { All (EdgeOfKind (K.admits kind.now)) point.now }
    ensures { result ≡ point_order point.now (end_of (length point.now) n fill (Q.values key.now)) }
{
    for (i, edge) in point.as_slice().iter().enumerate() {
        let order = cmp_end_place(kind, edge, key, n, fill, i);
        if order != Ordering::Equal {
            return order;
        }
    }
    Ordering::Equal
}
