ghost use Rattle.std.specs.Prelude.{◌≡◌, map, IfOk};
ghost use Rattle.pg_values.specs.Refusals.{IsAnswer};
ghost use Rattle.bound_forms.specs.Levels.{IsOfLevel};
ghost use Rattle.sql_ast.specs.Commands.{bound_tree, edge_tree, edges_of};
ghost use Rattle.sql_ast.specs.Expressions.{tree, trees, listed};
ghost use Rattle.table_binder.specs.Bounds as spec;
ghost use Rattle.table_binder.specs.Values as values_spec;

use crate::values::raw_value;
use crate::{RawBound, RawEdge, RawEdges, RawValues, check_bound};
use bound_forms::{Bound, Level};
use pg_values::{NoMemory, Refusal};
use sql_ast::{BoundText, EdgeText, Expr};
use std::alloc::Global;

fn raw_edge(alloc: Global, edge: &EdgeText) -> Result<RawEdge, NoMemory>
    ensures { IfOk result (λ raw. raw ≡ spec.raw_edge (edge_tree edge.now)) }
{
    match edge {
        EdgeText::MinValue => Ok(RawEdge::Min),
        EdgeText::MaxValue => Ok(RawEdge::Max),
        EdgeText::Value(e) => Ok(RawEdge::At(raw_value(alloc, e)?)),
    }
}

// The edges of FROM or of TO.
fn raw_edges(alloc: Global, edges: &[EdgeText]) -> Result<RawEdges, NoMemory>
    ensures { IfOk result (λ raw. raw ≡ map spec.raw_edge (edges_of edges.now)) }
{
    let mut raw = RawEdges::new(alloc);
    for edge in edges {
        raw.push(raw_edge(alloc, edge)?)?;
    }
    Ok(raw)
}

fn raw_values(alloc: Global, values: &[Expr]) -> Result<RawValues, NoMemory>
    ensures { IfOk result (λ raw. raw ≡ values_spec.raw_values (listed (map tree values.now))) }
{
    let mut raw = RawValues::new(alloc);
    for e in values {
        raw.push(raw_value(alloc, e)?)?;
    }
    Ok(raw)
}

fn raw_bound(alloc: Global, bound: &BoundText) -> Result<RawBound, NoMemory>
    ensures { IfOk result (λ raw. raw ≡ spec.raw_bound (bound_tree bound.now)) }
{
    match bound {
        BoundText::Range(from, to) => {
            let lower = raw_edges(alloc, from.as_slice())?;
            let upper = raw_edges(alloc, to.as_slice())?;
            Ok(RawBound::Range { lower, upper })
        }
        BoundText::List(list) => {
            let values = raw_values(alloc, list.as_slice())?;
            Ok(RawBound::List { values })
        }
        BoundText::Hash(modulus, remainder) => Ok(RawBound::Hash {
            modulus: *modulus,
            remainder: *remainder,
        }),
        BoundText::Default => Ok(RawBound::Default),
    }
}

/// The bound of a partition at the level, or the first fault: 42P16 for the form or the count, then the
/// first fault of a value in text order, then 42P16 for nulls, for words that are not repeated, for a
/// remainder and for a default of a hash table, then 42P17 for an empty range.
pub fn bind_bound(alloc: Global, bound: &BoundText, level: &Level) -> Result<Bound, Refusal>
    ensures answer { IsAnswer result (spec.bound_for level.now (bound_tree bound.now)) }
    ensures of_level { IfOk result (λ b. IsOfLevel level.now b) }
{
    let raw = raw_bound(alloc, bound)?;
    check_bound(alloc, level, &raw)
}
