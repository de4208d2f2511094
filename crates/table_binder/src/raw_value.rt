//! What the expressions of a bound give their key columns.

ghost use Rattle.std.specs.Prelude.{◌≡◌, ◌∷◌, ◌++◌, [], IfOk, OnOk, length, if◌then◌else◌};
ghost use Rattle.value_rules.specs.Assignment.{assigned};
ghost use Rattle.pg_values.specs.Kinds as kinds;
ghost use Rattle.pg_values.specs.Refusals.{IsAnswer, faults_in, read_in, or_first};
ghost use Rattle.bound_forms.specs.declared.point.Edge.TheVariants.{Min};
ghost use Rattle.bound_forms.specs.Listed.{lists};
ghost use Rattle.table_binder.specs.RawBounds.{given_to, value_for, edge_for, edges_for, values_for, each_once};
ghost use Rattle.table_binder.specs.ListedValues.{values_in};

use crate::listed_value::ListedValue;
use crate::{RawEdge, RawValue};
use bound_forms::{Edge, KeyColumn, Point};
use indexmap::IndexSet;
use pg_values::{Args, Fault, Kind, NoMemory, Refusal, Row, Value, copy_value, kind_of};
use refusals::{out_of_range, wrong_kind};
use std::alloc::Global;
use value_rules::{CoerceFault, coerce, read_value};

// A fault equal to `fault`.
fn copy_fault(alloc: Global, fault: &Fault) -> Result<Fault, NoMemory>
    ensures { IfOk result (λ copy. copy ≡ fault.now) }
{
    let mut args = Args::new(alloc);
    for text in fault.args.as_slice() {
        args.push(text.copy(alloc)?)?;
    }
    Ok(Fault {
        code: fault.code,
        args,
    })
}

// What assigning the value to a column of the kind gives.
fn assign(alloc: Global, kind: Kind, value: &Value) -> Result<Value, Refusal>
    ensures { IsAnswer result (given_to (kinds.kind_of value.now) kind (assigned value.now kind)) }
{
    match coerce(copy_value(alloc, value)?, kind) {
        Ok(value) => Ok(value),
        Err((_, CoerceFault::Kinds)) => {
            Err(Refusal::Sql(wrong_kind(alloc, kind_of(value), kind)?))
        }
        Err((_, CoerceFault::Range)) => Err(Refusal::Sql(out_of_range(alloc))),
    }
}

// What the expression gives a column of the kind.
fn read_raw(alloc: Global, kind: Kind, raw: &RawValue) -> Result<Value, Refusal>
    ensures { IsAnswer result (value_for kind raw.now) }
{
    match raw {
        RawValue::Literal(text) => read_value(alloc, kind, text.as_bytes()),
        RawValue::Given(value) => assign(alloc, kind, value),
        RawValue::Faulty(fault) => Err(Refusal::Sql(copy_fault(alloc, fault)?)),
    }
}

// What the entry of FROM or TO gives a column of the kind.
fn read_edge(alloc: Global, kind: Kind, raw: &RawEdge) -> Result<Edge, Refusal>
    ensures { IsAnswer result (edge_for kind raw.now) }
{
    match raw {
        RawEdge::Min => Ok(Edge::Min),
        RawEdge::At(value) => Ok(Edge::At(read_raw(alloc, kind, value)?)),
        RawEdge::Max => Ok(Edge::Max),
    }
}

fn add_edge(edges: &mut Vec<Edge>, edge: Edge) -> Result<(), NoMemory>
    ensures { OnOk result (edges.new.items ≡ edges.old.items ++ edge ∷ []) }
{
    edges.push(edge)?;
    Ok(())
}

/// The point of FROM or TO, filled up with MIN.
pub(crate) fn read_point(
    alloc: Global,
    columns: &[KeyColumn],
    edges: &[RawEdge],
) -> Result<Point, Refusal>
    requires { length edges.now ≡ length columns.now }
    ensures { IsAnswer result (or_first (faults_in (edges_for columns.now edges.now)) (read_in (edges_for columns.now edges.now) ++ Min ∷ [])) }
{
    let mut point = Vec::new(alloc);
    for (i, edge) in edges.iter().enumerate() {
        add_edge(&mut point, read_edge(alloc, columns[i].kind, edge)?)?;
    }
    add_edge(&mut point, Edge::Min)?;
    Ok(Point::new(alloc, point)?)
}

// Adds the value, unless it is there already.
fn add_once(once: &mut IndexSet<ListedValue>, value: Value) -> Result<(), NoMemory>
    ensures { OnOk result (values_in once.new.keys ≡ (if lists (values_in once.old.keys) value then values_in once.old.keys else values_in once.old.keys ++ value ∷ [])) }
{
    let _is_new = once.insert(ListedValue { value })?;
    Ok(())
}

fn values_of(alloc: Global, keys: &[ListedValue]) -> Result<Row, NoMemory>
    ensures { IfOk result (λ values. values ≡ values_in keys.now) }
{
    let mut values = Row::new(alloc);
    for key in keys {
        values.push(copy_value(alloc, &key.value)?)?;
    }
    Ok(values)
}

/// The values of a list, each once at its first place, for a column of the kind.
pub(crate) fn read_list(alloc: Global, kind: Kind, raw: &[RawValue]) -> Result<Row, Refusal>
    ensures { IsAnswer result (or_first (faults_in (values_for kind raw.now)) (each_once (read_in (values_for kind raw.now)))) }
{
    let mut once = IndexSet::new(alloc);
    for value in raw {
        add_once(&mut once, read_raw(alloc, kind, value)?)?;
    }
    Ok(values_of(alloc, once.as_slice())?)
}
