use crate::bound::{write_between, write_row};
use crate::bound_trees::write_literal;
use crate::trees::write_number;
use bound_forms::{Bound, Edge, Level, Point};
use history::{Column, Columns};
use pg_values::{NoMemory, Refusal, Strategy};
use refusals::kind_word;
use sql_ast::{BoundText, ColumnList, Partitioning};
use std::alloc::Global;
use table_binder::{bind_bound, bind_columns, bind_partitioning};

fn write_column(column: &Column, out: &mut Vec<u8>) -> Result<(), NoMemory> {
    out.extend_from_slice(column.name.as_bytes())?;
    out.push(b' ')?;
    out.extend_from_slice(kind_word(column.kind))?;
    if column.not_null {
        out.extend_from_slice(b" not null")?;
    }
    Ok(())
}

fn strategy_words(strategy: Strategy) -> &'static [u8] {
    match strategy {
        Strategy::Range => b" by range",
        Strategy::List => b" by list",
        Strategy::Hash => b" by hash",
    }
}

fn write_key(key: &Level, out: &mut Vec<u8>) -> Result<(), NoMemory> {
    out.extend_from_slice(strategy_words(key.strategy))?;
    for column in key.columns.as_slice() {
        out.push(b' ')?;
        write_number(column.position as u64, out)?;
    }
    Ok(())
}

fn write_columns(columns: &Columns, out: &mut Vec<u8>) -> Result<(), NoMemory> {
    out.extend_from_slice(b"table ")?;
    let mut is_first = true;
    for column in columns.as_slice() {
        write_between(&mut is_first, b", ", out)?;
        write_column(column, out)?;
    }
    Ok(())
}

/// Writes the columns of a table with their kinds, and the strategy and the columns of its key.
pub(crate) fn write_table(
    alloc: Global,
    columns: &ColumnList,
    by: &Option<Partitioning>,
    out: &mut Vec<u8>,
) -> Result<(), Refusal> {
    let columns = bind_columns(alloc, columns)?;
    match by {
        None => Ok(write_columns(&columns, out)?),
        Some(by) => {
            let key = bind_partitioning(alloc, by, columns.as_slice())?;
            write_columns(&columns, out)?;
            Ok(write_key(&key, out)?)
        }
    }
}

fn write_edge(alloc: Global, edge: &Edge, out: &mut Vec<u8>) -> Result<(), NoMemory> {
    match edge {
        Edge::Min => out.extend_from_slice(b"minvalue")?,
        Edge::At(value) => write_literal(alloc, value, out)?,
        Edge::Max => out.extend_from_slice(b"maxvalue")?,
    }
    Ok(())
}

fn write_point(alloc: Global, point: &Point, out: &mut Vec<u8>) -> Result<(), NoMemory> {
    out.extend_from_slice(b" (")?;
    let mut is_first = true;
    for edge in point.as_slice() {
        write_between(&mut is_first, b" ", out)?;
        write_edge(alloc, edge, out)?;
    }
    out.push(b')')?;
    Ok(())
}

fn write_bound(alloc: Global, bound: &Bound, out: &mut Vec<u8>) -> Result<(), NoMemory> {
    out.extend_from_slice(b"partition ")?;
    match bound {
        Bound::Range { lower, upper } => {
            out.extend_from_slice(b"from")?;
            write_point(alloc, lower, out)?;
            out.extend_from_slice(b" to")?;
            write_point(alloc, upper, out)
        }
        Bound::List { values } => {
            out.extend_from_slice(b"in")?;
            write_row(alloc, values, out)
        }
        Bound::Hash { modulus, remainder } => {
            out.extend_from_slice(b"with ")?;
            write_number(u64::from(*modulus), out)?;
            out.push(b' ')?;
            write_number(u64::from(*remainder), out)
        }
        Bound::Default => {
            out.extend_from_slice(b"default")?;
            Ok(())
        }
    }
}

/// Writes the bound of a partition of the table that is so partitioned.
pub(crate) fn write_partition(
    alloc: Global,
    columns: &ColumnList,
    by: &Partitioning,
    bound: &BoundText,
    out: &mut Vec<u8>,
) -> Result<(), Refusal> {
    let columns = bind_columns(alloc, columns)?;
    let key = bind_partitioning(alloc, by, columns.as_slice())?;
    let bound = bind_bound(alloc, bound, &key)?;
    Ok(write_bound(alloc, &bound, out)?)
}
