use crate::bound_trees::{write_column, write_cond, write_literal, write_scalar};
use crate::trees::write_number;
use cond_logic::{ChangeAsk, Cond, InsertAsk, Output, SelectAsk, Setting, SortBy, SortKey};
use expression_binder::Param;
use pg_values::{NoMemory, Row};
use refusals::kind_word;
use std::alloc::Global;

/// Before every part but the first.
pub(crate) fn write_between(
    is_first: &mut bool,
    sign: &[u8],
    out: &mut Vec<u8>,
) -> Result<(), NoMemory> {
    if !*is_first {
        out.extend_from_slice(sign)?;
    }
    *is_first = false;
    Ok(())
}

fn write_output(alloc: Global, output: &Output, out: &mut Vec<u8>) -> Result<(), NoMemory> {
    out.extend_from_slice(output.name.as_bytes())?;
    out.push(b' ')?;
    out.extend_from_slice(kind_word(output.kind))?;
    out.push(b' ')?;
    write_scalar(alloc, &output.value, out)
}

fn write_conditions(alloc: Global, conditions: &[Cond], out: &mut Vec<u8>) -> Result<(), NoMemory> {
    for cond in conditions {
        out.extend_from_slice(b" if ")?;
        write_cond(alloc, cond, out)?;
    }
    Ok(())
}

fn write_key(key: SortKey, out: &mut Vec<u8>) -> Result<(), NoMemory> {
    match key.by {
        SortBy::Output(place) => write_number(place as u64, out)?,
        SortBy::Column(column) => write_column(column, out)?,
        SortBy::TableName(item) => {
            out.extend_from_slice(b"leaf(")?;
            write_number(u64::from(item), out)?;
            out.push(b')')?;
        }
    }
    if key.descending {
        out.extend_from_slice(b" desc")?;
    }
    if key.nulls_first {
        out.extend_from_slice(b" nulls first")?;
    }
    Ok(())
}

fn write_order(keys: &[SortKey], out: &mut Vec<u8>) -> Result<(), NoMemory> {
    if keys.is_empty() {
        return Ok(());
    }
    out.extend_from_slice(b" by ")?;
    let mut is_first = true;
    for key in keys {
        write_between(&mut is_first, b", ", out)?;
        write_key(*key, out)?;
    }
    Ok(())
}

fn write_count(word: &[u8], count: Option<u64>, out: &mut Vec<u8>) -> Result<(), NoMemory> {
    if let Some(n) = count {
        out.extend_from_slice(word)?;
        write_number(n, out)?;
    }
    Ok(())
}

pub(crate) fn write_select(
    alloc: Global,
    bound: &SelectAsk,
    out: &mut Vec<u8>,
) -> Result<(), NoMemory> {
    out.extend_from_slice(b"select ")?;
    let mut is_first = true;
    for output in bound.outputs.as_slice() {
        write_between(&mut is_first, b", ", out)?;
        write_output(alloc, output, out)?;
    }
    write_conditions(alloc, bound.conditions.as_slice(), out)?;
    write_order(bound.order.as_slice(), out)?;
    write_count(b" limit ", bound.limit, out)?;
    write_count(b" offset ", bound.offset, out)
}

pub(crate) fn write_row(alloc: Global, row: &Row, out: &mut Vec<u8>) -> Result<(), NoMemory> {
    out.extend_from_slice(b" (")?;
    let mut is_first = true;
    for value in row.as_slice() {
        write_between(&mut is_first, b" ", out)?;
        write_literal(alloc, value, out)?;
    }
    out.push(b')')?;
    Ok(())
}

pub(crate) fn write_insert(
    alloc: Global,
    bound: &InsertAsk,
    out: &mut Vec<u8>,
) -> Result<(), NoMemory> {
    out.extend_from_slice(b"insert [")?;
    let mut is_first = true;
    for place in bound.columns.as_slice() {
        write_between(&mut is_first, b" ", out)?;
        write_number(*place as u64, out)?;
    }
    out.push(b']')?;
    for row in bound.rows.as_slice() {
        write_row(alloc, row, out)?;
    }
    Ok(())
}

fn write_setting(alloc: Global, setting: &Setting, out: &mut Vec<u8>) -> Result<(), NoMemory> {
    write_number(setting.column as u64, out)?;
    out.extend_from_slice(b" = ")?;
    write_scalar(alloc, &setting.value, out)
}

pub(crate) fn write_change(
    alloc: Global,
    word: &[u8],
    bound: &ChangeAsk,
    out: &mut Vec<u8>,
) -> Result<(), NoMemory> {
    out.extend_from_slice(word)?;
    let mut is_first = true;
    for setting in bound.settings.as_slice() {
        out.extend_from_slice(if is_first { b" " } else { b", " })?;
        is_first = false;
        write_setting(alloc, setting, out)?;
    }
    if let Some(cond) = &bound.condition {
        out.extend_from_slice(b" if ")?;
        write_cond(alloc, cond, out)?;
    }
    Ok(())
}

pub(crate) fn write_params(
    alloc: Global,
    params: &[Param],
    out: &mut Vec<u8>,
) -> Result<(), NoMemory> {
    out.extend_from_slice(b"arguments ")?;
    let mut is_first = true;
    for param in params {
        write_between(&mut is_first, b", ", out)?;
        out.extend_from_slice(kind_word(param.kind))?;
        out.push(b' ')?;
        write_literal(alloc, &param.value, out)?;
    }
    Ok(())
}
