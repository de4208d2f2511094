ghost use Rattle.std.specs.Prelude.{◌≡◌, ◌≤◌, IfOk, OnOk, length, slice_index_or, take, true};
ghost use Rattle.std.specs.List.Sorted.{IsSortedBy, IsStableBy};
ghost use Rattle.pg_values.specs.declared.value.Value.TheVariants.{Null};
ghost use Rattle.cond_logic.specs.Truths as truths;
ghost use Rattle.select_answer.specs.Keys as keys;
ghost use Rattle.select_answer.specs.Keys.{before_all, directed, keys_order, null_rank, row_less, value_order};
ghost use Rattle.part_bounds.specs.Sorted.{sorted};

use crate::{KeyedRow, RowKeys};
use cond_logic::SortKey;
use pg_values::{NoMemory, Row, Value, cmp_any};
use std::alloc::Global;
use std::cmp::Ordering;

#[inline]
fn is_null(value: &Value) -> bool
    ensures { result ≡ truths.is_null value.now }
{
    matches!(value, Value::Null)
}

#[inline]
fn rank_of_null(nulls_first: bool, value: &Value) -> u32
    ensures { result ≡ null_rank nulls_first value.now }
{
    if is_null(value) {
        if nulls_first { 0 } else { 2 }
    } else {
        1
    }
}

#[inline]
fn cmp_directed(descending: bool, a: &Value, b: &Value) -> Ordering
    ensures { result ≡ directed descending a.now b.now }
{
    if descending {
        cmp_any(b, a)
    } else {
        cmp_any(a, b)
    }
}

// The order of two values of a key, whatever they are.
#[inline(never)]
fn cmp_any_key(key: &SortKey, a: &Value, b: &Value) -> Ordering
    ensures { result ≡ value_order key.now a.now b.now }
{
    rank_of_null(key.nulls_first, a)
        .cmp(&rank_of_null(key.nulls_first, b))
        .then(cmp_directed(key.descending, a, b))
}

// The order of two values of a key. Two integers are compared without a look at nulls and kinds.
#[inline]
fn cmp_key(key: &SortKey, a: &Value, b: &Value) -> Ordering
    ensures { result ≡ value_order key.now a.now b.now }
{
    match (a, b) {
        (Value::Int4(m), Value::Int4(n)) => { if key.descending { n.cmp(m) } else { m.cmp(n) } }
        _ => cmp_any_key(key, a, b),
    }
}

/// The value at a place, or the null that is passed.
#[inline]
pub(crate) fn value_at<'a>(row: &'a Row, place: usize, none: &'a Value) -> &'a Value
    requires { none.now ≡ Null }
    ensures { result.now ≡ slice_index_or row.now place Null }
{
    match row.as_slice().get(place) {
        Some(value) => value,
        None => none,
    }
}

// The order of two rows by the values of one key.
#[inline]
fn cmp_at(key: &SortKey, place: usize, a: &RowKeys, b: &RowKeys) -> Ordering
    ensures { result ≡ value_order key.now (slice_index_or a.now place Null) (slice_index_or b.now place Null) }
{
    let none = Value::Null;
    cmp_key(key, a.value_at(place, &none), b.value_at(place, &none))
}

// The order of two rows by the values of all keys, one after the other.
#[inline(never)]
fn cmp_each(order: &[SortKey], a: &RowKeys, b: &RowKeys) -> Ordering
    ensures { result ≡ keys_order 0 order.now a.now b.now }
{
    for (place, key) in order.iter().enumerate() {
        let found = cmp_at(key, place, a, b);
        if found != Ordering::Equal {
            return found;
        }
    }
    Ordering::Equal
}

// The order of two rows by the values of all keys. Where there is one, as most often, it is asked without a walk.
#[inline]
fn cmp_keys(order: &[SortKey], a: &RowKeys, b: &RowKeys) -> Ordering
    ensures { result ≡ keys_order 0 order.now a.now b.now }
{
    if order.len() == 1 {
        if let (Some(own), Some(other)) = (a.only(), b.only()) {
            return cmp_key(&order[0], own, other);
        }
    }
    cmp_each(order, a, b)
}

// Sorts the rows by the keys; rows that tie stay in order.
fn sort_rows(alloc: Global, order: &[SortKey], rows: &mut [KeyedRow]) -> Result<(), NoMemory>
    ensures sorted { OnOk result (IsSortedBy (row_less order.now) rows.new) }
    ensures stable { OnOk result (IsStableBy (row_less order.now) rows.old rows.new) }
{
    rows.sort_by(alloc, |a, b| cmp_keys(order, &a.keys, &b.keys))?;
    Ok(())
}

// ---- parts

// Whether the first of the rows does not go before the row.
fn goes_before(order: &[SortKey], row: &KeyedRow, behind: &[KeyedRow]) -> bool
    ensures { result ≡ before_all order.now row.now behind.now }
{
    match behind.split_first() {
        None => true,
        Some((first, _)) => !matches!(cmp_keys(order, &first.keys, &row.keys), Ordering::Less),
    }
}

fn stands_right(order: &[SortKey], before: &[KeyedRow], behind: &[KeyedRow]) -> bool
    ensures { result ≡ keys.stands_right order.now before.now behind.now }
{
    match before.split_last() {
        None => true,
        Some((last, _)) => goes_before(order, last, behind),
    }
}

// Sorts the rows from the one place to the other; tells whether all up to there stand in order then.
fn sort_part(
    alloc: Global,
    order: &[SortKey],
    start: usize,
    end: usize,
    in_order: bool,
    rows: &mut [KeyedRow],
) -> Result<bool, NoMemory>
    requires rise { start ≤ end }
    requires within { end ≤ length rows.old }
    ensures sorted { IfOk result (λ right. right ≡ true → (in_order ≡ true → IsSortedBy (row_less order.now) (take start rows.old)) → IsSortedBy (row_less order.now) (take end rows.new)) }
    ensures stable { OnOk result (IsStableBy (row_less order.now) rows.old rows.new) }
{
    sort_rows(alloc, order, &mut rows[start..end])?;
    if !in_order {
        return Ok(false);
    }
    if start == end {
        return Ok(true);
    }
    let (before, behind) = rows.split_at(start);
    Ok(stands_right(order, before, behind))
}

/// Sorts the rows, of which each part ends at one of these places. The parts are sorted one by one: as they follow on one
/// another that is all, and where one does not, all rows are sorted. Rows that tie stay in order, and so do all without ORDER BY.
pub(crate) fn sort_parts(
    alloc: Global,
    order: &[SortKey],
    ends: &[usize],
    rows: &mut [KeyedRow],
) -> Result<(), NoMemory>
    ensures { OnOk result (rows.new ≡ sorted (row_less order.now) rows.old) }
{
    if order.is_empty() {
        return Ok(());
    }
    let mut start: usize = 0;
    let mut in_order = true;
    for place in ends {
        let end = (*place).min(rows.len()).max(start);
        in_order = sort_part(alloc, order, start, end, in_order, rows)?;
        start = end;
    }
    in_order = sort_part(alloc, order, start, rows.len(), in_order, rows)?;
    if in_order {
        return Ok(());
    }
    sort_rows(alloc, order, rows)?;
    Ok(())
}
