//! Whether a bound as it is written is one for its level, and which bound it is.
//!
//! The rules stand in an order, and the first that is broken is the fault: the form of the bound
//! and how many values it has; the values one by one as they are written; nulls in a range;
//! MINVALUE and MAXVALUE with another entry behind them; a remainder that no number leaves; a
//! default of a hash table; an empty range.

ghost use Rattle.std.specs.Prelude.{◌≡◌, ◌<◌, ◌||◌, not, [], All, IfOk, length};
ghost use Rattle.pg_values.specs.Refusals.{IsAnswer, read_in, or_first, unless};
ghost use Rattle.pg_values.specs.KeyKinds.{IsNotNull};
ghost use Rattle.refusals.specs.Refusals as refusals;
ghost use Rattle.bound_forms.specs.declared.partition_bound.Bound.TheVariants.{Range, List as Listed, Hash};
ghost use Rattle.bound_forms.specs.Points.{EdgeOfKind, PointsFit};
ghost use Rattle.bound_forms.specs.Bounds.{is_below};
ghost use Rattle.table_binder.specs.RawBounds.{values_for, each_once, point_for};
ghost use Rattle.bound_forms.specs.Levels.{only_kind, IsOfLevel};
ghost use Rattle.table_binder.specs.Checks as checks;
ghost use Rattle.table_binder.specs.Checks.{count_faults, has_null_edge, repeat_faults, word_faults, range_faults, list_faults, is_remainder, checked};

use crate::raw_value::{read_list, read_point};
use crate::{RawBound, RawEdge, RawValue};
use bound_forms::{Bound, KeyColumn, Level, MOST_MODULUS, Point, cmp_points, is_null};
use pg_values::{Refusal, Strategy, ValueKey};
use refusals::{
    bad_remainder, bound_does_not_suit, empty_range, no_hash_default, not_repeated, null_in_range,
    wrong_bound_count,
};
use std::alloc::Global;

// So many values are given where so many are wanted.
fn check_count(alloc: Global, given: usize, wanted: usize) -> Result<(), Refusal>
    ensures { IsAnswer result (or_first (count_faults given wanted) tt) }
{
    if given == wanted {
        Ok(())
    } else {
        Err(Refusal::Sql(wrong_bound_count(alloc, given as u64, wanted as u64)?))
    }
}

fn is_null_value(value: &RawValue) -> bool
    ensures { result ≡ checks.is_null_value value.now }
{
    match value {
        RawValue::Given(value) => is_null(value),
        RawValue::Literal(_) => false,
        RawValue::Faulty(_) => false,
    }
}

fn is_null_edge(edge: &RawEdge) -> bool
    ensures { result ≡ checks.is_null_edge edge.now }
{
    match edge {
        RawEdge::At(value) => is_null_value(value),
        RawEdge::Min => false,
        RawEdge::Max => false,
    }
}

fn has_null_edge(edges: &[RawEdge]) -> bool
    ensures { result ≡ checks.has_null_edge edges.now }
{
    edges.iter().any(|edge| is_null_edge(edge))
}

// No entry of FROM or TO is null.
fn check_nulls(alloc: Global, lower: &[RawEdge], upper: &[RawEdge]) -> Result<(), Refusal>
    ensures { IsAnswer result (or_first (unless (not (has_null_edge lower.now || has_null_edge upper.now)) refusals.null_in_range) tt) }
{
    if has_null_edge(lower) || has_null_edge(upper) {
        Err(Refusal::Sql(null_in_range(alloc)?))
    } else {
        Ok(())
    }
}

fn is_min(edge: &RawEdge) -> bool
    ensures { result ≡ checks.is_min edge.now }
{
    matches!(edge, RawEdge::Min)
}

fn is_max(edge: &RawEdge) -> bool
    ensures { result ≡ checks.is_max edge.now }
{
    matches!(edge, RawEdge::Max)
}

// The word, unless it is repeated.
fn check_repeat(alloc: Global, repeated: bool, word: &[u8]) -> Result<(), Refusal>
    ensures { IsAnswer result (or_first (unless repeated (refusals.not_repeated word.now)) tt) }
{
    if repeated {
        Ok(())
    } else {
        Err(Refusal::Sql(not_repeated(alloc, word)?))
    }
}

// What may stand behind the entry.
fn check_next(alloc: Global, edge: &RawEdge, next: &RawEdge) -> Result<(), Refusal>
    ensures { IsAnswer result (or_first (repeat_faults edge.now next.now) tt) }
{
    match edge {
        RawEdge::Min => check_repeat(alloc, is_min(next), b"MINVALUE"),
        RawEdge::At(_) => Ok(()),
        RawEdge::Max => check_repeat(alloc, is_max(next), b"MAXVALUE"),
    }
}

// MINVALUE and MAXVALUE are repeated to the end.
fn check_words(alloc: Global, edges: &[RawEdge]) -> Result<(), Refusal>
    ensures { IsAnswer result (or_first (word_faults edges.now) tt) }
{
    for i in 1..edges.len() {
        check_next(alloc, &edges[i - 1], &edges[i])?;
    }
    Ok(())
}

// The lower point lies below the upper one.
fn check_filled(alloc: Global, lower: &Point, upper: &Point) -> Result<(), Refusal>
    requires fit { PointsFit lower.now upper.now }
    requires of_kind { All (EdgeOfKind IsNotNull) lower.now }
    ensures { IsAnswer result (or_first (unless (is_below lower.now upper.now) refusals.empty_range) tt) }
{
    if cmp_points(&ValueKey, lower, upper).is_lt() {
        Ok(())
    } else {
        Err(Refusal::Sql(empty_range(alloc)?))
    }
}

fn check_range(
    alloc: Global,
    columns: &[KeyColumn],
    lower: &[RawEdge],
    upper: &[RawEdge],
) -> Result<Bound, Refusal>
    ensures { IsAnswer result (or_first (range_faults columns.now lower.now upper.now) (Range (point_for columns.now lower.now) (point_for columns.now upper.now))) }
{
    check_count(alloc, lower.len(), columns.len())?;
    check_count(alloc, upper.len(), columns.len())?;
    let from = read_point(alloc, columns, lower)?;
    let to = read_point(alloc, columns, upper)?;
    check_nulls(alloc, lower, upper)?;
    check_words(alloc, lower)?;
    check_words(alloc, upper)?;
    check_filled(alloc, &from, &to)?;
    Ok(Bound::Range {
        lower: from,
        upper: to,
    })
}

fn check_list(alloc: Global, columns: &[KeyColumn], values: &[RawValue]) -> Result<Bound, Refusal>
    requires { 0 < length columns.now }
    ensures { IsAnswer result (or_first (list_faults columns.now values.now) (Listed (each_once (read_in (values_for (only_kind columns.now) values.now))))) }
{
    if values.is_empty() {
        return Err(Refusal::Sql(wrong_bound_count(alloc, 0, 1)?));
    }
    let values = read_list(alloc, columns[0].kind, values)?;
    Ok(Bound::List { values })
}

fn check_remainder(alloc: Global, modulus: u64, remainder: u64) -> Result<Bound, Refusal>
    ensures { IsAnswer result (or_first (unless (is_remainder modulus remainder) refusals.bad_remainder) (Hash modulus remainder)) }
{
    if modulus <= MOST_MODULUS as u64 && remainder < modulus {
        Ok(Bound::Hash {
            modulus: modulus as u32,
            remainder: remainder as u32,
        })
    } else {
        Err(Refusal::Sql(bad_remainder(alloc)?))
    }
}

// A level by hash has no default.
fn check_default(alloc: Global, strategy: Strategy) -> Result<Bound, Refusal>
    ensures { IsAnswer result (checked strategy [] RawBound.Default) }
{
    match strategy {
        Strategy::Range => Ok(Bound::Default),
        Strategy::List => Ok(Bound::Default),
        Strategy::Hash => Err(Refusal::Sql(no_hash_default(alloc)?)),
    }
}

fn strategy_word(strategy: Strategy) -> &'static [u8]
    ensures { result.now ≡ checks.strategy_word strategy }
{
    match strategy {
        Strategy::Range => b"RANGE",
        Strategy::List => b"LIST",
        Strategy::Hash => b"HASH",
    }
}

fn check_at(alloc: Global, level: &Level, raw: &RawBound) -> Result<Bound, Refusal>
    ensures { IsAnswer result (checked level.now.strategy level.now.columns raw.now) }
{
    let columns = level.columns.as_slice();
    match (level.strategy, raw) {
        (Strategy::Range, RawBound::Range { lower, upper }) => {
            check_range(alloc, columns, lower.as_slice(), upper.as_slice())
        }
        (Strategy::List, RawBound::List { values }) => {
            check_list(alloc, columns, values.as_slice())
        }
        (Strategy::Hash, RawBound::Hash { modulus, remainder }) => {
            check_remainder(alloc, *modulus, *remainder)
        }
        (strategy, RawBound::Default) => check_default(alloc, strategy),
        (strategy, _) => Err(Refusal::Sql(bound_does_not_suit(alloc, strategy_word(strategy))?)),
    }
}

/// The bound that is meant by what is written, or the first rule that it breaks. Its values are of
/// the kinds of the key columns; a value that a list has twice is kept at its first place.
pub fn check_bound(alloc: Global, level: &Level, raw: &RawBound) -> Result<Bound, Refusal>
    ensures answer { IsAnswer result (checked level.now.strategy level.now.columns raw.now) }
    ensures of_level { IfOk result (λ b. IsOfLevel level.now b) }
{
    check_at(alloc, level, raw)
}
