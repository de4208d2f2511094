//! What the atoms of a condition say of the key columns, beside what is known.

ghost use Rattle.std.specs.Prelude.{◌≡◌, None, if◌then◌else◌, map};
ghost use Rattle.pg_values.specs.declared.value.Value.TheVariants.{Null as NullValue};
ghost use Rattle.cond_logic.specs.Trees.{cond_tree, listed};
ghost use Rattle.cond_logic.specs.Tuples.{lent, value_in};
ghost use Rattle.prune_steps.specs.Atoms as spec;
ghost use Rattle.prune_steps.specs.Asking.{asked_by, operand_known, known_in, all_known_in, reading_of, if_given};

use crate::asking::{Asking, Read};
use crate::atoms::{is_null, place_of, suits, turned};
use bound_forms::Level;
use cond_logic::{CompareOp, Cond, Operand};
use pg_values::{Row, Value};

// The value of a row that is lent, null where it is not there.
fn value_at<'c>(null: &'c Value, row: Option<&'c Row>, position: usize) -> &'c Value
    requires { null.now ≡ NullValue }
    ensures { result.now ≡ value_in (lent row.entry) position }
{
    match row {
        Some(row) => match row.as_slice().get(position) {
            Some(value) => value,
            None => null,
        },
        None => null,
    }
}

// The value of an operand, where it is known.
fn literal<'c>(asking: &'c Asking<'c>, operand: &'c Operand) -> Option<&'c Value>
    ensures { lent result ≡ spec.literal (operand_known asking.now operand.now) }
{
    match operand {
        Operand::Column(column) => {
            if column.item < asking.before {
                let row = asking.binding.row(column.item);
                Some(value_at(asking.null, row, column.position))
            } else {
                None
            }
        }
        Operand::Lit(value) => Some(value),
        Operand::Param(place) => asking.binding.args().get(*place),
    }
}

// The key column that an operand is.
pub(crate) fn known_key_of(asking: &Asking<'_>, operand: &Operand) -> Option<usize>
    ensures { result ≡ spec.key_of (asked_by asking.now) (operand_known asking.now operand.now) }
{
    match operand {
        Operand::Column(column) => {
            if column.item < asking.before {
                return None;
            }
            if column.item == asking.item {
                place_of(asking.level, column.position)
            } else {
                None
            }
        }
        Operand::Lit(_) => None,
        Operand::Param(_) => None,
    }
}

// A key column beside a known value.
fn on_key<'c>(
    level: &Level,
    op: CompareOp,
    key: Option<usize>,
    value: Option<&'c Value>,
) -> Read<'c>
    ensures { reading_of result ≡ spec.on_key level.now.columns op key (lent value.entry) }
{
    match key {
        None => Read::Anything,
        Some(j) => match value {
            None => Read::Anything,
            Some(value) => {
                if suits(level, j, value) {
                    Read::On(j, op, value)
                } else {
                    Read::Anything
                }
            }
        },
    }
}

/// A comparison read with the column on the left.
pub(crate) fn read_known<'c>(
    asking: &'c Asking<'c>,
    op: CompareOp,
    x: &'c Operand,
    y: &'c Operand,
) -> Read<'c>
    ensures { reading_of result ≡ spec.reading (asked_by asking.now) op (operand_known asking.now x.now) (operand_known asking.now y.now) }
{
    if is_null(literal(asking, x)) || is_null(literal(asking, y)) {
        return Read::Never;
    }
    match on_key(
        asking.level,
        op,
        known_key_of(asking, x),
        literal(asking, y),
    ) {
        Read::Anything => {
            on_key(
                asking.level,
                turned(op),
                known_key_of(asking, y),
                literal(asking, x),
            )
        }
        found => found,
    }
}

fn equal_on<'c>(reading: Read<'c>, j: usize) -> Option<&'c Value>
    ensures { lent result ≡ spec.equal_on (reading_of reading.entry) j }
{
    match reading {
        Read::On(i, CompareOp::Eq, value) => { if i == j { Some(value) } else { None } }
        _ => None,
    }
}

fn null_on<'c>(null: &'c Value, nulls: bool, key: Option<usize>, j: usize) -> Option<&'c Value>
    requires { null.now ≡ NullValue }
    ensures { lent result ≡ if nulls then spec.null_on key j else None }
{
    if !nulls {
        return None;
    }
    match key {
        Some(i) => { if i == j { Some(null) } else { None } }
        None => None,
    }
}

/// The value of the first equality on a key column in a flattened AND; with `nulls` IS NULL is one.
#[cycle(lending)]
pub(crate) fn known_given<'c>(
    asking: &'c Asking<'c>,
    nulls: bool,
    cond: &'c Cond,
    j: usize,
) -> Option<&'c Value>
    ensures { lent result ≡ spec.given (asked_by asking.now) nulls (known_in asking.now (cond_tree cond.now)) j }
{
    match cond {
        Cond::And(list) => first_known(asking, nulls, list.as_slice(), j),
        Cond::Or(list) => {
            let choices = list.as_slice();
            if choices.len() == 1 {
                first_known(asking, nulls, choices, j)
            } else {
                None
            }
        }
        Cond::Not(_) => None,
        Cond::Compare(op, x, y) => equal_on(read_known(asking, *op, x, y), j),
        Cond::IsNull(x) => null_on(asking.null, nulls, known_key_of(asking, x), j),
        Cond::Const(_) => None,
    }
}

#[cycle(lending)]
fn first_known<'c>(
    asking: &'c Asking<'c>,
    nulls: bool,
    parts: &'c [Cond],
    j: usize,
) -> Option<&'c Value>
    ensures { lent result ≡ spec.first_given (asked_by asking.now) nulls (all_known_in asking.now (listed (map cond_tree parts.now))) j }
{
    for part in parts {
        if let Some(value) = known_given(asking, nulls, part, j) {
            return Some(value);
        }
    }
    None
}

/// Whether a flattened AND gives each of the first key columns a value.
pub(crate) fn gives_first<'c>(asking: &'c Asking<'c>, nulls: bool, root: &'c Cond, n: usize) -> bool
    ensures { spec.values_before (spec.given (asked_by asking.now) nulls (known_in asking.now (cond_tree root.now))) n ≡ if_given result (spec.given (asked_by asking.now) nulls (known_in asking.now (cond_tree root.now))) n }
{
    for i in 0..n {
        match known_given(asking, nulls, root, i) {
            Some(_) => {}
            None => return false,
        }
    }
    true
}
