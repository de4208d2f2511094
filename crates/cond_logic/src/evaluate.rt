ghost use Rattle.std.specs.Prelude.{◌≡◌, Some, None, if◌then◌else◌};
ghost use Rattle.pg_values.specs.Order as orders;
ghost use Rattle.cond_logic.specs.Trees.{cond_tree};
ghost use Rattle.cond_logic.specs.Tuples.{or_null, value_of};
ghost use Rattle.cond_logic.specs.Truths as truths;
ghost use Rattle.cond_logic.specs.Truths.{compared, passes_by, truth};

use crate::{Binding, CompareOp, Cond, Operand, Truth3};
use pg_values::Value;
use std::cmp::Ordering;

// The order of two values; none where they cannot be compared, as with null.
fn order(a: &Value, b: &Value) -> Option<Ordering>
    ensures { result ≡ (if orders.are_comparable a.now b.now then Some (orders.order a.now b.now) else None) }
{
    match (a, b) {
        (Value::Int4(m), Value::Int4(n)) => Some(m.cmp(n)),
        (Value::Int4(m), Value::Int8(n)) => Some((*m as i64).cmp(n)),
        (Value::Int8(m), Value::Int4(n)) => Some(m.cmp(&(*n as i64))),
        (Value::Int8(m), Value::Int8(n)) => Some(m.cmp(n)),
        (Value::Text(s), Value::Text(t)) => Some(s.as_bytes().cmp(t.as_bytes())),
        (Value::Day(m), Value::Day(n)) => Some(m.cmp(n)),
        (Value::Truth(p), Value::Truth(q)) => Some(p.cmp(q)),
        _ => None,
    }
}

#[inline]
fn passes(op: CompareOp, order: Ordering) -> bool
    ensures { result ≡ passes_by op order }
{
    match op {
        CompareOp::Eq => order.is_eq(),
        CompareOp::Ne => order.is_ne(),
        CompareOp::Lt => order.is_lt(),
        CompareOp::Le => order.is_le(),
        CompareOp::Gt => order.is_gt(),
        CompareOp::Ge => order.is_ge(),
    }
}

// Two integers are compared without a look at other kinds.
#[inline]
fn compare(op: CompareOp, a: &Value, b: &Value) -> Truth3
    ensures { result ≡ compared op a.now b.now }
{
    match (a, b) {
        (Value::Int4(m), Value::Int4(n)) => Truth3::decided(passes(op, m.cmp(n))),
        _ => compare_kinds(op, a, b),
    }
}

#[inline(never)]
fn compare_kinds(op: CompareOp, a: &Value, b: &Value) -> Truth3
    ensures { result ≡ compared op a.now b.now }
{
    match order(a, b) {
        Some(order) => Truth3::decided(passes(op, order)),
        None => Truth3::Unknown,
    }
}

// The value of an operand. None stands for null.
#[inline]
fn operand<'b>(binding: &'b Binding<'_>, operand: &'b Operand) -> Option<&'b Value>
    ensures { or_null result ≡ value_of binding.now.rows binding.now.args operand.now }
{
    match operand {
        Operand::Column(column) => match binding.row(column.item) {
            Some(row) => row.as_slice().get(column.position),
            None => None,
        },
        Operand::Lit(value) => Some(value),
        Operand::Param(place) => binding.args().get(*place),
    }
}

#[inline]
fn compare_operands(binding: &Binding<'_>, op: CompareOp, x: &Operand, y: &Operand) -> Truth3
    ensures { result ≡ compared op (value_of binding.now.rows binding.now.args x.now) (value_of binding.now.rows binding.now.args y.now) }
{
    match operand(binding, x) {
        None => Truth3::Unknown,
        Some(a) => match operand(binding, y) {
            None => Truth3::Unknown,
            Some(b) => compare(op, a, b),
        },
    }
}

fn is_null(binding: &Binding<'_>, x: &Operand) -> bool
    ensures { result ≡ truths.is_null (value_of binding.now.rows binding.now.args x.now) }
{
    match operand(binding, x) {
        None => true,
        Some(value) => matches!(value, Value::Null),
    }
}

/// The truth of a condition for the rows and the arguments of a binding. A row, a column or an argument
/// that is not there counts as null. Takes no memory.
#[inline]
pub fn eval(cond: &Cond, binding: &Binding<'_>) -> Truth3
    ensures { result ≡ truth binding.now.rows binding.now.args (cond_tree cond.now) }
{
    match cond {
        Cond::Compare(op, x, y) => compare_operands(binding, *op, x, y),
        _ => eval_tree(cond, binding),
    }
}

// Goes down the tree of a condition.
fn eval_tree(cond: &Cond, binding: &Binding<'_>) -> Truth3
    ensures { result ≡ truth binding.now.rows binding.now.args (cond_tree cond.now) }
{
    match cond {
        Cond::And(list) => {
            let mut all = Truth3::Yes;
            for part in &list.conds {
                all = all.least(eval_tree(part, &*binding));
                if matches!(all, Truth3::No) {
                    return Truth3::No;
                }
            }
            all
        }
        Cond::Or(list) => {
            let mut any = Truth3::No;
            for choice in &list.conds {
                any = any.greatest(eval_tree(choice, &*binding));
                if matches!(any, Truth3::Yes) {
                    return Truth3::Yes;
                }
            }
            any
        }
        Cond::Not(inner) => eval_tree(inner, binding).opposite(),
        Cond::Compare(op, x, y) => compare_operands(binding, *op, x, y),
        Cond::IsNull(x) => Truth3::decided(is_null(binding, x)),
        Cond::Const(known) => *known,
    }
}
