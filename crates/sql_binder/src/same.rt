ghost use Rattle.std.specs.Prelude.{◌≡◌};
ghost use Rattle.sql_ast.specs.Expressions.{tree, trees};
ghost use Rattle.expression_binder.specs.Lent.{option_now};
ghost use Rattle.sql_binder.specs.Same as spec;

use cond_logic::ColumnId;
use expression_binder::{Lookup, ScopeItem, item_called, look_up, look_up_in};
use sql_ast::{Expr, ExprList, Leaf, Operator};

// ---- leaves

fn is_number(n: u64, leaf: &Leaf) -> bool
    ensures { result ≡ spec.is_number n leaf.now }
{
    match leaf {
        Leaf::Number(m) => n == *m,
        _ => false,
    }
}

fn is_text(text: &[u8], leaf: &Leaf) -> bool
    ensures { result ≡ spec.is_text text.now leaf.now }
{
    match leaf {
        Leaf::Text(other) => text == other.as_bytes(),
        _ => false,
    }
}

fn is_date(text: &[u8], leaf: &Leaf) -> bool
    ensures { result ≡ spec.is_date text.now leaf.now }
{
    match leaf {
        Leaf::Date(other) => text == other.as_bytes(),
        _ => false,
    }
}

fn is_nothing(leaf: &Leaf) -> bool
    ensures { result ≡ spec.is_nothing leaf.now }
{
    match leaf {
        Leaf::Null => true,
        _ => false,
    }
}

fn same_truth(one: bool, other: bool) -> bool
    ensures { result ≡ spec.same_truth one other }
{
    if one { other } else { !other }
}

fn is_truth(truth: bool, leaf: &Leaf) -> bool
    ensures { result ≡ spec.is_truth truth leaf.now }
{
    match leaf {
        Leaf::Truth(other) => same_truth(truth, *other),
        _ => false,
    }
}

fn is_parameter(n: u64, leaf: &Leaf) -> bool
    ensures { result ≡ spec.is_parameter n leaf.now }
{
    match leaf {
        Leaf::Parameter(m) => n == *m,
        _ => false,
    }
}

fn same_id(one: ColumnId, other: ColumnId) -> bool
    ensures { result ≡ spec.same_id one other }
{
    one.item == other.item && one.position == other.position
}

fn same_column(one: Lookup, other: Lookup) -> bool
    ensures { result ≡ spec.same_column one other }
{
    match one {
        Lookup::One(hit) => match other {
            Lookup::One(found) => same_id(hit.column, found.column),
            Lookup::Missing | Lookup::Several => false,
        },
        Lookup::Missing | Lookup::Several => false,
    }
}

// The column that a leaf names.
fn column_of(items: &[ScopeItem], leaf: &Leaf) -> Lookup
    ensures { result ≡ spec.column_of items.now leaf.now }
{
    match leaf {
        Leaf::Column(name) => look_up(items, name.as_bytes()),
        Leaf::ColumnOf(table, name) => look_up_in(items, table.as_bytes(), name.as_bytes()),
        _ => Lookup::Missing,
    }
}

fn number_of(item: Option<&ScopeItem>) -> Option<u32>
    ensures { result ≡ spec.number_of (option_now item.entry) }
{
    match item {
        None => None,
        Some(item) => Some(item.number()),
    }
}

fn row_table(items: &[ScopeItem]) -> Option<u32>
    ensures { result ≡ spec.row_table items.now }
{
    match items.first() {
        None => None,
        Some(item) => Some(item.number()),
    }
}

// The item whose tables a leaf names.
fn table_of(items: &[ScopeItem], leaf: &Leaf) -> Option<u32>
    ensures { result ≡ spec.table_of items.now leaf.now }
{
    match leaf {
        Leaf::TableName => row_table(items),
        Leaf::TableNameOf(table) => number_of(item_called(items, table.as_bytes())),
        _ => None,
    }
}

fn same_table(one: Option<u32>, other: Option<u32>) -> bool
    ensures { result ≡ spec.same_table one other }
{
    match one {
        None => false,
        Some(n) => match other {
            None => false,
            Some(m) => n == m,
        },
    }
}

fn same_leaf(items: &[ScopeItem], one: &Leaf, other: &Leaf) -> bool
    ensures { result ≡ spec.same_leaf items.now one.now other.now }
{
    match one {
        Leaf::Number(n) => is_number(*n, other),
        Leaf::Text(text) => is_text(text.as_bytes(), other),
        Leaf::Date(text) => is_date(text.as_bytes(), other),
        Leaf::Null => is_nothing(other),
        Leaf::Truth(truth) => is_truth(*truth, other),
        Leaf::Parameter(n) => is_parameter(*n, other),
        Leaf::Column(name) => {
            same_column(look_up(items, name.as_bytes()), column_of(items, other))
        }
        Leaf::ColumnOf(table, name) => {
            let column = look_up_in(items, table.as_bytes(), name.as_bytes());
            same_column(column, column_of(items, other))
        }
        Leaf::TableName => same_table(row_table(items), table_of(items, other)),
        Leaf::TableNameOf(table) => {
            let number = number_of(item_called(items, table.as_bytes()));
            same_table(number, table_of(items, other))
        }
    }
}

// ---- expressions

fn same_operator(one: Operator, other: Operator) -> bool
    ensures { result ≡ spec.same_operator one other }
{
    match (one, other) {
        (Operator::Add, Operator::Add) => true,
        (Operator::Subtract, Operator::Subtract) => true,
        (Operator::Multiply, Operator::Multiply) => true,
        (Operator::Divide, Operator::Divide) => true,
        (Operator::Remainder, Operator::Remainder) => true,
        _ => false,
    }
}

fn is_leaf(items: &[ScopeItem], leaf: &Leaf, other: &Expr) -> bool
    ensures { result ≡ spec.is_leaf items.now leaf.now (tree other.now) }
{
    match other {
        Expr::Leaf(found) => same_leaf(items, leaf, found),
        Expr::Call(_, _) => false,
        Expr::CallOfAll(_) => false,
        Expr::Negated(_) => false,
        Expr::Binary(_, _, _) => false,
        Expr::In(_, _, _) => false,
        Expr::Between(_, _, _, _) => false,
        Expr::IsNull(_, _) => false,
        Expr::Not(_) => false,
        Expr::And(_) => false,
        Expr::Or(_) => false,
    }
}

fn is_bare(list: &ExprList) -> bool
    ensures { result ≡ spec.is_bare (trees list.now) }
{
    match list.as_slice() {
        [] => true,
        [_, ..] => false,
    }
}

fn is_call(function: &[u8], list: &ExprList, other: &Expr) -> bool
    ensures { result ≡ spec.is_call function.now (trees list.now) (tree other.now) }
{
    match other {
        Expr::Leaf(_) => false,
        Expr::Call(name, found) => function == name.as_bytes() && is_bare(list) && is_bare(found),
        Expr::CallOfAll(_) => false,
        Expr::Negated(_) => false,
        Expr::Binary(_, _, _) => false,
        Expr::In(_, _, _) => false,
        Expr::Between(_, _, _, _) => false,
        Expr::IsNull(_, _) => false,
        Expr::Not(_) => false,
        Expr::And(_) => false,
        Expr::Or(_) => false,
    }
}

#[cycle(same)]
fn is_negated(items: &[ScopeItem], part: &Expr, other: &Expr) -> bool
    ensures { result ≡ spec.is_negated (spec.same items.now (tree part.now)) (tree other.now) }
{
    match other {
        Expr::Leaf(_) => false,
        Expr::Call(_, _) => false,
        Expr::CallOfAll(_) => false,
        Expr::Negated(found) => same(items, part, found),
        Expr::Binary(_, _, _) => false,
        Expr::In(_, _, _) => false,
        Expr::Between(_, _, _, _) => false,
        Expr::IsNull(_, _) => false,
        Expr::Not(_) => false,
        Expr::And(_) => false,
        Expr::Or(_) => false,
    }
}

#[cycle(same)]
fn is_binary(
    items: &[ScopeItem],
    operator: Operator,
    left: &Expr,
    right: &Expr,
    other: &Expr,
) -> bool
    ensures { result ≡ spec.is_binary operator (spec.same items.now (tree left.now)) (spec.same items.now (tree right.now)) (tree other.now) }
{
    match other {
        Expr::Leaf(_) => false,
        Expr::Call(_, _) => false,
        Expr::CallOfAll(_) => false,
        Expr::Negated(_) => false,
        Expr::Binary(found, x, y) => {
            same_operator(operator, *found) && same(items, left, x) && same(items, right, y)
        }
        Expr::In(_, _, _) => false,
        Expr::Between(_, _, _, _) => false,
        Expr::IsNull(_, _) => false,
        Expr::Not(_) => false,
        Expr::And(_) => false,
        Expr::Or(_) => false,
    }
}

/// Whether two expressions of a select list are the same one.
#[cycle(same)]
pub(crate) fn same(items: &[ScopeItem], e: &Expr, other: &Expr) -> bool
    ensures { result ≡ spec.same items.now (tree e.now) (tree other.now) }
{
    match e {
        Expr::Leaf(leaf) => is_leaf(items, leaf, other),
        Expr::Call(function, list) => is_call(function.as_bytes(), list, other),
        Expr::CallOfAll(_) => false,
        Expr::Negated(part) => is_negated(items, part, other),
        Expr::Binary(operator, left, right) => is_binary(items, *operator, left, right, other),
        Expr::In(_, _, _) => false,
        Expr::Between(_, _, _, _) => false,
        Expr::IsNull(_, _) => false,
        Expr::Not(_) => false,
        Expr::And(_) => false,
        Expr::Or(_) => false,
    }
}
