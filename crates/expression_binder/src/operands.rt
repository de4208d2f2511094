ghost use Rattle.std.specs.Prelude.{◌≡◌, ◌++◌, ◌∷◌, [], map, IfOk, codes};
ghost use Rattle.std.specs.Str.{bytes_eq};
ghost use Rattle.pg_values.specs.Refusals.{IsAnswer};
ghost use Rattle.refusals.specs.Refusals as refusals;
ghost use Rattle.sql_ast.specs.Expressions.{tree, listed};
ghost use Rattle.expression_binder.specs.Firsts.{or_first};
ghost use Rattle.expression_binder.specs.Kinds as kinds;
ghost use Rattle.expression_binder.specs.Operands as operands;
ghost use Rattle.expression_binder.specs.Scopes as scopes;
ghost use Rattle.expression_binder.specs.Lent.{option_now};

use crate::kinds::{check_join, check_joined, fixed, joined, number_kind};
use crate::naming::{item_called, look_up, look_up_in, param};
use crate::{Given, Lookup, Names, Param, ScopeItem, Typed};
use pg_values::{Kind, Refusal};
use refusals::{ambiguous, left_out, no_column, no_function, no_parameter, no_table};
use sql_ast::{Expr, Leaf, Operator};
use std::alloc::Global;

/// A name stands for one column: refused with 42703 or 42702.
pub fn check_look_up(alloc: Global, name: &[u8], found: Lookup) -> Result<(), Refusal>
    ensures { IsAnswer result (or_first (operands.look_up_faults name.now found) tt) }
{
    match found {
        Lookup::Missing => Err(Refusal::Sql(no_column(alloc, name)?)),
        Lookup::One(_) => Ok(()),
        Lookup::Several => Err(Refusal::Sql(ambiguous(alloc, name)?)),
    }
}

fn check_in_item(
    alloc: Global,
    items: &[ScopeItem],
    table: &[u8],
    name: &[u8],
) -> Result<(), Refusal>
    ensures { IsAnswer result (or_first (operands.in_item_faults table.now name.now (scopes.item_called items.now table.now)) tt) }
{
    match item_called(items, table) {
        None => Err(Refusal::Sql(no_table(alloc, table)?)),
        Some(_) => check_look_up(alloc, name, look_up_in(items, table, name)),
    }
}

fn check_param(alloc: Global, names: &Names<'_>, n: u64) -> Result<(), Refusal>
    ensures { IsAnswer result (or_first (operands.param_faults n (scopes.param names.now.params n)) tt) }
{
    match param(names, n) {
        None => Err(Refusal::Sql(no_parameter(alloc, n)?)),
        Some(_) => Ok(()),
    }
}

fn check_row_table(alloc: Global, items: &[ScopeItem]) -> Result<(), Refusal>
    ensures { IsAnswer result (or_first (operands.row_table_faults items.now) tt) }
{
    match items {
        [] => Err(Refusal::Sql(no_column(alloc, b"tableoid")?)),
        [_] => Ok(()),
        _ => Err(Refusal::Sql(ambiguous(alloc, b"tableoid")?)),
    }
}

/// There is an item of that name: refused with 42P01.
pub fn check_item(alloc: Global, items: &[ScopeItem], table: &[u8]) -> Result<(), Refusal>
    ensures { IsAnswer result (or_first (operands.item_faults table.now (scopes.item_called items.now table.now)) tt) }
{
    match item_called(items, table) {
        None => Err(Refusal::Sql(no_table(alloc, table)?)),
        Some(_) => Ok(()),
    }
}

fn check_leaf(alloc: Global, names: &Names<'_>, leaf: &Leaf) -> Result<(), Refusal>
    ensures { IsAnswer result (or_first (operands.leaf_faults names.now leaf.now) tt) }
{
    let items = names.items();
    match leaf {
        Leaf::Number(_) => Ok(()),
        Leaf::Text(_) => Ok(()),
        Leaf::Date(_) => Ok(()),
        Leaf::Null => Ok(()),
        Leaf::Truth(_) => Ok(()),
        Leaf::Parameter(n) => check_param(alloc, names, *n),
        Leaf::Column(name) => check_look_up(
            alloc,
            name.as_bytes(),
            look_up(items, name.as_bytes()),
        ),
        Leaf::ColumnOf(table, name) => check_in_item(
            alloc,
            items,
            table.as_bytes(),
            name.as_bytes(),
        ),
        Leaf::TableName => {
            if !names.allowed().table_names {
                return Err(Refusal::Sql(left_out(alloc, b"::")?));
            }
            check_row_table(alloc, items)
        }
        Leaf::TableNameOf(table) => {
            if !names.allowed().table_names {
                return Err(Refusal::Sql(left_out(alloc, b"::")?));
            }
            check_item(alloc, items, table.as_bytes())
        }
    }
}

fn look_up_given(found: Lookup) -> Given
    ensures { result ≡ operands.look_up_given found }
{
    match found {
        Lookup::Missing => Given::Nothing,
        Lookup::One(hit) => Given::Of(hit.kind),
        Lookup::Several => Given::Nothing,
    }
}

fn param_given(param: Option<&Param>) -> Given
    ensures { result ≡ operands.param_given (option_now param.entry) }
{
    match param {
        None => Given::Nothing,
        Some(param) => Given::Of(param.kind),
    }
}

fn varying(given: Given) -> Typed
    ensures { result ≡ operands.varying given }
{
    Typed {
        given,
        varies: true,
    }
}

pub(crate) fn leaf_typed(names: &Names<'_>, leaf: &Leaf) -> Typed
    ensures { result ≡ operands.leaf_typed names.now leaf.now }
{
    match leaf {
        Leaf::Number(n) => fixed(Given::Of(number_kind(*n))),
        Leaf::Text(_) => fixed(Given::Quoted),
        Leaf::Date(_) => fixed(Given::Of(Kind::Day)),
        Leaf::Null => fixed(Given::Nothing),
        Leaf::Truth(_) => fixed(Given::Of(Kind::Truth)),
        Leaf::Parameter(n) => fixed(param_given(param(names, *n))),
        Leaf::Column(name) => varying(look_up_given(look_up(names.items(), name.as_bytes()))),
        Leaf::ColumnOf(table, name) => {
            let found = look_up_in(names.items(), table.as_bytes(), name.as_bytes());
            varying(look_up_given(found))
        }
        Leaf::TableName => varying(Given::Of(Kind::Text)),
        Leaf::TableNameOf(_) => varying(Given::Of(Kind::Text)),
    }
}

fn is_word(name: &[u8], word: &[u8]) -> bool
    ensures { result ≡ bytes_eq name.now word.now }
{
    name == word
}

/// The function is pg_backend_pid.
pub(crate) fn is_pid(function: &[u8]) -> bool
    ensures { result ≡ operands.is_pid function.now }
{
    is_word(function, b"pg_backend_pid")
}

fn is_cancel(function: &[u8]) -> bool
    ensures { result ≡ operands.is_cancel function.now }
{
    is_word(function, b"pg_cancel_backend")
}

fn is_aggregate(function: &[u8]) -> bool
    ensures { result ≡ operands.is_aggregate function.now }
{
    is_word(function, b"count")
        || is_word(function, b"sum")
        || is_word(function, b"min")
        || is_word(function, b"max")
}

fn is_session_function(function: &[u8]) -> bool
    ensures { result ≡ operands.is_session_function function.now }
{
    is_pid(function) || is_cancel(function)
}

fn is_session_number(given: Given) -> bool
    ensures { result ≡ operands.is_session_number given }
{
    match given {
        Given::Of(Kind::Int4) => true,
        Given::Quoted => true,
        Given::Nothing => true,
        _ => false,
    }
}

fn suits(names: &Names<'_>, function: &[u8], arguments: &[Expr]) -> bool
    ensures { result ≡ operands.suit function.now (operands.all_typed names.now (listed (map tree arguments.now))) }
{
    match arguments {
        [] => is_pid(function),
        [argument] => !is_pid(function) && is_session_number(typed_of(names, argument).given),
        [_, _, ..] => false,
    }
}

fn check_session_call(
    alloc: Global,
    names: &Names<'_>,
    function: &[u8],
    arguments: &[Expr],
) -> Result<(), Refusal>
    ensures { IsAnswer result (or_first (operands.session_call_faults names.now.allowed.calls function.now (operands.all_typed names.now (listed (map tree arguments.now)))) tt) }
{
    if !names.allowed().calls {
        return Err(Refusal::Sql(left_out(alloc, function)?));
    }
    if suits(names, function, arguments) {
        return Ok(());
    }
    Err(Refusal::Sql(no_function(alloc, function)?))
}

fn check_call(
    alloc: Global,
    names: &Names<'_>,
    function: &[u8],
    arguments: &[Expr],
) -> Result<(), Refusal>
    ensures { IsAnswer result (or_first (operands.call_faults names.now.allowed function.now (operands.all_typed names.now (listed (map tree arguments.now)))) tt) }
{
    if is_session_function(function) {
        return check_session_call(alloc, names, function, arguments);
    }
    if is_aggregate(function) {
        return Err(Refusal::Sql(left_out(alloc, function)?));
    }
    Err(Refusal::Sql(no_function(alloc, function)?))
}

fn check_star(alloc: Global, function: &[u8]) -> Result<(), Refusal>
    ensures { IsAnswer result (or_first (operands.star_faults function.now) tt) }
{
    if is_word(function, b"count") {
        return Err(Refusal::Sql(left_out(alloc, function)?));
    }
    Err(Refusal::Sql(no_function(alloc, function)?))
}

/// The 0 that a minus takes its operand from.
pub fn zero_typed() -> Typed
    ensures { result ≡ operands.zero_typed }
{
    fixed(Given::Of(Kind::Int4))
}

pub(crate) fn call_typed(function: &[u8]) -> Typed
    ensures { result ≡ operands.call_typed function.now }
{
    if is_pid(function) {
        fixed(Given::Of(Kind::Int4))
    } else {
        varying(Given::Of(Kind::Truth))
    }
}

/// The kind of an operand, and whether its value comes only with a row. Takes no memory.
pub fn typed_of(names: &Names<'_>, e: &Expr) -> Typed
    ensures { result ≡ operands.typed names.now (tree e.now) }
{
    match e {
        Expr::Leaf(leaf) => leaf_typed(names, leaf),
        Expr::Call(function, _) => call_typed(function.as_bytes()),
        Expr::CallOfAll(_) => fixed(Given::Nothing),
        Expr::Negated(x) => joined(Operator::Subtract, zero_typed(), typed_of(names, x)),
        Expr::Binary(operator, x, y) => joined(*operator, typed_of(names, x), typed_of(names, y)),
        Expr::In(_, _, _) => fixed(Given::Nothing),
        Expr::Between(_, _, _, _) => fixed(Given::Nothing),
        Expr::IsNull(_, _) => fixed(Given::Nothing),
        Expr::Not(_) => fixed(Given::Nothing),
        Expr::And(_) => fixed(Given::Nothing),
        Expr::Or(_) => fixed(Given::Nothing),
    }
}

fn out_of_place(alloc: Global, word: &[u8]) -> Result<(), Refusal>
    ensures { IsAnswer result (or_first (refusals.left_out word.now ∷ []) tt) }
{
    Err(Refusal::Sql(left_out(alloc, word)?))
}

/// The first fault of an operand whose parts have none.
pub fn check_own(alloc: Global, names: &Names<'_>, e: &Expr) -> Result<(), Refusal>
    ensures { IsAnswer result (or_first (operands.own_faults names.now (tree e.now)) tt) }
{
    match e {
        Expr::Leaf(leaf) => check_leaf(alloc, names, leaf),
        Expr::Call(function, arguments) => check_call(
            alloc,
            names,
            function.as_bytes(),
            arguments.as_slice(),
        ),
        Expr::CallOfAll(function) => check_star(alloc, function.as_bytes()),
        Expr::Negated(x) => check_join(
            alloc,
            names.allowed(),
            Operator::Subtract,
            zero_typed(),
            typed_of(names, x),
        ),
        Expr::Binary(operator, x, y) => check_join(
            alloc,
            names.allowed(),
            *operator,
            typed_of(names, x),
            typed_of(names, y),
        ),
        Expr::In(_, _, _) => out_of_place(alloc, b"IN"),
        Expr::Between(_, _, _, _) => out_of_place(alloc, b"BETWEEN"),
        Expr::IsNull(_, _) => out_of_place(alloc, b"IS"),
        Expr::Not(_) => out_of_place(alloc, b"NOT"),
        Expr::And(_) => out_of_place(alloc, b"AND"),
        Expr::Or(_) => out_of_place(alloc, b"OR"),
    }
}

#[cycle(check)]
pub(crate) fn check_operands(
    alloc: Global,
    names: &Names<'_>,
    parts: &[Expr],
) -> Result<(), Refusal>
    ensures { IsAnswer result (or_first (operands.operands_faults names.now (listed (map tree parts.now))) tt) }
{
    for part in parts {
        check_operand(alloc, names, part)?;
    }
    Ok(())
}

// The first fault of the parts of an operand.
#[cycle(check)]
fn check_inner(alloc: Global, names: &Names<'_>, e: &Expr) -> Result<(), Refusal>
    ensures { IsAnswer result (or_first (operands.inner_faults names.now (tree e.now)) tt) }
{
    match e {
        Expr::Leaf(_) => Ok(()),
        Expr::Call(_, arguments) => check_operands(alloc, names, arguments.as_slice()),
        Expr::CallOfAll(_) => Ok(()),
        Expr::Negated(x) => check_operand(alloc, names, x),
        Expr::Binary(_, x, y) => {
            check_operand(alloc, names, x)?;
            check_operand(alloc, names, y)
        }
        Expr::In(_, x, list) => {
            check_operand(alloc, names, x)?;
            check_operands(alloc, names, list.as_slice())
        }
        Expr::Between(_, x, from, to) => {
            check_operand(alloc, names, x)?;
            check_operand(alloc, names, from)?;
            check_operand(alloc, names, to)
        }
        Expr::IsNull(_, x) => check_operand(alloc, names, x),
        Expr::Not(x) => check_operand(alloc, names, x),
        Expr::And(list) => check_operands(alloc, names, list.as_slice()),
        Expr::Or(list) => check_operands(alloc, names, list.as_slice()),
    }
}

// The first fault of names and kinds in an operand, else its kind, for which each part is gone over once.
#[cycle(check)]
fn check_typed(alloc: Global, names: &Names<'_>, e: &Expr) -> Result<Typed, Refusal>
    ensures { IsAnswer result (or_first (operands.operand_faults names.now (tree e.now)) (operands.typed names.now (tree e.now))) }
{
    match e {
        Expr::Negated(x) => {
            let right = check_typed(alloc, names, x)?;
            check_joined(
                alloc,
                names.allowed(),
                Operator::Subtract,
                zero_typed(),
                right,
            )
        }
        Expr::Binary(operator, x, y) => {
            let left = check_typed(alloc, names, x)?;
            let right = check_typed(alloc, names, y)?;
            check_joined(alloc, names.allowed(), *operator, left, right)
        }
        _ => {
            check_inner(alloc, names, e)?;
            check_own(alloc, names, e)?;
            Ok(typed_of(names, e))
        }
    }
}

/// The first fault of names and kinds in an operand: 42P01, 42702, 42703, 42883, 42P02 or 0A000.
#[cycle(check)]
pub fn check_operand(alloc: Global, names: &Names<'_>, e: &Expr) -> Result<(), Refusal>
    ensures { IsAnswer result (or_first (operands.operand_faults names.now (tree e.now)) tt) }
{
    check_typed(alloc, names, e)?;
    Ok(())
}
