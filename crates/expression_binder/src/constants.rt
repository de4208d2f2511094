ghost use Rattle.std.specs.Prelude.{◌≡◌, IfOk};
ghost use Rattle.pg_values.specs.Refusals.{IsAnswer};
ghost use Rattle.cond_logic.specs.Scalars.{scalar_tree};
ghost use Rattle.expression_binder.specs.Constants as constants;
ghost use Rattle.expression_binder.specs.Firsts.{IsAnswerBy};
ghost use Rattle.expression_binder.specs.Lent.{option_now};
ghost use Rattle.expression_binder.specs.Scopes as scopes;
ghost use Rattle.value_rules.specs.Arithmetic as arithmetic;
ghost use Rattle.cond_logic.specs.Scalars as scalars;

use crate::naming::{item_called, look_up, look_up_in, param};
use crate::signs::sign;
use crate::{Lookup, Names, Param, ScopeItem};
use cond_logic::Scalar;
use pg_values::{Fault, Kind, NoMemory, Refusal, Value, copy_value};
use refusals::{date_out_of_range, division_by_zero, no_operator, out_of_range};
use sql_ast::{Leaf, Operator};
use std::alloc::Global;
use value_rules::{Arith, ArithFault, arith, read_value};

pub(crate) fn number_value(alloc: Global, n: u64) -> Result<Value, Refusal>
    ensures { IsAnswer result (constants.number_value n) }
{
    match i32::try_from(n) {
        Ok(n) => Ok(Value::Int4(n)),
        Err(_) => match i64::try_from(n) {
            Ok(n) => Ok(Value::Int8(n)),
            Err(_) => Err(Refusal::Sql(out_of_range(alloc))),
        },
    }
}

fn param_value(alloc: Global, param: Option<&Param>) -> Result<Value, NoMemory>
    ensures { IfOk result (λ v. v ≡ constants.param_value (option_now param.entry)) }
{
    match param {
        None => Ok(Value::Null),
        Some(param) => copy_value(alloc, &param.value),
    }
}

fn found_column(found: Lookup) -> Scalar
    ensures { scalar_tree result ≡ constants.found_column found }
{
    match found {
        Lookup::Missing => Scalar::Lit(Value::Null),
        Lookup::One(hit) => Scalar::Column(hit.column),
        Lookup::Several => Scalar::Lit(Value::Null),
    }
}

fn row_table(items: &[ScopeItem]) -> Scalar
    ensures { scalar_tree result ≡ constants.row_table items.now }
{
    match items.first() {
        None => Scalar::Lit(Value::Null),
        Some(item) => Scalar::TableName(item.number()),
    }
}

fn item_table(items: &[ScopeItem], table: &[u8]) -> Scalar
    ensures { scalar_tree result ≡ constants.item_table (scopes.item_called items.now table.now) }
{
    match item_called(items, table) {
        None => Scalar::Lit(Value::Null),
        Some(item) => Scalar::TableName(item.number()),
    }
}

/// What a leaf is worth in a place of the kind.
pub(crate) fn leaf_scalar(
    alloc: Global,
    names: &Names<'_>,
    kind: Kind,
    leaf: &Leaf,
) -> Result<Scalar, Refusal>
    ensures { IsAnswerBy scalar_tree result (constants.leaf_scalar names.now kind leaf.now) }
{
    match leaf {
        Leaf::Number(n) => Ok(Scalar::Lit(number_value(alloc, *n)?)),
        Leaf::Text(text) => Ok(Scalar::Lit(read_value(alloc, kind, text.as_bytes())?)),
        Leaf::Date(text) => Ok(Scalar::Lit(read_value(alloc, Kind::Day, text.as_bytes())?)),
        Leaf::Null => Ok(Scalar::Lit(Value::Null)),
        Leaf::Truth(truth) => Ok(Scalar::Lit(Value::Truth(*truth))),
        Leaf::Parameter(n) => Ok(Scalar::Lit(param_value(alloc, param(names, *n))?)),
        Leaf::Column(name) => Ok(found_column(look_up(names.items(), name.as_bytes()))),
        Leaf::ColumnOf(table, name) => {
            let found = look_up_in(names.items(), table.as_bytes(), name.as_bytes());
            Ok(found_column(found))
        }
        Leaf::TableName => Ok(row_table(names.items())),
        Leaf::TableNameOf(table) => Ok(item_table(names.items(), table.as_bytes())),
    }
}

fn arith_of(operator: Operator) -> Arith
    ensures { result ≡ constants.arith_of operator }
{
    match operator {
        Operator::Subtract => Arith::Sub,
        Operator::Multiply => Arith::Mul,
        Operator::Divide => Arith::Div,
        Operator::Remainder => Arith::Rem,
        _ => Arith::Add,
    }
}

fn arith_fault(alloc: Global, operator: Operator, fault: ArithFault) -> Result<Fault, NoMemory>
    ensures { IfOk result (λ f. f ≡ constants.arith_fault operator fault) }
{
    match fault {
        ArithFault::OutOfRange => Ok(out_of_range(alloc)),
        ArithFault::DateRange => Ok(date_out_of_range(alloc)),
        ArithFault::ZeroDivisor => Ok(division_by_zero(alloc)),
        ArithFault::NoOperator => no_operator(alloc, Kind::Text, sign(operator), Kind::Text),
    }
}

fn compute(alloc: Global, operator: Operator, v: &Value, w: &Value) -> Result<Scalar, Refusal>
    ensures { IsAnswerBy scalar_tree result (constants.or_arith operator (arithmetic.computed (constants.arith_of operator) v.now w.now)) }
{
    match arith(arith_of(operator), v, w) {
        Ok(value) => Ok(Scalar::Lit(value)),
        Err(fault) => Err(Refusal::Sql(arith_fault(alloc, operator, fault)?)),
    }
}

fn join(alloc: Global, operator: Operator, x: Scalar, y: Scalar) -> Result<Scalar, NoMemory>
    ensures { IfOk result (λ made. scalar_tree made ≡ scalars.computes (constants.arith_of operator) (scalar_tree x) (scalar_tree y)) }
{
    let left = Box::new(alloc, x)?;
    let right = Box::new(alloc, y)?;
    Ok(Scalar::Arith(arith_of(operator), left, right))
}

/// The value of a constant.
pub fn as_literal(x: &Scalar) -> Option<&Value>
    ensures { option_now result ≡ constants.as_literal (scalar_tree x.now) }
{
    match x {
        Scalar::Lit(value) => Some(value),
        Scalar::Column(_) => None,
        Scalar::TableName(_) => None,
        Scalar::Arith(_, _, _) => None,
        Scalar::Cancel(_) => None,
    }
}

/// The operator over two operands: of two constants it is computed.
pub(crate) fn operate(
    alloc: Global,
    operator: Operator,
    x: Scalar,
    y: Scalar,
) -> Result<Scalar, Refusal>
    ensures { IsAnswerBy scalar_tree result (constants.operated operator (scalar_tree x) (scalar_tree y)) }
{
    match (as_literal(&x), as_literal(&y)) {
        (Some(v), Some(w)) => compute(alloc, operator, v, w),
        (Some(_), None) => Ok(join(alloc, operator, x, y)?),
        (None, _) => Ok(join(alloc, operator, x, y)?),
    }
}
