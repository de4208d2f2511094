//! Conditions from words.

use cond_logic::{ColumnId, CompareOp, Cond, CondList, Operand, Truth3};
use pg_values::{NoMemory, Value};
use std::alloc::Global;

fn column(word: &str) -> Option<ColumnId> {
    let position = match word {
        "x" => 0,
        "y" => 1,
        "z" => 2,
        _ => return None,
    };
    Some(ColumnId { item: 0, position })
}

fn value(word: &str) -> Value {
    match word {
        "null" => Value::Null,
        number => Value::Int4(number.parse().unwrap_or(0)),
    }
}

fn operand(word: &str) -> Operand {
    if let Some(column) = column(word) {
        return Operand::Column(column);
    }
    match word {
        "$" => Operand::Param(0),
        _ => Operand::Lit(value(word)),
    }
}

fn operator(word: &str) -> Option<CompareOp> {
    match word {
        "=" => Some(CompareOp::Eq),
        "<>" => Some(CompareOp::Ne),
        "<" => Some(CompareOp::Lt),
        "<=" => Some(CompareOp::Le),
        ">" => Some(CompareOp::Gt),
        ">=" => Some(CompareOp::Ge),
        _ => None,
    }
}

// The last conditions, in order.
fn last(alloc: Global, conds: &mut Vec<Cond>, count: &str) -> Result<CondList, NoMemory> {
    let mut parts = Vec::new(alloc);
    let n: usize = count.parse().unwrap_or(0);
    for _i in 0..n {
        if let Some(cond) = conds.pop() {
            parts.insert(0, cond)?;
        }
    }
    Ok(CondList::from_vec(parts))
}

// The conditions and operands so far, with that of one more word.
fn take_word(
    alloc: Global,
    word: &str,
    conds: &mut Vec<Cond>,
    operands: &mut Vec<Operand>,
) -> Result<(), NoMemory> {
    let absent = Operand::Lit(Value::Null);
    if let Some(op) = operator(word) {
        let right = operands.pop().unwrap_or(absent);
        let left = operands.pop().unwrap_or(Operand::Lit(Value::Null));
        conds.push(Cond::Compare(op, left, right))?;
        return Ok(());
    }
    if let Some(count) = word.strip_prefix('&') {
        let parts = last(alloc, conds, count)?;
        conds.push(Cond::And(parts))?;
        return Ok(());
    }
    if let Some(count) = word.strip_prefix('|') {
        let parts = last(alloc, conds, count)?;
        conds.push(Cond::Or(parts))?;
        return Ok(());
    }
    match word {
        "n" => conds.push(Cond::IsNull(operands.pop().unwrap_or(absent)))?,
        "!" => {
            let inner = conds.pop().unwrap_or(Cond::Const(Truth3::No));
            conds.push(Cond::Not(Box::new(alloc, inner)?))?;
        }
        "F" => conds.push(Cond::Const(Truth3::No))?,
        _ => operands.push(operand(word))?,
    }
    Ok(())
}

/// The condition of these words, each operator behind its parts.
pub(crate) fn condition(alloc: Global, words: &str) -> Result<Cond, NoMemory> {
    let mut conds = Vec::new(alloc);
    let mut operands = Vec::new(alloc);
    for word in words.split(' ') {
        take_word(alloc, word, &mut conds, &mut operands)?;
    }
    Ok(conds.pop().unwrap_or(Cond::Const(Truth3::Yes)))
}
