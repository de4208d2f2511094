use crate::trees::write_number;
use cond_logic::{ColumnId, CompareOp, Cond, Operand, Scalar, Truth3};
use pg_values::{NoMemory, Value, write_value};
use std::alloc::Global;
use value_rules::Arith;

/// What is still to be written of a tree.
#[derive(Clone, Copy, Drop)]
enum Piece<'a> {
    Scalar(&'a Scalar),
    Cond(&'a Cond),
    List(&'a [Cond]),
    Sign(&'static [u8]),
}

pub(crate) fn write_column(column: ColumnId, out: &mut Vec<u8>) -> Result<(), NoMemory> {
    write_number(u64::from(column.item), out)?;
    out.push(b'.')?;
    write_number(column.position as u64, out)
}

/// A text in quotes, a bigint with an `L`, null as `null`, anything else by its text.
pub(crate) fn write_literal(
    alloc: Global,
    value: &Value,
    out: &mut Vec<u8>,
) -> Result<(), NoMemory> {
    match value {
        Value::Null => out.extend_from_slice(b"null")?,
        Value::Text(text) => {
            out.push(b'\'')?;
            out.extend_from_slice(text.as_bytes())?;
            out.push(b'\'')?;
        }
        Value::Int8(_) => {
            write_value(alloc, value, out)?;
            out.push(b'L')?;
        }
        Value::Int4(_) => write_value(alloc, value, out)?,
        Value::Day(_) => write_value(alloc, value, out)?,
        Value::Truth(_) => write_value(alloc, value, out)?,
    }
    Ok(())
}

fn write_operand(alloc: Global, operand: &Operand, out: &mut Vec<u8>) -> Result<(), NoMemory> {
    match operand {
        Operand::Column(column) => write_column(*column, out),
        Operand::Lit(value) => write_literal(alloc, value, out),
        Operand::Param(place) => {
            out.push(b'$')?;
            write_number((*place as u64).saturating_add(1), out)
        }
    }
}

fn sign_of(op: Arith) -> &'static [u8] {
    match op {
        Arith::Add => b"+(",
        Arith::Sub => b"-(",
        Arith::Mul => b"*(",
        Arith::Div => b"/(",
        Arith::Rem => b"%(",
    }
}

fn comparison_of(op: CompareOp) -> &'static [u8] {
    match op {
        CompareOp::Eq => b"=(",
        CompareOp::Ne => b"<>(",
        CompareOp::Lt => b"<(",
        CompareOp::Le => b"<=(",
        CompareOp::Gt => b">(",
        CompareOp::Ge => b">=(",
    }
}

fn word_of(truth: Truth3) -> &'static [u8] {
    match truth {
        Truth3::Yes => b"yes",
        Truth3::No => b"no",
        Truth3::Unknown => b"unknown",
    }
}

/// Writes the front of what is computed, and notes what is to come behind it, the last first.
fn write_scalar_front<'a>(
    alloc: Global,
    scalar: &'a Scalar,
    todo: &mut Vec<Piece<'a>>,
    out: &mut Vec<u8>,
) -> Result<(), NoMemory> {
    match scalar {
        Scalar::Column(column) => write_column(*column, out)?,
        Scalar::Lit(value) => write_literal(alloc, value, out)?,
        Scalar::TableName(item) => {
            out.extend_from_slice(b"leaf(")?;
            write_number(u64::from(*item), out)?;
            out.push(b')')?;
        }
        Scalar::Arith(op, left, right) => {
            out.extend_from_slice(sign_of(*op))?;
            todo.push(Piece::Sign(b")"))?;
            todo.push(Piece::Scalar(right))?;
            todo.push(Piece::Sign(b" "))?;
            todo.push(Piece::Scalar(left))?;
        }
        Scalar::Cancel(number) => {
            out.extend_from_slice(b"cancel(")?;
            todo.push(Piece::Sign(b")"))?;
            todo.push(Piece::Scalar(number))?;
        }
    }
    Ok(())
}

/// And of a condition.
fn write_cond_front<'a>(
    alloc: Global,
    cond: &'a Cond,
    todo: &mut Vec<Piece<'a>>,
    out: &mut Vec<u8>,
) -> Result<(), NoMemory> {
    if let Cond::Const(truth) = cond {
        return Ok(out.extend_from_slice(word_of(*truth))?);
    }
    todo.push(Piece::Sign(b")"))?;
    match cond {
        Cond::Const(_) => {}
        Cond::And(list) => {
            out.extend_from_slice(b"and(")?;
            todo.push(Piece::List(list.as_slice()))?;
        }
        Cond::Or(list) => {
            out.extend_from_slice(b"or(")?;
            todo.push(Piece::List(list.as_slice()))?;
        }
        Cond::Not(part) => {
            out.extend_from_slice(b"not(")?;
            todo.push(Piece::Cond(part))?;
        }
        Cond::Compare(op, left, right) => {
            out.extend_from_slice(comparison_of(*op))?;
            write_operand(alloc, left, out)?;
            out.push(b' ')?;
            write_operand(alloc, right, out)?;
        }
        Cond::IsNull(operand) => {
            out.extend_from_slice(b"is-null(")?;
            write_operand(alloc, operand, out)?;
        }
    }
    Ok(())
}

/// Notes the parts of a list, with blanks between.
fn note_list<'a>(list: &'a [Cond], todo: &mut Vec<Piece<'a>>) -> Result<(), NoMemory> {
    if let [first, rest @ ..] = list {
        if !rest.is_empty() {
            todo.push(Piece::List(rest))?;
            todo.push(Piece::Sign(b" "))?;
        }
        todo.push(Piece::Cond(first))?;
    }
    Ok(())
}

fn write_pieces<'a>(
    alloc: Global,
    mut todo: Vec<Piece<'a>>,
    out: &mut Vec<u8>,
) -> Result<(), NoMemory> {
    for _ in 0..u64::MAX {
        match todo.pop() {
            None => return Ok(()),
            Some(Piece::Sign(sign)) => out.extend_from_slice(sign)?,
            Some(Piece::List(list)) => note_list(list, &mut todo)?,
            Some(Piece::Scalar(scalar)) => write_scalar_front(alloc, scalar, &mut todo, out)?,
            Some(Piece::Cond(cond)) => write_cond_front(alloc, cond, &mut todo, out)?,
        }
    }
    Ok(())
}

pub(crate) fn write_scalar(
    alloc: Global,
    scalar: &Scalar,
    out: &mut Vec<u8>,
) -> Result<(), NoMemory> {
    let mut todo = Vec::new(alloc);
    todo.push(Piece::Scalar(scalar))?;
    write_pieces(alloc, todo, out)
}

pub(crate) fn write_cond(alloc: Global, cond: &Cond, out: &mut Vec<u8>) -> Result<(), NoMemory> {
    let mut todo = Vec::new(alloc);
    todo.push(Piece::Cond(cond))?;
    write_pieces(alloc, todo, out)
}
