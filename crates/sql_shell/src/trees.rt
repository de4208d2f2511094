use pg_values::NoMemory;
use sql_ast::{Expr, Leaf, Operator};
use std::alloc::Global;

/// What is still to be written of a tree.
#[derive(Clone, Copy, Drop)]
enum Piece<'a> {
    Tree(&'a Expr),
    List(&'a [Expr]),
    Sign(&'static [u8]),
}

pub(crate) fn write_number(n: u64, out: &mut Vec<u8>) -> Result<(), NoMemory> {
    let mut digits = itoa::Buffer::new();
    out.extend_from_slice(digits.format(n).as_bytes())?;
    Ok(())
}

fn write_leaf(leaf: &Leaf, out: &mut Vec<u8>) -> Result<(), NoMemory> {
    match leaf {
        Leaf::Number(n) => write_number(*n, out)?,
        Leaf::Text(text) => {
            out.push(b'\'')?;
            out.extend_from_slice(text.as_bytes())?;
            out.push(b'\'')?;
        }
        Leaf::Date(day) => {
            out.extend_from_slice(b"date:")?;
            out.extend_from_slice(day.as_bytes())?;
        }
        Leaf::Null => out.extend_from_slice(b"null")?,
        Leaf::Truth(true) => out.extend_from_slice(b"true")?,
        Leaf::Truth(false) => out.extend_from_slice(b"false")?,
        Leaf::Parameter(n) => {
            out.push(b'$')?;
            write_number(*n, out)?;
        }
        Leaf::Column(name) => out.extend_from_slice(name.as_bytes())?,
        Leaf::ColumnOf(table, name) => {
            out.extend_from_slice(table.as_bytes())?;
            out.push(b'.')?;
            out.extend_from_slice(name.as_bytes())?;
        }
        Leaf::TableName => out.extend_from_slice(b"tableoid::regclass")?,
        Leaf::TableNameOf(table) => {
            out.extend_from_slice(table.as_bytes())?;
            out.extend_from_slice(b".tableoid::regclass")?;
        }
    }
    Ok(())
}

fn sign_of(operator: Operator) -> &'static [u8] {
    match operator {
        Operator::Add => b"+(",
        Operator::Subtract => b"-(",
        Operator::Multiply => b"*(",
        Operator::Divide => b"/(",
        Operator::Remainder => b"%(",
        Operator::Equal => b"=(",
        Operator::NotEqual => b"<>(",
        Operator::Less => b"<(",
        Operator::LessEqual => b"<=(",
        Operator::Greater => b">(",
        Operator::GreaterEqual => b">=(",
    }
}

/// Writes the front of a tree, and notes what is to come behind it, the last first.
fn write_front<'a>(
    tree: &'a Expr,
    todo: &mut Vec<Piece<'a>>,
    out: &mut Vec<u8>,
) -> Result<(), NoMemory> {
    if let Expr::Leaf(leaf) = tree {
        return write_leaf(leaf, out);
    }
    todo.push(Piece::Sign(b")"))?;
    match tree {
        Expr::Leaf(_) => {}
        Expr::Call(name, list) => {
            out.extend_from_slice(name.as_bytes())?;
            out.push(b'(')?;
            todo.push(Piece::List(list.as_slice()))?;
        }
        Expr::CallOfAll(name) => {
            out.extend_from_slice(name.as_bytes())?;
            out.extend_from_slice(b"(*")?;
        }
        Expr::Negated(operand) => {
            out.extend_from_slice(b"neg(")?;
            todo.push(Piece::Tree(operand))?;
        }
        Expr::Binary(operator, left, right) => {
            out.extend_from_slice(sign_of(*operator))?;
            todo.push(Piece::Tree(right))?;
            todo.push(Piece::Sign(b" "))?;
            todo.push(Piece::Tree(left))?;
        }
        Expr::In(is_not, operand, list) => {
            out.extend_from_slice(if *is_not { b"not-in(" } else { b"in(" })?;
            todo.push(Piece::List(list.as_slice()))?;
            todo.push(Piece::Sign(b" "))?;
            todo.push(Piece::Tree(operand))?;
        }
        Expr::Between(is_not, operand, from, to) => {
            out.extend_from_slice(if *is_not {
                b"not-between("
            } else {
                b"between("
            })?;
            todo.push(Piece::Tree(to))?;
            todo.push(Piece::Sign(b" "))?;
            todo.push(Piece::Tree(from))?;
            todo.push(Piece::Sign(b" "))?;
            todo.push(Piece::Tree(operand))?;
        }
        Expr::IsNull(is_not, operand) => {
            out.extend_from_slice(if *is_not {
                b"is-not-null("
            } else {
                b"is-null("
            })?;
            todo.push(Piece::Tree(operand))?;
        }
        Expr::Not(operand) => {
            out.extend_from_slice(b"not(")?;
            todo.push(Piece::Tree(operand))?;
        }
        Expr::And(list) => {
            out.extend_from_slice(b"and(")?;
            todo.push(Piece::List(list.as_slice()))?;
        }
        Expr::Or(list) => {
            out.extend_from_slice(b"or(")?;
            todo.push(Piece::List(list.as_slice()))?;
        }
    }
    Ok(())
}

/// Notes the parts of a list, with blanks between.
fn note_list<'a>(list: &'a [Expr], todo: &mut Vec<Piece<'a>>) -> Result<(), NoMemory> {
    if let [first, rest @ ..] = list {
        if !rest.is_empty() {
            todo.push(Piece::List(rest))?;
            todo.push(Piece::Sign(b" "))?;
        }
        todo.push(Piece::Tree(first))?;
    }
    Ok(())
}

/// Appends a tree, each operator before its operands.
pub(crate) fn write_tree(alloc: Global, tree: &Expr, out: &mut Vec<u8>) -> Result<(), NoMemory> {
    let mut todo = Vec::new(alloc);
    todo.push(Piece::Tree(tree))?;
    for _ in 0..u64::MAX {
        match todo.pop() {
            None => return Ok(()),
            Some(Piece::Sign(sign)) => out.extend_from_slice(sign)?,
            Some(Piece::List(list)) => note_list(list, &mut todo)?,
            Some(Piece::Tree(tree)) => write_front(tree, &mut todo, out)?,
        }
    }
    Ok(())
}
