ghost use Rattle.std.specs.Prelude.{◌≡◌, ◌++◌, ◌∷◌, [], IfOk, OnErr, OnOk, map, nat_lt};
ghost use Rattle.sql_ast.specs.Expressions.{listed, tree, trees};
ghost use Rattle.sql_written.specs.Marks.{blank, text_of};
ghost use Rattle.sql_written.specs.Precedence as levels;
ghost use Rattle.sql_written.specs.Chains as chains;
ghost use Rattle.sql_written.specs.Spelling as spelled;
ghost use Rattle.sql_written.specs.Written as shown;

use crate::chain::Chain;
use crate::precedence::{
    CONJUNCTION, DISJUNCTION, NEGATION, NULLITY, SUM, UNARY, left_rank, rank_of, right_rank,
};
use crate::spelling::{write_leaf, write_name, write_sign};
use pg_values::NoMemory;
use sql_ast::{Expr, ExprList, Operator};
use std::alloc::Global;

fn write_between(chain: Chain, out: &mut Vec<u8>) -> Result<(), NoMemory>
    ensures { OnOk result (out.new.items ≡ out.old.items ++ text_of (chains.between chain)) }
{
    let sign: &[u8] = match chain {
        Chain::List => b", ",
        Chain::And => b" AND ",
        Chain::Or => b" OR ",
    };
    out.extend_from_slice(sign)?;
    Ok(())
}

fn place_of(chain: Chain) -> u8
    ensures { result ≡ levels.rank (chains.place chain) }
{
    match chain {
        Chain::List => DISJUNCTION,
        Chain::And => NEGATION,
        Chain::Or => CONJUNCTION,
    }
}

/// A blank where a minus and the expression behind it would be a comment together.
fn write_behind_minus(e: &Expr, out: &mut Vec<u8>) -> Result<(), NoMemory>
    ensures { OnOk result (out.new.items ≡ out.old.items ++ text_of (shown.behind_minus (tree e.now))) }
{
    if let Expr::Negated(_) = e {
        out.push(b' ')?;
    }
    Ok(())
}

fn write_not(is_not: bool, out: &mut Vec<u8>) -> Result<(), NoMemory>
    ensures { OnOk result (out.new.items ≡ out.old.items ++ text_of (shown.not_before is_not)) }
{
    if is_not {
        out.extend_from_slice(b"NOT ")?;
    }
    Ok(())
}

fn write_operator(operator: Operator, out: &mut Vec<u8>) -> Result<(), NoMemory>
    ensures { OnOk result (out.new.items ≡ out.old.items ++ text_of (blank ∷ spelled.sign operator ∷ blank ∷ [])) }
{
    out.push(b' ')?;
    write_sign(operator, out)?;
    out.push(b' ')?;
    Ok(())
}

/// An expression where one stands that must bind as tightly as `place` says.
#[cycle(write)]
fn write_operand(place: u8, e: &Expr, out: &mut Vec<u8>) -> Result<(), NoMemory>
    ensures { OnOk result (out.new.items ≡ out.old.items ++ text_of (shown.in_parentheses (nat_lt (levels.rank (levels.level_of (tree e.now))) place) (shown.marks (tree e.now)))) }
{
    if rank_of(e) < place {
        out.push(b'(')?;
        write_tree(e, out)?;
        out.push(b')')?;
        return Ok(());
    }
    write_tree(e, out)
}

/// The parts of a chain behind the first.
#[cycle(write)]
fn write_more(chain: Chain, parts: &[Expr], out: &mut Vec<u8>) -> Result<(), NoMemory>
    ensures { OnOk result (out.new.items ≡ out.old.items ++ text_of (shown.more (chains.between chain) (chains.place chain) (listed (map tree parts.now)))) }
{
    for part in parts {
        write_between(chain, out)?;
        write_operand(place_of(chain), part, out)?;
    }
    Ok(())
}

#[cycle(write)]
fn write_chain(chain: Chain, parts: &[Expr], out: &mut Vec<u8>) -> Result<(), NoMemory>
    ensures { OnOk result (out.new.items ≡ out.old.items ++ text_of (shown.chain (chains.between chain) (chains.place chain) (listed (map tree parts.now)))) }
{
    if let [first, rest @ ..] = parts {
        write_operand(place_of(chain), first, out)?;
        write_more(chain, rest, out)?;
    }
    Ok(())
}

/// A list in parentheses.
#[cycle(write)]
fn write_list(list: &ExprList, out: &mut Vec<u8>) -> Result<(), NoMemory>
    ensures { OnOk result (out.new.items ≡ out.old.items ++ text_of (spelled.opening ∷ (shown.chain shown.behind_part levels.disjunction (trees list.now) ++ spelled.closing ∷ []))) }
{
    out.push(b'(')?;
    write_chain(Chain::List, list.as_slice(), out)?;
    out.push(b')')?;
    Ok(())
}

/// Where memory runs out, a part of the expression may be there.
#[cycle(write)]
fn write_tree(e: &Expr, out: &mut Vec<u8>) -> Result<(), NoMemory>
    ensures { OnOk result (out.new.items ≡ out.old.items ++ text_of (shown.marks (tree e.now))) }
{
    match e {
        Expr::Leaf(leaf) => write_leaf(leaf, out),
        Expr::Call(name, list) => {
            write_name(name.as_bytes(), out)?;
            write_list(list, out)
        }
        Expr::CallOfAll(name) => {
            write_name(name.as_bytes(), out)?;
            out.extend_from_slice(b"(*)")?;
            Ok(())
        }
        Expr::Negated(operand) => {
            out.push(b'-')?;
            write_behind_minus(operand, out)?;
            write_operand(UNARY, operand, out)
        }
        Expr::Binary(operator, left, right) => {
            write_operand(left_rank(*operator), left, out)?;
            write_operator(*operator, out)?;
            write_operand(right_rank(*operator), right, out)
        }
        Expr::In(is_not, operand, list) => {
            write_operand(SUM, operand, out)?;
            out.push(b' ')?;
            write_not(*is_not, out)?;
            out.extend_from_slice(b"IN ")?;
            write_list(list, out)
        }
        Expr::Between(is_not, operand, from, to) => {
            write_operand(SUM, operand, out)?;
            out.push(b' ')?;
            write_not(*is_not, out)?;
            out.extend_from_slice(b"BETWEEN ")?;
            write_operand(SUM, from, out)?;
            out.extend_from_slice(b" AND ")?;
            write_operand(SUM, to, out)
        }
        Expr::IsNull(is_not, operand) => {
            write_operand(NULLITY, operand, out)?;
            out.extend_from_slice(b" IS ")?;
            write_not(*is_not, out)?;
            out.extend_from_slice(b"NULL")?;
            Ok(())
        }
        Expr::Not(operand) => {
            out.extend_from_slice(b"NOT ")?;
            write_operand(NEGATION, operand, out)
        }
        Expr::And(list) => write_chain(Chain::And, list.as_slice(), out),
        Expr::Or(list) => write_chain(Chain::Or, list.as_slice(), out),
    }
}

fn text(alloc: Global, e: &Expr) -> Result<Vec<u8>, NoMemory>
    ensures { IfOk result (λ z. z.items ≡ shown.written (tree e.now)) }
{
    let mut text = Vec::new(alloc);
    write_tree(e, &mut text)?;
    Ok(text)
}

/// Appends the text of an expression to `out`, all of it or nothing.
pub fn write_expression(alloc: Global, e: &Expr, out: &mut Vec<u8>) -> Result<(), NoMemory>
    ensures ok { OnOk result (out.new.items ≡ out.old.items ++ shown.written (tree e.now)) }
    ensures err { OnErr result (out.new.items ≡ out.old.items) }
{
    let text = text(alloc, e)?;
    out.extend_from_slice(&text)?;
    Ok(())
}
