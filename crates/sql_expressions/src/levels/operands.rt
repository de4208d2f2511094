ghost use Rattle.std.specs.Prelude.{◌<◌, ◌≤◌, ◌+◌, IfOk};
ghost use Rattle.grammar.specs.Gives.{Gives};
ghost use Rattle.sql_expressions.specs.Grammar as grammar;
ghost use Rattle.sql_expressions.specs.Levels as levels;
ghost use Rattle.sql_expressions.specs.Views as views;

use crate::deep::{Deep, flat, negate};
use crate::levels::calls::called;
use crate::levels::climbs::at_level;
use crate::signs::{Level, nested_comes};
use crate::words::{column, literal, name};
use grammar::{Refused, comes, name_comes, word};
use pg_values::PgText;
use sql_tokens::{Token, TokenKind};
use std::alloc::Global;

#[cycle(levels)]
#[inline(never)]
pub(crate) fn unary<'a>(
    alloc: Global,
    text: &[u8],
    left: &mut Deep,
    tokens: &'a [Token],
    budget: u8,
) -> Result<&'a [Token], Refused>
    ensures reads { Gives (λ rest. (views.deep left.new, rest.now)) result ((grammar.rules text.now budget).unary.read tokens.now) }
    ensures within { IfOk result (λ rest. left.new.depth ≤ budget) }
{
    if nested_comes(tokens) {
        if budget == 0 {
            return Err(Refused::Limit(tokens.len()));
        }
        return nested(alloc, text, left, tokens, budget - 1);
    }
    if name_comes(tokens) {
        return named(alloc, text, left, tokens, budget);
    }
    constant(alloc, text, left, tokens)
}

/// A value that is written out, or a parameter.
#[inline(never)]
fn constant<'a>(
    alloc: Global,
    text: &[u8],
    left: &mut Deep,
    tokens: &'a [Token],
) -> Result<&'a [Token], Refused>
    ensures reads { Gives (λ rest. (views.deep left.new, rest.now)) result ((views.constant text.now).read tokens.now) }
    ensures within { IfOk result (λ rest. left.new.depth ≤ 0) }
{
    let (leaf, rest) = literal(alloc, text, tokens)?;
    *left = flat(leaf);
    Ok(rest)
}

/// A minus, or parentheses.
#[cycle(levels)]
#[inline(never)]
fn nested<'a>(
    alloc: Global,
    text: &[u8],
    left: &mut Deep,
    tokens: &'a [Token],
    below: u8,
) -> Result<&'a [Token], Refused>
    requires { below < 255 }
    ensures reads { Gives (λ rest. (views.deep left.new, rest.now)) result ((levels.nested (grammar.rules text.now below)).read tokens.now) }
    ensures within { IfOk result (λ rest. left.new.depth ≤ below + 1) }
{
    if comes(tokens, TokenKind::Minus) {
        let (_, rest) = word(tokens, TokenKind::Minus)?;
        let rest = unary(alloc, text, left, rest, below)?;
        negate(alloc, left)?;
        return Ok(rest);
    }
    let (_, rest) = word(tokens, TokenKind::OpenParenthesis)?;
    let rest = at_level(alloc, text, Level::Expression, left, rest, below)?;
    let (_, rest) = word(rest, TokenKind::CloseParenthesis)?;
    left.depth += 1;
    Ok(rest)
}

/// A column, a date, the name of a row's table, or a call.
#[cycle(levels)]
#[inline(never)]
fn named<'a>(
    alloc: Global,
    text: &[u8],
    left: &mut Deep,
    tokens: &'a [Token],
    budget: u8,
) -> Result<&'a [Token], Refused>
    ensures reads { Gives (λ rest. (views.deep left.new, rest.now)) result ((views.named_at text.now budget).read tokens.now) }
    ensures within { IfOk result (λ rest. left.new.depth ≤ budget) }
{
    let (kind, name, rest) = name(alloc, text, tokens)?;
    if comes(rest, TokenKind::OpenParenthesis) {
        if budget == 0 {
            return Err(Refused::Limit(rest.len()));
        }
        return called(alloc, text, name, left, rest, budget - 1);
    }
    no_call(alloc, text, kind, name, left, rest)
}

/// The rest of a column, a date or the name of a row's table.
#[inline(never)]
fn no_call<'a>(
    alloc: Global,
    text: &[u8],
    kind: TokenKind,
    name: PgText,
    left: &mut Deep,
    tokens: &'a [Token],
) -> Result<&'a [Token], Refused>
    ensures reads { Gives (λ rest. (views.deep left.new, rest.now)) result ((views.no_call text.now (kind, name)).read tokens.now) }
    ensures within { IfOk result (λ rest. left.new.depth ≤ 0) }
{
    let (leaf, rest) = column(alloc, text, kind, name, tokens)?;
    *left = flat(leaf);
    Ok(rest)
}
