ghost use Rattle.std.specs.Prelude.{◌≡◌, ◌<◌, ◌≤◌, ◌+◌, IfOk, true};
ghost use Rattle.grammar.specs.Gives.{Gives};
ghost use Rattle.grammar.specs.Reading.{begins_in};
ghost use Rattle.sql_expressions.specs.Grammar as grammar;
ghost use Rattle.sql_expressions.specs.Levels as levels;
ghost use Rattle.sql_expressions.specs.Views as views;

use crate::deep::{Deep, Parts, between, discard, discard_parts, in_list, join, no_parts, unread};
use crate::levels::calls::items;
use crate::levels::climbs::at_level;
use crate::signs::{Level, comparison_comes, operator_of, sign, test_comes};
use grammar::{Refused, comes, word};
use sql_tokens::{Token, TokenKind};
use std::alloc::Global;

/// IN or BETWEEN behind a sum, or nothing.
#[cycle(levels)]
#[inline(never)]
pub(crate) fn maybe_tested<'a>(
    alloc: Global,
    text: &[u8],
    left: &mut Deep,
    tokens: &'a [Token],
    budget: u8,
) -> Result<&'a [Token], Refused>
    requires { left.old.depth ≤ budget }
    ensures reads { Gives (λ rest. (views.deep left.new, rest.now)) result ((views.maybe_tested text.now budget (views.deep left.old)).read tokens.now) }
    ensures within { IfOk result (λ rest. left.new.depth ≤ budget) }
{
    if !test_comes(tokens) {
        return Ok(tokens);
    }
    if left.depth >= budget {
        return Err(Refused::Limit(tokens.len()));
    }
    tested(alloc, text, left, tokens, budget - 1)
}

#[cycle(levels)]
fn tested<'a>(
    alloc: Global,
    text: &[u8],
    left: &mut Deep,
    tokens: &'a [Token],
    below: u8,
) -> Result<&'a [Token], Refused>
    requires { (below < 255) × (left.old.depth ≤ below) }
    ensures reads { Gives (λ rest. (views.deep left.new, rest.now)) result ((levels.tested (grammar.rules text.now below) (views.deep left.old)).read tokens.now) }
    ensures within { IfOk result (λ rest. left.new.depth ≤ below + 1) }
{
    if comes(tokens, TokenKind::Not) {
        let (_, rest) = word(tokens, TokenKind::Not)?;
        return in_or_between(alloc, text, true, left, rest, below);
    }
    in_or_between(alloc, text, false, left, tokens, below)
}

#[cycle(levels)]
fn in_or_between<'a>(
    alloc: Global,
    text: &[u8],
    is_not: bool,
    left: &mut Deep,
    tokens: &'a [Token],
    below: u8,
) -> Result<&'a [Token], Refused>
    requires { (below < 255) × (left.old.depth ≤ below) }
    ensures reads { Gives (λ rest. (views.deep left.new, rest.now)) result ((levels.in_or_between (grammar.rules text.now below) is_not (views.deep left.old)).read tokens.now) }
    ensures within { IfOk result (λ rest. left.new.depth ≤ below + 1) }
{
    if comes(tokens, TokenKind::In) {
        return among(alloc, text, is_not, left, tokens, below);
    }
    within_bounds(alloc, text, is_not, left, tokens, below)
}

/// IN and its list.
#[cycle(levels)]
#[inline(never)]
fn among<'a>(
    alloc: Global,
    text: &[u8],
    is_not: bool,
    left: &mut Deep,
    tokens: &'a [Token],
    below: u8,
) -> Result<&'a [Token], Refused>
    requires { (below < 255) × (left.old.depth ≤ below) }
    ensures reads { Gives (λ rest. (views.deep left.new, rest.now)) result ((views.among (grammar.rules text.now below) is_not (views.deep left.old)).read tokens.now) }
    ensures within { IfOk result (λ rest. left.new.depth ≤ below + 1) }
{
    let (_, rest) = word(tokens, TokenKind::In)?;
    let (_, rest) = word(rest, TokenKind::OpenParenthesis)?;
    let mut list = no_parts(alloc);
    match closed_items(alloc, text, &mut list, rest, below) {
        Ok(rest) => {
            in_list(alloc, is_not, left, list)?;
            Ok(rest)
        }
        Err(refused) => {
            discard_parts(list);
            Err(refused)
        }
    }
}

/// Expressions with commas between, and a closing parenthesis.
#[cycle(levels)]
fn closed_items<'a>(
    alloc: Global,
    text: &[u8],
    list: &mut Parts,
    tokens: &'a [Token],
    below: u8,
) -> Result<&'a [Token], Refused>
    requires { below < 255 }
    ensures reads { Gives (λ rest. (views.parts list.new, rest.now)) result ((views.closed_list (grammar.rules text.now below)).read tokens.now) }
    ensures within { IfOk result (λ rest. list.new.depth ≤ below) }
{
    let rest = items(alloc, text, list, tokens, below)?;
    let (_, rest) = word(rest, TokenKind::CloseParenthesis)?;
    Ok(rest)
}

/// BETWEEN and its bounds.
#[cycle(levels)]
#[inline(never)]
fn within_bounds<'a>(
    alloc: Global,
    text: &[u8],
    is_not: bool,
    left: &mut Deep,
    tokens: &'a [Token],
    below: u8,
) -> Result<&'a [Token], Refused>
    requires { (below < 255) × (left.old.depth ≤ below) }
    ensures reads { Gives (λ rest. (views.deep left.new, rest.now)) result ((views.within_bounds (grammar.rules text.now below) is_not (views.deep left.old)).read tokens.now) }
    ensures within { IfOk result (λ rest. left.new.depth ≤ below + 1) }
{
    let mut from = unread();
    let mut to = unread();
    match bounds(alloc, text, &mut from, &mut to, tokens, below) {
        Ok(rest) => {
            between(alloc, is_not, left, from, to)?;
            Ok(rest)
        }
        Err(refused) => {
            discard(from);
            discard(to);
            Err(refused)
        }
    }
}

/// BETWEEN, a sum, AND, and another sum.
#[cycle(levels)]
fn bounds<'a>(
    alloc: Global,
    text: &[u8],
    from: &mut Deep,
    to: &mut Deep,
    tokens: &'a [Token],
    below: u8,
) -> Result<&'a [Token], Refused>
    requires { below < 255 }
    ensures reads { Gives (λ rest. ((views.deep from.new, views.deep to.new), rest.now)) result ((views.bounds (grammar.rules text.now below)).read tokens.now) }
    ensures within { IfOk result (λ rest. (from.new.depth ≤ below) × (to.new.depth ≤ below)) }
{
    let (_, rest) = word(tokens, TokenKind::Between)?;
    let rest = at_level(alloc, text, Level::Sum, from, rest, below)?;
    let (_, rest) = word(rest, TokenKind::And)?;
    let rest = at_level(alloc, text, Level::Sum, to, rest, below)?;
    Ok(rest)
}

/// A comparison with another test, or nothing.
#[cycle(levels)]
#[inline(never)]
pub(crate) fn maybe_compared<'a>(
    alloc: Global,
    text: &[u8],
    left: &mut Deep,
    tokens: &'a [Token],
    budget: u8,
) -> Result<&'a [Token], Refused>
    requires { left.old.depth ≤ budget }
    ensures reads { Gives (λ rest. (views.deep left.new, rest.now)) result ((views.maybe_compared text.now budget (views.deep left.old)).read tokens.now) }
    ensures within { IfOk result (λ rest. left.new.depth ≤ budget) }
{
    if !comparison_comes(tokens) {
        return Ok(tokens);
    }
    if left.depth >= budget {
        return Err(Refused::Limit(tokens.len()));
    }
    compared(alloc, text, left, tokens, budget - 1)
}

#[cycle(levels)]
#[inline(never)]
fn compared<'a>(
    alloc: Global,
    text: &[u8],
    left: &mut Deep,
    tokens: &'a [Token],
    below: u8,
) -> Result<&'a [Token], Refused>
    requires depth { (below < 255) × (left.old.depth ≤ below) }
    requires comes { begins_in levels.is_comparison tokens.now ≡ true }
    ensures reads { Gives (λ rest. (views.deep left.new, rest.now)) result ((levels.compared (grammar.rules text.now below) (views.deep left.old)).read tokens.now) }
    ensures within { IfOk result (λ rest. left.new.depth ≤ below + 1) }
{
    let (sign, rest) = sign(tokens)?;
    let mut right = unread();
    let rest = at_level(alloc, text, Level::Test, &mut right, rest, below)?;
    join(alloc, operator_of(sign), left, right)?;
    Ok(rest)
}
