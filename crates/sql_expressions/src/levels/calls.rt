ghost use Rattle.std.specs.Prelude.{◌≡◌, ◌<◌, ◌≤◌, ◌+◌, IfOk, length};
ghost use Rattle.grammar.specs.Gives.{Gives};
ghost use Rattle.grammar.specs.Repeats.{always, read_repeats, read_step};
ghost use Rattle.sql_expressions.specs.Grammar as grammar;
ghost use Rattle.sql_expressions.specs.Levels as levels;
ghost use Rattle.sql_expressions.specs.Views as views;
ghost use Rattle.sql_tokens.specs.Classes.{a};

use crate::deep::{
    Deep, Parts, add, discard, discard_parts, no_parts, set_call, set_none, set_only, unread,
};
use crate::levels::climbs::at_level;
use crate::signs::{Level, expression_comes};
use grammar::{Refused, comes, word};
use pg_values::PgText;
use sql_ast::Expr;
use sql_tokens::{Token, TokenKind};
use std::alloc::Global;

/// `*` and a closing parenthesis.
#[inline(never)]
fn called_of_all<'a>(
    function: PgText,
    left: &mut Deep,
    tokens: &'a [Token],
) -> Result<&'a [Token], Refused>
    ensures reads { Gives (λ rest. (views.deep left.new, rest.now)) result ((views.call_of_all function).read tokens.now) }
    ensures within { IfOk result (λ rest. left.new.depth ≤ 1) }
{
    let (_, rest) = word(tokens, TokenKind::Star)?;
    let (_, rest) = word(rest, TokenKind::CloseParenthesis)?;
    *left = Deep {
        expr: Expr::CallOfAll(function),
        depth: 1,
    };
    Ok(rest)
}

/// The end of a call with its arguments.
#[inline(never)]
fn end_call<'a>(
    function: PgText,
    left: &mut Deep,
    list: Parts,
    tokens: &'a [Token],
) -> Result<&'a [Token], Refused>
    requires { list.depth < 255 }
    ensures reads { Gives (λ rest. (views.deep left.new, rest.now)) result ((views.ended (levels.call_value function (views.parts list))).read tokens.now) }
    ensures within { IfOk result (λ rest. left.new.depth ≡ list.depth + 1) }
{
    let (_, rest) = word(tokens, TokenKind::CloseParenthesis)?;
    set_call(left, function, list);
    Ok(rest)
}

/// The parentheses of a call.
#[cycle(levels)]
#[inline(never)]
pub(crate) fn called<'a>(
    alloc: Global,
    text: &[u8],
    function: PgText,
    left: &mut Deep,
    tokens: &'a [Token],
    below: u8,
) -> Result<&'a [Token], Refused>
    requires { below < 255 }
    ensures reads { Gives (λ rest. (views.deep left.new, rest.now)) result ((levels.call_of (grammar.rules text.now below).expression function).read tokens.now) }
    ensures within { IfOk result (λ rest. left.new.depth ≤ below + 1) }
{
    let (_, rest) = word(tokens, TokenKind::OpenParenthesis)?;
    if comes(rest, TokenKind::Star) {
        return called_of_all(function, left, rest);
    }
    let mut list = no_parts(alloc);
    match arguments(alloc, text, &mut list, rest, below) {
        Ok(rest) => end_call(function, left, list, rest),
        Err(refused) => {
            discard_parts(list);
            Err(refused)
        }
    }
}

#[cycle(levels)]
fn arguments<'a>(
    alloc: Global,
    text: &[u8],
    list: &mut Parts,
    tokens: &'a [Token],
    below: u8,
) -> Result<&'a [Token], Refused>
    requires { below < 255 }
    ensures reads { Gives (λ rest. (views.parts list.new, rest.now)) result ((levels.arguments (grammar.rules text.now below).expression).read tokens.now) }
    ensures within { IfOk result (λ rest. list.new.depth ≤ below) }
{
    if expression_comes(tokens) {
        return items(alloc, text, list, tokens, below);
    }
    set_none(alloc, list);
    Ok(tokens)
}

/// Expressions with commas between.
#[cycle(levels)]
pub(crate) fn items<'a>(
    alloc: Global,
    text: &[u8],
    list: &mut Parts,
    tokens: &'a [Token],
    below: u8,
) -> Result<&'a [Token], Refused>
    requires { below < 255 }
    ensures reads { Gives (λ rest. (views.parts list.new, rest.now)) result ((levels.list_of (grammar.rules text.now below).expression).read tokens.now) }
    ensures within { IfOk result (λ rest. list.new.depth ≤ below) }
{
    let rest = first_item(alloc, text, list, tokens, below)?;
    more_items(alloc, text, list, rest, below)
}

/// An expression as a list of its own.
#[cycle(levels)]
#[inline(never)]
fn first_item<'a>(
    alloc: Global,
    text: &[u8],
    list: &mut Parts,
    tokens: &'a [Token],
    below: u8,
) -> Result<&'a [Token], Refused>
    requires { below < 255 }
    ensures reads { Gives (λ rest. (views.parts list.new, rest.now)) result ((views.first_part (grammar.rules text.now below).expression).read tokens.now) }
    ensures within { IfOk result (λ rest. list.new.depth ≤ below) }
{
    let mut first = unread();
    match at_level(alloc, text, Level::Expression, &mut first, tokens, below) {
        Ok(rest) => {
            set_only(alloc, list, first)?;
            Ok(rest)
        }
        Err(refused) => {
            discard(first);
            Err(refused)
        }
    }
}

#[cycle(levels)]
#[tactic(auto, unfolding(grammar::specs::Repeats::read_step))]
fn item_step<'a>(
    alloc: Global,
    text: &[u8],
    list: &mut Parts,
    tokens: &'a [Token],
    below: u8,
) -> Result<(bool, &'a [Token]), Refused>
    requires budget { below < 255 }
    requires within { list.old.depth ≤ below }
    ensures reads { Gives (λ x. ((x.0, views.parts list.new), x.1.now)) result (read_step (a TokenKind.Comma) always levels.add_part (λ _. (grammar.rules text.now below).expression.read) (views.parts list.old) tokens.now) }
    ensures within { IfOk result (λ x. list.new.depth ≤ below) }
{
    if !comes(tokens, TokenKind::Comma) {
        return Ok((false, tokens));
    }
    let (_, rest) = word(tokens, TokenKind::Comma)?;
    let mut next = unread();
    match at_level(alloc, text, Level::Expression, &mut next, rest, below) {
        Ok(rest) => {
            add(list, next)?;
            Ok((true, rest))
        }
        Err(refused) => {
            discard(next);
            Err(refused)
        }
    }
}

#[cycle(levels)]
#[inline(never)]
fn more_items<'a>(
    alloc: Global,
    text: &[u8],
    list: &mut Parts,
    tokens: &'a [Token],
    below: u8,
) -> Result<&'a [Token], Refused>
    requires budget { below < 255 }
    requires within { list.old.depth ≤ below }
    ensures reads { Gives (λ rest. (views.parts list.new, rest.now)) result (read_repeats (a TokenKind.Comma) always levels.add_part (λ _. (grammar.rules text.now below).expression.read) (length tokens.now) (views.parts list.old) tokens.now) }
    ensures within { IfOk result (λ rest. list.new.depth ≤ below) }
{
    let mut rest = tokens;
    for _ in 0..tokens.len() {
        let (more, after) = item_step(alloc, text, list, rest, below)?;
        if !more {
            return Ok(after);
        }
        rest = after;
    }
    Ok(rest)
}
