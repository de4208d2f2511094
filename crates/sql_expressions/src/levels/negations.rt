ghost use Rattle.std.specs.Prelude.{◌≡◌, ◌<◌, ◌≤◌, ◌+◌, IfOk, length, true};
ghost use Rattle.grammar.specs.Gives.{Gives};
ghost use Rattle.grammar.specs.Reading.{begins_in};
ghost use Rattle.grammar.specs.Repeats.{read_repeats, read_step};
ghost use Rattle.sql_expressions.specs.Grammar as grammar;
ghost use Rattle.sql_expressions.specs.Levels as levels;
ghost use Rattle.sql_expressions.specs.Views as views;
ghost use Rattle.sql_tokens.specs.Classes.{a};

use crate::deep::{Deep, ask_null, invert};
use crate::levels::climbs::at_level;
use crate::signs::Level;
use grammar::{Refused, comes, word};
use sql_tokens::{Token, TokenKind};
use std::alloc::Global;

/// NULL or NOT NULL.
fn null_or_not(tokens: &[Token]) -> Result<(bool, &[Token]), Refused>
    ensures { Gives (λ x. (x.0, x.1.now)) result (levels.null_or_not.read tokens.now) }
{
    if comes(tokens, TokenKind::Not) {
        let (_, rest) = word(tokens, TokenKind::Not)?;
        let (_, rest) = word(rest, TokenKind::Null)?;
        return Ok((true, rest));
    }
    let (_, rest) = word(tokens, TokenKind::Null)?;
    Ok((false, rest))
}

#[tactic(auto, unfolding(grammar::specs::Repeats::read_step))]
fn null_step<'a>(
    alloc: Global,
    left: &mut Deep,
    tokens: &'a [Token],
    budget: u8,
) -> Result<(bool, &'a [Token]), Refused>
    requires { left.old.depth ≤ budget }
    ensures reads { Gives (λ x. ((x.0, views.deep left.new), x.1.now)) result (read_step (a TokenKind.Is) (levels.has_room (grammar.below budget)) levels.null_join (λ _. levels.null_or_not.read) (views.deep left.old) tokens.now) }
    ensures within { IfOk result (λ x. left.new.depth ≤ budget) }
{
    if !comes(tokens, TokenKind::Is) {
        return Ok((false, tokens));
    }
    if left.depth >= budget {
        return Err(Refused::Limit(tokens.len()));
    }
    let (_, rest) = word(tokens, TokenKind::Is)?;
    let (is_not, rest) = null_or_not(rest)?;
    ask_null(alloc, is_not, left)?;
    Ok((true, rest))
}

/// Any number of IS NULL behind a comparison.
#[inline(never)]
pub(crate) fn more_nulls<'a>(
    alloc: Global,
    left: &mut Deep,
    tokens: &'a [Token],
    budget: u8,
) -> Result<&'a [Token], Refused>
    requires { left.old.depth ≤ budget }
    ensures reads { Gives (λ rest. (views.deep left.new, rest.now)) result (read_repeats (a TokenKind.Is) (levels.has_room (grammar.below budget)) levels.null_join (λ _. levels.null_or_not.read) (length tokens.now) (views.deep left.old) tokens.now) }
    ensures within { IfOk result (λ rest. left.new.depth ≤ budget) }
{
    let mut rest = tokens;
    for _ in 0..tokens.len() {
        let (more, after) = null_step(alloc, left, rest, budget)?;
        if !more {
            return Ok(after);
        }
        rest = after;
    }
    Ok(rest)
}

/// NOT, and what it inverts.
#[cycle(levels)]
pub(crate) fn inverted_first<'a>(
    alloc: Global,
    text: &[u8],
    left: &mut Deep,
    tokens: &'a [Token],
    budget: u8,
) -> Result<&'a [Token], Refused>
    requires { begins_in (a TokenKind.Not) tokens.now ≡ true }
    ensures reads { Gives (λ rest. (views.deep left.new, rest.now)) result ((grammar.rules text.now budget).negation.read tokens.now) }
    ensures within { IfOk result (λ rest. left.new.depth ≤ budget) }
{
    if budget == 0 {
        return Err(Refused::Limit(tokens.len()));
    }
    inverted_by(alloc, text, left, tokens, budget - 1)
}

#[cycle(levels)]
#[inline(never)]
fn inverted_by<'a>(
    alloc: Global,
    text: &[u8],
    left: &mut Deep,
    tokens: &'a [Token],
    below: u8,
) -> Result<&'a [Token], Refused>
    requires { below < 255 }
    ensures reads { Gives (λ rest. (views.deep left.new, rest.now)) result ((levels.inverted_by (grammar.rules text.now below)).read tokens.now) }
    ensures within { IfOk result (λ rest. left.new.depth ≤ below + 1) }
{
    let (_, rest) = word(tokens, TokenKind::Not)?;
    let rest = at_level(alloc, text, Level::Negation, left, rest, below)?;
    invert(alloc, left)?;
    Ok(rest)
}
