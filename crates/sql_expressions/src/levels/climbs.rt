ghost use Rattle.std.specs.Prelude.{◌≡◌, ◌≤◌, ◌-◌, IfOk, true};
ghost use Rattle.grammar.specs.Gives.{Gives};
ghost use Rattle.sql_expressions.specs.Grammar as grammar;
ghost use Rattle.sql_expressions.specs.Views as views;

use crate::deep::Deep;
use crate::levels::comparisons::{maybe_compared, maybe_tested};
use crate::levels::conjunctions::more_of_joint;
use crate::levels::negations::{inverted_first, more_nulls};
use crate::levels::operands::unary;
use crate::levels::sums::more_operands;
use crate::signs::{
    Behind, Chain, Joint, Level, behind_at, behind_comes, not_comes, part_ends, reach,
};
use grammar::Refused;
use sql_tokens::Token;
use std::alloc::Global;

/// What stands at one place behind an operand, which it becomes a part of.
#[cycle(levels)]
fn grown<'a>(
    alloc: Global,
    text: &[u8],
    place: Behind,
    left: &mut Deep,
    tokens: &'a [Token],
    budget: u8,
) -> Result<&'a [Token], Refused>
    requires { left.old.depth ≤ budget }
    ensures reads { Gives (λ rest. (views.deep left.new, rest.now)) result ((views.behind text.now budget place (views.deep left.old)).read tokens.now) }
    ensures within { IfOk result (λ rest. left.new.depth ≤ budget) }
{
    match place {
        Behind::Products => more_operands(alloc, text, Chain::Product, left, tokens, budget),
        Behind::Sums => more_operands(alloc, text, Chain::Sum, left, tokens, budget),
        Behind::Test => maybe_tested(alloc, text, left, tokens, budget),
        Behind::Comparison => maybe_compared(alloc, text, left, tokens, budget),
        Behind::Nulls => more_nulls(alloc, left, tokens, budget),
        Behind::Conjunctions => more_of_joint(alloc, text, Joint::And, left, tokens, budget),
        Behind::Disjunctions => more_of_joint(alloc, text, Joint::Or, left, tokens, budget),
    }
}

/// All that stands behind an operand in an expression of a level, from one place on.
#[cycle(levels)]
#[inline(never)]
fn climbed<'a>(
    alloc: Global,
    text: &[u8],
    from: u8,
    level: Level,
    left: &mut Deep,
    tokens: &'a [Token],
    budget: u8,
) -> Result<&'a [Token], Refused>
    requires { left.old.depth ≤ budget }
    ensures reads { Gives (λ rest. (views.deep left.new, rest.now)) result (views.climbed text.now budget from (views.reach level - from) (views.deep left.old) tokens.now) }
    ensures within { IfOk result (λ rest. left.new.depth ≤ budget) }
{
    let mut rest = tokens;
    for place in from..reach(level) {
        let behind = behind_at(place);
        if behind_comes(behind, rest) {
            let after = grown(alloc, text, behind, left, rest, budget)?;
            rest = after;
        }
    }
    Ok(rest)
}

/// An expression of a level that begins with NOT.
#[cycle(levels)]
#[inline(never)]
fn inverted_level<'a>(
    alloc: Global,
    text: &[u8],
    level: Level,
    left: &mut Deep,
    tokens: &'a [Token],
    budget: u8,
) -> Result<&'a [Token], Refused>
    requires { views.not_comes level tokens.now ≡ true }
    ensures reads { Gives (λ rest. (views.deep left.new, rest.now)) result ((views.at level (grammar.rules text.now budget)).read tokens.now) }
    ensures within { IfOk result (λ rest. left.new.depth ≤ budget) }
{
    let rest = inverted_first(alloc, text, left, tokens, budget)?;
    climbed(alloc, text, 5, level, left, rest, budget)
}

/// An expression of a level: its first operand, and what stands behind it. What begins it is read at once, and not level by
/// level, so that parentheses in one another take little of the stack.
#[cycle(levels)]
#[inline(never)]
pub(crate) fn at_level<'a>(
    alloc: Global,
    text: &[u8],
    level: Level,
    left: &mut Deep,
    tokens: &'a [Token],
    budget: u8,
) -> Result<&'a [Token], Refused>
    ensures reads { Gives (λ rest. (views.deep left.new, rest.now)) result ((views.at level (grammar.rules text.now budget)).read tokens.now) }
    ensures within { IfOk result (λ rest. left.new.depth ≤ budget) }
{
    if not_comes(level, tokens) {
        return inverted_level(alloc, text, level, left, tokens, budget);
    }
    let rest = unary(alloc, text, left, tokens, budget)?;
    if part_ends(rest) {
        return Ok(rest);
    }
    climbed(alloc, text, 0, level, left, rest, budget)
}
