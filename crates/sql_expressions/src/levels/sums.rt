ghost use Rattle.std.specs.Prelude.{◌<◌, ◌≤◌, IfOk, length};
ghost use Rattle.grammar.specs.Gives.{Gives};
ghost use Rattle.grammar.specs.Repeats.{read_repeats, read_step};
ghost use Rattle.sql_expressions.specs.Grammar as grammar;
ghost use Rattle.sql_expressions.specs.Levels as levels;
ghost use Rattle.sql_expressions.specs.Views as views;

use crate::deep::{Deep, join, unread};
use crate::levels::climbs::at_level;
use crate::signs::{Chain, operand_level, operator_of, sign, sign_comes};
use grammar::Refused;
use sql_tokens::Token;
use std::alloc::Global;

/// The operand behind a sign.
#[cycle(levels)]
fn right_operand<'a>(
    alloc: Global,
    text: &[u8],
    chain: Chain,
    right: &mut Deep,
    tokens: &'a [Token],
    budget: u8,
) -> Result<&'a [Token], Refused>
    requires { 0 < budget }
    ensures reads { Gives (λ rest. (views.deep right.new, rest.now)) result ((views.operand_of chain (grammar.under_depth text.now budget)).read tokens.now) }
    ensures within { IfOk result (λ rest. right.new.depth < budget) }
{
    at_level(alloc, text, operand_level(chain), right, tokens, budget - 1)
}

#[cycle(levels)]
#[tactic(auto, unfolding(grammar::specs::Repeats::read_step))]
fn operand_step<'a>(
    alloc: Global,
    text: &[u8],
    chain: Chain,
    left: &mut Deep,
    tokens: &'a [Token],
    budget: u8,
) -> Result<(bool, &'a [Token]), Refused>
    requires { left.old.depth ≤ budget }
    ensures reads { Gives (λ x. ((x.0, views.deep left.new), x.1.now)) result (read_step (views.sign_of chain) (levels.has_room (grammar.below budget)) levels.join (λ _. (views.operand_of chain (grammar.under_depth text.now budget)).read) (views.deep left.old) tokens.now) }
    ensures within { IfOk result (λ x. left.new.depth ≤ budget) }
{
    if !sign_comes(chain, tokens) {
        return Ok((false, tokens));
    }
    if left.depth >= budget {
        return Err(Refused::Limit(tokens.len()));
    }
    let (sign, rest) = sign(tokens)?;
    let mut right = unread();
    let rest = right_operand(alloc, text, chain, &mut right, rest, budget)?;
    join(alloc, operator_of(sign), left, right)?;
    Ok((true, rest))
}

/// Signs and operands behind one that stands there.
#[cycle(levels)]
#[inline(never)]
pub(crate) fn more_operands<'a>(
    alloc: Global,
    text: &[u8],
    chain: Chain,
    left: &mut Deep,
    tokens: &'a [Token],
    budget: u8,
) -> Result<&'a [Token], Refused>
    requires { left.old.depth ≤ budget }
    ensures reads { Gives (λ rest. (views.deep left.new, rest.now)) result (read_repeats (views.sign_of chain) (levels.has_room (grammar.below budget)) levels.join (λ _. (views.operand_of chain (grammar.under_depth text.now budget)).read) (length tokens.now) (views.deep left.old) tokens.now) }
    ensures within { IfOk result (λ rest. left.new.depth ≤ budget) }
{
    let mut rest = tokens;
    for _ in 0..tokens.len() {
        let (more, after) = operand_step(alloc, text, chain, left, rest, budget)?;
        if !more {
            return Ok(after);
        }
        rest = after;
    }
    Ok(rest)
}
