ghost use Rattle.std.specs.Prelude.{◌<◌, ◌≤◌, IfOk, length};
ghost use Rattle.grammar.specs.Gives.{Gives};
ghost use Rattle.grammar.specs.Repeats.{read_repeats, read_step};
ghost use Rattle.sql_expressions.specs.Grammar as grammar;
ghost use Rattle.sql_expressions.specs.Levels as levels;
ghost use Rattle.sql_expressions.specs.Views as views;

use crate::deep::{Deep, Parts, add, discard, only_part, set_node, unread};
use crate::levels::climbs::at_level;
use crate::signs::{Joint, joint_comes, part_level, sign};
use grammar::Refused;
use sql_tokens::Token;
use std::alloc::Global;

/// The part behind an AND or an OR.
#[cycle(levels)]
fn right_part<'a>(
    alloc: Global,
    text: &[u8],
    joint: Joint,
    right: &mut Deep,
    tokens: &'a [Token],
    budget: u8,
) -> Result<&'a [Token], Refused>
    requires { 0 < budget }
    ensures reads { Gives (λ rest. (views.deep right.new, rest.now)) result ((views.part_of joint (grammar.under_depth text.now budget)).read tokens.now) }
    ensures within { IfOk result (λ rest. right.new.depth < budget) }
{
    at_level(alloc, text, part_level(joint), right, tokens, budget - 1)
}

/// The parts behind the first one, each behind an AND or an OR, or nothing.
#[cycle(levels)]
#[inline(never)]
pub(crate) fn more_of_joint<'a>(
    alloc: Global,
    text: &[u8],
    joint: Joint,
    left: &mut Deep,
    tokens: &'a [Token],
    budget: u8,
) -> Result<&'a [Token], Refused>
    requires { left.old.depth ≤ budget }
    ensures reads { Gives (λ rest. (views.deep left.new, rest.now)) result ((views.more_of_joint text.now joint budget (views.deep left.old)).read tokens.now) }
    ensures within { IfOk result (λ rest. left.new.depth ≤ budget) }
{
    if !joint_comes(joint, tokens) {
        return Ok(tokens);
    }
    joined(alloc, text, joint, left, tokens, budget)
}

#[cycle(levels)]
#[inline(never)]
fn joined<'a>(
    alloc: Global,
    text: &[u8],
    joint: Joint,
    left: &mut Deep,
    tokens: &'a [Token],
    budget: u8,
) -> Result<&'a [Token], Refused>
    requires { left.old.depth ≤ budget }
    ensures reads { Gives (λ rest. (views.deep left.new, rest.now)) result ((views.more_of_joint text.now joint budget (views.deep left.old)).read tokens.now) }
    ensures within { IfOk result (λ rest. left.new.depth ≤ budget) }
{
    let mut parts = only_part(alloc, left)?;
    let rest = more_parts(alloc, text, joint, &mut parts, tokens, budget)?;
    set_node(joint, left, parts);
    Ok(rest)
}

#[cycle(levels)]
#[tactic(auto, unfolding(grammar::specs::Repeats::read_step))]
fn part_step<'a>(
    alloc: Global,
    text: &[u8],
    joint: Joint,
    parts: &mut Parts,
    tokens: &'a [Token],
    budget: u8,
) -> Result<(bool, &'a [Token]), Refused>
    requires { views.Fits budget parts.old }
    ensures reads { Gives (λ x. ((x.0, views.parts parts.new), x.1.now)) result (read_step (views.joint_sign joint) (levels.parts_room (grammar.below budget)) levels.add_part (λ _. (views.part_of joint (grammar.under_depth text.now budget)).read) (views.parts parts.old) tokens.now) }
    ensures within { IfOk result (λ x. views.Fits budget parts.new) }
{
    if !joint_comes(joint, tokens) {
        return Ok((false, tokens));
    }
    if parts.depth >= budget {
        return Err(Refused::Limit(tokens.len()));
    }
    let (_, rest) = sign(tokens)?;
    let mut next = unread();
    match right_part(alloc, text, joint, &mut next, rest, budget) {
        Ok(rest) => {
            add(parts, next)?;
            Ok((true, rest))
        }
        Err(refused) => {
            discard(next);
            Err(refused)
        }
    }
}

#[cycle(levels)]
#[inline(never)]
fn more_parts<'a>(
    alloc: Global,
    text: &[u8],
    joint: Joint,
    parts: &mut Parts,
    tokens: &'a [Token],
    budget: u8,
) -> Result<&'a [Token], Refused>
    requires { views.Fits budget parts.old }
    ensures reads { Gives (λ rest. (views.parts parts.new, rest.now)) result (read_repeats (views.joint_sign joint) (levels.parts_room (grammar.below budget)) levels.add_part (λ _. (views.part_of joint (grammar.under_depth text.now budget)).read) (length tokens.now) (views.parts parts.old) tokens.now) }
    ensures within { IfOk result (λ rest. views.Fits budget parts.new) }
{
    let mut rest = tokens;
    for _ in 0..tokens.len() {
        let (more, after) = part_step(alloc, text, joint, parts, rest, budget)?;
        if !more {
            return Ok(after);
        }
        rest = after;
    }
    Ok(rest)
}
