ghost use Rattle.grammar.specs.Gives.{Gives};
ghost use Rattle.sql_expressions.specs.Grammar as grammar;
ghost use Rattle.sql_ast.specs.Expressions as trees_of;

mod calls;
mod climbs;
mod comparisons;
mod conjunctions;
mod negations;
mod operands;
mod sums;

use crate::deep::unread;
use crate::signs::Level;
use climbs::at_level;
use grammar::Refused;
use sql_ast::Expr;
use sql_tokens::Token;
use std::alloc::Global;

/// The deepest that operators, calls and pairs of parentheses stand in one another.
pub const MOST_DEPTH: u8 = 200;

/// The expression with which the tokens begin, and the tokens behind it. `text` is the text whose
/// tokens they are.
pub fn expression<'a>(
    alloc: Global,
    text: &[u8],
    tokens: &'a [Token],
) -> Result<(Expr, &'a [Token]), Refused>
    ensures { Gives (λ x. (trees_of.tree x.0, x.1.now)) result ((grammar.expression text.now).read tokens.now) }
{
    let mut deep = unread();
    let rest = at_level(
        alloc,
        text,
        Level::Expression,
        &mut deep,
        tokens,
        MOST_DEPTH,
    )?;
    Ok((deep.expr, rest))
}
