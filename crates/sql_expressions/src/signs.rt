ghost use Rattle.std.specs.Prelude.{◌≡◌, ◌∷◌, [], MatchResult};
ghost use Rattle.grammar.specs.Reading.{begins_in};
ghost use Rattle.grammar.specs.declared.refused.Refused.TheVariants as refusals;
ghost use Rattle.sql_expressions.specs.Levels as levels;
ghost use Rattle.sql_expressions.specs.Views as views;

use crate::words::literal_comes;
use grammar::{Refused, comes, name_comes, split};
use sql_ast::Operator;
use sql_tokens::{Token, TokenKind};

/// A chain of operators that are taken together from the left.
#[derive(Clone, Copy)]
pub(crate) enum Chain {
    Sum,
    Product,
}

/// A chain of any length that is one node.
#[derive(Clone, Copy)]
pub(crate) enum Joint {
    Or,
    And,
}

/// A level of expressions, from the tightest to the loosest.
#[derive(Clone, Copy)]
pub(crate) enum Level {
    Unary,
    Product,
    Sum,
    Test,
    Negation,
    Conjunction,
    Expression,
}

/// What may stand behind an operand, from the tightest to the loosest.
#[derive(Clone, Copy)]
pub(crate) enum Behind {
    Products,
    Sums,
    Test,
    Comparison,
    Nulls,
    Conjunctions,
    Disjunctions,
}

/// How many of those may stand behind an operand in an expression of the level.
pub(crate) fn reach(level: Level) -> u8
    ensures { result ≡ views.reach level }
{
    match level {
        Level::Unary => 0,
        Level::Product => 1,
        Level::Sum => 2,
        Level::Test => 3,
        Level::Negation => 5,
        Level::Conjunction => 6,
        Level::Expression => 7,
    }
}

/// What may stand at a place behind an operand, where 0 is the tightest.
pub(crate) fn behind_at(place: u8) -> Behind
    ensures { result ≡ views.behind_at place }
{
    if place < 1 {
        Behind::Products
    } else if place < 2 {
        Behind::Sums
    } else if place < 3 {
        Behind::Test
    } else if place < 4 {
        Behind::Comparison
    } else if place < 5 {
        Behind::Nulls
    } else if place < 6 {
        Behind::Conjunctions
    } else {
        Behind::Disjunctions
    }
}

/// Whether it stands there.
pub(crate) fn behind_comes(place: Behind, tokens: &[Token]) -> bool
    ensures { result ≡ begins_in (views.behind_sign place) tokens.now }
{
    match place {
        Behind::Products => sign_comes(Chain::Product, tokens),
        Behind::Sums => sign_comes(Chain::Sum, tokens),
        Behind::Test => test_comes(tokens),
        Behind::Comparison => comparison_comes(tokens),
        Behind::Nulls => comes(tokens, TokenKind::Is),
        Behind::Conjunctions => joint_comes(Joint::And, tokens),
        Behind::Disjunctions => joint_comes(Joint::Or, tokens),
    }
}

/// Whether a comma or a closing parenthesis comes: nothing more belongs to an operand before it.
pub(crate) fn part_ends(tokens: &[Token]) -> bool
    ensures { result ≡ begins_in views.ends_part tokens.now }
{
    comes(tokens, TokenKind::Comma) || comes(tokens, TokenKind::CloseParenthesis)
}

/// Whether a NOT comes that begins an expression of the level.
pub(crate) fn not_comes(level: Level, tokens: &[Token]) -> bool
    ensures { result ≡ views.not_comes level tokens.now }
{
    match level {
        Level::Unary | Level::Product | Level::Sum | Level::Test => false,
        Level::Negation | Level::Conjunction | Level::Expression => comes(tokens, TokenKind::Not),
    }
}

/// The level of the operands of a chain.
pub(crate) fn operand_level(chain: Chain) -> Level
    ensures { result ≡ views.operand_level chain }
{
    match chain {
        Chain::Sum => Level::Product,
        Chain::Product => Level::Unary,
    }
}

/// The level of the parts of a chain.
pub(crate) fn part_level(joint: Joint) -> Level
    ensures { result ≡ views.part_level joint }
{
    match joint {
        Joint::Or => Level::Conjunction,
        Joint::And => Level::Negation,
    }
}

pub(crate) fn operator_of(sign: Token) -> Operator
    ensures { result ≡ levels.operator_of sign }
{
    match sign.kind {
        TokenKind::Plus => Operator::Add,
        TokenKind::Minus => Operator::Subtract,
        TokenKind::Star => Operator::Multiply,
        TokenKind::Slash => Operator::Divide,
        TokenKind::Percent => Operator::Remainder,
        TokenKind::Equal => Operator::Equal,
        TokenKind::NotEqual => Operator::NotEqual,
        TokenKind::Less => Operator::Less,
        TokenKind::LessEqual => Operator::LessEqual,
        TokenKind::Greater => Operator::Greater,
        _ => Operator::GreaterEqual,
    }
}

pub(crate) fn sign_comes(chain: Chain, tokens: &[Token]) -> bool
    ensures { result ≡ begins_in (views.sign_of chain) tokens.now }
{
    match chain {
        Chain::Sum => comes(tokens, TokenKind::Plus) || comes(tokens, TokenKind::Minus),
        Chain::Product => {
            comes(tokens, TokenKind::Star)
                || comes(tokens, TokenKind::Slash)
                || comes(tokens, TokenKind::Percent)
        }
    }
}

pub(crate) fn comparison_comes(tokens: &[Token]) -> bool
    ensures { result ≡ begins_in levels.is_comparison tokens.now }
{
    comes(tokens, TokenKind::Equal)
        || comes(tokens, TokenKind::NotEqual)
        || comes(tokens, TokenKind::Less)
        || comes(tokens, TokenKind::LessEqual)
        || comes(tokens, TokenKind::Greater)
        || comes(tokens, TokenKind::GreaterEqual)
}

pub(crate) fn test_comes(tokens: &[Token]) -> bool
    ensures { result ≡ begins_in levels.begins_test tokens.now }
{
    comes(tokens, TokenKind::Not)
        || comes(tokens, TokenKind::In)
        || comes(tokens, TokenKind::Between)
}

pub(crate) fn nested_comes(tokens: &[Token]) -> bool
    ensures { result ≡ begins_in levels.begins_nested tokens.now }
{
    comes(tokens, TokenKind::Minus) || comes(tokens, TokenKind::OpenParenthesis)
}

pub(crate) fn expression_comes(tokens: &[Token]) -> bool
    ensures { result ≡ begins_in levels.begins_expression tokens.now }
{
    comes(tokens, TokenKind::Not)
        || nested_comes(tokens)
        || name_comes(tokens)
        || literal_comes(tokens)
}

pub(crate) fn joint_comes(joint: Joint, tokens: &[Token]) -> bool
    ensures { result ≡ begins_in (views.joint_sign joint) tokens.now }
{
    match joint {
        Joint::Or => comes(tokens, TokenKind::Or),
        Joint::And => comes(tokens, TokenKind::And),
    }
}

/// The next token: a sign that was seen to come.
pub(crate) fn sign(tokens: &[Token]) -> Result<(Token, &[Token]), Refused>
    ensures { MatchResult result (λ x. tokens.now ≡ x.0 ∷ x.1.now) (λ e. (e ≡ refusals.Syntax 0) × (tokens.now ≡ [])) }
{
    match split(tokens) {
        None => Err(Refused::Syntax(0)),
        Some(x) => Ok(x),
    }
}
