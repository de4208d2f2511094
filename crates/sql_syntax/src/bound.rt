ghost use Rattle.std.specs.Prelude.{◌≡◌, map, take};
ghost use Rattle.grammar.specs.Gives.{Gives};
ghost use Rattle.sql_ast.specs.Expressions.{tree};
ghost use Rattle.sql_syntax.specs.Bound as grammar;
ghost use Rattle.sql_ast.specs.Commands.{bound_tree, edge_tree};

use grammar::{Part, Refused, comes, separated, word};
use sql_ast::{BoundText, EdgeList, EdgeText, Expr, ExprList};
use sql_expressions::{ExprPart, expression, number};
use sql_tokens::{Token, TokenKind, same_kind};
use std::alloc::Global;

/// The first tokens: all of them where there are fewer.
fn first(tokens: &[Token], n: usize) -> &[Token]
    ensures { result.now ≡ take n tokens.now }
{
    &tokens[..n.min(tokens.len())]
}

/// The edge that a text says: MINVALUE and MAXVALUE are words where they stand alone.
fn edge_of(tokens: &[Token], value: Expr) -> EdgeText
    ensures { edge_tree result ≡ grammar.edge_of tokens.now (tree value) }
{
    match tokens {
        [only] if same_kind(only.kind, TokenKind::Minvalue) => EdgeText::MinValue,
        [only] if same_kind(only.kind, TokenKind::Maxvalue) => EdgeText::MaxValue,
        _ => EdgeText::Value(value),
    }
}

fn edge<'a>(
    alloc: Global,
    text: &[u8],
    tokens: &'a [Token],
) -> Result<(EdgeText, &'a [Token]), Refused>
    ensures { Gives (λ x. (edge_tree x.0, x.1.now)) result ((grammar.edge text.now).read tokens.now) }
{
    let (value, rest) = expression(alloc, text, tokens)?;
    let taken = first(tokens, tokens.len().saturating_sub(rest.len()));
    Ok((edge_of(taken, value), rest))
}

struct EachEdge;

impl Part for EachEdge {
    ghost use Rattle.sql_syntax.specs.Bound as grammar;
    ghost use Rattle.sql_ast.specs.Commands.{Edge as OneEdge, edge_tree};

    type Token = Token;

    type Item = EdgeText;

    ghost Tree = { OneEdge };

    ghost tree = { edge_tree };

    ghost rule = { grammar.edge };

    fn read<'a>(
        alloc: Global,
        text: &[u8],
        tokens: &'a [Token],
    ) -> Result<(EdgeText, &'a [Token]), Refused> {
        edge(alloc, text, tokens)
    }
}

/// The edges of FROM or of TO.
fn point<'a>(
    alloc: Global,
    text: &[u8],
    tokens: &'a [Token],
) -> Result<(Vec<EdgeText>, &'a [Token]), Refused>
    ensures { Gives (λ x. (map edge_tree x.0.items, x.1.now)) result ((grammar.edges text.now).read tokens.now) }
{
    let (_, rest) = word(tokens, TokenKind::OpenParenthesis)?;
    let (edges, rest) = separated::<EachEdge>(alloc, text, TokenKind::Comma, rest)?;
    let (_, rest) = word(rest, TokenKind::CloseParenthesis)?;
    Ok((edges, rest))
}

fn range_bound<'a>(
    alloc: Global,
    text: &[u8],
    tokens: &'a [Token],
) -> Result<(BoundText, &'a [Token]), Refused>
    ensures { Gives (λ x. (bound_tree x.0, x.1.now)) result ((grammar.range_bound text.now).read tokens.now) }
{
    let (_, rest) = word(tokens, TokenKind::From)?;
    let (from, rest) = point(alloc, text, rest)?;
    let (_, rest) = word(rest, TokenKind::To)?;
    let (to, rest) = point(alloc, text, rest)?;
    let bound = BoundText::Range(EdgeList::from_vec(from), EdgeList::from_vec(to));
    Ok((bound, rest))
}

fn list_bound<'a>(
    alloc: Global,
    text: &[u8],
    tokens: &'a [Token],
) -> Result<(BoundText, &'a [Token]), Refused>
    ensures { Gives (λ x. (bound_tree x.0, x.1.now)) result ((grammar.list_bound text.now).read tokens.now) }
{
    let (_, rest) = word(tokens, TokenKind::In)?;
    let (_, rest) = word(rest, TokenKind::OpenParenthesis)?;
    let (values, rest) = separated::<ExprPart>(alloc, text, TokenKind::Comma, rest)?;
    let (_, rest) = word(rest, TokenKind::CloseParenthesis)?;
    Ok((BoundText::List(ExprList::from_vec(values)), rest))
}

fn hash_bound<'a>(text: &[u8], tokens: &'a [Token]) -> Result<(BoundText, &'a [Token]), Refused>
    ensures { Gives (λ x. (bound_tree x.0, x.1.now)) result ((grammar.hash_bound text.now).read tokens.now) }
{
    let (_, rest) = word(tokens, TokenKind::With)?;
    let (_, rest) = word(rest, TokenKind::OpenParenthesis)?;
    let (_, rest) = word(rest, TokenKind::Modulus)?;
    let (modulus, rest) = number(text, rest)?;
    let (_, rest) = word(rest, TokenKind::Comma)?;
    let (_, rest) = word(rest, TokenKind::Remainder)?;
    let (remainder, rest) = number(text, rest)?;
    let (_, rest) = word(rest, TokenKind::CloseParenthesis)?;
    Ok((BoundText::Hash(modulus, remainder), rest))
}

fn values_bound<'a>(
    alloc: Global,
    text: &[u8],
    tokens: &'a [Token],
) -> Result<(BoundText, &'a [Token]), Refused>
    ensures { Gives (λ x. (bound_tree x.0, x.1.now)) result ((grammar.values_bound text.now).read tokens.now) }
{
    if comes(tokens, TokenKind::From) {
        range_bound(alloc, text, tokens)
    } else if comes(tokens, TokenKind::In) {
        list_bound(alloc, text, tokens)
    } else {
        hash_bound(text, tokens)
    }
}

pub(crate) fn bound<'a>(
    alloc: Global,
    text: &[u8],
    tokens: &'a [Token],
) -> Result<(BoundText, &'a [Token]), Refused>
    ensures { Gives (λ x. (bound_tree x.0, x.1.now)) result ((grammar.bound text.now).read tokens.now) }
{
    if comes(tokens, TokenKind::For) {
        let (_, rest) = word(tokens, TokenKind::For)?;
        let (_, rest) = word(rest, TokenKind::Values)?;
        return values_bound(alloc, text, rest);
    }
    let (_, rest) = word(tokens, TokenKind::Default)?;
    Ok((BoundText::Default, rest))
}
