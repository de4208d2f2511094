ghost use Rattle.std.specs.Prelude.{◌≡◌, map};
ghost use Rattle.grammar.specs.Gives.{Gives};
ghost use Rattle.sql_syntax.specs.QueryGrammar as grammar;
ghost use Rattle.sql_ast.specs.Queries.{key_tree, maybe_tree, select_tree};

use crate::from::{condition, from};
use crate::items::EachItem;
use grammar::{Part, Refused, comes, separated, word};
use pg_values::ListOf;
use sql_ast::{Expr, Select, SortKey};
use sql_expressions::{expression, maybe_one_of, one_of};
use sql_tokens::{Token, TokenKind, same_kind};
use std::alloc::Global;

/// NULLS FIRST or NULLS LAST, or nothing.
fn nulls(tokens: &[Token]) -> Result<(Option<Token>, &[Token]), Refused>
    ensures { Gives (λ x. (x.0, x.1.now)) result ((grammar.nulls).read tokens.now) }
{
    if !comes(tokens, TokenKind::Nulls) {
        return Ok((None, tokens));
    }
    let (_, rest) = word(tokens, TokenKind::Nulls)?;
    let (end, rest) = one_of(rest, TokenKind::First, TokenKind::Last)?;
    Ok((Some(end), rest))
}

fn descends(direction: Option<Token>) -> bool
    ensures { result ≡ grammar.descends direction }
{
    match direction {
        None => false,
        Some(token) => same_kind(token.kind, TokenKind::Desc),
    }
}

fn are_first(descending: bool, end: Option<Token>) -> bool
    ensures { result ≡ grammar.are_first descending end }
{
    match end {
        None => descending,
        Some(token) => same_kind(token.kind, TokenKind::First),
    }
}

fn key<'a>(
    alloc: Global,
    text: &[u8],
    tokens: &'a [Token],
) -> Result<(SortKey, &'a [Token]), Refused>
    ensures { Gives (λ x. (key_tree x.0, x.1.now)) result ((grammar.key text.now).read tokens.now) }
{
    let (value, rest) = expression(alloc, text, tokens)?;
    let (direction, rest) = maybe_one_of(rest, TokenKind::Asc, TokenKind::Desc)?;
    let (end, rest) = nulls(rest)?;
    let descending = descends(direction);
    let nulls_first = are_first(descending, end);
    let key = SortKey {
        value,
        descending,
        nulls_first,
    };
    Ok((key, rest))
}

struct EachKey;

impl Part for EachKey {
    ghost use Rattle.sql_syntax.specs.QueryGrammar as grammar;
    ghost use Rattle.sql_ast.specs.Queries.{Key, key_tree};

    type Token = Token;

    type Item = SortKey;

    ghost Tree = { Key };

    ghost tree = { key_tree };

    ghost rule = { grammar.key };

    fn read<'a>(
        alloc: Global,
        text: &[u8],
        tokens: &'a [Token],
    ) -> Result<(SortKey, &'a [Token]), Refused> {
        key(alloc, text, tokens)
    }
}

/// ORDER BY and its keys, or none.
fn order<'a>(
    alloc: Global,
    text: &[u8],
    tokens: &'a [Token],
) -> Result<(Vec<SortKey>, &'a [Token]), Refused>
    ensures { Gives (λ x. (map key_tree x.0.items, x.1.now)) result ((grammar.order text.now).read tokens.now) }
{
    if !comes(tokens, TokenKind::Order) {
        return Ok((Vec::new(alloc), tokens));
    }
    let (_, rest) = word(tokens, TokenKind::Order)?;
    let (_, rest) = word(rest, TokenKind::By)?;
    separated::<EachKey>(alloc, text, TokenKind::Comma, rest)
}

fn count<'a>(
    alloc: Global,
    text: &[u8],
    tokens: &'a [Token],
) -> Result<(Option<Expr>, &'a [Token]), Refused>
    ensures { Gives (λ x. (maybe_tree x.0, x.1.now)) result ((grammar.count text.now).read tokens.now) }
{
    if comes(tokens, TokenKind::All) {
        let (_, rest) = word(tokens, TokenKind::All)?;
        return Ok((None, rest));
    }
    let (count, rest) = expression(alloc, text, tokens)?;
    Ok((Some(count), rest))
}

fn limit<'a>(
    alloc: Global,
    text: &[u8],
    tokens: &'a [Token],
) -> Result<(Option<Expr>, &'a [Token]), Refused>
    ensures { Gives (λ x. (maybe_tree x.0, x.1.now)) result ((grammar.limit text.now).read tokens.now) }
{
    if !comes(tokens, TokenKind::Limit) {
        return Ok((None, tokens));
    }
    let (_, rest) = word(tokens, TokenKind::Limit)?;
    count(alloc, text, rest)
}

fn offset<'a>(
    alloc: Global,
    text: &[u8],
    tokens: &'a [Token],
) -> Result<(Option<Expr>, &'a [Token]), Refused>
    ensures { Gives (λ x. (maybe_tree x.0, x.1.now)) result ((grammar.offset text.now).read tokens.now) }
{
    if !comes(tokens, TokenKind::Offset) {
        return Ok((None, tokens));
    }
    let (_, rest) = word(tokens, TokenKind::Offset)?;
    let (offset, rest) = expression(alloc, text, rest)?;
    Ok((Some(offset), rest))
}

pub(crate) fn select<'a>(
    alloc: Global,
    text: &[u8],
    tokens: &'a [Token],
) -> Result<(Select, &'a [Token]), Refused>
    ensures { Gives (λ x. (select_tree x.0, x.1.now)) result ((grammar.select text.now).read tokens.now) }
{
    let (_, rest) = word(tokens, TokenKind::Select)?;
    let (items, rest) = separated::<EachItem>(alloc, text, TokenKind::Comma, rest)?;
    let (from, rest) = from(alloc, text, rest)?;
    let (condition, rest) = condition(alloc, text, rest)?;
    let (order, rest) = order(alloc, text, rest)?;
    let (limit, rest) = limit(alloc, text, rest)?;
    let (offset, rest) = offset(alloc, text, rest)?;
    let select = Select {
        items: ListOf::from_vec(items),
        from: ListOf::from_vec(from),
        condition,
        order: ListOf::from_vec(order),
        limit,
        offset,
    };
    Ok((select, rest))
}
