ghost use Rattle.std.specs.Prelude.{◌≡◌};
ghost use Rattle.grammar.specs.Gives.{Gives};
ghost use Rattle.grammar.specs.Reading.{begins_in, read_one};
ghost use Rattle.grammar.specs.Words as words;
ghost use Rattle.sql_tokens.specs.Classes.{a};
ghost use Rattle.sql_expressions.specs.Lists as lists;

use crate::{MOST_NAME_BYTES, name};
use grammar::{Refused, comes, split, word};
use pg_values::PgText;
use sql_tokens::{Token, TokenKind, is_name, name_of, number_of, same_kind};
use std::alloc::Global;

/// Whether one of two words comes next.
pub fn one_of_comes(tokens: &[Token], one: TokenKind, other: TokenKind) -> bool
    ensures { result ≡ begins_in (words.one_of (a one) (a other)) tokens.now }
{
    comes(tokens, one) || comes(tokens, other)
}

/// One of two words.
pub fn one_of(
    tokens: &[Token],
    one: TokenKind,
    other: TokenKind,
) -> Result<(Token, &[Token]), Refused>
    ensures { Gives (λ x. (x.0, x.1.now)) result (read_one (words.one_of (a one) (a other)) tokens.now) }
{
    match split(tokens) {
        None => Err(Refused::Syntax(0)),
        Some((first, rest)) => {
            if same_kind(first.kind, one) || same_kind(first.kind, other) {
                Ok((first, rest))
            } else {
                Err(Refused::Syntax(tokens.len()))
            }
        }
    }
}

/// One of two words, or nothing.
pub fn maybe_one_of(
    tokens: &[Token],
    one: TokenKind,
    other: TokenKind,
) -> Result<(Option<Token>, &[Token]), Refused>
    ensures { Gives (λ x. (x.0, x.1.now)) result ((words.maybe (words.one_of (a one) (a other))).read tokens.now) }
{
    if !one_of_comes(tokens, one, other) {
        return Ok((None, tokens));
    }
    let (first, rest) = one_of(tokens, one, other)?;
    Ok((Some(first), rest))
}

/// A name, whatever word it is.
pub fn plain_name<'a>(
    alloc: Global,
    text: &[u8],
    tokens: &'a [Token],
) -> Result<(PgText, &'a [Token]), Refused>
    ensures { Gives (λ x. (x.0, x.1.now)) result ((lists.plain_name text.now).read tokens.now) }
{
    let (_, name, rest) = name(alloc, text, tokens)?;
    Ok((name, rest))
}

/// Whether a name that is not this word comes next.
pub fn other_name_comes(tokens: &[Token], kind: TokenKind) -> bool
    ensures { result ≡ begins_in (lists.is_other_name kind) tokens.now }
{
    match split(tokens) {
        None => false,
        Some((first, _)) => is_name(first.kind) && !same_kind(first.kind, kind),
    }
}

/// A name that is not this word.
pub fn other_name<'a>(
    alloc: Global,
    text: &[u8],
    kind: TokenKind,
    tokens: &'a [Token],
) -> Result<(PgText, &'a [Token]), Refused>
    ensures { Gives (λ x. (x.0, x.1.now)) result ((lists.other_name text.now kind).read tokens.now) }
{
    let Some((first, rest)) = split(tokens) else {
        return Err(Refused::Syntax(0));
    };
    if !is_name(first.kind) || same_kind(first.kind, kind) {
        return Err(Refused::Syntax(tokens.len()));
    }
    let name = name_of(alloc, text, first)?;
    if MOST_NAME_BYTES < name.as_bytes().len() {
        return Err(Refused::Limit(tokens.len()));
    }
    Ok((name, rest))
}

/// A name, where this word is never too long.
pub fn name_but<'a>(
    alloc: Global,
    text: &[u8],
    kind: TokenKind,
    tokens: &'a [Token],
) -> Result<(PgText, &'a [Token]), Refused>
    ensures { Gives (λ x. (x.0, x.1.now)) result ((lists.name_but text.now kind).read tokens.now) }
{
    let Some((first, rest)) = split(tokens) else {
        return Err(Refused::Syntax(0));
    };
    if !is_name(first.kind) {
        return Err(Refused::Syntax(tokens.len()));
    }
    let name = name_of(alloc, text, first)?;
    if MOST_NAME_BYTES < name.as_bytes().len() && !same_kind(first.kind, kind) {
        return Err(Refused::Limit(tokens.len()));
    }
    Ok((name, rest))
}

/// A whole number.
pub fn number<'a>(text: &[u8], tokens: &'a [Token]) -> Result<(u64, &'a [Token]), Refused>
    ensures { Gives (λ x. (x.0, x.1.now)) result ((lists.number text.now).read tokens.now) }
{
    let (first, rest) = word(tokens, TokenKind::Number)?;
    Ok((number_of(text, first), rest))
}
