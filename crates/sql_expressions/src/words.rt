ghost use Rattle.std.specs.Prelude.{◌≡◌};
ghost use Rattle.grammar.specs.Gives.{Gives};
ghost use Rattle.grammar.specs.Reading.{begins_in};
ghost use Rattle.sql_expressions.specs.Words as words;

use grammar::{Refused, comes, split, word};
use pg_values::PgText;
use sql_ast::Leaf;
use sql_tokens::{Token, TokenKind, is_name, name_of, number_of, same_kind, string_of};
use std::alloc::Global;

/// The most bytes of a name, behind its folding and between its quotes.
pub const MOST_NAME_BYTES: usize = 63;

/// The most bytes of a string, between its quotes.
pub const MOST_TEXT_BYTES: usize = 8192;

/// A name that is not too long, with the kind of its token.
pub fn name<'a>(
    alloc: Global,
    text: &[u8],
    tokens: &'a [Token],
) -> Result<(TokenKind, PgText, &'a [Token]), Refused>
    ensures { Gives (λ x. ((x.0, x.1), x.2.now)) result ((words.name text.now).read tokens.now) }
{
    let Some((first, rest)) = split(tokens) else {
        return Err(Refused::Syntax(0));
    };
    if !is_name(first.kind) {
        return Err(Refused::Syntax(tokens.len()));
    }
    let name = name_of(alloc, text, first)?;
    if MOST_NAME_BYTES < name.as_bytes().len() {
        return Err(Refused::Limit(tokens.len()));
    }
    Ok((first.kind, name, rest))
}

/// A string that is not too long.
pub fn string<'a>(
    alloc: Global,
    text: &[u8],
    tokens: &'a [Token],
) -> Result<(PgText, &'a [Token]), Refused>
    ensures { Gives (λ x. (x.0, x.1.now)) result ((words.string text.now).read tokens.now) }
{
    let Some((first, rest)) = split(tokens) else {
        return Err(Refused::Syntax(0));
    };
    if !same_kind(first.kind, TokenKind::Text) {
        return Err(Refused::Syntax(tokens.len()));
    }
    let string = string_of(alloc, text, first)?;
    if MOST_TEXT_BYTES < string.as_bytes().len() {
        return Err(Refused::Limit(tokens.len()));
    }
    Ok((string, rest))
}

/// A value that is written out, or a parameter.
pub(crate) fn literal<'a>(
    alloc: Global,
    text: &[u8],
    tokens: &'a [Token],
) -> Result<(Leaf, &'a [Token]), Refused>
    ensures { Gives (λ x. (x.0, x.1.now)) result ((words.literal text.now).read tokens.now) }
{
    let Some((first, rest)) = split(tokens) else {
        return Err(Refused::Syntax(0));
    };
    if same_kind(first.kind, TokenKind::Number) {
        Ok((Leaf::Number(number_of(text, first)), rest))
    } else if same_kind(first.kind, TokenKind::Text) {
        let (string, rest) = string(alloc, text, tokens)?;
        Ok((Leaf::Text(string), rest))
    } else if same_kind(first.kind, TokenKind::Null) {
        Ok((Leaf::Null, rest))
    } else if same_kind(first.kind, TokenKind::True) {
        Ok((Leaf::Truth(true), rest))
    } else if same_kind(first.kind, TokenKind::False) {
        Ok((Leaf::Truth(false), rest))
    } else if same_kind(first.kind, TokenKind::Parameter) {
        Ok((Leaf::Parameter(number_of(text, first)), rest))
    } else {
        Err(Refused::Syntax(tokens.len()))
    }
}

/// Whether a value that is written out, or a parameter, comes next.
pub(crate) fn literal_comes(tokens: &[Token]) -> bool
    ensures { result ≡ begins_in words.a_literal tokens.now }
{
    comes(tokens, TokenKind::Number)
        || comes(tokens, TokenKind::Text)
        || comes(tokens, TokenKind::Null)
        || comes(tokens, TokenKind::True)
        || comes(tokens, TokenKind::False)
        || comes(tokens, TokenKind::Parameter)
}

/// A cast to `regclass`.
fn cast(tokens: &[Token]) -> Result<(Token, &[Token]), Refused>
    ensures { Gives (λ x. (x.0, x.1.now)) result (words.past_cast.read tokens.now) }
{
    let (_, rest) = word(tokens, TokenKind::TypeCast)?;
    word(rest, TokenKind::Regclass)
}

/// Behind the name of a table: a point and a column.
fn dotted<'a>(
    alloc: Global,
    text: &[u8],
    table: PgText,
    tokens: &'a [Token],
) -> Result<(Leaf, &'a [Token]), Refused>
    ensures { Gives (λ x. (x.0, x.1.now)) result ((words.dotted text.now table).read tokens.now) }
{
    let (_, rest) = word(tokens, TokenKind::Dot)?;
    let (kind, column, rest) = name(alloc, text, rest)?;
    if same_kind(kind, TokenKind::Tableoid) && comes(rest, TokenKind::TypeCast) {
        let (_, rest) = cast(rest)?;
        return Ok((Leaf::TableNameOf(table), rest));
    }
    Ok((Leaf::ColumnOf(table, column), rest))
}

/// Behind a name that is no function.
pub(crate) fn column<'a>(
    alloc: Global,
    text: &[u8],
    kind: TokenKind,
    name: PgText,
    tokens: &'a [Token],
) -> Result<(Leaf, &'a [Token]), Refused>
    ensures { Gives (λ x. (x.0, x.1.now)) result ((words.column text.now (kind, name)).read tokens.now) }
{
    if comes(tokens, TokenKind::Dot) {
        return dotted(alloc, text, name, tokens);
    }
    if same_kind(kind, TokenKind::Date) && comes(tokens, TokenKind::Text) {
        let (day, rest) = string(alloc, text, tokens)?;
        return Ok((Leaf::Date(day), rest));
    }
    if same_kind(kind, TokenKind::Tableoid) && comes(tokens, TokenKind::TypeCast) {
        let (_, rest) = cast(tokens)?;
        return Ok((Leaf::TableName, rest));
    }
    Ok((Leaf::Column(name), tokens))
}
