ghost use Rattle.std.specs.Prelude.{◌≡◌, ◌∷◌, [], length, map};
ghost use Rattle.grammar.specs.Gives.{Gives};
ghost use Rattle.grammar.specs.Reading.{begins_in};
ghost use Rattle.sql_syntax.specs.QueryGrammar as grammar;
ghost use Rattle.sql_ast.specs.Queries.{joined_tree, maybe_tree};

use grammar::{Begun, Part, Refused, comes, many, name_comes, word};
use pg_values::PgText;
use sql_ast::{Expr, FromItem, NamedTable};
use sql_expressions::{expression, plain_name};
use sql_tokens::{Token, TokenKind};
use std::alloc::Global;

fn table_alias<'a>(
    alloc: Global,
    text: &[u8],
    tokens: &'a [Token],
) -> Result<(Option<PgText>, &'a [Token]), Refused>
    ensures { Gives (λ x. (x.0, x.1.now)) result ((grammar.table_alias text.now).read tokens.now) }
{
    if comes(tokens, TokenKind::As) {
        let (_, rest) = word(tokens, TokenKind::As)?;
        let (name, rest) = plain_name(alloc, text, rest)?;
        return Ok((Some(name), rest));
    }
    if !name_comes(tokens) {
        return Ok((None, tokens));
    }
    let (name, rest) = plain_name(alloc, text, tokens)?;
    Ok((Some(name), rest))
}

/// A table, and the name that it goes by.
pub(crate) fn named_table<'a>(
    alloc: Global,
    text: &[u8],
    tokens: &'a [Token],
) -> Result<(NamedTable, &'a [Token]), Refused>
    ensures { Gives (λ x. (x.0, x.1.now)) result ((grammar.named_table text.now).read tokens.now) }
{
    let (name, rest) = plain_name(alloc, text, tokens)?;
    let (alias, rest) = table_alias(alloc, text, rest)?;
    Ok((NamedTable { name, alias }, rest))
}

/// JOIN, a table, and its condition.
fn joined_table<'a>(
    alloc: Global,
    text: &[u8],
    tokens: &'a [Token],
) -> Result<(FromItem, &'a [Token]), Refused>
    ensures { Gives (λ x. (joined_tree x.0, x.1.now)) result ((grammar.joined_table text.now).read tokens.now) }
{
    let (_, rest) = word(tokens, TokenKind::Join)?;
    let (table, rest) = named_table(alloc, text, rest)?;
    let (_, rest) = word(rest, TokenKind::On)?;
    let (condition, rest) = expression(alloc, text, rest)?;
    let on = Some(condition);
    Ok((FromItem { table, on }, rest))
}

/// A table of FROM behind the first.
fn joint<'a>(
    alloc: Global,
    text: &[u8],
    tokens: &'a [Token],
) -> Result<(FromItem, &'a [Token]), Refused>
    ensures { Gives (λ x. (joined_tree x.0, x.1.now)) result ((grammar.joint text.now).read tokens.now) }
{
    if comes(tokens, TokenKind::Comma) {
        let (_, rest) = word(tokens, TokenKind::Comma)?;
        let (table, rest) = named_table(alloc, text, rest)?;
        return Ok((FromItem { table, on: None }, rest));
    }
    if comes(tokens, TokenKind::Inner) {
        let (_, rest) = word(tokens, TokenKind::Inner)?;
        return joined_table(alloc, text, rest);
    }
    joined_table(alloc, text, tokens)
}

struct EachJoint;

impl Part for EachJoint {
    ghost use Rattle.sql_syntax.specs.QueryGrammar as grammar;
    ghost use Rattle.sql_ast.specs.Queries.{Joined, joined_tree};

    type Token = Token;

    type Item = FromItem;

    ghost Tree = { Joined };

    ghost tree = { joined_tree };

    ghost rule = { grammar.joint };

    fn read<'a>(
        alloc: Global,
        text: &[u8],
        tokens: &'a [Token],
    ) -> Result<(FromItem, &'a [Token]), Refused> {
        joint(alloc, text, tokens)
    }
}

impl Begun for EachJoint {
    ghost use Rattle.sql_syntax.specs.QueryGrammar as grammar;

    ghost begins = { grammar.is_joint };

    fn comes(tokens: &[Token]) -> bool {
        comes(tokens, TokenKind::Comma)
            || comes(tokens, TokenKind::Inner)
            || comes(tokens, TokenKind::Join)
    }
}

/// The tables of FROM.
fn tables<'a>(
    alloc: Global,
    text: &[u8],
    tokens: &'a [Token],
) -> Result<(Vec<FromItem>, &'a [Token]), Refused>
    ensures { Gives (λ x. (map joined_tree x.0.items, x.1.now)) result ((grammar.tables text.now).read tokens.now) }
{
    let (table, rest) = named_table(alloc, text, tokens)?;
    let mut items = Vec::new(alloc);
    items.push(FromItem { table, on: None })?;
    many::<EachJoint>(alloc, text, items, rest)
}

/// FROM and its tables, or none.
pub(crate) fn from<'a>(
    alloc: Global,
    text: &[u8],
    tokens: &'a [Token],
) -> Result<(Vec<FromItem>, &'a [Token]), Refused>
    ensures { Gives (λ x. (map joined_tree x.0.items, x.1.now)) result ((grammar.from text.now).read tokens.now) }
{
    if !comes(tokens, TokenKind::From) {
        return Ok((Vec::new(alloc), tokens));
    }
    let (_, rest) = word(tokens, TokenKind::From)?;
    tables(alloc, text, rest)
}

/// WHERE and its condition, or none.
pub(crate) fn condition<'a>(
    alloc: Global,
    text: &[u8],
    tokens: &'a [Token],
) -> Result<(Option<Expr>, &'a [Token]), Refused>
    ensures { Gives (λ x. (maybe_tree x.0, x.1.now)) result ((grammar.condition text.now).read tokens.now) }
{
    if !comes(tokens, TokenKind::Where) {
        return Ok((None, tokens));
    }
    let (_, rest) = word(tokens, TokenKind::Where)?;
    let (condition, rest) = expression(alloc, text, rest)?;
    Ok((Some(condition), rest))
}
